//! How caches are dealt out to managers, by their names.
ghost use Rattle.std.specs.Prelude.{◌≡◌, ◌/◌, ◌^◌, ◌<◌, ◌%◌, IfOk, OnOk, OnErr};
ghost use Rattle.jc_shards.specs.Dealing.{hash_of, by_hash, with_turn, in_turn, spread_of, goes_right, is_right, way_of, names_of, of_left, of_right, AreApart, GoInTurn};

use indexmap::IndexSet;
use jc_model::OutOfMemory;
use jc_model::config::CacheConfig;
use jc_model::key::Key;
use std::alloc::Global;
use std::hash::{DefaultHasher, Hasher};
use std::marker::Model;

/// How names are dealt out to managers. Those that the dealing has been told go in turn, so that no manager has two more
/// of them than another; all others go by a hash behind a seed (SipHash-1-3, as in std's `HashMap`). All who ask the
/// same managers have the same dealing. Who does not know the seed can't choose names that go to one manager.
#[derive(Drop)]
pub struct ShardMap {
    seed: u64,
    in_turn: IndexSet<Key>,
}

impl Model for ShardMap {
    ghost use Rattle.jc_shards.specs.Dealing.{Dealt, dealt_code};

    ghost Value = { Dealt };

    ghost coded = { dealt_code };

    ghost view = { λ dealing. record { seed = dealing.seed; turns = dealing.in_turn.keys } };
}

impl ShardMap {
    /// The dealing of this seed by which all names go by their hash. Any number serves.
    pub fn by_hash(alloc: Global, seed: u64) -> ShardMap
        ensures { result ≡ by_hash seed }
    {
        ShardMap {
            seed,
            in_turn: IndexSet::new(alloc),
        }
    }

    /// The dealing of this seed by which the names of these caches go in turn: the first to the first manager, and so on.
    pub fn in_turn(
        alloc: Global,
        seed: u64,
        configs: &[CacheConfig],
    ) -> Result<ShardMap, OutOfMemory>
        ensures dealing { IfOk result (λ dealing. dealing ≡ in_turn seed configs.now) }
        ensures go { IfOk result (λ dealing. AreApart (names_of configs.now) →
            GoInTurn dealing (names_of configs.now)) }
    {
        let mut dealing = ShardMap::by_hash(alloc, seed);
        for config in configs {
            dealing.add(config.name)?;
        }
        Ok(dealing)
    }

    /// Gives a name the next turn, if it has none. For managers that are not open yet: who asks such as are open has the
    /// dealing by which they were opened.
    pub fn add(&mut self, name: Key) -> Result<(), OutOfMemory>
        ensures ok { OnOk result (self.new ≡ with_turn self.old name) }
        ensures err { OnErr result (self.new ≡ self.old) }
    {
        self.in_turn.insert(name)?;
        Ok(())
    }

    /// The spread of a name: bits that tell, from the lowest up, the half at each level of a tree of pairs.
    pub fn spread_of(&self, name: &Key) -> u32
        ensures { result ≡ spread_of self.now name.now }
    {
        let number = match self.in_turn.get_index_of(name) {
            Some(turn) => turn as u64,
            None => hash_of(self.seed, name),
        };
        (number & 0xffff_ffff) as u32
    }

    /// Whether a name belongs to the right half at a level, counted from 0 at the outermost pair.
    pub fn is_right(&self, level: u32, name: &Key) -> bool
        ensures { result ≡ is_right self.now level name.now }
    {
        level < 32 && (self.spread_of(name) >> level) % 2 == 1
    }

    /// The way to a name where all ways have so many levels: its spread's lowest bits.
    pub fn way_of(&self, levels: u32, name: &Key) -> u32
        ensures { result ≡ way_of self.now levels name.now }
    {
        let spread = self.spread_of(name);
        if levels < 32 {
            spread % (1 << levels)
        } else {
            spread
        }
    }

    /// The caches whose names belong to the left half at this level, and those of the right, in their order.
    pub fn deal(
        &self,
        alloc: Global,
        level: u32,
        configs: Vec<CacheConfig>,
    ) -> Result<(Vec<CacheConfig>, Vec<CacheConfig>), OutOfMemory>
        ensures { IfOk result (λ halves. (halves.0.items ≡ of_left self.now level configs.items)
            × (halves.1.items ≡ of_right self.now level configs.items)) }
    {
        let mut left = Vec::new(alloc);
        let mut right = Vec::new(alloc);
        for config in configs {
            if self.is_right(level, &config.name) {
                right.push(config)?;
            } else {
                left.push(config)?;
            }
        }
        Ok((left, right))
    }
}

/// The hash of a name behind a seed.
fn hash_of(seed: u64, name: &Key) -> u64
    ensures { result ≡ hash_of seed name.now }
{
    let mut hasher = DefaultHasher::new();
    hasher.write(&seed.to_le_bytes());
    hasher.write(name.text().as_bytes());
    hasher.finish()
}
