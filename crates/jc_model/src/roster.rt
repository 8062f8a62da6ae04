//! What a manager knows of its live caches: their names, numbers and capacities.
ghost use Rattle.std.specs.Prelude.{◌≡◌, ◌≤◌, ◌<◌, ◌+◌, [], Some, None, IfOk, OnOk, OnErr, length, map, slice_set};
ghost use Rattle.std.specs.List.{list_any};
ghost use Rattle.std.specs.Str.{bytes_eq};
ghost use Rattle.jc_model.specs.Limits.{most_ids, most_rows_together};
ghost use Rattle.jc_model.specs.Places.{at_place, all_there, none_before};
ghost use Rattle.jc_model.specs.Refusals.{Member, rows_of, refusal_beside};
ghost use Rattle.jc_model.specs.Members.{AddsMember, id_named, numbers_from};

use crate::OutOfMemory;
use crate::config::CacheConfig;
use crate::event::CreateRefusal;
use crate::key::Key;
use crate::limits::{MOST_CACHES, MOST_IDS, MOST_ROWS_TOGETHER};
use std::alloc::Global;
use std::collections::HashMap;
use std::marker::Model;

/// The live caches by name and number. Contracts see all numbers given so far: at each the cache, or none where it
/// was removed. Memory is kept for the live ones alone.
#[derive(Drop)]
pub struct Roster {
    /// The number that the next cache gets.
    next: u32,
    /// The numbers of the live caches, rising.
    order: Vec<u32>,
    /// Their names, in the same order.
    names: Vec<Key>,
    /// Their capacities, in the same order.
    capacities: Vec<u32>,
    /// The number of each name.
    ids: HashMap<Key, u32>,
    /// The sum of the capacities.
    total: u64,
}

impl Model for Roster {
    ghost use Rattle.std.specs.Prelude.{List, Option};
    ghost use Rattle.std.specs.HashMap.{get};
    ghost use Rattle.std.specs.Str.{bytes_eq};
    ghost use Rattle.jc_model.specs.Refusals.{Member};
    ghost use Rattle.jc_model.specs.Members.{members};
    ghost use Rattle.jc_model.specs.Fields.{spread, IsRoster};

    ghost Value = { List (Option Member) };

    ghost view = { λ r. spread r.next 0 r.order.items (members r.names.items r.capacities.items) };

    ghost invariant = { λ r. IsRoster
        (spread r.next 0 r.order.items (members r.names.items r.capacities.items))
        r.next r.order.items r.names.items r.capacities.items (get bytes_eq r.ids) r.total };
}

impl Roster {
    /// No caches; the next gets this number.
    pub fn new(alloc: Global, first: u32) -> Roster
        requires { first ≤ most_ids }
        ensures { result ≡ none_before first [] }
    {
        Roster {
            next: first,
            order: Vec::new(alloc),
            names: Vec::new(alloc),
            capacities: Vec::new(alloc),
            ids: HashMap::new(alloc),
            total: 0,
        }
    }

    /// The number that the next cache gets.
    pub fn next(&self) -> u32
        ensures same { result ≡ length self.now }
        ensures bound { length self.now ≤ most_ids }
    {
        self.next
    }

    /// How many caches are live.
    pub fn len(&self) -> usize
        ensures { result ≡ length (all_there self.now) }
    {
        self.names.len()
    }

    /// How many rows they may have together.
    pub fn total(&self) -> u64
        ensures same { result ≡ rows_of self.now }
        ensures bound { rows_of self.now ≤ most_rows_together }
    {
        self.total
    }

    /// Their names, in order of number.
    pub fn names(&self) -> &[Key]
        ensures { result.now ≡ map (λ m. m.name) (all_there self.now) }
    {
        self.names.as_slice()
    }

    /// The numbers of the live caches, rising.
    pub fn numbers(&self) -> &[u32]
        ensures { result.now ≡ numbers_from 0 self.now }
    {
        self.order.as_slice()
    }

    /// The number of the live cache with this name.
    pub fn find(&self, name: &Key) -> Option<u32>
        ensures { result ≡ id_named name.now self.now }
    {
        self.ids.get(name).copied()
    }

    /// Whether a live cache has this name.
    #[tactic(auto, using(crate::proofs::Members::any_named))]
    fn has_name(&self, name: &Key) -> bool
        ensures { result ≡ list_any (λ m. bytes_eq m.name name.now) (all_there self.now) }
    {
        self.find(name).is_some()
    }

    /// Why no cache of this configuration is created, want of memory aside.
    pub fn refusal(&self, config: &CacheConfig) -> Option<CreateRefusal>
        ensures { result ≡ refusal_beside self.now config.now }
    {
        if self.len() >= MOST_CACHES {
            return Some(CreateRefusal::TooManyCaches);
        }
        if let Some(limit) = config.broken_limit() {
            return Some(CreateRefusal::for_limit(limit));
        }
        if self.has_name(&config.name) {
            Some(CreateRefusal::DuplicateName)
        } else if self.total() + u64::from(config.capacity) > MOST_ROWS_TOGETHER {
            Some(CreateRefusal::TotalCapacity)
        } else if self.next() >= MOST_IDS {
            Some(CreateRefusal::IdsSpent)
        } else {
            None
        }
    }

    /// Adds a cache under the next number.
    pub fn add(&mut self, name: Key, capacity: u32) -> Result<u32, OutOfMemory>
        requires ids { length self.old < most_ids }
        requires new { id_named name self.old ≡ None }
        requires rows { rows_of self.old + capacity ≤ most_rows_together }
        ensures ok { OnOk result (AddsMember name capacity self.old self.new) }
        ensures number { IfOk result (λ number. number ≡ length self.old) }
        ensures err { OnErr result (self.new ≡ self.old) }
    {
        self.order.reserve(1)?;
        self.names.reserve(1)?;
        self.capacities.reserve(1)?;
        let number = self.next;
        self.ids.insert(name, number)?;
        self.next = number + 1;
        self.order.push_reserved(number);
        self.names.push_reserved(name);
        self.capacities.push_reserved(capacity);
        self.total += u64::from(capacity);
        Ok(number)
    }

    /// Removes a live cache; its number is not given again. Takes no memory.
    pub fn remove(&mut self, number: u32)
        requires { (m : Member) × (at_place self.old number ≡ Some m) }
        ensures { self.new ≡ slice_set self.old number None }
    {
        let Ok(place) = self.order.binary_search(&number) else {
            unreachable!()
        };
        self.order.remove(place);
        let name = self.names.remove(place);
        self.ids.remove(&name);
        self.total -= u64::from(self.capacities.remove(place));
    }
}
