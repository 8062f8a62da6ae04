//! The caches that are live at a line.
ghost use Rattle.std.specs.Prelude.{◌≡◌, ◌≤◌, length, None, IfOk, option_map, slice_set};
ghost use Rattle.jc_model.specs.Places.{at_place};
ghost use Rattle.jc_model.specs.Limits.{most_processors};
ghost use Rattle.jc_model.specs.Runs.{opened_from, create_refusal};
ghost use Rattle.jc_script.specs.declared.fault.Member.TheVariants as members;
ghost use Rattle.jc_script.specs.Live.{id_of_live, processors_at, lives_in, after_creating, after_destroying, AreAfter};
ghost use Rattle.jc_script.specs.Member.{cache};
ghost use Rattle.jc_script.specs.Reading.{ReadsMember};

use crate::fault::{Member, ScriptFault};
use crate::item::key_in;
use crate::line::Line;
use crate::member::Reader;
use jc_config::Settings;
use jc_model::OutOfMemory;
use jc_model::config::CacheConfig;
use jc_model::event::{CacheId, CreateRefusal};
use jc_model::key::Key;
use jc_model::roster::Roster;
use jc_model::share::Share;
use std::alloc::Global;
use std::marker::Model;

/// The caches that are live, by id. Contracts see their configurations.
#[derive(Drop)]
pub struct Live {
    caches: Vec<Option<CacheConfig>>,
    roster: Roster,
}

impl Model for Live {
    ghost use Rattle.std.specs.Prelude.{List, Option};
    ghost use Rattle.jc_model.specs.declared.config.CacheConfig.{CacheConfig};
    ghost use Rattle.jc_script.specs.Live.{IsFollowed};

    ghost Value = { List (Option CacheConfig) };

    ghost view = { λ l. l.caches.items };

    ghost invariant = { λ l. IsFollowed l.caches.items l.roster };
}

/// The cache with that id, if it is live.
fn live_in(caches: &[Option<CacheConfig>], id: u32) -> Option<&CacheConfig>
    ensures { option_map (λ c. c.now) result ≡ at_place caches.now id }
{
    match caches.get(id as usize) {
        Some(Some(cache)) => Some(cache),
        _ => None,
    }
}

/// Leaves the place of that id empty.
fn vacate(caches: &mut Vec<Option<CacheConfig>>, id: u32)
    ensures { caches.new.items ≡ slice_set caches.old.items id None }
{
    let place = id as usize;
    if place < caches.len() {
        caches[place] = None;
    }
}

impl Live {
    /// These caches, none of which was destroyed.
    pub fn new(alloc: Global, settings: &Settings) -> Result<Live, OutOfMemory>
        ensures { IfOk result (λ live. lives_in live ≡ opened_from 0 settings.now) }
    {
        let mut caches = Vec::new(alloc);
        let mut roster = Roster::new(alloc, 0);
        for cache in settings.caches() {
            roster.add(cache.name, cache.capacity)?;
            caches.push(Some(cache.share()?))?;
        }
        Ok(Live { caches, roster })
    }

    /// The id of the live cache of that name.
    fn find(&self, name: &Key) -> Option<u32>
        ensures { result ≡ id_of_live (lives_in self.now) name.now }
    {
        self.roster.find(name)
    }

    /// How many processors the cache with that id has.
    pub fn processors(&self, id: u32) -> usize
        ensures count { result ≡ processors_at (lives_in self.now) id }
        ensures few { result ≤ most_processors }
    {
        match live_in(&self.caches, id) {
            Some(cache) => cache.processors.items().len(),
            None => 0,
        }
    }

    /// Why a cache of this configuration is not created, want of memory aside.
    pub fn refusal(&self, config: &CacheConfig) -> Option<CreateRefusal>
        ensures { result ≡ create_refusal (lives_in self.now) config.now }
    {
        self.roster.refusal(config)
    }

    /// The id that the next cache gets.
    pub fn next(&self) -> u32
        ensures { result ≡ length (lives_in self.now) }
    {
        self.roster.next()
    }

    /// The name of the live cache with that id.
    pub fn name(&self, id: CacheId) -> Option<Key>
        ensures { result ≡ option_map (λ k. k.config.name) (at_place (lives_in self.now) id) }
    {
        match live_in(&self.caches, id.number()) {
            Some(cache) => Some(cache.name),
            None => None,
        }
    }

    /// Adds a cache under the next id. Where the manager would refuse it, nothing changes, and that is no error here.
    pub fn create(self, config: &CacheConfig) -> Result<Live, OutOfMemory>
        ensures { IfOk result (λ live. lives_in live ≡ after_creating (lives_in self) config.now) }
    {
        if self.roster.refusal(config).is_some() {
            return Ok(self);
        }
        let Live {
            mut caches,
            mut roster,
        } = self;
        roster.add(config.name, config.capacity)?;
        caches.push(Some(config.share()?))?;
        Ok(Live { caches, roster })
    }

    /// Frees the cache's name and capacity, and never its id. Where no cache is live at the id, nothing changes.
    pub fn destroy(self, id: CacheId) -> Live
        ensures { lives_in result ≡ after_destroying (lives_in self) id }
    {
        if live_in(&self.caches, id.number()).is_none() {
            return self;
        }
        let Live {
            mut caches,
            mut roster,
        } = self;
        vacate(&mut caches, id.number());
        roster.remove(id.number());
        Live { caches, roster }
    }

    /// The caches that are live after a line.
    pub fn after(self, line: &Line) -> Result<Live, OutOfMemory>
        ensures { IfOk result (AreAfter self line.now) }
    {
        match line {
            Line::Call(_) => Ok(self),
            Line::Create { config, .. } => self.create(config),
            Line::Destroy { id, .. } => Ok(self.destroy(*id)),
        }
    }
}

/// The id of the live cache that a line names.
pub fn read_cache(live: &Live, reader: &Reader<'_, '_>) -> Result<u32, ScriptFault>
    ensures { ReadsMember (cache (lives_in live.now)) members.Cache reader.now result }
{
    let member = Member::Cache;
    match reader.member(member).and_then(key_in) {
        None => Err(reader.bad(member)),
        Some(name) => match live.find(&name) {
            Some(id) => Ok(id),
            None => Err(reader.bad(member)),
        },
    }
}
