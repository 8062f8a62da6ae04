//! The manager: many caches over one table of rows, each with at most one open call.
ghost use Rattle.std.specs.Prelude.{◌≡◌, IfOk, IfErr, OnOk, OnErr, is_some, option_map};
ghost use mathlib.Core.List.{IsPrefix};
ghost use Rattle.jc_model.specs.declared.event.Event.TheVariants.{Begin, Answer as Answered, GiveUp};
ghost use Rattle.jc_model.specs.Places.{at_place};
ghost use Rattle.jc_engine.specs.Caches.{AreSound, IsTableOf, asks_no_one, asks_no_one_in, names_of, id_of, holds_in};
ghost use Rattle.jc_engine.specs.Heard.{IsAnswer, IsFreeAnswer, FreeIsAnswered, LeadsTo};
ghost use Rattle.jc_engine.specs.Managed.{cache_in};
ghost use Rattle.jc_engine.specs.Results.{of_begin, of_resume, of_give_up};
ghost use Rattle.jc_engine.specs.Watching.{SeesCaches, SeesNoMore};

use crate::cache::Managed;
use jc_model::OutOfMemory;
use jc_model::call::{Answer, Call, Notice, Reply};
use jc_model::config::CacheConfig;
use jc_model::event::{CacheId, Cause, Step};
use jc_model::key::Key;
use jc_model::list::Sequence;
use jc_model::roster::Roster;
use jc_model::value::Value;
use jc_ops::visit::Visit;
use jc_ring::ring::Ring;
use jc_rows::rows::Rows;
use jc_rows::watched::Watched;
use std::alloc::Global;
use std::collections::HashMap;
use std::marker::Model;

/// Many caches over one table of rows. A cache's id is a place, and contracts see at each place that has been given
/// the live cache there, or that none is. Memory is kept for live caches alone.
#[derive(Drop)]
pub struct Engine<R: Rows, G: Ring> {
    pub(crate) alloc: Global,
    /// The table, and between two calls a cache without rows, and no notices.
    pub(crate) visit: Visit<R, G>,
    /// The live ones.
    pub(crate) caches: HashMap<u32, Managed<G>>,
    /// Their names and capacities, and which id is next.
    pub(crate) roster: Roster,
}

impl<R: Rows, G: Ring> Model for Engine<R, G> {
    ghost use Rattle.std.specs.Prelude.{List, Option, nat_eq, length};
    ghost use Rattle.std.specs.HashMap.{get};
    ghost use Rattle.jc_engine.specs.Caches.{Cache};

    ghost Value = { List (Option Cache) };

    ghost use Rattle.jc_engine.specs.Sound.{caches_in, IsManager};

    ghost view = { λ e. caches_in (get nat_eq e.caches) (length e.roster) };

    ghost invariant = { λ e. IsManager e.visit (get nat_eq e.caches) e.roster };
}

/// Whether a cache has no callbacks.
fn asks_no_one(config: &CacheConfig) -> bool
    ensures { result ≡ asks_no_one config.now }
{
    !config.loader
        && !config.writer
        && config.processors.items().is_empty()
        && config.listeners == 0
}

impl<R: Rows, G: Ring> Engine<R, G> {
    /// The id of the live cache with this name.
    pub fn cache(&self, name: &Key) -> Option<CacheId>
        ensures { result ≡ id_of name.now self.now }
    {
        Some(CacheId::new(self.roster.find(name)?))
    }

    /// The live cache with this id.
    pub(crate) fn find(&self, id: CacheId) -> Option<&Managed<G>>
        ensures { at_place self.now id ≡ option_map cache_in (option_map (λ cache. cache.now) result) }
    {
        self.caches.get(&id.number())
    }

    /// Whether a live cache has this id.
    pub fn is_live(&self, id: CacheId) -> bool
        ensures { result ≡ is_some (at_place self.now id) }
    {
        self.find(id).is_some()
    }

    /// Whether a live cache has this id and no callbacks: then none of its calls makes a request.
    pub fn asks_no_one(&self, id: CacheId) -> bool
        ensures { result ≡ asks_no_one_in (at_place self.now id) }
    {
        match self.find(id) {
            Some(cache) => asks_no_one(cache.state.config()),
            None => false,
        }
    }

    /// The names of the live caches, in order of id.
    pub fn names(&self) -> &[Key]
        ensures { result.now ≡ names_of self.now }
    {
        self.roster.names()
    }

    /// The table: exactly the rows of all live caches, with their expiries. At each moment, also while a call is open,
    /// the keys of a cache are distinct, and its rows are no more than its capacity.
    pub fn rows(&self) -> &R
        ensures sound { AreSound self.now }
        ensures table { IsTableOf (R.contents result.now) self.now }
    {
        self.visit.rows()
    }

    /// Whether a cache has a live row of this key. An id without a live cache has none. This is no use of the row.
    pub fn has(&self, id: CacheId, key: &Key, now: u64) -> bool
        ensures { result ≡ holds_in now key.now (at_place self.now id) }
    {
        match self.caches.get(&id.number()) {
            Some(cache) => cache.state.holds(self.visit.rows(), key, now),
            None => false,
        }
    }

    /// Begins a call: the step is its reply, or the next request to a hook of the cache.
    ///
    /// Refused as `NoSuchCache`, `Busy` (a call on this cache is open), `NoSuchProcessor`, `OutOfMemory`, in this order.
    /// `Contains`, `Clear`, `Stats` and `ClearStats` take no memory.
    pub fn begin(&mut self, id: CacheId, now: u64, call: Call) -> Result<Step, (Cause, Call)>
        ensures outcome { IsAnswer self.old (Begin id now call) (of_begin result) }
        ensures lives { LeadsTo self.old (Begin id now call) (of_begin result) self.new }
        ensures free { FreeIsAnswered self.old (Begin id now call) (of_begin result) }
        ensures back { IfErr result (λ e. e.1 ≡ call) }
        ensures refused { OnErr result (self.new ≡ self.old) }
    {
        if let Some(found) = self.get_at_once::<Value>(id, now, &call) {
            drop(call);
            return Ok(Step::Done(Reply::Found(found)));
        }
        match self.start(id, now, &call) {
            Ok(advance) => {
                drop(call);
                Ok(advance.into_step())
            }
            Err(cause) => Err((cause, call)),
        }
    }

    /// Hands the open call the answer to its request: the step is its reply, or its next request.
    ///
    /// Refused as `NoSuchCache`, `NoTurn` (no call is open), `WrongAnswer` (not of the awaited kind), `OutOfMemory`, in
    /// this order. `Told` takes no memory.
    pub fn resume(&mut self, id: CacheId, answer: Answer) -> Result<Step, (Cause, Answer)>
        ensures outcome { IsAnswer self.old (Answered id answer) (of_resume result) }
        ensures lives { LeadsTo self.old (Answered id answer) (of_resume result) self.new }
        ensures told { FreeIsAnswered self.old (Answered id answer) (of_resume result) }
        ensures back { IfErr result (λ e. e.1 ≡ answer) }
        ensures refused { OnErr result (self.new ≡ self.old) }
    {
        if let Some(cause) = self.resume_refusal(id, &answer) {
            return Err((cause, answer));
        }
        match self.go_on(id, answer) {
            Ok(advance) => Ok(advance.into_step()),
            Err(answer) => Err((Cause::OutOfMemory, answer)),
        }
    }

    /// Ends the open call without a reply. What its finished steps have changed stands, and the notices that no
    /// one was told are handed out. Refused as `NoSuchCache`, `NoTurn`; takes no memory.
    pub fn give_up(&mut self, id: CacheId) -> Result<Sequence<Notice>, Cause>
        ensures outcome { IsFreeAnswer self.old (GiveUp id) (of_give_up result) }
        ensures lives { LeadsTo self.old (GiveUp id) (of_give_up result) self.new }
        ensures refused { OnErr result (self.new ≡ self.old) }
    {
        match self.abandon(id)? {
            Some(left) => Ok(left.into_lists().0),
            None => Ok(Sequence::new(Vec::new(self.alloc))),
        }
    }
}

/// A manager whose table others may watch.
impl<R: Watched, G: Ring> Engine<R, G> {
    /// A watcher of the table. The last image that it has seen shows the caches as they are.
    #[tactic(auto, using(crate::proofs::Watching::caches_seen))]
    pub fn watch(&mut self) -> Result<R::Watcher, OutOfMemory>
        ensures same { self.new ≡ self.old }
        ensures watcher { IfOk result (λ w. SeesCaches R.seen R.met w self.old) }
    {
        self.visit.watch()
    }

    /// The watcher sees the table's last image, which shows the caches as they are.
    #[tactic(auto, using(crate::proofs::Watching::caches_seen))]
    pub fn meet(&mut self, watcher: &mut R::Watcher) -> Result<(), OutOfMemory>
        ensures same { self.new ≡ self.old }
        ensures front { IsPrefix (R.seen watcher.old) (R.seen watcher.new) }
        ensures met { OnOk result (SeesCaches R.seen R.met watcher.new self.old) }
        ensures refused { OnErr result (SeesNoMore R.seen R.met watcher.old watcher.new) }
    {
        self.visit.meet(watcher)
    }
}
