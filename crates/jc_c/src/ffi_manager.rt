//! A manager and the desks of its caches.
ghost use Rattle.std.specs.Prelude.{◌≡◌, ℕ, None, Ok, IfSome, MatchResult, option_map};
ghost use Rattle.jc_model.specs.declared.call.Call.TheVariants.{Contains};
ghost use Rattle.jc_model.specs.declared.event.Event.TheVariants.{Begin, Answer as Answers, GiveUp};
ghost use Rattle.jc_model.specs.declared.event.Event.TheVariants.{Create, Destroy};
ghost use Rattle.jc_model.specs.declared.event.Outcome.TheVariants.{Created};
ghost use Rattle.std.specs.FinMap as map;
ghost use Rattle.jc_cuckoo.specs.Cells.{rows_in};
ghost use Rattle.jc_engine.specs.Caches.{id_of};
ghost use Rattle.jc_engine.specs.Managed.{step_of};
ghost use Rattle.jc_save.specs.Restoring.{restored};
ghost use Rattle.jc_c.specs.Saved.{LacksLonger, Restores};
ghost use Rattle.jc_c.specs.Seated.{Creates, DoesWith, DoesWithStatus, desk_of, fresh_seat};

use crate::desks::{Desk, add, show, show_truth, take_away};
use crate::ffi_settings::NewCache;
use crate::placer::FfiPlacer;
use crate::saved::{RestoreAs, Unrestored};
use crate::status::Status;
use jc_cuckoo::cuckoo::Cuckoo;
use jc_cuckoo::mirror::NoMirror;
use jc_engine::engine::Engine;
use jc_engine::turn::EngineStep;
use jc_model::call::{Answer, Call, Reply, Request};
use jc_model::event::{CacheId, Outcome, Step};
use jc_model::key::Key;
use jc_model::value::Value;
use jc_ring::link_ring::LinkRing;
use std::alloc::Global;
use std::collections::HashMap;
use std::marker::Model;

/// How many buckets the table begins with.
const BUCKETS: u32 = 16;

/// The table of rows.
type Table = Cuckoo<FfiPlacer, NoMirror>;

/// Many caches, and of each live one its desk. Contracts see where keys have their rows, too.
#[derive(Drop)]
pub struct FfiManager {
    pub(crate) engine: Engine<Table, LinkRing>,
    desks: HashMap<u32, Desk>,
    /// That of the engine's table.
    placer: FfiPlacer,
}

impl Model for FfiManager {
    ghost use Rattle.std.specs.Prelude.{nat_eq};
    ghost use Rattle.std.specs.HashMap.{get};
    ghost use Rattle.jc_c.specs.Seated.{Seated, HaveDesks, seated_of};

    ghost Value = { Seated };

    ghost view = { λ s. seated_of s.engine (get nat_eq s.desks) s.placer };

    ghost invariant = { λ s. HaveDesks s.engine (get nat_eq s.desks) };
}

/// What a call has come to, without the copies that a transcript needs.
#[inline(always)]
fn step_of(advance: EngineStep) -> Step
    ensures { result ≡ step_of advance }
{
    match advance {
        EngineStep::Replied(reply) => Step::Done(reply.into_first()),
        EngineStep::Asked(request) => Step::Need(request),
        EngineStep::Told(notices) => Step::Need(Request::Tell(notices.into_lists().0)),
    }
}

impl FfiManager {
    /// A manager without caches, where memory is found for it.
    pub fn open(alloc: Global, placer: &FfiPlacer) -> Option<FfiManager>
        ensures { IfSome result (λ s. s ≡ fresh_seat placer.now) }
    {
        let table = Cuckoo::new(alloc, *placer, NoMirror, BUCKETS).ok()?;
        FfiManager::over(alloc, table, placer)
    }

    /// The same over an empty table, which has this placer.
    fn over(alloc: Global, table: Table, placer: &FfiPlacer) -> Option<FfiManager>
        requires empty { rows_in table.cells ≡ map.empty }
        requires placer { table.placer ≡ placer.now }
        ensures { IfSome result (λ s. s ≡ fresh_seat placer.now) }
    {
        let engine = Engine::open(alloc, table, Vec::new(alloc)).ok()?;
        Some(FfiManager {
            engine,
            desks: HashMap::new(alloc),
            placer: *placer,
        })
    }

    /// The id of the live cache with this name.
    pub fn find(&self, name: &Key) -> Option<CacheId>
        ensures { result ≡ id_of name.now self.now.caches }
    {
        self.engine.cache(name)
    }

    /// The desk of a live cache.
    #[inline(always)]
    pub fn desk(&self, id: CacheId) -> Option<&Desk>
        ensures { option_map (λ desk. desk.now) result ≡ desk_of id self.now }
    {
        let number = id.number();
        self.desks.get(&number)
    }

    /// Creates a cache. Memory may be wanting before the manager is asked.
    pub fn create(&mut self, asked: NewCache) -> Result<CacheId, Status>
        ensures { MatchResult result
            (λ id. DoesWith asked.max_value self.old (Create asked.config) (Created id) self.new)
            (λ status. (id : ℕ) → Creates self.old (Ok asked) status id id self.new) }
    {
        if self.desks.reserve(1).is_err() {
            drop(asked);
            return Err(Status::OutOfMemory);
        }
        let NewCache { config, max_value } = asked;
        match self.engine.create(config) {
            Ok(id) => {
                let shown = Outcome::Created(id);
                add(&mut self.desks, id, Desk { shown, max_value });
                Ok(id)
            }
            Err((refusal, config)) => {
                drop(config);
                Err(Status::of_refusal(refusal))
            }
        }
    }

    /// Adds the cache that bytes are. Memory may be wanting before the manager is asked.
    pub fn restore(&mut self, asked: RestoreAs, bytes: &[u8]) -> Result<CacheId, Unrestored>
        ensures { LacksLonger asked.max_value (restored asked.name bytes.now)
            → Restores self.old (Ok asked.name) bytes.now asked.max_value result self.new }
    {
        if self.desks.reserve(1).is_err() {
            return Err(Unrestored::because(Status::OutOfMemory));
        }
        let RestoreAs { name, max_value } = asked;
        match self.engine.restore(name, bytes) {
            Ok(id) => {
                let shown = Outcome::Created(id);
                add(&mut self.desks, id, Desk { shown, max_value });
                Ok(id)
            }
            Err(refusal) => Err(Unrestored::of_refusal(refusal)),
        }
    }

    /// Destroys a cache.
    pub fn destroy(&mut self, id: CacheId) -> Status
        ensures { DoesWithStatus self.old (Destroy id) result self.new }
    {
        match self.engine.destroy(id) {
            Ok(()) => {
                take_away(&mut self.desks, id);
                Status::Done
            }
            Err(cause) => Status::of_cause(cause),
        }
    }

    /// Whether a cache has a live row of this key, as the call that asks for it tells. It changes
    /// nothing but what is shown, and takes no memory.
    pub fn contains(&mut self, id: CacheId, now: u64, key: &Key) -> Status
        ensures { DoesWithStatus self.old (Begin id now (Contains key.now)) result self.new }
    {
        let held = self.engine.has(id, key, now);
        show_truth(&mut self.desks, id, held)
    }

    /// What a get finds at once: the value of a live row, or that there is none and no loader. Else
    /// nothing, and nothing has changed.
    fn get_at_once(&mut self, id: CacheId, now: u64, call: &Call) -> Option<Status>
        ensures status { IfSome result (λ status.
            DoesWithStatus self.old (Begin id now call.now) status self.new) }
        ensures same { result ≡ None → self.new ≡ self.old }
    {
        match self.engine.get_at_once::<Value>(id, now, call) {
            Some(found) => {
                let outcome = Outcome::Step(Step::Done(Reply::Found(found)));
                Some(show(&mut self.desks, id, outcome))
            }
            None => None,
        }
    }

    /// Begins a call that is not answered at once.
    fn start(&mut self, id: CacheId, now: u64, call: &Call) -> Status
        ensures { DoesWithStatus self.old (Begin id now call.now) result self.new }
    {
        match self.engine.start(id, now, call) {
            Ok(advance) => show(&mut self.desks, id, Outcome::Step(step_of(advance))),
            Err(cause) => Status::of_cause(cause),
        }
    }

    /// Begins a call.
    pub fn begin(&mut self, id: CacheId, now: u64, call: &Call) -> Status
        ensures { DoesWithStatus self.old (Begin id now call.now) result self.new }
    {
        match self.get_at_once(id, now, call) {
            Some(status) => status,
            None => self.start(id, now, call),
        }
    }

    /// Answers the open call's request.
    pub fn resume(&mut self, id: CacheId, answer: Answer) -> Status
        ensures { DoesWithStatus self.old (Answers id answer) result self.new }
    {
        match self.engine.resume(id, answer) {
            Ok(step) => show(&mut self.desks, id, Outcome::Step(step)),
            Err((cause, answer)) => {
                drop(answer);
                Status::of_cause(cause)
            }
        }
    }

    /// Ends the open call without a reply; the notices that no one was told are shown.
    pub fn give_up(&mut self, id: CacheId) -> Status
        ensures { DoesWithStatus self.old (GiveUp id) result self.new }
    {
        match self.engine.give_up(id) {
            Ok(notices) => show(&mut self.desks, id, Outcome::GivenUp(notices)),
            Err(cause) => Status::of_cause(cause),
        }
    }
}
