//! The manager with a journal of its calls.
ghost use Rattle.std.specs.Prelude.{◌≡◌, ◌<◌, ◌≤◌, ◌+◌, length, ℕ, None, true, false, [], IfSome, IfOk, IfErr, OnErr, MatchOption, is_some};
ghost use Rattle.std.specs.FinMap as table;
ghost use Rattle.jc_model.specs.declared.event.Event.TheVariants.{Begin, Answer as Answered, GiveUp, Create, Destroy};
ghost use Rattle.jc_model.specs.Places.{at_place};
ghost use Rattle.jc_model.specs.Runs.{opened_from, create_refusal};
ghost use Rattle.jc_model.specs.Legal.{IsLegal, at_first};
ghost use Rattle.jc_engine.specs.Caches.{AreSound, IsTableOf, asks_no_one_in, lives_of, names_of, id_of, holds_in};
ghost use Rattle.jc_engine.specs.Heard.{IsAnswer, IsFreeAnswer, FindsValue, LeadsTo};
ghost use Rattle.jc_engine.specs.Opening.{RefusesDue, RefusesNoOther, open_refusal, open_refusal_from};
ghost use Rattle.jc_engine.specs.Results.{of_found, of_give_up};
ghost use Rattle.jc_engine.specs.RecordedSteps.{found_in, of_recorded_begin, of_recorded_resume};
ghost use Rattle.jc_engine.specs.Results.{of_create, of_destroy};
ghost use Rattle.jc_engine.specs.RecordedSteps.{reply_in};
ghost use Rattle.jc_engine.specs.Advances.{is_open_in};
ghost use Rattle.jc_engine.specs.Recording.{AreLeftOf, HasOpenEntry, IsLastOf, RecordsEvent, RecordsFromAny, TellsItsCaches};
ghost use Rattle.jc_model.specs.Limits.{most_ids};

mod over;
mod watched;

use crate::engine::Engine;
use crate::journal::Journal;
use crate::journal::all_calls::AllCalls;
use crate::journal::change::{CallHeader, Origin};
use crate::open::{OpenRefusal, open_refusal_from};
use crate::turn::EngineStep;
use jc_model::call::{Answer, Call, Notice, Reply};
use jc_model::config::CacheConfig;
use jc_model::event::{CacheId, Cause, CreateRefusal, Entry, Step};
use jc_model::key::Key;
use jc_model::list::Sequence;
use jc_model::owners::Owners;
use jc_model::value::Value;
use jc_model::{OutOfMemory, Transcript};
use jc_ops::step::reply::found;
use jc_ring::ring::Ring;
use jc_rows::rows::Rows;
use std::alloc::Global;
use std::marker::Model;

/// A manager with a journal: by default one that keeps all calls. Contracts see the caches and the transcript, of which
/// the journal tells, whatever it keeps of it in memory.
#[derive(Drop)]
pub struct Recorded<R: Rows, G: Ring, J: Journal = AllCalls> {
    pub(crate) alloc: Global,
    pub(crate) engine: Engine<R, G>,
    pub(crate) journal: J,
}

impl<R: Rows, G: Ring, J: Journal> Model for Recorded<R, G, J> {
    ghost use Rattle.jc_engine.specs.Recording.{Recording, IsRecorded};

    ghost Value = { Recording };

    ghost view = { λ r. record { caches = r.engine; transcript = J.history r.journal } };

    ghost invariant = { λ r. IsRecorded r.engine (J.history r.journal) (J.places r.journal) };
}

/// The journal of a manager that has just been opened.
fn first_lives<J: Journal>(
    alloc: Global,
    configs: &[CacheConfig],
    first: u32,
) -> Result<J, OutOfMemory>
    requires { first + length configs.now ≤ most_ids }
    ensures { IfOk result (λ j. J.history j ≡ at_first first configs.now) }
{
    let mut journal = J::new(alloc);
    for (place, config) in configs.iter().enumerate() {
        let id = CacheId::new(first + place as u32);
        journal.create(id, config)?;
    }
    Ok(journal)
}

/// The value in a reply to a get, if there is one.
pub fn found_in(reply: Reply) -> Option<Value>
    ensures { result ≡ found_in reply }
{
    match reply {
        Reply::Found(value) => value,
        _ => None,
    }
}

impl<R: Rows, G: Ring, J: Journal> Recorded<R, G, J> {
    /// Opens a manager with these caches, over an empty table. A cache's id is its place in the list. Nothing has been
    /// called yet.
    pub fn open(
        alloc: Global,
        rows: R,
        configs: Vec<CacheConfig>,
    ) -> Result<Recorded<R, G, J>, OpenRefusal>
        requires { R.contents rows ≡ table.empty }
        ensures refused { RefusesDue (open_refusal configs.items) result }
        ensures memory { RefusesNoOther (open_refusal configs.items) result }
        ensures opened { IfOk result (λ r. lives_of r.caches ≡ opened_from 0 configs.items) }
        ensures uncalled { IfOk result (λ r. r.transcript ≡ at_first 0 configs.items) }
    {
        Recorded::open_from(alloc, rows, configs, 0)
    }

    /// The same, where the first cache gets this id and each further one the next. Refused as the manager's
    /// `open_from`.
    pub fn open_from(
        alloc: Global,
        rows: R,
        configs: Vec<CacheConfig>,
        first: u32,
    ) -> Result<Recorded<R, G, J>, OpenRefusal>
        requires { R.contents rows ≡ table.empty }
        ensures refused { RefusesDue (open_refusal_from first configs.items) result }
        ensures memory { RefusesNoOther (open_refusal_from first configs.items) result }
        ensures opened { IfOk result (λ r. lives_of r.caches ≡ opened_from first configs.items) }
        ensures uncalled { IfOk result (λ r. r.transcript ≡ at_first first configs.items) }
    {
        if let Some(refusal) = open_refusal_from(alloc, &configs, first) {
            return Err(refusal);
        }
        let journal = first_lives(alloc, &configs, first)?;
        let engine = Engine::open_from(alloc, rows, configs, first)?;
        Ok(Recorded {
            alloc,
            engine,
            journal,
        })
    }

    /// The id of the live cache with this name.
    pub fn cache(&self, name: &Key) -> Option<CacheId>
        ensures exact { result ≡ id_of name.now self.now.caches }
        ensures told { TellsItsCaches self.now }
    {
        self.engine.cache(name)
    }

    /// Whether a live cache has this id.
    pub fn is_live(&self, id: CacheId) -> bool
        ensures exact { result ≡ is_some (at_place self.now.caches id) }
        ensures told { TellsItsCaches self.now }
    {
        self.engine.is_live(id)
    }

    /// Whether a live cache has this id and no callbacks: then none of its calls makes a request.
    pub fn asks_no_one(&self, id: CacheId) -> bool
        ensures { result ≡ asks_no_one_in (at_place self.now.caches id) }
    {
        self.engine.asks_no_one(id)
    }

    /// The names of the live caches, in order of id.
    pub fn names(&self) -> &[Key]
        ensures { result.now ≡ names_of self.now.caches }
    {
        self.engine.names()
    }

    /// Whether a cache has a live row of this key. An id without a live cache has none. This is no use of the row.
    pub fn has(&self, id: CacheId, key: &Key, now: u64) -> bool
        ensures { result ≡ holds_in now key.now (at_place self.now.caches id) }
    {
        self.engine.has(id, key, now)
    }

    /// The table: exactly the rows of all live caches, with their expiries, which are sound at each moment.
    pub fn rows(&self) -> &R
        ensures sound { AreSound self.now.caches }
        ensures table { IsTableOf (R.contents result.now) self.now.caches }
    {
        self.engine.rows()
    }

    /// The entry of a cache's open call, if one is open there.
    pub fn open_entry(&self, id: CacheId) -> Option<&Entry>
        ensures entry { IfSome result (λ e. HasOpenEntry self.now.transcript.entries id e.now) }
        ensures open { is_some result ≡ is_open_in (at_place self.now.caches id) }
        ensures told { TellsItsCaches self.now }
    {
        if self.engine.is_open(id) {
            self.journal.open_entry(id)
        } else {
            None
        }
    }

    /// The first cache whose call is open, if any is.
    pub fn open_call(&self) -> Option<CacheId>
        ensures none { result ≡ None → (id : ℕ) → is_open_in (at_place self.now.caches id) ≡ false }
        ensures some { IfSome result (λ id. is_open_in (at_place self.now.caches id) ≡ true) }
        ensures first { IfSome result (λ id.
            (earlier : ℕ) → earlier < id → is_open_in (at_place self.now.caches earlier) ≡ false) }
        ensures told { TellsItsCaches self.now }
    {
        self.engine.open_call()
    }

    /// Makes a get that has its reply at once, and of which the journal keeps nothing: the value that was found. Of any
    /// other call nothing, and nothing has changed.
    pub fn get_at_once(&mut self, origin: Origin, call: &Call) -> Option<Option<Value>>
        ensures outcome { IfSome result (λ value.
            FindsValue self.old.caches origin.id origin.at call.now value) }
        ensures lives { IfSome result (λ value. LeadsTo self.old.caches
            (Begin origin.id origin.at call.now) (of_found value) self.new.caches) }
        ensures transcript { IfSome result (λ value. RecordsEvent origin.session
            (Begin origin.id origin.at call.now) (of_found value) self.old self.new) }
        ensures told { TellsItsCaches self.old × TellsItsCaches self.new }
        ensures same { result ≡ None → self.new ≡ self.old }
    {
        if !self.journal.notes() {
            return None;
        }
        let found = self
            .engine
            .get_at_once::<Value>(origin.id, origin.at, call)?;
        let reply = Reply::Found(found);
        if !self.journal.note(CallHeader::of(origin, call), &reply) {
            unreachable!()
        }
        Some(found_in(reply))
    }

    /// Begins a call of a session, which becomes the transcript's last entry. At `Done` the second part is an equal
    /// copy of the reply. Refused as the manager's `begin`; room is made before any change.
    pub fn begin(
        &mut self,
        session: u32,
        id: CacheId,
        now: u64,
        call: Call,
    ) -> Result<(Step, Option<Reply>), (Cause, Call)>
        ensures outcome { IsAnswer self.old.caches (Begin id now call) (of_recorded_begin result) }
        ensures lives { LeadsTo self.old.caches (Begin id now call) (of_recorded_begin result)
            self.new.caches }
        ensures transcript { RecordsEvent session (Begin id now call) (of_recorded_begin result)
            self.old self.new }
        ensures told { TellsItsCaches self.old × TellsItsCaches self.new }
        ensures copy { IfOk result (λ s. s.1 ≡ reply_in s.0) }
        ensures back { IfErr result (λ e. e.1 ≡ call) }
        ensures refused { OnErr result (self.new ≡ self.old) }
    {
        let origin = Origin {
            session,
            id,
            at: now,
        };
        let held = match self.journal.enter(self.alloc, origin, call) {
            Ok(held) => held,
            Err(call) => return Err((self.engine.begin_refusal_without_memory(id, &call), call)),
        };
        let at_once = self
            .engine
            .get_at_once::<Owners<Value>>(id, now, self.journal.call(&held));
        if let Some(value) = at_once {
            let replied = EngineStep::Replied(found(value));
            return Ok(self.journal.begin(held, replied));
        }
        match self.engine.start(id, now, self.journal.call(&held)) {
            Ok(advance) => Ok(self.journal.begin(held, advance)),
            Err(cause) => Err((cause, self.journal.take_back(held))),
        }
    }

    /// Hands the open call the answer to its request; the answer goes into the call's entry. At `Done` the second part
    /// is an equal copy of the reply. Refused as the manager's `resume`; room and copies are made before any change.
    pub fn resume(
        &mut self,
        id: CacheId,
        answer: Answer,
    ) -> Result<(Step, Option<Reply>), (Cause, Answer)>
        ensures outcome { IsAnswer self.old.caches (Answered id answer)
            (of_recorded_resume result) }
        ensures lives { LeadsTo self.old.caches (Answered id answer) (of_recorded_resume result)
            self.new.caches }
        ensures transcript { RecordsFromAny (Answered id answer) (of_recorded_resume result)
            self.old self.new }
        ensures told { TellsItsCaches self.old × TellsItsCaches self.new }
        ensures copy { IfOk result (λ s. s.1 ≡ reply_in s.0) }
        ensures back { IfErr result (λ e. e.1 ≡ answer) }
        ensures refused { OnErr result (self.new ≡ self.old) }
    {
        if let Some(cause) = self.engine.resume_refusal(id, &answer) {
            return Err((cause, answer));
        }
        if self.journal.answer(id, &answer).is_err() {
            return Err((Cause::OutOfMemory, answer));
        }
        match self.engine.go_on(id, answer) {
            Ok(advance) => Ok(self.journal.go_on(id, advance)),
            Err(answer) => {
                self.journal.take_answer(id);
                Err((Cause::OutOfMemory, answer))
            }
        }
    }

    /// Ends the open call without a reply, as the manager's `give_up`; its entry ends so too.
    pub fn give_up(&mut self, id: CacheId) -> Result<Sequence<Notice>, Cause>
        ensures outcome { IsFreeAnswer self.old.caches (GiveUp id) (of_give_up result) }
        ensures lives { LeadsTo self.old.caches (GiveUp id) (of_give_up result) self.new.caches }
        ensures transcript { RecordsFromAny (GiveUp id) (of_give_up result) self.old self.new }
        ensures left { IfOk result (λ left. AreLeftOf self.old.transcript.entries id left) }
        ensures told { TellsItsCaches self.old × TellsItsCaches self.new }
        ensures refused { OnErr result (self.new ≡ self.old) }
    {
        let left = self.engine.abandon(id)?;
        Ok(self.journal.give_up(id, left))
    }

    /// Why no cache can be created with this configuration now, where memory suffices.
    pub fn create_refusal(&self, config: &CacheConfig) -> Option<CreateRefusal>
        ensures exact { result ≡ create_refusal (lives_of self.now.caches) config.now }
        ensures told { TellsItsCaches self.now }
    {
        self.engine.create_refusal(config)
    }

    /// Creates a cache, as the manager's `create`; the transcript gets its life. Room is made before any change.
    pub fn create(&mut self, config: CacheConfig) -> Result<CacheId, (CreateRefusal, CacheConfig)>
        ensures outcome { IsAnswer self.old.caches (Create config) (of_create result) }
        ensures lives { LeadsTo self.old.caches (Create config) (of_create result) self.new.caches }
        ensures transcript { RecordsFromAny (Create config) (of_create result) self.old self.new }
        ensures told { TellsItsCaches self.old × TellsItsCaches self.new }
        ensures back { IfErr result (λ e. e.1 ≡ config) }
        ensures refused { OnErr result (self.new ≡ self.old) }
    {
        if let Some(refusal) = self.engine.create_refusal(&config) {
            return Err((refusal, config));
        }
        let id = self.engine.next_id();
        if self.journal.create(id, &config).is_err() {
            return Err((CreateRefusal::OutOfMemory, config));
        }
        match self.engine.create(config) {
            Ok(id) => Ok(id),
            Err(refused) => {
                self.journal.take_life();
                Err(refused)
            }
        }
    }

    /// Destroys a cache, as the manager's `destroy`; the transcript keeps its life and its calls.
    pub fn destroy(&mut self, id: CacheId) -> Result<(), Cause>
        ensures outcome { IsFreeAnswer self.old.caches (Destroy id) (of_destroy result) }
        ensures lives { LeadsTo self.old.caches (Destroy id) (of_destroy result) self.new.caches }
        ensures transcript { RecordsFromAny (Destroy id) (of_destroy result) self.old self.new }
        ensures told { TellsItsCaches self.old × TellsItsCaches self.new }
        ensures refused { OnErr result (self.new ≡ self.old) }
    {
        self.engine.destroy(id)?;
        self.journal.destroy(id);
        Ok(())
    }
}

impl<R: Rows, G: Ring> Recorded<R, G> {
    /// The transcript so far. It is legal, and each live cache stands where its own calls there leave it.
    pub fn transcript(&self) -> &Transcript
        ensures value { result.now ≡ self.now.transcript }
        ensures legal { IsLegal self.now.transcript }
        ensures tells { TellsItsCaches self.now }
    {
        // The clauses follow from the invariant of all fields, and so the engine is read too.
        let _engine = &self.engine;
        &self.journal.transcript
    }

    /// The transcript itself, without the manager, which is let go.
    pub fn into_transcript(self) -> Transcript
        ensures value { result ≡ self.transcript }
        ensures legal { IsLegal result }
    {
        let Recorded {
            engine,
            journal,
            ..
        } = self;
        drop(engine);
        journal.transcript
    }

    /// The entry of the call that has begun last.
    pub fn last(&self) -> Option<&Entry>
        ensures { MatchOption result (self.now.transcript.entries ≡ [])
            (λ e. IsLastOf self.now.transcript.entries e.now) }
    {
        self.journal.transcript.last()
    }
}
