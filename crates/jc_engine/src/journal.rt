//! What a recorded manager keeps of its calls.
pub mod all_calls;
pub mod change;
pub mod ghost_history;
mod notes;
mod open_call;
pub mod open_calls;

use crate::journal::change::{CallHeader, Origin};
use crate::turn::EngineStep;
use jc_model::OutOfMemory;
use jc_model::call::{Answer, Call, Notice, Reply};
use jc_model::config::CacheConfig;
use jc_model::event::{CacheId, Entry, Step};
use jc_model::list::Sequence;
use jc_ops::notices::Notices;
pub use notes::blank;
use std::alloc::Global;

/// It tells of all lives and calls. It may keep all of their entries in memory, or only those of the calls that wait:
/// the history is what the clauses see.
pub trait Journal: Drop {
    ghost use Rattle.std.specs.Prelude.{◌≡◌, ℕ, true, false, [], None, Option, OnOk, OnErr, IfOk, IfErr, option_map};
    ghost use Rattle.jc_model.specs.declared.event.Entry.{Entry};
    ghost use Rattle.jc_model.specs.Legal.{History};
    ghost use Rattle.jc_engine.specs.Managed.{step_of};
    ghost use Rattle.jc_engine.specs.RecordedSteps.{reply_in};
    ghost use Rattle.jc_engine.specs.Recording.{blank_of, left_in, with_entry, with_life};
    ghost use Rattle.jc_engine.specs.Changed.{replied_at_once};
    ghost use Rattle.jc_engine.specs.Journals.{CanBegin, BeginsEntry, KeepsBegun, KeepsEntry, KeepsPlace, KeepsOthers};
    ghost use Rattle.jc_engine.specs.Journals.{CanGoOn, CanGiveUp, AnswersEntry, AdvancesEntry, GivesUp};
    ghost use Rattle.jc_engine.specs.Journals.{TakesAnswer, TakesBack, TakesLife, KeepsAll, kept_at};

    /// The lives and the calls that it tells of.
    ghost history: { Self → History };

    /// By cache, where the entry of its open call stands there.
    ghost places: { Self → ℕ → Option ℕ };

    /// What it hands back of a call that is about to begin: nothing, or all of it.
    type Held: Drop;

    /// It tells of this history, over which the call with this entry is about to begin; what it has handed back of it.
    ghost Enters: { History → Self → Self.Held → Entry → Type 0 };

    /// A call that has its reply at once can be noted, and nothing of it is kept in memory.
    ghost Notes: { Self → Type 0 };

    /// No lives and no calls.
    fn new(alloc: Global) -> Self
        ensures { history result ≡ record { lives = []; entries = [] } };

    /// The entry of a cache's open call.
    fn open_entry(&self, id: CacheId) -> Option<&Entry>
        ensures { option_map (λ e. e.now) result ≡
            kept_at (history self.now) (places self.now id) };

    /// Whether a call that has its reply at once can be noted without being handed over.
    fn notes(&self) -> bool
        ensures { result ≡ true → Notes self.now };

    /// Notes such a call, behind all others, and its reply. Where that can't be, nothing has changed.
    fn note(&mut self, begun: CallHeader, reply: &Reply) -> bool
        ensures sure { Notes self.old → result ≡ true }
        ensures noted { result ≡ true
            → history self.new ≡ with_entry (replied_at_once begun reply.now) (history self.old) }
        ensures refused { result ≡ false → history self.new ≡ history self.old }
        ensures places { KeepsAll (places self.old) (places self.new) };

    /// Makes room for a call that is about to begin. Where memory is refused it is handed back, and nothing has changed.
    fn enter(&mut self, alloc: Global, origin: Origin, call: Call) -> Result<Self::Held, Call>
        ensures entered { IfOk result (λ held.
            Enters (history self.old) self.new held (blank_of origin call)) }
        ensures places { KeepsAll (places self.old) (places self.new) }
        ensures back { IfErr result (λ back. back ≡ call) }
        ensures refused { OnErr result (history self.new ≡ history self.old) };

    /// The call that is about to begin.
    fn call<'a>(&'a self, held: &'a Self::Held) -> &'a Call
        requires { (h : History) × (e : Entry) × Enters h self.now held.now e }
        ensures { (h : History) (e : Entry) → Enters h self.now held.now e → result.now ≡ e.call };

    /// The call does not begin. It is handed back.
    fn take_back(&mut self, held: Self::Held) -> Call
        requires { (h : History) × (e : Entry) × Enters h self.old held e }
        ensures back { TakesBack (λ h e. Enters h self.old held e) result (history self.new) }
        ensures places { KeepsAll (places self.old) (places self.new) };

    /// The call has begun, and come to this. The result is what the caller is shown, and a copy of the reply.
    fn begin(&mut self, held: Self::Held, advance: EngineStep) -> (Step, Option<Reply>)
        requires { CanBegin (λ h e. Enters h self.old held e) advance }
        ensures shown { result.0 ≡ step_of advance }
        ensures copy { result.1 ≡ reply_in result.0 }
        ensures noted { BeginsEntry (λ h e. Enters h self.old held e) advance (history self.new) }
        ensures places { KeepsBegun (λ h e. Enters h self.old held e) (places self.old) advance
            (places self.new) };

    /// Adds an answer to the entry of a cache's open call. Where memory is refused nothing has changed.
    fn answer(&mut self, id: CacheId, answer: &Answer) -> Result<(), OutOfMemory>
        requires { KeepsEntry (history self.old) (places self.old) id }
        ensures ok { OnOk result (AnswersEntry (history self.old) (places self.old) id answer.now
            (history self.new)) }
        ensures refused { OnErr result (history self.new ≡ history self.old) }
        ensures places { KeepsAll (places self.old) (places self.new) };

    /// Takes the last answer back.
    fn take_answer(&mut self, id: CacheId)
        requires { KeepsEntry (history self.old) (places self.old) id }
        ensures back { TakesAnswer (history self.old) (places self.old) id (history self.new) }
        ensures places { KeepsAll (places self.old) (places self.new) };

    /// A cache's open call has come to this.
    fn go_on(&mut self, id: CacheId, advance: EngineStep) -> (Step, Option<Reply>)
        requires { CanGoOn (history self.old) (places self.old) id advance }
        ensures shown { result.0 ≡ step_of advance }
        ensures copy { result.1 ≡ reply_in result.0 }
        ensures noted { AdvancesEntry (history self.old) (places self.old) id advance
            (history self.new) }
        ensures places { KeepsPlace (history self.old) (places self.old) id advance
            (places self.new) };

    /// A cache's open call was given up. The result is the notices that are left.
    fn give_up(&mut self, id: CacheId, left: Option<Notices>) -> Sequence<Notice>
        requires { CanGiveUp (history self.old) (places self.old) id left }
        ensures left { result ≡ left_in left }
        ensures noted { GivesUp (history self.old) (places self.old) id left (history self.new) }
        ensures places { KeepsOthers (places self.old) id (places self.new) };

    /// Adds a life. Where memory is refused nothing has changed.
    fn create(&mut self, id: CacheId, config: &CacheConfig) -> Result<(), OutOfMemory>
        ensures ok { OnOk result (history self.new ≡ with_life id config.now (history self.old)) }
        ensures refused { OnErr result (history self.new ≡ history self.old) }
        ensures places { KeepsAll (places self.old) (places self.new) };

    /// Takes the last life back.
    fn take_life(&mut self)
        ensures back { TakesLife (history self.old) (history self.new) }
        ensures places { KeepsAll (places self.old) (places self.new) };

    /// A cache has gone, in which no call is open. Its life and its calls stay in the history; no place is kept for it.
    fn destroy(&mut self, id: CacheId)
        ensures same { history self.new ≡ history self.old }
        ensures gone { places self.new id ≡ None }
        ensures places { KeepsOthers (places self.old) id (places self.new) };
}
