//! What a manager keeps of its calls, and each of its sessions of its own.
ghost use Rattle.jc_locked.specs.Admitting.{after_of_64, after_round};

use jc_engine::journal::all_calls::AllCalls;
use jc_engine::journal::change::CallHeader;
use jc_engine::journal::ghost_history::GhostHistory;
use jc_engine::journal::open_calls::OpenCalls;
use jc_engine::journal::{Journal, blank};
use jc_model::OutOfMemory;
use jc_model::call::{Call, Reply};
use jc_model::event::{End, Entry};
use jc_model::share::Share;
use std::alloc::Global;

/// A session's own calls, in their order.
pub trait SessionJournal: Drop {
    ghost use Rattle.std.specs.Prelude.{◌≡◌, ◌∷◌, ◌++◌, List, [], true, false, OnOk, IfOk};
    ghost use Rattle.jc_model.specs.declared.call.Call.{Call as Called};
    ghost use Rattle.jc_model.specs.declared.event.Entry.{Entry};
    ghost use Rattle.jc_engine.specs.Changed.{begun_entry, replied_at_once};

    /// What is kept of a call that is about to begin, in case it has its reply at once.
    type Kept: Drop;

    /// This is kept of a call.
    ghost IsOf: { Self.Kept → Called → Type 0 };

    /// Their entries, whether they are in memory or not.
    ghost calls: { Self → List Entry };

    /// There is room for one more.
    ghost HasRoom: { Self → Type 0 };

    /// A call that has its reply at once can be noted, and nothing of it is kept in memory.
    ghost Notes: { Self → Type 0 };

    /// No calls.
    fn new(alloc: Global) -> Result<Self, OutOfMemory>
        ensures { IfOk result (λ own. calls own ≡ []) };

    /// Whether a call that has its reply at once can be noted without being handed over.
    fn notes(&self) -> bool
        ensures { result ≡ true → Notes self.now };

    /// Notes such a call, the last, and its reply. Where that can't be, nothing has changed.
    fn note(&mut self, begun: CallHeader, reply: &Reply) -> bool
        ensures sure { Notes self.old → result ≡ true }
        ensures noted { result ≡ true
            → calls self.new ≡ calls self.old ++ replied_at_once begun reply.now ∷ [] }
        ensures refused { result ≡ false → calls self.new ≡ calls self.old };

    /// Makes room for one more.
    fn make_room(&mut self) -> Result<(), OutOfMemory>
        ensures same { calls self.new ≡ calls self.old }
        ensures room { OnOk result (HasRoom self.new) };

    /// Makes room for one more, and keeps of its call what an entry needs.
    fn keep(&mut self, call: &Call) -> Result<Self::Kept, OutOfMemory>
        ensures same { calls self.new ≡ calls self.old }
        ensures room { OnOk result (HasRoom self.new) }
        ensures kept { IfOk result (λ kept. IsOf kept call.now) };

    /// One more, the last.
    fn push(&mut self, entry: Entry)
        requires { HasRoom self.old }
        ensures { calls self.new ≡ calls self.old ++ entry ∷ [] };

    /// One more, the last, which had this reply at once.
    fn push_replied(&mut self, alloc: Global, begun: CallHeader, kept: Self::Kept, reply: Reply)
        requires room { HasRoom self.old }
        requires kept { IsOf kept begun.call.value }
        ensures { calls self.new ≡ calls self.old ++ replied_at_once begun reply ∷ [] };

    /// One more, the last, which waits.
    fn push_waiting(&mut self, alloc: Global, begun: CallHeader, kept: Self::Kept)
        requires room { HasRoom self.old }
        requires kept { IsOf kept begun.call.value }
        ensures { calls self.new ≡ calls self.old ++ begun_entry begun ∷ [] };
}

/// Entries in memory, with which a manager closes.
#[derive(Drop)]
pub struct OwnList {
    pub entries: Vec<Entry>,
}

/// For how many calls there is room at first.
const FIRST_CALLS: usize = 16;

impl SessionJournal for OwnList {
    ghost use Rattle.std.specs.Prelude.{◌≡◌, ◌<◌};
    ghost use Rattle.std.specs.Vec.{vec_len, vec_capacity};

    type Kept = Call;

    ghost IsOf = { λ kept call. kept ≡ call };

    ghost calls = { λ own. own.entries.items };

    ghost HasRoom = { λ own. vec_len own.entries < vec_capacity own.entries };

    ghost Notes = { λ own. ⊥ };

    fn new(alloc: Global) -> Result<OwnList, OutOfMemory> {
        let entries = Vec::with_capacity(alloc, FIRST_CALLS)?;
        Ok(OwnList { entries })
    }

    fn notes(&self) -> bool {
        false
    }

    fn note(&mut self, _begun: CallHeader, _reply: &Reply) -> bool {
        false
    }

    fn make_room(&mut self) -> Result<(), OutOfMemory> {
        self.entries.reserve(1)
    }

    fn keep(&mut self, call: &Call) -> Result<Call, OutOfMemory> {
        self.entries.reserve(1)?;
        call.share()
    }

    fn push(&mut self, entry: Entry) {
        self.entries.push_reserved(entry);
    }

    fn push_replied(&mut self, alloc: Global, begun: CallHeader, kept: Call, reply: Reply) {
        let mut entry = blank(alloc, begun.origin, kept);
        entry.end = End::Replied(reply);
        self.entries.push_reserved(entry);
    }

    fn push_waiting(&mut self, alloc: Global, begun: CallHeader, kept: Call) {
        let entry = blank(alloc, begun.origin, kept);
        self.entries.push_reserved(entry);
    }
}

/// Entries that exist in proofs alone.
#[derive(Drop)]
pub struct OwnPast {
    pub past: GhostHistory,
}

impl SessionJournal for OwnPast {
    ghost use Rattle.std.specs.Prelude.{⊤};

    type Kept = ();

    ghost IsOf = { λ kept call. ⊤ };

    ghost calls = { λ own. own.past.history.entries };

    ghost HasRoom = { λ own. ⊤ };

    ghost Notes = { λ own. ⊤ };

    fn new(_alloc: Global) -> Result<OwnPast, OutOfMemory> {
        Ok(OwnPast {
            past: GhostHistory::new(),
        })
    }

    fn notes(&self) -> bool {
        true
    }

    fn note(&mut self, begun: CallHeader, reply: &Reply) -> bool {
        self.past.push_replied(begun, reply);
        true
    }

    fn make_room(&mut self) -> Result<(), OutOfMemory> {
        Ok(())
    }

    fn keep(&mut self, _call: &Call) -> Result<(), OutOfMemory> {
        Ok(())
    }

    fn push(&mut self, entry: Entry) {
        self.past.push(&entry);
        drop(entry);
    }

    fn push_replied(&mut self, _alloc: Global, begun: CallHeader, _kept: (), reply: Reply) {
        self.past.push_replied(begun, &reply);
        drop(reply);
    }

    fn push_waiting(&mut self, _alloc: Global, begun: CallHeader, _kept: ()) {
        self.past.push_waiting(begun);
    }
}

/// A journal under a manager that sessions share.
pub trait JournalPolicy: Journal {
    ghost use Rattle.std.specs.Prelude.{◌≡◌, ℕ, Bool, Option};

    type Own: SessionJournal;

    /// Whether a manager that keeps its calls so can be closed.
    ghost closes: { Bool };

    /// The number of sessions behind this one, if there is one.
    ghost after: { ℕ → Option ℕ };

    fn next(given: u32) -> Option<u32>
        ensures { result ≡ after given };
}

impl JournalPolicy for AllCalls {
    ghost use Rattle.std.specs.Prelude.{true};

    type Own = OwnList;

    ghost closes = { true };

    ghost after = { after_of_64 };

    fn next(given: u32) -> Option<u32> {
        if given < MOST_SESSIONS {
            Some(given + 1)
        } else {
            None
        }
    }
}

/// The most sessions of a manager that keeps all calls, which tells them apart when it closes.
pub const MOST_SESSIONS: u32 = 64;

impl JournalPolicy for OpenCalls {
    ghost use Rattle.std.specs.Prelude.{false};

    type Own = OwnPast;

    ghost closes = { false };

    ghost after = { after_round };

    fn next(given: u32) -> Option<u32> {
        Some(given.wrapping_add(1))
    }
}
