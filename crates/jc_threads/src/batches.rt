//! Calls that a worker is still to make, in batches: the memory of each is given back once its calls are made.
ghost use Rattle.std.specs.Prelude.{◌≡◌, ◌↔◌, ◌++◌, ◌∷◌, [], IsTrue, OnOk};

use jc_model::OutOfMemory;
use jc_model::list::Sequence;
use jc_script::LineCall;
use std::alloc::Global;
use std::marker::Model;
use std::mem;

/// How many calls a batch has: so many that the system itself is given its memory back.
const BATCH: usize = 2048;

/// Calls, the first added first; contracts see their list.
#[derive(Drop)]
pub(crate) struct Batches {
    pub(crate) full: Vec<Sequence<LineCall>>,
    pub(crate) last: Vec<LineCall>,
}

impl Model for Batches {
    ghost use Rattle.std.specs.Prelude.{◌≡◌, List, []};
    ghost use Rattle.jc_script.specs.declared.line.LineCall.{LineCall as Called};
    ghost use Rattle.jc_threads.specs.Batches.{calls_in_batches};

    ghost Value = { List Called };

    ghost view = { λ b. calls_in_batches b.full.items b.last.items };

    ghost invariant = { λ b. b.last.items ≡ [] → b.full.items ≡ [] };
}

impl Batches {
    /// No calls.
    pub(crate) fn new(alloc: Global) -> Batches
        ensures { result ≡ [] }
    {
        Batches {
            full: Vec::new(alloc),
            last: Vec::new(alloc),
        }
    }

    /// Whether there is no call.
    pub(crate) fn is_empty(&self) -> bool
        ensures { IsTrue result ↔ (self.now ≡ []) }
    {
        self.last.as_slice().is_empty()
    }

    /// Adds a call behind all others.
    pub(crate) fn push(&mut self, line: LineCall) -> Result<(), OutOfMemory>
        ensures { OnOk result (self.new ≡ self.old ++ line ∷ []) }
    {
        if self.last.len() == BATCH {
            self.full.reserve(1)?;
            let next = Vec::with_capacity(*self.last.allocator(), BATCH)?;
            let full = mem::replace(&mut self.last, next);
            self.full.push_reserved(Sequence::new(full));
        }
        self.last.push(line)?;
        Ok(())
    }
}
