//! The entries of one caller.
ghost use Rattle.std.specs.Prelude.{◌≡◌, ◌∷◌, ◌++◌, [], drop, slice_get, option_map, OnOk};

use jc_model::event::Entry;
use std::alloc::{AllocError, Global};
use std::collections::VecDeque;
use std::marker::Model;

/// Entries, of which the first is taken first.
#[derive(Drop)]
pub struct Queue<'e> {
    entries: VecDeque<&'e Entry>,
}

impl<'e> Model for Queue<'e> {
    ghost use Rattle.std.specs.Prelude.{List, map};
    ghost use Rattle.std.specs.VecDeque.{deque_items};
    ghost use Rattle.jc_model.specs.declared.event.Entry.{Entry};

    ghost Value = { List Entry };

    ghost view = { λ q. map (λ e. e.now) (deque_items q.entries) };
}

impl<'e> Queue<'e> {
    /// No entries.
    pub fn new(alloc: Global) -> Queue<'e>
        ensures { result ≡ [] }
    {
        Queue {
            entries: VecDeque::new(alloc),
        }
    }

    /// Adds an entry behind the others.
    pub fn push(&mut self, entry: &'e Entry) -> Result<(), AllocError>
        ensures { OnOk result (self.new ≡ self.old ++ entry.entry.now ∷ []) }
    {
        self.entries.push_back(entry)?;
        Ok(())
    }

    /// Takes the first entry.
    pub fn take(&mut self) -> Option<&'e Entry>
        ensures first { option_map (λ e. e.now) result ≡ slice_get self.old 0 }
        ensures left { self.new ≡ drop 1 self.old }
    {
        self.entries.pop_front()
    }
}
