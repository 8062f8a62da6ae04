//! The transcript: the lives of all caches in order of id, and the calls that have begun, in the order of their
//! beginning.
ghost use Rattle.std.specs.Prelude.{◌≡◌, ◌<◌, ◌++◌, ◌∷◌, [], length, List, IfErr, OnOk, OnErr, MatchOption};
ghost use Rattle.jc_model.specs.Legal.{History};
ghost use Rattle.jc_model.specs.Lists.{TakesLast};
ghost use Rattle.jc_model.specs.Entries.{AddsAnswer, SetsEnd, SetsTold, TakesAnswer};
ghost use Rattle.jc_model.specs.declared.event.Entry.{Entry};
ghost use Rattle.jc_model.specs.declared.event.Life.{Life};

use crate::OutOfMemory;
use crate::call::{Answer, Notice};
use crate::event::{End, Entry, Life};
use crate::list::Sequence;
use crate::share::{Share, share_all};
use std::alloc::Global;
use std::marker::Model;

/// The lives and the calls of all caches; contracts see their lists.
#[derive(Drop)]
pub struct Transcript {
    lives: Vec<Life>,
    entries: Vec<Entry>,
}

impl Model for Transcript {
    ghost use Rattle.jc_model.specs.Legal.{History};

    ghost Value = { History };

    ghost view = { λ t. record { lives = t.lives.items; entries = t.entries.items } };
}

impl Transcript {
    /// No lives and no calls.
    pub fn new(alloc: Global) -> Transcript
        ensures lives { result.lives ≡ [] }
        ensures entries { result.entries ≡ [] }
    {
        Transcript {
            lives: Vec::new(alloc),
            entries: Vec::new(alloc),
        }
    }

    /// The lives, in order of id.
    pub fn lives(&self) -> &[Life]
        ensures { result.now ≡ self.now.lives }
    {
        self.lives.as_slice()
    }

    /// The entries, the first call's first.
    pub fn entries(&self) -> &[Entry]
        ensures { result.now ≡ self.now.entries }
    {
        self.entries.as_slice()
    }

    /// The call that has begun last.
    pub fn last(&self) -> Option<&Entry>
        ensures { MatchOption result (self.now.entries ≡ [])
            (λ e. (before : List Entry) × (self.now.entries ≡ before ++ e.now ∷ [])) }
    {
        self.entries.last()
    }

    /// Adds a life.
    pub fn push_life(&mut self, life: Life) -> Result<(), OutOfMemory>
        ensures ok { OnOk result (self.new ≡ record self.old { lives = self.old.lives ++ life ∷ [] }) }
        ensures err { OnErr result (self.new ≡ self.old) }
    {
        self.lives.push(life)?;
        Ok(())
    }

    /// Takes the last life back.
    pub fn pop_life(&mut self) -> Option<Life>
        ensures lives { TakesLast result self.old.lives self.new.lives }
        ensures entries { self.new.entries ≡ self.old.entries }
    {
        self.lives.pop()
    }

    /// Adds a call. Where memory is refused, its entry is handed back.
    pub fn push(&mut self, entry: Entry) -> Result<(), Entry>
        ensures ok { OnOk result (self.new ≡ record self.old { entries = self.old.entries ++ entry ∷ [] }) }
        ensures err { OnErr result (self.new ≡ self.old) }
        ensures back { IfErr result (λ back. back ≡ entry) }
    {
        if self.entries.reserve(1).is_err() {
            return Err(entry);
        }
        self.entries.push_reserved(entry);
        Ok(())
    }

    /// Takes the last call back.
    pub fn pop(&mut self) -> Option<Entry>
        ensures entries { TakesLast result self.old.entries self.new.entries }
        ensures lives { self.new.lives ≡ self.old.lives }
    {
        self.entries.pop()
    }

    /// Adds an answer to the call at a place.
    pub fn push_answer(&mut self, place: usize, answer: Answer) -> Result<(), OutOfMemory>
        requires { place < length self.old.entries }
        ensures ok { OnOk result (AddsAnswer place answer self.old self.new) }
        ensures err { OnErr result (self.new ≡ self.old) }
    {
        let entry = &mut self.entries[place];
        entry.answers.push(answer)
    }

    /// Takes the last answer to the call at a place back.
    pub fn pop_answer(&mut self, place: usize)
        requires { place < length self.old.entries }
        ensures { TakesAnswer place self.old self.new }
    {
        let entry = &mut self.entries[place];
        entry.answers.pop();
    }

    /// Sets what was told of the call at a place.
    pub fn set_told(&mut self, place: usize, told: Sequence<Notice>)
        requires { place < length self.old.entries }
        ensures { SetsTold place told self.old self.new }
    {
        let entry = &mut self.entries[place];
        entry.told = told;
    }

    /// Sets how the call at a place ended.
    pub fn set_end(&mut self, place: usize, end: End)
        requires { place < length self.old.entries }
        ensures { SetsEnd place end self.old self.new }
    {
        let entry = &mut self.entries[place];
        entry.end = end;
    }
}

impl Share for Transcript {
    fn share(&self) -> Result<Transcript, OutOfMemory> {
        let lives = share_all(*self.lives.allocator(), self.lives())?;
        let entries = share_all(*self.entries.allocator(), self.entries())?;
        Ok(Transcript { lives, entries })
    }
}
