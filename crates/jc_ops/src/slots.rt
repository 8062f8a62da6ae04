//! Records by row number, in places that are made before they are needed.
ghost use Rattle.jc_ops.specs.Shelf.{held_of, with_expiry_of, ListsVacant};
ghost use Rattle.std.specs.Prelude.{◌≡◌, ℕ, ◌+◌, ◌^◌, ◌<◌, ◌≤◌, [], ◌++◌, length, replicate};
ghost use Rattle.std.specs.Prelude.{Option, Some, None, IsSome, is_some, option_map, OnOk, OnErr};
ghost use Rattle.std.specs.Vec.{vec_capacity};
ghost use Rattle.std.specs.Prelude.{count_by, slice_index_or, slice_set};

use jc_model::OutOfMemory;
use jc_model::config::Expiry;
use jc_model::key::Key;
use jc_model::owners::Owners;
use jc_model::value::Value;
use std::alloc::Global;
use std::marker::Model;

/// What a row holds.
#[derive(Drop)]
pub struct Record {
    pub key: Key,
    pub value: Owners<Value>,
    pub expiry: Expiry,
}

/// Records by row number, and the stack of the numbers that are vacant: a row is filled and vacated with no walk.
#[derive(Drop)]
pub struct Slots {
    records: Vec<Option<Record>>,
    vacant: Vec<u32>,
}

impl Model for Slots {
    ghost use Rattle.std.specs.Prelude.{List, Option};
    ghost use Rattle.std.specs.Vec.{vec_capacity};
    ghost use Rattle.jc_ops.specs.declared.slots.Record.{Record};
    ghost use Rattle.jc_ops.specs.Shelf.{IsSlots};

    ghost Value = { List (Option Record) };

    ghost view = { λ s. s.records.items };

    ghost invariant = { λ s. IsSlots s.records.items s.vacant.items (vec_capacity s.vacant) };
}

/// Adds so many vacant rows, for which there is room.
#[tactic(auto, using(crate::proofs::Vacancies::growth_laws))]
fn add_vacant(records: &mut Vec<Option<Record>>, vacant: &mut Vec<u32>, more: u32)
    requires few { length records.old.items + more < 2 ^ 32 }
    requires room { length records.old.items + more ≤ vec_capacity records.old }
    requires numbers { length vacant.old.items + more ≤ vec_capacity vacant.old }
    ensures grown { records.new.items ≡ records.old.items ++ replicate more None }
    ensures many { length vacant.new.items ≡ length vacant.old.items + more }
    ensures listed { ListsVacant records.old.items vacant.old.items →
        ListsVacant records.new.items vacant.new.items }
    ensures room { vec_capacity vacant.new ≡ vec_capacity vacant.old }
{
    for added in 0..more {
        vacant.push_reserved(records.len() as u32);
        records.push_reserved(None);
    }
}

#[tactic(auto, using(crate::proofs::Vacancies::slot_laws))]
impl Slots {
    /// No rows. This takes no memory.
    pub fn none(alloc: Global) -> Slots
        ensures { result ≡ [] }
    {
        Slots {
            records: Vec::new(alloc),
            vacant: Vec::new(alloc),
        }
    }

    /// So many rows more, all vacant. Where memory is refused, they stay as they were.
    pub fn grow(&mut self, more: u32) -> Result<(), OutOfMemory>
        requires few { length self.old + more < 2 ^ 32 }
        ensures grown { OnOk result (self.new ≡ self.old ++ replicate more None) }
        ensures refused { OnErr result (self.new ≡ self.old) }
    {
        let rows = self.records.len() + more as usize;
        self.vacant.reserve_exact(rows - self.vacant.len())?;
        self.records.reserve_exact(more as usize)?;
        add_vacant(&mut self.records, &mut self.vacant, more);
        Ok(())
    }

    /// How many rows there are, vacant ones among them.
    pub(crate) fn len(&self) -> u32
        ensures { result ≡ length self.now }
    {
        self.records.len() as u32
    }

    /// How many rows are filled.
    pub(crate) fn filled(&self) -> u32
        ensures { result ≡ count_by is_some self.now }
    {
        (self.records.len() - self.vacant.len()) as u32
    }

    /// The record of a row, if it is filled.
    pub(crate) fn get(&self, row: u32) -> Option<&Record>
        ensures { option_map (λ held. held.now) result ≡ slice_index_or self.now row None }
    {
        match self.records.get(row as usize) {
            Some(Some(record)) => Some(record),
            _ => None,
        }
    }

    /// The record of a filled row.
    pub fn record(&self, row: u32) -> &Record
        requires { IsSome (slice_index_or self.now row None) }
        ensures { Some result.now ≡ slice_index_or self.now row None }
    {
        match &self.records[row as usize] {
            Some(record) => record,
            None => unreachable!(),
        }
    }

    /// Fills a vacant row, and returns its number.
    pub fn fill(&mut self, new: Record) -> u32
        requires { count_by is_some self.old < length self.old }
        ensures below { result < length self.old }
        ensures vacant { slice_index_or self.old result None ≡ None }
        ensures now { self.new ≡ slice_set self.old result (Some new) }
    {
        match self.vacant.pop() {
            Some(row) => {
                self.records[row as usize] = Some(new);
                row
            }
            None => unreachable!(),
        }
    }

    /// Vacates a filled row, and returns what it held.
    pub fn take(&mut self, row: u32) -> Record
        requires { IsSome (slice_index_or self.old row None) }
        ensures was { Some result ≡ slice_index_or self.old row None }
        ensures now { self.new ≡ slice_set self.old row None }
    {
        match self.records[row as usize].take() {
            Some(record) => {
                self.vacant.push_reserved(row);
                record
            }
            None => unreachable!(),
        }
    }

    /// Fills a filled row anew, and returns what it held.
    pub fn replace(&mut self, row: u32, new: Record) -> Record
        requires { IsSome (slice_index_or self.old row None) }
        ensures was { Some result ≡ slice_index_or self.old row None }
        ensures now { self.new ≡ slice_set self.old row (Some new) }
    {
        match self.records[row as usize].replace(new) {
            Some(record) => record,
            None => unreachable!(),
        }
    }

    /// Changes the expiry of a filled row.
    pub fn set_expiry(&mut self, row: u32, expiry: Expiry)
        requires { IsSome (slice_index_or self.old row None) }
        ensures { self.new ≡ slice_set self.old row
            (Some (with_expiry_of expiry (held_of (slice_index_or self.old row None)))) }
    {
        match &mut self.records[row as usize] {
            Some(record) => record.expiry = expiry,
            None => unreachable!(),
        }
    }
}
