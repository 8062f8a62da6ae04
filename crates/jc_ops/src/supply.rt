//! What one key's step may need in memory, made before any change.
//!
//! Each value that a step leaves behind is shared beforehand: what it stores, the same for the notice of it, what
//! it replies, and what its writer or processor is given. So the step itself can't be refused. Values may be kept
//! while a call waits; room in the table may be used up by others meanwhile, and is made anew.
mod needs;
pub mod values;

ghost use Rattle.std.specs.Prelude.{◌≡◌, IfOk, OnOk};
ghost use Rattle.jc_model.specs.Sound.{HasDistinctKeys};
ghost use Rattle.jc_ops.specs.Kept.{items_of, FoundRow};
ghost use Rattle.jc_ops.specs.Visited.{IsUnchanged};
ghost use Rattle.jc_ops.specs.Supply.{CoversIn, CoversAnswerIn};
ghost use Rattle.jc_ops.specs.Supply.{HasPlacesFor, HasRoomFor, HasRoomAt};

use crate::step::KeyStep;
use crate::supply::needs::adds_at;
pub use crate::supply::needs::{asks_no_one, creates, most_notices, takes_value};
use crate::supply::values::Values;
use crate::visit::Visit;
use jc_model::OutOfMemory;
use jc_model::call::{Answer, KeyCall};
use jc_ring::ring::Ring;
use jc_rows::rows::Rows;

/// What one step is given.
#[derive(Drop)]
pub struct Supply {
    /// The number of its key's row, if it has one.
    pub row: Option<u32>,
    pub values: Values,
}

impl Supply {
    /// All that a step of this call may need: its values, places for its notices, and room in the table where it adds a
    /// row.
    pub fn for_step<R: Rows, G: Ring>(
        visit: &mut Visit<R, G>,
        call: &KeyCall,
    ) -> Result<Supply, OutOfMemory>
        ensures same { IsUnchanged visit.old visit.new }
        ensures row { IfOk result (λ s. FoundRow call.now.key visit.old.cache s.row) }
        ensures places { OnOk result (HasPlacesFor call.now visit.new) }
        ensures room { OnOk result (HasRoomFor call.now visit.new) }
        ensures asks { HasRoomFor call.now visit.old → visit.new.spare ≡ visit.old.spare }
        ensures covers { IfOk result (λ s.
            CoversIn visit.old.cache.config.writer visit.old call.now s.values) }
    {
        let row = visit.find(&call.key);
        let there = visit.has_live(row);
        let writer = visit.config().writer;
        visit.reserve_notices(most_notices(&call.op, there))?;
        let adds = !there && !writer && creates(&call.op);
        visit.reserve_rows(usize::from(adds))?;
        let values = Values::for_call(visit, row, call, writer)?;
        Ok(Supply { row, values })
    }

    /// All that a step that waits may need at this answer.
    pub fn for_answer<R: Rows, G: Ring>(
        visit: &mut Visit<R, G>,
        step: &KeyStep,
        answer: &Answer,
    ) -> Result<Supply, OutOfMemory>
        ensures same { IsUnchanged visit.old visit.new }
        ensures row { IfOk result (λ s.
            FoundRow step.entry.now.call.key visit.old.cache s.row) }
        ensures apart { HasDistinctKeys (items_of visit.old.cache.cells) }
        ensures places { OnOk result (HasPlacesFor step.entry.now.call visit.new) }
        ensures room { OnOk result (HasRoomAt step.entry.now answer.now visit.new) }
        ensures asks { HasRoomAt step.entry.now answer.now visit.old →
            visit.new.spare ≡ visit.old.spare }
        ensures covers { IfOk result (λ s.
            CoversAnswerIn visit.old step.entry.now answer.now s.values) }
    {
        let call = step.call();
        let row = visit.find(&call.key);
        let there = visit.has_live(row);
        visit.reserve_notices(most_notices(&call.op, there))?;
        let adds = adds_at(visit.config(), step, answer);
        visit.reserve_rows(usize::from(!there & adds))?;
        let values = Values::at(visit, row, step, answer)?;
        Ok(Supply { row, values })
    }
}
