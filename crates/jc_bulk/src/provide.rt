//! What all steps of a call may need, made before the first of them.
ghost use Rattle.std.specs.Prelude.{◌≡◌, ◌+◌, ◌≤◌, true, IfOk, OnOk};
ghost use Rattle.jc_model.specs.Sound.{HasDistinctKeys};
ghost use Rattle.jc_ops.specs.Kept.{items_of, FoundRow};
ghost use Rattle.jc_ops.specs.Visited.{IsUnchanged};
ghost use Rattle.jc_ops.specs.Lines.{takes_value};
ghost use Rattle.jc_ops.specs.Supply.{CoversAnswerIn, HasRoomAt};
ghost use Rattle.jc_bulk.specs.Ahead.{calls_ahead, AreCoveredIn, AreReady, HasRoomForSteps};
ghost use Rattle.jc_bulk.specs.Ahead.{HasPlacesFrom, HasRoomFrom};
ghost use Rattle.jc_bulk.specs.Calls.{steps_for, first_sum};
ghost use Rattle.jc_bulk.specs.Provided.{calls_in, any_creates, any_tells, places_for};
ghost use Rattle.jc_bulk.specs.Tallied.{sum_of};

use crate::bulk::{Ahead, Needs, Provided};
use crate::call_sum::CallSum;
use crate::steps::steps_of;
use jc_model::OutOfMemory;
use jc_model::call::{Answer, Call, KeyCall};
use jc_ops::step::KeyStep;
use jc_ops::supply::values::Values;
use jc_ops::supply::{Supply, creates, most_notices, takes_value};
use jc_ops::visit::Visit;
use jc_ring::ring::Ring;
use jc_rows::rows::Rows;
use std::alloc::{AllocError, Global};
use std::collections::VecDeque;

/// Whether any of the steps may itself store a key that is not there.
fn any_creates(calls: &[KeyCall]) -> bool
    ensures { result ≡ any_creates calls.now }
{
    calls.iter().any(|call| creates(&call.op))
}

/// Whether any of the steps may tell more than one notice.
fn any_tells(calls: &[KeyCall]) -> bool
    ensures { result ≡ any_tells calls.now }
{
    calls.iter().any(|call| 1 < most_notices(&call.op, false))
}

/// How many notices so many steps may tell, and so many more. A step that may store tells at most of its expired row, its
/// victim and its own.
fn places_for(needs: Needs, steps: usize, more: usize) -> Result<usize, OutOfMemory>
    ensures { IfOk result (λ places. places ≡ places_for needs.tells steps + more) }
{
    let each = if needs.tells { 3 } else { 1 };
    let places = steps.checked_mul(each).ok_or(AllocError)?;
    places.checked_add(more).ok_or(AllocError)
}

/// The key's row, where the step's values are taken of it.
fn row_for<R: Rows, G: Ring>(visit: &Visit<R, G>, call: &KeyCall) -> Option<u32>
    ensures { takes_value call.now.op ≡ true → FoundRow call.now.key visit.now.cache result }
{
    if takes_value(&call.op) {
        visit.find(&call.key)
    } else {
        None
    }
}

/// The steps with their values.
fn with_values<R: Rows, G: Ring>(
    visit: &Visit<R, G>,
    calls: Vec<KeyCall>,
) -> Result<VecDeque<Provided>, OutOfMemory>
    ensures calls { IfOk result (λ rest. calls_in rest.items ≡ calls.items) }
    ensures covered { IfOk result (λ rest. AreCoveredIn visit.now rest.items) }
{
    let mut rest = VecDeque::with_capacity(visit.alloc(), calls.len())?;
    for call in calls {
        let row = row_for(visit, &call);
        let values = Values::for_call(visit, row, &call, visit.config().writer)?;
        rest.push_back(Provided { call, values })?;
    }
    Ok(rest)
}

/// All that the steps of a call may need. Nothing has changed yet.
pub fn prepare<R: Rows, G: Ring>(visit: &mut Visit<R, G>, call: &Call) -> Result<Ahead, OutOfMemory>
    ensures same { IsUnchanged visit.old visit.new }
    ensures asks { HasRoomForSteps (steps_for visit.old call.now) visit.old.spare →
        visit.new.spare ≡ visit.old.spare }
    ensures steps { IfOk result (λ ahead. calls_ahead ahead ≡ steps_for visit.old call.now) }
    ensures sum { IfOk result (λ ahead. sum_of ahead.sum ≡ first_sum visit.old call.now) }
    ensures ready { IfOk result (AreReady visit.new) }
{
    let calls = steps_of(visit, call)?;
    let count = calls.len();
    let needs = Needs {
        adds: any_creates(calls.as_slice()),
        tells: any_tells(calls.as_slice()),
    };
    visit.reserve_notices(places_for(needs, count, 0)?)?;
    visit.reserve_rows(if needs.adds { count } else { 0 })?;
    let rest = with_values(visit, calls)?;
    let sum = CallSum::for_call(visit.alloc(), call, count)?;
    Ok(Ahead { rest, sum, needs })
}

/// What the step that waits may need at this answer, and the room that it and the steps after it may need. Their
/// values were made when the call began.
pub fn prepare_answer<R: Rows, G: Ring>(
    visit: &mut Visit<R, G>,
    step: &KeyStep,
    ahead: &Option<Ahead>,
    answer: &Answer,
) -> Result<Supply, OutOfMemory>
    ensures same { IsUnchanged visit.old visit.new }
    ensures row { IfOk result (λ s.
        FoundRow step.entry.now.call.key visit.old.cache s.row) }
    ensures apart { HasDistinctKeys (items_of visit.old.cache.cells) }
    ensures places { OnOk result (HasPlacesFrom step.entry.now ahead.now visit.new) }
    ensures room { OnOk result (HasRoomAt step.entry.now answer.now visit.new) }
    ensures asks { HasRoomAt step.entry.now answer.now visit.old →
        HasRoomFrom ahead.now visit.old.spare → visit.new.spare ≡ visit.old.spare }
    ensures rest_room { OnOk result (HasRoomFrom ahead.now visit.new.spare) }
    ensures covers { IfOk result (λ s.
        CoversAnswerIn visit.old step.entry.now answer.now s.values) }
{
    let supply = Supply::for_answer(visit, step, answer)?;
    let Some(ahead) = ahead else {
        return Ok(supply);
    };
    let own = most_notices(&step.call().op, false);
    let steps = ahead.rest.len();
    visit.reserve_notices(places_for(ahead.needs, steps, own)?)?;
    visit.reserve_rows(if ahead.needs.adds { steps + 1 } else { 0 })?;
    Ok(supply)
}
