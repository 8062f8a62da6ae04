//! One call on one cache, on a visit.
//!
//! A call first makes the memory that it may need. Where memory is refused, nothing has changed; from there on it can't
//! be refused. It ends with its reply, or waits for one answer; its notices are the visit's.
ghost use Rattle.std.specs.Prelude.{◌≡◌, true, None, IfOk, IfErr, IfSome, OnErr, IsOk};
ghost use Rattle.jc_model.specs.Run.{fits};
ghost use Rattle.jc_model.specs.Whole.{is_free};
ghost use Rattle.jc_ops.specs.Visited.{IsSameVisit, IsUnchanged};
ghost use Rattle.jc_bulk.specs.Calls.{ComesFrom, EndsFrom, IsSuspendedIn, call_run, answered_run};

use crate::bulk::go_on;
use crate::entries::entries;
use crate::provide::{prepare, prepare_answer};
use crate::waits::{Suspended, suspend};
use jc_model::OutOfMemory;
use jc_model::call::{Answer, Call, Reply};
use jc_model::owners::Owners;
use jc_model::table::key_step;
use jc_ops::step::reply::{done, truth};
use jc_ops::step::{KeyStep, Next};
use jc_ops::supply::{Supply, asks_no_one};
use jc_ops::visit::Visit;
use jc_ring::ring::Ring;
use jc_rows::rows::Rows;

/// What a call has come to: its reply, or the next request.
pub type CallNext = Next<Suspended>;

/// Makes a call on one key that asks no one, and so does not wait: its reply. Of any other call nothing, and nothing has
/// changed; so also where memory is refused.
///
/// Most calls are such ones, and are to have no share in what a call that waits needs.
pub fn end_at_once<R: Rows, G: Ring>(
    visit: &mut Visit<R, G>,
    call: &Call,
) -> Result<Option<Owners<Reply>>, OutOfMemory>
    ensures same_visit { IsSameVisit visit.old visit.new }
    ensures ended { IfOk result (λ at_once. IfSome at_once
        (EndsFrom (call_run visit.old call.now) visit.new)) }
    ensures none { IfOk result (λ at_once. at_once ≡ None → IsUnchanged visit.old visit.new) }
    ensures same { OnErr result (IsUnchanged visit.old visit.new) }
    ensures free { is_free call.now ≡ true → IsOk result }
{
    if visit.config().loader || visit.config().writer {
        return Ok(None);
    }
    if let Call::Contains(_) | Call::Stats | Call::ClearStats | Call::Clear | Call::Entries = call {
        return Ok(None);
    }
    let Some(step) = key_step(call)? else {
        return Ok(None);
    };
    if !asks_no_one(visit.config(), &step.op) {
        return Ok(None);
    }
    let supply = Supply::for_step(visit, &step)?;
    Ok(Some(KeyStep::end_at_once(visit, step, supply)))
}

/// Begins a call on a cache. Where memory is refused, nothing has changed; a call that takes none is not refused.
pub fn start_call<R: Rows, G: Ring>(
    visit: &mut Visit<R, G>,
    call: &Call,
) -> Result<CallNext, OutOfMemory>
    ensures same_visit { IsSameVisit visit.old visit.new }
    ensures ok { IfOk result (λ next.
        ComesFrom visit.old (call_run visit.old call.now) next visit.new) }
    ensures same { OnErr result (IsUnchanged visit.old visit.new) }
    ensures free { is_free call.now ≡ true → IsOk result }
{
    match call {
        Call::Contains(key) => Ok(Next::Ended(truth(visit.holds(key)))),
        Call::Stats => {
            let counts = visit.counts();
            Ok(Next::Ended(Owners::new(counts, counts, counts).map(Reply::Counted)))
        }
        Call::ClearStats => {
            visit.clear_counts();
            Ok(Next::Ended(done()))
        }
        Call::Clear => {
            visit.clear();
            Ok(Next::Ended(done()))
        }
        Call::Entries => Ok(Next::Ended(entries(visit)?.map(Reply::Listed))),
        _ => match key_step(call)? {
            Some(step) => {
                let supply = Supply::for_step(visit, &step)?;
                match KeyStep::start(visit, step, supply) {
                    Next::Ended(reply) => Ok(Next::Ended(reply)),
                    Next::Waiting(request, step) => Ok(suspend(request, step, None)),
                }
            }
            None => {
                let ahead = prepare(visit, call)?;
                Ok(go_on(visit, ahead))
            }
        },
    }
}

/// Gives a suspended call its answer. Where memory is refused, both are handed back, and nothing has changed.
pub fn answer_call<R: Rows, G: Ring>(
    visit: &mut Visit<R, G>,
    suspended: Suspended,
    answer: Answer,
) -> Result<CallNext, (Suspended, Answer)>
    requires awaited { fits suspended.awaits answer ≡ true }
    requires waits { IsSuspendedIn visit.old suspended }
    ensures same_visit { IsSameVisit visit.old visit.new }
    ensures ok { IfOk result (λ next.
        ComesFrom visit.old (answered_run visit.old suspended answer) next visit.new) }
    ensures back { IfErr result (λ back. back ≡ (suspended, answer)) }
    ensures same { OnErr result (IsUnchanged visit.old visit.new) }
{
    let Ok(supply) = prepare_answer(visit, &suspended.step, &suspended.ahead, &answer) else {
        return Err((suspended, answer));
    };
    let Suspended { step, ahead, .. } = suspended;
    let key = step.call().key;
    match step.answer(visit, answer, supply) {
        Next::Waiting(request, step) => Ok(suspend(request, step, ahead)),
        Next::Ended(reply) => match ahead {
            None => Ok(Next::Ended(reply)),
            Some(mut ahead) => match ahead.sum.add(key, reply) {
                Some(reply) => Ok(Next::Ended(reply)),
                None => Ok(go_on(visit, ahead)),
            },
        },
    }
}
