//! The steps of a call on many keys, one after the other.
//!
//! All that they need was made before the first of them, so none is refused. Where one waits for an answer, those after
//! it keep their values: no other step changes the value of its key.
ghost use Rattle.jc_ops.specs.Visited.{IsSameVisit};
ghost use Rattle.jc_bulk.specs.Ahead.{AreReady, ahead_run};
ghost use Rattle.jc_bulk.specs.Calls.{ComesFrom};

use crate::call::CallNext;
use crate::call_sum::CallSum;
use crate::waits::suspend;
use jc_model::call::KeyCall;
use jc_ops::step::{KeyStep, Next};
use jc_ops::supply::Supply;
use jc_ops::supply::values::Values;
use jc_ops::visit::Visit;
use jc_ring::ring::Ring;
use jc_rows::rows::Rows;
use std::collections::VecDeque;

/// A step with its values.
#[derive(Drop)]
pub struct Provided {
    pub call: KeyCall,
    pub values: Values,
}

/// What steps may need beside their values.
#[derive(Clone, Copy)]
pub struct Needs {
    /// Whether one may itself store a key that is not there.
    pub adds: bool,
    /// Whether one may tell more than one notice.
    pub tells: bool,
}

/// The steps that are left, and what was gathered of those before them.
#[derive(Drop)]
pub struct Ahead {
    pub rest: VecDeque<Provided>,
    pub sum: CallSum,
    pub needs: Needs,
}

/// Goes on with the steps that are left, until one waits or fails.
pub(crate) fn go_on<R: Rows, G: Ring>(visit: &mut Visit<R, G>, mut ahead: Ahead) -> CallNext
    requires ready { AreReady visit.old ahead }
    ensures same { IsSameVisit visit.old visit.new }
    ensures moved { ComesFrom visit.old (ahead_run visit.old ahead) result visit.new }
{
    'steps: while let Some(Provided { call, values }) = ahead.rest.pop_front() {
        let key = call.key;
        let row = visit.find(&key);
        match KeyStep::start(visit, call, Supply { row, values }) {
            Next::Waiting(request, step) => return suspend(request, step, Some(ahead)),
            Next::Ended(reply) => {
                if let Some(reply) = ahead.sum.add(key, reply) {
                    drop(ahead);
                    return Next::Ended(reply);
                }
            }
        }
    }
    Next::Ended(ahead.sum.into_reply())
}
