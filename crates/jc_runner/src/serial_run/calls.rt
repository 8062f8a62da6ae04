//! The call of a line, with the callbacks that answer its requests.
ghost use Rattle.std.specs.Prelude.{◌≡◌, Some, IfOk, IfErr, OnOk};
ghost use Rattle.jc_model.specs.declared.event.Event.TheVariants.{Answer as Answered};
ghost use Rattle.jc_runner.specs.Halfway.{event_of, CanMove, IsLineReady, Replies, RepliesAt, BeginsLineCall, HandsAnswer};
ghost use Rattle.jc_runner.specs.Hooks.{asked_of, AreKept};
ghost use Rattle.jc_cli.specs.declared.fault.RunFault.TheVariants as faults;

use crate::callbacks::{answer, no_hooks};
use jc_cli::RunFault;
use jc_engine::recorded::Recorded;
use jc_hooks::{CacheHooks, FilteredListener, Loader, Processor, Writer};
use jc_model::call::Answer;
use jc_model::event::{CacheId, Cause, Step};
use jc_ring::ring::Ring;
use jc_rows::rows::Rows;
use jc_script::LineCall;
use std::alloc::Global;

/// Begins the call of a line.
fn begin<R: Rows, G: Ring>(recorded: &mut Recorded<R, G>, line: LineCall) -> Result<Step, RunFault>
    requires { CanMove recorded.old (event_of line) }
    ensures moves { IfOk result (BeginsLineCall recorded.old recorded.new line) }
    ensures faults { IfErr result (λ e. e ≡ faults.Memory) }
{
    let LineCall {
        session,
        id,
        at,
        call,
    } = line;
    match recorded.begin(session, id, at, call) {
        Ok((step, copy)) => {
            drop(copy);
            Ok(step)
        }
        Err((Cause::OutOfMemory, call)) => {
            drop(call);
            Err(RunFault::Memory)
        }
        Err(_) => unreachable!(),
    }
}

/// Hands the open call of a cache the answer to its request.
fn resume<R: Rows, G: Ring>(
    recorded: &mut Recorded<R, G>,
    id: CacheId,
    answer: Answer,
) -> Result<Step, RunFault>
    requires { CanMove recorded.old (Answered id answer) }
    ensures moves { IfOk result (HandsAnswer recorded.old recorded.new id answer) }
    ensures faults { IfErr result (λ e. e ≡ faults.Memory) }
{
    match recorded.resume(id, answer) {
        Ok((step, copy)) => {
            drop(copy);
            Ok(step)
        }
        Err((Cause::OutOfMemory, answer)) => {
            drop(answer);
            Err(RunFault::Memory)
        }
        Err(_) => unreachable!(),
    }
}

/// Makes the call of a line: these callbacks answer each of its requests, until it replies.
fn carry_out<R: Rows, G: Ring, L: Loader, W: Writer, P: Processor, K: FilteredListener>(
    alloc: Global,
    recorded: &mut Recorded<R, G>,
    hooks: &mut CacheHooks<L, W, P, K>,
    line: LineCall,
) -> Result<(), RunFault>
    requires ready { IsLineReady recorded.old line }
    ensures replies { OnOk result (Replies L.load_of W.may P.verdict_of K.state_after
        recorded.old recorded.new (Some hooks.old) (Some hooks.new) line) }
    ensures kept { asked_of hooks.new ≡ asked_of hooks.old }
    ensures faults { IfErr result (λ e. e ≡ faults.Memory) }
{
    let id = line.id;
    let mut step = begin(recorded, line)?;
    while let Step::Need(request) = step {
        let answer = answer(alloc, hooks, request)?;
        step = resume(recorded, id, answer)?;
    }
    Ok(())
}

/// Makes the call of a line with the callbacks of its cache, or with none where it has none.
pub(crate) fn run_call<R: Rows, G: Ring, L: Loader, W: Writer, P: Processor, K: FilteredListener>(
    alloc: Global,
    recorded: &mut Recorded<R, G>,
    hooks: &mut [CacheHooks<L, W, P, K>],
    line: LineCall,
) -> Result<(), RunFault>
    requires { IsLineReady recorded.old line }
    ensures replies { OnOk result (RepliesAt L.load_of W.may P.verdict_of K.state_after
        recorded.old recorded.new hooks.old hooks.new line) }
    ensures kept { AreKept hooks.old hooks.new }
    ensures faults { IfErr result (λ e. e ≡ faults.Memory) }
{
    let place = line.id.number() as usize;
    if place < hooks.len() {
        return carry_out(alloc, recorded, &mut hooks[place], line);
    }
    let mut none: CacheHooks<L, W, P, K> = no_hooks(alloc);
    carry_out(alloc, recorded, &mut none, line)
}
