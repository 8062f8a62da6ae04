//! A step that hands its key's entry to a processor, at each answer.
ghost use Rattle.std.specs.Prelude.{◌≡◌, ℕ, List, true, None, is_some};
ghost use Rattle.jc_model.specs.declared.call.Op.TheVariants.{Invoke};
ghost use Rattle.jc_model.specs.declared.table.Change.TheVariants.{Put};
ghost use Rattle.jc_model.specs.Run.{verdict_of};
ghost use Rattle.jc_ops.specs.Visited.{SpendsAtMost};
ghost use Rattle.jc_ops.specs.Carried.{IsReady, judged_run};
ghost use Rattle.jc_ops.specs.Given.{verdict_in};
ghost use Rattle.jc_ops.specs.Lines.{is_invoke, told_of};
ghost use Rattle.jc_ops.specs.Stepped.{StepsFrom, StaysAt, answer_run};
ghost use Rattle.jc_ops.specs.Verdicts.{verdict_line};

use crate::step::change::{count, end};
use crate::step::reply::fault;
use crate::step::request::{ask_writer, awaits_load, process};
use crate::step::{KeyStep, Next};
use crate::supply::Supply;
use crate::visit::Visit;
use jc_model::call::{Action, Answer, By};
use jc_model::table::{TableLine, absent_verdict, live_verdict};
use jc_ring::ring::Ring;
use jc_rows::rows::Rows;

/// A verdict's line, by whether the key has a row.
fn verdict_line(action: &Action, there: bool) -> TableLine
    ensures { result ≡ verdict_line action.now there }
{
    if there {
        live_verdict(action)
    } else {
        absent_verdict(action)
    }
}

/// The processor's answer: its verdict is carried out, where the writer is not asked before.
fn answer_process<R: Rows, G: Ring>(
    visit: &mut Visit<R, G>,
    step: KeyStep,
    answer: Answer,
    mut supply: Supply,
) -> Next<KeyStep>
    requires invoke { is_invoke step.call.op ≡ true }
    requires undecided { verdict_in step.given ≡ None }
    requires ready { IsReady visit.old (told_of (is_some supply.row) Put) step answer supply }
    requires means { answer_run visit.old step answer
        ≡ judged_run visit.old step (verdict_of answer) }
    ensures spends { SpendsAtMost 1 (told_of (is_some supply.row) Put) visit.old visit.new }
    ensures next { StepsFrom visit.old (answer_run visit.old step answer) result visit.new }
    ensures call_stays { StaysAt step.now step.call result }
{
    let verdict = match answer {
        Answer::Processed(Ok(verdict)) => verdict,
        _ => {
            count(visit, true, supply.row.is_some());
            drop((step, supply));
            return Next::Ended(fault(By::Processor, None));
        }
    };
    let line = verdict_line(&verdict.action, supply.row.is_some());
    let copy = supply.values.copy.take();
    match ask_writer(visit.config(), &step.call.key, line.asks, copy) {
        Some(request) => {
            drop(supply);
            let verdict = Some(verdict);
            Next::Waiting(request, KeyStep { verdict, ..step })
        }
        None => {
            let reply = end(visit, &step.call.key, line, supply);
            drop((step, verdict));
            Next::Ended(reply)
        }
    }
}

/// The answer to a step of this processor.
pub(super) fn answer_invoke<R: Rows, G: Ring>(
    visit: &mut Visit<R, G>,
    step: KeyStep,
    processor: u8,
    answer: Answer,
    supply: Supply,
) -> Next<KeyStep>
    requires invoke { (argument : List ℕ) × (step.call.op ≡ Invoke processor argument) }
    requires ready { IsReady visit.old (told_of (is_some supply.row) Put) step answer supply }
    ensures spends { SpendsAtMost 1 (told_of (is_some supply.row) Put) visit.old visit.new }
    ensures next { StepsFrom visit.old (answer_run visit.old step answer) result visit.new }
    ensures call_stays { StaysAt step.now step.call result }
{
    match &step.verdict {
        Some(verdict) => match answer {
            Answer::Written => {
                let line = verdict_line(&verdict.action, supply.row.is_some());
                let reply = end(visit, &step.call.key, line, supply);
                drop((step, answer));
                Next::Ended(reply)
            }
            _ => {
                drop((step, answer, supply));
                Next::Ended(fault(By::Writer, None))
            }
        },
        None => {
            let there = supply.row.is_some();
            let answered = step.loaded.is_some();
            if !awaits_load(visit.config(), processor, there | answered) {
                return answer_process(visit, step, answer, supply);
            }
            let loaded = match answer {
                Answer::Loaded(loaded) => loaded,
                _ => {
                    drop((step, supply));
                    visit.miss();
                    return Next::Ended(fault(By::Loader, None));
                }
            };
            let Supply { values, .. } = supply;
            match process(&step.call.key, processor, values.entry, values.copy) {
                Some(request) => {
                    let loaded = Some(loaded);
                    Next::Waiting(request, KeyStep { loaded, ..step })
                }
                None => unreachable!(),
            }
        }
    }
}
