//! A step of a line of the case table: its line, and the answer of its writer or loader.
ghost use Rattle.std.specs.Prelude.{◌≡◌, ◌≤◌, false, is_some};
ghost use Rattle.jc_model.specs.Step.{live_in};
ghost use Rattle.jc_ops.specs.Kept.{key_row, FoundRow};
ghost use Rattle.jc_ops.specs.Visited.{SpendsAtMost};
ghost use Rattle.jc_ops.specs.Carried.{IsBegun, IsReady};
ghost use Rattle.jc_ops.specs.Lines.{is_invoke, line_at, told_of, told_on};
ghost use Rattle.jc_ops.specs.Stepped.{StepsFrom, StaysAt, answer_run, waits_first};
ghost use Rattle.jc_ops.specs.Supply.{CoversIn, HasPlacesFor, HasRoomFor};

use crate::step::change::{count, end};
use crate::step::reply::fault;
use crate::step::{KeyStep, Next};
use crate::supply::Supply;
use crate::visit::Visit;
use jc_model::call::{Answer, By, KeyCall};
use jc_model::table::{Ask, TableLine, absent_line, expected, live_line, otherwise};
use jc_ring::ring::Ring;
use jc_rows::rows::Rows;

/// The line of a call, by the value of its key's row.
pub(super) fn line_of<R: Rows, G: Ring>(
    visit: &Visit<R, G>,
    row: Option<u32>,
    call: &KeyCall,
) -> TableLine
    requires row { FoundRow call.now.key visit.now.cache row }
    ensures line { result
        ≡ line_at call.now.op (live_in (key_row visit.now.cache call.now.key)) }
    ensures told { told_of (is_some row) result.change ≤ told_on (is_some row) call.now.op }
{
    match row {
        None => absent_line(&call.op),
        Some(row) => match expected(&call.op) {
            None => live_line(&call.op),
            Some(expected) => {
                if visit.value(row).first() == expected {
                    live_line(&call.op)
                } else {
                    otherwise()
                }
            }
        },
    }
}

/// The line of a step that begins. The key's expired row goes, and with it what the supply has of its value.
pub(super) fn begin<R: Rows, G: Ring>(
    visit: &mut Visit<R, G>,
    call: &KeyCall,
    supply: &mut Supply,
) -> TableLine
    requires row { FoundRow call.now.key visit.old.cache supply.old.row }
    requires places { HasPlacesFor call.now visit.old }
    requires covered { CoversIn visit.old.cache.config.writer visit.old call.now
        supply.old.values }
    requires room { HasRoomFor call.now visit.old }
    ensures { IsBegun visit.old call.now result supply.new visit.new }
{
    let row = visit.purge(supply.row);
    supply.row = row;
    supply.values.shown = row.and(supply.values.shown.take());
    supply.values.entry = row.and(supply.values.entry.take());
    line_of(visit, row, call)
}

/// The answer to a step of any operation but a processor's.
pub(super) fn answer_line<R: Rows, G: Ring>(
    visit: &mut Visit<R, G>,
    call: &KeyCall,
    answer: &Answer,
    mut supply: Supply,
) -> Next<KeyStep>
    requires invoke { is_invoke call.now.op ≡ false }
    requires ready { IsReady visit.old (told_on (is_some supply.row) call.now.op)
        (waits_first visit.old.moment call.now) answer.now supply }
    ensures spends { SpendsAtMost 1 (told_on (is_some supply.row) call.now.op)
        visit.old visit.new }
    ensures next { StepsFrom visit.old
        (answer_run visit.old (waits_first visit.old.moment call.now) answer.now)
        result visit.new }
    ensures call_stays { StaysAt visit.old.moment call.now result }
{
    let line = line_of(visit, supply.row, call);
    match line.asks {
        Ask::Load => match answer {
            Answer::Loaded(_) => Next::Ended(end(visit, &call.key, line, supply)),
            _ => {
                count(visit, line.counts, supply.row.is_some());
                drop(supply);
                Next::Ended(fault(By::Loader, None))
            }
        },
        _ => match answer {
            Answer::Written => {
                supply.values.shown = supply.row.and(supply.values.shown.take());
                Next::Ended(end(visit, &call.key, line, supply))
            }
            _ => {
                drop(supply);
                Next::Ended(fault(By::Writer, None))
            }
        },
    }
}
