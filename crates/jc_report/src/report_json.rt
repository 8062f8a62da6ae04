//! The whole report.
ghost use Rattle.std.specs.Prelude.{◌≡◌, ◌<◌, ◌+◌, ◌^◌, IfOk, length, string_bytes};
ghost use Rattle.jc_model.specs.Legal.{IsLegal};
ghost use Rattle.jc_report.specs.JsonReport.{json};
ghost use Rattle.jc_report.specs.Totals.{CanOpenEach};

use crate::line_numbers::NumberedLine;
use crate::lines::push_lines;
use crate::run_record::RunRecord;
use crate::totals::push_lives;
use std::alloc::{AllocError, Global};

/// The report of a legal transcript as JSON, an object a line: for each line of the outline, in its order, what it came
/// to, and then for each life, in order of id, its counters and its hit ratio. `first` is the id that the first life
/// which a line creates has got. The seed picks places in tables, and changes nothing of the text.
pub fn json_report(
    alloc: Global,
    outline: &[NumberedLine],
    first: u32,
    run: &RunRecord<'_>,
    seed: u64,
) -> Result<String, AllocError>
    requires legal { IsLegal run.now.transcript.now }
    requires opens { CanOpenEach run.now.transcript.now.lives }
    ensures { IfOk result (λ s. string_bytes s
        ≡ json first outline.now run.now.transcript.now run.now.managed.now) }
{
    let mut report = String::new(alloc);
    let (lives, entries) = (run.transcript.lives(), run.transcript.entries());
    push_lines(alloc, &mut report, outline, first, run)?;
    push_lives(alloc, seed, &mut report, lives, entries)?;
    Ok(report)
}
