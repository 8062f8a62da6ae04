//! The form of a report: text or JSON.
ghost use Rattle.std.specs.Prelude.{◌≡◌, IfOk, string_bytes};
ghost use Rattle.jc_report.specs.Totals.{CanOpenEach};
ghost use Rattle.jc_model.specs.Legal.{IsLegal};
ghost use Rattle.jc_runner.specs.Forms.{form_of, report_in};

use jc_cli::Format;
use jc_model::list::Sequence;
use jc_report::{NumberedLine, RunRecord, json_report, outline, report};
use jc_script::Line;
use std::alloc::{AllocError, Global};

/// As text, or as JSON, which tells the lines by their numbers in the script.
#[derive(Drop)]
pub enum Form {
    Text,
    Json(Sequence<NumberedLine>),
}

/// A script that was read: its lines, and the form of the report on them.
#[derive(Drop)]
pub struct Script {
    pub lines: Vec<Line>,
    pub form: Form,
}

/// The form of a report of these lines of a script.
pub(crate) fn form_of(
    alloc: Global,
    format: Format,
    bytes: &[u8],
    lines: &[Line],
) -> Result<Form, AllocError>
    ensures { IfOk result (λ form. form ≡ form_of format bytes.now lines.now) }
{
    match format {
        Format::Text => Ok(Form::Text),
        Format::Json => {
            let outline = outline(alloc, bytes, lines)?;
            Ok(Form::Json(Sequence::new(outline)))
        }
    }
}

/// The report of a run in that form. `first` is how many caches the manager was opened with. The seed picks places in
/// tables, and changes nothing of it.
pub(crate) fn report_in(
    alloc: Global,
    form: &Form,
    first: u32,
    run: &RunRecord<'_>,
    seed: u64,
) -> Result<String, AllocError>
    requires legal { IsLegal run.now.transcript.now }
    requires opens { CanOpenEach run.now.transcript.now.lives }
    ensures { IfOk result (λ s. string_bytes s
        ≡ report_in form.now first run.now.transcript.now run.now.managed.now) }
{
    match form {
        Form::Text => report(alloc, run.transcript, run.managed),
        Form::Json(outline) => json_report(alloc, outline.items(), first, run, seed),
    }
}
