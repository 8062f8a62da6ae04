//! The manager's part of a report.
ghost use Rattle.std.specs.Prelude.{◌≡◌, OnOk};
ghost use Rattle.std.specs.List.{flat_map};
ghost use Rattle.jc_report.specs.Report.{op_text, answer_text, managed_line, managed_text, Appends};

use crate::reply::push_spaced;
use jc_model::event::CreateRefusal;
use jc_script::{ManageOp, Managed};
use std::alloc::AllocError;

/// The word of a line that creates or destroys.
pub fn name_of_op(op: ManageOp) -> &'static str
    ensures { result.now ≡ op_text op }
{
    match op {
        ManageOp::Create => "create",
        ManageOp::Destroy => "destroy",
    }
}

fn text_of_answer(refusal: Option<CreateRefusal>) -> &'static str
    ensures { result.now ≡ answer_text refusal }
{
    match refusal {
        None => "ok",
        Some(CreateRefusal::TooManyCaches) => "fault too many caches",
        Some(CreateRefusal::BadCapacity) => "fault bad capacity",
        Some(CreateRefusal::TooManyListeners) => "fault too many listeners",
        Some(CreateRefusal::TooManyProcessors) => "fault too many processors",
        Some(CreateRefusal::DuplicateName) => "fault duplicate name",
        Some(CreateRefusal::TotalCapacity) => "fault total capacity",
        Some(CreateRefusal::IdsSpent) => "fault ids spent",
        Some(CreateRefusal::OutOfMemory) => "fault out of memory",
    }
}

fn push_line(report: &mut String, line: &Managed) -> Result<(), AllocError>
    ensures { OnOk result (Appends (managed_line line.now) report.old report.new) }
{
    push_spaced(report, line.session as u64)?;
    report.push_str(name_of_op(line.op))?;
    report.push_str(" ")?;
    report.push_str(line.name.text())?;
    report.push_str(" ")?;
    report.push_str(text_of_answer(line.refusal))?;
    report.push_str("\n")
}

fn push_lines(report: &mut String, lines: &[Managed]) -> Result<(), AllocError>
    ensures { OnOk result (Appends (flat_map managed_line lines.now) report.old report.new) }
{
    for line in lines {
        push_line(report, line)?;
    }
    Ok(())
}

/// Adds what became of the lines that created and destroyed caches; nothing where there were none.
pub fn push_managed(report: &mut String, managed: &[Managed]) -> Result<(), AllocError>
    ensures { OnOk result (Appends (managed_text managed.now) report.old report.new) }
{
    if managed.is_empty() {
        return Ok(());
    }
    report.push_str("manager\n")?;
    push_lines(report, managed)
}
