//! Which values an operation or a verdict stores, replies and hands to its hooks.
ghost use Rattle.std.specs.Prelude.{◌≡◌, ◌&&◌, not, Bool, if◌then◌else◌, None, option_map};
ghost use Rattle.jc_model.specs.Table.{value_of};
ghost use Rattle.jc_ops.specs.Lines.{handed, shows, takes_value};
ghost use Rattle.jc_ops.specs.Lines.{asks_no_one, creates, is_invoke, told_by, most_told};
ghost use Rattle.jc_ops.specs.Verdicts.{stores_by, hands_by};
ghost use Rattle.jc_ops.specs.Supply.{adds_at};

use crate::step::KeyStep;
use jc_model::call::{Action, Answer, Op, Verdict};
use jc_model::config::CacheConfig;
use jc_model::table::{Ask, Change, Replied, TableLine, absent_line, live_line, value_of};
use jc_model::value::Value;

/// Whether an operation hands its entry to a processor.
pub(super) fn is_invoke(op: &Op) -> bool
    ensures { result ≡ is_invoke op.now }
{
    matches!(op, Op::Invoke { .. })
}

/// Whether a step of this operation asks no one, whatever its line.
pub fn asks_no_one(config: &CacheConfig, op: &Op) -> bool
    ensures { result ≡ asks_no_one config.now op.now }
{
    !config.loader && !config.writer && !is_invoke(op)
}

/// Whether an operation replies the live value.
pub(super) fn shows(op: &Op) -> bool
    ensures { result ≡ shows op.now }
{
    !is_invoke(op) && matches!(live_line(op).reply, Replied::Shown)
}

/// Whether an operation's supply takes the value of the key's row: to reply it, or to hand it to a processor.
pub fn takes_value(op: &Op) -> bool
    ensures { result ≡ takes_value op.now }
{
    is_invoke(op) || shows(op)
}

/// Whether an operation itself stores a key that is not there.
pub fn creates(op: &Op) -> bool
    ensures { result ≡ creates op.now }
{
    let line = absent_line(op);
    !matches!(line.asks, Ask::Load) && matches!(line.change, Change::Store | Change::Put)
}

/// How many notices a line may tell: of a live row one, and of a new one its victim's too. A processor may decide for any
/// change.
fn told_by(there: bool, line: TableLine) -> usize
    ensures { result ≡ told_by there line.asks line.change }
{
    let change = match line.asks {
        Ask::Process => Change::Put,
        _ => line.change,
    };
    match change {
        Change::Keep | Change::Access => 0,
        Change::Store | Change::Put => if there { 1 } else { 2 },
        Change::Remove => if there { 1 } else { 0 },
    }
}

/// How many notices a step may tell, by whether its key has a live row: where it has none, first of its expired row.
pub fn most_notices(op: &Op, there: bool) -> usize
    ensures { result ≡ most_told there op.now }
{
    if there {
        told_by(true, live_line(op))
    } else {
        told_by(false, absent_line(op)) + 1
    }
}

/// Whether a step that waits adds a row to the table at this answer, where its key has none.
pub(super) fn adds_at(config: &CacheConfig, step: &KeyStep, answer: &Answer) -> bool
    ensures { (there : Bool) → (not there && result)
        ≡ adds_at there config.now step.entry.now answer.now }
{
    match answer {
        Answer::Written => match step.verdict() {
            None => creates(&step.call().op),
            Some(verdict) => stored_by(&verdict.action, step.loaded(), false).is_some(),
        },
        Answer::Loaded(loaded) => !is_invoke(&step.call().op) && loaded.is_some(),
        Answer::Processed(Ok(verdict)) => {
            stored_by(&verdict.action, step.loaded(), config.writer).is_some()
        }
        _ => false,
    }
}

/// The value that an operation stores without asking the writer before.
pub(super) fn stored_now(op: &Op, writer: bool) -> Option<&Value>
    ensures { option_map (λ v. v.now) result ≡ (if writer then None else value_of op.now) }
{
    if writer { None } else { value_of(op) }
}

/// What an operation gives the hook that it asks first.
pub(super) fn handed(op: &Op, writer: bool) -> Option<&Value>
    ensures { option_map (λ v. v.now) result ≡ handed writer op.now }
{
    match op {
        Op::Invoke { argument, .. } => Some(argument),
        _ => { if writer { value_of(op) } else { None } }
    }
}

/// The value that a verdict stores, where the loader gave `loaded`; not yet where the writer is asked before.
pub(super) fn stored_by<'a>(
    action: &'a Action,
    loaded: Option<&'a Value>,
    writer: bool,
) -> Option<&'a Value>
    ensures { option_map (λ v. v.now) result
        ≡ stores_by writer (option_map (λ v. v.now) loaded.entry) action.now }
{
    match action {
        Action::Keep => loaded,
        Action::Set(value) if !writer => Some(value),
        _ => None,
    }
}

/// What a verdict gives the writer.
pub(super) fn handed_by(action: &Action, writer: bool) -> Option<&Value>
    ensures { option_map (λ v. v.now) result ≡ hands_by writer action.now }
{
    match action {
        Action::Set(value) if writer => Some(value),
        _ => None,
    }
}
