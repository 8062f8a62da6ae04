//! The case table: for each call on one key its operation, and for each operation on one key its line where the key
//! has a live row, and its line where it has none.
ghost use Rattle.std.specs.Prelude.{◌≡◌, ℕ, Bool, Some, IfOk, option_map};
ghost use Rattle.jc_model.specs.declared.config.CacheConfig.{CacheConfig};
ghost use Rattle.jc_model.specs.Changes.{Progress};
ghost use Rattle.jc_model.specs.Table.{live_line, absent_line, otherwise, expected_by, value_of, live_verdict, absent_verdict};
ghost use Rattle.jc_model.specs.Whole.{plan, key_step};

use crate::OutOfMemory;
use crate::call::{Action, Call, KeyCall, Op};
use crate::key::Key;
use crate::value::Value;

/// Whom a line asks before it changes anything. A hook that is not configured is passed over.
#[derive(Clone, Copy, Debug, PartialEq, Eq)]
pub enum Ask {
    Nothing,
    /// The loader, for the value that is stored and shown.
    Load,
    /// The writer, with the value that is stored.
    Write,
    /// The writer, to delete the key.
    Delete,
    /// The processor, and before it the loader where it wants a value and there is none. The verdict has its own line.
    Process,
}

/// What becomes of the key's row. Without a value nothing is stored.
#[derive(Clone, Copy, Debug, PartialEq, Eq)]
pub enum Change {
    Keep,
    /// A live row is used.
    Access,
    /// A live row gets the value, else a row is made for it. It is not counted.
    Store,
    /// The same, counted as a put where it stores.
    Put,
    /// A live row goes, which is counted as a removal.
    Remove,
}

/// What is replied.
#[derive(Clone, Copy, Debug, PartialEq, Eq)]
pub enum Replied {
    Done,
    Truth(bool),
    /// The live value or the loaded one, or what a processor answered; nothing where there is none.
    Shown,
}

/// One line of the table.
#[derive(Clone, Copy, Debug, PartialEq, Eq)]
pub struct TableLine {
    pub asks: Ask,
    /// Whether a hit is counted, or a miss where the key has no row. Where the writer fails, nothing is counted.
    pub counts: bool,
    pub change: Change,
    pub reply: Replied,
}

fn line_of(asks: Ask, counts: bool, change: Change, reply: Replied) -> TableLine
    ensures { result ≡ record { asks = asks; counts = counts; change = change; reply = reply } }
{
    TableLine {
        asks,
        counts,
        change,
        reply,
    }
}

/// A step, as that of a call.
fn step_on(key: &Key, op: Op) -> Result<Option<KeyCall>, OutOfMemory>
    ensures { IfOk result (λ step. step ≡ Some (record { key = key.now; op = op })) }
{
    Ok(Some(KeyCall { key: *key, op }))
}

/// The step of a call on one key, which shares the call's values; another call has none.
pub fn key_step(call: &Call) -> Result<Option<KeyCall>, OutOfMemory>
    ensures { (c : CacheConfig) (now : ℕ) (p : Progress)
        → IfOk result (λ step. step ≡ key_step (plan c now call.now p)) }
{
    match call {
        Call::Get(key) => step_on(key, Op::Get),
        Call::Put(key, value) => step_on(key, Op::Put(value.share()?)),
        Call::GetAndPut(key, value) => step_on(key, Op::GetAndPut(value.share()?)),
        Call::PutIfAbsent(key, value) => step_on(key, Op::PutIfAbsent(value.share()?)),
        Call::Replace(key, value) => step_on(key, Op::Replace(value.share()?)),
        Call::ReplaceIf {
            key,
            expected,
            value,
        } => {
            let expected = expected.share()?;
            let value = value.share()?;
            step_on(key, Op::ReplaceIf { expected, value })
        }
        Call::GetAndReplace(key, value) => step_on(key, Op::GetAndReplace(value.share()?)),
        Call::Remove(key) => step_on(key, Op::Remove),
        Call::RemoveIf { key, expected } => {
            let expected = expected.share()?;
            step_on(key, Op::RemoveIf { expected })
        }
        Call::GetAndRemove(key) => step_on(key, Op::GetAndRemove),
        Call::Invoke {
            key,
            processor,
            argument,
        } => {
            let processor = *processor;
            let argument = argument.share()?;
            step_on(
                key,
                Op::Invoke {
                    processor,
                    argument,
                },
            )
        }
        _ => Ok(None),
    }
}

/// An operation's line where the key has a live row; of the expected value, where it expects one.
pub fn live_line(op: &Op) -> TableLine
    ensures { result ≡ live_line op.now }
{
    match op {
        Op::Get => line_of(Ask::Nothing, true, Change::Access, Replied::Shown),
        Op::Put(_) => line_of(Ask::Write, false, Change::Put, Replied::Done),
        Op::GetAndPut(_) => line_of(Ask::Write, true, Change::Put, Replied::Shown),
        Op::PutIfAbsent(_) => line_of(Ask::Nothing, true, Change::Keep, Replied::Truth(false)),
        Op::Replace(_) => line_of(Ask::Write, true, Change::Put, Replied::Truth(true)),
        Op::ReplaceIf { .. } => line_of(Ask::Write, true, Change::Put, Replied::Truth(true)),
        Op::GetAndReplace(_) => line_of(Ask::Write, true, Change::Put, Replied::Shown),
        Op::Remove => line_of(Ask::Delete, false, Change::Remove, Replied::Truth(true)),
        Op::RemoveIf { .. } => line_of(Ask::Delete, true, Change::Remove, Replied::Truth(true)),
        Op::GetAndRemove => line_of(Ask::Delete, true, Change::Remove, Replied::Shown),
        Op::Invoke { .. } => line_of(Ask::Process, true, Change::Keep, Replied::Shown),
        Op::Load { replace: true } => line_of(Ask::Load, false, Change::Store, Replied::Done),
        Op::Load { replace: false } => line_of(Ask::Nothing, false, Change::Keep, Replied::Done),
        Op::Expire => line_of(Ask::Nothing, false, Change::Keep, Replied::Done),
    }
}

/// The line of an operation that finds another live value than it expects.
pub fn otherwise() -> TableLine
    ensures { result ≡ otherwise }
{
    line_of(Ask::Nothing, true, Change::Access, Replied::Truth(false))
}

/// The live value that an operation expects.
pub fn expected(op: &Op) -> Option<&Value>
    ensures { option_map (λ v. v.now) result ≡ expected_by op.now }
{
    match op {
        Op::ReplaceIf { expected, .. } => Some(expected),
        Op::RemoveIf { expected } => Some(expected),
        _ => None,
    }
}

/// An operation's line where the key has no row.
pub fn absent_line(op: &Op) -> TableLine
    ensures { result ≡ absent_line op.now }
{
    match op {
        Op::Get => line_of(Ask::Load, true, Change::Store, Replied::Shown),
        Op::Put(_) => line_of(Ask::Write, false, Change::Put, Replied::Done),
        Op::GetAndPut(_) => line_of(Ask::Write, true, Change::Put, Replied::Shown),
        Op::PutIfAbsent(_) => line_of(Ask::Write, true, Change::Put, Replied::Truth(true)),
        Op::Replace(_) => line_of(Ask::Nothing, true, Change::Keep, Replied::Truth(false)),
        Op::ReplaceIf { .. } => line_of(Ask::Nothing, true, Change::Keep, Replied::Truth(false)),
        Op::GetAndReplace(_) => line_of(Ask::Nothing, true, Change::Keep, Replied::Shown),
        Op::Remove => line_of(Ask::Delete, false, Change::Keep, Replied::Truth(false)),
        Op::RemoveIf { .. } => line_of(Ask::Nothing, true, Change::Keep, Replied::Truth(false)),
        Op::GetAndRemove => line_of(Ask::Delete, true, Change::Keep, Replied::Shown),
        Op::Invoke { .. } => line_of(Ask::Process, true, Change::Keep, Replied::Shown),
        Op::Load { .. } => line_of(Ask::Load, false, Change::Store, Replied::Done),
        Op::Expire => line_of(Ask::Nothing, false, Change::Keep, Replied::Done),
    }
}

/// The value that an operation stores.
pub fn value_of(op: &Op) -> Option<&Value>
    ensures { option_map (λ v. v.now) result ≡ value_of op.now }
{
    match op {
        Op::Put(value) => Some(value),
        Op::GetAndPut(value) => Some(value),
        Op::PutIfAbsent(value) => Some(value),
        Op::Replace(value) => Some(value),
        Op::ReplaceIf { value, .. } => Some(value),
        Op::GetAndReplace(value) => Some(value),
        _ => None,
    }
}

/// A verdict's line where the key has a live row.
pub fn live_verdict(action: &Action) -> TableLine
    ensures { result ≡ live_verdict action.now }
{
    match action {
        Action::Keep => line_of(Ask::Nothing, true, Change::Access, Replied::Shown),
        Action::Set(_) => line_of(Ask::Write, true, Change::Put, Replied::Shown),
        Action::Remove => line_of(Ask::Delete, true, Change::Remove, Replied::Shown),
    }
}

/// A verdict's line where the key has no row; a `Keep` stores what was loaded.
pub fn absent_verdict(action: &Action) -> TableLine
    ensures { result ≡ absent_verdict action.now }
{
    match action {
        Action::Keep => line_of(Ask::Nothing, true, Change::Store, Replied::Shown),
        Action::Set(_) => line_of(Ask::Write, true, Change::Put, Replied::Shown),
        Action::Remove => line_of(Ask::Delete, true, Change::Keep, Replied::Shown),
    }
}
