//! The callbacks of the program.

ghost use Rattle.std.specs.Prelude.{◌≡◌, ◌≤◌, IfOk, length};
ghost use Rattle.jc_model.specs.Limits.{value_bytes};
ghost use Rattle.jc_hooks.specs.Asking.{lent_value};
ghost use Rattle.jc_hooks.specs.Program.{begins_with, value_or_empty, append_verdict};

use crate::cache_hooks::CacheHooks;
use crate::filter::AdmitAll;
use crate::hook::ListenerHook;
use crate::loader::{Loaded, Loader};
use crate::processor::{Processor, share_value};
use crate::tally::TallyListener;
use crate::writer::Writer;
use jc_model::OutOfMemory;
use jc_model::call::{Action, ProcessorFault, Verdict};
use jc_model::key::Key;
use jc_model::limits::VALUE_BYTES;
use jc_model::value::Value;
use std::alloc::{AllocError, Global};

/// Whether the key's first byte is this one.
fn begins(key: &Key, byte: u8) -> bool
    ensures { result ≡ begins_with byte key.now }
{
    match key.text().as_bytes() {
        [first, ..] => *first == byte,
        [] => false,
    }
}

fn new_value(alloc: Global, bytes: Vec<u8>) -> Result<Value, OutOfMemory>
    ensures { IfOk result (λ v. v ≡ bytes.items) }
{
    match Value::new(alloc, bytes) {
        Ok(value) => Ok(value),
        Err(_) => Err(AllocError),
    }
}

/// A key that begins with `-` has no value, one that begins with `!` fails, and any other is its own value.
#[derive(Drop)]
pub struct EchoLoader;

impl Loader for EchoLoader {
    ghost use Rattle.jc_hooks.specs.Program.{echo_answer};

    ghost load_of = { λ _. echo_answer };

    fn load(&self, alloc: Global, key: &Key) -> Result<Loaded, OutOfMemory> {
        if begins(key, b'-') {
            return Ok(Loaded::Found(None));
        }
        if begins(key, b'!') {
            return Ok(Loaded::Failed);
        }
        let bytes = key.text().as_bytes().to_vec(alloc)?;
        let value = new_value(alloc, bytes)?;
        Ok(Loaded::Found(Some(value)))
    }
}

/// A writer that keeps nothing. It fails for the keys that begin with `!`.
#[derive(Drop)]
pub struct CheckWriter;

impl Writer for CheckWriter {
    ghost use Rattle.jc_hooks.specs.Program.{AllChecked};

    ghost may = { λ _ given. AllChecked given };

    fn write(&mut self, _alloc: Global, key: &Key, _value: &Value) -> Result<bool, OutOfMemory> {
        let written = !begins(key, b'!');
        Ok(written)
    }

    fn delete(&mut self, _alloc: Global, key: &Key) -> Result<bool, OutOfMemory> {
        let deleted = !begins(key, b'!');
        Ok(deleted)
    }
}

fn bytes_of<'a>(value: Option<&'a Value>) -> &'a [u8]
    ensures same { result.now ≡ value_or_empty (lent_value value.entry) }
    ensures limit { length result.now ≤ value_bytes }
{
    match value {
        Some(value) => value.bytes(),
        None => &[],
    }
}

/// The verdict of `ProgramProcessor::Append`.
fn append(
    alloc: Global,
    value: Option<&Value>,
    argument: &Value,
) -> Result<Result<Verdict, ProcessorFault>, OutOfMemory>
    ensures { IfOk result (λ v. v ≡ append_verdict (lent_value value.entry) argument.now) }
{
    let given = bytes_of(value);
    let added = argument.bytes();
    if given.len() + added.len() > VALUE_BYTES {
        return Ok(Err(ProcessorFault {}));
    }
    let mut bytes = given.to_vec(alloc)?;
    bytes.extend_from_slice(added)?;
    let joined = new_value(alloc, bytes)?;
    let answer = joined.share()?;
    Ok(Ok(Verdict {
        action: Action::Set(joined),
        answer: Some(answer),
    }))
}

/// One of the program's entry processors.
#[derive(Drop)]
pub enum ProgramProcessor {
    /// Wants the value: appends the argument to it, an absent value being empty, stores the result and answers it. It
    /// fails where the result would be longer than a value may be.
    Append,
    /// Fails on every entry.
    Fail,
    /// Removes the entry and answers the value that it was given.
    Drop,
    /// Wants the value: keeps the entry and answers the value that it was given.
    Peek,
}

impl Processor for ProgramProcessor {
    ghost use Rattle.jc_hooks.specs.Processors.{wants_of, program_verdict};

    ghost wants = { wants_of };

    ghost verdict_of = { program_verdict };

    fn wants_value(&self) -> bool {
        match self {
            ProgramProcessor::Append | ProgramProcessor::Peek => true,
            ProgramProcessor::Fail | ProgramProcessor::Drop => false,
        }
    }

    fn process(
        &self,
        alloc: Global,
        value: Option<&Value>,
        argument: &Value,
    ) -> Result<Result<Verdict, ProcessorFault>, OutOfMemory> {
        match self {
            ProgramProcessor::Append => append(alloc, value, argument),
            ProgramProcessor::Fail => Ok(Err(ProcessorFault {})),
            ProgramProcessor::Drop => Ok(Ok(Verdict {
                action: Action::Remove,
                answer: share_value(value)?,
            })),
            ProgramProcessor::Peek => Ok(Ok(Verdict {
                action: Action::Keep,
                answer: share_value(value)?,
            })),
        }
    }
}

/// A listener of the program's caches: it counts every notice.
pub type ProgramListener = ListenerHook<AdmitAll, TallyListener>;

/// The callbacks of one of the program's caches.
pub type ProgramHooks = CacheHooks<EchoLoader, CheckWriter, ProgramProcessor, ProgramListener>;
