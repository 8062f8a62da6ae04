//! Asking a cache's callbacks. One that is not there fails.
ghost use Rattle.std.specs.Prelude.{◌≡◌, ◌∷◌, [], IsTrue, IfOk, slice_get};
ghost use Rattle.jc_model.specs.declared.call.Request.TheVariants.{Write, Delete};
ghost use Rattle.jc_model.specs.Run.{for_write, fits};
ghost use Rattle.jc_hooks.specs.Asking.{load_by, verdict_by, lent_value, GivesAnswers};

use crate::answer::{load_answer, process_answer, write_answer};
use crate::loader::Loader;
use crate::processor::Processor;
use crate::writer::Writer;
use jc_model::OutOfMemory;
use jc_model::call::{Answer, ProcessorFault};
use jc_model::key::Key;
use jc_model::value::Value;
use std::alloc::Global;

/// The loader's answer for a key.
pub fn ask_loader<L: Loader>(
    alloc: Global,
    loader: &Option<L>,
    key: &Key,
) -> Result<Answer, OutOfMemory>
    ensures { IfOk result (λ a. a ≡ load_by L.load_of loader.now key.now) }
{
    match loader {
        Some(loader) => Ok(load_answer(loader.load(alloc, key)?)),
        None => Ok(Answer::LoadFailed),
    }
}

/// The answer of the processor at a place, by value and argument.
pub fn ask_processor<P: Processor>(
    alloc: Global,
    processors: &[P],
    number: u8,
    value: Option<&Value>,
    argument: &Value,
) -> Result<Answer, OutOfMemory>
    ensures { IfOk result (λ a. a ≡ verdict_by P.verdict_of
        (slice_get processors.now number) (lent_value value.entry) argument.now) }
{
    match processors.get(number as usize) {
        Some(processor) => Ok(process_answer(processor.process(alloc, value, argument)?)),
        None => Ok(process_answer(Err(ProcessorFault {}))),
    }
}

/// The writer's answer where a pair is to be written.
pub fn ask_to_write<W: Writer>(
    alloc: Global,
    writer: &mut Option<W>,
    key: &Key,
    value: &Value,
) -> Result<Answer, OutOfMemory>
    ensures kind { IfOk result (λ a. IsTrue (fits for_write a)) }
    ensures stated { IfOk result (λ a.
        GivesAnswers W.may writer.old writer.new ((Write key.now value.now, a) ∷ [])) }
{
    match writer {
        Some(writer) => Ok(write_answer(writer.write(alloc, key, value)?)),
        None => Ok(Answer::WriteFailed),
    }
}

/// The writer's answer where a key is to be deleted.
pub fn ask_to_delete<W: Writer>(
    alloc: Global,
    writer: &mut Option<W>,
    key: &Key,
) -> Result<Answer, OutOfMemory>
    ensures kind { IfOk result (λ a. IsTrue (fits for_write a)) }
    ensures stated { IfOk result (λ a.
        GivesAnswers W.may writer.old writer.new ((Delete key.now, a) ∷ [])) }
{
    match writer {
        Some(writer) => Ok(write_answer(writer.delete(alloc, key)?)),
        None => Ok(Answer::WriteFailed),
    }
}
