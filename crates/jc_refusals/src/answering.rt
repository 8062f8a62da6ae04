//! The callbacks of the rows' caches.

use jc_hooks::program::{CheckWriter, EchoLoader, ProgramProcessor};
use jc_hooks::{Loader, Processor, Writer, load_answer, process_answer, write_answer};
use jc_model::OutOfMemory;
use jc_model::call::{Answer, Request};
use std::alloc::Global;

/// The processors of each cache that has processors.
static PROCESSORS: [ProgramProcessor; 4] = [
    ProgramProcessor::Append,
    ProgramProcessor::Fail,
    ProgramProcessor::Drop,
    ProgramProcessor::Peek,
];

/// What the loader, the writer, the processor or the listeners answer.
pub fn answer_of(alloc: Global, request: &Request) -> Result<Answer, OutOfMemory> {
    match request {
        Request::Load(key) => Ok(load_answer(EchoLoader.load(alloc, key)?)),
        Request::Write(key, value) => Ok(write_answer(CheckWriter.write(alloc, key, value)?)),
        Request::Delete(key) => Ok(write_answer(CheckWriter.delete(alloc, key)?)),
        Request::Process {
            processor,
            value,
            argument,
            ..
        } => {
            let processor = &PROCESSORS[*processor as usize % 4];
            Ok(process_answer(processor.process(alloc, value.as_ref(), argument)?))
        }
        Request::Tell(_) => Ok(Answer::Told),
    }
}
