//! The answer of a cache's callbacks to one request.
ghost use Rattle.std.specs.Prelude.{◌≡◌, IsTrue, IfOk, OnOk, OnErr};
ghost use Rattle.jc_model.specs.Run.{is_answer_to};
ghost use Rattle.jc_hooks.specs.Answering.{IsStatedAnswer, AsksWriter, SparesWriter, TellsNoticesOf};

use crate::asking::{ask_loader, ask_processor, ask_to_delete, ask_to_write};
use crate::hook::FilteredListener;
use crate::loader::Loader;
use crate::processor::Processor;
use crate::telling::tell_all;
use crate::writer::Writer;
use jc_model::OutOfMemory;
use jc_model::call::{Answer, Request};
use std::alloc::Global;

/// Has a request answered by the callback that it is for, or the listeners told what it tells. A callback that is not
/// there fails.
pub fn answer_request<L: Loader, W: Writer, P: Processor, K: FilteredListener>(
    alloc: Global,
    loader: &Option<L>,
    processors: &[P],
    writer: &mut Option<W>,
    listeners: &mut [K],
    request: &Request,
) -> Result<Answer, OutOfMemory>
    ensures kind { IfOk result (λ a. IsTrue (is_answer_to request.now a)) }
    ensures stated { IfOk result (IsStatedAnswer L.load_of P.verdict_of
        loader.now processors.now request.now) }
    ensures asked { IfOk result (AsksWriter W.may writer.old writer.new request.now) }
    ensures spared { OnErr result (SparesWriter writer.old writer.new request.now) }
    ensures told { OnOk result (TellsNoticesOf K.state_after
        listeners.old listeners.new request.now) }
    ensures untold { OnErr result (listeners.new ≡ listeners.old) }
{
    match request {
        Request::Load(key) => ask_loader(alloc, loader, key),
        Request::Write(key, value) => ask_to_write(alloc, writer, key, value),
        Request::Delete(key) => ask_to_delete(alloc, writer, key),
        Request::Process {
            key: _,
            processor,
            value,
            argument,
        } => ask_processor(alloc, processors, *processor, value.as_ref(), argument),
        Request::Tell(notices) => {
            tell_all(listeners, notices.items());
            Ok(Answer::Told)
        }
    }
}
