//! What the callbacks answered, as answers to a cache's requests.

ghost use Rattle.std.specs.Prelude.{◌≡◌};
ghost use Rattle.jc_hooks.specs.Answers.{load_answer_of, write_answer_of};

use crate::loader::Loaded;
use jc_model::call::{Answer, ProcessorFault, Verdict};

/// The answer to `Request::Load`.
pub fn load_answer(loaded: Loaded) -> Answer
    ensures { result ≡ load_answer_of loaded }
{
    match loaded {
        Loaded::Found(value) => Answer::Loaded(value),
        Loaded::Failed => Answer::LoadFailed,
    }
}

/// The answer to `Request::Write` and `Request::Delete`; `done` is false where the writer failed.
pub fn write_answer(done: bool) -> Answer
    ensures { result ≡ write_answer_of done }
{
    if done {
        Answer::Written
    } else {
        Answer::WriteFailed
    }
}

/// The answer to `Request::Process`.
pub fn process_answer(verdict: Result<Verdict, ProcessorFault>) -> Answer
    ensures { result ≡ Answer.Processed verdict }
{
    Answer::Processed(verdict)
}
