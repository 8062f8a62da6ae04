//! What is lent to one call to answer its requests.

use jc_model::OutOfMemory;
use jc_model::call::{Answer, Request};

/// Answers the requests of the call to which it is lent, of whatever kind they are. It may have a handle of its own: read
/// files, ask other services, belong to this one call.
pub trait Responder {
    ghost use Rattle.std.specs.Prelude.{IsTrue, IfOk};
    ghost use Rattle.jc_model.specs.Run.{is_answer_to};

    /// The answer to a request, of the kind that it awaits, or that there was no memory for it.
    fn respond(&mut self, request: &Request) -> Result<Answer, OutOfMemory>
        ensures { IfOk result (λ a. IsTrue (is_answer_to request.now a)) };
}
