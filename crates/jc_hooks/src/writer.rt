//! Writers: where a cache with write-through writes and deletes before it changes a row.

use jc_model::OutOfMemory;
use jc_model::key::Key;
use jc_model::value::Value;
use std::alloc::Global;

/// Writes a cache's changes outside it (JSR 107, `CacheWriter`). An answer of `false` says that the write failed.
///
/// `may` says which lists of requests and answers it may give from now on; the empty list is always one. What it may
/// give after a call, with that call's request and answer put first, it might have given before the call. A writer of
/// which nothing is known states all lists.
pub trait Writer: Drop + Send {
    ghost use Rattle.std.specs.Prelude.{List, ◌∷◌, IfOk};
    ghost use Rattle.jc_model.specs.declared.call.Request.{Request};
    ghost use Rattle.jc_model.specs.declared.call.Request.TheVariants.{Write, Delete};
    ghost use Rattle.jc_model.specs.declared.call.Answer.{Answer};
    ghost use Rattle.jc_hooks.specs.Answers.{write_answer_of, MayGive};

    // Of a list with at least one request.
    ghost may: { Self → List (Request × Answer) → Type 0 };

    /// Writes a pair: whether it was written, or that there was no memory.
    fn write(&mut self, alloc: Global, key: &Key, value: &Value) -> Result<bool, OutOfMemory>
        ensures stated { IfOk result (λ done. (rest : List (Request × Answer)) → MayGive (may self.new) rest
            → MayGive (may self.old) ((Write key.now value.now, write_answer_of done) ∷ rest)) };

    /// Deletes a key: whether it was deleted, or that there was no memory.
    fn delete(&mut self, alloc: Global, key: &Key) -> Result<bool, OutOfMemory>
        ensures stated { IfOk result (λ done. (rest : List (Request × Answer)) → MayGive (may self.new) rest
            → MayGive (may self.old) ((Delete key.now, write_answer_of done) ∷ rest)) };
}

impl Writer for Box<dyn Writer> {
    ghost may = { λ b. (Writer-box b).may b.value };

    fn write(&mut self, alloc: Global, key: &Key, value: &Value) -> Result<bool, OutOfMemory> {
        (**self).write(alloc, key, value)
    }

    fn delete(&mut self, alloc: Global, key: &Key) -> Result<bool, OutOfMemory> {
        (**self).delete(alloc, key)
    }
}
