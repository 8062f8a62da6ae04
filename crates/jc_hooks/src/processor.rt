//! Entry processors: code that reads, sets or removes one entry and answers for the call.

ghost use Rattle.std.specs.Prelude.{◌≡◌, IfOk};
ghost use Rattle.jc_hooks.specs.Asking.{lent_value};

use jc_model::OutOfMemory;
use jc_model::call::{ProcessorFault, Verdict};
use jc_model::value::Value;
use std::alloc::Global;

/// Works on one entry (JSR 107, `EntryProcessor`). Sessions share it, so it is asked by `&self`.
///
/// `value` is the entry's value, or nothing where there is no entry, or where the processor does not want it.
/// Where memory suffices it answers by a function of value and argument.
pub trait Processor: Drop + Send + Sync {
    ghost use Rattle.std.specs.Prelude.{◌≡◌, ℕ, Bool, List, Option, Result, IfOk};
    ghost use Rattle.jc_model.specs.declared.call.Verdict.{Verdict};
    ghost use Rattle.jc_model.specs.declared.call.ProcessorFault.{ProcessorFault};
    ghost use Rattle.jc_hooks.specs.Asking.{lent_value};

    ghost wants: { Self → Bool };

    ghost verdict_of: { Self → Option (List ℕ) → List ℕ → Result Verdict ProcessorFault };

    /// Whether it is to be given the entry's value, which its configuration also says.
    fn wants_value(&self) -> bool
        ensures stated { result ≡ wants self.now };

    /// What becomes of the entry and what the call is answered; its own fault; or that there was no memory.
    fn process(
        &self,
        alloc: Global,
        value: Option<&Value>,
        argument: &Value,
    ) -> Result<Result<Verdict, ProcessorFault>, OutOfMemory>
        ensures stated { IfOk result (λ v.
            v ≡ verdict_of self.now (lent_value value.entry) argument.now) };
}

impl Processor for Box<dyn Processor> {
    ghost wants = { λ b. (Processor-box b).wants b.value };

    ghost verdict_of = { λ b. (Processor-box b).verdict_of b.value };

    fn wants_value(&self) -> bool {
        (**self).wants_value()
    }

    fn process(
        &self,
        alloc: Global,
        value: Option<&Value>,
        argument: &Value,
    ) -> Result<Result<Verdict, ProcessorFault>, OutOfMemory> {
        (**self).process(alloc, value, argument)
    }
}

/// A further handle of the same value.
pub(crate) fn share_value(value: Option<&Value>) -> Result<Option<Value>, OutOfMemory>
    ensures { IfOk result (λ v. v ≡ lent_value value.entry) }
{
    match value {
        Some(value) => Ok(Some(value.share()?)),
        None => Ok(None),
    }
}
