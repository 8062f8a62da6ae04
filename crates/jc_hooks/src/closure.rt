//! Loaders, processors and filters made of closures.
//!
//! The caller boxes the closure. Beside it stands the one function by which it answers where memory suffices.

ghost use Rattle.std.specs.Prelude.{◌≡◌, Ok};
ghost use Rattle.std.specs.Coded.{Coded-set, coded_bool};
ghost use Rattle.jc_hooks.specs.Codes.{loaded_code, verdict_code};
ghost use Rattle.jc_hooks.specs.Stated.{IsOnlyFunction, AnswersBy, AnswersBy-prop, MayAdmit, MayLoad, MayProcess};

use crate::filter::Filter;
use crate::loader::{Loaded, Loader};
use crate::processor::{Processor, share_value};
use jc_model::OutOfMemory;
use jc_model::call::{Notice, ProcessorFault, Verdict};
use jc_model::key::Key;
use jc_model::value::Value;
use std::alloc::Global;

/// A boxed closure that loads.
pub type LoadClosure = Box<dyn Fn(Global, &Key) -> Result<Loaded, OutOfMemory> + Send + Sync>;

/// A stored closure that answers by one function of the key. It is used as it is, unboxed: an object that holds a box
/// has no proof in a box of its own.
#[derive(Drop)]
pub struct ClosureLoader {
    closure: LoadClosure,
    ghost callable: { LoadClosure.IsAlwaysCallable closure },
    ghost answers: { AnswersBy (MayLoad (λ a k l. LoadClosure.post closure a k (Ok l))) } by { AnswersBy-prop (Coded-set loaded_code) _ },
}

impl ClosureLoader {
    /// A loader that answers as the closure does, by the one function that the closure answers by.
    pub fn new(closure: LoadClosure) -> ClosureLoader
        requires callable { LoadClosure.IsAlwaysCallable closure }
        requires answers { AnswersBy (MayLoad (λ a k l. LoadClosure.post closure a k (Ok l))) }
        ensures { IsOnlyFunction (MayLoad (λ a k l. LoadClosure.post closure a k (Ok l)))
            result.answers.0 }
    {
        ClosureLoader { closure }
    }
}

fn ask(closure: &LoadClosure, alloc: Global, key: &Key) -> Result<Loaded, OutOfMemory>
    requires { LoadClosure.IsAlwaysCallable closure.now }
    ensures { LoadClosure.post closure.now alloc key.entry result }
{
    closure(alloc, key)
}

impl Loader for ClosureLoader {
    ghost load_of = { λ s. s.answers.0 };

    fn load(&self, alloc: Global, key: &Key) -> Result<Loaded, OutOfMemory> {
        ask(&self.closure, alloc, key)
    }
}

/// A boxed closure that processes a value, or nothing, by an argument. The value is a further handle of the same
/// bytes.
pub type ProcessClosure = Box<
    dyn Fn(Global, Option<Value>, &Value) -> Result<Result<Verdict, ProcessorFault>, OutOfMemory>
        + Send
        + Sync,
>;

/// A stored closure that answers by a function of value and argument, and whether it wants the entry's value.
#[derive(Drop)]
pub struct ClosureProcessor {
    wants_value: bool,
    closure: ProcessClosure,
    ghost callable: { ProcessClosure.IsAlwaysCallable closure },
    ghost answers: { AnswersBy (MayProcess (λ a v p r. ProcessClosure.post closure a v p (Ok r))) } by { AnswersBy-prop (Coded-set verdict_code) _ },
}

impl ClosureProcessor {
    /// A processor that answers as the closure does, by the one function that the closure answers by. `wants_value`
    /// says whether it is to be given the entry's value.
    pub fn new(wants_value: bool, closure: ProcessClosure) -> ClosureProcessor
        requires callable { ProcessClosure.IsAlwaysCallable closure }
        requires answers { AnswersBy (MayProcess (λ a v p r. ProcessClosure.post closure a v p (Ok r))) }
        ensures wants { result.wants_value ≡ wants_value }
        ensures answers { IsOnlyFunction (MayProcess (λ a v p r. ProcessClosure.post closure a v p (Ok r)))
            result.answers.0 }
    {
        ClosureProcessor {
            wants_value,
            closure,
        }
    }
}

fn run(
    closure: &ProcessClosure,
    alloc: Global,
    value: Option<Value>,
    argument: &Value,
) -> Result<Result<Verdict, ProcessorFault>, OutOfMemory>
    requires { ProcessClosure.IsAlwaysCallable closure.now }
    ensures { ProcessClosure.post closure.now alloc value argument.entry result }
{
    closure(alloc, value, argument)
}

impl Processor for ClosureProcessor {
    ghost wants = { λ s. s.wants_value };

    ghost verdict_of = { λ s value argument. s.answers.0 (value, argument) };

    fn wants_value(&self) -> bool {
        self.wants_value
    }

    fn process(
        &self,
        alloc: Global,
        value: Option<&Value>,
        argument: &Value,
    ) -> Result<Result<Verdict, ProcessorFault>, OutOfMemory> {
        let value = share_value(value)?;
        run(&self.closure, alloc, value, argument)
    }
}

/// A boxed closure that admits changes or not.
pub type FilterClosure = Box<dyn Fn(&Notice) -> bool + Send>;

/// A stored closure that admits changes by one function of them.
#[derive(Drop)]
pub struct ClosureFilter {
    closure: FilterClosure,
    ghost callable: { FilterClosure.IsAlwaysCallable closure },
    ghost answers: { AnswersBy (MayAdmit (λ n b. FilterClosure.post closure n b)) } by { AnswersBy-prop (Coded-set coded_bool) _ },
}

impl ClosureFilter {
    /// A filter that admits as the closure does, by the one function that the closure answers by.
    pub fn new(closure: FilterClosure) -> ClosureFilter
        requires callable { FilterClosure.IsAlwaysCallable closure }
        requires answers { AnswersBy (MayAdmit (λ n b. FilterClosure.post closure n b)) }
        ensures { IsOnlyFunction (MayAdmit (λ n b. FilterClosure.post closure n b)) result.answers.0 }
    {
        ClosureFilter { closure }
    }
}

fn is_admitted(closure: &FilterClosure, notice: &Notice) -> bool
    requires { FilterClosure.IsAlwaysCallable closure.now }
    ensures { FilterClosure.post closure.now notice.entry result }
{
    closure(notice)
}

impl Filter for ClosureFilter {
    ghost lets = { λ s. s.answers.0 };

    fn admits(&self, notice: &Notice) -> bool {
        is_admitted(&self.closure, notice)
    }
}
