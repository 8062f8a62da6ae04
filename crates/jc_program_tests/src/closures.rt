//! The program's loader, its processors and a filter as stored closures.

ghost use Rattle.std.specs.Prelude.{◌≡◌, IfOk};
ghost use Rattle.jc_hooks.specs.Program.{echo_answer};
ghost use Rattle.jc_hooks.specs.Processors.{program_verdict};
ghost use Rattle.jc_trials.specs.Filters.{has_kind};

use jc_hooks::program::{EchoLoader, ProgramProcessor};
use jc_hooks::{
    ClosureFilter, ClosureLoader, ClosureProcessor, Filter, FilterClosure, LoadClosure, Loaded,
    Loader, ProcessClosure, Processor,
};
use jc_model::OutOfMemory;
use jc_model::call::{Notice, ProcessorFault, Verdict};
use jc_model::key::Key;
use jc_model::value::Value;
use jc_trials::KindFilter;
use std::alloc::Global;

/// A closure that echoes.
pub fn echo_closure(alloc: Global) -> Result<ClosureLoader, OutOfMemory> {
    let closure: LoadClosure = Box::new(
        alloc,
        |alloc: Global, key: &Key| -> Result<Loaded, OutOfMemory>
            ensures { IfOk result (λ l. l ≡ echo_answer key.now) }
        { EchoLoader.load(alloc, key) },
    )?;
    Ok(ClosureLoader::new(closure))
}

/// A closure that processes as one of the program's processors.
pub fn processor_closure(
    alloc: Global,
    processor: ProgramProcessor,
) -> Result<ClosureProcessor, OutOfMemory> {
    let wants_value = processor.wants_value();
    let closure: ProcessClosure = Box::new(
        alloc,
        move |alloc: Global, value: Option<Value>, argument: &Value| -> Result<
            Result<Verdict, ProcessorFault>,
            OutOfMemory,
        >
            ensures { IfOk result (λ v. v ≡ program_verdict processor value argument.now) }
        { processor.process(alloc, value.as_ref(), argument) },
    )?;
    Ok(ClosureProcessor::new(wants_value, closure))
}

/// A closure that admits changes of these kinds.
pub fn kind_closure(alloc: Global, kinds: KindFilter) -> Result<ClosureFilter, OutOfMemory> {
    let closure: FilterClosure = Box::new(
        alloc,
        move |notice: &Notice| -> bool
            ensures { result ≡ has_kind kinds notice.now.kind }
        { kinds.admits(notice) },
    )?;
    Ok(ClosureFilter::new(closure))
}
