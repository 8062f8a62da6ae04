//! The callbacks that a configuration names, made for each cache.
ghost use Rattle.std.specs.Prelude.{◌≡◌, ◌≤◌, IfOk, length, map, replicate};
ghost use Rattle.jc_runner.specs.Naming.{loader_named, writer_named, processor_named, fresh_listener, AreHooksNamed, AllHooksNamed};

use jc_config::{HookKinds, LoaderKind, ProcessorKind, WriterKind};
use jc_hooks::program::{CheckWriter, EchoLoader, ProgramHooks, ProgramListener, ProgramProcessor};
use jc_hooks::{CacheHooks, ListenerHook, TallyListener};
use jc_model::OutOfMemory;
use jc_model::config::CacheConfig;
use std::alloc::Global;

fn loader_of(kind: Option<LoaderKind>) -> Option<EchoLoader>
    ensures { result ≡ loader_named kind }
{
    match kind {
        Some(LoaderKind::Echo) => Some(EchoLoader),
        None => None,
    }
}

fn writer_of(kind: Option<WriterKind>) -> Option<CheckWriter>
    ensures { result ≡ writer_named kind }
{
    match kind {
        Some(WriterKind::Check) => Some(CheckWriter),
        None => None,
    }
}

fn processor_of(kind: ProcessorKind) -> ProgramProcessor
    ensures { result ≡ processor_named kind }
{
    match kind {
        ProcessorKind::Append => ProgramProcessor::Append,
        ProcessorKind::Fail => ProgramProcessor::Fail,
        ProcessorKind::Drop => ProgramProcessor::Drop,
        ProcessorKind::Peek => ProgramProcessor::Peek,
    }
}

fn processors_of(
    alloc: Global,
    kinds: &[ProcessorKind],
) -> Result<Vec<ProgramProcessor>, OutOfMemory>
    ensures { IfOk result (λ v. v.items ≡ map processor_named kinds.now) }
{
    let mut processors = Vec::with_capacity(alloc, kinds.len())?;
    for kind in kinds {
        processors.push(processor_of(*kind))?;
    }
    Ok(processors)
}

fn listeners_of(alloc: Global, count: u8) -> Result<Vec<ProgramListener>, OutOfMemory>
    ensures { IfOk result (λ v. v.items ≡ replicate count fresh_listener) }
{
    let mut listeners = Vec::with_capacity(alloc, count as usize)?;
    for _ in 0..count {
        listeners.push(ListenerHook::unfiltered(TallyListener::new()))?;
    }
    Ok(listeners)
}

fn hooks_of(
    alloc: Global,
    cache: &CacheConfig,
    kinds: &HookKinds,
) -> Result<ProgramHooks, OutOfMemory>
    ensures { IfOk result (AreHooksNamed cache.now kinds.now) }
{
    Ok(CacheHooks {
        loader: loader_of(kinds.loader),
        writer: writer_of(kinds.writer),
        processors: processors_of(alloc, kinds.processors.items())?,
        listeners: listeners_of(alloc, cache.listeners)?,
    })
}

/// Fresh callbacks for each cache, of the kinds at its place; further kinds are ignored.
pub fn all_hooks(
    alloc: Global,
    caches: &[CacheConfig],
    kinds: &[HookKinds],
) -> Result<Vec<ProgramHooks>, OutOfMemory>
    requires { length caches.now ≤ length kinds.now }
    ensures { IfOk result (λ v. AllHooksNamed caches.now kinds.now v.items) }
{
    let mut hooks = Vec::with_capacity(alloc, caches.len())?;
    for (i, cache) in caches.iter().enumerate() {
        hooks.push(hooks_of(alloc, cache, &kinds[i])?)?;
    }
    Ok(hooks)
}
