//! The lines of a script, one after the other.
ghost use Rattle.std.specs.Prelude.{◌≡◌, [], IfOk, IfErr, OnOk, List};
ghost use Rattle.jc_model.specs.declared.config.CacheConfig.{CacheConfig};
ghost use Rattle.jc_hooks.specs.declared.cache_hooks.CacheHooks.{CacheHooks as Callbacks};
ghost use Rattle.jc_script.specs.declared.line.Line.{Line as ScriptLine};
ghost use Rattle.jc_script.specs.Named.{Names, AllName};
ghost use Rattle.jc_runner.specs.Halfway.{lives_now, as_read, IsAtRest, RunsLine, Halfway, NotesLine};
ghost use Rattle.jc_runner.specs.Hooks.{AreKept};
ghost use Rattle.jc_cli.specs.declared.fault.RunFault.TheVariants as faults;

use crate::serial_run::caches::{run_create, run_destroy};
use crate::serial_run::calls::run_call;
use jc_cli::RunFault;
use jc_engine::recorded::Recorded;
use jc_hooks::{CacheHooks, FilteredListener, Loader, Processor, Writer};
use jc_ring::ring::Ring;
use jc_rows::rows::Rows;
use jc_script::{Line, Managed};
use std::alloc::Global;

/// Runs a line. What became of it is noted where it creates or destroys a cache.
fn run_line<R: Rows, G: Ring, L: Loader, W: Writer, P: Processor, K: FilteredListener>(
    alloc: Global,
    recorded: &mut Recorded<R, G>,
    hooks: &mut [CacheHooks<L, W, P, K>],
    managed: &mut Vec<Managed>,
    line: Line,
) -> Result<(), RunFault>
    requires rest { IsAtRest recorded.old }
    requires named { Names (as_read (lives_now recorded.old)) line }
    ensures ran { OnOk result (RunsLine L.load_of W.may P.verdict_of K.state_after
        recorded.old recorded.new hooks.old hooks.new line) }
    ensures kept { AreKept hooks.old hooks.new }
    ensures managed { OnOk result (NotesLine recorded.old line
        managed.old.items managed.new.items) }
    ensures faults { IfErr result (λ e. e ≡ faults.Memory) }
{
    match line {
        Line::Call(call) => run_call(alloc, recorded, hooks, call),
        Line::Create { session, config } => run_create(recorded, managed, session, config),
        Line::Destroy { session, id } => run_destroy(recorded, managed, session, id),
    }
}

/// Runs all lines in their order. The result is what became of those that create and destroy caches.
pub(crate) fn run_all<R: Rows, G: Ring, L: Loader, W: Writer, P: Processor, K: FilteredListener>(
    alloc: Global,
    recorded: &mut Recorded<R, G>,
    hooks: &mut [CacheHooks<L, W, P, K>],
    lines: Vec<Line>,
) -> Result<Vec<Managed>, RunFault>
    requires rest { IsAtRest recorded.old }
    requires named { AllName (as_read (lives_now recorded.old)) lines.items }
    ensures kept { AreKept hooks.old hooks.new }
    ensures done { (caches : List CacheConfig) (handed : List (Callbacks L W P K))
        (all : List ScriptLine)
        → Halfway L.load_of W.may P.verdict_of K.state_after
        caches handed all lines.items recorded.old hooks.old []
        → IfOk result (λ managed. Halfway L.load_of W.may P.verdict_of K.state_after
        caches handed all [] recorded.new hooks.new managed.items) }
    ensures faults { IfErr result (λ e. e ≡ faults.Memory) }
{
    let mut managed = Vec::new(alloc);
    for line in lines {
        run_line(alloc, recorded, hooks, &mut managed, line)?;
    }
    Ok(managed)
}
