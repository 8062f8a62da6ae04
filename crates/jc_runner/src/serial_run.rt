//! A run in the lines' order: a script in, a report out.
ghost use Rattle.std.specs.Prelude.{◌≡◌, ◌≢◌, ℕ, true, IfOk, IfErr, IsSome, Some, None, OnOk, Ok, Err, string_bytes};
ghost use Rattle.std.specs.FinMap as finite;
ghost use Rattle.std.specs.Io.KnownBytes.{IsAtEnd};
ghost use Rattle.jc_script.specs.Script.{lines};
ghost use Rattle.jc_script.specs.Named.{AllName};
ghost use Rattle.jc_engine.specs.Opening.{open_refusal};
ghost use Rattle.jc_model.specs.Legal.{at_first};
ghost use Rattle.jc_model.specs.Runs.{opened_from};
ghost use Rattle.jc_runner.specs.Halfway.{lives_now};
ghost use Rattle.jc_runner.specs.Hooks.{AreKept, AreSuited, CannotOpen};
ghost use Rattle.jc_runner.specs.Reports.{Reports, ReportsInput};
ghost use Rattle.jc_cli.specs.Meters.{most_reads, AddsAtMost};
ghost use Rattle.jc_cli.specs.Streams.{IsOfRunning, IsOfScript, IsOfStrictness, IsBeforeCalls, HasRun};
ghost use Rattle.jc_runner.specs.Strictness.{HasNoStray, HasStray};
ghost use Rattle.jc_runner.specs.Texts.{ScriptIsGood, ScriptHasFault, IfScriptFault, IfStrayLine};
ghost use Rattle.jc_cli.specs.Watching.{InputIsTooLong, ReadFails, AddsText, AddsFront, AddsNothing, FlushesAll, WriteFails};
ghost use Rattle.jc_script.specs.Stray.{stray_line};
ghost use Rattle.jc_cli.specs.declared.fault.RunFault.TheVariants as faults;
ghost use Rattle.jc_runner.specs.declared.form.Form.TheVariants as forms;
ghost use Rattle.jc_cli.specs.declared.run.Format.TheVariants as formats;

mod caches;
mod calls;
mod lines;

use crate::callbacks::all_suit;
use crate::form::{Form, Script, form_of, report_in};
use crate::serial_run::lines::run_all;
use jc_cli::{Format, RunFault, WatchedReader, WatchedWriter, read_bytes, write_text};
use jc_config::Settings;
use jc_engine::open::OpenRefusal;
use jc_engine::recorded::Recorded;
use jc_hooks::{CacheHooks, FilteredListener, Loader, Processor, Writer};
use jc_report::RunRecord;
use jc_ring::link_ring::LinkRing;
use jc_rows::rows::Rows;
use jc_script::{Line, ScriptFault, read_script, stray_line};
use jc_shared::table;
use std::alloc::Global;
use std::io::{Read, Write};

/// What the caches of a run open with: their settings, and the seed that picks places in their table.
#[derive(Drop)]
pub struct CacheSetup {
    pub settings: Settings,
    pub seed: u64,
}

/// The options of a run in the lines' order: the seed, whether a member that no op needs is refused, and the form of
/// its report.
#[derive(Clone, Copy)]
pub(crate) struct SerialOptions {
    pub seed: u64,
    pub strict: bool,
    pub format: Format,
}

/// A run in the lines' order: what its caches open with, whether a member that no op needs is refused, and the form of
/// its report.
#[derive(Drop)]
pub(crate) struct SerialRun {
    pub setup: CacheSetup,
    pub strict: bool,
    pub format: Format,
}

/// The lines of a script.
pub(crate) fn lines_of(
    alloc: Global,
    bytes: &[u8],
    settings: &Settings,
) -> Result<Vec<Line>, RunFault>
    ensures ok { IfOk result (λ v. lines settings.now bytes.now ≡ Ok v.items) }
    ensures script { IfScriptFault result (λ f. lines settings.now bytes.now ≡ Err f) }
    ensures others { IfErr result IsOfScript }
    ensures named { IfOk result (λ v. AllName (opened_from 0 settings.now) v.items) }
{
    match read_script(alloc, bytes, settings) {
        Ok(lines) => Ok(lines),
        Err(ScriptFault::OutOfMemory) => Err(RunFault::Memory),
        Err(fault) => Err(RunFault::Script(fault)),
    }
}

fn open_engine<T: Rows>(
    alloc: Global,
    rows: T,
    settings: Settings,
) -> Result<Recorded<T, LinkRing>, RunFault>
    requires empty { T.contents rows ≡ finite.empty }
    ensures fresh { IfOk result (λ r. lives_now r ≡ opened_from 0 settings) }
    ensures unrecorded { IfOk result (λ r. r.transcript ≡ at_first 0 settings) }
    ensures takes { OnOk result (open_refusal settings ≡ None) }
    ensures faults { IfErr result IsOfRunning }
    ensures refused { result ≡ Err faults.Open → IsSome (open_refusal settings) }
    ensures memory { result ≡ Err faults.Memory → IsSome (open_refusal settings)
        → open_refusal settings ≡ Some OpenRefusal.OutOfMemory }
{
    match Recorded::open(alloc, rows, settings.into_caches()) {
        Ok(recorded) => Ok(recorded),
        Err(OpenRefusal::OutOfMemory) => Err(RunFault::Memory),
        Err(_) => Err(RunFault::Open),
    }
}

/// The same as `report_on`, with the report in the script's form. The seed changes nothing of it.
fn report_as<T: Rows, L: Loader, W: Writer, P: Processor, K: FilteredListener>(
    alloc: Global,
    rows: T,
    setup: CacheSetup,
    hooks: &mut [CacheHooks<L, W, P, K>],
    script: Script,
) -> Result<String, RunFault>
    requires empty { T.contents rows ≡ finite.empty }
    requires named { AllName (opened_from 0 setup.settings) script.lines.items }
    requires suit { AreSuited P.wants setup.settings hooks.old }
    ensures kept { AreKept hooks.old hooks.new }
    ensures untouched { result ≡ Err faults.Open → hooks.new ≡ hooks.old }
    ensures text { IfOk result (λ s. Reports L.load_of W.may P.verdict_of K.state_after
        script.form setup.settings script.lines.items hooks.old hooks.new (string_bytes s)) }
    ensures faults { IfErr result IsOfRunning }
    ensures refused { result ≡ Err faults.Open → IsSome (open_refusal setup.settings) }
{
    let CacheSetup { settings, seed } = setup;
    let Script { lines, form } = script;
    let caches = settings.caches().len();
    let mut recorded = open_engine(alloc, rows, settings)?;
    let managed = run_all(alloc, &mut recorded, hooks, lines)?;
    let transcript = recorded.transcript();
    let run = RunRecord {
        transcript,
        managed: managed.as_slice(),
    };
    let text = report_in(alloc, &form, caches as u32, &run, seed)?;
    Ok(text)
}

/// Runs the lines on caches of these settings, which share this empty table. The result is the report as text. A cache
/// that a line creates has no callbacks.
///
/// `Memory`, also where a callback finds none; `Open` where the manager does not open.
pub fn report_on<T: Rows, L: Loader, W: Writer, P: Processor, K: FilteredListener>(
    alloc: Global,
    rows: T,
    settings: Settings,
    hooks: &mut [CacheHooks<L, W, P, K>],
    lines: Vec<Line>,
) -> Result<String, RunFault>
    requires empty { T.contents rows ≡ finite.empty }
    requires named { AllName (opened_from 0 settings) lines.items }
    requires suit { AreSuited P.wants settings hooks.old }
    ensures kept { AreKept hooks.old hooks.new }
    ensures untouched { result ≡ Err faults.Open → hooks.new ≡ hooks.old }
    ensures text { IfOk result (λ s. Reports L.load_of W.may P.verdict_of K.state_after
        forms.Text settings lines.items hooks.old hooks.new (string_bytes s)) }
    ensures faults { IfErr result IsOfRunning }
    ensures refused { result ≡ Err faults.Open → IsSome (open_refusal settings) }
{
    let setup = CacheSetup { settings, seed: 0 };
    let form = Form::Text;
    report_as(alloc, rows, setup, hooks, Script { lines, form })
}

/// Refuses a script with a member that its op does not need, where that is asked for.
pub(crate) fn reject_unknown_members(
    alloc: Global,
    bytes: &[u8],
    strict: bool,
) -> Result<(), RunFault>
    ensures known { OnOk result (strict ≡ true → stray_line bytes.now ≡ None) }
    ensures entry { IfStrayLine result (λ n. (strict ≡ true) × (stray_line bytes.now ≡ Some n)) }
    ensures others { IfErr result IsOfStrictness }
{
    if !strict {
        return Ok(());
    }
    match stray_line(alloc, bytes)? {
        None => Ok(()),
        Some(line) => Err(RunFault::Entry { line }),
    }
}

/// The same as `serial`, with the report in the run's form. Where `strict` says so, `Entry` with the first line that
/// has a member its op does not need; that is told of a script without other faults.
pub(crate) fn serial_as<L: Loader, W: Writer, P: Processor, K: FilteredListener, R: Read, O: Write>(
    alloc: Global,
    run: SerialRun,
    hooks: &mut [CacheHooks<L, W, P, K>],
    reader: &mut WatchedReader<R>,
    writer: &mut WatchedWriter<O>,
) -> Result<(), RunFault>
    ensures ok { OnOk result (ReportsInput L.load_of W.may P.verdict_of K.state_after
        R.remaining reader.old run.format run.setup.settings hooks.old hooks.new
        (AddsText O.contents writer.old writer.new)) }
    ensures end { OnOk result (IsAtEnd (R.remaining reader.new.inner)) }
    ensures script { IfScriptFault result
        (ScriptHasFault R.remaining run.setup.settings reader.old) }
    ensures entry { IfStrayLine result
        (HasStray run.strict run.setup.settings (R.remaining reader.old.inner)) }
    ensures known { HasRun result → HasNoStray run.strict (R.remaining reader.old.inner) }
    ensures long { result ≡ Err faults.TooLong → InputIsTooLong R.remaining reader.old }
    ensures open { result ≡ Err faults.Open → CannotOpen P.wants run.setup.settings hooks.old }
    ensures good { result ≡ Err faults.Open
        → ScriptIsGood R.remaining run.setup.settings reader.old }
    ensures kept { AreKept hooks.old hooks.new }
    ensures untouched { IfErr result (λ e. IsBeforeCalls e → hooks.new ≡ hooks.old) }
    ensures suit { HasRun result → AreSuited P.wants run.setup.settings hooks.old }
    ensures flushed { OnOk result (FlushesAll writer.old writer.new) }
    ensures closed { result ≢ Err faults.Close }
    ensures front { result ≡ Err faults.Write
        → ReportsInput L.load_of W.may P.verdict_of K.state_after
        R.remaining reader.old run.format run.setup.settings hooks.old hooks.new
        (AddsFront O.contents writer.old writer.new) }
    ensures nothing { IfErr result (λ e.
        e ≢ faults.Write → AddsNothing O.contents writer.old writer.new) }
    ensures read_failed { result ≡ Err faults.Read → ReadFails reader.old reader.new }
    ensures unfailed { result ≢ Err faults.Read → reader.new.failures ≡ reader.old.failures }
    ensures write_failed { result ≡ Err faults.Write → WriteFails writer.old writer.new }
    ensures reads { AddsAtMost most_reads reader.old.reads reader.new.reads }
{
    let SerialRun {
        setup,
        strict,
        format,
    } = run;
    let bytes = read_bytes(alloc, reader)?;
    let lines = lines_of(alloc, bytes.as_slice(), &setup.settings)?;
    reject_unknown_members(alloc, bytes.as_slice(), strict)?;
    if !all_suit(&setup.settings, hooks) {
        return Err(RunFault::Open);
    }
    let form = form_of(alloc, format, bytes.as_slice(), lines.as_slice())?;
    let rows = table(alloc, setup.seed)?;
    let text = report_as(alloc, rows, setup, hooks, Script { lines, form })?;
    write_text(writer, text.as_bytes())
}

/// Reads a script to its end, runs its lines in order on caches of these settings and on those that it creates, each
/// request being answered by the callbacks of its cache, and writes the report.
///
/// `Read`, `TooLong`; `Script` with the first fault; `Open` where the callbacks are not those that the settings name,
/// or where the manager does not open; `Memory`, also where a callback finds none; `Write`. Only after `Write` may a
/// part of the report have been written. The seed picks the places in the table and changes nothing of the report.
pub fn serial<L: Loader, W: Writer, P: Processor, K: FilteredListener, R: Read, O: Write>(
    alloc: Global,
    setup: CacheSetup,
    hooks: &mut [CacheHooks<L, W, P, K>],
    reader: &mut WatchedReader<R>,
    writer: &mut WatchedWriter<O>,
) -> Result<(), RunFault>
    ensures ok { OnOk result (ReportsInput L.load_of W.may P.verdict_of K.state_after
        R.remaining reader.old formats.Text setup.settings hooks.old hooks.new
        (AddsText O.contents writer.old writer.new)) }
    ensures end { OnOk result (IsAtEnd (R.remaining reader.new.inner)) }
    ensures script { IfScriptFault result (ScriptHasFault R.remaining setup.settings reader.old) }
    ensures lax { (n : ℕ) → result ≢ Err (faults.Entry n) }
    ensures long { result ≡ Err faults.TooLong → InputIsTooLong R.remaining reader.old }
    ensures open { result ≡ Err faults.Open → CannotOpen P.wants setup.settings hooks.old }
    ensures good { result ≡ Err faults.Open → ScriptIsGood R.remaining setup.settings reader.old }
    ensures kept { AreKept hooks.old hooks.new }
    ensures untouched { IfErr result (λ e. IsBeforeCalls e → hooks.new ≡ hooks.old) }
    ensures suit { HasRun result → AreSuited P.wants setup.settings hooks.old }
    ensures flushed { OnOk result (FlushesAll writer.old writer.new) }
    ensures closed { result ≢ Err faults.Close }
    ensures front { result ≡ Err faults.Write
        → ReportsInput L.load_of W.may P.verdict_of K.state_after
        R.remaining reader.old formats.Text setup.settings hooks.old hooks.new
        (AddsFront O.contents writer.old writer.new) }
    ensures nothing { IfErr result (λ e.
        e ≢ faults.Write → AddsNothing O.contents writer.old writer.new) }
    ensures read_failed { result ≡ Err faults.Read → ReadFails reader.old reader.new }
    ensures unfailed { result ≢ Err faults.Read → reader.new.failures ≡ reader.old.failures }
    ensures write_failed { result ≡ Err faults.Write → WriteFails writer.old writer.new }
    ensures reads { AddsAtMost most_reads reader.old.reads reader.new.reads }
{
    let run = SerialRun {
        setup,
        strict: false,
        format: Format::Text,
    };
    serial_as(alloc, run, hooks, reader, writer)
}
