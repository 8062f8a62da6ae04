//! A run on worker threads: the lines of a script in, a report out.
ghost use Rattle.std.specs.Prelude.{◌≡◌, ◌≢◌, ◌<◌, ◌↔◌, IsTrue, IfOk, IfErr, OnOk, OnErr, Err, map, string_bytes};
ghost use Rattle.jc_model.specs.Legal.{IsLegal};
ghost use Rattle.jc_model.specs.Runs.{opened_from};
ghost use Rattle.jc_script.specs.Calls.{calls_in_lines};
ghost use Rattle.jc_script.specs.Named.{AllName};
ghost use Rattle.jc_locked.specs.Stated.{stated_by, shared_of};
ghost use Rattle.jc_threads.specs.Lines.{AreCallsMade};
ghost use Rattle.jc_threads.specs.Managing.{AreManaged};
ghost use Rattle.jc_cli.specs.Streams.{IsOfThreads, HasRun};
ghost use Rattle.jc_runner.specs.Together.{refusals_of, SetupSuits, SetupCannotOpen, SetupGathers, SetupGathersSo};
ghost use Rattle.jc_cli.specs.Watching.{AddsText, AddsFront, AddsNothing, FlushesAll, WriteFails};
ghost use Rattle.jc_cli.specs.declared.fault.RunFault.TheVariants as faults;
ghost use Rattle.jc_runner.specs.declared.form.Form.TheVariants as forms;

use crate::form::{Form, Script, report_in};
use jc_cli::{RunFault, WatchedWriter, write_text};
use jc_config::Settings;
use jc_hooks::{CacheHooks, FilteredListener, Loader, Processor, Writer};
use jc_model::Transcript;
use jc_model::event::CreateRefusal;
use jc_report::RunRecord;
use jc_script::{Followed, Line, Managed, follow, same_lives};
use jc_shared::{Name, Shared, SharedRefusal};
use jc_threads::{Gate, Transcription, transcribed};
use std::alloc::Global;
use std::io::Write;
use std::marker::Brand;
use std::sync::Wait;
use std::thread::Threads;

/// What a manager is opened with: its caches, their callbacks, and the seed that picks the places in its table.
#[derive(Drop)]
pub struct Setup<L, W, P, K> {
    pub settings: Settings,
    pub hooks: Vec<CacheHooks<L, W, P, K>>,
    pub seed: u64,
}

/// Who makes the calls: so many workers, each a thread of these, and the gate that they pass.
#[derive(Drop)]
pub struct Crew<'a, R, G> {
    pub threads: &'a R,
    pub workers: usize,
    pub gate: &'a G,
}

/// The manager, before it has a name.
fn open_unnamed<L: Loader, W: Writer, P: Processor, K: FilteredListener>(
    alloc: Global,
    setup: Setup<L, W, P, K>,
) -> Result<Shared<L, W, P, K>, RunFault>
    ensures configs { IfOk result (λ s. s.configs ≡ setup.settings) }
    ensures shared { IfOk result (λ s. s.shared ≡ map shared_of setup.hooks.items) }
    ensures suit { OnOk result (SetupSuits P.wants setup) }
    ensures opens { OnOk result (SetupCannotOpen P.wants setup → ⊥) }
    ensures refused { result ≡ Err faults.Open → SetupCannotOpen P.wants setup }
    ensures memory { result ≡ Err faults.Memory → SetupCannotOpen P.wants setup → ⊥ }
    ensures closed { result ≢ Err faults.Close }
    ensures faults { IfErr result IsOfThreads }
{
    let Setup {
        settings,
        hooks,
        seed,
    } = setup;
    match Shared::open(alloc, settings.into_caches(), hooks, seed) {
        Ok(shared) => Ok(shared),
        Err(SharedRefusal::OutOfMemory) => Err(RunFault::Memory),
        Err(SharedRefusal::Caches(_)) => Err(RunFault::Open),
        Err(SharedRefusal::HooksDiffer { .. }) => Err(RunFault::Open),
    }
}

/// The lines made by the crew, on a manager of this name.
fn make_lines_under<
    N: Name + Send + Sync,
    L: Loader,
    W: Writer,
    P: Processor,
    K: FilteredListener,
    G: Gate,
    R: Threads + Wait + Sync,
>(
    alloc: Global,
    shared: Shared<L, W, P, K>,
    crew: &Crew<'_, R, G>,
    lines: Vec<Line>,
) -> Result<Transcription, RunFault>
    requires workers { 0 < crew.now.workers }
    requires configs { shared.configs ≡ N.configs }
    requires stated { map (stated_by L.load_of P.verdict_of) shared.shared ≡ N.stated }
    requires index { shared.index ≡ N.index }
    ensures legal { IfOk result (λ t. IsLegal t.transcript) }
    ensures made { IfOk result (λ t.
        AreCallsMade N.stated (calls_in_lines lines.items) t.transcript.entries) }
    ensures managed { IfOk result (λ t. AreManaged N.configs lines.items t.refusals.items) }
    ensures faults { IfErr result IsOfThreads }
    ensures opened { result ≢ Err faults.Open }
{
    let manager = shared.named::<N>();
    match transcribed(crew.threads, alloc, manager, crew.gate, crew.workers, lines) {
        Ok(made) => Ok(made),
        Err(fault) => Err(RunFault::from(fault)),
    }
}

/// The same, under a name that this call picks.
fn make_lines<
    L: Loader,
    W: Writer,
    P: Processor,
    K: FilteredListener,
    G: Gate,
    R: Threads + Wait + Sync,
>(
    alloc: Global,
    shared: Shared<L, W, P, K>,
    crew: &Crew<'_, R, G>,
    lines: Vec<Line>,
) -> Result<Transcription, RunFault>
    requires workers { 0 < crew.now.workers }
    ensures legal { IfOk result (λ t. IsLegal t.transcript) }
    ensures made { IfOk result (λ t. AreCallsMade
        (map (stated_by L.load_of P.verdict_of) shared.shared)
        (calls_in_lines lines.items) t.transcript.entries) }
    ensures managed { IfOk result (λ t. AreManaged shared.configs lines.items t.refusals.items) }
    ensures faults { IfErr result IsOfThreads }
    ensures opened { result ≢ Err faults.Open }
{
    make_lines_under::<Brand, L, W, P, K, G, R>(alloc, shared, crew, lines)
}

/// Whether these lines were refused as here.
fn are_refused_so(managed: &[Managed], refusals: &[Option<CreateRefusal>]) -> bool
    ensures { IsTrue result ↔ (refusals_of managed.now ≡ refusals.now) }
{
    if managed.len() != refusals.len() {
        return false;
    }
    for (i, line) in managed.iter().enumerate() {
        if line.refusal != refusals[i] {
            return false;
        }
    }
    true
}

/// The transcript, where its lives are those that the lines come to, and the manager has refused as they do.
fn compare_lives(followed: &Followed, made: Transcription) -> Result<Transcript, RunFault>
    ensures same { IfOk result (λ t. t ≡ made.transcript) }
    ensures lives { IfOk result (λ t. t.lives ≡ followed.now.lives.items) }
    ensures refusals { OnOk result (refusals_of followed.now.managed.items ≡ made.refusals.items) }
    ensures faults { IfErr result (λ e. e ≡ faults.Close) }
    ensures differ { OnErr result (made.transcript.lives ≡ followed.now.lives.items
        → refusals_of followed.now.managed.items ≡ made.refusals.items → ⊥) }
{
    let Transcription {
        transcript,
        refusals,
    } = made;
    if !same_lives(transcript.lives(), followed.lives.as_slice()) {
        return Err(RunFault::Close);
    }
    if !are_refused_so(followed.managed.as_slice(), refusals.as_slice()) {
        return Err(RunFault::Close);
    }
    Ok(transcript)
}

/// The report of a run on threads, in the script's form.
fn gather_report<
    L: Loader,
    W: Writer,
    P: Processor,
    K: FilteredListener,
    G: Gate,
    R: Threads + Wait + Sync,
>(
    alloc: Global,
    setup: Setup<L, W, P, K>,
    crew: &Crew<'_, R, G>,
    script: Script,
) -> Result<String, RunFault>
    requires workers { 0 < crew.now.workers }
    requires named { AllName (opened_from 0 setup.settings) script.lines.items }
    ensures text { IfOk result (λ s.
        SetupGathers L.load_of P.verdict_of script.form setup script.lines.items
        (string_bytes s)) }
    ensures suit { OnOk result (SetupSuits P.wants setup) }
    ensures refused { result ≡ Err faults.Open → SetupCannotOpen P.wants setup }
    ensures closed { result ≡ Err faults.Close → SetupCannotOpen P.wants setup → ⊥ }
    ensures faults { IfErr result IsOfThreads }
{
    let Script { lines, form } = script;
    let followed = follow(alloc, &setup.settings, lines.as_slice())?;
    let caches = setup.settings.caches().len();
    let seed = setup.seed;
    let shared = open_unnamed(alloc, setup)?;
    let made = make_lines(alloc, shared, crew, lines)?;
    let transcript = compare_lives(&followed, made)?;
    let managed = followed.managed.as_slice();
    let run = RunRecord {
        transcript: &transcript,
        managed,
    };
    let text = report_in(alloc, &form, caches as u32, &run, seed)?;
    Ok(text)
}

/// The same as `threaded`, with the report in the script's form.
pub(crate) fn threaded_as<
    L: Loader,
    W: Writer,
    P: Processor,
    K: FilteredListener,
    G: Gate,
    R: Threads + Wait + Sync,
    O: Write,
>(
    alloc: Global,
    setup: Setup<L, W, P, K>,
    crew: &Crew<'_, R, G>,
    script: Script,
    writer: &mut WatchedWriter<O>,
) -> Result<(), RunFault>
    requires workers { 0 < crew.now.workers }
    requires named { AllName (opened_from 0 setup.settings) script.lines.items }
    ensures ok { OnOk result
        (SetupGathersSo L.load_of P.verdict_of script.form setup script.lines.items
        (AddsText O.contents writer.old writer.new)) }
    ensures flushed { OnOk result (FlushesAll writer.old writer.new) }
    ensures suit { HasRun result → SetupSuits P.wants setup }
    ensures refused { result ≡ Err faults.Open → SetupCannotOpen P.wants setup }
    ensures closed { result ≡ Err faults.Close → SetupCannotOpen P.wants setup → ⊥ }
    ensures front { result ≡ Err faults.Write
        → SetupGathersSo L.load_of P.verdict_of script.form setup script.lines.items
        (AddsFront O.contents writer.old writer.new) }
    ensures write_failed { result ≡ Err faults.Write → WriteFails writer.old writer.new }
    ensures nothing { IfErr result (λ e.
        e ≢ faults.Write → AddsNothing O.contents writer.old writer.new) }
    ensures others { IfErr result (λ e. e ≢ faults.Write → IsOfThreads e) }
{
    let text = gather_report(alloc, setup, crew, script)?;
    write_text(writer, text.as_bytes())
}

/// Runs lines as `read_script` gives them for these settings on worker threads, session s on worker s mod workers, and
/// writes the report as text. Each worker makes its lines in their order; a cache that a line creates has no callbacks.
///
/// `Open` where the callbacks are not those that the settings name, or the manager does not open; `Memory`, also where
/// a callback finds none; `Close` where the sessions and the transcript differ, or the manager has created and refused
/// otherwise than the lines come to, one after the other; `Write`. Only after `Write` may a part of the report have
/// been written.
pub fn threaded<
    L: Loader,
    W: Writer,
    P: Processor,
    K: FilteredListener,
    G: Gate,
    R: Threads + Wait + Sync,
    O: Write,
>(
    alloc: Global,
    setup: Setup<L, W, P, K>,
    crew: &Crew<'_, R, G>,
    lines: Vec<Line>,
    writer: &mut WatchedWriter<O>,
) -> Result<(), RunFault>
    requires workers { 0 < crew.now.workers }
    requires named { AllName (opened_from 0 setup.settings) lines.items }
    ensures ok { OnOk result (SetupGathersSo L.load_of P.verdict_of forms.Text setup lines.items
        (AddsText O.contents writer.old writer.new)) }
    ensures flushed { OnOk result (FlushesAll writer.old writer.new) }
    ensures suit { HasRun result → SetupSuits P.wants setup }
    ensures refused { result ≡ Err faults.Open → SetupCannotOpen P.wants setup }
    ensures closed { result ≡ Err faults.Close → SetupCannotOpen P.wants setup → ⊥ }
    ensures front { result ≡ Err faults.Write
        → SetupGathersSo L.load_of P.verdict_of forms.Text setup lines.items
        (AddsFront O.contents writer.old writer.new) }
    ensures write_failed { result ≡ Err faults.Write → WriteFails writer.old writer.new }
    ensures nothing { IfErr result (λ e.
        e ≢ faults.Write → AddsNothing O.contents writer.old writer.new) }
    ensures others { IfErr result (λ e. e ≢ faults.Write → IsOfThreads e) }
{
    let form = Form::Text;
    threaded_as(alloc, setup, crew, Script { lines, form }, writer)
}
