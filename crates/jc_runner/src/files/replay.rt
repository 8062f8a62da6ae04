//! A replay of a trace: its file is read, and its table written.
ghost use Rattle.std.specs.Prelude.{◌≡◌, ◌≢◌, ℕ, List, IfOk, IfErr, Err, string_bytes};
ghost use Rattle.std.specs.List.{All};
ghost use Rattle.jc_replay.specs.Hits.{IsCapacity};
ghost use Rattle.jc_replay.specs.Trace.{GivesReplay};
ghost use Rattle.jc_runner.specs.Disks.{AsksForPath, FailsToOpen};
ghost use Rattle.jc_cli.specs.Faults.{of_trace, of_replay};
ghost use Rattle.jc_cli.specs.Meters.{most_reads, AddsAtMost};
ghost use Rattle.jc_runner.specs.Program.{TraceEnds, TraceFileEnds, ReplayEnds, IsUnreadFile, table_of};
ghost use Rattle.jc_cli.specs.declared.fault.ProgramFault.TheVariants.{TraceRead};

use crate::command::streams::RunFiles;
use crate::files::disk::Disk;
use crate::files::open_script;
use jc_cli::{
    Format, ProgramFault, Replay, RunFault, WatchedReader, WatchedWriter, is_input, read_bytes,
    write_text,
};
use jc_replay::{ReplayFault, replay_json, replay_table};
use std::alloc::Global;
use std::io::{Read, Write};

/// The fault of a trace that was not read to its end.
fn trace_fault(fault: RunFault) -> ProgramFault
    ensures { result ≡ of_trace fault }
{
    match fault {
        RunFault::Read => ProgramFault::TraceRead,
        RunFault::TooLong => ProgramFault::Trace(ReplayFault::TooLong),
        other => ProgramFault::Run(other),
    }
}

/// The fault of a replay.
fn replay_fault(fault: ReplayFault) -> ProgramFault
    ensures { result ≡ of_replay fault }
{
    match fault {
        ReplayFault::OutOfMemory => ProgramFault::Run(RunFault::Memory),
        ReplayFault::TooLong | ReplayFault::BadKey { .. } => ProgramFault::Trace(fault),
    }
}

/// The table of the replay of a trace, in the form that is asked for.
fn table_of(alloc: Global, replay: &Replay, trace: &[u8]) -> Result<String, ReplayFault>
    requires { All IsCapacity replay.now.capacities.items }
    ensures { GivesReplay string_bytes result (table_of replay.now trace.now) }
{
    let capacities = replay.capacities.as_slice();
    match replay.format {
        Format::Text => replay_table(alloc, trace, capacities, 0),
        Format::Json => replay_json(alloc, trace, capacities, 0),
    }
}

/// Reads a trace to its end, replays it, and writes the table.
fn replay_all<I: Read, O: Write>(
    alloc: Global,
    replay: &Replay,
    reader: &mut WatchedReader<I>,
    writer: &mut WatchedWriter<O>,
) -> Result<(), ProgramFault>
    requires { All IsCapacity replay.now.capacities.items }
    ensures ends { TraceEnds I.remaining O.contents replay.now
        reader.old reader.new writer.old writer.new result }
    ensures unfailed { result ≢ Err TraceRead → reader.new.failures ≡ reader.old.failures }
    ensures reads { AddsAtMost most_reads reader.old.reads reader.new.reads }
{
    let bytes = match read_bytes(alloc, reader) {
        Ok(bytes) => bytes,
        Err(fault) => return Err(trace_fault(fault)),
    };
    let text = match table_of(alloc, replay, bytes.as_slice()) {
        Ok(text) => text,
        Err(fault) => return Err(replay_fault(fault)),
    };
    match write_text(writer, text.as_bytes()) {
        Ok(()) => Ok(()),
        Err(fault) => Err(ProgramFault::Run(fault)),
    }
}

/// Opens a trace.
fn open_trace<D: Disk>(disk: &mut D, path: &str) -> Result<WatchedReader<D::File>, ProgramFault>
    ensures unread { IfOk result (IsUnreadFile D.File.remaining (D.holds disk.old path.now)) }
    ensures unopened { IfErr result (FailsToOpen TraceRead (ProgramFault.Run RunFault.Memory)
        (D.holds disk.old path.now)) }
    ensures asked { AsksForPath (D.asked disk.old) (D.asked disk.new) path.now }
    ensures same { (other : List ℕ) → D.holds disk.new other ≡ D.holds disk.old other }
{
    match open_script(disk, path) {
        Ok(reader) => Ok(reader),
        Err(fault) => Err(trace_fault(fault)),
    }
}

/// Opens a trace and replays it.
fn replay_opened<D: Disk, O: Write>(
    alloc: Global,
    disk: &mut D,
    replay: &Replay,
    trace: &mut Option<WatchedReader<D::File>>,
    writer: &mut WatchedWriter<O>,
) -> Result<(), ProgramFault>
    requires { All IsCapacity replay.now.capacities.items }
    ensures ends { TraceFileEnds D.File.remaining O.contents
        (D.holds disk.old (string_bytes replay.now.trace)) replay.now
        writer.old writer.new trace.new result }
    ensures asked { AsksForPath (D.asked disk.old) (D.asked disk.new)
        (string_bytes replay.now.trace) }
    ensures same { (other : List ℕ) → D.holds disk.new other ≡ D.holds disk.old other }
{
    *trace = None;
    let mut reader = open_trace(disk, replay.trace.as_str())?;
    let replayed = replay_all(alloc, replay, &mut reader, writer);
    *trace = Some(reader);
    replayed
}

/// Replays the trace that the words name, which may be standard input, and writes the table.
pub fn replay_file<D: Disk, I: Read, O: Write>(
    alloc: Global,
    files: &mut RunFiles<D, D::File>,
    replay: &Replay,
    input: &mut WatchedReader<I>,
    writer: &mut WatchedWriter<O>,
) -> Result<(), ProgramFault>
    requires { All IsCapacity replay.now.capacities.items }
    ensures ends { ReplayEnds D.File.remaining I.remaining O.contents
        (D.holds files.old.disk) (D.asked files.old.disk) (D.asked files.new.disk)
        replay.now files.new.opened.config files.new.opened.script
        input.old input.new writer.old writer.new result }
    ensures same { (other : List ℕ) → D.holds files.new.disk other ≡ D.holds files.old.disk other }
{
    files.opened.config = None;
    if is_input(replay.trace.as_str()) {
        files.opened.script = None;
        return replay_all(alloc, replay, input, writer);
    }
    let trace = &mut files.opened.script;
    replay_opened(alloc, &mut files.disk, replay, trace, writer)
}
