//! The configuration of a reader, read to its end.
ghost use Rattle.std.specs.Prelude.{◌≡◌, ◌≢◌, IfOk, IfErr, OnOk, Ok, Err};
ghost use Rattle.std.specs.Io.KnownBytes.{IsAtEnd};
ghost use Rattle.jc_config.specs.Config.{configuration_in};
ghost use Rattle.jc_cli.specs.Meters.{most_reads, AddsAtMost};
ghost use Rattle.jc_runner.specs.Opens.{CanOpenConfiguration};
ghost use Rattle.jc_cli.specs.Streams.{IsOfConfiguring};
ghost use Rattle.jc_runner.specs.Texts.{IsConfiguration, ConfigHasFault, FaultIsOfLength, IfConfigFault};
ghost use Rattle.jc_cli.specs.Watching.{ReadsAll, ReadFails};
ghost use Rattle.jc_cli.specs.declared.fault.ProgramFault.TheVariants.{ConfigRead};

use jc_cli::{ProgramFault, RunFault, WatchedReader, read_bytes};
use jc_config::{ConfigFault, Configuration, read_config};
use std::alloc::Global;
use std::io::Read;

fn text_of<R: Read>(alloc: Global, reader: &mut WatchedReader<R>) -> Result<Vec<u8>, ProgramFault>
    ensures all { IfOk result (λ v. ReadsAll R.remaining reader.old reader.new v.items) }
    ensures long { IfErr result (FaultIsOfLength R.remaining reader.old) }
    ensures failed { result ≡ Err ConfigRead → ReadFails reader.old reader.new }
    ensures unfailed { result ≢ Err ConfigRead → reader.new.failures ≡ reader.old.failures }
    ensures others { IfErr result IsOfConfiguring }
    ensures reads { AddsAtMost most_reads reader.old.reads reader.new.reads }
{
    match read_bytes(alloc, reader) {
        Ok(bytes) => Ok(bytes),
        Err(RunFault::Read) => Err(ProgramFault::ConfigRead),
        Err(RunFault::TooLong) => Err(ProgramFault::Config(ConfigFault::TooLong)),
        Err(_) => Err(ProgramFault::Run(RunFault::Memory)),
    }
}

fn configuration_in(alloc: Global, bytes: &[u8]) -> Result<Configuration, ProgramFault>
    ensures ok { IfOk result (λ c. configuration_in bytes.now ≡ Ok c) }
    ensures opens { IfOk result CanOpenConfiguration }
    ensures config { IfConfigFault result (λ f. configuration_in bytes.now ≡ Err f) }
    ensures others { IfErr result (λ e. (e ≡ ConfigRead → ⊥) × IsOfConfiguring e) }
{
    match read_config(alloc, bytes) {
        Ok(configuration) => Ok(configuration),
        Err(ConfigFault::OutOfMemory) => Err(ProgramFault::Run(RunFault::Memory)),
        Err(fault) => Err(ProgramFault::Config(fault)),
    }
}

/// Reads a configuration to its end.
///
/// `ConfigRead` where the reader failed; `Config` with the first fault; want of memory is the run's `Memory`.
pub fn read_configuration<R: Read>(
    alloc: Global,
    reader: &mut WatchedReader<R>,
) -> Result<Configuration, ProgramFault>
    ensures ok { IfOk result (IsConfiguration R.remaining reader.old) }
    ensures opens { IfOk result CanOpenConfiguration }
    ensures end { OnOk result (IsAtEnd (R.remaining reader.new.inner)) }
    ensures config { IfConfigFault result (ConfigHasFault R.remaining reader.old) }
    ensures failed { result ≡ Err ConfigRead → ReadFails reader.old reader.new }
    ensures unfailed { result ≢ Err ConfigRead → reader.new.failures ≡ reader.old.failures }
    ensures others { IfErr result IsOfConfiguring }
    ensures reads { AddsAtMost most_reads reader.old.reads reader.new.reads }
{
    let bytes = text_of(alloc, reader)?;
    configuration_in(alloc, bytes.as_slice())
}
