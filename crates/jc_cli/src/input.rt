//! The reader of all input, with an account of how it was used. Nothing else reads from what it holds.
ghost use Rattle.std.specs.Prelude.{◌≡◌, ◌≢◌, ◌≤◌, is_err, length, IfOk, IfErr, Err};
ghost use Rattle.std.specs.Io.{ReadsAtMost};
ghost use Rattle.std.specs.Io.KnownBytes.{ReadConsumes};
ghost use Rattle.jc_model.specs.Limits.{text_bytes};
ghost use Rattle.jc_cli.specs.Meters.{next_count, next_count_if, most_reads, AddsAtMost};
ghost use Rattle.jc_cli.specs.Streams.{IsOfReading};
ghost use Rattle.jc_cli.specs.Watching.{unread_reader, ReadsAll, InputIsTooLong, ReadFails};
ghost use Rattle.jc_cli.specs.declared.fault.RunFault.TheVariants as faults;

use crate::fault::RunFault;
use jc_model::limits::TEXT_BYTES;
use std::alloc::Global;
use std::io;
use std::io::Read;

/// One more. A count goes round after `u64::MAX`, so that what was added to it is always seen in full.
pub(crate) fn next(count: u64) -> u64
    ensures { result ≡ next_count count }
{
    if count == u64::MAX { 0 } else { count + 1 }
}

/// The count, and one more where something failed.
pub(crate) fn next_if(failed: bool, count: u64) -> u64
    ensures { result ≡ next_count_if failed count }
{
    if failed { next(count) } else { count }
}

/// A reader, with how often it was read and how often that failed.
#[derive(Drop)]
pub struct WatchedReader<R> {
    inner: R,
    reads: u64,
    failures: u64,
}

impl<R: Read> WatchedReader<R> {
    /// A reader that was not read yet.
    pub fn new(inner: R) -> WatchedReader<R>
        ensures { result ≡ unread_reader inner }
    {
        WatchedReader {
            inner,
            reads: 0,
            failures: 0,
        }
    }

    /// The reader itself.
    pub fn inner(&self) -> &R
        ensures { result.now ≡ self.now.inner }
    {
        &self.inner
    }

    /// How often it was read.
    pub fn reads(&self) -> u64
        ensures { result ≡ self.now.reads }
    {
        self.reads
    }

    /// How often that failed.
    pub fn failures(&self) -> u64
        ensures { result ≡ self.now.failures }
    {
        self.failures
    }

    pub(crate) fn read(&mut self, buf: &mut [u8]) -> io::Result<usize>
        ensures bound { ReadsAtMost result buf.new }
        ensures bytes { ReadConsumes (R.remaining self.old.inner) (R.remaining self.new.inner)
            result buf.new }
        ensures reads { self.new.reads ≡ next_count self.old.reads }
        ensures failures { self.new.failures ≡ next_count_if (is_err result) self.old.failures }
    {
        let result = self.inner.read(buf);
        self.reads = next(self.reads);
        self.failures = next_if(result.is_err(), self.failures);
        result
    }
}

/// All that a reader has left, where that is at most 8,388,608 bytes.
///
/// `Read` where the reader failed, an interruption too; `TooLong`; `Memory`. The clauses on failures tell this call's
/// from those before: `Read` comes with one failure more, anything else with none.
pub fn read_bytes<R: Read>(
    alloc: Global,
    reader: &mut WatchedReader<R>,
) -> Result<Vec<u8>, RunFault>
    ensures all { IfOk result (λ v. ReadsAll R.remaining reader.old reader.new v.items) }
    ensures fits { IfOk result (λ v. length v.items ≤ text_bytes) }
    ensures long { result ≡ Err faults.TooLong → InputIsTooLong R.remaining reader.old }
    ensures failed { result ≡ Err faults.Read → ReadFails reader.old reader.new }
    ensures unfailed { result ≢ Err faults.Read → reader.new.failures ≡ reader.old.failures }
    ensures others { IfErr result IsOfReading }
    ensures reads { AddsAtMost most_reads reader.old.reads reader.new.reads }
{
    let mut bytes = Vec::new(alloc);
    let mut chunk = [0; 16384];
    loop {
        let n = match reader.read(&mut chunk) {
            Ok(n) => n,
            Err(_) => return Err(RunFault::Read),
        };
        if n == 0 {
            return Ok(bytes);
        }
        if n > TEXT_BYTES - bytes.len() {
            return Err(RunFault::TooLong);
        }
        bytes.extend_from_slice(&chunk[..n])?;
    }
}
