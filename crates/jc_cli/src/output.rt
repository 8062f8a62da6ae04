//! The writer of all output, with an account of how it was used. Nothing else writes to what it holds.
ghost use Rattle.std.specs.Prelude.{◌≡◌, true, false, is_err, is_ok, IfSome, IfErr, OnOk, Err};
ghost use Rattle.std.specs.Io.{WritesAtMost};
ghost use Rattle.std.specs.Io.KnownBytes.{WriteAppends};
ghost use Rattle.jc_cli.specs.Meters.{next_count_if};
ghost use Rattle.jc_cli.specs.Streams.{takes_nothing, UnheardAfter};
ghost use Rattle.jc_cli.specs.Watching.{unused_writer, AddsText, AddsFront, AddsNothing, IsGivenText, WriteFails};
ghost use Rattle.jc_cli.specs.declared.fault.RunFault.TheVariants as faults;

use crate::fault::RunFault;
use crate::input::{next, next_if};
use std::fmt::Display;
use std::io;
use std::io::{ErrorKind, Write};

/// Whether the last failure was that nobody reads any more, after one more call.
fn unheard_after<T>(outcome: &io::Result<T>, before: bool) -> bool
    ensures { UnheardAfter outcome.now before result }
{
    match outcome {
        Ok(_) => before,
        Err(error) => matches!(error.kind(), ErrorKind::BrokenPipe),
    }
}

/// A writer, with how many whole texts it was given, how often it failed, by a fault or by taking no byte, whether its
/// last fault was that nobody reads any more, and whether what it took last was flushed.
#[derive(Drop)]
pub struct WatchedWriter<W> {
    inner: W,
    texts: u64,
    failures: u64,
    unheard: bool,
    flushed: bool,
}

impl<W: Write> WatchedWriter<W> {
    /// A writer that was not called yet.
    pub fn new(inner: W) -> WatchedWriter<W>
        ensures { result ≡ unused_writer inner }
    {
        WatchedWriter {
            inner,
            texts: 0,
            failures: 0,
            unheard: false,
            flushed: false,
        }
    }

    /// The writer itself.
    pub fn into_inner(self) -> W
        ensures { result ≡ self.inner }
    {
        let WatchedWriter { inner, .. } = self;
        inner
    }

    /// Whether its last fault was that nobody reads any more.
    pub fn unheard(&self) -> bool
        ensures { result ≡ self.now.unheard }
    {
        self.unheard
    }

    /// What `write!` and `writeln!` call: writes all of a text.
    pub(crate) fn write_fmt<T: Display + Drop>(&mut self, text: T) -> io::Result<()>
        ensures bytes { OnOk result (IfSome (T.output text)
            (AddsText W.contents self.old self.new)) }
        ensures given { IsGivenText self.old self.new }
        ensures failures { self.new.failures ≡ next_count_if (is_err result) self.old.failures }
        ensures unheard { UnheardAfter result self.old.unheard self.new.unheard }
        ensures flushed { self.new.flushed ≡ false }
    {
        let result = self.inner.write_fmt(text);
        self.texts = next(self.texts);
        self.failures = next_if(result.is_err(), self.failures);
        self.unheard = unheard_after(&result, self.unheard);
        self.flushed = false;
        result
    }

    pub(crate) fn write(&mut self, buf: &[u8]) -> io::Result<usize>
        ensures bound { WritesAtMost result buf.now }
        ensures bytes { WriteAppends (W.contents self.old.inner) (W.contents self.new.inner)
            result buf.now }
        ensures given { self.new.texts ≡ self.old.texts }
        ensures failures { self.new.failures
            ≡ next_count_if (takes_nothing result) self.old.failures }
        ensures unheard { UnheardAfter result self.old.unheard self.new.unheard }
        ensures flushed { self.new.flushed ≡ false }
    {
        let result = self.inner.write(buf);
        let failed = match &result {
            Ok(taken) => *taken == 0,
            Err(_) => true,
        };
        self.failures = next_if(failed, self.failures);
        self.unheard = unheard_after(&result, self.unheard);
        self.flushed = false;
        result
    }

    pub(crate) fn flush(&mut self) -> io::Result<()>
        ensures bytes { AddsNothing W.contents self.old self.new }
        ensures given { self.new.texts ≡ self.old.texts }
        ensures failures { self.new.failures ≡ next_count_if (is_err result) self.old.failures }
        ensures unheard { UnheardAfter result self.old.unheard self.new.unheard }
        ensures flushed { self.new.flushed ≡ is_ok result }
    {
        let result = self.inner.flush();
        self.failures = next_if(result.is_err(), self.failures);
        self.unheard = unheard_after(&result, self.unheard);
        self.flushed = result.is_ok();
        result
    }
}

/// Writes all of a text and flushes it. Where the writer fails, at the flush too, a prefix of it was written.
pub fn write_text<W: Write>(writer: &mut WatchedWriter<W>, text: &[u8]) -> Result<(), RunFault>
    ensures all { OnOk result (AddsText W.contents writer.old writer.new text.now) }
    ensures flushed { OnOk result (writer.new.flushed ≡ true) }
    ensures unfailed { OnOk result (writer.new.failures ≡ writer.old.failures) }
    ensures only { IfErr result (λ e. e ≡ faults.Write) }
    ensures failed { result ≡ Err faults.Write → WriteFails writer.old writer.new }
    ensures front { result ≡ Err faults.Write → AddsFront W.contents writer.old writer.new
        text.now }
{
    let mut rest = text;
    while !rest.is_empty() {
        match writer.write(rest) {
            Ok(0) => return Err(RunFault::Write),
            Ok(n) => rest = &rest[n..],
            Err(_) => return Err(RunFault::Write),
        }
    }
    match writer.flush() {
        Ok(()) => Ok(()),
        Err(_) => Err(RunFault::Write),
    }
}
