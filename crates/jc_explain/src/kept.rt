//! A reader that keeps what an explanation needs.
ghost use Rattle.std.specs.Prelude.{◌≡◌, take, option_map, IfOk, IfErr, Some, None, []};
ghost use Rattle.std.specs.Io.{ReadsAtMost};
ghost use Rattle.std.specs.Io.KnownBytes.{ReadConsumes};
ghost use Rattle.std.specs.IoError.{error_kind};
ghost use Rattle.jc_explain.specs.Kept.{kept_in, KeepsMore, Stays};

use std::alloc::Global;
use std::io;
use std::io::{ErrorKind, Read};

/// A reader with the bytes that were read, where they are to be kept, and why its last read failed, if one did.
///
/// For want of memory it ceases to keep bytes, drops those that it has, and never begins again.
#[derive(Drop)]
pub struct Kept<R> {
    inner: R,
    bytes: Vec<u8>,
    keeps: bool,
    fault: Option<ErrorKind>,
}

impl<R> Kept<R> {
    /// A reader that was not read yet.
    pub fn new(alloc: Global, inner: R, keeps: bool) -> Kept<R>
        ensures inner { result.inner ≡ inner }
        ensures bytes { result.bytes.items ≡ [] }
        ensures keeps { result.keeps ≡ keeps }
        ensures fault { result.fault ≡ None }
    {
        Kept {
            inner,
            bytes: Vec::new(alloc),
            keeps,
            fault: None,
        }
    }

    /// The bytes that were read, where they were kept.
    pub fn bytes(&self) -> Option<&[u8]>
        ensures { option_map (λ bytes. bytes.now) result
            ≡ kept_in self.now.keeps self.now.bytes.items }
    {
        if self.keeps {
            Some(self.bytes.as_slice())
        } else {
            None
        }
    }

    /// Why its last read failed, if one did.
    pub fn fault(&self) -> Option<ErrorKind>
        ensures { result ≡ self.now.fault }
    {
        self.fault
    }

    /// Keeps more bytes.
    fn keep(&mut self, more: &[u8])
        ensures inner { self.new.inner ≡ self.old.inner }
        ensures bytes { KeepsMore self.old.keeps self.new.keeps more.now
            self.old.bytes.items self.new.bytes.items }
        ensures fault { self.new.fault ≡ self.old.fault }
    {
        if self.keeps && self.bytes.extend_from_slice(more).is_err() {
            self.keeps = false;
            self.bytes.clear();
        }
    }
}

impl<R: Read> Read for Kept<R> {
    ghost remaining = { λ k. R.remaining k.inner };

    fn read(&mut self, buf: &mut [u8]) -> io::Result<usize>
        ensures bound { ReadsAtMost result buf.new }
        ensures bytes { ReadConsumes (R.remaining self.old.inner) (R.remaining self.new.inner)
            result buf.new }
        ensures kept { IfOk result (λ n. KeepsMore self.old.keeps self.new.keeps (take n buf.new)
            self.old.bytes.items self.new.bytes.items) }
        ensures unread { IfErr result (λ e. Stays self.old.keeps self.new.keeps
            self.old.bytes.items self.new.bytes.items) }
        ensures answered { IfOk result (λ n. self.new.fault ≡ self.old.fault) }
        ensures fault { IfErr result (λ e. self.new.fault ≡ Some (error_kind e)) }
    {
        match self.inner.read(buf) {
            Ok(n) => {
                self.keep(&buf[..n]);
                Ok(n)
            }
            Err(error) => {
                self.fault = Some(error.kind());
                Err(error)
            }
        }
    }
}
