//! A disk, which opens files by their paths, and the machine's own.
ghost use Rattle.std.specs.Prelude.{◌≡◌, ◌≢◌, ◌↔◌, IsTrue};
ghost use Rattle.std.specs.IoError.{error_kind};

use std::fs;
use std::fs::Files;
use std::io::{Error, ErrorKind, Read};

/// Why a file does not open.
#[derive(Clone, Copy, Debug, PartialEq, Eq)]
pub enum OpenFault {
    Unreadable,
    OutOfMemory,
}

/// Opens files by their paths.
///
/// It states what a path holds, where that is known: nothing that opens, or these bytes. It also states, where that
/// is known, which paths it was asked for, in order.
pub trait Disk {
    ghost use Rattle.std.specs.Prelude.{◌≡◌, ℕ, List, Option, IfOk, Err};
    ghost use Rattle.jc_runner.specs.Disks.{IsFileFound, MayBeMissing, AsksForPath};
    ghost use Rattle.jc_runner.specs.declared.files.disk.OpenFault.TheVariants.{Unreadable};

    type File: Read + Drop;

    ghost holds: { Self → List ℕ → Option (Option (List ℕ)) };

    ghost asked: { Self → Option (List (List ℕ)) };

    fn open(&mut self, path: &str) -> Result<Self::File, OpenFault>
        ensures found { IfOk result (λ file.
            IsFileFound (holds self.old path.now) (Self.File.remaining file)) }
        ensures missing { result ≡ Err Unreadable → MayBeMissing (holds self.old path.now) }
        ensures same { (other : List ℕ) → holds self.new other ≡ holds self.old other }
        ensures asked { AsksForPath (asked self.old) (asked self.new) path.now };
}

/// Whether a fault is that memory was refused.
pub(crate) fn is_of_memory(error: &Error) -> bool
    ensures { IsTrue result ↔ (error_kind error.now ≡ ErrorKind.OutOfMemory) }
{
    matches!(error.kind(), ErrorKind::OutOfMemory)
}

/// The fault of a file that the machine does not open.
pub fn open_fault(error: &Error) -> OpenFault
    ensures memory { error_kind error.now ≡ ErrorKind.OutOfMemory → result ≡ OpenFault.OutOfMemory }
    ensures others { error_kind error.now ≢ ErrorKind.OutOfMemory → result ≡ OpenFault.Unreadable }
{
    if is_of_memory(error) {
        OpenFault::OutOfMemory
    } else {
        OpenFault::Unreadable
    }
}

/// The files of the machine, of which nothing is known.
#[derive(Drop)]
pub struct HostDisk<'a, R> {
    pub files: &'a R,
}

impl<'a, R: Files> Disk for HostDisk<'a, R> {
    ghost use Rattle.std.specs.Prelude.{None};

    type File = R::File;

    ghost holds = { λ _ _. None };

    ghost asked = { λ _. None };

    fn open(&mut self, path: &str) -> Result<R::File, OpenFault> {
        match fs::open(self.files, path) {
            Ok(file) => Ok(file),
            Err(error) => Err(open_fault(&error)),
        }
    }
}
