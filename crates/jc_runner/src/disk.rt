//! The machine's files, with what explanations need of them.
ghost use Rattle.std.specs.Prelude.{◌≡◌, None};

use crate::{Disk, OpenFault, WordsFault, open_fault};
use jc_explain::Kept;
use std::alloc::Global;
use std::fs;
use std::fs::Files;
use std::io::ErrorKind;

/// Whether a fault may have to be explained, or told with others: what is read need not be kept where this is false.
/// Standard error is a terminal or not.
pub fn may_explain(words: &Result<Vec<String>, WordsFault>, at_terminal: bool) -> bool {
    match words {
        Ok(words) => at_terminal
            || words.iter().any(|word| word.as_str().starts_with("--explain")
                || word.as_str() == "--all"),
        Err(_) => false,
    }
}

/// The files of the machine, of which nothing is known. It keeps why the last that did not open did not, and its files
/// keep their bytes, where that is wanted.
#[derive(Drop)]
pub struct KeepingDisk<'a, R> {
    files: &'a R,
    alloc: Global,
    keeps: bool,
    pub(crate) fault: Option<ErrorKind>,
}

impl<'a, R> KeepingDisk<'a, R> {
    /// A disk that was asked for nothing yet.
    pub fn new(alloc: Global, files: &'a R, keeps: bool) -> KeepingDisk<'a, R>
        ensures keeps { result.keeps ≡ keeps }
        ensures fault { result.fault ≡ None }
    {
        KeepingDisk {
            files,
            alloc,
            keeps,
            fault: None,
        }
    }
}

impl<'a, R: Files> Disk for KeepingDisk<'a, R> {
    ghost use Rattle.std.specs.Prelude.{None};

    type File = Kept<R::File>;

    ghost holds = { λ _ _. None };

    ghost asked = { λ _. None };

    fn open(&mut self, path: &str) -> Result<Kept<R::File>, OpenFault> {
        match fs::open(self.files, path) {
            Ok(file) => Ok(Kept::new(self.alloc, file, self.keeps)),
            Err(error) => {
                self.fault = Some(error.kind());
                Err(open_fault(&error))
            }
        }
    }
}
