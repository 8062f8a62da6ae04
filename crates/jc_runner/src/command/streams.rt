//! The files that the program opens, and its standard streams.

ghost use Rattle.std.specs.Prelude.{◌≡◌, None, false};
ghost use Rattle.jc_cli.specs.Watching.{unread_reader, unused_writer};

use jc_cli::{WatchedReader, WatchedWriter};
use std::io::{Read, Write};

/// The files of a run, as far as they were opened, and how they were read.
#[derive(Drop)]
pub struct Opened<F> {
    pub config: Option<WatchedReader<F>>,
    pub script: Option<WatchedReader<F>>,
}

/// The disk on which the files of a run lie, and the files as far as they were opened.
#[derive(Drop)]
pub struct RunFiles<D, F> {
    pub disk: D,
    pub opened: Opened<F>,
}

/// The standard streams; standard error is a terminal or not.
#[derive(Drop)]
pub struct Standard<I, O, E> {
    pub input: WatchedReader<I>,
    pub output: WatchedWriter<O>,
    pub errors: WatchedWriter<E>,
    pub at_terminal: bool,
}

impl<F> Opened<F> {
    /// No file was opened yet.
    pub fn none() -> Opened<F>
        ensures { result ≡ record { config = None; script = None } }
    {
        Opened {
            config: None,
            script: None,
        }
    }
}

impl<I: Read, O: Write, E: Write> Standard<I, O, E> {
    /// Streams that were not used yet, none of them a terminal.
    pub fn new(input: I, output: O, errors: E) -> Standard<I, O, E>
        ensures { result ≡ record {
          input = unread_reader input;
          output = unused_writer output;
          errors = unused_writer errors;
          at_terminal = false;
        } }
    {
        Standard {
            input: WatchedReader::new(input),
            output: WatchedWriter::new(output),
            errors: WatchedWriter::new(errors),
            at_terminal: false,
        }
    }
}
