//! The program over words, a disk and the standard streams; below it a script over a reader and a writer, in its lines'
//! order or by workers; and over the machine's files, where a fault is explained if that is asked for.
#![tactic(auto)]

mod callbacks;
mod command;
mod disk;
mod every;
mod explaining;
mod files;
mod form;
mod laws;
mod serial_run;
mod telling;
mod threaded_run;

pub use callbacks::all_suit;
pub use command::demonstration::demonstration;
pub use command::streams::{Opened, RunFiles, Standard};
pub use command::words::words_of;
pub use command::{dispatch, program};
pub use disk::{KeepingDisk, may_explain};
pub use files::check::check_files;
pub use files::configuration::read_configuration;
pub use files::disk::{Disk, HostDisk, OpenFault, open_fault};
pub use files::replay::replay_file;
pub use files::run_files;
pub use form::{Form, Script};
pub use jc_cli::{
    Asked, Check, Ended, Ending, Explain, Format, ProgramFault, Replay, Run, RunFault,
    WatchedReader, WatchedWriter, WordsFault, greet, read_bytes, read_words, say, write_fault,
};
pub use laws::{alone_is_one_report, apart_is_alone, serial_is_alone};
pub use serial_run::{CacheSetup, report_on, serial};
pub use telling::run_program;
pub use threaded_run::{Crew, Setup, threaded};
