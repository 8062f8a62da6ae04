//! The command line, and the streams around a run: what its words ask for; what is read and written, with an account of
//! it; the faults of a run and of the program; and how the program ends, and what it says then.
#![tactic(auto)]

mod asked;
mod capacities;
mod clash;
mod command;
mod ending;
mod explain;
mod fault;
mod format;
mod given;
mod help;
mod hint;
mod input;
mod no_text;
mod note;
mod number;
mod output;
mod reading;
mod refusal;
mod run;

pub use asked::{Asked, Check, Replay};
pub use clash::{Clash, is_input};
pub use ending::{Ended, Ending, WordsFault, ending_in, ending_of, ending_of_check, greet, say};
pub use explain::explains;
pub use fault::{ProgramFault, RunFault, fault_text, is_of_config, write_fault};
pub use given::told_of_words;
pub use input::{WatchedReader, read_bytes};
pub use no_text::no_text_mistake;
pub use output::{WatchedWriter, write_text};
pub use reading::read_words;
pub use refusal::{asks_to_explain, mistake_text};
pub use run::{Explain, Format, Run};
