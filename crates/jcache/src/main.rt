//! The program: it reads a configuration and a script of cache calls, runs them, and prints the report.
//!
//! Without words the script is read from standard input and run on the demonstration's caches.
#![tactic(auto)]

use jc_explain::Kept;
use jc_runner::{
    KeepingDisk, Opened, RunFiles, Standard, greet, may_explain, run_program, words_of,
};
use std::io::IsTerminal;
use std::process::ExitCode;

fn main(rt: HostRuntime) -> ExitCode {
    let alloc = rt.alloc();
    let at_terminal = rt.stderr().is_terminal();
    let words = words_of(&rt, at_terminal);
    let keeps = may_explain(&words, at_terminal);
    let mut files = RunFiles {
        disk: KeepingDisk::new(alloc, &rt, keeps),
        opened: Opened::none(),
    };
    let input = Kept::new(alloc, rt.stdin(), keeps);
    let mut standard = Standard::new(input, rt.stdout(), rt.stderr());
    standard.at_terminal = at_terminal;
    greet(&words, rt.stdin().is_terminal(), &mut standard.errors);
    let ended = run_program(&rt, alloc, words, &mut files, &mut standard);
    ExitCode::from(ended.status)
}
