//! Faults that no file has: callbacks that are not those of the settings, and the lines of all that a run may come to.

use jc_config::ConfigFault;
use jc_hooks::program::ProgramHooks;
use jc_runner::{
    CacheSetup, ProgramFault, RunFault, WatchedReader, WatchedWriter, demonstration, serial,
    write_fault,
};
use jc_trials::{Trouble, no_hooks};
use std::alloc::Global;
use std::io;
use std::io::{ErrorKind, Write};

/// The fault of a run of the demonstration's caches with the callbacks of so many caches, and how much was written.
fn opened_with(alloc: Global, caches: usize) -> Result<(Option<RunFault>, usize), Trouble> {
    let mut hooks: Vec<ProgramHooks> = Vec::new(alloc);
    for _ in 0..caches {
        hooks.push(no_hooks(alloc))?;
    }
    let script: &[u8] = &[];
    let mut reader = WatchedReader::new(script);
    let mut writer = WatchedWriter::new(Vec::new(alloc));
    let settings = demonstration(alloc)?;
    let setup = CacheSetup { settings, seed: 0 };
    let hooks = hooks.as_mut_slice();
    let ran = serial(alloc, setup, hooks, &mut reader, &mut writer);
    Ok((ran.err(), writer.into_inner().len()))
}

#[test]
fn callbacks_of_other_caches_do_not_open(rt: HostRuntime) -> Result<(), Trouble> {
    for caches in [0, 1, 3] {
        let wanted = (Some(RunFault::Open), 0);
        assert_eq!(rt; opened_with(rt.alloc(), caches)?, wanted);
    }
    Ok(())
}

/// A writer that takes so many bytes, one at a time, and then fails.
#[derive(Drop)]
struct FailingWriter {
    left: usize,
    taken: Vec<u8>,
}

impl Write for FailingWriter {
    fn write(&mut self, buf: &[u8]) -> io::Result<usize> {
        if self.left == 0 {
            return Err(io::Error::from(ErrorKind::BrokenPipe));
        }
        if buf.is_empty() {
            return Ok(0);
        }
        self.left -= 1;
        match self.taken.push(buf[0]) {
            Ok(()) => Ok(1),
            Err(_) => Err(io::Error::from(ErrorKind::OutOfMemory)),
        }
    }

    fn flush(&mut self) -> io::Result<()> {
        Ok(())
    }
}

/// Faults, and the line that tells of each.
static LINES: [(ProgramFault, &str); 7] = [
    (
        ProgramFault::Config(ConfigFault::TooLong),
        "config: too long\n",
    ),
    (
        ProgramFault::Config(ConfigFault::OutOfMemory),
        "out of memory\n",
    ),
    (ProgramFault::Run(RunFault::TooLong), "script: too long\n"),
    (
        ProgramFault::Run(RunFault::Open),
        "manager: cannot be opened\n",
    ),
    (
        ProgramFault::Run(RunFault::Close),
        "sessions and transcript differ\n",
    ),
    (
        ProgramFault::Run(RunFault::Write),
        "report: cannot be written\n",
    ),
    (ProgramFault::Run(RunFault::Memory), "out of memory\n"),
];

#[test]
fn faults_have_their_lines(rt: HostRuntime) -> Result<(), Trouble> {
    for (fault, line) in &LINES {
        for left in 0..=line.len() {
            let taken = Vec::new(rt.alloc());
            let mut writer = WatchedWriter::new(FailingWriter { left, taken });
            assert_eq!(rt; write_fault(fault, &mut writer), left == line.len());
            assert_eq!(rt;
                writer.into_inner().taken.as_slice(),
                &line.as_bytes()[..left]
            );
        }
    }
    Ok(())
}
