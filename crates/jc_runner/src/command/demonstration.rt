//! The run without words: the demonstration's caches, and the script on standard input that is run on them.
ghost use Rattle.std.specs.Prelude.{◌≡◌, ◌≢◌, ◌≤◌, true, false, IfOk, Err, length};
ghost use Rattle.jc_model.specs.Limits.{key_bytes};
ghost use Rattle.jc_runner.specs.Demonstration.{demonstration_caches};
ghost use Rattle.jc_cli.specs.Meters.{most_reads, AddsAtMost};
ghost use Rattle.jc_runner.specs.Program.{RunEnds, no_kinds, demonstration as demonstration_read};
ghost use Rattle.jc_cli.specs.declared.fault.RunFault.TheVariants.{Read};
ghost use Rattle.jc_cli.specs.declared.run.Format.TheVariants as formats;

use crate::files::play;
use crate::serial_run::SerialOptions;
use jc_cli::{Format, RunFault, WatchedReader, WatchedWriter};
use jc_config::{Configuration, HookKinds, Settings, plain_cache};
use jc_model::OutOfMemory;
use jc_model::config::Policy;
use jc_model::key::Key;
use jc_model::list::Sequence;
use std::alloc::Global;
use std::io::{Read, Write};

fn key_of(text: &str) -> Key
    requires some { 1 ≤ length text.now }
    requires fits { length text.now ≤ key_bytes }
    ensures { result ≡ text.now }
{
    match Key::from_text(text) {
        Ok(key) => key,
        Err(_) => unreachable!(),
    }
}

/// Two caches without callbacks: `a` has 2 rows that never expire, `b` has 1 row, which expires 100 milliseconds after
/// its creation.
pub fn demonstration(alloc: Global) -> Result<Settings, OutOfMemory>
    ensures { IfOk result (λ s. s ≡ demonstration_caches) }
{
    let mut caches = Vec::new(alloc);
    caches.push(plain_cache(alloc, key_of("a"), 2, Policy::Eternal))?;
    caches.push(plain_cache(alloc, key_of("b"), 1, Policy::Created(100)))?;
    match Settings::new(Sequence::new(caches)) {
        Some(settings) => Ok(settings),
        None => unreachable!(),
    }
}

fn no_kinds(alloc: Global) -> HookKinds
    ensures { result ≡ no_kinds }
{
    HookKinds {
        loader: None,
        writer: None,
        processors: Sequence::new(Vec::new(alloc)),
    }
}

/// The demonstration's two caches, which have no callbacks.
fn demonstration_configuration(alloc: Global) -> Result<Configuration, OutOfMemory>
    ensures { IfOk result (λ c. c ≡ demonstration_read) }
{
    let settings = demonstration(alloc)?;
    let mut hooks = Vec::new(alloc);
    hooks.push(no_kinds(alloc))?;
    hooks.push(no_kinds(alloc))?;
    Ok(Configuration {
        settings,
        hooks: Sequence::new(hooks),
    })
}

/// Runs the script on standard input on the demonstration's caches.
pub(crate) fn demonstrate<I: Read, O: Write>(
    alloc: Global,
    input: &mut WatchedReader<I>,
    output: &mut WatchedWriter<O>,
) -> Result<(), RunFault>
    ensures ends { RunEnds I.remaining O.contents true false formats.Text demonstration_read
        input.old input.new output.old output.new result }
    ensures unfailed { result ≢ Err Read → input.new.failures ≡ input.old.failures }
    ensures reads { AddsAtMost most_reads input.old.reads input.new.reads }
{
    let configuration = demonstration_configuration(alloc)?;
    let options = SerialOptions {
        seed: 0,
        strict: false,
        format: Format::Text,
    };
    play(alloc, configuration, options, input, output)
}
