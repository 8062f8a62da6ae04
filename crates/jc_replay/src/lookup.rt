//! One key of a trace on a cache.
ghost use Rattle.std.specs.Prelude.{◌≡◌, false, IfOk, OnOk, []};
ghost use Rattle.jc_model.specs.Runs.{for_memory};
ghost use Rattle.jc_model.specs.declared.event.Outcome.TheVariants.{Step as Stepped, Refused};
ghost use Rattle.jc_engine.specs.Caches.{lives_of};
ghost use Rattle.jc_replay.specs.Hits.{is_value, hits, lives_after_event, lives_after_key, lookup, filling};

use jc_engine::engine::Engine;
use jc_model::OutOfMemory;
use jc_model::call::{Call, Reply};
use jc_model::event::{CacheId, Cause, Step};
use jc_model::key::Key;
use jc_model::value::Value;
use jc_ring::ring::Ring;
use jc_rows::rows::Rows;
use std::alloc::AllocError;

fn is_value(step: &Step) -> bool
    ensures { result ≡ is_value (Stepped step.now) }
{
    matches!(step, Step::Done(Reply::Found(Some(_))))
}

/// Ends the replay where memory was refused. Any other refusal is an outcome, and no value.
fn unless_memory(cause: Cause) -> Result<(), OutOfMemory>
    ensures { OnOk result (for_memory (Refused cause) ≡ false) }
{
    match cause {
        Cause::OutOfMemory => Err(AllocError),
        _ => Ok(()),
    }
}

/// Looks a key up, and tells whether a value was found.
#[tactic(auto, unfolding(crate::specs::Hits::hits, crate::specs::Hits::lives_after_event))]
fn look_up<R: Rows, G: Ring>(engine: &mut Engine<R, G>, key: Key) -> Result<bool, OutOfMemory>
    ensures found { IfOk result (λ found. found ≡ hits (lives_of engine.old) key) }
    ensures lives { OnOk result
        (lives_of engine.new ≡ lives_after_event (lives_of engine.old) (lookup key)) }
{
    match engine.begin(CacheId::new(0), 0, Call::Get(key)) {
        Ok(step) => Ok(is_value(&step)),
        Err((cause, call)) => {
            drop(call);
            unless_memory(cause)?;
            Ok(false)
        }
    }
}

/// Puts this empty value under a key.
#[tactic(auto, unfolding(crate::specs::Hits::lives_after_event))]
fn fill<R: Rows, G: Ring>(
    engine: &mut Engine<R, G>,
    key: Key,
    empty: Value,
) -> Result<(), OutOfMemory>
    requires { empty ≡ [] }
    ensures { OnOk result
        (lives_of engine.new ≡ lives_after_event (lives_of engine.old) (filling key)) }
{
    match engine.begin(CacheId::new(0), 0, Call::Put(key, empty)) {
        Ok(step) => {
            drop(step);
            Ok(())
        }
        Err((cause, call)) => {
            drop(call);
            unless_memory(cause)
        }
    }
}

/// Looks a key up, puts this empty value under it where there was none, and tells whether there was one.
pub(crate) fn meet<R: Rows, G: Ring>(
    engine: &mut Engine<R, G>,
    key: Key,
    empty: &Value,
) -> Result<bool, OutOfMemory>
    requires { empty.now ≡ [] }
    ensures found { IfOk result (λ found. found ≡ hits (lives_of engine.old) key) }
    ensures lives { OnOk result (lives_of engine.new ≡ lives_after_key (lives_of engine.old) key) }
{
    let found = look_up(engine, key)?;
    if !found {
        fill(engine, key, empty.share()?)?;
    }
    Ok(found)
}
