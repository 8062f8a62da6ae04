//! A life's counters: its calls made again on a manager of its cache alone.
ghost use Rattle.std.specs.Prelude.{◌≡◌, ◌∷◌, [], false, None, IfOk, OnOk};
ghost use Rattle.std.specs.FinMap as finite;
ghost use Rattle.jc_cuckoo.specs.Cells.{rows_in};
ghost use Rattle.jc_engine.specs.Caches.{lives_of};
ghost use Rattle.jc_engine.specs.Opening.{open_refusal};
ghost use Rattle.jc_model.specs.Legal.{IsLegalFrom};
ghost use Rattle.jc_model.specs.Runs.{for_memory, fresh, opened_from};
ghost use Rattle.jc_model.specs.declared.event.Event.TheVariants.{Begin, Answer as Answered, GiveUp};
ghost use Rattle.jc_model.specs.declared.event.Outcome.TheVariants.{Refused};
ghost use Rattle.jc_report.specs.Again.{after_event, after_answers, after_entry, after_entries, counts_in};
ghost use Rattle.jc_report.specs.Totals.{counts_after, entries_lent};

use jc_cuckoo::cuckoo::{Cuckoo, TableRefusal};
use jc_cuckoo::mirror::NoMirror;
use jc_engine::engine::Engine;
use jc_engine::open::OpenRefusal;
use jc_model::OutOfMemory;
use jc_model::call::{Answer, Call, Counts, Reply};
use jc_model::config::CacheConfig;
use jc_model::event::{CacheId, Cause, End, Entry, Step};
use jc_model::share::Share;
use jc_place::seeded::SeededPlacer;
use jc_ring::link_ring::LinkRing;
use jc_ring::ring::Ring;
use jc_rows::rows::Rows;
use std::alloc::{AllocError, Global};

/// How many buckets a table has at first.
const BUCKETS: u32 = 64;

/// A table without rows. The seed picks the places of its rows.
fn table(alloc: Global, seed: u64) -> Result<Cuckoo<SeededPlacer, NoMirror>, OutOfMemory>
    ensures { IfOk result (λ table. rows_in table.cells ≡ finite.empty) }
{
    match Cuckoo::new(alloc, SeededPlacer::new(seed), NoMirror, BUCKETS) {
        Ok(table) => Ok(table),
        Err(TableRefusal::OutOfMemory) => Err(AllocError),
        Err(TableRefusal::BadBuckets) => unreachable!(),
    }
}

/// A manager of this cache alone, over an empty table.
fn open_engine<R: Rows>(
    alloc: Global,
    rows: R,
    config: &CacheConfig,
) -> Result<Engine<R, LinkRing>, OutOfMemory>
    requires empty { R.contents rows ≡ finite.empty }
    requires opens { open_refusal (config.now ∷ []) ≡ None }
    ensures { IfOk result (λ engine. lives_of engine ≡ opened_from 0 (config.now ∷ [])) }
{
    let mut configs = Vec::new(alloc);
    configs.push(config.share()?)?;
    match Engine::open(alloc, rows, configs) {
        Ok(engine) => Ok(engine),
        Err(OpenRefusal::OutOfMemory) => Err(AllocError),
        Err(_) => unreachable!(),
    }
}

/// Ends the replay where memory was refused. Any other refusal is an outcome.
fn unless_memory(cause: Cause) -> Result<(), OutOfMemory>
    ensures { OnOk result (for_memory (Refused cause) ≡ false) }
{
    match cause {
        Cause::OutOfMemory => Err(AllocError),
        _ => Ok(()),
    }
}

/// Begins a call on the manager's one cache.
#[tactic(auto, unfolding(crate::specs::Again::after_event))]
fn begin<R: Rows, G: Ring>(
    engine: &mut Engine<R, G>,
    at: u64,
    call: Call,
) -> Result<(), OutOfMemory>
    ensures { OnOk result (lives_of engine.new
        ≡ after_event (lives_of engine.old) (Begin 0 at call)) }
{
    match engine.begin(CacheId::new(0), at, call) {
        Ok(step) => {
            drop(step);
            Ok(())
        }
        Err((cause, call)) => {
            drop(call);
            unless_memory(cause)
        }
    }
}

/// Answers its open call.
#[tactic(auto, unfolding(crate::specs::Again::after_event))]
fn answer<R: Rows, G: Ring>(engine: &mut Engine<R, G>, answer: Answer) -> Result<(), OutOfMemory>
    ensures { OnOk result
        (lives_of engine.new ≡ after_event (lives_of engine.old) (Answered 0 answer)) }
{
    match engine.resume(CacheId::new(0), answer) {
        Ok(step) => {
            drop(step);
            Ok(())
        }
        Err((cause, answer)) => {
            drop(answer);
            unless_memory(cause)
        }
    }
}

/// Gives its open call up, if it has one.
#[tactic(auto, unfolding(crate::specs::Again::after_event))]
fn give_up<R: Rows, G: Ring>(engine: &mut Engine<R, G>)
    ensures { lives_of engine.new ≡ after_event (lives_of engine.old) (GiveUp 0) }
{
    match engine.give_up(CacheId::new(0)) {
        Ok(left) => drop(left),
        Err(_) => {}
    }
}

fn answer_all<R: Rows, G: Ring>(
    engine: &mut Engine<R, G>,
    answers: &[Answer],
) -> Result<(), OutOfMemory>
    ensures { OnOk result (lives_of engine.new ≡ after_answers (lives_of engine.old) answers.now) }
{
    for given in answers {
        answer(engine, given.share()?)?;
    }
    Ok(())
}

/// Makes the call of an entry again.
fn make<R: Rows, G: Ring>(engine: &mut Engine<R, G>, entry: &Entry) -> Result<(), OutOfMemory>
    ensures { OnOk result (lives_of engine.new ≡ after_entry (lives_of engine.old) entry.now) }
{
    begin(engine, entry.at, entry.call.share()?)?;
    answer_all(engine, entry.answers.items())?;
    if let End::GivenUp = entry.end {
        give_up(engine);
    }
    Ok(())
}

fn make_all<R: Rows, G: Ring>(
    engine: &mut Engine<R, G>,
    entries: &[&Entry],
) -> Result<(), OutOfMemory>
    ensures { OnOk result (lives_of engine.new
        ≡ after_entries (lives_of engine.old) (entries_lent entries.now)) }
{
    for entry in entries {
        make(engine, entry)?;
    }
    Ok(())
}

/// The counters of the manager's one cache.
fn read_counts<R: Rows, G: Ring>(engine: &mut Engine<R, G>) -> Option<Counts>
    ensures { result ≡ counts_in (lives_of engine.old) }
{
    match engine.begin(CacheId::new(0), 0, Call::Stats) {
        Ok(Step::Done(Reply::Counted(counts))) => Some(counts),
        _ => None,
    }
}

/// The counters of a cache after these calls, which are legal.
pub fn counts_after(
    alloc: Global,
    seed: u64,
    config: &CacheConfig,
    entries: &[&Entry],
) -> Result<Counts, OutOfMemory>
    requires opens { open_refusal (config.now ∷ []) ≡ None }
    requires legal { IsLegalFrom config.now fresh (entries_lent entries.now) }
    ensures { IfOk result (λ counts. counts ≡ counts_after config.now (entries_lent entries.now)) }
{
    let mut engine = open_engine(alloc, table(alloc, seed)?, config)?;
    make_all(&mut engine, entries)?;
    give_up(&mut engine);
    match read_counts(&mut engine) {
        Some(counts) => Ok(counts),
        None => unreachable!(),
    }
}
