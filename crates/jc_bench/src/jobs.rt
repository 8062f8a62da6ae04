//! The threads of a run, each with a session of its own.
use crate::asking::{Came, Counts, Task, WRITTEN, ask_often, write_meanwhile};
use crate::caches::{Span, create_all, fill, ids_of, numbered_keys};
use crate::delays::Delays;
use crate::fault::Fault;
use crate::timing::Moment;
use crate::words::{Kind, Managers, Size};
use jc_model::key::Key;
use jc_shards::{Seats, ShardMap};
use std::alloc::Global;
use std::sync::Wait;
use std::sync::atomic::{AtomicU32, Ordering};
use std::thread::{Threads, map_vec};
use std::time::{Clock, CpuClock};

/// What all threads do.
#[derive(Clone, Copy)]
pub struct Run<'a> {
    pub dealing: &'a ShardMap,
    pub kind: Kind,
    pub size: Size,
    pub managers: Managers,
}

/// What one thread is given.
#[derive(Drop)]
struct Job<'a, S: Seats> {
    seats: &'a S,
    dealing: &'a ShardMap,
    kind: Kind,
    caches: Span,
    keys: &'a [Key],
    size: Size,
    /// The number that its picks follow.
    first: u64,
    /// How many threads that are no writers are not done yet.
    busy: &'a AtomicU32,
}

/// What one thread did, and how long it took.
#[derive(Clone, Copy)]
pub struct Done {
    pub kind: Kind,
    pub came: Came,
    pub took: Moment,
}

/// Does this task in a session of its own. Where none is given any more, it says so.
fn ask_in_session<S: Seats, R: Wait + Clock>(
    rt: &R,
    alloc: Global,
    job: &Job<'_, S>,
    task: Task,
    came: &mut Came,
) -> bool {
    let Ok(mut seat) = job.seats.seat(rt) else {
        return false;
    };
    let Ok(caches) = ids_of(rt, alloc, &seat, job.dealing, job.caches) else {
        return false;
    };
    let asked = (caches.as_slice(), job.keys);
    ask_often(rt, alloc, &mut seat, task, asked, came);
    true
}

/// Asks in its sessions, one after the other.
fn ask_in_turn<S: Seats, R: Wait + Clock>(
    rt: &R,
    alloc: Global,
    job: &Job<'_, S>,
    came: &mut Came,
) {
    let calls = job.size.calls / job.size.sessions.max(1);
    for turn in 0..job.size.sessions {
        let task = Task {
            kind: job.kind,
            calls,
            between: job.size.between,
            timed: job.size.timed,
            first: job.first.wrapping_add(turn as u64),
        };
        if !ask_in_session(rt, alloc, job, task, came) {
            return;
        }
    }
}

/// Writes in a session of its own, where it is given one.
fn write_in_session<S: Seats, R: Wait>(
    rt: &R,
    alloc: Global,
    job: &Job<'_, S>,
    counts: &mut Counts,
) {
    let Ok(mut seat) = job.seats.seat(rt) else {
        return;
    };
    let Ok(caches) = ids_of(rt, alloc, &seat, job.dealing, job.caches) else {
        return;
    };
    if let [cache, ..] = caches.as_slice() {
        write_meanwhile(rt, alloc, &mut seat, *cache, job.keys, job.busy, counts);
    }
}

fn work<S: Seats, R: Wait + Clock + CpuClock>(rt: &R, alloc: Global, job: Job<'_, S>) -> Done {
    let mut came = Came {
        counts: Counts::none(),
        delays: Delays::none(),
    };
    let began = Moment::now(rt);
    match job.kind {
        Kind::Write => write_in_session(rt, alloc, &job, &mut came.counts),
        _ => ask_in_turn(rt, alloc, &job, &mut came),
    }
    let took = Moment::now(rt).since(began);
    if job.kind != Kind::Write {
        job.busy.fetch_sub(1, Ordering::SeqCst);
    }
    Done {
        kind: job.kind,
        came,
        took,
    }
}

/// The keys of a run.
#[derive(Drop)]
struct Keys {
    /// Those that are asked for.
    asked: Vec<Key>,
    /// Those of the writers.
    written: Vec<Key>,
}

fn keys_of(alloc: Global, kind: Kind, size: Size) -> Result<Keys, Fault> {
    let front = if kind == Kind::Miss { "mis" } else { "key" };
    Ok(Keys {
        asked: numbered_keys(alloc, front, size.rows)?,
        written: numbered_keys(alloc, "own", WRITTEN)?,
    })
}

/// All caches.
fn all_caches(size: Size) -> Span {
    Span {
        first: 0,
        count: size.caches,
    }
}

/// The caches of the thread with this number: all, or one of its own as far as there are enough.
fn caches_of(size: Size, number: u32) -> Span {
    if size.apart {
        Span {
            first: number % size.caches.max(1),
            count: 1,
        }
    } else {
        all_caches(size)
    }
}

/// A job for each thread. Writers ask the first cache.
fn jobs<'a, S: Seats>(
    alloc: Global,
    seats: &'a S,
    run: &'a Run<'a>,
    keys: &'a Keys,
    busy: &'a AtomicU32,
) -> Result<Vec<Job<'a, S>>, Fault> {
    let size = run.size;
    let mut jobs = Vec::new(alloc);
    for number in 0..size.threads.wrapping_add(size.writers) {
        let asks = number < size.threads;
        jobs.push(Job {
            seats,
            dealing: run.dealing,
            kind: if asks { run.kind } else { Kind::Write },
            caches: if asks {
                caches_of(size, number)
            } else {
                all_caches(size)
            },
            keys: if asks {
                keys.asked.as_slice()
            } else {
                keys.written.as_slice()
            },
            size,
            first: number as u64,
            busy,
        })?;
    }
    Ok(jobs)
}

/// Creates the caches where the opening has none, in a session that ends with that.
fn create_caches<S: Seats, R: Wait>(
    rt: &R,
    alloc: Global,
    seats: &S,
    run: Run<'_>,
) -> Result<(), Fault> {
    if !run.size.created {
        return Ok(());
    }
    let seat = seats.seat(rt)?;
    create_all(rt, alloc, &seat, run.dealing, (run.size, run.managers))
}

/// Fills the caches, in a session that ends with that.
fn fill_caches<S: Seats, R: Wait>(
    rt: &R,
    alloc: Global,
    seats: &S,
    run: Run<'_>,
) -> Result<(), Fault> {
    let mut seat = seats.seat(rt)?;
    let caches = ids_of(rt, alloc, &seat, run.dealing, all_caches(run.size))?;
    fill(rt, alloc, &mut seat, caches.as_slice(), run.size)
}

/// Fills the caches, and does it on all threads. The result has what each thread did, the writers last.
pub fn time_threads<S: Seats + Send + Sync, R: Threads + Wait + Clock + CpuClock + Sync>(
    rt: &R,
    alloc: Global,
    seats: &S,
    run: Run<'_>,
) -> Result<Vec<Done>, Fault> {
    create_caches(rt, alloc, seats, run)?;
    fill_caches(rt, alloc, seats, run)?;
    let keys = keys_of(alloc, run.kind, run.size)?;
    let busy = AtomicU32::new(run.size.threads);
    let jobs = jobs(alloc, seats, &run, &keys, &busy)?;
    Ok(map_vec(rt, jobs, &|job| work(rt, alloc, job))?)
}
