//! Sessions of a shared manager that make the calls of a script.
ghost use Rattle.std.specs.Prelude.{◌≡◌, map};
ghost use Rattle.jc_locked.specs.Stated.{stated_by};

use jc_hooks::{CacheHooks, FilteredListener, Loader, Processor, Writer};
use jc_model::Transcript;
use jc_model::call::Reply;
use jc_model::config::CacheConfig;
use jc_model::event::{CacheId, End, Entry, Life};
use jc_model::list::Sequence;
use jc_model::share::Share;
use jc_report::report;
use jc_script::{Line, LineCall};
use jc_shared::{CallFault, JournalPolicy, Manager, Name, OpenCalls, Session, Shared};
use jc_trials::{Log, Text, Trouble, seated};
use std::alloc::Global;
use std::marker::Brand;
use std::sync::Wait;

/// Caches with their callbacks.
#[derive(Drop)]
pub(crate) struct Caches<L, W, P, K> {
    pub(crate) configs: Vec<CacheConfig>,
    pub(crate) hooks: Vec<CacheHooks<L, W, P, K>>,
}

/// What so many sessions do: one of them creates caches, and then each makes its calls, and notes a point after each, or
/// `!` where memory was refused.
#[derive(Drop)]
pub(crate) struct Script<'a, L, W, P, K> {
    pub(crate) sessions: u32,
    pub(crate) created: Caches<L, W, P, K>,
    pub(crate) lines: Vec<Line>,
    pub(crate) log: &'a Log,
}

/// Creates caches by the first session. Of one that is refused its calls tell.
fn create_all<N: Name, L: Loader, W: Writer, P: Processor, K: FilteredListener, R: Wait>(
    rt: &R,
    sessions: &[Session<'_, N, L, W, P, K>],
    created: Caches<L, W, P, K>,
) {
    let Some(session) = sessions.first() else {
        return drop(created);
    };
    for (config, hooks) in created.configs.into_iter().zip(created.hooks) {
        drop(session.create(rt, config, hooks));
    }
}

/// What a call is answered.
type Answered = Result<Reply, CallFault>;

fn mark(answered: &Answered) -> &'static [u8] {
    match answered {
        Ok(_) => b".",
        Err(CallFault::OutOfMemory) => b"!",
        Err(_) => b"?",
    }
}

/// Makes a call by its session.
fn make_call<
    N: Name,
    L: Loader,
    W: Writer,
    P: Processor,
    K: FilteredListener,
    J: JournalPolicy,
    R: Wait,
>(rt: &R, sessions: &mut [Session<'_, N, L, W, P, K, J>], made: LineCall) -> Option<Answered> {
    match sessions.get_mut(made.session as usize) {
        Some(session) => Some(session.call(rt, made.id, made.at, made.call)),
        None => {
            drop(made);
            None
        }
    }
}

/// Makes the calls of a script, each by its session.
fn make_all<
    N: Name,
    L: Loader,
    W: Writer,
    P: Processor,
    K: FilteredListener,
    J: JournalPolicy,
    R: Wait,
>(
    rt: &R,
    alloc: Global,
    sessions: &mut [Session<'_, N, L, W, P, K, J>],
    lines: Vec<Line>,
    log: &Log,
) -> Vec<Answered> {
    let mut answers = Vec::new(alloc);
    for line in lines {
        let answered = match line {
            Line::Call(made) => make_call(rt, sessions, made),
            other => {
                drop(other);
                None
            }
        };
        if let Some(answered) = answered {
            log.note(Text::of(mark(&answered)));
            drop(answers.push(answered));
        }
    }
    answers
}

/// Whether an entry tells what its call was answered.
fn agrees(entry: &Entry, answered: &Answered) -> bool {
    match (answered, &entry.end) {
        (Ok(reply), End::Replied(kept)) => reply == kept,
        (Err(CallFault::OutOfMemory), End::GivenUp) => true,
        _ => false,
    }
}

/// The report of a transcript that tells what each call was answered, and how many entries it has.
fn reported(
    alloc: Global,
    transcript: &Transcript,
    answers: &[Answered],
) -> Result<(String, usize), Trouble> {
    let entries = transcript.entries();
    for (entry, answered) in entries.iter().zip(answers) {
        if !agrees(entry, answered) {
            return Err(Trouble::Unexpected);
        }
    }
    if entries.len() != answers.len() {
        return Err(Trouble::Unexpected);
    }
    Ok((report(alloc, transcript, &[])?, entries.len()))
}

/// Follows a script, and closes the manager. The result is the report, and how many entries the transcript has.
fn closed<'a, N: Name, L: Loader, W: Writer, P: Processor, K: FilteredListener, R: Wait>(
    rt: &R,
    alloc: Global,
    manager: &'a Manager<N, L, W, P, K>,
    script: Script<'_, L, W, P, K>,
) -> Result<(String, usize), Trouble> {
    let mut sessions = seated(rt, alloc, manager, script.sessions)?;
    create_all(rt, sessions.as_slice(), script.created);
    let answers = make_all(rt, alloc, sessions.as_mut_slice(), script.lines, script.log);
    match manager.close(rt, sessions) {
        Ok(transcript) => reported(alloc, &transcript, answers.as_slice()),
        Err(_) => Err(Trouble::Unexpected),
    }
}

/// The same, under this name.
fn played<N: Name, L: Loader, W: Writer, P: Processor, K: FilteredListener, R: Wait>(
    rt: &R,
    alloc: Global,
    shared: Shared<L, W, P, K>,
    script: Script<'_, L, W, P, K>,
) -> Result<(String, usize), Trouble>
    requires configs { shared.configs ≡ N.configs }
    requires stated { map (stated_by L.load_of P.verdict_of) shared.shared ≡ N.stated }
    requires index { shared.index ≡ N.index }
{
    let manager = shared.named::<N>();
    closed(rt, alloc, &manager, script)
}

/// The same, under a name that this call picks.
pub(crate) fn play<L: Loader, W: Writer, P: Processor, K: FilteredListener, R: Wait>(
    rt: &R,
    alloc: Global,
    shared: Shared<L, W, P, K>,
    script: Script<'_, L, W, P, K>,
) -> Result<(String, usize), Trouble> {
    played::<Brand, L, W, P, K, R>(rt, alloc, shared, script)
}

/// The entries of calls that have not been made yet.
fn entries_of(alloc: Global, lines: &[Line]) -> Result<Vec<Entry>, Trouble> {
    let mut entries = Vec::new(alloc);
    for line in lines {
        if let Line::Call(made) = line {
            entries.push(Entry {
                session: made.session,
                id: made.id,
                at: made.at,
                call: made.call.share()?,
                answers: Sequence::new(Vec::new(alloc)),
                told: Sequence::new(Vec::new(alloc)),
                end: End::GivenUp,
            })?;
        }
    }
    Ok(entries)
}

/// The report of these calls, as they were answered.
fn reported_of(
    alloc: Global,
    lives: Vec<Life>,
    entries: Vec<Entry>,
    answers: Vec<Answered>,
) -> Result<String, Trouble> {
    let mut transcript = Transcript::new(alloc);
    for life in lives {
        transcript.push_life(life)?;
    }
    for (mut entry, answered) in entries.into_iter().zip(answers) {
        if let Ok(reply) = answered {
            entry.end = End::Replied(reply);
        }
        drop(transcript.push(entry));
    }
    Ok(report(alloc, &transcript, &[])?)
}

/// Follows a script on a manager that keeps the open calls alone, and makes the report of what the calls were answered.
fn answered<N: Name, L: Loader, W: Writer, P: Processor, K: FilteredListener, R: Wait>(
    rt: &R,
    alloc: Global,
    manager: &Manager<N, L, W, P, K, OpenCalls>,
    lives: Vec<Life>,
    script: Script<'_, L, W, P, K>,
) -> Result<String, Trouble> {
    let mut sessions = Vec::new(alloc);
    for _ in 0..script.sessions {
        sessions.push(manager.session(rt)?)?;
    }
    drop(script.created);
    let entries = entries_of(alloc, script.lines.as_slice())?;
    let answers = make_all(rt, alloc, sessions.as_mut_slice(), script.lines, script.log);
    reported_of(alloc, lives, entries, answers)
}

/// The same, under this name.
fn lasted<N: Name, L: Loader, W: Writer, P: Processor, K: FilteredListener, R: Wait>(
    rt: &R,
    alloc: Global,
    shared: Shared<L, W, P, K, OpenCalls>,
    lives: Vec<Life>,
    script: Script<'_, L, W, P, K>,
) -> Result<String, Trouble>
    requires configs { shared.configs ≡ N.configs }
    requires stated { map (stated_by L.load_of P.verdict_of) shared.shared ≡ N.stated }
    requires index { shared.index ≡ N.index }
{
    let manager = shared.named::<N>();
    answered(rt, alloc, &manager, lives, script)
}

/// The report of a script on a manager that keeps the open calls alone, under a name that this call picks.
pub(crate) fn play_lasting<L: Loader, W: Writer, P: Processor, K: FilteredListener, R: Wait>(
    rt: &R,
    alloc: Global,
    shared: Shared<L, W, P, K, OpenCalls>,
    lives: Vec<Life>,
    script: Script<'_, L, W, P, K>,
) -> Result<String, Trouble> {
    lasted::<Brand, L, W, P, K, R>(rt, alloc, shared, lives, script)
}

/// The lives of caches at the opening.
pub(crate) fn first_lives(alloc: Global, configs: &[CacheConfig]) -> Result<Vec<Life>, Trouble> {
    let mut lives = Vec::new(alloc);
    let mut number: u32 = 0;
    for config in configs {
        let id = CacheId::new(number);
        let config = config.share()?;
        lives.push(Life { id, config })?;
        number = number.wrapping_add(1);
    }
    Ok(lives)
}
