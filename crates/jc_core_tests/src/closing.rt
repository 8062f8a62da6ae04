//! How a shared manager opens, gives out sessions, refuses calls and closes, in which order, and what is handed back.
ghost use Rattle.std.specs.Prelude.{◌≡◌, map};
ghost use Rattle.jc_locked.specs.Stated.{stated_by};

use jc_engine::open::OpenRefusal;
use jc_engine::recorded::Recorded;
use jc_hooks::program::{CheckWriter, EchoLoader, ProgramListener, ProgramProcessor};
use jc_hooks::{
    CacheHooks, FilteredListener, ListenerHook, Loader, Processor, TallyListener, Writer,
};
use jc_model::Transcript;
use jc_model::call::{Answer, Call, Reply};
use jc_model::config::CacheConfig;
use jc_model::event::{CacheId, End, Entry};
use jc_model::list::Sequence;
use jc_model::share::Share;
use jc_ring::list_ring::ListRing;
use jc_rows::list_rows::ListRows;
use jc_shared::{
    AllCalls, CallFault, CloseFault, Manager, Name, Session, SessionLog, SessionRefusal, Shared,
    SharedRefusal, audit,
};
use jc_trials::{Trouble, done, is, key, no_hooks, plain_cache, seated, value_of};
use std::alloc::Global;
use std::marker::Brand;
use std::sync::Wait;

type Hooks = CacheHooks<EchoLoader, CheckWriter, ProgramProcessor, ProgramListener>;

/// A cache with a loader, a writer, a processor that wants the value, and a listener.
fn full_cache(alloc: Global, name: &str, capacity: u32) -> Result<CacheConfig, Trouble> {
    let mut config = plain_cache(alloc, name, capacity)?;
    config.loader = true;
    config.writer = true;
    config.processors = Sequence::new(Vec::from_array(alloc, [true])?);
    config.listeners = 1;
    Ok(config)
}

/// Its callbacks, but for the one of this number.
fn hooks_but(alloc: Global, left_out: u32) -> Result<Hooks, Trouble> {
    let mut hooks: Hooks = no_hooks(alloc);
    if left_out != 2 {
        hooks.processors.push(ProgramProcessor::Append)?;
    }
    if left_out != 3 {
        hooks
            .listeners
            .push(ListenerHook::unfiltered(TallyListener::new()))?;
    }
    if left_out != 0 {
        hooks.loader = Some(EchoLoader);
    }
    if left_out != 1 {
        hooks.writer = Some(CheckWriter);
    }
    Ok(hooks)
}

/// The capacity of two caches, which callback each lacks (4: none), how many have callbacks, and why they do not open.
static OPENINGS: [(u32, (u32, u32), usize, Option<SharedRefusal>); 9] = [
    (4, (4, 4), 2, None),
    (
        0,
        (0, 4),
        2,
        Some(SharedRefusal::Caches(OpenRefusal::BadCapacity { cache: 0 })),
    ),
    (4, (0, 1), 2, Some(SharedRefusal::HooksDiffer { cache: 0 })),
    (4, (4, 0), 2, Some(SharedRefusal::HooksDiffer { cache: 1 })),
    (4, (4, 1), 2, Some(SharedRefusal::HooksDiffer { cache: 1 })),
    (4, (4, 2), 2, Some(SharedRefusal::HooksDiffer { cache: 1 })),
    (4, (4, 3), 2, Some(SharedRefusal::HooksDiffer { cache: 1 })),
    (4, (4, 4), 1, Some(SharedRefusal::HooksDiffer { cache: 1 })),
    (4, (4, 4), 3, Some(SharedRefusal::HooksDiffer { cache: 2 })),
];

/// Two such caches.
fn full_caches(alloc: Global, capacity: u32) -> Result<Vec<CacheConfig>, Trouble> {
    let mut configs = Vec::new(alloc);
    for name in ["a", "b"] {
        configs.push(full_cache(alloc, name, capacity)?)?;
    }
    Ok(configs)
}

/// The callbacks of so many caches, the first two of which lack these.
fn hooks_of(alloc: Global, left_out: (u32, u32), count: usize) -> Result<Vec<Hooks>, Trouble> {
    let mut hooks = Vec::new(alloc);
    for lacks in [left_out.0, left_out.1, 4].iter().take(count) {
        hooks.push(hooks_but(alloc, *lacks)?)?;
    }
    Ok(hooks)
}

#[test]
fn managers_open_over_the_callbacks_that_are_named(rt: HostRuntime) -> Result<(), Trouble> {
    let alloc = rt.alloc();
    for (number, (capacity, left_out, count, refusal)) in OPENINGS.iter().enumerate() {
        let configs = full_caches(alloc, *capacity)?;
        let hooks = hooks_of(alloc, *left_out, *count)?;
        let refused = Shared::<_, _, _, _, AllCalls>::open(alloc, configs, hooks, 7).err();
        assert_eq!(rt; &refused, refusal, "{number}");
    }
    Ok(())
}

/// What a session of a manager of one plain cache is answered, at calls that are refused and one that is not.
fn answers<N: Name, L: Loader, W: Writer, P: Processor, K: FilteredListener, R: Wait>(
    rt: &R,
    alloc: Global,
    session: &mut Session<'_, N, L, W, P, K>,
) -> Result<[bool; 3], Trouble> {
    let (a, b, key) = (CacheId::new(0), CacheId::new(1), key("k")?);
    let (argument, value) = (value_of(alloc, "")?, value_of(alloc, "1")?);
    let invoke = Call::Invoke {
        key,
        processor: 0,
        argument,
    };
    Ok([
        is(
            session.call(rt, b, 0, Call::Stats),
            Err(CallFault::NoSuchCache),
        ),
        is(
            session.call(rt, a, 0, invoke),
            Err(CallFault::NoSuchProcessor),
        ),
        is(
            session.call(rt, a, 0, Call::Put(key, value)),
            Ok(Reply::Done),
        ) && session.number() == 63,
    ])
}

/// Whether a manager is not closed without the last of its sessions and hands the others back, and all of them.
fn without_last<'a, N: Name, L: Loader, W: Writer, P: Processor, K: FilteredListener, R: Wait>(
    rt: &R,
    manager: &'a Manager<N, L, W, P, K>,
    mut sessions: Vec<Session<'a, N, L, W, P, K>>,
) -> Result<(bool, Vec<Session<'a, N, L, W, P, K>>), Trouble> {
    let Some(last) = sessions.pop() else {
        return Err(Trouble::Unexpected);
    };
    match manager.close(rt, sessions) {
        Ok(_) => Err(Trouble::Unexpected),
        Err((fault, mut back)) => {
            let handed_back = back.len() == 63 && fault == CloseFault::Missing;
            back.push(last)?;
            Ok((handed_back, back))
        }
    }
}

/// A manager gives out 64 sessions and no more; is not closed without all of them, which are handed back; is closed
/// with them, once; and gives out no session then.
fn closes<'a, N: Name, L: Loader, W: Writer, P: Processor, K: FilteredListener, R: Wait>(
    rt: &R,
    alloc: Global,
    manager: &'a Manager<N, L, W, P, K>,
) -> Result<[bool; 6], Trouble> {
    let mut sessions = seated(rt, alloc, manager, 64)?;
    let too_many = manager.session(rt).err();
    let answered = match sessions.last_mut() {
        Some(last) => answers(rt, alloc, last)? == [true; 3],
        None => false,
    };
    let (handed_back, sessions) = without_last(rt, manager, sessions)?;
    let entries = match manager.close(rt, sessions) {
        Ok(transcript) => transcript.entries().len(),
        Err(_) => return Err(Trouble::Unexpected),
    };
    let closed = manager.session(rt).err();
    let again = match manager.close(rt, Vec::new(alloc)) {
        Ok(_) => None,
        Err((fault, _)) => Some(fault),
    };
    Ok([
        too_many == Some(SessionRefusal::TooManySessions),
        answered,
        handed_back,
        entries == 1,
        closed == Some(SessionRefusal::Closed),
        again == Some(CloseFault::Missing),
    ])
}

/// The same, under this name.
fn orders<N: Name, L: Loader, W: Writer, P: Processor, K: FilteredListener, R: Wait>(
    rt: &R,
    alloc: Global,
    shared: Shared<L, W, P, K>,
) -> Result<[bool; 6], Trouble>
    requires configs { shared.configs ≡ N.configs }
    requires stated { map (stated_by L.load_of P.verdict_of) shared.shared ≡ N.stated }
    requires index { shared.index ≡ N.index }
{
    let manager = shared.named::<N>();
    closes(rt, alloc, &manager)
}

/// The same, under a name that this call picks.
fn order<L: Loader, W: Writer, P: Processor, K: FilteredListener, R: Wait>(
    rt: &R,
    alloc: Global,
    shared: Shared<L, W, P, K>,
) -> Result<[bool; 6], Trouble> {
    orders::<Brand, L, W, P, K, R>(rt, alloc, shared)
}

#[test]
fn refusals_come_in_order(rt: HostRuntime) -> Result<(), Trouble> {
    let alloc = rt.alloc();
    let configs = Vec::from_array(alloc, [plain_cache(alloc, "a", 4)?])?;
    let hooks: Vec<Hooks> = Vec::from_array(alloc, [no_hooks(alloc)])?;
    let shared = Shared::open(alloc, configs, hooks, 7)?;
    assert_eq!(rt; order(&rt, alloc, shared)?, [true; 6]);
    Ok(())
}

/// Makes five calls of two sessions, the last of which may wait.
fn make_five(
    alloc: Global,
    manager: &mut Recorded<ListRows, ListRing>,
    waits: bool,
) -> Result<(), Trouble> {
    let a = CacheId::new(0);
    for (session, name) in [(0u32, "x"), (1, "y"), (0, "z"), (1, "w")] {
        let put = Call::Put(key(name)?, value_of(alloc, "1")?);
        done(manager.begin(session, a, 0, put))?;
    }
    done(manager.begin(0, a, 0, Call::Get(key("v")?)))?;
    if !waits {
        done(manager.resume(a, Answer::LoadFailed))?;
    }
    Ok(())
}

/// Their transcript.
fn transcript(alloc: Global, waits: bool) -> Result<Transcript, Trouble> {
    let mut loading = plain_cache(alloc, "a", 4)?;
    loading.loader = true;
    let configs = Vec::from_array(alloc, [loading])?;
    let mut manager = Recorded::open(alloc, ListRows::new(alloc), configs)?;
    make_five(alloc, &mut manager, waits)?;
    Ok(manager.transcript().share()?)
}

/// A session's log, with another reply at this place.
fn log_of(
    alloc: Global,
    transcript: &Transcript,
    number: u32,
    changed: usize,
) -> Result<SessionLog, Trouble> {
    let mut own: Vec<Entry> = Vec::new(alloc);
    for entry in transcript.entries() {
        if entry.session == number {
            let mut copy = entry.share()?;
            if own.len() == changed {
                copy.end = End::Replied(Reply::Truth(true));
            }
            own.push(copy)?;
        }
    }
    Ok(SessionLog { number, own })
}

/// Whether a call waits; the numbers of the logs; in which session and at which place an entry is another; how many
/// numbers were given out; and the fault.
static AUDITS: [(bool, &[u32], (u32, usize), u32, Option<CloseFault>); 11] = [
    (false, &[0, 1], (9, 9), 2, None),
    (false, &[1, 0], (9, 9), 2, None),
    (false, &[0, 1, 2], (9, 9), 3, None),
    (false, &[0], (9, 9), 2, Some(CloseFault::Missing)),
    (false, &[0, 0], (9, 9), 2, Some(CloseFault::Missing)),
    (false, &[0, 1, 2], (9, 9), 2, Some(CloseFault::Missing)),
    (true, &[0], (9, 9), 2, Some(CloseFault::Missing)),
    (true, &[0, 1], (1, 0), 2, Some(CloseFault::StillOpen)),
    (
        false,
        &[0, 1],
        (1, 1),
        2,
        Some(CloseFault::Differs {
            session: 1,
            place: 1,
        }),
    ),
    (
        false,
        &[0, 1],
        (0, 2),
        2,
        Some(CloseFault::Differs {
            session: 0,
            place: 2,
        }),
    ),
    (
        false,
        &[0],
        (9, 9),
        1,
        Some(CloseFault::Differs {
            session: 1,
            place: 0,
        }),
    ),
];

#[test]
fn an_audit_tells_the_first_fault(rt: HostRuntime) -> Result<(), Trouble> {
    let alloc = rt.alloc();
    for (number, (waits, numbers, changed, given, fault)) in AUDITS.iter().enumerate() {
        let transcript = transcript(alloc, *waits)?;
        let mut logs = Vec::new(alloc);
        for session in *numbers {
            let place = if *session == changed.0 { changed.1 } else { 9 };
            logs.push(log_of(alloc, &transcript, *session, place)?)?;
        }
        let told = audit(&transcript, logs.as_slice(), *given).err();
        assert_eq!(rt; &told, fault, "{number}");
    }
    Ok(())
}
