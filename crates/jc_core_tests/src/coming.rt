//! Sessions that create and destroy caches: which ids they get, what is refused and handed back, whose callbacks are
//! asked, and what lookups know of it.
ghost use Rattle.std.specs.Prelude.{◌≡◌, map};
ghost use Rattle.jc_hooks.specs.Program.{echo_answer};
ghost use Rattle.jc_hooks.specs.Processors.{program_verdict};
ghost use Rattle.jc_locked.specs.Stated.{stated_by};

use jc_hooks::CacheHooks;
use jc_hooks::program::{CheckWriter, EchoLoader, ProgramProcessor};
use jc_index::lookup::Lookup;
use jc_model::OutOfMemory;
use jc_model::call::{Call, Reply};
use jc_model::config::CacheConfig;
use jc_model::event::{CacheId, CreateRefusal};
use jc_model::list::Sequence;
use jc_shared::{CallFault, CreateFault, DestroyFault, Manager, Name, Session, Shared};
use jc_trials::{
    EVERY_KIND, Log, NotedHook, NotedLoader, NotedProcessor, NotedWriter, Trouble, done, is, key,
    no_hooks, noted_listeners, plain_cache, seated, value_of,
};
use std::alloc::Global;
use std::marker::Brand;
use std::sync::Wait;

type NotedEcho = NotedLoader<EchoLoader>;

type NotedCheck = NotedWriter<CheckWriter>;

type NotedAppend = NotedProcessor<ProgramProcessor>;

type Hooks = CacheHooks<NotedEcho, NotedCheck, NotedAppend, NotedHook>;

type Caches<N> = Manager<N, NotedEcho, NotedCheck, NotedAppend, NotedHook>;

type Caller<'a, N> = Session<'a, N, NotedEcho, NotedCheck, NotedAppend, NotedHook>;

/// A cache with a loader, a writer, a processor and a listener.
fn full_cache(alloc: Global, name: &str) -> Result<CacheConfig, Trouble> {
    let mut config = plain_cache(alloc, name, 4)?;
    config.loader = true;
    config.writer = true;
    config.processors = Sequence::new(Vec::from_array(alloc, [true])?);
    config.listeners = 1;
    Ok(config)
}

/// Its callbacks, which note what they are asked.
fn full_hooks(alloc: Global, log: &Log) -> Result<Hooks, OutOfMemory> {
    let append = NotedProcessor::new(b"a", ProgramProcessor::Append, log)?;
    let processors = Vec::from_array(alloc, [append])?;
    let listeners = noted_listeners(alloc, 1, EVERY_KIND, log)?;
    let loader = NotedLoader::new(EchoLoader, log)?;
    let writer = NotedWriter::new(CheckWriter, log)?;
    Ok(CacheHooks {
        loader: Some(loader),
        writer: Some(writer),
        processors,
        listeners,
    })
}

/// Whether all callbacks are there.
fn are_full(hooks: &Hooks) -> bool {
    let asked = hooks.loader.is_some() && hooks.processors.len() == 1;
    asked && hooks.writer.is_some() && hooks.listeners.len() == 1
}

/// The first cache is destroyed while another session knows a row of it.
fn goes<N: Name, R: Wait>(
    rt: &R,
    alloc: Global,
    manager: &Caches<N>,
    first: &mut Caller<'_, N>,
    second: &mut Caller<'_, N>,
) -> Result<[bool; 8], Trouble> {
    let (a, x) = (CacheId::new(0), key("x")?);
    let put = Call::Put(x, value_of(alloc, "1")?);
    Ok([
        is(second.call(rt, a, 0, put), Ok(Reply::Done)),
        is(
            first.call(rt, a, 0, Call::Contains(x)),
            Ok(Reply::Truth(true)),
        ),
        first.contains_key(a, &x, 1) == Lookup::Sure(true),
        first.destroy(rt, a) == Ok(()),
        first.contains_key(a, &x, 1) == Lookup::Sure(false),
        first.destroy(rt, a) == Err(DestroyFault::NoSuchCache),
        is(
            second.call(rt, a, 1, Call::Get(x)),
            Err(CallFault::NoSuchCache),
        ),
        manager.cache(rt, &key("a")?).is_none(),
    ])
}

/// A cache is created with callbacks, and calls on it ask them.
fn comes<N: Name, R: Wait>(
    rt: &R,
    alloc: Global,
    manager: &Caches<N>,
    first: &Caller<'_, N>,
    second: &mut Caller<'_, N>,
    log: &Log,
) -> Result<[bool; 6], Trouble> {
    let (c, k) = (CacheId::new(2), key("k")?);
    let (loaded, stored) = (value_of(alloc, "k")?, value_of(alloc, "2")?);
    let (plus, other) = (value_of(alloc, "+")?, value_of(alloc, "+")?);
    let invoke = |processor, argument| Call::Invoke {
        key: k,
        processor,
        argument,
    };
    let config = full_cache(alloc, "c")?;
    let created = first.create(rt, config, full_hooks(alloc, log)?).ok();
    let named = manager.cache(rt, &key("c")?);
    Ok([
        created == Some(c),
        named == Some(c),
        is(
            second.call(rt, c, 2, Call::Get(k)),
            Ok(Reply::Found(Some(loaded))),
        ),
        is(second.call(rt, c, 2, Call::Put(k, stored)), Ok(Reply::Done)),
        done(second.call(rt, c, 2, invoke(0, plus))).is_ok(),
        is(
            second.call(rt, c, 2, invoke(1, other)),
            Err(CallFault::NoSuchProcessor),
        ),
    ])
}

/// A cache that is not created: why, and whether its callbacks are handed back.
fn refused<N: Name, R: Wait>(
    rt: &R,
    session: &Caller<'_, N>,
    config: CacheConfig,
    hooks: Hooks,
) -> Option<(CreateFault, bool)> {
    match session.create(rt, config, hooks) {
        Ok(_) => None,
        Err((fault, _, back)) => Some((fault, are_full(&back))),
    }
}

/// Caches that are refused, in order, and one that gets the name of the destroyed one.
fn stays<N: Name, R: Wait>(
    rt: &R,
    alloc: Global,
    session: &mut Caller<'_, N>,
    log: &Log,
) -> Result<[bool; 5], Trouble> {
    let hooks = full_hooks(alloc, log)?;
    let again = refused(rt, session, full_cache(alloc, "c")?, hooks);
    let bare = refused(rt, session, full_cache(alloc, "d")?, no_hooks(alloc));
    let empty = refused(rt, session, plain_cache(alloc, "e", 0)?, no_hooks(alloc));
    let plain = plain_cache(alloc, "a", 1)?;
    let named = session.create(rt, plain, no_hooks(alloc)).ok();
    let get = Call::Get(key("x")?);
    Ok([
        again == Some((CreateFault::Cache(CreateRefusal::DuplicateName), true)),
        bare == Some((CreateFault::HooksDiffer, false)),
        empty == Some((CreateFault::Cache(CreateRefusal::BadCapacity), false)),
        named == Some(CacheId::new(3)),
        is(
            session.call(rt, CacheId::new(3), 3, get),
            Ok(Reply::Found(None)),
        ),
    ])
}

/// What has become of the two sessions' calls, and of the manager at its close: the ids of all lives, and how many
/// calls were made.
#[derive(Drop)]
struct Lived {
    gone: [bool; 8],
    come: [bool; 6],
    stay: [bool; 5],
    lives: Vec<u32>,
    calls: usize,
}

fn outlived<N: Name, R: Wait>(
    rt: &R,
    alloc: Global,
    manager: &Caches<N>,
    log: &Log,
) -> Result<Lived, Trouble> {
    let mut sessions = seated(rt, alloc, manager, 2)?;
    let Some((first, rest)) = sessions.split_first_mut() else {
        return Err(Trouble::Unexpected);
    };
    let Some(second) = rest.first_mut() else {
        return Err(Trouble::Unexpected);
    };
    let gone = goes(rt, alloc, manager, first, second)?;
    let come = comes(rt, alloc, manager, first, second, log)?;
    let stay = stays(rt, alloc, first, log)?;
    match manager.close(rt, sessions) {
        Ok(transcript) => {
            let mut lives = Vec::new(alloc);
            for life in transcript.lives() {
                lives.push(life.id.number())?;
            }
            let calls = transcript.entries().len();
            Ok(Lived {
                gone,
                come,
                stay,
                lives,
                calls,
            })
        }
        Err(_) => Err(Trouble::Unexpected),
    }
}

type Opened = Shared<NotedEcho, NotedCheck, NotedAppend, NotedHook>;

/// A manager of two caches without callbacks.
fn two_caches(alloc: Global) -> Result<Opened, Trouble> {
    let mut configs = Vec::new(alloc);
    let mut hooks = Vec::new(alloc);
    for name in ["a", "b"] {
        configs.push(plain_cache(alloc, name, 4)?)?;
        hooks.push(no_hooks(alloc))?;
    }
    Ok(Shared::open(alloc, configs, hooks, 7)?)
}

/// The same, under this name.
fn named<N: Name, R: Wait>(
    rt: &R,
    alloc: Global,
    shared: Opened,
    log: &Log,
) -> Result<Lived, Trouble>
    requires configs { shared.configs ≡ N.configs }
    requires stated { map (stated_by (λ l. echo_answer) (λ p. program_verdict p.processor))
        shared.shared ≡ N.stated }
    requires index { shared.index ≡ N.index }
{
    let manager = shared.named::<N>();
    outlived(rt, alloc, &manager, log)
}

/// The same, under a name that this call picks.
fn live<R: Wait>(rt: &R, alloc: Global, shared: Opened, log: &Log) -> Result<Lived, Trouble> {
    named::<Brand, R>(rt, alloc, shared, log)
}

#[test]
fn sessions_create_and_destroy(rt: HostRuntime) -> Result<(), Trouble> {
    let alloc = rt.alloc();
    let log = Log::new(alloc, 16)?;
    let lived = live(&rt, alloc, two_caches(alloc)?, &log)?;
    let asked = log.text(alloc)?;
    assert_eq!(rt; lived.gone, [true; 8]);
    assert_eq!(rt; lived.come, [true; 6]);
    assert_eq!(rt; lived.stay, [true; 5]);
    assert_eq!(rt; lived.lives.as_slice(), [0u32, 1, 2, 3].as_slice());
    assert_eq!(rt; lived.calls, 6);
    assert_eq!(rt;
        asked.as_slice(),
        b"lk 1ck wk=2 1uk a:2,+ wk=2+ 1uk ".as_slice()
    );
    Ok(())
}
