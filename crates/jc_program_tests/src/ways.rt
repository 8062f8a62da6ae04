//! One script in each way: by `serial`, by sessions on caches of the opening or on created ones, by sessions of a manager
//! that keeps the open calls alone, and by workers. Each asks the same of the callbacks, and gives the same report but for
//! the notices, which nothing keeps where the open calls are kept alone. Loaders and processors are stored closures.

use crate::closures::{echo_closure, processor_closure};
use crate::crews::{PointGate, gathered};
use crate::ran::{Ran, ran_into, report_of};
use crate::scenes::{ALL_CALLBACKS, Behaviour, POOR, SCENES, Scene, USUAL};
use crate::sessions::{Caches, Script, first_lives, play, play_lasting};
use jc_config::{Configuration, HookKinds, ProcessorKind, read_config};
use jc_hooks::program::{CheckWriter, ProgramProcessor};
use jc_hooks::{CacheHooks, ClosureLoader, ClosureProcessor};
use jc_model::OutOfMemory;
use jc_runner::{CacheSetup, Crew, RunFault, WatchedReader, WatchedWriter, serial};
use jc_script::read_script;
use jc_shared::Shared;
use jc_trials::{
    Log, NotedHook, NotedLoader, NotedProcessor, NotedWriter, OncePoor, Trouble, noted_listeners,
};
use std::alloc::{AllocError, Global};
use std::sync::Wait;
use std::thread::Threads;

type Hooks = CacheHooks<
    NotedLoader<OncePoor<ClosureLoader>>,
    NotedWriter<OncePoor<CheckWriter>>,
    NotedProcessor<OncePoor<ClosureProcessor>>,
    NotedHook,
>;

/// The processor of a kind, with its letter.
fn named(kind: ProcessorKind) -> (&'static [u8], ProgramProcessor) {
    match kind {
        ProcessorKind::Append => (b"a", ProgramProcessor::Append),
        ProcessorKind::Fail => (b"f", ProgramProcessor::Fail),
        ProcessorKind::Drop => (b"d", ProgramProcessor::Drop),
        ProcessorKind::Peek => (b"p", ProgramProcessor::Peek),
    }
}

fn processing(
    alloc: Global,
    kind: ProcessorKind,
    poor: u64,
    log: &Log,
) -> Result<NotedProcessor<OncePoor<ClosureProcessor>>, OutOfMemory> {
    let (name, processor) = named(kind);
    let closure = processor_closure(alloc, processor)?;
    NotedProcessor::new(name, OncePoor::new(closure, poor), log)
}

/// The callbacks of one cache, which share a log.
fn hooks_of(
    alloc: Global,
    kinds: &HookKinds,
    listeners: u8,
    scene: &Scene,
    log: &Log,
) -> Result<Hooks, OutOfMemory> {
    let Behaviour { told, poor } = scene.behaviour;
    let listeners = noted_listeners(alloc, listeners, told, log)?;
    let mut processors = Vec::new(alloc);
    for kind in kinds.processors.items() {
        processors.push(processing(alloc, *kind, poor, log)?)?;
    }
    let loader = if kinds.loader.is_some() {
        let echo = echo_closure(alloc)?;
        Some(NotedLoader::new(OncePoor::new(echo, poor), log)?)
    } else {
        None
    };
    let writer = if kinds.writer.is_some() {
        Some(NotedWriter::new(OncePoor::new(CheckWriter, poor), log)?)
    } else {
        None
    };
    Ok(CacheHooks {
        loader,
        writer,
        processors,
        listeners,
    })
}

/// The callbacks of a scene.
fn all_hooks(alloc: Global, scene: &Scene, log: &Log) -> Result<Vec<Hooks>, Trouble> {
    let Configuration { settings, hooks } = read_config(alloc, scene.caches.as_bytes())?;
    let mut all = Vec::new(alloc);
    for (config, kinds) in settings.caches().iter().zip(hooks.items()) {
        all.push(hooks_of(alloc, kinds, config.listeners, scene, log)?)?;
    }
    Ok(all)
}

/// What comes of a scene by `serial`.
fn by_serial(alloc: Global, scene: &Scene, log: &Log) -> Result<Ran, Trouble> {
    let Configuration { settings, .. } = read_config(alloc, scene.caches.as_bytes())?;
    let mut hooks = all_hooks(alloc, scene, log)?;
    let mut reader = WatchedReader::new(scene.calls.as_bytes());
    let mut writer = WatchedWriter::new(Vec::new(alloc));
    let hooks = hooks.as_mut_slice();
    let setup = CacheSetup { settings, seed: 0 };
    let ran = serial(alloc, setup, hooks, &mut reader, &mut writer);
    Ok(ran_into(ran, writer))
}

/// What comes of a scene by `threaded`: by two workers where one session makes all calls, else by one.
fn by_workers<R: Threads + Wait + Sync>(
    rt: &R,
    alloc: Global,
    scene: &Scene,
    log: &Log,
) -> Result<Ran, Trouble> {
    let gate = PointGate { log: log.share()? };
    let crew = Crew {
        threads: rt,
        workers: if scene.sessions == 1 { 2 } else { 1 },
        gate: &gate,
    };
    let hooks = all_hooks(alloc, scene, log)?;
    let calls = scene.calls.as_bytes();
    gathered(alloc, scene.caches, calls, hooks, &crew)
}

/// The report of a scene by sessions, on caches that one of them creates or on those of the opening; and how many
/// entries the transcript has.
fn by_sessions<R: Wait>(
    rt: &R,
    alloc: Global,
    scene: &Scene,
    creates: bool,
    log: &Log,
) -> Result<(String, usize), Trouble> {
    let Configuration { settings, .. } = read_config(alloc, scene.caches.as_bytes())?;
    let lines = read_script(alloc, scene.calls.as_bytes(), &settings)?;
    let hooks = all_hooks(alloc, scene, log)?;
    let configs = settings.into_caches();
    let all = Caches { configs, hooks };
    let (configs, hooks) = (Vec::new(alloc), Vec::new(alloc));
    let none = Caches { configs, hooks };
    let (opened, created) = if creates { (none, all) } else { (all, none) };
    let shared = Shared::open(alloc, opened.configs, opened.hooks, 7)?;
    let sessions = scene.sessions;
    let script = Script {
        sessions,
        created,
        lines,
        log,
    };
    play(rt, alloc, shared, script)
}

/// The report of a scene by sessions of a manager that keeps the open calls alone.
fn by_lasting<R: Wait>(rt: &R, alloc: Global, scene: &Scene, log: &Log) -> Result<String, Trouble> {
    let Configuration { settings, .. } = read_config(alloc, scene.caches.as_bytes())?;
    let lines = read_script(alloc, scene.calls.as_bytes(), &settings)?;
    let hooks = all_hooks(alloc, scene, log)?;
    let configs = settings.into_caches();
    let lives = first_lives(alloc, configs.as_slice())?;
    let shared = Shared::open(alloc, configs, hooks, 7)?;
    let script = Script {
        sessions: scene.sessions,
        created: Caches {
            configs: Vec::new(alloc),
            hooks: Vec::new(alloc),
        },
        lines,
        log,
    };
    play_lasting(rt, alloc, shared, lives, script)
}

/// A way to make the calls of a script.
#[derive(Clone, Copy, Debug, PartialEq, Eq)]
enum Way {
    Serial,
    Workers,
    /// Sessions, on caches of the opening.
    Opened,
    /// Sessions, on caches that one of them creates.
    Created,
    /// Sessions of a manager that keeps the open calls alone.
    Lasting,
}

static WAYS: [Way; 5] = [
    Way::Serial,
    Way::Workers,
    Way::Opened,
    Way::Created,
    Way::Lasting,
];

/// What comes of a scene in a way.
fn ran_by<R: Threads + Wait + Sync>(
    rt: &R,
    alloc: Global,
    scene: &Scene,
    way: Way,
    log: &Log,
) -> Result<Ran, Trouble> {
    match way {
        Way::Serial => by_serial(alloc, scene, log),
        Way::Workers => by_workers(rt, alloc, scene, log),
        Way::Opened | Way::Created => {
            let created = way == Way::Created;
            let (report, _) = by_sessions(rt, alloc, scene, created, log)?;
            Ok(Ok(report.into_bytes()))
        }
        Way::Lasting => {
            let report = by_lasting(rt, alloc, scene, log)?;
            Ok(Ok(report.into_bytes()))
        }
    }
}

/// Whether a line of a report tells a notice.
fn is_event(line: &str) -> bool {
    line.split_whitespace().nth(1) == Some("event")
}

/// The report of a scene in a way: where the open calls are kept alone, nothing tells the notices of the others.
fn report_in(alloc: Global, scene: &Scene, way: Way) -> Result<Vec<u8>, AllocError> {
    let mut report = Vec::new(alloc);
    for line in scene.report.lines() {
        if way == Way::Lasting && is_event(line) {
            continue;
        }
        report.extend_from_slice(line.as_bytes())?;
        report.push(b'\n')?;
    }
    Ok(report)
}

/// What the callbacks of a scene are asked, without the points after calls: `serial` tells nobody when a call has ended.
fn questions(alloc: Global, scene: &Scene) -> Result<Vec<u8>, AllocError> {
    let mut asked = Vec::new(alloc);
    for word in scene.asked.split_whitespace() {
        if word != "." {
            asked.extend_from_slice(word.as_bytes())?;
            asked.push(b' ')?;
        }
    }
    Ok(asked)
}

/// What comes of a scene in a way, and whether the callbacks are asked as they should
/// be.
fn came_of<R: Threads + Wait + Sync>(
    rt: &R,
    alloc: Global,
    scene: &Scene,
    way: Way,
) -> Result<(Ran, bool), Trouble> {
    let log = Log::new(alloc, 32)?;
    let ran = ran_by(rt, alloc, scene, way, &log)?;
    let asked = log.text(alloc)?;
    let is_asked = if way == Way::Serial {
        asked == questions(alloc, scene)?
    } else {
        asked.as_slice() == scene.asked.as_bytes()
    };
    Ok((ran, is_asked))
}

#[test]
fn the_program_in_each_way(rt: HostRuntime) -> Result<(), Trouble> {
    for scene in SCENES.iter().chain([&ALL_CALLBACKS]) {
        for way in WAYS {
            let (ran, is_asked) = came_of(&rt, rt.alloc(), scene, way)?;
            assert_eq!(rt;
                report_of(ran)?,
                report_in(rt.alloc(), scene, way)?,
                "{way:?}"
            );
            assert!(rt; is_asked, "{way:?} {}", scene.calls);
        }
    }
    Ok(())
}

/// Two sessions, and no callbacks.
static SHARED: Scene = Scene {
    caches: r#"
[[cache]]
name = "a"
capacity = 64
"#,
    behaviour: USUAL,
    sessions: 2,
    calls: r#"
{"s":0,"c":"a","at":0,"op":"put","k":"x","v":"1"}
{"s":1,"c":"a","at":0,"op":"get","k":"x"}
"#,
    asked: ". . ",
    report: r#"cache a
0 put ok
1 get some "1"
"#,
};

#[test]
fn two_sessions_share_one_state(rt: HostRuntime) -> Result<(), Trouble> {
    let log = Log::new(rt.alloc(), 2)?;
    let (report, entries) = by_sessions(&rt, rt.alloc(), &SHARED, false, &log)?;
    assert_eq!(rt; report.as_str(), SHARED.report);
    assert_eq!(rt; entries, 2);
    Ok(())
}

/// By sessions the call is refused and given up, and others follow; in other ways the run ends.
#[test]
fn hooks_without_memory(rt: HostRuntime) -> Result<(), Trouble> {
    for scene in &POOR {
        for way in WAYS {
            let (ran, is_asked) = came_of(&rt, rt.alloc(), scene, way)?;
            if way == Way::Serial || way == Way::Workers {
                assert_eq!(rt; ran, Err(RunFault::Memory));
            } else {
                assert_eq!(rt;
                    report_of(ran)?,
                    report_in(rt.alloc(), scene, way)?,
                    "{way:?}"
                );
                assert!(rt; is_asked, "{way:?} {}", scene.calls);
            }
        }
    }
    Ok(())
}
