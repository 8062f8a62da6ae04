//! Runs on worker threads: callbacks of one cache go on beside those of another.
ghost use Rattle.std.specs.Prelude.{◌<◌};

use crate::ran::{Ran, ran_into, report_of};
use jc_config::{Configuration, read_config};
use jc_hooks::program::{CheckWriter, EchoLoader, ProgramHooks, ProgramListener, ProgramProcessor};
use jc_hooks::{CacheHooks, FilteredListener, Loaded, Loader, Processor, Writer};
use jc_model::OutOfMemory;
use jc_model::key::Key;
use jc_runner::{Crew, RunFault, Setup, WatchedWriter, threaded};
use jc_script::read_script;
use jc_threads::{Gate, OpenGate};
use jc_trials::{Log, Text, Trouble, no_hooks};
use std::alloc::Global;
use std::sync::atomic::{AtomicU64, Ordering};
use std::sync::{Arc, Wait};
use std::thread::Threads;

/// How often a flag is read before one who waits for it gives up.
const MOST_READS: u32 = 1_000_000_000;

/// Three flags, and whether a wait for one was given up: the first two are raised by the caches' loaders, the third by
/// the gate.
#[derive(Drop)]
struct Flags {
    raised: [Arc<AtomicU64>; 3],
    missed: Arc<AtomicU64>,
}

fn lowered_flags(alloc: Global) -> Result<Flags, OutOfMemory> {
    Ok(Flags {
        raised: [
            Arc::new(alloc, AtomicU64::new(0))?,
            Arc::new(alloc, AtomicU64::new(0))?,
            Arc::new(alloc, AtomicU64::new(0))?,
        ],
        missed: Arc::new(alloc, AtomicU64::new(0))?,
    })
}

/// Whether a flag is raised in time.
fn waited(flag: &AtomicU64) -> bool {
    for _ in 0..MOST_READS {
        if flag.load(Ordering::SeqCst) != 0 {
            return true;
        }
    }
    false
}

/// Raises a flag, waits for another, and then answers by the key.
#[derive(Drop)]
struct WaitingLoader {
    raises: Arc<AtomicU64>,
    waits: Arc<AtomicU64>,
    missed: Arc<AtomicU64>,
}

impl Loader for WaitingLoader {
    ghost use Rattle.jc_hooks.specs.Program.{echo_answer};

    ghost load_of = { λ _. echo_answer };

    fn load(&self, alloc: Global, key: &Key) -> Result<Loaded, OutOfMemory> {
        self.raises.store(1, Ordering::SeqCst);
        if !waited(&self.waits) {
            self.missed.store(1, Ordering::SeqCst);
        }
        EchoLoader.load(alloc, key)
    }
}

/// Raises a flag after the calls of session 1.
#[derive(Drop)]
struct RaisingGate {
    raises: Arc<AtomicU64>,
}

impl Gate for RaisingGate {
    fn before(&self, _session: u32, _line: usize) {}

    fn after(&self, session: u32, _line: usize) {
        if session == 1 {
            self.raises.store(1, Ordering::SeqCst);
        }
    }
}

type Hooks = CacheHooks<WaitingLoader, CheckWriter, ProgramProcessor, ProgramListener>;

/// Caches, for which flag the loader of each waits, a script for two workers, and the report.
struct Scene {
    caches: &'static str,
    waits: [usize; 2],
    calls: &'static str,
    report: &'static str,
}

static SCENES: [Scene; 2] = [
    // The loader of one cache waits until a call on the other has its reply.
    Scene {
        caches: r#"
[[cache]]
name = "a"
capacity = 64
loader = "echo"

[[cache]]
name = "b"
capacity = 64
"#,
        waits: [2, 2],
        calls: r#"
{"s":0,"c":"a","at":0,"op":"get","k":"k"}
{"s":1,"c":"b","at":0,"op":"put","k":"x","v":"1"}
"#,
        report: r#"cache a
0 get some "k"
cache b
1 put ok
"#,
    },
    // The loader of each waits for that of the other.
    Scene {
        caches: r#"
[[cache]]
name = "a"
capacity = 64
loader = "echo"

[[cache]]
name = "b"
capacity = 64
loader = "echo"
"#,
        waits: [1, 0],
        calls: r#"
{"s":0,"c":"a","at":0,"op":"get","k":"k"}
{"s":1,"c":"b","at":0,"op":"get","k":"k"}
"#,
        report: r#"cache a
0 get some "k"
cache b
1 get some "k"
"#,
    },
];

/// What a script reports, run by this crew.
pub(crate) fn gathered<
    L: Loader,
    W: Writer,
    P: Processor,
    K: FilteredListener,
    G: Gate,
    R: Threads + Wait + Sync,
>(
    alloc: Global,
    caches: &str,
    calls: &[u8],
    hooks: Vec<CacheHooks<L, W, P, K>>,
    crew: &Crew<'_, R, G>,
) -> Result<Ran, Trouble>
    requires { 0 < crew.now.workers }
{
    let Configuration { settings, .. } = read_config(alloc, caches.as_bytes())?;
    let lines = read_script(alloc, calls, &settings)?;
    let setup = Setup {
        settings,
        hooks,
        seed: 7,
    };
    let mut writer = WatchedWriter::new(Vec::new(alloc));
    let ran = threaded(alloc, setup, crew, lines, &mut writer);
    Ok(ran_into(ran, writer))
}

/// The callbacks of a scene.
fn waiting_hooks(alloc: Global, scene: &Scene, flags: &Flags) -> Result<Vec<Hooks>, Trouble> {
    let Configuration { settings, .. } = read_config(alloc, scene.caches.as_bytes())?;
    let mut all = Vec::new(alloc);
    for (place, config) in settings.caches().iter().enumerate() {
        let mut hooks: Hooks = no_hooks(alloc);
        if config.loader && place < 2 {
            hooks.loader = Some(WaitingLoader {
                raises: Arc::try_clone(&flags.raised[place])?,
                waits: Arc::try_clone(&flags.raised[scene.waits[place].min(2)])?,
                missed: Arc::try_clone(&flags.missed)?,
            });
        }
        all.push(hooks)?;
    }
    Ok(all)
}

/// The report of a scene, and whether a wait was given up.
fn reported<R: Threads + Wait + Sync>(
    rt: &R,
    alloc: Global,
    scene: &Scene,
) -> Result<(Vec<u8>, bool), Trouble> {
    let flags = lowered_flags(alloc)?;
    let hooks = waiting_hooks(alloc, scene, &flags)?;
    let gate = RaisingGate {
        raises: Arc::try_clone(&flags.raised[2])?,
    };
    let crew = Crew {
        threads: rt,
        workers: 2,
        gate: &gate,
    };
    let calls = scene.calls.as_bytes();
    let ran = gathered(alloc, scene.caches, calls, hooks, &crew)?;
    Ok((report_of(ran)?, flags.missed.load(Ordering::SeqCst) != 0))
}

#[test]
fn callbacks_of_two_caches_run_side_by_side(rt: HostRuntime) -> Result<(), Trouble> {
    for scene in &SCENES {
        let (text, missed) = reported(&rt, rt.alloc(), scene)?;
        assert_eq!(rt; text.as_slice(), scene.report.as_bytes());
        assert!(rt; !missed, "{}", scene.calls);
    }
    Ok(())
}

/// Notes a point after each call.
#[derive(Drop)]
pub(crate) struct PointGate {
    pub(crate) log: Log,
}

impl Gate for PointGate {
    fn before(&self, _session: u32, _line: usize) {}

    fn after(&self, _session: u32, _line: usize) {
        self.log.note(Text::of(b"."));
    }
}

/// Callbacks that the settings do not name.
#[test]
fn other_callbacks_open_no_crew(rt: HostRuntime) -> Result<(), Trouble> {
    let alloc = rt.alloc();
    let mut hooks: Vec<ProgramHooks> = Vec::new(alloc);
    let crew = Crew {
        threads: &rt,
        workers: 2,
        gate: &OpenGate,
    };
    for _ in 0..2 {
        hooks.push(no_hooks(alloc))?;
    }
    let ran = gathered(alloc, SCENES[0].caches, b"", hooks, &crew)?;
    assert_eq!(rt; ran, Err(RunFault::Open));
    Ok(())
}
