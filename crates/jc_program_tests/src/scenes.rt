//! Scripts for callbacks that note what they are asked, with what comes of each in every way to run it.

use jc_trials::{EVERY_KIND, EXPIRED_ALONE, KindFilter};

/// How callbacks behave: of which changes listeners are told, and for which question, from 0, each of the others finds
/// no memory.
#[derive(Clone, Copy)]
pub(crate) struct Behaviour {
    pub(crate) told: KindFilter,
    pub(crate) poor: u64,
}

pub(crate) const USUAL: Behaviour = Behaviour {
    told: EVERY_KIND,
    poor: u64::MAX,
};

/// A configuration, and how its callbacks behave; a script and the number of its sessions; what the callbacks are
/// asked; and the report.
///
/// They are asked `l` and a key to load, `w` or `d` and a key to write or delete, a processor's letter with the value
/// and the argument; a listener's number goes with the kind's letter and the key. After each call stands a point, or
/// `!` where it is refused for want of memory.
pub(crate) struct Scene {
    pub(crate) caches: &'static str,
    pub(crate) behaviour: Behaviour,
    pub(crate) sessions: u32,
    pub(crate) calls: &'static str,
    pub(crate) asked: &'static str,
    pub(crate) report: &'static str,
}

const LOADING: &str = r#"
[[cache]]
name = "a"
capacity = 64
loader = "echo"
"#;

const WRITING: &str = r#"
[[cache]]
name = "a"
capacity = 64
writer = "check"
"#;

const WALKED: &str = r#"
[[cache]]
name = "a"
capacity = 3
expiry = "created"
duration = 10
listeners = 1
"#;

const WALK: &str = r#"
{"s":0,"c":"a","at":0,"op":"put_all","kvs":[["x","1"],["y","2"]]}
{"s":0,"c":"a","at":5,"op":"put","k":"z","v":"3"}
{"s":0,"c":"a","at":10,"op":"entries"}
{"s":0,"c":"a","at":10,"op":"remove_all"}
{"s":0,"c":"a","at":10,"op":"stats"}
"#;

const WALK_REPORT: &str = r#"cache a
0 event created "x"
0 event created "y"
0 put_all ok
0 event created "z"
0 put ok
0 entries pairs "z"="3"
0 event expired "x"
0 event expired "y"
0 event removed "z"
0 remove_all ok
0 stats 1 0 3 1 0
"#;

/// A loader, a writer, a processor and a listener together.
pub(crate) static ALL_CALLBACKS: Scene = Scene {
    caches: r#"
[[cache]]
name = "a"
capacity = 3
loader = "echo"
writer = "check"
processors = ["append"]
listeners = 1
"#,
    behaviour: USUAL,
    sessions: 1,
    calls: r#"
{"s":0,"c":"a","at":0,"op":"invoke","k":"k","p":0,"arg":"+"}
{"s":0,"c":"a","at":0,"op":"put","k":"k","v":"1"}
{"s":0,"c":"a","at":0,"op":"load_all","ks":["k","!z"],"replace":true}
{"s":0,"c":"a","at":0,"op":"get_and_remove","k":"k"}
"#,
    asked: "lk a:k,+ wk=k+ 1ck . wk=1 1uk . lk l!z 1uk . dk 1rk . ",
    report: r#"cache a
0 event created "k"
0 invoke some "k+"
0 event updated "k"
0 put ok
0 event updated "k"
0 load_all fault loader after 1
0 event removed "k"
0 get_and_remove some "k"
"#,
};

pub(crate) static SCENES: [Scene; 10] = [
    // A missing key is loaded once.
    Scene {
        caches: LOADING,
        behaviour: USUAL,
        sessions: 1,
        calls: r#"
{"s":0,"c":"a","at":0,"op":"get","k":"k"}
{"s":0,"c":"a","at":0,"op":"get","k":"k"}
{"s":0,"c":"a","at":0,"op":"get","k":"-k"}
{"s":0,"c":"a","at":0,"op":"get","k":"!k"}
{"s":0,"c":"a","at":0,"op":"stats"}
"#,
        asked: "lk . . l-k . l!k . . ",
        report: r#"cache a
0 get some "k"
0 get some "k"
0 get none
0 get fault loader
0 stats 1 3 0 0 0
"#,
    },
    // A failed write changes nothing.
    Scene {
        caches: WRITING,
        behaviour: USUAL,
        sessions: 1,
        calls: r#"
{"s":0,"c":"a","at":0,"op":"put","k":"!k","v":"1"}
{"s":0,"c":"a","at":0,"op":"contains","k":"!k"}
{"s":0,"c":"a","at":0,"op":"remove","k":"!k"}
{"s":0,"c":"a","at":0,"op":"stats"}
"#,
        asked: "w!k=1 . . d!k . . ",
        report: r#"cache a
0 put fault writer
0 contains false
0 remove fault writer
0 stats 0 0 0 0 0
"#,
    },
    // A writer's fault ends a call on many keys.
    Scene {
        caches: WRITING,
        behaviour: USUAL,
        sessions: 1,
        calls: r#"
{"s":0,"c":"a","at":0,"op":"put_all","kvs":[["a","1"],["!b","2"],["c","3"]]}
{"s":0,"c":"a","at":0,"op":"contains","k":"a"}
{"s":0,"c":"a","at":0,"op":"contains","k":"c"}
"#,
        asked: "wa=1 w!b=2 . . . ",
        report: r#"cache a
0 put_all fault writer after 1
0 contains true
0 contains false
"#,
    },
    // Processors take turns on a loaded key; nothing is loaded for one that does not want the value.
    Scene {
        caches: r#"
[[cache]]
name = "a"
capacity = 64
loader = "echo"
processors = ["append", "fail", "drop", "peek"]
"#,
        behaviour: USUAL,
        sessions: 1,
        calls: r#"
{"s":0,"c":"a","at":0,"op":"invoke","k":"k","p":0,"arg":"+"}
{"s":0,"c":"a","at":0,"op":"invoke","k":"k","p":1,"arg":""}
{"s":0,"c":"a","at":0,"op":"invoke","k":"k","p":3,"arg":"1"}
{"s":0,"c":"a","at":0,"op":"invoke","k":"k","p":2,"arg":""}
{"s":0,"c":"a","at":0,"op":"invoke","k":"z","p":2,"arg":"2"}
{"s":0,"c":"a","at":0,"op":"stats"}
"#,
        asked: "lk a:k,+ . f:k+, . p:k+,1 . d:k+, . d,2 . . ",
        report: r#"cache a
0 invoke some "k+"
0 invoke fault processor
0 invoke some "k+"
0 invoke some "k+"
0 invoke none
0 stats 3 2 1 1 0
"#,
    },
    // All rows are walked in the order of the ring.
    Scene {
        caches: WALKED,
        behaviour: USUAL,
        sessions: 1,
        calls: WALK,
        asked: "1cx 1cy . 1cz . . 1xx 1xy 1rz . . ",
        report: WALK_REPORT,
    },
    // A loader's fault ends a call on many keys.
    Scene {
        caches: LOADING,
        behaviour: USUAL,
        sessions: 1,
        calls: r#"
{"s":0,"c":"a","at":0,"op":"put","k":"a","v":"1"}
{"s":0,"c":"a","at":0,"op":"get_all","ks":["a","-b","c"]}
{"s":0,"c":"a","at":0,"op":"get_all","ks":["a","!d","e"]}
{"s":0,"c":"a","at":0,"op":"stats"}
"#,
        asked: ". l-b lc . l!d . . ",
        report: r#"cache a
0 put ok
0 get_all pairs "a"="1" "c"="c"
0 get_all fault loader after 1
0 stats 2 3 1 0 0
"#,
    },
    // A listener is told what its filter admits; the report has all.
    Scene {
        caches: WALKED,
        behaviour: Behaviour {
            told: EXPIRED_ALONE,
            ..USUAL
        },
        sessions: 1,
        calls: WALK,
        asked: ". . . 1xx 1xy . . ",
        report: WALK_REPORT,
    },
    // What changes nothing asks nothing.
    Scene {
        caches: WRITING,
        behaviour: USUAL,
        sessions: 1,
        calls: r#"
{"s":0,"c":"a","at":0,"op":"put","k":"a","v":"1"}
{"s":0,"c":"a","at":0,"op":"replace","k":"!k","v":"1"}
{"s":0,"c":"a","at":0,"op":"remove_keys","ks":["a","!b","c"]}
"#,
        asked: "wa=1 . . da d!b . ",
        report: r#"cache a
0 put ok
0 replace false
0 remove_keys fault writer after 1
"#,
    },
    // Each notice is told to all listeners before the next one is.
    Scene {
        caches: r#"
[[cache]]
name = "a"
capacity = 1
expiry = "created"
duration = 10
listeners = 2
"#,
        behaviour: USUAL,
        sessions: 1,
        calls: r#"
{"s":0,"c":"a","at":0,"op":"put","k":"x","v":"1"}
{"s":0,"c":"a","at":10,"op":"put","k":"y","v":"2"}
"#,
        asked: "1cx 2cx . 1xx 2xx 1cy 2cy . ",
        report: r#"cache a
0 event created "x"
0 put ok
0 event expired "x"
0 event created "y"
0 put ok
"#,
    },
    // Sessions share caches; a value is loaded once for all.
    Scene {
        caches: r#"
[[cache]]
name = "a"
capacity = 4
loader = "echo"
listeners = 2

[[cache]]
name = "b"
capacity = 4
"#,
        behaviour: USUAL,
        sessions: 3,
        calls: r#"
{"s":0,"c":"b","at":0,"op":"put","k":"x","v":"1"}
{"s":1,"c":"b","at":0,"op":"get","k":"x"}
{"s":2,"c":"a","at":0,"op":"get","k":"k"}
{"s":0,"c":"a","at":0,"op":"get","k":"k"}
{"s":1,"c":"a","at":0,"op":"put","k":"k","v":"2"}
{"s":1,"c":"a","at":0,"op":"get","k":"x"}
{"s":0,"c":"a","at":0,"op":"get","k":"k"}
"#,
        asked: ". . lk 1ck 2ck . . 1uk 2uk . lx 1cx 2cx . . ",
        report: r#"cache a
2 event created "k"
2 get some "k"
0 get some "k"
1 event updated "k"
1 put ok
1 event created "x"
1 get some "x"
0 get some "2"
cache b
0 put ok
1 get some "1"
"#,
    },
];

/// Scenes whose callbacks find no memory once, as sessions make their calls; other ways end there.
pub(crate) static POOR: [Scene; 2] = [
    // Each callback finds none for its first question, and the call is given up.
    Scene {
        caches: r#"
[[cache]]
name = "a"
capacity = 4
loader = "echo"
writer = "check"
processors = ["append"]
listeners = 1
"#,
        behaviour: Behaviour { poor: 0, ..USUAL },
        sessions: 2,
        calls: r#"
{"s":0,"c":"a","at":0,"op":"get","k":"k"}
{"s":1,"c":"a","at":0,"op":"get","k":"k"}
{"s":0,"c":"a","at":0,"op":"put","k":"k","v":"1"}
{"s":1,"c":"a","at":0,"op":"put","k":"k","v":"2"}
{"s":0,"c":"a","at":0,"op":"invoke","k":"k","p":0,"arg":"+"}
{"s":1,"c":"a","at":0,"op":"invoke","k":"k","p":0,"arg":"+"}
"#,
        asked: "lk ! lk 1ck . wk=1 ! wk=2 1uk . a:2,+ ! a:2,+ wk=2+ 1uk . ",
        report: r#"cache a
0 get gave up
1 event created "k"
1 get some "k"
0 put gave up
1 event updated "k"
1 put ok
0 invoke gave up
1 event updated "k"
1 invoke some "2+"
"#,
    },
    // What a call has changed before it is given up is told.
    Scene {
        caches: r#"
[[cache]]
name = "a"
capacity = 4
writer = "check"
listeners = 2
"#,
        behaviour: Behaviour { poor: 2, ..USUAL },
        sessions: 2,
        calls: r#"
{"s":0,"c":"a","at":0,"op":"put_all","kvs":[["a","1"],["b","2"],["c","3"]]}
{"s":1,"c":"a","at":0,"op":"remove_keys","ks":["a","c"]}
{"s":1,"c":"a","at":0,"op":"entries"}
"#,
        asked: "wa=1 wb=2 wc=3 1ca 2ca 1cb 2cb ! da dc 1ra 2ra . . ",
        report: r#"cache a
0 event created "a"
0 event created "b"
0 put_all gave up
1 event removed "a"
1 remove_keys ok
1 entries pairs "b"="2"
"#,
    },
];
