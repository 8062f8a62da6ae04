//! The rows on managers: caches, and lines of a script.

use crate::row::Ends;

/// Caches, a script, and when its calls go on that ask.
pub struct Scene {
    pub name: &'static str,
    pub caches: &'static str,
    pub calls: &'static str,
    pub ends: Ends,
}

/// A cache without callbacks.
const PLAIN: &str = r#"
[[cache]]
name = "a"
capacity = 8
"#;

pub static SCENES: [Scene; 10] = [
    Scene {
        name: "a writer's fault ends a call on many keys",
        caches: r#"
[[cache]]
name = "a"
capacity = 8
writer = "check"
"#,
        calls: r#"
{"s":0,"c":"a","at":0,"op":"put_all","kvs":[["a","1"],["!b","2"],["c","3"]]}
{"s":0,"c":"a","at":0,"op":"contains","k":"a"}
{"s":0,"c":"a","at":0,"op":"contains","k":"c"}
"#,
        ends: Ends::AtOnce,
    },
    Scene {
        name: "a loader's fault ends a call on many keys",
        caches: r#"
[[cache]]
name = "a"
capacity = 8
loader = "echo"
"#,
        calls: r#"
{"s":0,"c":"a","at":0,"op":"put","k":"a","v":"1"}
{"s":0,"c":"a","at":0,"op":"get_all","ks":["a","-b","c"]}
{"s":0,"c":"a","at":0,"op":"get_all","ks":["a","!d","e"]}
{"s":0,"c":"a","at":0,"op":"load_all","ks":["a"],"replace":true}
{"s":0,"c":"a","at":0,"op":"get","k":"a"}
{"s":0,"c":"a","at":0,"op":"stats"}
"#,
        ends: Ends::AtOnce,
    },
    Scene {
        name: "processors take turns",
        caches: r#"
[[cache]]
name = "a"
capacity = 8
loader = "echo"
processors = ["append", "fail", "drop", "peek"]
"#,
        calls: r#"
{"s":0,"c":"a","at":0,"op":"invoke","k":"k","p":0,"arg":"+"}
{"s":0,"c":"a","at":0,"op":"invoke","k":"k","p":1,"arg":""}
{"s":0,"c":"a","at":0,"op":"invoke_all","ks":["k","x"],"p":3,"arg":""}
{"s":0,"c":"a","at":0,"op":"invoke","k":"k","p":2,"arg":""}
{"s":0,"c":"a","at":0,"op":"stats"}
"#,
        ends: Ends::AtOnce,
    },
    Scene {
        name: "all rows are walked in the order of the ring",
        caches: r#"
[[cache]]
name = "a"
capacity = 3
expiry = "created"
duration = 10
listeners = 1
"#,
        calls: r#"
{"s":0,"c":"a","at":0,"op":"put_all","kvs":[["x","1"],["y","2"]]}
{"s":0,"c":"a","at":5,"op":"put","k":"z","v":"3"}
{"s":0,"c":"a","at":10,"op":"entries"}
{"s":0,"c":"a","at":10,"op":"remove_all"}
{"s":0,"c":"a","at":10,"op":"stats"}
"#,
        ends: Ends::AtOnce,
    },
    Scene {
        name: "the used row is spared",
        caches: r#"
[[cache]]
name = "a"
capacity = 2
"#,
        calls: r#"
{"s":0,"c":"a","at":0,"op":"put","k":"x","v":"1"}
{"s":0,"c":"a","at":0,"op":"put","k":"y","v":"2"}
{"s":0,"c":"a","at":0,"op":"get","k":"x"}
{"s":0,"c":"a","at":0,"op":"put","k":"z","v":"3"}
{"s":0,"c":"a","at":0,"op":"contains","k":"x"}
{"s":0,"c":"a","at":0,"op":"contains","k":"y"}
{"s":0,"c":"a","at":0,"op":"contains","k":"z"}
{"s":0,"c":"a","at":0,"op":"stats"}
"#,
        ends: Ends::AtOnce,
    },
    Scene {
        name: "a get renews its row",
        caches: r#"
[[cache]]
name = "a"
capacity = 8
expiry = "accessed"
duration = 10
"#,
        calls: r#"
{"s":0,"c":"a","at":0,"op":"put","k":"x","v":"1"}
{"s":0,"c":"a","at":9,"op":"get","k":"x"}
{"s":0,"c":"a","at":18,"op":"get","k":"x"}
{"s":0,"c":"a","at":28,"op":"get","k":"x"}
"#,
        ends: Ends::AtOnce,
    },
    Scene {
        name: "each conditional call in turn",
        caches: PLAIN,
        calls: r#"
{"s":0,"c":"a","at":0,"op":"put_if_absent","k":"x","v":"1"}
{"s":0,"c":"a","at":0,"op":"get_and_put","k":"x","v":"2"}
{"s":0,"c":"a","at":0,"op":"replace","k":"x","v":"3"}
{"s":0,"c":"a","at":0,"op":"replace_if","k":"x","expect":"3","v":"4"}
{"s":0,"c":"a","at":0,"op":"get_and_replace","k":"x","v":"5"}
{"s":0,"c":"a","at":0,"op":"remove_if","k":"x","expect":"9"}
{"s":0,"c":"a","at":0,"op":"remove_if","k":"x","expect":"5"}
{"s":0,"c":"a","at":0,"op":"remove","k":"x"}
{"s":0,"c":"a","at":0,"op":"get_and_remove","k":"x"}
{"s":0,"c":"a","at":0,"op":"replace","k":"x","v":"6"}
{"s":0,"c":"a","at":0,"op":"put","k":"x","v":"7"}
{"s":0,"c":"a","at":0,"op":"get_and_remove","k":"x"}
{"s":0,"c":"a","at":0,"op":"stats"}
{"s":0,"c":"a","at":0,"op":"put_all","kvs":[["a","1"],["b","2"]]}
{"s":0,"c":"a","at":0,"op":"remove_keys","ks":["a"]}
{"s":0,"c":"a","at":0,"op":"clear"}
{"s":0,"c":"a","at":0,"op":"contains","k":"b"}
{"s":0,"c":"a","at":0,"op":"stats"}
{"s":0,"c":"a","at":0,"op":"clear_stats"}
{"s":0,"c":"a","at":0,"op":"stats"}
"#,
        ends: Ends::AtOnce,
    },
    Scene {
        name: "caches come and go, and names are given again",
        caches: PLAIN,
        calls: r#"
{"s":0,"c":"b","at":0,"op":"create","capacity":1}
{"s":0,"c":"b","at":0,"op":"put","k":"x","v":"1"}
{"s":0,"c":"c","at":0,"op":"create","capacity":1}
{"s":0,"c":"c","at":0,"op":"put","k":"x","v":"2"}
{"s":0,"c":"d","at":0,"op":"create","capacity":1}
{"s":0,"c":"d","at":0,"op":"put","k":"x","v":"3"}
{"s":0,"c":"b","at":0,"op":"destroy"}
{"s":0,"c":"e","at":0,"op":"create","capacity":1}
{"s":0,"c":"e","at":0,"op":"put","k":"x","v":"4"}
{"s":0,"c":"b","at":0,"op":"create","capacity":1}
{"s":0,"c":"b","at":0,"op":"get","k":"x"}
{"s":0,"c":"b","at":0,"op":"put","k":"x","v":"5"}
{"s":0,"c":"d","at":0,"op":"destroy"}
{"s":0,"c":"a","at":0,"op":"destroy"}
{"s":0,"c":"c","at":0,"op":"get","k":"x"}
{"s":0,"c":"e","at":0,"op":"get","k":"x"}
{"s":0,"c":"b","at":0,"op":"get","k":"x"}
"#,
        ends: Ends::AtOnce,
    },
    Scene {
        name: "two caches take turns",
        caches: r#"
[[cache]]
name = "a"
capacity = 8
loader = "echo"

[[cache]]
name = "b"
capacity = 8
"#,
        calls: r#"
{"s":0,"c":"a","at":0,"op":"get","k":"k"}
{"s":1,"c":"b","at":0,"op":"put","k":"x","v":"1"}
"#,
        ends: Ends::Last,
    },
    Scene {
        name: "a call given up keeps its finished keys",
        caches: r#"
[[cache]]
name = "a"
capacity = 8
writer = "check"
listeners = 1
"#,
        calls: r#"
{"s":0,"c":"a","at":0,"op":"put_all","kvs":[["a","1"],["b","2"]]}
{"s":0,"c":"a","at":0,"op":"contains","k":"a"}
{"s":0,"c":"a","at":0,"op":"contains","k":"b"}
{"s":0,"c":"a","at":0,"op":"stats"}
"#,
        ends: Ends::GivenUp,
    },
];
