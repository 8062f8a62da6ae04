//! The texts of help.

/// What `--version` prints after the program's name: its version, and the logic by which this text was proved.
pub const VERSION: &str = "0.1.0 (Rattle logic dac8208d650f15bf)";

/// What the program does, in a line.
pub const ABOUT: &str = "Runs a script of cache calls and prints what each cache answered";

/// What `run` does, in a line.
pub const RUN: &str = "Runs the calls of SCRIPT on the caches of CONFIG";

/// What `check` does, in a line.
pub const CHECK: &str = "Reads CONFIG and SCRIPT, runs nothing, and tells the first fault, or all";

/// What `replay` does, in a line.
pub const REPLAY: &str = "Counts the lookups of TRACE that find a value, by capacity";

/// All ways to start the program.
pub const USAGE: &str = "\
jcache run [OPTIONS] <CONFIG> <SCRIPT>
       jcache check [OPTIONS] <CONFIG> [SCRIPT]
       jcache replay <TRACE> --capacity <LIST>
       jcache < SCRIPT";

/// The first argument, in a line.
pub const CONFIG: &str = "Path of the configuration, a TOML file; - is standard input";

/// The second argument, in a line.
pub const SCRIPT: &str = "Path of the script, one JSON object a line; - is standard input";

/// The argument of `replay`, in a line.
pub const TRACE: &str = "Path of the trace, one key a line; - is standard input";

/// The option `--capacity`, in a line; `crate::capacities` has the limits.
pub const CAPACITY: &str = "Rows of the cache, from 1 to 65536, or several with commas between";

/// The option `--workers`, in a line; `crate::command` has the limits.
pub const WORKERS: &str = "From 1 to 8; session s makes its calls on worker s mod N";

/// The option `--seed`, in a line. Its greatest number is `i64::MAX`.
pub const SEED: &str =
    "From 0 to 9223372036854775807; picks places in the table, and changes no report";

/// The option `--serial`, in a line.
pub const SERIAL: &str =
    "No workers: one thread makes all calls, in the script's order; not beside --workers";

/// The option `--format`, in a line.
pub const FORMAT: &str =
    "The report's form: text, or json, an object a line for each line of SCRIPT and each cache";

/// The option `--format` of `replay`, in a line.
pub const TABLE: &str = "The table's form: text, or json, an object a line for each capacity";

/// The option `--strict`, in a line.
pub const STRICT: &str =
    "Refuses a line with a member twice or that its op does not need, and a CONFIG without caches";

/// The option `--all`, in a line.
pub const ALL: &str = "Tells the faults of all tables of CONFIG, or of all lines of SCRIPT";

/// The option `--explain`, in a line.
pub const EXPLAIN: &str =
    "Details below a fault's line: always, never, auto (at a terminal); --explain alone is always";

/// What words are told whose capacities are no list.
pub const NO_LIST: &str =
    "invalid value for '--capacity <LIST>': not numbers in 1..=65536 with commas between";

/// What words are told that name no form of a report.
pub const NO_FORMAT: &str = "invalid value for '--format <FORM>': not text or json";

/// What words are told that name no time to explain.
pub const NO_EXPLAIN: &str = "invalid value for '--explain <WHEN>': not always, never or auto";

/// What stands below the arguments in the program's short help.
pub const BRIEF: &str = "--help shows an example of each file, all ops, and the statuses.";

/// What stands there in help of `run` and of `check`.
pub const AFTER_FILES: &str = "\
One of the two paths may be -. jcache --help shows an example of each file, all
ops, and the statuses.";

/// What stands there in help of `replay`.
pub const AFTER_TRACE: &str = "\
Every key is looked up, and put where it was not there. A line for each capacity
tells it, the lookups, the hits, and these in percent.";

/// What stands there in the program's long help.
pub const AFTER: &str = "\
Without any words the script is read from standard input, and its caches are a,
with room for 2 rows that never expire, and b, with room for 1 row that expires
100 milliseconds after its creation. One of the two paths may be -, which is
standard input.

CONFIG lists the caches. Of a table's members only name and capacity have to be
there, and duration where expiry is not \"eternal\":

    [[cache]]
    name = \"a\"
    capacity = 100              # rows, 1 to 65536
    expiry = \"accessed\"         # eternal, created, accessed, modified, touched
    duration = 60000            # milliseconds
    loader = \"echo\"
    writer = \"check\"
    processors = [\"append\", \"peek\", \"drop\", \"fail\"]
    listeners = 1               # 0 to 8

    [[cache]]
    name = \"b\"
    capacity = 1

SCRIPT is a line for each call: the session s (0 to 63), the cache c, the moment
at in milliseconds, the op, and what the op needs:

    {\"s\":0,\"c\":\"a\",\"at\":0,\"op\":\"put\",\"k\":\"x\",\"v\":\"1\"}
    {\"s\":0,\"c\":\"a\",\"at\":5,\"op\":\"get\",\"k\":\"x\"}

Ops and what they need besides:
    k               get contains remove get_and_remove
    k v             put get_and_put put_if_absent replace get_and_replace
    k expect        remove_if
    k expect v      replace_if
    k p arg         invoke
    ks              get_all remove_keys
    ks replace      load_all
    ks p arg        invoke_all
    kvs             put_all
    nothing         remove_all clear entries stats clear_stats destroy
    capacity        create, which may have expiry and duration too

k is a key, v and expect are values, ks is a list of keys, kvs a list of pairs
of a key and a value, replace is true or false, p is the place of a processor
from 0, and arg is its argument. create makes a cache of the name c with a
table's members, without callbacks; destroy ends the cache c.

A MEMBER THAT THE OP DOES NOT NEED IS IGNORED, ALSO WHERE IT IS MISSPELT: with
\"expire\" and \"duraton\" for \"expiry\" and \"duration\" create makes a cache that
never expires. --strict refuses such a line.

replay reads TRACE, which has a key a line, for a cache of each capacity in the
list. Every key is looked up, and put where it was not there. A line for each
capacity tells it, the lookups, the hits, and these in percent.

Status:
    0  the report or the table was printed, or the files that were checked are
       fine, or help or the version was asked for
    1  a file is faulty, or reading, writing or memory failed; standard error
       has one line that says which
    2  the command line was refused; standard error says why
  141  nobody reads standard output any more; standard error has nothing";
