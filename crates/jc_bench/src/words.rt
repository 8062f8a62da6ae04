//! What is asked of the program by its words.
use crate::fault::Fault;
use std::alloc::Global;

/// What a thread does again and again, in a session of its own.
#[derive(Clone, Copy, PartialEq, Eq)]
pub enum Kind {
    /// `Session::contains_key` of a key that has a row.
    Lookup,
    /// The same of a key that has none.
    Miss,
    /// `Session::contains` of a key that has a row.
    Contains,
    /// A call `Get` of a key that has a row.
    Get,
    /// A call `Put` of a key that has a row.
    Put,
    /// These two by turns.
    Mix,
    /// A call `GetAll` of 64 keys that have rows.
    Many,
    /// Puts and removals of keys of its own, until all other threads are done.
    Write,
}

/// The kind that a word names.
fn kind_named(word: &str) -> Result<Kind, Fault> {
    match word {
        "lookup" => Ok(Kind::Lookup),
        "miss" => Ok(Kind::Miss),
        "contains" => Ok(Kind::Contains),
        "get" => Ok(Kind::Get),
        "put" => Ok(Kind::Put),
        "mix" => Ok(Kind::Mix),
        "many" => Ok(Kind::Many),
        _ => Err(Fault::Words),
    }
}

impl Kind {
    /// The word that names it.
    pub fn word(self) -> &'static str {
        match self {
            Kind::Lookup => "lookup",
            Kind::Miss => "miss",
            Kind::Contains => "contains",
            Kind::Get => "get",
            Kind::Put => "put",
            Kind::Mix => "mix",
            Kind::Many => "many",
            Kind::Write => "write",
        }
    }
}

/// How large a run is.
#[derive(Clone, Copy)]
pub struct Size {
    /// How many caches there are.
    pub caches: u32,
    /// Rows of each cache.
    pub rows: u32,
    /// Threads that do what is asked.
    pub threads: u32,
    /// Threads that write meanwhile.
    pub writers: u32,
    /// How often each thread does it.
    pub calls: u32,
    /// How many steps of the processor's pause each thread lets go by after each.
    pub between: u32,
    /// How many sessions each thread has for it, one after the other.
    pub sessions: u32,
    /// Whether each thread asks one cache, and no other thread that one where there are enough.
    pub apart: bool,
    /// Whether some rows are in the table's stash.
    pub stashed: bool,
    /// Whether a session creates the caches, in place of the opening.
    pub created: bool,
    /// Whether the caches would load what is missing.
    pub read_through: bool,
    /// Whether the length of each call is told.
    pub timed: bool,
}

/// Over which managers a run goes.
#[derive(Clone, Copy)]
pub enum Managers {
    /// One that keeps all calls.
    AllCalls,
    /// One that keeps its open calls alone.
    OpenCalls,
    /// Two such.
    Two,
    /// One of four shards that do.
    Four,
}

impl Managers {
    /// How many of so many caches each has at most, where they go in turn.
    pub fn most(self, caches: u32) -> u32 {
        match self {
            Managers::AllCalls | Managers::OpenCalls => caches,
            Managers::Two => caches.div_ceil(2),
            Managers::Four => caches.div_ceil(4),
        }
    }
}

/// What the words ask for: these kinds, one after the other, each on managers of its own.
#[derive(Drop)]
pub struct Asked {
    pub kinds: Vec<Kind>,
    pub size: Size,
    pub managers: Managers,
    /// Whether lines are printed without times, and so are the same in each run that has no writers.
    pub counts: bool,
}

/// All options: those that take a number, and those that are there or not.
static OPTIONS: [&str; 15] = [
    "--caches",
    "--rows",
    "--threads",
    "--writers",
    "--calls",
    "--between",
    "--sessions",
    "--shards",
    "--apart",
    "--open",
    "--stashed",
    "--created",
    "--read-through",
    "--counts",
    "--delays",
];

fn is_option(word: &str) -> bool {
    for name in &OPTIONS {
        if word == *name {
            return true;
        }
    }
    false
}

/// Whether an option is named.
fn is_named(words: &[String], name: &str) -> bool {
    for word in words {
        if word.as_str() == name {
            return true;
        }
    }
    false
}

fn number_in(word: &str, (least, most): (u32, u32)) -> Result<u32, Fault> {
    match word.parse::<u32>() {
        Ok(number) if least <= number && number <= most => Ok(number),
        _ => Err(Fault::Words),
    }
}

/// The number behind an option, within its limits; the given one where the option is not named.
fn number_of(words: &[String], name: &str, limits: (u32, u32), given: u32) -> Result<u32, Fault> {
    let (mut number, mut is_next) = (given, false);
    for word in words {
        if is_next {
            number = number_in(word.as_str(), limits)?;
        }
        is_next = word.as_str() == name;
    }
    if is_next {
        return Err(Fault::Words);
    }
    Ok(number)
}

fn size_of(words: &[String]) -> Result<Size, Fault> {
    Ok(Size {
        caches: number_of(words, "--caches", (1, 64), 1)?,
        rows: number_of(words, "--rows", (1, 65_000), 1000)?,
        threads: number_of(words, "--threads", (1, 32), 1)?,
        writers: number_of(words, "--writers", (0, 8), 0)?,
        calls: number_of(words, "--calls", (1, 100_000_000), 100_000)?,
        between: number_of(words, "--between", (0, 1_000_000), 0)?,
        sessions: number_of(words, "--sessions", (1, 1_000_000), 1)?,
        apart: is_named(words, "--apart"),
        stashed: is_named(words, "--stashed"),
        created: is_named(words, "--created"),
        read_through: is_named(words, "--read-through"),
        timed: is_named(words, "--delays"),
    })
}

fn managers_of(words: &[String]) -> Result<Managers, Fault> {
    match number_of(words, "--shards", (1, 4), 1)? {
        1 if is_named(words, "--open") => Ok(Managers::OpenCalls),
        1 => Ok(Managers::AllCalls),
        2 => Ok(Managers::Two),
        4 => Ok(Managers::Four),
        _ => Err(Fault::Words),
    }
}

/// The kinds, which stand in front of the first option.
fn kinds_in(alloc: Global, words: &[String]) -> Result<Vec<Kind>, Fault> {
    let mut kinds = Vec::new(alloc);
    for word in words {
        if word.as_str().starts_with("--") {
            return Ok(kinds);
        }
        kinds.push(kind_named(word.as_str())?)?;
    }
    Ok(kinds)
}

/// Reads all words behind the program's name.
pub fn read_words(alloc: Global, words: &[String]) -> Result<Asked, Fault> {
    for word in words {
        if word.as_str().starts_with("--") && !is_option(word.as_str()) {
            return Err(Fault::Words);
        }
    }
    let kinds = kinds_in(alloc, words)?;
    if kinds.is_empty() {
        return Err(Fault::Words);
    }
    Ok(Asked {
        kinds,
        size: size_of(words)?,
        managers: managers_of(words)?,
        counts: is_named(words, "--counts"),
    })
}
