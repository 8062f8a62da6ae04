//! Callbacks that note what they are asked, and then do as another.

use crate::log::{Log, Text};
use jc_hooks::{Filter, Listener, ListenerHook, Loaded, Loader, Processor, Writer};
use jc_model::OutOfMemory;
use jc_model::call::{Kind, Notice, ProcessorFault, Verdict};
use jc_model::key::Key;
use jc_model::value::Value;
use std::alloc::{AllocError, Global};
use std::sync::atomic::{AtomicU64, Ordering};

/// Notes `l` and the key.
#[derive(Drop)]
pub struct NotedLoader<L> {
    loader: L,
    log: Log,
}

impl<L: Drop> NotedLoader<L> {
    /// It asks `loader`, and notes in a share of `log`.
    pub fn new(loader: L, log: &Log) -> Result<NotedLoader<L>, OutOfMemory> {
        let log = log.share()?;
        Ok(NotedLoader { loader, log })
    }
}

impl<L: Loader> Loader for NotedLoader<L> {
    ghost load_of = { λ s. L.load_of s.loader };

    fn load(&self, alloc: Global, key: &Key) -> Result<Loaded, OutOfMemory> {
        self.log.note(Text::of(b"l").and(key.text().as_bytes()));
        self.loader.load(alloc, key)
    }
}

/// Notes `w`, the key and the value, or `d` and the key.
#[derive(Drop)]
pub struct NotedWriter<W> {
    writer: W,
    log: Log,
}

impl<W: Drop> NotedWriter<W> {
    /// It asks `writer`, and notes in a share of `log`.
    pub fn new(writer: W, log: &Log) -> Result<NotedWriter<W>, OutOfMemory> {
        let log = log.share()?;
        Ok(NotedWriter { writer, log })
    }
}

impl<W: Writer> Writer for NotedWriter<W> {
    ghost may = { λ s. W.may s.writer };

    fn write(&mut self, alloc: Global, key: &Key, value: &Value) -> Result<bool, OutOfMemory> {
        let written = Text::of(b"w").and(key.text().as_bytes());
        self.log.note(written.and(b"=").and(value.bytes()));
        self.writer.write(alloc, key, value)
    }

    fn delete(&mut self, alloc: Global, key: &Key) -> Result<bool, OutOfMemory> {
        self.log.note(Text::of(b"d").and(key.text().as_bytes()));
        self.writer.delete(alloc, key)
    }
}

/// Notes its name, the value that it is given and the argument, since it is not told the key.
#[derive(Drop)]
pub struct NotedProcessor<P> {
    name: &'static [u8],
    processor: P,
    log: Log,
}

impl<P: Drop> NotedProcessor<P> {
    /// It asks `processor`, and notes in a share of `log`.
    pub fn new(
        name: &'static [u8],
        processor: P,
        log: &Log,
    ) -> Result<NotedProcessor<P>, OutOfMemory> {
        let log = log.share()?;
        Ok(NotedProcessor {
            name,
            processor,
            log,
        })
    }
}

impl<P: Processor> Processor for NotedProcessor<P> {
    ghost wants = { λ s. P.wants s.processor };

    ghost verdict_of = { λ s. P.verdict_of s.processor };

    fn wants_value(&self) -> bool {
        self.processor.wants_value()
    }

    fn process(
        &self,
        alloc: Global,
        value: Option<&Value>,
        argument: &Value,
    ) -> Result<Result<Verdict, ProcessorFault>, OutOfMemory> {
        let mut given = Text::of(self.name);
        if let Some(value) = value {
            given = given.and(b":").and(value.bytes());
        }
        self.log.note(given.and(b",").and(argument.bytes()));
        self.processor.process(alloc, value, argument)
    }
}

/// Notes its name, the kind's first letter and the key.
#[derive(Drop)]
pub struct NotedListener {
    name: u8,
    log: Log,
}

impl NotedListener {
    /// It has this name, and notes in a share of `log`.
    pub fn new(name: u8, log: &Log) -> Result<NotedListener, OutOfMemory> {
        let log = log.share()?;
        Ok(NotedListener { name, log })
    }
}

/// Which kinds of change a listener is told of.
#[derive(Clone, Copy)]
pub struct KindFilter {
    pub created: bool,
    pub updated: bool,
    pub removed: bool,
    pub expired: bool,
}

/// Admits changes of every kind.
pub const EVERY_KIND: KindFilter = KindFilter {
    created: true,
    updated: true,
    removed: true,
    expired: true,
};

/// Admits only that a row has expired.
pub const EXPIRED_ALONE: KindFilter = KindFilter {
    created: false,
    updated: false,
    removed: false,
    expired: true,
};

impl Filter for KindFilter {
    ghost use Rattle.jc_trials.specs.Filters.{has_kind};

    ghost lets = { λ filter notice. has_kind filter notice.kind };

    fn admits(&self, notice: &Notice) -> bool {
        match notice.kind {
            Kind::Created => self.created,
            Kind::Updated => self.updated,
            Kind::Removed => self.removed,
            Kind::Expired => self.expired,
        }
    }
}

/// A listener that notes the kinds that its filter has.
pub type NotedHook = ListenerHook<KindFilter, NotedListener>;

/// So many listeners, with the names `1`, `2` and so on, each behind the filter.
pub fn noted_listeners(
    alloc: Global,
    count: u8,
    filter: KindFilter,
    log: &Log,
) -> Result<Vec<NotedHook>, OutOfMemory> {
    let mut listeners = Vec::new(alloc);
    for name in b'1'..b'1'.saturating_add(count) {
        let listener = NotedListener::new(name, log)?;
        listeners.push(ListenerHook { filter, listener })?;
    }
    Ok(listeners)
}

fn letter(kind: Kind) -> &'static [u8] {
    match kind {
        Kind::Created => b"c",
        Kind::Updated => b"u",
        Kind::Removed => b"r",
        Kind::Expired => b"x",
    }
}

impl Listener for NotedListener {
    ghost use Rattle.std.specs.Prelude.{[]};

    ghost state_after = { λ _ _. [] };

    fn tell(&mut self, notice: &Notice) {
        let told = Text::of(&[self.name]).and(letter(notice.kind));
        self.log.note(told.and(notice.key.text().as_bytes()));
    }
}

/// Another callback, which finds no memory for one of its questions.
#[derive(Drop)]
pub struct OncePoor<T> {
    inner: T,
    /// The number of that question, from 0.
    poor: u64,
    asked: AtomicU64,
}

impl<T> OncePoor<T> {
    /// Question number `poor`, from 0, is refused; all others go on to `inner`.
    pub fn new(inner: T, poor: u64) -> OncePoor<T> {
        OncePoor {
            inner,
            poor,
            asked: AtomicU64::new(0),
        }
    }

    /// Counts a question, and refuses it where it is the one.
    fn count(&self) -> Result<(), OutOfMemory> {
        if self.asked.fetch_add(1, Ordering::SeqCst) == self.poor {
            Err(AllocError)
        } else {
            Ok(())
        }
    }
}

impl<L: Loader> Loader for OncePoor<L> {
    ghost load_of = { λ s. L.load_of s.inner };

    fn load(&self, alloc: Global, key: &Key) -> Result<Loaded, OutOfMemory> {
        self.count()?;
        self.inner.load(alloc, key)
    }
}

impl<W: Writer> Writer for OncePoor<W> {
    ghost may = { λ s. W.may s.inner };

    fn write(&mut self, alloc: Global, key: &Key, value: &Value) -> Result<bool, OutOfMemory> {
        self.count()?;
        self.inner.write(alloc, key, value)
    }

    fn delete(&mut self, alloc: Global, key: &Key) -> Result<bool, OutOfMemory> {
        self.count()?;
        self.inner.delete(alloc, key)
    }
}

impl<P: Processor> Processor for OncePoor<P> {
    ghost wants = { λ s. P.wants s.inner };

    ghost verdict_of = { λ s. P.verdict_of s.inner };

    fn wants_value(&self) -> bool {
        self.inner.wants_value()
    }

    fn process(
        &self,
        alloc: Global,
        value: Option<&Value>,
        argument: &Value,
    ) -> Result<Result<Verdict, ProcessorFault>, OutOfMemory> {
        self.count()?;
        self.inner.process(alloc, value, argument)
    }
}
