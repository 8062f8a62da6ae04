//! Callbacks in boxes, and listeners behind stored closures.

use crate::closures::kind_closure;
use crate::scenes::ALL_CALLBACKS;
use jc_config::{Configuration, read_config};
use jc_hooks::program::{CheckWriter, EchoLoader, ProgramProcessor};
use jc_hooks::{
    CacheHooks, Filter, FilteredListener, Listener, ListenerHook, Loader, Processor, TallyListener,
    Writer,
};
use jc_model::call::{Kind, Notice};
use jc_runner::{CacheSetup, WatchedReader, WatchedWriter, serial};
use jc_trials::{EVERY_KIND, EXPIRED_ALONE, Log, NotedListener, Trouble, done, key};
use std::alloc::Global;

type BoxedHooks = CacheHooks<
    Box<dyn Loader>,
    Box<dyn Writer>,
    Box<dyn Processor>,
    ListenerHook<Box<dyn Filter>, Box<dyn Listener>>,
>;

/// A loader, a writer, a processor and a listener, each in a box.
fn boxed(alloc: Global) -> Result<BoxedHooks, Trouble> {
    let append: Box<dyn Processor> = Box::new(alloc, ProgramProcessor::Append)?;
    let filter: Box<dyn Filter> = Box::new(alloc, EVERY_KIND)?;
    let listener: Box<dyn Listener> = Box::new(alloc, TallyListener::new())?;
    let processors = Vec::from_array(alloc, [append])?;
    let listeners = Vec::from_array(alloc, [ListenerHook { filter, listener }])?;
    let loader: Box<dyn Loader> = Box::new(alloc, EchoLoader)?;
    let writer: Box<dyn Writer> = Box::new(alloc, CheckWriter)?;
    Ok(CacheHooks {
        loader: Some(loader),
        writer: Some(writer),
        processors,
        listeners,
    })
}

#[test]
fn boxed_callbacks_answer_as_those_in_the_boxes(rt: HostRuntime) -> Result<(), Trouble> {
    let alloc = rt.alloc();
    let mut hooks = [boxed(alloc)?];
    let Configuration { settings, .. } = read_config(alloc, ALL_CALLBACKS.caches.as_bytes())?;
    let mut reader = WatchedReader::new(ALL_CALLBACKS.calls.as_bytes());
    let mut writer = WatchedWriter::new(Vec::new(alloc));
    let setup = CacheSetup { settings, seed: 0 };
    let ran = serial(alloc, setup, &mut hooks, &mut reader, &mut writer);
    done(ran)?;
    assert_eq!(rt;
        writer.into_inner().as_slice(),
        ALL_CALLBACKS.report.as_bytes()
    );
    Ok(())
}

/// What a listener is told of a change of each kind, behind a closure that admits one kind.
fn told_of_expired(alloc: Global) -> Result<Vec<u8>, Trouble> {
    let log = Log::new(alloc, 4)?;
    let mut hook = ListenerHook {
        filter: kind_closure(alloc, EXPIRED_ALONE)?,
        listener: NotedListener::new(b'1', &log)?,
    };
    for kind in [Kind::Created, Kind::Updated, Kind::Removed, Kind::Expired] {
        hook.hear(&Notice {
            kind,
            key: key("k")?,
            value: None,
            before: None,
        });
    }
    Ok(log.text(alloc)?)
}

#[test]
fn a_listener_is_told_what_its_closure_admits(rt: HostRuntime) -> Result<(), Trouble> {
    assert_eq!(rt; told_of_expired(rt.alloc())?.as_slice(), "1xk ".as_bytes());
    Ok(())
}
