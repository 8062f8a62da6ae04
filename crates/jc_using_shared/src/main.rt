//! A service in front of a directory of users: threads share a cache that is read through and written through, by calls
//! whose answers the directory gives.
#![tactic(auto)]

mod by_hand;
mod directory;
mod fault;
mod visits;

use crate::by_hand::get_by_hand;
use crate::directory::Directory;
use crate::fault::Fault;
use crate::visits::{refuse, visit};
use jc::{CacheConfig, CacheId, Key, Manager, Name, Reply, Service, reply_text, serve};
use std::alloc::Global;
use std::io::Print;
use std::sync::Wait;
use std::thread::Threads;

/// The cache of users, the only one.
pub fn users() -> CacheId {
    CacheId::new(0)
}

/// What the threads have in common beside the cache.
#[derive(Drop)]
struct UserService<'a, R> {
    rt: &'a R,
    alloc: Global,
    directory: &'a Directory,
}

impl<R: Wait> Service for UserService<'_, R> {
    type Visit = Result<Reply, Fault>;

    type Outcome = Result<Vec<String>, Fault>;

    fn threads(&self) -> usize {
        4
    }

    fn visit<N: Name>(&self, manager: &Manager<N>, thread: usize) -> Result<Reply, Fault> {
        visit(self.rt, self.alloc, manager, self.directory, thread)
    }

    fn finish<N: Name>(
        self,
        manager: &Manager<N>,
        visits: Vec<Result<Reply, Fault>>,
    ) -> Result<Vec<String>, Fault> {
        let UserService {
            rt,
            alloc,
            directory,
        } = self;
        let mut lines = Vec::new(alloc);
        for reply in visits {
            lines.push(format!(in alloc; "ann: {}", reply_text(alloc, &reply?)?)?)?;
        }
        refuse(rt, alloc, manager, directory, &mut lines)?;
        get_by_hand(rt, alloc, manager, directory, &mut lines)?;
        Ok(lines)
    }
}

/// Serves a cache of 1,000 users, each for half an hour after its last use, and prints what its visitors got.
fn show<R: Threads + Wait + Print + Sync>(rt: &R, alloc: Global) -> Result<(), Fault> {
    let directory = Directory::with_ann(alloc)?;
    let config = CacheConfig::new(alloc, Key::from_text("users")?, 1_000)
        .expire_after_access(1_800_000)
        .read_through()
        .write_through();
    let configs = vec![in alloc; config]?;
    let directory_lent = &directory;
    let service = UserService {
        rt,
        alloc,
        directory: directory_lent,
    };
    let served = serve(rt, alloc, configs, 0, service)?;
    for line in served.outcome? {
        println!(rt; "{line}")?;
    }
    println!(rt; "left open: {}", served.open.is_some())?;
    Ok(())
}

fn main(rt: HostRuntime) -> Result<(), Fault> {
    show(&rt, rt.alloc())
}
