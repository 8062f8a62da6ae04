//! The managers of a run: each gets a name, and several are asked as one.
//!
//! What names one is generic in its journal: that a journal may go to another thread is a bound there, and for the
//! prover nothing to search for.
ghost use Rattle.std.specs.Prelude.{◌≡◌};
ghost use Rattle.jc_shards.specs.Naming.{IsUnder};
ghost use Rattle.jc_shards.specs.Sharded.{four_told_by};

use crate::caches::{SEED, dealing_of, opening};
use crate::fault::Fault;
use crate::jobs::{Done, Run, time_threads};
use crate::words::{Kind, Managers, Size};
use jc_shards::{
    Both, One, Quarters, Seats, ShardNames, Twins, Unasking, Unnamed, open, open_four, open_two,
};
use jc_shared::{AllCalls, JournalPolicy, Name, OpenCalls, SessionJournal};
use std::alloc::Global;
use std::marker::Brand;
use std::sync::Wait;
use std::thread::Threads;
use std::time::{Clock, CpuClock};

/// Over one manager under this name.
fn played_one<
    N: Name + Send + Sync,
    J: JournalPolicy + Send,
    R: Threads + Wait + Clock + CpuClock + Sync,
>(rt: &R, alloc: Global, unnamed: Unnamed<J>, run: Run<'_>) -> Result<Vec<Done>, Fault>
where
    J::Own: Send,
    J::Held: Send,
    <J::Own as SessionJournal>::Kept: Send,
    requires { IsUnder unnamed N.configs N.stated N.index }
{
    let manager = unnamed.named::<N>();
    let done = time_threads(rt, alloc, &One { manager: &manager }, run);
    manager.discard();
    done
}

/// The same, under a name that this call picks.
fn named_one<J: JournalPolicy + Send, R: Threads + Wait + Clock + CpuClock + Sync>(
    rt: &R,
    alloc: Global,
    unnamed: Unnamed<J>,
    run: Run<'_>,
) -> Result<Vec<Done>, Fault>
where
    J::Own: Send,
    J::Held: Send,
    <J::Own as SessionJournal>::Kept: Send,
{
    played_one::<Brand, J, R>(rt, alloc, unnamed, run)
}

/// Over two as one.
fn time_two<
    A: Seats + Send + Sync,
    B: Seats + Send + Sync,
    R: Threads + Wait + Clock + CpuClock + Sync,
>(rt: &R, alloc: Global, (left, right): (&A, &B), run: Run<'_>) -> Result<Vec<Done>, Fault> {
    time_threads(rt, alloc, &Both { left, right }, run)
}

/// Over two managers under these names.
fn played_two<
    A: Name + Send + Sync,
    B: Name + Send + Sync,
    J: JournalPolicy + Send,
    R: Threads + Wait + Clock + CpuClock + Sync,
>(rt: &R, alloc: Global, twins: Twins<J>, run: Run<'_>) -> Result<Vec<Done>, Fault>
where
    J::Own: Send,
    J::Held: Send,
    <J::Own as SessionJournal>::Kept: Send,
    requires left { IsUnder twins.left A.configs A.stated A.index }
    requires right { IsUnder twins.right B.configs B.stated B.index }
{
    let Twins { left, right } = twins;
    let (left, right) = (left.named::<A>(), right.named::<B>());
    let done = time_two(
        rt,
        alloc,
        (&One { manager: &left }, &One { manager: &right }),
        run,
    );
    left.discard();
    right.discard();
    done
}

/// The same over managers that keep their open calls alone, under names that this call picks.
fn named_two<R: Threads + Wait + Clock + CpuClock + Sync>(
    rt: &R,
    alloc: Global,
    twins: Twins,
    run: Run<'_>,
) -> Result<Vec<Done>, Fault> {
    played_two::<Brand, Brand, OpenCalls, R>(rt, alloc, twins, run)
}

/// Over a pair, and two more beside it, as one.
fn time_beside<
    S: Seats + Send + Sync,
    A: Seats + Send + Sync,
    B: Seats + Send + Sync,
    R: Threads + Wait + Clock + CpuClock + Sync,
>(
    rt: &R,
    alloc: Global,
    pair: &S,
    (left, right): (&A, &B),
    run: Run<'_>,
) -> Result<Vec<Done>, Fault> {
    time_two(rt, alloc, (pair, &Both { left, right }), run)
}

/// Over a pair, and two shards beside it.
fn time_right<
    S: Seats + Send + Sync,
    A: Name + Send + Sync,
    B: Name + Send + Sync,
    J: JournalPolicy + Send,
    R: Threads + Wait + Clock + CpuClock + Sync,
>(
    rt: &R,
    alloc: Global,
    pair: &S,
    (left, right): (&Unasking<A, J>, &Unasking<B, J>),
    run: Run<'_>,
) -> Result<Vec<Done>, Fault>
where
    J::Own: Send,
    J::Held: Send,
    <J::Own as SessionJournal>::Kept: Send,
{
    time_beside(
        rt,
        alloc,
        pair,
        (&One { manager: left }, &One { manager: right }),
        run,
    )
}

/// Over two, and two shards beside them.
fn time_left<
    A: Seats + Send + Sync,
    B: Seats + Send + Sync,
    C: Name + Send + Sync,
    D: Name + Send + Sync,
    J: JournalPolicy + Send,
    R: Threads + Wait + Clock + CpuClock + Sync,
>(
    rt: &R,
    alloc: Global,
    (left, right): (&A, &B),
    others: (&Unasking<C, J>, &Unasking<D, J>),
    run: Run<'_>,
) -> Result<Vec<Done>, Fault>
where
    J::Own: Send,
    J::Held: Send,
    <J::Own as SessionJournal>::Kept: Send,
{
    time_right(rt, alloc, &Both { left, right }, others, run)
}

/// Over a manager of four shards under this name.
fn played_four<
    N: ShardNames + Send + Sync,
    J: JournalPolicy + Send,
    R: Threads + Wait + Clock + CpuClock + Sync,
>(rt: &R, alloc: Global, quarters: Quarters<J>, run: Run<'_>) -> Result<Vec<Done>, Fault>
where
    J::Own: Send,
    J::Held: Send,
    <J::Own as SessionJournal>::Kept: Send,
    requires { four_told_by quarters.left.left quarters.left.right quarters.right.left
        quarters.right.right ≡ N.shards }
{
    let manager = quarters.named::<N>();
    let (first, second, third, fourth) = manager.shards();
    let done = time_left(
        rt,
        alloc,
        (&One { manager: first }, &One { manager: second }),
        (third, fourth),
        run,
    );
    manager.discard();
    done
}

/// The same over shards that keep their open calls alone, under a name that this call picks.
fn named_four<R: Threads + Wait + Clock + CpuClock + Sync>(
    rt: &R,
    alloc: Global,
    quarters: Quarters,
    run: Run<'_>,
) -> Result<Vec<Done>, Fault> {
    played_four::<Brand, OpenCalls, R>(rt, alloc, quarters, run)
}

/// Over one manager that keeps its open calls alone.
fn play_open<R: Threads + Wait + Clock + CpuClock + Sync>(
    rt: &R,
    alloc: Global,
    unnamed: Unnamed,
    run: Run<'_>,
) -> Result<Vec<Done>, Fault> {
    named_one::<OpenCalls, R>(rt, alloc, unnamed, run)
}

/// Does one kind on managers of its own. The result has what each thread did, the writers last.
pub fn play<R: Threads + Wait + Clock + CpuClock + Sync>(
    rt: &R,
    alloc: Global,
    kind: Kind,
    size: Size,
    managers: Managers,
) -> Result<Vec<Done>, Fault> {
    let dealing = dealing_of(alloc, size, managers)?;
    let configs = opening(alloc, size, managers)?;
    let run = Run {
        dealing: &dealing,
        kind,
        size,
        managers,
    };
    match managers {
        Managers::AllCalls => named_one::<AllCalls, R>(rt, alloc, open(alloc, configs, SEED)?, run),
        Managers::OpenCalls => play_open(rt, alloc, open(alloc, configs, SEED)?, run),
        Managers::Two => named_two(rt, alloc, open_two(alloc, &dealing, 0, configs, SEED)?, run),
        Managers::Four => {
            let shards = open_four(alloc, dealing_of(alloc, size, managers)?, configs, SEED)?;
            named_four(rt, alloc, shards, run)
        }
    }
}
