//! Several managers as one, for threads that ask different caches: each manager has a table and a lock of its own.
//!
//! A caller has a session of each, and a tree over them that hands each call on to the manager that has its cache. A
//! new cache goes where a dealing picks for its name: so no two live caches have one name where all callers have one
//! dealing, by which the caches of the opening were dealt out too.
#![tactic(auto)]

mod by_hand;
mod caches;
mod naming;
mod opening;
mod pair;
mod quarters;
mod seats;
mod shard;
mod shard_map;
mod shard_names;
mod sharded;
mod side;

pub use by_hand::CallsByHand;
pub use caches::{Caches, LentCalls};
pub use naming::{create, find};
pub use opening::{HalfRefusal, Twins, Unnamed, open, open_two};
pub use pair::Pair;
pub use quarters::{QuarterRefusal, Quarters, open_four, open_four_in_turn};
pub use seats::{Both, One, Seats};
pub use shard::{Shard, Unasking};
pub use shard_map::ShardMap;
pub use shard_names::{FirstOf, FourthOf, SecondOf, ShardNames, ThirdOf};
pub use sharded::{
    PairSeat, Sharded, ShardedCall, ShardedId, ShardedManager, ShardedSeat, ShardedSession,
};
pub use side::Side;
