//! One door to the cache manager: what a program of one's own needs of it.
//!
//! `Engine` is the manager that one thread has. `serve` opens a manager that threads share, and hands it to a `Service` for
//! as long as it lives; `Sharded` is four of them. Callbacks of one's own (`CacheHooks`) need `Shared` and `Manager` of
//! `jc_shared`, whose callers pick the manager's name.
#![tactic(auto)]

mod serving;

pub use jc_engine::engine::Engine;
pub use jc_engine::open::{OpenRefusal, open_refusal};
pub use jc_hooks::{CacheHooks, Loaded, Responder, load_answer, write_answer};
pub use jc_index::lookup::Lookup;
pub use jc_model::OutOfMemory;
pub use jc_model::call::{Action, Answer, Call, Notice, ProcessorFault, Reply, Request, Verdict};
pub use jc_model::config::CacheConfig;
pub use jc_model::event::{CacheId, Cause, Step};
pub use jc_model::key::{Key, KeyFault};
pub use jc_model::keys::{Keys, Pairs};
pub use jc_model::value::{Value, ValueFault};
pub use jc_report::reply_text;
pub use jc_ring::list_ring::ListRing;
pub use jc_rows::list_rows::ListRows;
pub use jc_shards::{Caches, Quarters, ShardNames, Sharded, open_four, open_four_in_turn};
pub use jc_shared::{
    AnswerFault, CallFault, CreateFault, DestroyFault, Name, PendingCall, Progress, SessionRefusal,
    SharedRefusal,
};
pub use serving::{Manager, Served, Service, Session, serve};
