//! A manager that threads share, and its sessions.
#![tactic(auto)]

mod at_once;
mod brief_lock;
mod by_hand;
mod carry;
mod created;
mod directory;
mod lent;
mod manager;
mod pending;
mod session;
mod shared;
mod unfound;

pub use jc_engine::journal::all_calls::AllCalls;
pub use jc_engine::journal::open_calls::OpenCalls;
pub use jc_locked::auditing::{Logged, SessionLog, audit};
pub use jc_locked::fault::{
    AnswerFault, CallFault, CloseFault, CreateFault, DestroyFault, SessionRefusal, SharedRefusal,
};
pub use jc_locked::hooks::SharedHooks;
pub use jc_locked::journal_policy::{JournalPolicy, OwnList, OwnPast, SessionJournal};
pub use jc_locked::name::Name;
pub use jc_locked::tables::{Table, table};
pub use manager::Manager;
pub use pending::{PendingCall, Progress};
pub use session::Session;
pub use shared::Shared;
