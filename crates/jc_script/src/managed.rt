//! What became of the lines that create and destroy caches.

use jc_model::event::CreateRefusal;
use jc_model::key::Key;

/// A line creates a cache or destroys one.
#[derive(Clone, Copy, Debug, PartialEq, Eq)]
pub enum ManageOp {
    Create,
    Destroy,
}

/// A line that creates or destroys the cache of this name, and why it was refused, if it was.
#[derive(Debug, Drop, PartialEq, Eq)]
pub struct Managed {
    pub session: u32,
    pub op: ManageOp,
    pub name: Key,
    pub refusal: Option<CreateRefusal>,
}
