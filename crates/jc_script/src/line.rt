//! One line of a script, and the call that it makes.
ghost use Rattle.std.specs.Prelude.{◌≡◌};
ghost use Rattle.jc_script.specs.Live.{manages};

use jc_model::call::Call;
use jc_model::config::CacheConfig;
use jc_model::event::CacheId;

/// What a session asks for: a call on a cache, a cache more, or the end of one.
#[derive(Drop)]
pub enum Line {
    Call(LineCall),
    /// The cache gets the next id, unless it is refused.
    Create { session: u32, config: CacheConfig },
    Destroy { session: u32, id: CacheId },
}

impl Line {
    /// Whether it creates or destroys a cache.
    pub(crate) fn manages(&self) -> bool
        ensures { result ≡ manages self.now }
    {
        !matches!(self, Line::Call(_))
    }
}

/// A call that a session makes on a cache at a moment in milliseconds.
#[derive(Drop)]
pub struct LineCall {
    pub session: u32,
    pub id: CacheId,
    pub at: u64,
    pub call: Call,
}
