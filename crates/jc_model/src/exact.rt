//! Equality by `==` is exact: it holds of two values exactly where contracts see the same.
ghost use Rattle.std.specs.Prelude.{◌≡◌};
ghost use Rattle.std.specs.Bool.{Decides};

use crate::call::{Answer, Call, Notice, Reply};
use crate::event::Entry;

/// Types of which `==` compares all that contracts see. A derived `==` promises no more than those of its parts.
pub trait Exact: Eq {
    /// Whether both are the same, by `==`.
    fn same(&self, other: &Self) -> bool
        ensures { Decides result (self.now ≡ other.now) };
}

impl Exact for Answer {
    fn same(&self, other: &Answer) -> bool {
        self == other
    }
}

impl Exact for Reply {
    fn same(&self, other: &Reply) -> bool {
        self == other
    }
}

impl Exact for Notice {
    fn same(&self, other: &Notice) -> bool {
        self == other
    }
}

impl Exact for Call {
    fn same(&self, other: &Call) -> bool {
        self == other
    }
}

impl Exact for Entry {
    fn same(&self, other: &Entry) -> bool {
        self == other
    }
}
