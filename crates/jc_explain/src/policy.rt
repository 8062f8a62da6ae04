//! What a policy and its duration ask of each other.
ghost use Rattle.std.specs.Prelude.{◌≡◌, IfOk, string_bytes};
ghost use Rattle.jc_explain.specs.Policy.{policy_line};

use crate::lines::plain_line;
use std::alloc::{AllocError, Global};

/// The line of a duration without an expiry, or of an expiry without a duration.
pub fn policy_line(
    alloc: Global,
    has_expiry: bool,
    has_duration: bool,
) -> Result<String, AllocError>
    ensures { IfOk result (λ s. string_bytes s ≡ policy_line has_expiry has_duration) }
{
    if has_duration && !has_expiry {
        return plain_line(
            alloc,
            "without \"expiry\" it is \"eternal\", which has no \"duration\"",
        );
    }
    if has_expiry && !has_duration {
        return plain_line(
            alloc,
            "each \"expiry\" but \"eternal\" asks for a \"duration\"",
        );
    }
    Ok(String::new(alloc))
}
