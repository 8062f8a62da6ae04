//! The versions that a lookup or a commit takes.
ghost use Rattle.std.specs.Prelude.{◌≡◌, ◌≤◌, take};
ghost use Rattle.jc_index.specs.Versions.{versions_of};

use crate::board::{COMMON, STRIPE_COUNT};

/// The stash's version, which every lookup reads.
pub(crate) const STASH: usize = COMMON;

/// The versions of two buckets, each once and the lower number first, and then that of the stash. A bucket's
/// stripe is its number modulo the number of stripes.
pub(crate) fn versions_of(one: usize, two: usize, stash: bool) -> ([usize; 3], usize)
    ensures few { result.1 ≤ 3 }
    ensures these { take result.1 result.0 ≡ versions_of one two stash }
{
    let (one, two) = (one % STRIPE_COUNT, two % STRIPE_COUNT);
    if one == two {
        if stash {
            return ([one, STASH, 0], 2);
        }
        return ([one, 0, 0], 1);
    }
    let (low, high) = if one < two { (one, two) } else { (two, one) };
    if stash {
        return ([low, high, STASH], 3);
    }
    ([low, high, 0], 2)
}
