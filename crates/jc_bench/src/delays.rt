//! How long calls took, by the clock: how many by length.
/// How many lengths are told apart: four for each power of two.
pub const LENGTHS: usize = 256;

/// How many calls had each length.
#[derive(Clone, Copy)]
pub struct Delays {
    pub counts: [u64; LENGTHS],
}

/// The place of a length: its power of two, and the quarter of the way to the next.
fn place_of(nanoseconds: u64) -> usize {
    let length = nanoseconds.max(4);
    let power = 63u32.wrapping_sub(length.leading_zeros()) % 64;
    let quarter = (length >> (power.wrapping_sub(2) % 64)) % 4;
    (power as usize)
        .wrapping_mul(4)
        .wrapping_add(quarter as usize)
}

impl Delays {
    /// None yet.
    pub fn none() -> Delays {
        Delays {
            counts: [0; LENGTHS],
        }
    }

    /// Counts a call that took so many nanoseconds.
    pub fn add(&mut self, nanoseconds: u64) {
        if let Some(count) = self.counts.get_mut(place_of(nanoseconds)) {
            *count = count.wrapping_add(1);
        }
    }
}
