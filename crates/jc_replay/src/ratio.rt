//! What a replay counts.

/// How many lookups of a trace found a value, on a cache of so many rows.
#[derive(Clone, Copy, Debug, PartialEq, Eq)]
pub struct HitRatio {
    pub capacity: u32,
    pub lookups: u32,
    pub hits: u32,
}
