//! One of two things.

/// A thing of the left or of the right half.
#[derive(Clone, Copy, Debug, PartialEq, Eq)]
pub enum Side<A, B> {
    Left(A),
    Right(B),
}
