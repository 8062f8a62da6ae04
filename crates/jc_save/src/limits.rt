//! How a saved cache begins, and how long it may be; contracts cite the definitions of the same names.

/// The first bytes.
pub const MAGIC: [u8; 3] = *b"JCS";
/// The version, behind them.
pub const VERSION: u8 = b'1';
/// The most bytes of a saved cache.
pub const SAVED_BYTES: usize = 268_435_456;
