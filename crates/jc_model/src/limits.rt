//! The limits, each in one place; contracts cite the definitions of the same names.

/// Words of eight bytes that hold a key: a byte for its length, then its text.
pub const KEY_WORDS: usize = 8;
/// The most bytes of a key or a name.
pub const KEY_BYTES: usize = 8 * KEY_WORDS - 1;
/// The most bytes of a value.
pub const VALUE_BYTES: usize = 65_535;
/// The most keys of one call.
pub const MOST_KEYS: usize = 64;
/// The most live caches of a manager.
pub const MOST_CACHES: usize = 1024;
/// The most rows of a cache.
pub const MOST_ROWS: u32 = 65_536;
/// The most rows of all live caches together.
pub const MOST_ROWS_TOGETHER: u64 = 262_144;
/// The most listeners of a cache.
pub const MOST_LISTENERS: u8 = 8;
/// The most processors of a cache.
pub const MOST_PROCESSORS: usize = 16;
/// Caches are numbered below this.
pub const MOST_IDS: u32 = 4_294_967_295;
/// Sessions are numbered below this.
pub const SESSIONS: u32 = 64;
/// The most bytes of a configuration or a script.
pub const TEXT_BYTES: usize = 8_388_608;
