//! Sizes, limits and codes of the journal's bytes.

/// The first bytes of a journal, `PLJRNL01`.
pub const MAGIC: [u8; 8] = *b"PLJRNL01";

/// The most rows of a journal: one for each name that a folder may have, and one for the cache.
pub const MAX_ROWS: u32 = 1025;

/// A row that puts the file beside under its name.
pub const PUT: u8 = 1;

/// A row that drops its name.
pub const DROP: u8 = 2;
