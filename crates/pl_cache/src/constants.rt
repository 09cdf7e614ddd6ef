//! Sizes and limits of the cache's bytes.

/// The first bytes of a cache no two of whose slots share an address, `PLCACHE1`.
pub const MAGIC: [u8; 8] = *b"PLCACHE1";

/// The first bytes of a cache in which two slots share an address, `PLCACHE2`.
pub const SHARED_MAGIC: [u8; 8] = *b"PLCACHE2";

/// The most rows of a cache.
pub const MAX_ROWS: u32 = 1024;
