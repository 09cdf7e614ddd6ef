//! Numbers of the section.

/// The first bytes of the section, version 1.
pub const UNDO_MAGIC: [u8; 8] = *b"PLUNDO01";

/// The first bytes of the section, version 2.
pub const UNDO_MAGIC_2: [u8; 8] = *b"PLUNDO02";

/// Bytes of the original's SHA-256.
pub const DIGEST_SIZE: usize = 32;

/// Where the digest begins in the section, behind the first bytes and five numbers of 64 bits, and in version 1 the original header.
pub const DIGEST_AT: usize = 48;

/// Where the original header begins in the section, version 2.
pub const HEADERS_AT: usize = 80;
