//! Where fields stand in the ELF header and in rows of tables (System V gABI chapter 4), and the region of position-independent programs.

/// Where the type stands in the ELF header.
pub const TYPE_AT: usize = 16;

/// Bytes of the type.
pub const TYPE_SIZE: usize = 2;

/// Where the address stands in a section header.
pub const ADDR_AT: usize = 16;

/// Where the value stands in a symbol.
pub const VALUE_AT: usize = 8;

/// Bytes of a word that moves.
pub const WORD_SIZE: usize = 8;

/// The index of DT_HASH's table among an object's link tables.
pub const HASH_TABLE: usize = 7;

/// How many link tables stand there one after the other: those of DT_HASH, DT_GNU_HASH, DT_VERSYM, DT_VERDEF and DT_VERNEED.
pub const HASH_AND_VERSION_TABLES: usize = 5;

/// Position-independent programs are fixed from this address on.
pub const REGION_START: u64 = 0x20_0000_0000;

/// And end at or below this one.
pub const REGION_END: u64 = 0x2f_0000_0000;
