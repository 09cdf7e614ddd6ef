//! Where a built file has its parts, and the limits of a recipe.

/// The address of a program's first byte.
pub const BASE: u64 = 0x40_0000;

/// How far the data's address lies behind that of the first byte.
pub const DATA_DISTANCE: u64 = 0x10_0000;

/// File offset of the path of the interpreter.
pub const INTERP_OFFSET: u64 = 0x200;

/// File offset of the first table.
pub const TABLES_OFFSET: u64 = 0x400;

/// What tables are aligned to.
pub const TABLE_ALIGN: u64 = 8;

/// The alignment that PT_GNU_STACK names.
pub const STACK_ALIGN: u64 = 0x10;

/// The most buckets of a hash table.
pub const MAX_BUCKETS: u64 = 0x1000;

/// The most spare entries of the dynamic table.
pub const MAX_SPARE: u64 = 0x100;

/// The most bytes of data.
pub const MAX_DATA: u64 = 0x80_0000;

/// The most zero bytes behind the data.
pub const MAX_BSS: u64 = 0x200_0000;

/// The tables end here at the latest.
pub const MAX_TABLES: u64 = 0x10_0000;

/// The most bytes of a file.
pub const MAX_FILE: u64 = 0x100_0000;

/// The greatest addend. A negative one may have a magnitude of one more.
pub const MAX_ADDEND: u64 = 0x7fff_ffff_ffff_ffff;

/// Buckets of a hash table where a recipe does not say.
pub const BUCKETS: u64 = 1;

/// Spare entries of the dynamic table where a recipe does not say.
pub const SPARE: u64 = 5;

/// Bloom words of a GNU hash table.
pub const BLOOM_COUNT: u64 = 1;

/// How many bits a hash is shifted for its second bit in a Bloom word.
pub const BLOOM_SHIFT_BITS: u64 = 6;
