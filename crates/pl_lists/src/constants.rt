//! Sizes and numbers of the two tables.

/// Bytes of a row of a library list: the name's offset in the strings, the stamp, the checksum and two zeros, 32 bits each.
pub const LIST_ROW_SIZE: usize = 20;

/// Bytes of a conflict row, a relocation with addend (gABI chapter 4, "Relocation"): the address, the info and the addend, 64 bits each.
pub const CONFLICT_SIZE: usize = 24;

/// The info of a conflict row: symbol 0, type R_X86_64_64 (x86-64 psABI, "Relocation Types").
pub const CONFLICT_INFO: u64 = 1;
