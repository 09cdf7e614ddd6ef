//! The region of addresses in which libraries are placed.

/// The first address of the region.
pub const REGION_START: u64 = 0x30_0000_0000;

/// The first address past the region.
pub const REGION_END: u64 = 0x40_0000_0000;
