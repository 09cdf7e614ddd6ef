//! Limits of forms.

/// How many zeros the last PT_LOAD of a program may have behind its file bytes, 16 MiB.
pub const MAX_ZEROS: u64 = 16_777_216;

/// How many bytes behind a program's memory stay free of the region of the slots, 2 MiB.
pub const REGION_GAP: u64 = 2_097_152;

/// How many bytes a form has at most, 256 MiB.
pub const STORED: usize = 268_435_456;
