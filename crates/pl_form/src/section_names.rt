//! Names of new sections.

/// The strings of the list.
pub const LIBSTR_NAME: [u8; 12] = *b".gnu.libstr\0";

/// The list.
pub const LIBLIST_NAME: [u8; 13] = *b".gnu.liblist\0";

/// The conflicts.
pub const CONFLICT_NAME: [u8; 14] = *b".gnu.conflict\0";

/// The undo section.
pub const UNDO_NAME: [u8; 18] = *b".gnu.prelink_undo\0";

/// The section names.
pub const NAMES_NAME: [u8; 10] = *b".shstrtab\0";
