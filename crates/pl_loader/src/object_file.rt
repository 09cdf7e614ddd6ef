use pl_base::{Rows, Text};
use pl_lists::{ConflictRow, ListRow};
use pl_object::Object;

/// What a prelinked file bears besides its original.
#[derive(Drop)]
pub struct Mark {
    /// All of the file, as it stands.
    pub file: Rows<u8>,

    /// The address for which it was prelinked; 0 for a program.
    pub slot: u64,

    /// When it was prelinked; 0 for a program.
    pub stamp: u32,

    /// The checksum of its original; 0 for a program.
    pub checksum: u32,

    /// The libraries by which it was prelinked.
    pub list: Rows<ListRow>,

    /// The words that a program's start writes; none for a library.
    pub conflicts: Rows<ConflictRow>,
}

/// A file that was given to a loader, with the object that its original is. A file that is not prelinked is its own original.
#[derive(Drop)]
pub struct ObjectFile {
    /// The name by which the walk has it.
    pub name: Text,

    /// All of the original.
    pub bytes: Rows<u8>,

    pub object: Object,

    /// What the file bears besides, where it is prelinked.
    pub mark: Option<Mark>,
}
