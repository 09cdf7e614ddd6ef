use crate::Version;
use pl_base::Rows;
use pl_lists::{ConflictRow, ListRow};
use pl_object::Object;

/// A prelinked file, taken apart.
#[derive(Drop)]
pub struct Marked {
    /// The object that its original is.
    pub object: Object,

    /// Its original's bytes.
    pub original: Rows<u8>,

    /// The address at which it is loaded; 0 for a program.
    pub slot: u64,

    /// When it was prelinked; 0 for a program.
    pub stamp: u32,

    /// The checksum of its original; 0 for a program.
    pub checksum: u32,

    /// The libraries by which it was prelinked.
    pub list: Rows<ListRow>,

    /// The words that a program's start writes; none for a library.
    pub conflicts: Rows<ConflictRow>,

    /// The version of its undo section.
    pub version: Version,
}

/// A file that is accepted as it stands, or a prelinked one.
#[derive(Drop)]
pub enum File {
    Plain(Object),
    Marked(Marked),
}

/// What is known of a file.
#[derive(Drop)]
pub enum Entry {
    /// It is accepted, or prelinked.
    There(File),

    /// It bears a mark, and is no form.
    BadMark,

    /// The first acceptance clause that refuses it, with its argument.
    Refused { number: u32, argument: u64 },
}

/// The bytes at the place of a relocation.
#[derive(Drop)]
pub struct Fill {
    /// The relocation's address.
    pub address: u64,
    pub bytes: Rows<u8>,
}
