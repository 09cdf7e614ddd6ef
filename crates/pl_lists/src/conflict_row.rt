/// A word that a program's start writes, since it differs from the word in the prelinked library.
#[derive(Clone, Copy, Debug, PartialEq, Eq)]
pub struct ConflictRow {
    /// Where the word stands in memory, its library at its slot.
    pub address: u64,

    /// The word that the program's start writes there.
    pub word: u64,
}
