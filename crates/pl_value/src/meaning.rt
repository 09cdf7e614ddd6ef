use crate::Word;

/// A relocation of a scope: its place as loaded, and what it gives.
#[derive(Clone, Copy, Debug, PartialEq, Eq)]
pub struct Meaning {
    /// The index of its object among the members of the scope.
    pub member: u32,

    /// The address of its place as loaded.
    pub start: u64,

    /// How many bytes of memory are its place.
    pub size: u64,

    pub word: Word,
}
