/// An object with thread-local storage: its number and where its block begins.
#[derive(Clone, Copy, Debug, PartialEq, Eq)]
pub struct Module {
    /// The object's index among all objects.
    pub member: u32,

    /// The module's number, from 1.
    pub number: u64,

    /// How many bytes the block begins below the thread pointer.
    pub offset: u64,
}
