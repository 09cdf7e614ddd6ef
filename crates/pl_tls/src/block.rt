/// The thread-local storage of an object, as its PT_TLS says.
#[derive(Clone, Copy, Debug, PartialEq, Eq)]
pub struct Block {
    /// Bytes in memory.
    pub size: u64,

    /// Alignment in bytes. 0 counts as 1.
    pub align: u64,
}
