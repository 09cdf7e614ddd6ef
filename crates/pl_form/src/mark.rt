/// What a prelinked library bears beside its list.
#[derive(Clone, Copy, Debug, PartialEq, Eq)]
pub struct Mark {
    /// The address at which it is loaded.
    pub slot: u64,

    /// When it was prelinked.
    pub stamp: u32,

    /// The checksum of its original.
    pub checksum: u32,
}
