/// What a relocation gives.
#[derive(Clone, Copy, Debug, PartialEq, Eq)]
pub enum Word {
    /// A word for its place, little-endian.
    Put(u64),

    /// Bytes of another object, copied to its place as they stand after all words.
    Copy {
        /// The index of that object among the members of the scope.
        member: u32,

        /// The address of the first byte as loaded.
        from: u64,

        /// How many bytes.
        bytes: u64,
    },

    /// Its place stays as it is.
    Nothing,
}
