use pl_base::Rows;

/// The versions of an object's symbols.
#[derive(Drop)]
pub struct Versions {
    /// The version word of each symbol, in the symbols' order: an index, and bit 15 for a hidden symbol.
    pub index: Rows<u16>,

    /// A row for each version record: first the versions that the object defines, then those that it needs, each in the records' order. No two have the same index.
    pub names: Rows<VersionName>,
}

/// A version that the object defines or needs: its index and its name.
#[derive(Drop)]
pub struct VersionName {
    /// The record's index, all 16 bits of it. No symbol has an index of 0x8000 or more.
    pub index: u16,

    /// The bytes of the name, without the 0 that ends it.
    pub name: Rows<u8>,

    /// Whether the object defines the version; otherwise it needs it of another object.
    pub defined: bool,
}
