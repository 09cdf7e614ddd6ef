use pl_base::Text;

/// A library with which a file was prelinked.
#[derive(Drop)]
pub struct ListRow {
    /// The library's file name.
    pub name: Text,

    /// When the library was prelinked.
    pub stamp: u32,

    /// The checksum of the library's original file.
    pub checksum: u32,
}
