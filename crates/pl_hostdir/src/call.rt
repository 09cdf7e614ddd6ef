/// A call of the real folder.
#[derive(Clone, Copy, Debug, PartialEq, Eq)]
pub enum Call {
    /// The list of its names.
    List,
    /// A whole file.
    Take,
    /// An empty file under a name.
    Create,
    /// Bytes more at the end of a file.
    Append,
    /// The bytes of a file, on disk.
    Sync,
    /// Another name for a file.
    Rename,
    /// A name that is gone.
    Remove,
    /// The names, on disk.
    SyncFolder,
    /// The lock of the folder.
    Lock,
}
