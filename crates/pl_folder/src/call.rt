use crate::name::Name;

/// A call that a folder in memory has had.
#[derive(Drop)]
pub(crate) enum Call {
    /// It changed nothing: it read, or it failed.
    Nothing,
    Create { name: Name },
    Append { name: Name, bytes: Vec<u8> },
    Firm { name: Name },
    Rename { from: Name, to: Name },
    Remove { name: Name },
    Settle,
}
