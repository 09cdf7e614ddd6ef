use pl_base::{Rows, Text};

/// A file that a loader opened, as the folder held it at that moment; none where the folder had none of this name.
#[derive(Drop)]
pub struct Seen {
    pub name: Text,
    pub file: Option<Rows<u8>>,
}
