use pl_base::{Rows, Text};

/// One change of a folder: a name gets these bytes, or is gone.
#[derive(Drop)]
pub enum Change {
    Put { name: Text, bytes: Rows<u8> },
    Drop { name: Text },
}
