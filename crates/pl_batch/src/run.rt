use crate::Prelinking;
use pl_base::{Rows, Text};

/// A command that changes files, all but `--remove`.
#[derive(Drop)]
pub enum Run {
    /// Prelink every file that may be prelinked.
    All(Prelinking),

    /// Undo every prelinked file.
    UndoAll,

    /// Undo the prelinked ones of these files.
    Undo { names: Rows<Text> },

    /// Store bytes, at most `pl_folder::STORED` of them, under a name; of a prelinked file its original.
    Install { name: Text, bytes: Rows<u8> },
}
