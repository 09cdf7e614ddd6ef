use pl_base::{Rows, Text};

/// A run that a script asks for.
#[derive(Drop)]
pub enum RunLine {
    /// Prelinks all files, at a moment in seconds since 1970.
    Prelink { now: u32 },

    /// Undoes all files.
    UndoAll,

    /// Undoes the files of these names, one at least.
    Undo { names: Rows<Text> },

    /// Stores the bytes that the name `from` has at the start.
    Install { name: Text, from: Text },
}

/// A line of a script.
#[derive(Drop)]
pub enum Line {
    /// Not in the grammar.
    Wrong,

    /// A loader of this program.
    Load { name: Text },

    /// A run.
    Runs(RunLine),

    /// The loader of this number opens the file that it wants.
    Open { loader: u32 },

    /// The run under way does its next rename.
    Rename,
}
