use pl_base::Text;
use pl_loader::LoadFault;

/// Why a command is refused.
#[derive(Drop)]
pub enum Cause {
    /// The name is no valid name.
    BadName,

    /// The journal is outside its grammar.
    BadJournal,

    /// The file of this name is longer than a folder gives.
    FileTooLarge(Text),

    /// The loader's fault, or a file that is not there or bears a false mark; never `NoMemory`.
    Load(LoadFault),

    /// The input is longer than a recipe may be, or a file that is stored.
    InputTooLarge,

    /// The number of the first line of the recipe that has a fault, counted from 1, and the lowest kind of its faults; line 0 where the file of the recipe would be too large.
    Recipe {
        number: u32,
        kind: u8,
    },

    /// The number of the first line of the script that is wrong, counted from 1.
    Script(u64),

    /// The folder has too many files, or no room for one more.
    TooManyFiles,

    /// The cache's file is none.
    BadCache,

    /// The originals of the folder's files have together more than 1 GiB.
    FolderTooLarge,

    /// No hole of the region that is left holds a library at an address that it wants.
    NoSlot {
        /// The name of the library's file.
        name: Text,

        /// How many bytes of addresses it wants.
        span: u64,

        /// How many bytes the greatest hole has, 0 where there is none.
        hole: u64,
    },

    /// A file is stale, and the greatest stamp, which this is, is the last that there is.
    StampsSpent(u32),

    /// The original of the file of this name is no position-independent program.
    NotPie(Text),

    /// The original of the file of this name is no fixed program.
    NotFixed(Text),
}
