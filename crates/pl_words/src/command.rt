use pl_base::{Rows, Text};
use pl_elf::Range;

/// Which of the addresses that fit a library gets.
#[derive(Clone, Copy, Debug, PartialEq, Eq)]
pub enum Policy {
    /// The least one.
    Lowest,

    /// The greatest one.
    Highest,

    /// One that a number chooses.
    Seeded(u64),
}

/// How a whole folder is prelinked.
#[derive(Clone, Copy, Debug, PartialEq, Eq)]
pub struct AllOptions {
    /// Nothing is written, and what would be is printed.
    pub dry: bool,

    /// A line is printed for each name.
    pub verbose: bool,

    /// Slots of libraries that no program and no library needs together may overlap.
    pub share: bool,

    /// The addresses from which slots are given. They end at or below 2^47.
    pub region: Range,
}

/// What the words of a command line ask for. A name is one as it was written, valid or not.
#[derive(Drop)]
pub enum Command {
    /// Print the memory image from which a program starts.
    Load {
        /// The program's name.
        name: Text,

        /// Addresses that no library may get. They end at or below 2^47.
        busy: Option<Range>,

        /// Where libraries without a slot go.
        policy: Policy,
    },

    /// Prelink all.
    All(AllOptions),

    /// Undo all.
    UndoAll,

    /// Undo some.
    Undo {
        /// One name or more, in the order of the words; a name may stand twice.
        names: Rows<Text>,
    },

    /// Compare a prelinked file with what it should be.
    Verify {
        /// The file's name.
        name: Text,
    },

    /// Print the cache.
    Print,

    /// Store the input.
    Install {
        /// The name that it gets.
        name: Text,
    },

    /// Remove a file.
    Remove {
        /// The file's name.
        name: Text,
    },

    /// Store the file that the recipe in the input describes.
    Make {
        /// The name that it gets.
        name: Text,
    },

    /// Prelink and load a generated set of files, in memory.
    Demo {
        /// The number that the set is made of.
        number: u64,
    },

    /// Load during runs, by the script in the input, in memory.
    Weave,

    /// Fix a position-independent program at an address.
    Fix {
        /// The program's name.
        name: Text,

        /// Where it goes.
        policy: Policy,
    },

    /// Make a fixed program position-independent again.
    Unfix {
        /// The program's name.
        name: Text,
    },

    /// Print in which order the objects of a walk are initialised.
    Order {
        /// The name with which the walk begins.
        name: Text,

        /// Which object leads to which is printed too.
        verbose: bool,
    },
}
