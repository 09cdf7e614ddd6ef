use pl_base::{Rows, Text};
use pl_batch::Prelinking;
use pl_elf::Range;
use pl_texts::{Content, Detail};
use pl_words::Policy;

/// What words ask for, of what is there.
#[derive(Drop)]
pub enum Command {
    /// To print the memory image of the program of that name.
    Load {
        name: Text,

        /// The addresses that no library may get.
        busy: Option<Range>,

        /// Where the libraries go.
        policy: Policy,
    },

    /// To prelink every file that may be prelinked.
    All {
        asked: Prelinking,
        detail: Detail,
    },

    /// To print what that would do.
    Preview {
        asked: Prelinking,
        detail: Detail,
    },

    /// To give every prelinked file its original.
    UndoAll,

    /// To give the prelinked ones of these files their originals.
    Undo {
        names: Rows<Text>,
    },

    /// To store the file of the input under that name.
    Store {
        name: Text,
        content: Content,
    },

    /// To remove the file of that name.
    Remove {
        name: Text,
    },

    /// To fix the position-independent program of that name.
    Fix {
        name: Text,

        /// Where it goes.
        policy: Policy,
    },

    /// To make the fixed program of that name position-independent again.
    Unfix {
        name: Text,
    },

    /// To give the original of the file of that name, where it is what prelinking would make of it.
    Verify {
        name: Text,
    },

    /// To print the cache.
    Print,

    /// To print what loads give that open their files during runs, as the script of the input says.
    Weave,

    /// To print in which order the objects of the walk of that name are initialised.
    Order {
        name: Text,
        detail: Detail,
    },

    /// To print what the set of files that a number draws comes to, prelinked and loaded in memory.
    Demo {
        number: u64,
    },
}
