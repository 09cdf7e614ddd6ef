use pl_base::Text;
use std::fmt;

/// Why a command is refused. Of several causes the first counts, in the order that each call states.
#[derive(Drop)]
pub enum Cause {
    /// A name is not valid.
    BadName,

    /// The journal is outside its grammar.
    BadJournal,

    /// The folder has too many files, or no room for one more.
    TooManyFiles,

    /// There is no file of this name.
    NotThere(Text),

    /// The file of this name is longer than a folder gives.
    FileTooLarge(Text),

    /// The file of this name bears a mark, and is no form.
    BadMark(Text),

    /// The cache is outside its grammar.
    BadCache,

    /// The originals of a folder are together larger than a run takes.
    FolderTooLarge,

    /// No hole of the region that is left holds a library at an address that it wants.
    NoSlot {
        /// The name of the library's file.
        name: Text,

        /// How many bytes of addresses it wants.
        span: u64,

        /// How many bytes the greatest hole has, 0 where there is none.
        hole: u64,
    },

    /// A file is stale, and the greatest stamp, which this is, is the last that there is.
    StampsSpent(u32),

    /// The file of this name is refused by an acceptance clause.
    Refused {
        /// The name of the file.
        name: Text,

        /// The number of the clause.
        number: u32,

        /// What the clause tells, 0 where it tells nothing.
        argument: u64,
    },

    /// A walk needs this name, which is no library, or the program of this name, with which it begins.
    NeededIsProgram(Text),

    /// A walk has too many names, of which this is the first.
    TooMany(Text),

    /// The original of the file of this name is no position-independent program.
    NotPie(Text),

    /// No address of the region of position-independent programs holds the program of this name.
    NoPlace(Text),

    /// The original of the file of this name is no fixed program.
    NotFixed(Text),
}

impl fmt::Debug for Cause {
    fn fmt<W: fmt::Write>(&self, f: &mut fmt::Formatter<W>) -> fmt::Result {
        let (cause, name) = match self {
            Cause::BadName => ("BadName", ""),
            Cause::BadJournal => ("BadJournal", ""),
            Cause::TooManyFiles => ("TooManyFiles", ""),
            Cause::NotThere(name) => ("NotThere", name.as_str()),
            Cause::FileTooLarge(name) => ("FileTooLarge", name.as_str()),
            Cause::BadMark(name) => ("BadMark", name.as_str()),
            Cause::BadCache => ("BadCache", ""),
            Cause::FolderTooLarge => ("FolderTooLarge", ""),
            Cause::NoSlot { name, .. } => ("NoSlot", name.as_str()),
            Cause::StampsSpent(_) => ("StampsSpent", ""),
            Cause::Refused { name, .. } => ("Refused", name.as_str()),
            Cause::NeededIsProgram(name) => ("NeededIsProgram", name.as_str()),
            Cause::TooMany(name) => ("TooMany", name.as_str()),
            Cause::NotPie(name) => ("NotPie", name.as_str()),
            Cause::NoPlace(name) => ("NoPlace", name.as_str()),
            Cause::NotFixed(name) => ("NotFixed", name.as_str()),
        };
        f.write_str(cause)?;
        f.write_str(" ")?;
        f.write_str(name)
    }
}
