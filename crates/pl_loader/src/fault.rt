ghost use Rattle.std.specs.Prelude.{◌≡◌};
ghost use Rattle.pl_loader.specs.declared.fault.LoadFault.TheVariants as faults;

use pl_base::Text;
use pl_io::NoMemory;
use pl_place::PlaceFault;
use pl_scope::WalkFault;
use pl_tls::TlsFault;
use pl_value::NamedFault;
use std::alloc::{AllocError, AllocFailed};
use std::fmt;
use thiserror::Error;

/// Why a load has no start. Of several causes the first in the order of the walk counts; of one object's, and after the walk, the first in the order of these variants, but that the four link refusals count in the order of the relocations.
#[derive(Drop, Error)]
pub enum LoadFault {
    /// There is no file of this name.
    NotThere(Text),

    /// A file has a prelink tag or an undo section, and is no prelinked file.
    BadMark(Text),

    /// An acceptance clause refuses a file.
    Refused {
        /// The file's name.
        name: Text,

        /// The number of the clause.
        number: u32,

        /// What of the file the clause refuses: a tag's number for clauses 10 and 11, a relocation's kind for clause 23, else 0.
        argument: u64,
    },

    /// The file of the name that is loaded is a library.
    NotProgram(Text),

    /// An object after the first is no library, and this is its name; or an object after the first needs the first, which is a program of this name.
    NeededIsProgram(Text),

    /// The walk has too many names, and this is the first that is too many.
    TooMany(Text),

    /// An offset of thread-local storage is too great.
    TlsTooLarge,

    /// No hole that is left holds the library of this name.
    NoPlace(Text),

    /// A relocation of an object has no value.
    Link(NamedFault),

    /// There was no memory for the answer.
    NoMemory,
}

impl fmt::Display for LoadFault {
    fn fmt<W: fmt::Write>(&self, f: &mut fmt::Formatter<W>) -> fmt::Result {
        let cause = match self {
            LoadFault::NotThere(_) => "a file is not there",
            LoadFault::BadMark(_) => "a mark, and no prelinked file",
            LoadFault::Refused { .. } => "a file is refused",
            LoadFault::NotProgram(_) => "a library cannot be started",
            LoadFault::NeededIsProgram(_) => "a program is needed by another object",
            LoadFault::TooMany(_) => "the walk has too many members",
            LoadFault::TlsTooLarge => "thread-local storage is too large",
            LoadFault::NoPlace(_) => "no place",
            LoadFault::Link(fault) => fault.cause.message(),
            LoadFault::NoMemory => "out of memory",
        };
        f.write_str(cause)
    }
}

impl fmt::Debug for LoadFault {
    fn fmt<W: fmt::Write>(&self, f: &mut fmt::Formatter<W>) -> fmt::Result {
        let (cause, name) = match self {
            LoadFault::NotThere(name) => ("NotThere", name.as_str()),
            LoadFault::BadMark(name) => ("BadMark", name.as_str()),
            LoadFault::Refused { name, .. } => ("Refused", name.as_str()),
            LoadFault::NotProgram(name) => ("NotProgram", name.as_str()),
            LoadFault::NeededIsProgram(name) => ("NeededIsProgram", name.as_str()),
            LoadFault::TooMany(name) => ("TooMany", name.as_str()),
            LoadFault::TlsTooLarge => ("TlsTooLarge", ""),
            LoadFault::NoPlace(name) => ("NoPlace", name.as_str()),
            LoadFault::Link(fault) => (fault.cause.name(), fault.object.as_str()),
            LoadFault::NoMemory => ("NoMemory", ""),
        };
        f.write_str(cause)?;
        if name.is_empty() {
            return Ok(());
        }
        f.write_str(" ")?;
        f.write_str(name)
    }
}

impl From<NoMemory> for LoadFault {
    ghost from_gives = { λ _ fault. fault ≡ faults.NoMemory };

    fn from(_: NoMemory) -> LoadFault {
        LoadFault::NoMemory
    }
}

impl From<AllocError> for LoadFault {
    ghost from_gives = { λ _ fault. fault ≡ faults.NoMemory };

    fn from(_: AllocError) -> LoadFault {
        LoadFault::NoMemory
    }
}

impl<T: Drop> From<AllocFailed<T>> for LoadFault {
    ghost from_gives = { λ _ fault. fault ≡ faults.NoMemory };

    fn from(_: AllocFailed<T>) -> LoadFault {
        LoadFault::NoMemory
    }
}

impl From<WalkFault> for LoadFault {
    ghost use Rattle.pl_loader.specs.Faults.{of_walk};

    ghost from_gives = { λ fault load. load ≡ of_walk fault };

    fn from(fault: WalkFault) -> LoadFault {
        match fault {
            WalkFault::NeededIsProgram(name) => LoadFault::NeededIsProgram(name),
            WalkFault::TooMany(name) => LoadFault::TooMany(name),
            WalkFault::NotThere(name) => LoadFault::NotThere(name),
            WalkFault::NoMemory => LoadFault::NoMemory,
        }
    }
}

impl From<TlsFault> for LoadFault {
    ghost use Rattle.pl_loader.specs.Faults.{of_tls};

    ghost from_gives = { λ fault load. load ≡ of_tls fault };

    fn from(fault: TlsFault) -> LoadFault {
        match fault {
            TlsFault::TooLarge => LoadFault::TlsTooLarge,
            TlsFault::NoMemory => LoadFault::NoMemory,
        }
    }
}

impl From<PlaceFault> for LoadFault {
    ghost use Rattle.pl_loader.specs.Faults.{of_place};

    ghost from_gives = { λ fault load. load ≡ of_place fault };

    fn from(fault: PlaceFault) -> LoadFault {
        match fault {
            PlaceFault::NoPlace { name } => LoadFault::NoPlace(name),
            PlaceFault::NoMemory => LoadFault::NoMemory,
        }
    }
}
