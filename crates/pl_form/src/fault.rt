ghost use Rattle.std.specs.Prelude.{◌≡◌};
ghost use Rattle.pl_form.specs.declared.fault.FileFault.TheVariants as file_faults;
ghost use Rattle.pl_form.specs.declared.fault.FormFault.TheVariants as faults;
ghost use Rattle.pl_object.specs.declared.refusal.Refusal.TheVariants as refusals;

use pl_io::NoMemory;
use pl_object::Refusal;
use std::alloc::AllocError;
use thiserror::Error;

/// Why an accepted library or program has no form. A library has the first alone.
#[derive(Clone, Copy, Debug, PartialEq, Eq, Error)]
pub enum FormFault {
    /// Fewer than 2 spare entries in a library's dynamic table, or fewer than 4 in a program's.
    #[error("too few spare entries in the dynamic table")]
    NoSpareTags,

    /// The zeros of the last PT_LOAD are over 16 MiB.
    #[error("too many zeros after the last segment's bytes")]
    BssTooLarge,

    /// The program header table does not end at or before the end of the last PT_LOAD's file bytes; or a segment, a section other than NOBITS or the section header table has bytes before that offset and bytes at or after it.
    #[error("bytes that would be torn apart")]
    StrayHeader,

    /// A PT_LOAD, or the 2 MiB after the last one's memory, meets the region of the slots.
    #[error("in the region of the libraries")]
    InRegion,

    /// A PT_LOAD with file bytes has an offset greater than the last one's.
    #[error("the last segment in memory is not the last in the file")]
    LastLoadNotLast,

    /// The form has more than `crate::STORED` bytes.
    #[error("the form is too large")]
    TooLarge,

    /// There was no memory for the answer.
    #[error("out of memory")]
    NoMemory,
}

impl From<AllocError> for FormFault {
    ghost from_gives = { λ _ e. e ≡ faults.NoMemory };

    fn from(_: AllocError) -> FormFault {
        FormFault::NoMemory
    }
}

impl From<NoMemory> for FormFault {
    ghost from_gives = { λ _ e. e ≡ faults.NoMemory };

    fn from(_: NoMemory) -> FormFault {
        FormFault::NoMemory
    }
}

/// Why a file is neither an object nor a form.
#[derive(Clone, Copy, Debug, PartialEq, Eq, Error)]
pub enum FileFault {
    /// It has a prelink tag or an undo section, and is a form of no original.
    #[error("a mark, and no form")]
    BadMark,

    /// The first acceptance clause that refuses it; or there was no memory for the answer, whatever the file is.
    #[error("{0}")]
    Refused(Refusal),
}

impl From<AllocError> for FileFault {
    ghost from_gives = { λ _ e. e ≡ file_faults.Refused refusals.NoMemory };

    fn from(_: AllocError) -> FileFault {
        FileFault::Refused(Refusal::NoMemory)
    }
}

impl From<NoMemory> for FileFault {
    ghost from_gives = { λ _ e. e ≡ file_faults.Refused refusals.NoMemory };

    fn from(_: NoMemory) -> FileFault {
        FileFault::Refused(Refusal::NoMemory)
    }
}

impl From<Refusal> for FileFault {
    ghost from_gives = { λ refusal e. e ≡ file_faults.Refused refusal };

    fn from(refusal: Refusal) -> FileFault {
        FileFault::Refused(refusal)
    }
}
