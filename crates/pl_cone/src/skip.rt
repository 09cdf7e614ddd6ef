// Why a name is not prelinked, and why a run has no stamp or no plan.
ghost use Rattle.std.specs.Prelude.{◌≡◌, false, IfOk, OnOk};
ghost use Rattle.pl_cone.specs.Skips.{skip_is_memory};
ghost use Rattle.pl_cone.specs.declared.skip.ConeFault.TheVariants as stops;
ghost use Rattle.pl_cone.specs.declared.skip.PlanningFault.TheVariants as faults;
ghost use Rattle.pl_cone.specs.declared.skip.Skip.TheVariants as skips;

use pl_base::Text;
use pl_io::NoMemory;
use pl_slots::PlanFault;
use pl_tls::TlsFault;
use pl_value::NamedFault;
use std::alloc::{AllocError, AllocFailed};

/// Why a name is not prelinked. Of several causes the first counts: those of the walk in its order, then `Static`, then form faults in the order of the walk, then `TlsTooLarge`, then the link refusals in the order of the relocations.
#[derive(Drop)]
pub enum Skip {
    /// A needed file is not there.
    NotThere(Text),

    /// A file bears a mark, and is no form.
    BadMark(Text),

    /// An acceptance clause refuses a file.
    Refused {
        /// The file's name.
        name: Text,

        /// The number of the clause.
        number: u32,

        /// What of the file the clause refuses: a tag's number for clauses 10 and 11, a relocation's kind for clause 23, else 0.
        argument: u64,
    },

    /// The name's file is a static program.
    Static(Text),

    /// An object after the first is no library, and this is its name; or an object after the first needs the first, which is a program of this name.
    NeededIsProgram(Text),

    /// The walk has too many names, and this is the first that is too many.
    TooMany(Text),

    /// A member of the walk has no form.
    Form {
        /// The member's name.
        name: Text,

        /// The number of its first form fault.
        number: u32,
    },

    /// An offset of thread-local storage is too great.
    TlsTooLarge,

    /// A relocation of a member has no value.
    Link(NamedFault),

    /// There was no memory for the answer.
    NoMemory,
}

impl From<NoMemory> for Skip {
    ghost from_gives = { λ _ skip. skip ≡ skips.NoMemory };

    fn from(_: NoMemory) -> Skip {
        Skip::NoMemory
    }
}

impl From<AllocError> for Skip {
    ghost from_gives = { λ _ skip. skip ≡ skips.NoMemory };

    fn from(_: AllocError) -> Skip {
        Skip::NoMemory
    }
}

impl<T: Drop> From<AllocFailed<T>> for Skip {
    ghost from_gives = { λ _ skip. skip ≡ skips.NoMemory };

    fn from(_: AllocFailed<T>) -> Skip {
        Skip::NoMemory
    }
}

impl From<TlsFault> for Skip {
    ghost use Rattle.pl_cone.specs.Skips.{of_tls};

    ghost from_gives = { λ fault skip. skip ≡ of_tls fault };

    fn from(fault: TlsFault) -> Skip {
        match fault {
            TlsFault::TooLarge => Skip::TlsTooLarge,
            TlsFault::NoMemory => Skip::NoMemory,
        }
    }
}

/// A cause that is no want of memory.
pub fn unless_memory(skip: Skip) -> Result<Skip, NoMemory>
    ensures same { IfOk result (λ told. told ≡ skip) }
    ensures told { OnOk result (skip_is_memory skip ≡ false) }
{
    let is_memory = matches!(skip, Skip::NoMemory);
    (!is_memory).then_some(skip).ok_or(NoMemory)
}

/// Why a run has no stamp.
#[derive(Clone, Copy, Debug, PartialEq, Eq)]
pub enum ConeFault {
    /// The greatest stamp is the last that there is, 2^32 - 1, and a name would get a later one.
    StampsSpent(u32),

    /// There was no memory for the answer.
    NoMemory,
}

impl From<NoMemory> for ConeFault {
    ghost from_gives = { λ _ fault. fault ≡ stops.NoMemory };

    fn from(_: NoMemory) -> ConeFault {
        ConeFault::NoMemory
    }
}

/// Why a run has no plan.
#[derive(Drop)]
pub enum PlanningFault {
    /// No hole of the region that is left holds a library at an address that it wants.
    NoSlot {
        /// The name of the library's file.
        name: Text,

        /// How many bytes of addresses it wants.
        span: u64,

        /// How many bytes the greatest hole has, 0 where there is none.
        hole: u64,
    },

    /// A file is stale, and the greatest stamp, which this is, is the last that there is.
    StampsSpent(u32),

    /// There was no memory for the answer.
    NoMemory,
}

impl From<NoMemory> for PlanningFault {
    ghost from_gives = { λ _ fault. fault ≡ faults.NoMemory };

    fn from(_: NoMemory) -> PlanningFault {
        PlanningFault::NoMemory
    }
}

impl From<PlanFault> for PlanningFault {
    ghost use Rattle.pl_cone.specs.Faulted.{of_plan};

    ghost from_gives = { λ fault whole. whole ≡ of_plan fault };

    fn from(fault: PlanFault) -> PlanningFault {
        match fault {
            PlanFault::NoSlot { name, span, hole } => PlanningFault::NoSlot { name, span, hole },
            PlanFault::NoMemory => PlanningFault::NoMemory,
        }
    }
}

impl From<ConeFault> for PlanningFault {
    ghost use Rattle.pl_cone.specs.Faulted.{of_cone};

    ghost from_gives = { λ fault whole. whole ≡ of_cone fault };

    fn from(fault: ConeFault) -> PlanningFault {
        match fault {
            ConeFault::StampsSpent(stamp) => PlanningFault::StampsSpent(stamp),
            ConeFault::NoMemory => PlanningFault::NoMemory,
        }
    }
}
