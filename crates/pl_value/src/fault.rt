ghost use Rattle.std.specs.Prelude.{◌≡◌};
ghost use Rattle.pl_value.specs.declared.fault.LinkFault.TheVariants as faults;

use pl_io::NoMemory;
use pl_scope::Reference;
use std::alloc::{AllocError, AllocFailed};
use std::fmt;
use thiserror::Error;

/// Why a relocation has no value. Each has the index of its object among the members of the scope, and the index of its symbol there, 0 for none.
#[derive(Clone, Copy, Debug, PartialEq, Eq, Error)]
pub enum LinkFault {
    /// A symbol that is not weak has no definer.
    Undefined { member: u32, symbol: u32 },
    /// A symbol of thread-local storage has no definer, weak or not.
    UndefinedTls { member: u32, symbol: u32 },
    /// One of relocation and definer is of thread-local storage and the other is not; or the object that would have the block has no PT_TLS.
    TlsMismatch { member: u32, symbol: u32 },
    /// The definer of a COPY is absolute, or the bytes that would be copied are not all in the memory of one PT_LOAD.
    CopyOutside { member: u32, symbol: u32 },
}

impl fmt::Display for LinkFault {
    fn fmt<W: fmt::Write>(&self, f: &mut fmt::Formatter<W>) -> fmt::Result {
        let cause = match self {
            LinkFault::Undefined { .. } => "a symbol has no definer",
            LinkFault::UndefinedTls { .. } => "a thread-local symbol has no definer",
            LinkFault::TlsMismatch { .. } => {
                "a symbol is not of the kind that its relocation needs"
            }
            LinkFault::CopyOutside { .. } => "bytes to be copied are not there",
        };
        f.write_str(cause)
    }
}

impl LinkFault {
    /// The symbol of a reference has no definer.
    pub fn undefined(reference: Reference) -> LinkFault
        ensures { result ≡ faults.Undefined reference.member reference.symbol }
    {
        LinkFault::Undefined {
            member: reference.member,
            symbol: reference.symbol,
        }
    }

    /// The thread-local symbol of a reference has no definer.
    pub fn undefined_tls(reference: Reference) -> LinkFault
        ensures { result ≡ faults.UndefinedTls reference.member reference.symbol }
    {
        LinkFault::UndefinedTls {
            member: reference.member,
            symbol: reference.symbol,
        }
    }

    /// The symbol of a reference is not of the kind that its relocation needs.
    pub fn tls_mismatch(reference: Reference) -> LinkFault
        ensures { result ≡ faults.TlsMismatch reference.member reference.symbol }
    {
        LinkFault::TlsMismatch {
            member: reference.member,
            symbol: reference.symbol,
        }
    }

    /// The bytes that the COPY of a reference asks for are not in the memory of one PT_LOAD.
    pub fn copy_outside(reference: Reference) -> LinkFault
        ensures { result ≡ faults.CopyOutside reference.member reference.symbol }
    {
        LinkFault::CopyOutside {
            member: reference.member,
            symbol: reference.symbol,
        }
    }
}

/// Why a scope has no image.
#[derive(Clone, Copy, Debug, PartialEq, Eq, Error)]
pub enum OrdinaryFault {
    /// The first relocation without a value.
    Link(LinkFault),
    /// There was no memory for the answer.
    NoMemory,
}

impl fmt::Display for OrdinaryFault {
    fn fmt<W: fmt::Write>(&self, f: &mut fmt::Formatter<W>) -> fmt::Result {
        let cause = match self {
            OrdinaryFault::Link(_) => "a relocation has no value",
            OrdinaryFault::NoMemory => "out of memory",
        };
        f.write_str(cause)
    }
}

impl From<LinkFault> for OrdinaryFault {
    ghost use Rattle.pl_value.specs.declared.fault.OrdinaryFault.TheVariants.{Link};

    ghost from_gives = { λ fault whole. whole ≡ Link fault };

    fn from(fault: LinkFault) -> OrdinaryFault {
        OrdinaryFault::Link(fault)
    }
}

impl From<AllocError> for OrdinaryFault {
    ghost use Rattle.pl_value.specs.declared.fault.OrdinaryFault.TheVariants as whole;

    ghost from_gives = { λ _ fault. fault ≡ whole.NoMemory };

    fn from(_: AllocError) -> OrdinaryFault {
        OrdinaryFault::NoMemory
    }
}

impl From<NoMemory> for OrdinaryFault {
    ghost use Rattle.pl_value.specs.declared.fault.OrdinaryFault.TheVariants as whole;

    ghost from_gives = { λ _ fault. fault ≡ whole.NoMemory };

    fn from(_: NoMemory) -> OrdinaryFault {
        OrdinaryFault::NoMemory
    }
}

impl<T: Drop> From<AllocFailed<T>> for OrdinaryFault {
    ghost use Rattle.pl_value.specs.declared.fault.OrdinaryFault.TheVariants as whole;

    ghost from_gives = { λ _ fault. fault ≡ whole.NoMemory };

    fn from(_: AllocFailed<T>) -> OrdinaryFault {
        OrdinaryFault::NoMemory
    }
}
