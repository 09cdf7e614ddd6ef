// Link refusals by names in place of indexes.
ghost use Rattle.std.specs.Prelude.{◌≡◌, IfOk, slice_get};
ghost use Rattle.pl_scope.specs.Scope.{walked};
ghost use Rattle.pl_value.specs.LinkNames as spec;

use crate::LinkFault;
use pl_base::{Rows, Text};
use pl_scope::Member;
use pl_sym::Symbol;
use std::alloc::{AllocError, Global};

/// Why a relocation has no value.
#[derive(Clone, Copy, Debug, PartialEq, Eq)]
pub enum LinkCause {
    /// A symbol that is not weak has no definer.
    Undefined,

    /// A symbol of thread-local storage has no definer, weak or not.
    UndefinedTls,

    /// One of relocation and definer is of thread-local storage and the other is not; or the object that would have the block has no PT_TLS.
    TlsMismatch,

    /// The definer of a COPY is absolute, or the bytes that would be copied are not all in the memory of one PT_LOAD.
    CopyOutside,
}

impl LinkCause {
    /// The name of the variant, by which texts of refusals tell it.
    pub fn name(self) -> &'static str
        ensures { result.now ≡ spec.name_of_cause self }
    {
        match self {
            LinkCause::Undefined => "Undefined",
            LinkCause::UndefinedTls => "UndefinedTls",
            LinkCause::TlsMismatch => "TlsMismatch",
            LinkCause::CopyOutside => "CopyOutside",
        }
    }

    /// What is wrong, in a few words.
    pub fn message(self) -> &'static str {
        match self {
            LinkCause::Undefined => "a symbol is undefined",
            LinkCause::UndefinedTls => "a thread-local symbol is undefined",
            LinkCause::TlsMismatch => "a symbol is thread-local, or should be",
            LinkCause::CopyOutside => "a copy's source is not in memory",
        }
    }
}

/// Why a relocation has no value, by the names of the object and the symbol.
#[derive(Drop)]
pub struct NamedFault {
    pub cause: LinkCause,

    /// The name of the object whose relocation it is.
    pub object: Text,

    /// The name of the symbol to which the relocation refers; none for symbol 0.
    pub symbol: Option<Rows<u8>>,
}

fn cause_of(fault: LinkFault) -> LinkCause
    ensures { result ≡ spec.cause_of fault }
{
    match fault {
        LinkFault::Undefined { .. } => LinkCause::Undefined,
        LinkFault::UndefinedTls { .. } => LinkCause::UndefinedTls,
        LinkFault::TlsMismatch { .. } => LinkCause::TlsMismatch,
        LinkFault::CopyOutside { .. } => LinkCause::CopyOutside,
    }
}

/// The index of the object.
fn member_of(fault: LinkFault) -> u32
    ensures { result ≡ spec.member_of fault }
{
    match fault {
        LinkFault::Undefined { member, .. } => member,
        LinkFault::UndefinedTls { member, .. } => member,
        LinkFault::TlsMismatch { member, .. } => member,
        LinkFault::CopyOutside { member, .. } => member,
    }
}

/// The index of the symbol, 0 for none.
fn symbol_of(fault: LinkFault) -> u32
    ensures { result ≡ spec.symbol_of fault }
{
    match fault {
        LinkFault::Undefined { symbol, .. } => symbol,
        LinkFault::UndefinedTls { symbol, .. } => symbol,
        LinkFault::TlsMismatch { symbol, .. } => symbol,
        LinkFault::CopyOutside { symbol, .. } => symbol,
    }
}

/// A copy of the name of the member of an index, an empty one where there is none.
#[tactic(auto, using(crate::proofs::LinkNameLaws::member_at))]
fn name_at(alloc: Global, members: &[Member<'_>], index: u32) -> Result<Text, AllocError>
    ensures { IfOk result (λ name. name ≡ spec.name_at (walked members.now) index) }
{
    match members.get(index as usize) {
        None => Text::copy_of(alloc, ""),
        Some(member) => Text::copy_of(alloc, member.name.as_str()),
    }
}

/// The symbols of the member of an index.
#[tactic(auto, using(crate::proofs::LinkNameLaws::member_at))]
fn symbols_at<'a>(members: &[Member<'a>], index: u32) -> &'a [Symbol]
    ensures { result.now ≡ spec.symbols_in (slice_get (walked members.now) index) }
{
    match members.get(index as usize) {
        None => &[],
        Some(member) => member.object.symbols.as_slice(),
    }
}

/// A copy of the name of a symbol of the member of an index. Symbol 0 stands for none.
#[tactic(auto, unfolding(crate::specs::LinkNames::symbol_name))]
fn symbol_name(
    alloc: Global,
    members: &[Member<'_>],
    member: u32,
    symbol: u32,
) -> Result<Option<Rows<u8>>, AllocError>
    ensures { IfOk result (λ name. name ≡ spec.symbol_name (walked members.now) member symbol) }
{
    if symbol == 0 {
        return Ok(None);
    }
    match symbols_at(members, member).get(symbol as usize) {
        None => Ok(None),
        Some(symbol) => {
            let name = Vec::from_slice(alloc, symbol.name.as_slice())?;
            Ok(Some(Rows::from_vec(name)))
        }
    }
}

/// A link refusal of the members of a scope, with the names of the object and of the symbol in place of their indexes; the name of an object that is not among them is empty. It fails only for want of memory.
#[tactic(auto, unfolding(crate::specs::LinkNames::named_fault))]
pub fn named_fault(
    alloc: Global,
    members: &[Member<'_>],
    fault: LinkFault,
) -> Result<NamedFault, AllocError>
    ensures { IfOk result (λ v. v ≡ spec.named_fault (walked members.now) fault) }
{
    let member = member_of(fault);
    let symbol = symbol_of(fault);
    let cause = cause_of(fault);
    let object = name_at(alloc, members, member)?;
    let symbol = symbol_name(alloc, members, member, symbol)?;
    Ok(NamedFault {
        cause,
        object,
        symbol,
    })
}
