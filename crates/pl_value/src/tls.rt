// Words of thread-local storage.
ghost use Rattle.std.specs.Prelude.{◌≡◌, slice_get};
ghost use Rattle.pl_scope.specs.Scope.{objects, IsReference};
ghost use Rattle.pl_value.specs.Definers.{IsSought};
ghost use Rattle.pl_value.specs.Tls as spec;

use crate::LinkFault;
use crate::definer::definer_of;
use crate::targets::added;
use crate::tls_index::TlsIndex;
use pl_elf::constants::{R_X86_64_DTPMOD64, R_X86_64_DTPOFF64, R_X86_64_TPOFF64};
use pl_object::Reloc;
use pl_scope::{Found, Reference, Scope};
use pl_tls::Module;

/// The begin of the object's own block.
fn own(scope: &Scope<'_>, reference: Reference) -> Result<TlsIndex, LinkFault>
    requires { IsReference scope.now reference }
    ensures { result ≡ spec.own reference (spec.has_block
        (slice_get (objects scope.now) reference.member)) }
{
    let object = scope.object(reference.member);
    if object.tls.is_none() {
        return Err(LinkFault::tls_mismatch(reference));
    }
    Ok(TlsIndex {
        member: reference.member,
        offset: 0,
    })
}

/// The variable that a reference stands for. Symbol 0 stands for the begin of its object's own block.
#[tactic(auto, unfolding(crate::specs::Tls::variable))]
pub fn variable(
    scope: &Scope<'_>,
    reference: Reference,
    found: Option<Found>,
) -> Result<TlsIndex, LinkFault>
    requires reference { IsReference scope.now reference }
    requires found { IsSought (objects scope.now) reference found }
    ensures { result ≡ spec.variable (objects scope.now) reference }
{
    if reference.symbol == 0 {
        return own(scope, reference);
    }
    let Some(definer) = definer_of(scope, reference, found) else {
        return Err(LinkFault::undefined_tls(reference));
    };
    if !(definer.symbol.is_tls() && definer.object.tls.is_some()) {
        return Err(LinkFault::tls_mismatch(reference));
    }
    Ok(TlsIndex {
        member: definer.member,
        offset: definer.symbol.value,
    })
}

fn module_of(modules: &[Module], member: u32) -> Option<Module>
    ensures { result ≡ spec.module_of modules.now member }
{
    modules
        .iter()
        .copied()
        .find(|module| module.member == member)
}

fn number_of(found: Option<Module>) -> u64
    ensures { result ≡ spec.number_of found }
{
    match found {
        None => 0,
        Some(module) => module.number,
    }
}

fn offset_of(found: Option<Module>) -> u64
    ensures { result ≡ spec.offset_of found }
{
    match found {
        None => 0,
        Some(module) => module.offset,
    }
}

/// Whether a kind is one of thread-local storage.
#[tactic(auto, unfolding(crate::specs::Tls::is_tls_kind))]
pub fn is_tls_kind(kind: u32) -> bool
    ensures { result ≡ spec.is_tls_kind kind }
{
    kind == R_X86_64_DTPMOD64 || kind == R_X86_64_DTPOFF64 || kind == R_X86_64_TPOFF64
}

/// The word for a variable: its module's number, its offset in the block, or its offset from the thread pointer.
#[tactic(auto, unfolding(crate::specs::Tls::word))]
pub fn word(modules: &[Module], reloc: &Reloc, variable: TlsIndex) -> u64
    ensures { result ≡ spec.word modules.now reloc.now variable }
{
    let module = module_of(modules, variable.member);
    if reloc.kind == R_X86_64_DTPMOD64 {
        return number_of(module);
    }
    let offset = added(variable.offset, reloc.addend);
    if reloc.kind == R_X86_64_DTPOFF64 {
        return offset;
    }
    offset.wrapping_sub(offset_of(module))
}
