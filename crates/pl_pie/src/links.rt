// The points that speak of symbols and of what refers to them.
ghost use Rattle.std.specs.Prelude.{◌≡◌, ◌&&◌, slice_get};
ghost use Rattle.std.specs.List.{list_any};
ghost use Rattle.pl_sym.specs.Definers as definers;
ghost use Rattle.pl_scope.specs.Finds as finds;
ghost use Rattle.law_fixed.specs.Fixed as fixed;
ghost use Rattle.pl_pie.specs.Words as words;
ghost use Rattle.pl_pie.specs.Pie as spec;

use pl_elf::constants::{ADDRESS_LIMIT, R_X86_64_COPY};
use pl_object::{Object, Reloc};
use pl_sym::Symbol;
use pl_sym::constants::{
    STB_GLOBAL, STB_GNU_UNIQUE, STB_WEAK, STT_COMMON, STT_FUNC, STT_NOTYPE, STT_OBJECT, STT_TLS,
    STV_DEFAULT, STV_PROTECTED,
};

// ---- one symbol

#[tactic(auto, unfolding(law_fixed::specs::Fixed::moves, pl_sym::specs::Definers::is_canonical))]
pub fn moves(symbol: &Symbol) -> bool
    ensures { result ≡ fixed.moves symbol.now }
{
    let canonical = symbol.is_undefined() && !symbol.is_local() && symbol.value != 0;
    !symbol.is_tls() && (symbol.is_in_section() || canonical)
}

fn is_high(symbol: &Symbol) -> bool
    ensures { result ≡ spec.is_high symbol.now }
{
    moves(symbol) && symbol.value >= ADDRESS_LIMIT
}

#[tactic(auto, unfolding(pl_sym::specs::Definers::is_global, pl_sym::specs::Definers::is_visible))]
fn is_known(symbol: &Symbol) -> bool
    ensures { result ≡ (definers.is_global symbol.now && definers.is_visible symbol.now) }
{
    matches!(symbol.bind, STB_GLOBAL | STB_WEAK | STB_GNU_UNIQUE)
        && matches!(symbol.visibility, STV_DEFAULT | STV_PROTECTED)
}

#[tactic(auto, unfolding(pl_sym::specs::Definers::has_plain_kind))]
fn has_plain_kind(symbol: &Symbol) -> bool
    ensures { result ≡ definers.has_plain_kind symbol.now }
{
    matches!(
        symbol.kind,
        STT_NOTYPE | STT_OBJECT | STT_FUNC | STT_COMMON | STT_TLS
    )
}

/// Whether it would be a definer but for its value 0.
#[tactic(auto, unfolding(pl_sym::specs::Definers::is_linkable, pl_sym::specs::Definers::has_value))]
fn lacks_value(symbol: &Symbol) -> bool
    ensures { result ≡ spec.lacks_value symbol.now }
{
    let linkable = (symbol.is_absolute() || symbol.is_in_section())
        && is_known(symbol)
        && has_plain_kind(symbol);
    let valued = symbol.value != 0 || symbol.is_absolute() || symbol.is_tls();
    linkable && !valued
}

#[tactic(auto, unfolding(pl_scope::specs::Finds::binds_itself))]
fn binds_itself(symbol: &Symbol) -> bool
    ensures { result ≡ finds.binds_itself symbol.now }
{
    symbol.is_local() || (symbol.visibility != STV_DEFAULT && !symbol.is_undefined())
}

fn is_apart(symbol: &Symbol) -> bool
    ensures { result ≡ spec.is_apart symbol.now }
{
    binds_itself(symbol) && !(symbol.is_absolute() || symbol.is_in_section())
}

// ---- one relocation

fn binds_itself_at(symbols: &[Symbol], index: u32) -> bool
    ensures { result ≡ words.passes finds.binds_itself (slice_get symbols.now index) }
{
    match symbols.get(index as usize) {
        None => false,
        Some(symbol) => binds_itself(symbol),
    }
}

fn is_apart_at(symbols: &[Symbol], index: u32) -> bool
    ensures { result ≡ words.passes spec.is_apart (slice_get symbols.now index) }
{
    match symbols.get(index as usize) {
        None => false,
        Some(symbol) => is_apart(symbol),
    }
}

fn refers_badly(object: &Object, reloc: &Reloc) -> bool
    ensures { result ≡ spec.refers_badly object.now reloc.now }
{
    let symbols = object.symbols.as_slice();
    (reloc.symbol != 0 && is_apart_at(symbols, reloc.symbol))
        || (reloc.kind == R_X86_64_COPY && binds_itself_at(symbols, reloc.symbol))
}

// ---- all of them

fn any_high(symbols: &[Symbol]) -> bool
    ensures { result ≡ list_any spec.is_high symbols.now }
{
    symbols.iter().any(is_high)
}

fn any_lacks(symbols: &[Symbol]) -> bool
    ensures { result ≡ list_any spec.lacks_value symbols.now }
{
    symbols.iter().any(lacks_value)
}

fn any_badly(object: &Object, relocs: &[Reloc]) -> bool
    ensures { result ≡ list_any (spec.refers_badly object.now) relocs.now }
{
    relocs.iter().any(|reloc| refers_badly(object, reloc))
}

#[tactic(auto, unfolding(crate::specs::Pie::has_high))]
fn has_high(object: &Object) -> bool
    ensures { result ≡ spec.has_high object.now }
{
    object.entry >= ADDRESS_LIMIT || any_high(object.symbols.as_slice())
}

/// Whether its entry and the values that move are below the limit of addresses, no symbol would be a definer but for its value 0, and each symbol that a relocation refers to and that binds to itself is a number or has a section, and is none of a COPY.
#[tactic(auto, unfolding(crate::specs::Pie::is_linked))]
pub fn is_linked(object: &Object) -> bool
    ensures { result ≡ spec.is_linked object.now }
{
    !has_high(object)
        && !any_lacks(object.symbols.as_slice())
        && !any_badly(object, object.relocations.as_slice())
}
