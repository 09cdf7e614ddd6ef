ghost use Rattle.std.specs.Prelude.{◌≡◌};
ghost use Rattle.pl_sym.specs.Definers as spec;

use crate::constants::{
    STB_GLOBAL, STB_GNU_UNIQUE, STB_WEAK, STT_COMMON, STT_FUNC, STT_NOTYPE, STT_OBJECT, STT_TLS,
    STV_DEFAULT, STV_PROTECTED,
};
use crate::{Class, Symbol};

// Known to all objects.
#[tactic(auto, unfolding(crate::specs::Definers::is_global))]
fn is_global(symbol: &Symbol) -> bool
    ensures { result ≡ spec.is_global symbol.now }
{
    matches!(symbol.bind, STB_GLOBAL | STB_WEAK | STB_GNU_UNIQUE)
}

// Seen by other objects.
#[tactic(auto, unfolding(crate::specs::Definers::is_visible))]
fn is_visible(symbol: &Symbol) -> bool
    ensures { result ≡ spec.is_visible symbol.now }
{
    matches!(symbol.visibility, STV_DEFAULT | STV_PROTECTED)
}

// The value itself is what references get: not a section, a file's name, or a function that is yet to answer an address.
#[tactic(auto, unfolding(crate::specs::Definers::has_plain_kind))]
fn has_plain_kind(symbol: &Symbol) -> bool
    ensures { result ≡ spec.has_plain_kind symbol.now }
{
    matches!(
        symbol.kind,
        STT_NOTYPE | STT_OBJECT | STT_FUNC | STT_COMMON | STT_TLS
    )
}

// All that a definer needs but its value.
#[tactic(auto, unfolding(crate::specs::Definers::is_linkable))]
fn is_linkable(symbol: &Symbol) -> bool
    ensures { result ≡ spec.is_linkable symbol.now }
{
    (symbol.is_absolute() || symbol.is_in_section())
        && is_global(symbol)
        && is_visible(symbol)
        && has_plain_kind(symbol)
}

// A value other than 0, or one that may be 0: a number, or an offset in the TLS block.
#[tactic(auto, unfolding(crate::specs::Definers::has_value))]
fn has_value(symbol: &Symbol) -> bool
    ensures { result ≡ spec.has_value symbol.now }
{
    symbol.value != 0 || symbol.is_absolute() || symbol.is_tls()
}

#[tactic(auto, unfolding(crate::specs::Definers::is_definition))]
fn is_definition(symbol: &Symbol) -> bool
    ensures { result ≡ spec.is_definition symbol.now }
{
    is_linkable(symbol) && has_value(symbol)
}

// An undefined symbol with a value, which in a program is the canonical address of a function.
#[tactic(auto, unfolding(crate::specs::Definers::is_canonical))]
fn is_canonical(symbol: &Symbol) -> bool
    ensures { result ≡ spec.is_canonical symbol.now }
{
    symbol.is_undefined() && !symbol.is_local() && symbol.value != 0
}

/// Whether a symbol defines its name for references of a class (gABI chapter 4, "Symbol Table"). It is absolute or lies
/// in a section; its binding is global, weak or unique; its visibility is default or protected; its type is none, data,
/// function, common or TLS; and its value is not 0, where it is neither absolute nor TLS. Its version is not looked at.
///
/// `program` says that the symbol's object is the program. There an undefined symbol that is not local and has a value
/// other than 0 is a definer too, for every class but Jump: that value is the canonical address of a function (x86-64
/// psABI, "Function Addresses").
pub fn is_definer(symbol: &Symbol, class: Class, program: bool) -> bool
    ensures { result ≡ spec.is_definer symbol.now class program }
{
    match class {
        Class::Jump => is_definition(symbol),
        Class::Other => is_definition(symbol) || (program && is_canonical(symbol)),
    }
}
