// Which symbol of one object answers to a name, by a search through all its symbols.
ghost use Rattle.std.specs.Prelude.{◌≡◌, ◌<◌, ◌&&◌, ◌==◌, length, position, count_by, Some, IfSome};
ghost use Rattle.std.specs.Option.{option_map};
ghost use Rattle.std.specs.Str.{bytes_eq};
ghost use Rattle.pl_ver.specs.Fields.{index_of};
ghost use Rattle.pl_ver.specs.declared.constants.TheConstants.{VER_NDX_GLOBAL};
ghost use Rattle.pl_scope.specs.Matching as spec;
ghost use Rattle.pl_scope.specs.Probing as probing;

use crate::constants::FIRST_VERSION;
use crate::probe::Pick;
use pl_object::{Object, version_name};
use pl_sym::{Class, Symbol, is_definer};
use pl_ver::constants::{VER_NDX_GLOBAL, VER_NDX_LOCAL, VERSYM_HIDDEN};
use pl_ver::index_of;

/// Whether two names have the same bytes.
pub fn is_same(name: &[u8], other: &[u8]) -> bool
    ensures { result ≡ bytes_eq name.now other.now }
{
    name == other
}

#[tactic(auto, unfolding(crate::specs::Matching::defines))]
pub fn defines(object: &Object, name: &[u8], class: Class, symbol: &Symbol) -> bool
    ensures { result ≡ spec.defines object.now name.now class symbol.now }
{
    is_definer(symbol, class, object.kind.is_program()) && is_same(symbol.name.as_slice(), name)
}

#[tactic(auto, unfolding(crate::specs::Matching::has_version))]
fn has_version(object: &Object, version: &[u8], symbol: &Symbol) -> bool
    ensures { result ≡ spec.has_version object.now version.now symbol.now }
{
    match version_name(&object.versions, symbol.version) {
        None => false,
        Some(name) => is_same(version, name),
    }
}

fn is_of_version(
    object: &Object,
    name: &[u8],
    class: Class,
    version: &[u8],
    symbol: &Symbol,
) -> bool
    ensures { result ≡ (spec.defines object.now name.now class symbol.now && spec.has_version
        object.now version.now symbol.now) }
{
    defines(object, name, class, symbol) && has_version(object, version, symbol)
}

fn is_of_no_version(object: &Object, name: &[u8], class: Class, symbol: &Symbol) -> bool
    ensures { result ≡ (spec.defines object.now name.now class symbol.now && symbol.now.version ==
        VER_NDX_GLOBAL) }
{
    symbol.version == VER_NDX_GLOBAL && defines(object, name, class, symbol)
}

fn is_at_index(object: &Object, name: &[u8], class: Class, index: u16, symbol: &Symbol) -> bool
    ensures { result ≡ (spec.defines object.now name.now class symbol.now && index_of
        symbol.now.version == index) }
{
    index_of(symbol.version) == index && defines(object, name, class, symbol)
}

/// Whether a symbol defines the name and, unless hidden ones count too, is not hidden.
#[tactic(auto, unfolding(crate::specs::Matching::counts))]
fn counts(object: &Object, name: &[u8], class: Class, hidden: bool, symbol: &Symbol) -> bool
    ensures { result ≡ spec.counts object.now name.now class hidden symbol.now }
{
    defines(object, name, class, symbol) && (hidden || symbol.version < VERSYM_HIDDEN)
}

/// Whether a step of the search takes a symbol.
pub fn is_taken(object: &Object, name: &[u8], class: Class, pick: Pick<'_>, symbol: &Symbol) -> bool
    ensures { result ≡ probing.taken object.now name.now class pick.entry symbol.now }
{
    match pick {
        Pick::Version(version) => is_of_version(object, name, class, version, symbol),
        Pick::Plain => is_of_no_version(object, name, class, symbol),
        Pick::Index(index) => is_at_index(object, name, class, index, symbol),
        Pick::Each => counts(object, name, class, true, symbol),
        Pick::Shown => counts(object, name, class, false, symbol),
    }
}

/// How many symbols a step takes.
fn count_taken(object: &Object, name: &[u8], class: Class, pick: Pick<'_>) -> usize
    ensures { result ≡ count_by (probing.taken object.now name.now class pick.entry)
        object.now.symbols }
{
    object
        .symbols
        .as_slice()
        .iter()
        .filter(|symbol| is_taken(object, name, class, pick, symbol))
        .count()
}

/// The index of the first symbol that a step takes.
fn first_taken(object: &Object, name: &[u8], class: Class, pick: Pick<'_>) -> Option<usize>
    ensures value { result ≡ position (probing.taken object.now name.now class pick.entry)
        object.now.symbols }
    ensures within { IfSome result (λ i. i < length object.now.symbols) }
{
    object
        .symbols
        .as_slice()
        .iter()
        .position(|symbol| is_taken(object, name, class, pick, symbol))
}

/// The index of the only symbol that a step takes.
fn only_taken(object: &Object, name: &[u8], class: Class, pick: Pick<'_>) -> Option<usize>
    ensures value { result ≡ spec.only (probing.taken object.now name.now class pick.entry)
        object.now.symbols }
    ensures within { IfSome result (λ i. i < length object.now.symbols) }
{
    if count_taken(object, name, class, pick) == 1 {
        first_taken(object, name, class, pick)
    } else {
        None
    }
}

/// For a reference with a version: the definer of the version, else of no version, else, in an object without version words, the only one.
#[tactic(auto, unfolding(crate::specs::Matching::versioned))]
fn versioned(object: &Object, name: &[u8], class: Class, version: &[u8]) -> Option<usize>
    ensures value { result ≡ spec.versioned object.now name.now class version.now }
    ensures within { IfSome result (λ i. i < length object.now.symbols) }
{
    if let Some(index) = first_taken(object, name, class, Pick::Version(version)) {
        return Some(index);
    }
    if let Some(index) = first_taken(object, name, class, Pick::Plain) {
        return Some(index);
    }
    if object.versions.is_some() {
        None
    } else {
        only_taken(object, name, class, Pick::Each)
    }
}

#[tactic(auto, unfolding(crate::specs::Matching::unversioned))]
fn unversioned(object: &Object, name: &[u8], class: Class) -> Option<usize>
    ensures value { result ≡ spec.unversioned object.now name.now class }
    ensures within { IfSome result (λ i. i < length object.now.symbols) }
{
    if let Some(index) = first_taken(object, name, class, Pick::Index(VER_NDX_LOCAL)) {
        return Some(index);
    }
    if let Some(index) = first_taken(object, name, class, Pick::Index(VER_NDX_GLOBAL)) {
        return Some(index);
    }
    if let Some(index) = first_taken(object, name, class, Pick::Index(FIRST_VERSION)) {
        return Some(index);
    }
    only_taken(object, name, class, Pick::Shown)
}

/// The index of an object's symbol that matches a name, for references of a class, with or without a version.
pub fn matching(object: &Object, name: &[u8], class: Class, version: Option<&[u8]>) -> Option<usize>
    ensures value { result ≡ spec.matching object.now name.now class
        (option_map (λ x. x.now) version.entry) }
    ensures within { IfSome result (λ i. i < length object.now.symbols) }
{
    match version {
        None => unversioned(object, name, class),
        Some(version) => versioned(object, name, class, version),
    }
}
