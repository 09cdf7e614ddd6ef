// Definers of one name and version, by lists of names: for objects where so many names have one number (`name_key` of twins.rt), or there are so many versions, that comparing each two takes long.
ghost use Rattle.std.specs.Prelude.{◌≡◌, Some, IfOk};
ghost use Rattle.pl_object.specs.SymbolClauses.{duplicate_definer};
ghost use Rattle.pl_object.specs.Keys as spec;

use crate::repeats::{has_repeat, joined};
use crate::twins::is_plain;
use crate::version_places::{first_places, name_of};
use pl_base::Rows;
use pl_sym::{Class, Symbol, is_definer};
use pl_ver::Versions;
use std::alloc::{AllocError, Global};

fn copy_of(alloc: Global, name: &[u8]) -> Result<Rows<u8>, AllocError>
    ensures { IfOk result (λ key. key ≡ name.now) }
{
    let name = Vec::from_slice(alloc, name)?;
    Ok(Rows::from_vec(name))
}

#[tactic(auto, unfolding(crate::specs::Keys::plain_key))]
fn plain_key(alloc: Global, program: bool, symbol: &Symbol) -> Result<Option<Rows<u8>>, AllocError>
    ensures { IfOk result (λ key. key ≡ spec.plain_key program symbol.now) }
{
    if !(is_definer(symbol, Class::Other, program) && is_plain(symbol)) {
        return Ok(None);
    }
    Ok(Some(copy_of(alloc, symbol.name.as_slice())?))
}

/// The names of the definers of no version, or of the base version.
#[tactic(auto, using(crate::proofs::KeyLaws::key_next))]
fn plain_keys(
    alloc: Global,
    program: bool,
    symbols: &[Symbol],
) -> Result<Rows<Rows<u8>>, AllocError>
    ensures { IfOk result (λ keys. keys ≡ spec.keys (spec.plain_key program) symbols.now) }
{
    let mut keys = Rows::new(alloc);
    for symbol in symbols {
        let key = plain_key(alloc, program, symbol)?;
        keys.push_some(key)?;
    }
    Ok(keys)
}

#[tactic(auto, unfolding(crate::specs::Keys::version_key))]
fn version_key(
    alloc: Global,
    versions: &Versions,
    places: &[Option<usize>],
    program: bool,
    symbol: &Symbol,
) -> Result<Option<Rows<u8>>, AllocError>
    requires { spec.ArePlaces versions.now.names places.now }
    ensures { IfOk result (λ key. key ≡ spec.version_key (Some versions.now) program symbol.now) }
{
    if !is_definer(symbol, Class::Other, program) {
        return Ok(None);
    }
    match name_of(versions, places, symbol.version) {
        None => Ok(None),
        Some(version) => Ok(Some(joined(alloc, version, symbol.name.as_slice())?)),
    }
}

/// The names of the definers with those of their versions, by the places of the versions.
#[tactic(auto, using(crate::proofs::KeyLaws::key_next))]
fn placed_keys(
    alloc: Global,
    versions: &Versions,
    places: &[Option<usize>],
    program: bool,
    symbols: &[Symbol],
) -> Result<Rows<Rows<u8>>, AllocError>
    requires { spec.ArePlaces versions.now.names places.now }
    ensures { IfOk result (λ keys. keys ≡ spec.keys (spec.version_key (Some versions.now) program)
        symbols.now) }
{
    let mut keys = Rows::new(alloc);
    for symbol in symbols {
        let key = version_key(alloc, versions, places, program, symbol)?;
        keys.push_some(key)?;
    }
    Ok(keys)
}

/// The names of the definers with those of their versions.
fn version_keys(
    alloc: Global,
    versions: &Versions,
    program: bool,
    symbols: &[Symbol],
) -> Result<Rows<Rows<u8>>, AllocError>
    ensures { IfOk result (λ keys. keys ≡ spec.keys (spec.version_key (Some versions.now) program)
        symbols.now) }
{
    let places = first_places(alloc, versions.names.as_slice())?;
    placed_keys(alloc, versions, &places, program, symbols)
}

/// The keys of all symbols, in order; none where the object has no versions.
#[tactic(auto, using(crate::proofs::KeyLaws::no_version_keys))]
fn named_keys(
    alloc: Global,
    versions: &Option<Versions>,
    program: bool,
    symbols: &[Symbol],
) -> Result<Rows<Rows<u8>>, AllocError>
    ensures { IfOk result (λ keys. keys ≡ spec.keys (spec.version_key versions.now program)
        symbols.now) }
{
    match versions {
        None => Ok(Rows::new(alloc)),
        Some(versions) => version_keys(alloc, versions, program, symbols),
    }
}

/// Whether two symbols are definers of one name and version. The time grows as `n log n`, times the length of the names.
#[tactic(auto, using(crate::proofs::KeyLaws::keys_tell))]
pub fn any_twins(
    alloc: Global,
    versions: &Option<Versions>,
    program: bool,
    symbols: &[Symbol],
) -> Result<bool, AllocError>
    ensures { IfOk result (λ b. b ≡ duplicate_definer versions.now program symbols.now) }
{
    let plain = plain_keys(alloc, program, symbols)?;
    let named = named_keys(alloc, versions, program, symbols)?;
    let plain_twice = has_repeat(alloc, plain.as_slice())?;
    let named_twice = has_repeat(alloc, named.as_slice())?;
    Ok(plain_twice || named_twice)
}
