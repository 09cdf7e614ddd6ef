// The definers of an object in lists, by keys of their names and versions.
ghost use Rattle.std.specs.Prelude.{◌≡◌, IfOk, OnOk};
ghost use Rattle.pl_scope.specs.Entries.{IsAdded};
ghost use Rattle.pl_scope.specs.Scope.{IsFit};
ghost use Rattle.pl_scope.specs.Definers as spec;

use crate::entries::{Entry, sort_entries};
use crate::numbers::Numbers;
use crate::version_index::VersionIndex;
use pl_hash::gnu_hash;
use pl_object::Object;
use pl_sym::{Class, Symbol, is_definer};
use pl_ver::constants::VERSYM_HIDDEN;
use pl_ver::index_of;
use std::alloc::{AllocError, Global};

/// What stands in a list beside the keys of names.
#[derive(Clone, Copy)]
pub enum Listing {
    /// The index of the definer's version.
    Index,

    /// 0, for definers that are not hidden alone.
    Shown,

    /// The key of the version's name, for definers alone whose version has one.
    Version,
}

/// An object whose definers are listed, one that `accept` gave, with its versions and the keys of names.
#[derive(Clone, Copy)]
pub struct Listed<'l, 'a> {
    pub object: &'l Object,
    pub versions: &'l VersionIndex<'a>,
    pub numbers: &'l Numbers<'a>,
}

/// The definers of an object, in the order of the keys of each list.
#[derive(Drop)]
pub struct Definers {
    /// All, under their names and the indexes of their versions.
    pub by_index: Vec<Entry>,

    /// Those that are not hidden, under their names.
    pub shown: Vec<Entry>,

    /// Those whose version has a name, under their names and those of their versions.
    pub by_version: Vec<Entry>,
}

/// The key of a name with what stands beside it.
pub fn pair(name: u32, tag: u32) -> u64
    ensures { result ≡ spec.pair name tag }
{
    u64::from(name) * 0x1_0000_0000 + u64::from(tag)
}

/// The key of a name with what stands beside it, where both are there.
fn paired(name: Option<u32>, tag: Option<u32>) -> Option<u64>
    ensures { result ≡ spec.paired name tag }
{
    match name {
        None => None,
        Some(name) => match tag {
            None => None,
            Some(tag) => Some(pair(name, tag)),
        },
    }
}

fn shown_tag(symbol: &Symbol) -> Option<u32>
    ensures { result ≡ spec.shown_tag symbol.now }
{
    if symbol.version < VERSYM_HIDDEN {
        Some(0)
    } else {
        None
    }
}

/// The key of the name of a version, where it has one.
fn version_tag(numbers: &Numbers<'_>, versions: &VersionIndex<'_>, symbol: &Symbol) -> Option<u32>
    ensures { result ≡ spec.version_tag numbers.now versions.now symbol.now }
{
    match versions.name_of(symbol.version) {
        None => None,
        Some(name) => numbers.key_of(name, gnu_hash(name)),
    }
}

/// What stands in a list beside the key of a definer's name; None where the list has not the definer.
fn tag_of(listed: &Listed<'_, '_>, listing: Listing, symbol: &Symbol) -> Option<u32>
    ensures { result ≡ spec.tag_of listed.now.numbers.now listed.now.versions.now listing
        symbol.now }
{
    match listing {
        Listing::Index => Some(u32::from(index_of(symbol.version))),
        Listing::Shown => shown_tag(symbol),
        Listing::Version => version_tag(listed.numbers, listed.versions, symbol),
    }
}

/// The key of a symbol in a list; None where the list has not the symbol.
fn symbol_key(listed: &Listed<'_, '_>, listing: Listing, symbol: &Symbol) -> Option<u64>
    ensures { result ≡ spec.symbol_key listed.now.numbers.now listed.now.versions.now
        listed.now.object.now listing symbol.now }
{
    if !is_definer(symbol, Class::Other, listed.object.kind.is_program()) {
        return None;
    }
    let name = symbol.name.as_slice();
    let key = listed.numbers.key_of(name, gnu_hash(name));
    paired(key, tag_of(listed, listing, symbol))
}

/// The key of the symbol of an index in a list; None where the list has not the symbol.
fn listed_key(listed: &Listed<'_, '_>, listing: Listing, symbol: u32) -> Option<u64>
    ensures { result ≡ spec.listed_key listed.now.numbers.now listed.now.versions.now
        listed.now.object.now listing symbol }
{
    match listed.object.symbols.as_slice().get(symbol as usize) {
        None => None,
        Some(it) => symbol_key(listed, listing, it),
    }
}

/// Adds the symbol of an index to a list that has it.
fn add_listed(
    entries: &mut Vec<Entry>,
    listed: &Listed<'_, '_>,
    listing: Listing,
    symbol: u32,
) -> Result<(), AllocError>
    ensures { OnOk result (IsAdded (spec.listed_key listed.now.numbers.now listed.now.versions.now
        listed.now.object.now listing symbol) symbol entries.old.items entries.new.items) }
{
    let Some(key) = listed_key(listed, listing, symbol) else {
        return Ok(());
    };
    entries.push(Entry { key, value: symbol })?;
    Ok(())
}

/// A list of an object's definers.
fn list_of(
    alloc: Global,
    listed: &Listed<'_, '_>,
    listing: Listing,
) -> Result<Vec<Entry>, AllocError>
    requires { IsFit listed.now.object.now }
    ensures { IfOk result (λ v. spec.IsList listed.now.numbers.now listed.now.versions.now
        listed.now.object.now listing v.items) }
{
    let mut entries = Vec::new(alloc);
    for symbol in 0..listed.object.symbols.len() as u32 {
        add_listed(&mut entries, listed, listing, symbol)?;
    }
    sort_entries(&mut entries);
    Ok(entries)
}

/// The definers of an object. The time grows as `n log n`. It fails only for want of memory.
pub fn definers_of(alloc: Global, listed: &Listed<'_, '_>) -> Result<Definers, AllocError>
    requires { IsFit listed.now.object.now }
    ensures { IfOk result (λ d. spec.AreDefiners listed.now.numbers.now listed.now.versions.now
        listed.now.object.now d) }
{
    Ok(Definers {
        by_index: list_of(alloc, listed, Listing::Index)?,
        shown: list_of(alloc, listed, Listing::Shown)?,
        by_version: list_of(alloc, listed, Listing::Version)?,
    })
}
