// Keys of names: their hashes, or, where many names share hashes, numbers.
ghost use Rattle.std.specs.Prelude.{◌≡◌, IfOk, OnOk};
ghost use Rattle.pl_hash.specs.Hash.{gnu};
ghost use Rattle.pl_scope.specs.Scope.{objects};
ghost use Rattle.pl_scope.specs.Numbers as spec;

use crate::Scope;
use crate::matching::is_same;
use crate::version_index::names_in;
use pl_hash::gnu_hash;
use pl_object::Object;
use pl_sym::{Class, is_definer};
use std::alloc::{AllocError, Global};
use std::collections::BTreeMap;

/// How the names of definers and of versions get their keys.
#[derive(Drop)]
pub enum Numbers<'a> {
    /// A name's key is its hash in a GNU table.
    Hashes,

    /// A name's key is its number by a map of the names' bytes.
    Named(BTreeMap<&'a [u8], u32, Global>),
}

impl<'a> Numbers<'a> {
    /// The key of a name whose hash in a GNU table is given. None only where no definer and no version has the name.
    pub fn key_of(&self, name: &[u8], hash: u32) -> Option<u32>
        requires { hash ≡ gnu name.now }
        ensures { result ≡ spec.key_of self.now name.now }
    {
        match self {
            Numbers::Hashes => Some(hash),
            Numbers::Named(numbers) => numbers.get(name).copied(),
        }
    }
}

/// So many comparisons of names that share a hash are few.
const FEW: u64 = 0x1_0000;

/// A name with its hash.
#[derive(Clone, Copy)]
struct Hashed<'a> {
    hash: u32,
    name: &'a [u8],
}

fn with_hash(name: &[u8]) -> Hashed<'_> {
    Hashed {
        hash: gnu_hash(name),
        name,
    }
}

/// The names of an object's definers and of its versions, behind others.
fn add_names<'a>(names: &mut Vec<Hashed<'a>>, object: &'a Object) -> Result<(), AllocError> {
    for symbol in object.symbols.as_slice() {
        if is_definer(symbol, Class::Other, object.kind.is_program()) {
            names.push(with_hash(symbol.name.as_slice()))?;
        }
    }
    for row in names_in(&object.versions) {
        names.push(with_hash(row.name.as_slice()))?;
    }
    Ok(())
}

/// How often names, in the order of their hashes, stand in a run of one hash behind others than the run's first.
fn comparisons(names: &[Hashed<'_>]) -> u64 {
    let Some(start) = names.first() else {
        return 0;
    };
    let mut first = *start;
    let mut others: u64 = 0;
    let mut comparisons: u64 = 0;
    for next in names {
        if next.hash != first.hash {
            first = *next;
            others = 0;
        }
        if !is_same(next.name, first.name) {
            others = others.saturating_add(1);
        }
        comparisons = comparisons.saturating_add(others);
    }
    comparisons
}

/// Whether many names share hashes.
fn are_many(alloc: Global, scope: &Scope<'_>) -> Result<bool, AllocError> {
    let mut names = Vec::new(alloc);
    for member in 0..scope.count() {
        add_names(&mut names, scope.object(member))?;
    }
    names.sort_unstable_by_key(|name| name.hash);
    Ok(comparisons(&names) > FEW)
}

/// The number of the next name after so many. Names past the last number of 32 bits would share that one.
fn next_number(count: usize) -> u32 {
    if count < 0xffff_ffff {
        count as u32
    } else {
        0xffff_ffff
    }
}

/// Gives a name the next number, where it has none.
fn add_number<'a>(
    numbers: &mut BTreeMap<&'a [u8], u32, Global>,
    name: &'a [u8],
) -> Result<(), AllocError>
    ensures { OnOk result (spec.IsNumberAdded name.now numbers.old numbers.new) }
{
    if numbers.contains_key(name) {
        return Ok(());
    }
    let next = next_number(numbers.len());
    numbers.insert(name, next)?;
    Ok(())
}

/// Gives the names of an object's definers numbers, each that has none the next one.
fn add_definers<'a>(
    numbers: &mut BTreeMap<&'a [u8], u32, Global>,
    object: &'a Object,
) -> Result<(), AllocError>
    ensures { OnOk result (spec.AreDefinersNumbered object.now numbers.old numbers.new) }
{
    for symbol in object.symbols.as_slice() {
        if is_definer(symbol, Class::Other, object.kind.is_program()) {
            add_number(numbers, symbol.name.as_slice())?;
        }
    }
    Ok(())
}

/// Gives the names of an object's versions numbers, each that has none the next one.
fn add_versions<'a>(
    numbers: &mut BTreeMap<&'a [u8], u32, Global>,
    object: &'a Object,
) -> Result<(), AllocError>
    ensures { OnOk result (spec.AreVersionsNumbered object.now numbers.old numbers.new) }
{
    for row in names_in(&object.versions) {
        add_number(numbers, row.name.as_slice())?;
    }
    Ok(())
}

/// The keys of the names of all definers and versions of a scope: hashes, or where many names share hashes numbers by a map of the names' bytes. Each of these names has a key. It fails only for want of memory.
pub fn numbers_of<'a>(alloc: Global, scope: &Scope<'a>) -> Result<Numbers<'a>, AllocError>
    ensures { IfOk result (λ numbers. spec.AreNumbersOf (objects scope.now) numbers) }
{
    if !are_many(alloc, scope)? {
        return Ok(Numbers::Hashes);
    }
    let mut numbers = BTreeMap::new(alloc);
    for member in 0..scope.count() {
        let object = scope.object(member);
        add_definers(&mut numbers, object)?;
        add_versions(&mut numbers, object)?;
    }
    Ok(Numbers::Named(numbers))
}
