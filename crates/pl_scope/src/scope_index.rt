// The definers of all members, by keys of their names.
ghost use Rattle.std.specs.Prelude.{◌≡◌, ◌<◌, [], vec_len, IfOk, OnOk};
ghost use Rattle.std.specs.List.Sorted.{IsNonDecreasingBy};
ghost use Rattle.pl_scope.specs.Entries.{AreUnder};
ghost use Rattle.pl_scope.specs.Scope.{objects, IsFit};
ghost use Rattle.pl_scope.specs.ScopeIndex as spec;

use crate::Scope;
use crate::definers::{Definers, Listed, definers_of};
use crate::entries::{Entry, sort_entries, under};
use crate::numbers::{Numbers, numbers_of};
use crate::version_index::{VersionIndex, versions_of};
use pl_object::Object;
use std::alloc::{AllocError, Global};

/// What an index has of an object: its definers and its versions.
#[derive(Drop)]
pub struct Own<'a> {
    pub definers: Definers,
    pub versions: VersionIndex<'a>,
}

/// The definers of all members, by keys of their names: the members under each key, and for each member what is its own.
#[derive(Drop)]
pub struct ScopeIndex<'a> {
    pub numbers: Numbers<'a>,

    /// The members that have definers under a key, in the order of the keys.
    pub members: Vec<Entry>,

    pub own: Vec<Own<'a>>,
}

/// The name's part of a key in a list of definers.
fn name_part(key: u64) -> u64
    ensures { result ≡ spec.name_part key }
{
    key / 0x1_0000_0000
}

/// Whether a key is the last one.
fn is_last(last: Option<u64>, key: u64) -> bool
    ensures { result ≡ spec.is_last last key }
{
    match last {
        None => false,
        Some(other) => other == key,
    }
}

/// Adds a member under a key, unless that is the last key that it was added under.
fn add_key(
    members: &mut Vec<Entry>,
    last: Option<u64>,
    key: u64,
    member: u32,
) -> Result<(), AllocError>
    ensures { OnOk result (spec.IsKeyAdded last key member members.old.items members.new.items) }
{
    if is_last(last, key) {
        return Ok(());
    }
    members.push(Entry { key, value: member })?;
    Ok(())
}

/// Adds a member under the names of its definers, each once where these are in the order of their keys.
fn add_member(members: &mut Vec<Entry>, own: &[Entry], member: u32) -> Result<(), AllocError>
    ensures { OnOk result (spec.IsMemberAdded own.now member members.old.items members.new.items) }
{
    let mut last: Option<u64> = None;
    for entry in own {
        let key = name_part(entry.key);
        add_key(members, last, key, member)?;
        last = Some(key);
    }
    Ok(())
}

/// The definers and the versions of an object.
fn own_of<'a>(
    alloc: Global,
    object: &'a Object,
    numbers: &Numbers<'a>,
) -> Result<Own<'a>, AllocError>
    requires { IsFit object.now }
    ensures { IfOk result (λ own. spec.AreOwn numbers.now object.now own) }
{
    let versions = versions_of(alloc, &object.versions)?;
    let listed = Listed {
        object,
        versions: &versions,
        numbers,
    };
    let definers = definers_of(alloc, &listed)?;
    Ok(Own { definers, versions })
}

/// Adds what is a member's own, and the member under the names of its definers.
fn add_own<'a>(
    alloc: Global,
    index: &mut ScopeIndex<'a>,
    object: &'a Object,
    member: u32,
) -> Result<(), AllocError>
    requires { IsFit object.now }
    ensures { OnOk result (spec.IsOwnAdded object.now member index.old index.new) }
{
    let own = own_of(alloc, object, &index.numbers)?;
    add_member(&mut index.members, own.definers.by_index.as_slice(), member)?;
    index.own.push(own)?;
    Ok(())
}

/// An index of no member, with the keys of names.
fn of_none<'a>(alloc: Global, numbers: Numbers<'a>) -> ScopeIndex<'a>
    ensures numbers { result.numbers ≡ numbers.entry }
    ensures members { result.members.items ≡ [] }
    ensures own { result.own.items ≡ [] }
{
    ScopeIndex {
        numbers,
        members: Vec::new(alloc),
        own: Vec::new(alloc),
    }
}

/// The definers of all members, in the order of keys; each member's object is one that `accept` gave. The time grows as `n log n`. It fails only for want of memory.
pub fn index_of<'a>(alloc: Global, scope: &Scope<'a>) -> Result<ScopeIndex<'a>, AllocError>
    ensures { IfOk result (λ index. spec.IsIndex (objects scope.now) index) }
{
    let numbers = numbers_of(alloc, scope)?;
    let mut index = of_none(alloc, numbers);
    for member in 0..scope.count() {
        let object = scope.object(member);
        add_own(alloc, &mut index, object, member)?;
    }
    sort_entries(&mut index.members);
    Ok(index)
}

/// What an index has of a member.
pub fn own_at<'i, 'a>(index: &'i ScopeIndex<'a>, member: u32) -> &'i Own<'a>
    requires { member < vec_len index.now.own }
    ensures { spec.IsOwnAt index.now member result.now }
{
    &index.own[member as usize]
}

/// The members that have definers under a key.
pub fn members_under<'i>(index: &'i ScopeIndex<'_>, key: u32) -> &'i [Entry]
    requires { IsNonDecreasingBy (λ e. e.key) index.now.members.items }
    ensures { AreUnder index.now.members.items key result.now }
{
    under(index.members.as_slice(), u64::from(key))
}
