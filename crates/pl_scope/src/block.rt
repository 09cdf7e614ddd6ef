// Which symbol of one object answers to a name, by a search among some symbols that have all definers of the name.
ghost use Rattle.std.specs.Prelude.{◌≡◌, ◌==◌, ◌&&◌, not, position};
ghost use Rattle.std.specs.Option.{option_map};
ghost use Rattle.pl_object.specs.SymbolClauses.{version_name};
ghost use Rattle.pl_scope.specs.Definers as definers;
ghost use Rattle.pl_scope.specs.Entries as entries;
ghost use Rattle.pl_scope.specs.Matching as matching;
ghost use Rattle.pl_scope.specs.Probing as probing;
ghost use Rattle.pl_scope.specs.Block as spec;

use crate::constants::FIRST_VERSION;
use crate::definers::{Definers, pair};
use crate::entries::{Entry, between, under};
use crate::matching::{defines, is_same, is_taken};
use crate::numbers::Numbers;
use crate::probe::{Pick, with_picked};
use crate::version_index::VersionIndex;
use pl_hash::gnu_hash;
use pl_object::{Object, version_name};
use pl_sym::{Class, Symbol};
use pl_ver::constants::{VER_NDX_GLOBAL, VER_NDX_LOCAL, VERSYM_HIDDEN};

/// The lists of an object's definers by keys of names, and the key that the name has. The name of the version of each definer has a key too.
#[derive(Clone, Copy)]
pub struct Lists<'b, 'a> {
    /// The key of the name.
    pub key: u32,

    pub definers: &'b Definers,
    pub numbers: &'b Numbers<'a>,

    /// The versions of the object.
    pub versions: &'b VersionIndex<'a>,
}

/// Where the definers of a name are.
#[derive(Clone, Copy)]
pub enum Place<'b, 'a> {
    /// In lists, of which each step takes those under a key.
    Lists(Lists<'b, 'a>),

    /// Among these symbols.
    Among(&'b [Entry]),
}

/// An object that is searched for a name, for references of a class. The versions and the definers of the name are those of the object.
#[derive(Clone, Copy)]
pub struct Block<'b, 'a> {
    pub object: &'b Object,
    pub name: &'b [u8],
    pub class: Class,
    /// An index of the object's versions, if there is one.
    pub versions: Option<&'b VersionIndex<'a>>,

    /// Where the definers of the name are.
    pub place: Place<'b, 'a>,
}

/// The name of the version that a version word of the object stands for.
fn version_of_word<'b>(block: &Block<'b, '_>, word: u16) -> Option<&'b [u8]>
    requires { spec.IsBlock block.now }
    ensures { option_map (λ x. x.now) result ≡ version_name block.now.object.now.versions word }
{
    match block.versions {
        None => version_name(&block.object.versions, word),
        Some(versions) => versions.name_of(word),
    }
}

/// Whether a symbol's version has this name.
#[tactic(auto, unfolding(crate::specs::Matching::has_version))]
fn has_version(block: &Block<'_, '_>, version: &[u8], symbol: &Symbol) -> bool
    requires { spec.IsBlock block.now }
    ensures { result ≡ matching.has_version block.now.object.now version.now symbol.now }
{
    match version_of_word(block, symbol.version) {
        None => false,
        Some(name) => is_same(version, name),
    }
}

/// Whether a symbol defines the name and has a version.
fn is_of_version(block: &Block<'_, '_>, version: &[u8], symbol: &Symbol) -> bool
    requires { spec.IsBlock block.now }
    ensures { result ≡ (matching.defines block.now.object.now block.now.name.now block.now.class
        symbol.now && matching.has_version block.now.object.now version.now symbol.now) }
{
    defines(block.object, block.name, block.class, symbol) && has_version(block, version, symbol)
}

/// Whether a step takes a symbol.
fn is_picked(block: &Block<'_, '_>, pick: Pick<'_>, symbol: &Symbol) -> bool
    requires { spec.IsBlock block.now }
    ensures { result ≡ probing.taken block.now.object.now block.now.name.now block.now.class
        pick.entry symbol.now }
{
    match pick {
        Pick::Version(version) => is_of_version(block, version, symbol),
        _ => is_taken(block.object, block.name, block.class, pick, symbol),
    }
}

/// Whether a step takes the symbol of an index.
fn picks(block: &Block<'_, '_>, pick: Pick<'_>, index: u32) -> bool
    requires { spec.IsBlock block.now }
    ensures { result ≡ spec.takes block.now pick.entry index }
{
    match block.object.symbols.as_slice().get(index as usize) {
        None => false,
        Some(symbol) => is_picked(block, pick, symbol),
    }
}

/// The definers of the name whose version has an index.
fn of_index<'b>(lists: &Lists<'b, '_>, index: u16) -> &'b [Entry]
    requires { spec.AreRising lists.now.definers.now }
    ensures { entries.AreUnder lists.now.definers.now.by_index.items
        (definers.pair lists.now.key index) result.now }
{
    let key = pair(lists.key, u32::from(index));
    under(lists.definers.by_index.as_slice(), key)
}

/// All definers of the name. The index of a version is less than `VERSYM_HIDDEN`.
fn of_name<'b>(lists: &Lists<'b, '_>) -> &'b [Entry]
    requires { spec.AreRising lists.now.definers.now }
    ensures { entries.AreBetween lists.now.definers.now.by_index.items
        (definers.pair lists.now.key 0) (spec.end_of_name lists.now.key) result.now }
{
    let first = u128::from(pair(lists.key, 0));
    let end = u128::from(pair(lists.key, u32::from(VERSYM_HIDDEN)));
    between(lists.definers.by_index.as_slice(), first, end)
}

/// The definers of the name that are not hidden.
fn shown<'b>(lists: &Lists<'b, '_>) -> &'b [Entry]
    requires { spec.AreRising lists.now.definers.now }
    ensures { entries.AreUnder lists.now.definers.now.shown.items (definers.pair lists.now.key 0)
        result.now }
{
    under(lists.definers.shown.as_slice(), pair(lists.key, 0))
}

/// The definers of the name under the key of a version.
fn under_version<'b>(lists: &Lists<'b, '_>, key: u32) -> &'b [Entry]
    requires { spec.AreRising lists.now.definers.now }
    ensures { entries.AreUnder lists.now.definers.now.by_version.items
        (definers.pair lists.now.key key) result.now }
{
    let key = pair(lists.key, key);
    under(lists.definers.by_version.as_slice(), key)
}

/// Symbols among which are all definers of the name that have a version.
fn of_version<'b>(block: &Block<'b, '_>, lists: &Lists<'b, '_>, version: &[u8]) -> &'b [Entry]
    requires block { spec.IsBlock block.now }
    requires lists { spec.AreLists block.now lists.now }
    ensures { spec.HaveVersion block.now version.now result.now }
{
    match lists.numbers.key_of(version, gnu_hash(version)) {
        None => &[],
        Some(key) => under_version(lists, key),
    }
}

/// Symbols in lists among which are all that a step takes.
fn listed<'b>(block: &Block<'b, '_>, lists: &Lists<'b, '_>, pick: Pick<'_>) -> &'b [Entry]
    requires block { spec.IsBlock block.now }
    requires lists { spec.AreLists block.now lists.now }
    ensures { spec.AreCandidates block.now pick.entry result.now }
{
    match pick {
        Pick::Version(version) => of_version(block, lists, version),
        Pick::Plain => of_index(lists, VER_NDX_GLOBAL),
        Pick::Index(index) => of_index(lists, index),
        Pick::Each => of_name(lists),
        Pick::Shown => shown(lists),
    }
}

/// Symbols among which are all that a step takes.
fn candidates<'b>(block: &Block<'b, '_>, pick: Pick<'_>) -> &'b [Entry]
    requires { spec.IsBlock block.now }
    ensures { spec.AreCandidates block.now pick.entry result.now }
{
    match block.place {
        Place::Among(among) => among,
        Place::Lists(lists) => listed(block, &lists, pick),
    }
}

/// The index of the first symbol that a step takes.
fn first_picked(block: &Block<'_, '_>, pick: Pick<'_>) -> Option<u32>
    requires { spec.IsBlock block.now }
    ensures { result ≡ position (probing.taken block.now.object.now block.now.name.now
        block.now.class pick.entry) block.now.object.now.symbols }
{
    let mut least = None;
    for entry in candidates(block, pick) {
        least = with_picked(least, entry.value, picks(block, pick, entry.value));
    }
    least
}

/// One of some symbols that a step takes.
fn any_picked(block: &Block<'_, '_>, pick: Pick<'_>, among: &[Entry]) -> Option<u32>
    requires { spec.IsBlock block.now }
    ensures { spec.IsAnyOf (spec.takes block.now pick.entry) among.now result }
{
    for entry in among {
        if picks(block, pick, entry.value) {
            return Some(entry.value);
        }
    }
    None
}

/// Whether a step takes another one than an index, which is a candidate.
fn is_other_picked(block: &Block<'_, '_>, pick: Pick<'_>, index: u32, candidate: u32) -> bool
    requires { spec.IsBlock block.now }
    ensures { result ≡ (not (candidate == index) && spec.takes block.now pick.entry candidate) }
{
    candidate != index && picks(block, pick, candidate)
}

/// Whether a step takes another one of some symbols than an index.
fn has_another(block: &Block<'_, '_>, pick: Pick<'_>, among: &[Entry], index: u32) -> bool
    requires { spec.IsBlock block.now }
    ensures { result ≡ probing.another (spec.takes block.now pick.entry) index
        (spec.values among.now) }
{
    for entry in among {
        if is_other_picked(block, pick, index, entry.value) {
            return true;
        }
    }
    false
}

/// The index of the only symbol that a step takes. It goes on to the second one at most.
fn only_picked(block: &Block<'_, '_>, pick: Pick<'_>) -> Option<u32>
    requires { spec.IsBlock block.now }
    ensures { result ≡ matching.only (probing.taken block.now.object.now block.now.name.now
        block.now.class pick.entry) block.now.object.now.symbols }
{
    let among = candidates(block, pick);
    let Some(index) = any_picked(block, pick, among) else {
        return None;
    };
    if has_another(block, pick, among, index) {
        None
    } else {
        Some(index)
    }
}

#[tactic(auto, unfolding(crate::specs::Matching::versioned))]
fn versioned(block: &Block<'_, '_>, version: &[u8]) -> Option<u32>
    requires { spec.IsBlock block.now }
    ensures { result ≡ matching.versioned block.now.object.now block.now.name.now block.now.class
        version.now }
{
    if let Some(index) = first_picked(block, Pick::Version(version)) {
        return Some(index);
    }
    if let Some(index) = first_picked(block, Pick::Plain) {
        return Some(index);
    }
    if block.object.versions.is_some() {
        None
    } else {
        only_picked(block, Pick::Each)
    }
}

#[tactic(auto, unfolding(crate::specs::Matching::unversioned))]
fn unversioned(block: &Block<'_, '_>) -> Option<u32>
    requires { spec.IsBlock block.now }
    ensures { result ≡ matching.unversioned block.now.object.now block.now.name.now
        block.now.class }
{
    if let Some(index) = first_picked(block, Pick::Index(VER_NDX_LOCAL)) {
        return Some(index);
    }
    if let Some(index) = first_picked(block, Pick::Index(VER_NDX_GLOBAL)) {
        return Some(index);
    }
    if let Some(index) = first_picked(block, Pick::Index(FIRST_VERSION)) {
        return Some(index);
    }
    only_picked(block, Pick::Shown)
}

/// The index of an object's symbol that matches a name, with or without a version, for references of a class. Only definers under keys of the name are looked at, and of these with a version those under that of the version.
pub fn matching_in_block(block: &Block<'_, '_>, version: Option<&[u8]>) -> Option<u32>
    requires { spec.IsBlock block.now }
    ensures { result ≡ matching.matching block.now.object.now block.now.name.now block.now.class
        (option_map (λ x. x.now) version.entry) }
{
    match version {
        None => unversioned(block),
        Some(version) => versioned(block, version),
    }
}
