// The definer that a reference finds.
ghost use Rattle.std.specs.Prelude.{◌≡◌, ◌<◌, ◌==◌, ◌&&◌, length, not, slice_get, vec_len, IfSome, Some, None, [], ◌∷◌};
ghost use Rattle.std.specs.List.{list_any};
ghost use Rattle.std.specs.Bool.{OnTrue};
ghost use Rattle.std.specs.Option.{ForSome, option_map};
ghost use Rattle.pl_object.specs.SymbolClauses.{version_name};
ghost use Rattle.pl_sym.specs.Symbol.{is_undefined};
ghost use Rattle.pl_scope.specs.Scope.{objects, IsFit, IsReference, IsSymbol};
ghost use Rattle.pl_scope.specs.Definers as pairs;
ghost use Rattle.pl_scope.specs.Entries as entries;
ghost use Rattle.pl_scope.specs.Probing as probing;
ghost use Rattle.pl_scope.specs.Block as block;
ghost use Rattle.pl_scope.specs.Folder as folder;
ghost use Rattle.pl_scope.specs.Index as names;
ghost use Rattle.pl_scope.specs.ScopeIndex as index;
ghost use Rattle.pl_scope.specs.ShortIndex as short;
ghost use Rattle.pl_scope.specs.Finds as spec;

use crate::block::{Block, Lists, Place, matching_in_block};
use crate::definers::pair;
use crate::entries::{Entry, under};
use crate::folder::{Among, position_of};
use crate::index::Entry as FolderEntry;
use crate::matching::{defines, matching};
use crate::probe::matching_by_table;
use crate::scope_index::{ScopeIndex, members_under, own_at};
use crate::short_index::{
    ShortIndex, UnderName, member_of, mixed, of_member, under_hash, versions_at,
};
use crate::version_index::VersionIndex;
use crate::wanted::{Wanted, wanted_by};
use crate::{Found, Reference, Scope};
use pl_elf::constants::R_X86_64_COPY;
use pl_object::{Object, version_name};
use pl_sym::constants::STV_DEFAULT;
use pl_sym::{Class, Symbol};
use pl_ver::constants::VER_NDX_GLOBAL;
use pl_ver::index_of;

/// A way to search the members.
#[derive(Clone, Copy)]
pub enum Way<'i, 'a> {
    /// One after the other, each by a table.
    InOrder,

    /// Those that have a definer under the name's hash, by one list of the scope, each through its own definers under that hash.
    Short(&'i ShortIndex<'a>),

    /// Those that have a definer under the name's key, by an index of the scope, each through its own definers under that key.
    Indexed(&'i ScopeIndex<'a>),

    /// Those that have a definer under the name's hash, by an index of the folder whose objects they are: where the hash has one entry its symbol alone is looked at, else each member is asked by a table.
    Among(&'i Among<'i>),

    /// One after the other, each through all its symbols.
    InLists,
}

#[tactic(auto, unfolding(crate::specs::Finds::binds_itself))]
fn binds_itself(symbol: &Symbol) -> bool
    ensures { result ≡ spec.binds_itself symbol.now }
{
    symbol.is_local() || (symbol.visibility != STV_DEFAULT && !symbol.is_undefined())
}

/// Whether a symbol is undefined and has a value. No other defines a name for some references alone, and most are told apart by this without a look at their names.
fn may_be_canonical(symbol: &Symbol) -> bool
    ensures { result ≡ (not (symbol.now.value == 0) && is_undefined symbol.now) }
{
    symbol.value != 0 && symbol.is_undefined()
}

fn is_canonical_of(object: &Object, name: &[u8], symbol: &Symbol) -> bool
    ensures { result ≡ probing.is_canonical_of object.now name.now symbol.now }
{
    if !may_be_canonical(symbol) {
        return false;
    }
    defines(object, name, Class::Other, symbol) && !defines(object, name, Class::Jump, symbol)
}

fn any_canonical(object: &Object, name: &[u8]) -> bool
    ensures { result ≡ list_any (probing.is_canonical_of object.now name.now) object.now.symbols }
{
    object
        .symbols
        .as_slice()
        .iter()
        .any(|symbol| is_canonical_of(object, name, symbol))
}

fn is_other(class: Class) -> bool
    ensures { result ≡ probing.is_other class }
{
    match class {
        Class::Jump => false,
        Class::Other => true,
    }
}

/// Whether a program has a canonical address of the name, for references of a class. No table need lead to it.
#[tactic(auto, unfolding(crate::specs::Probing::has_canonical))]
fn has_canonical(object: &Object, name: &[u8], class: Class) -> bool
    ensures { result ≡ probing.has_canonical object.now name.now class }
{
    is_other(class) && object.kind.is_program() && any_canonical(object, name)
}

/// The index of an object's symbol that matches, by a search through all its symbols.
fn matching_by_list(object: &Object, wanted: &Wanted<'_>) -> Option<u32>
    requires { IsFit object.now }
    ensures { result ≡ probing.matching_for object.now wanted.now }
{
    match matching(object, wanted.name, wanted.class, wanted.version) {
        None => None,
        Some(index) => Some(index as u32),
    }
}

/// The index of an object's symbol that matches. A table of the object is asked, but for a canonical address.
fn matching_by_hash(object: &Object, wanted: &Wanted<'_>) -> Option<u32>
    requires fit { IsFit object.now }
    requires wanted { probing.IsWanted wanted.now }
    ensures { result ≡ probing.matching_for object.now wanted.now }
{
    if has_canonical(object, wanted.name, wanted.class) {
        return matching_by_list(object, wanted);
    }
    matching_by_table(object, wanted)
}

fn found_in(member: u32, matched: Option<u32>) -> Option<Found>
    ensures { result ≡ spec.found_in member matched }
{
    match matched {
        None => None,
        Some(symbol) => Some(Found { member, symbol }),
    }
}

/// The index of a member's symbol that matches, by an index of the scope, among the member's own definers under keys of the name.
fn matching_by_index(
    object: &Object,
    wanted: &Wanted<'_>,
    member: u32,
    definers: &ScopeIndex<'_>,
) -> Option<u32>
    requires wanted { probing.IsWanted wanted.now }
    requires own { index.HasOwn definers.now member object.now }
    ensures { result ≡ probing.matching_for object.now wanted.now }
{
    let Some(key) = definers.numbers.key_of(wanted.name, wanted.gnu) else {
        return None;
    };
    let own = own_at(definers, member);
    let block = Block {
        object,
        name: wanted.name,
        class: wanted.class,
        versions: Some(&own.versions),
        place: Place::Lists(Lists {
            key,
            definers: &own.definers,
            numbers: &definers.numbers,
            versions: &own.versions,
        }),
    };
    matching_in_block(&block, wanted.version)
}

/// The index of an object's symbol that matches, among some symbols that have all definers of the name.
fn matching_listed(
    object: &Object,
    wanted: &Wanted<'_>,
    versions: Option<&VersionIndex<'_>>,
    among: &[Entry],
) -> Option<u32>
    requires versions { block.AreVersionsOf object.now versions }
    requires among { folder.HaveDefiners object.now wanted.now among.now }
    ensures { result ≡ probing.matching_for object.now wanted.now }
{
    let block = Block {
        object,
        name: wanted.name,
        class: wanted.class,
        versions,
        place: Place::Among(among),
    };
    matching_in_block(&block, wanted.version)
}

/// The index of a member's symbol that matches, among the member's own definers under the name's hash, which are of one list of the scope.
fn matching_among(
    object: &Object,
    wanted: &Wanted<'_>,
    member: u32,
    definers: &ShortIndex<'_>,
    among: &[Entry],
) -> Option<u32>
    requires wanted { probing.IsWanted wanted.now }
    requires own { short.HasShort definers.now member object.now }
    requires among { entries.AreUnder definers.now.definers.entries.items
        (pairs.pair (short.mixed wanted.now.gnu) member) among.now }
    ensures { result ≡ probing.matching_for object.now wanted.now }
{
    let versions = versions_at(definers, member);
    matching_listed(object, wanted, Some(versions), among)
}

/// The index of a member's symbol that matches, by one list of the scope.
fn matching_by_short(
    object: &Object,
    wanted: &Wanted<'_>,
    member: u32,
    definers: &ShortIndex<'_>,
) -> Option<u32>
    requires wanted { probing.IsWanted wanted.now }
    requires own { short.HasShort definers.now member object.now }
    ensures { result ≡ probing.matching_for object.now wanted.now }
{
    let among = of_member(definers, mixed(wanted.gnu), member);
    matching_among(object, wanted, member, definers, among)
}

/// The matching definer of a member.
#[tactic(auto, unfolding(crate::specs::Finds::in_member))]
fn in_member(scope: &Scope<'_>, wanted: &Wanted<'_>, member: u32, way: Way<'_, '_>) -> Option<Found>
    requires within { member < length scope.now }
    requires wanted { probing.IsWanted wanted.now }
    requires way { folder.IsWay (objects scope.now) way }
    ensures { result ≡ spec.in_member_for scope.now wanted.now member }
{
    let object = scope.object(member);
    let matched = match way {
        Way::InLists => matching_by_list(object, wanted),
        Way::Short(definers) => matching_by_short(object, wanted, member, definers),
        Way::Indexed(definers) => matching_by_index(object, wanted, member, definers),
        _ => matching_by_hash(object, wanted),
    };
    found_in(member, matched)
}

/// The matching definer of the first member from one on that has one, where all members are asked, one after the other.
#[tactic(auto, using(crate::proofs::SearchLaws::first_more, crate::proofs::SearchLaws::first_done))]
fn first_in_order(
    scope: &Scope<'_>,
    wanted: &Wanted<'_>,
    start: u32,
    way: Way<'_, '_>,
) -> Option<Found>
    requires wanted { probing.IsWanted wanted.now }
    requires way { folder.IsWay (objects scope.now) way }
    ensures { result ≡ spec.first_match scope.now wanted.now start }
{
    let count = scope.count();
    for member in start..count {
        let found = in_member(scope, wanted, member, way);
        if found.is_some() {
            return found;
        }
    }
    None
}

/// Whether a member is to be asked: one from the first on, and before that of what was found.
fn is_better(start: u32, best: Option<Found>, member: u32) -> bool
    ensures { result ≡ index.is_better start best member }
{
    match best {
        None => start <= member,
        Some(found) => start <= member && member < found.member,
    }
}

/// The matching definer of a member, by a way to search, where it is better than what was found, which else stays.
fn best_of(
    scope: &Scope<'_>,
    wanted: &Wanted<'_>,
    start: u32,
    best: Option<Found>,
    member: u32,
    way: Way<'_, '_>,
) -> Option<Found>
    requires within { member < length scope.now }
    requires wanted { probing.IsWanted wanted.now }
    requires way { folder.IsWay (objects scope.now) way }
    ensures { result ≡ index.best_for scope.now wanted.now start best member }
{
    if is_better(start, best, member) {
        in_member(scope, wanted, member, way).or(best)
    } else {
        best
    }
}

/// The matching definer of the first member from one on that has one, where only the members under the name's key are asked.
fn first_indexed(
    scope: &Scope<'_>,
    wanted: &Wanted<'_>,
    start: u32,
    definers: &ScopeIndex<'_>,
) -> Option<Found>
    requires wanted { probing.IsWanted wanted.now }
    requires index { index.IsIndex (objects scope.now) definers.now }
    ensures { result ≡ spec.first_match scope.now wanted.now start }
{
    let Some(key) = definers.numbers.key_of(wanted.name, wanted.gnu) else {
        return None;
    };
    let mut best = None;
    for entry in members_under(definers, key) {
        best = best_of(
            scope,
            wanted,
            start,
            best,
            entry.value,
            Way::Indexed(definers),
        );
    }
    best
}

/// The matching definer of a member, among its entries under the name's hash.
#[tactic(auto, unfolding(crate::specs::Finds::in_member))]
fn in_member_under(
    scope: &Scope<'_>,
    wanted: &Wanted<'_>,
    member: u32,
    hits: UnderName<'_, '_>,
) -> Option<Found>
    requires within { member < length scope.now }
    requires wanted { probing.IsWanted wanted.now }
    requires under { short.AreUnderName (objects scope.now) wanted.now hits }
    ensures { result ≡ spec.in_member_for scope.now wanted.now member }
{
    let object = scope.object(member);
    let among = under(hits.entries, pair(mixed(wanted.gnu), member));
    let matched = matching_among(object, wanted, member, hits.definers, among);
    found_in(member, matched)
}

/// The matching definer of a member, among its entries under the name's hash, where it is better than what was found, which else stays.
fn best_of_under(
    scope: &Scope<'_>,
    wanted: &Wanted<'_>,
    start: u32,
    best: Option<Found>,
    member: u32,
    hits: UnderName<'_, '_>,
) -> Option<Found>
    requires within { member < length scope.now }
    requires wanted { probing.IsWanted wanted.now }
    requires under { short.AreUnderName (objects scope.now) wanted.now hits }
    ensures { result ≡ index.best_for scope.now wanted.now start best member }
{
    if is_better(start, best, member) {
        in_member_under(scope, wanted, member, hits).or(best)
    } else {
        best
    }
}

/// The matching definer of an entry's member, where the scope has it and it is better than what was found, which else stays.
fn best_under(
    scope: &Scope<'_>,
    wanted: &Wanted<'_>,
    start: u32,
    best: Option<Found>,
    entry: &Entry,
    hits: UnderName<'_, '_>,
) -> Option<Found>
    requires wanted { probing.IsWanted wanted.now }
    requires under { short.AreUnderName (objects scope.now) wanted.now hits }
    ensures { result ≡ short.best_under (objects scope.now) wanted.now start best entry.now }
{
    let member = member_of(entry);
    let count = scope.count();
    if member < count {
        best_of_under(scope, wanted, start, best, member, hits)
    } else {
        best
    }
}

/// The matching definer of the first member from one on that has one, where only the members are asked that have a definer under the name's hash.
fn first_short(
    scope: &Scope<'_>,
    wanted: &Wanted<'_>,
    start: u32,
    definers: &ShortIndex<'_>,
) -> Option<Found>
    requires wanted { probing.IsWanted wanted.now }
    requires index { short.IsShortIndex (objects scope.now) definers.now }
    ensures { result ≡ spec.first_match scope.now wanted.now start }
{
    let count = scope.count();
    let entries = under_hash(definers, wanted.start, mixed(wanted.gnu), count);
    let hits = UnderName { definers, entries };
    let mut best = None;
    for entry in entries {
        best = best_under(scope, wanted, start, best, entry, hits);
    }
    best
}

/// The matching definer of a member, if there is one, where it is better than what was found, which else stays.
fn best_at(
    scope: &Scope<'_>,
    wanted: &Wanted<'_>,
    start: u32,
    best: Option<Found>,
    member: Option<u32>,
) -> Option<Found>
    requires within { ForSome member (λ m. m < length scope.now) }
    requires wanted { probing.IsWanted wanted.now }
    ensures { result ≡ folder.best_at (objects scope.now) wanted.now start best member }
{
    match member {
        None => best,
        Some(member) => best_of(scope, wanted, start, best, member, Way::InOrder),
    }
}

/// The index of an object's symbol that matches, where no other than one can.
fn matching_alone(object: &Object, wanted: &Wanted<'_>, symbol: u32) -> Option<u32>
    requires { folder.IsOnlyDefiner object.now wanted.now.name.now wanted.now.class symbol }
    ensures { result ≡ probing.matching_for object.now wanted.now }
{
    let among = [Entry {
        key: 0,
        value: symbol,
    }];
    matching_listed(object, wanted, None, &among)
}

/// The matching definer of a member, where no other symbol of it than one can match.
#[tactic(auto, unfolding(crate::specs::Finds::in_member))]
fn in_member_alone(
    scope: &Scope<'_>,
    wanted: &Wanted<'_>,
    member: u32,
    symbol: u32,
) -> Option<Found>
    requires within { member < length scope.now }
    requires alone { folder.IsOnlyFor scope.now wanted.now member symbol }
    ensures { result ≡ spec.in_member_for scope.now wanted.now member }
{
    let object = scope.object(member);
    found_in(member, matching_alone(object, wanted, symbol))
}

/// The matching definer of a member from the first on, where no other symbol of it than one can match.
fn best_alone(
    scope: &Scope<'_>,
    wanted: &Wanted<'_>,
    start: u32,
    member: u32,
    symbol: u32,
) -> Option<Found>
    requires within { member < length scope.now }
    requires alone { folder.IsOnlyFor scope.now wanted.now member symbol }
    ensures { result ≡ index.best_for scope.now wanted.now start None member }
{
    if is_better(start, None, member) {
        in_member_alone(scope, wanted, member, symbol)
    } else {
        None
    }
}

/// The matching definer of the member where the only entry under the name's hash stands, if it stands at one from the first on.
fn best_at_alone(
    scope: &Scope<'_>,
    wanted: &Wanted<'_>,
    start: u32,
    member: Option<u32>,
    symbol: u32,
) -> Option<Found>
    requires within { ForSome member (λ m. m < length scope.now) }
    requires alone { ForSome member (λ m. folder.IsOnlyFor scope.now wanted.now m symbol) }
    ensures { result ≡ folder.best_at (objects scope.now) wanted.now start None member }
{
    match member {
        None => None,
        Some(member) => best_alone(scope, wanted, start, member, symbol),
    }
}

/// The matching definer of the first member from one on that has one, where an index of the folder has one entry under the name's hash: its symbol alone is looked at.
fn first_alone(
    scope: &Scope<'_>,
    wanted: &Wanted<'_>,
    start: u32,
    among: &Among<'_>,
    entry: &FolderEntry,
) -> Option<Found>
    requires wanted { probing.IsWanted wanted.now }
    requires index { folder.IsIndexAmong (objects scope.now) among.now }
    requires alone { names.entries_of among.now.index.now wanted.now.gnu ≡ entry.now ∷ [] }
    ensures { result ≡ spec.first_match scope.now wanted.now start }
{
    best_at_alone(
        scope,
        wanted,
        start,
        position_of(among, entry),
        entry.symbol,
    )
}

/// The matching definer of the first member from one on that has one, where only the members are asked that an index of the folder has under the name's hash; where that has more entries than the scope has members, the members one after the other.
fn first_listed(
    scope: &Scope<'_>,
    wanted: &Wanted<'_>,
    start: u32,
    among: &Among<'_>,
    entries: &[FolderEntry],
) -> Option<Found>
    requires wanted { probing.IsWanted wanted.now }
    requires index { folder.IsIndexAmong (objects scope.now) among.now }
    requires entries { entries.now ≡ names.entries_of among.now.index.now wanted.now.gnu }
    ensures { result ≡ spec.first_match scope.now wanted.now start }
{
    if entries.len() > scope.count() as usize {
        return first_in_order(scope, wanted, start, Way::InOrder);
    }
    let mut best = None;
    for entry in entries {
        best = best_at(scope, wanted, start, best, position_of(among, entry));
    }
    best
}

/// Whether a reference's own symbol defines the wanted name, and no other of the folder has the name's hash: the flags of an index tell it, and no entry is looked for.
fn is_only_entry(
    scope: &Scope<'_>,
    reference: Reference,
    wanted: &Wanted<'_>,
    among: &Among<'_>,
) -> bool
    requires within { reference.member < length scope.now }
    requires wanted { probing.IsWanted wanted.now }
    requires index { folder.IsIndexAmong (objects scope.now) among.now }
    ensures { OnTrue result (folder.IsOnlyEntry among.now wanted.now.gnu reference.member
        reference.symbol) }
{
    if among.index.may_repeat(wanted.gnu) {
        return false;
    }
    let object = scope.object(reference.member);
    match object.symbols.as_slice().get(reference.symbol as usize) {
        None => false,
        Some(symbol) => defines(object, wanted.name, Class::Other, symbol),
    }
}

/// The matching definer of the first member from one on that has one, by an index of the folder. Where the flags tell that the reference's own symbol has the only entry under the name's hash, that symbol alone is looked at, without a search; where the hash has one entry, the entry's symbol alone; else the members of the entries are asked.
fn first_among(
    scope: &Scope<'_>,
    reference: Reference,
    wanted: &Wanted<'_>,
    start: u32,
    among: &Among<'_>,
) -> Option<Found>
    requires within { reference.member < length scope.now }
    requires wanted { probing.IsWanted wanted.now }
    requires index { folder.IsIndexAmong (objects scope.now) among.now }
    ensures { result ≡ spec.first_match scope.now wanted.now start }
{
    if is_only_entry(scope, reference, wanted, among) {
        return best_alone(scope, wanted, start, reference.member, reference.symbol);
    }
    let entries = among.index.entries_of(wanted.gnu);
    if entries.len() == 1 {
        first_alone(scope, wanted, start, among, &entries[0])
    } else {
        first_listed(scope, wanted, start, among, entries)
    }
}

/// The matching definer of the first member from one on that has one, by a way to search.
fn first_from(
    scope: &Scope<'_>,
    reference: Reference,
    wanted: &Wanted<'_>,
    start: u32,
    way: Way<'_, '_>,
) -> Option<Found>
    requires within { reference.member < length scope.now }
    requires wanted { probing.IsWanted wanted.now }
    requires way { folder.IsWay (objects scope.now) way }
    ensures { result ≡ spec.first_match scope.now wanted.now start }
{
    match way {
        Way::Short(definers) => first_short(scope, wanted, start, definers),
        Way::Indexed(definers) => first_indexed(scope, wanted, start, definers),
        Way::Among(among) => first_among(scope, reference, wanted, start, among),
        _ => first_in_order(scope, wanted, start, way),
    }
}

/// The matching definer in the order of the search.
#[tactic(auto, unfolding(crate::specs::Finds::first_in))]
fn in_order(
    scope: &Scope<'_>,
    reference: Reference,
    object: &Object,
    wanted: &Wanted<'_>,
    way: Way<'_, '_>,
) -> Option<Found>
    requires within { reference.member < length scope.now }
    requires wanted { probing.IsWanted wanted.now }
    requires way { folder.IsWay (objects scope.now) way }
    ensures { result ≡ spec.first_in (objects scope.now) wanted.now.name.now wanted.now.class
        (option_map (λ x. x.now) wanted.now.version)
        (spec.searched object.now reference (length scope.now)) }
{
    if reference.kind == R_X86_64_COPY {
        return first_from(scope, reference, wanted, 1, way);
    }
    if object.symbolic {
        let found = in_member(scope, wanted, reference.member, way);
        if found.is_some() {
            return found;
        }
    }
    first_from(scope, reference, wanted, 0, way)
}

/// The name of the version that a version word of a member stands for, by an index of the scope.
fn version_by_index<'a>(definers: &ScopeIndex<'a>, member: u32, word: u16) -> Option<&'a [u8]>
    requires { member < vec_len definers.now.own }
    ensures { index.IsVersionAt definers.now member word (option_map (λ name. name.now) result) }
{
    let own = own_at(definers, member);
    own.versions.name_of(word)
}

/// The name of the version that a version word of a member stands for, by one list of the scope.
fn version_by_short<'a>(definers: &ShortIndex<'a>, member: u32, word: u16) -> Option<&'a [u8]>
    requires { member < vec_len definers.now.versions }
    ensures { short.IsVersionAt definers.now member word (option_map (λ name. name.now) result) }
{
    let versions = versions_at(definers, member);
    versions.name_of(word)
}

/// The name of the version that a version word of a member stands for.
fn version_by<'a>(object: &'a Object, member: u32, word: u16, way: Way<'_, 'a>) -> Option<&'a [u8]>
    requires { folder.IsWayAt way member object.now }
    ensures { option_map (λ name. name.now) result ≡ version_name object.now.versions word }
{
    match way {
        Way::Short(definers) => version_by_short(definers, member, word),
        Way::Indexed(definers) => version_by_index(definers, member, word),
        _ => version_name(&object.versions, word),
    }
}

/// The version that a symbol of a member asks for.
#[tactic(auto, unfolding(crate::specs::Finds::version_wanted))]
fn version_wanted<'a>(
    object: &'a Object,
    member: u32,
    symbol: &Symbol,
    way: Way<'_, 'a>,
) -> Option<&'a [u8]>
    requires { folder.IsWayAt way member object.now }
    ensures { option_map (λ name. name.now) result ≡ spec.version_wanted object.now symbol.now }
{
    if index_of(symbol.version) > VER_NDX_GLOBAL {
        version_by(object, member, symbol.version, way)
    } else {
        None
    }
}

/// Where the search for the name of a reference's symbol begins in one list of the scope, if that was found ahead. It decides the time alone.
fn start_of(reference: Reference, way: Way<'_, '_>) -> Option<u32> {
    match way {
        Way::Short(definers) => definers.ahead.place_of(reference.member, reference.symbol),
        _ => None,
    }
}

#[tactic(auto, unfolding(crate::specs::Finds::found_for))]
fn found_for<'a>(
    scope: &Scope<'_>,
    reference: Reference,
    object: &'a Object,
    symbol: &'a Symbol,
    way: Way<'_, 'a>,
) -> Option<Found>
    requires within { reference.member < length scope.now }
    requires object { slice_get (objects scope.now) reference.member ≡ Some object.now }
    requires way { folder.IsWay (objects scope.now) way }
    ensures { result ≡ spec.found_for (objects scope.now) reference object.now symbol.now }
{
    let version = version_wanted(object, reference.member, symbol, way);
    let wanted = wanted_by(symbol, reference.kind, version, start_of(reference, way));
    in_order(scope, reference, object, &wanted, way)
}

/// A reference's own symbol.
pub fn own_symbol<'a>(scope: &Scope<'a>, reference: Reference) -> &'a Symbol
    requires { IsReference scope.now reference }
    ensures { spec.own_symbol (objects scope.now) reference ≡ Some result.now }
{
    let object = scope.object(reference.member);
    &object.symbols.as_slice()[reference.symbol as usize]
}

/// The symbol that a reference finds, by a way to search the members.
#[tactic(auto, unfolding(crate::specs::Finds::finds))]
pub fn find_by<'a>(scope: &Scope<'a>, reference: Reference, way: Way<'_, 'a>) -> Option<Found>
    requires reference { IsReference scope.now reference }
    requires way { folder.IsWay (objects scope.now) way }
    ensures { result ≡ spec.finds (objects scope.now) reference }
{
    let object = scope.object(reference.member);
    let symbol = &object.symbols.as_slice()[reference.symbol as usize];
    if binds_itself(symbol) {
        return Some(Found {
            member: reference.member,
            symbol: reference.symbol,
        });
    }
    found_for(scope, reference, object, symbol, way)
}

/// The symbol that a reference finds in a scope.
///
/// A local symbol, and a defined one whose visibility is not the default, is found as it stands. Every other is looked up by its name: the objects are searched in scope order, and the first that has a matching definer wins, whether it is global, weak or unique (gABI chapter 5, "Shared Object Dependencies"). A symbolic object's own references search that object first (DT_SYMBOLIC, DF_SYMBOLIC). A copy searches all objects but the program, which is the first.
///
/// In an object, a reference with a version finds the definer of that version, else the one whose version word is exactly 1, else, in an object without version words, the only definer of the name. A reference without a version finds the definer of version index 0, else 1, else 2, bit 15 aside, else the only definer whose bit 15 is clear. None exactly where no searched object has a matching definer.
///
/// Each object is asked by the hash of the name in one of its tables, the GNU table where it has one; for other references than jump slots, a program's symbols besides, one by one, since no table need lead to a canonical address. No memory is taken.
pub fn find(scope: &Scope<'_>, reference: Reference) -> Option<Found>
    requires { IsReference scope.now reference }
    ensures exact { result ≡ spec.finds (objects scope.now) reference }
    ensures within { IfSome result (λ found. IsSymbol (objects scope.now) found.member
        found.symbol) }
{
    find_by(scope, reference, Way::InOrder)
}

/// The symbol that a reference finds in a scope, as `find` gives it, where an index of the folder whose objects the members are tells which of them may have a definer. Those alone are asked; where the hash of the name has one entry, its symbol alone is looked at; where it has more entries than the scope has members, all members are asked, one after the other. No memory is taken.
pub fn find_among(scope: &Scope<'_>, reference: Reference, among: &Among<'_>) -> Option<Found>
    requires reference { IsReference scope.now reference }
    requires index { folder.IsIndexAmong (objects scope.now) among.now }
    ensures exact { result ≡ spec.finds (objects scope.now) reference }
    ensures within { IfSome result (λ found. IsSymbol (objects scope.now) found.member
        found.symbol) }
{
    find_by(scope, reference, Way::Among(among))
}

/// The symbol that a reference finds in a scope, as `find` gives it, by a search through all symbols of each object. For tests: it takes as many steps as the objects have symbols.
pub fn find_in_lists(scope: &Scope<'_>, reference: Reference) -> Option<Found>
    requires { IsReference scope.now reference }
    ensures { result ≡ spec.finds (objects scope.now) reference }
{
    find_by(scope, reference, Way::InLists)
}
