// Which symbol of one object answers to a name, by a search among those to which the name's hash leads.
ghost use Rattle.std.specs.Prelude.{◌≡◌, ◌==◌, ◌&&◌, [], None, Some, not, position, IfSome, IfNone, if◌then◌else◌};
ghost use Rattle.std.specs.Option.{option_map};
ghost use Rattle.pl_sym.specs.declared.class.Class.TheVariants.{Jump};
ghost use Rattle.pl_scope.specs.Scope.{IsFit};
ghost use Rattle.pl_scope.specs.Matching as matching;
ghost use Rattle.pl_scope.specs.Probing as spec;

use crate::constants::FIRST_VERSION;
use crate::matching::is_taken;
use crate::wanted::{Wanted, hash_in};
use pl_hash::{Table, first, next};
use pl_object::Object;
use pl_sym::Class;
use pl_ver::constants::{VER_NDX_GLOBAL, VER_NDX_LOCAL};

/// Which of the definers of a name a step of the search takes.
#[derive(Clone, Copy)]
pub enum Pick<'a> {
    /// The definers of a version.
    Version(&'a [u8]),

    /// Those whose version word is exactly that of no version.
    Plain,

    /// The definers of a version index, bit 15 aside.
    Index(u16),

    /// Each.
    Each,

    /// Those that are not hidden.
    Shown,
}

/// The symbols of an object to which the hash of a name leads.
#[derive(Clone, Copy)]
pub struct Probe<'a> {
    pub object: &'a Object,

    /// One of the object's tables.
    pub table: &'a Table,

    pub name: &'a [u8],

    /// The name's hash by which the table goes.
    pub hash: u32,

    /// The index of the first symbol to which the hash leads.
    pub first: Option<u32>,
}

/// Whether a step takes the symbol of an index.
fn picks(probe: &Probe<'_>, pick: Pick<'_>, index: u32) -> bool
    ensures { result ≡ spec.picks probe.now pick.entry index }
{
    match probe.object.symbols.as_slice().get(index as usize) {
        None => false,
        Some(symbol) => is_taken(probe.object, probe.name, Class::Jump, pick, symbol),
    }
}

fn lesser(least: Option<u32>, index: u32) -> u32
    ensures { result ≡ spec.lesser least index }
{
    match least {
        None => index,
        Some(other) => other.min(index),
    }
}

/// The lesser of an index and those before, where it was taken.
pub fn with_picked(least: Option<u32>, index: u32, picked: bool) -> Option<u32>
    ensures { result ≡ if picked then Some (spec.lesser least index) else least }
{
    if picked {
        Some(lesser(least, index))
    } else {
        least
    }
}

/// The least index that a step takes of those to which the hash leads.
fn least(probe: &Probe<'_>, pick: Pick<'_>) -> Option<u32>
    requires { spec.IsProbe probe.now }
    ensures { result ≡ spec.least_from (spec.picks probe.now pick.entry) None
        (spec.led_to probe.now) }
{
    let mut least = None;
    let mut at = probe.first;
    while let Some(index) = at {
        least = with_picked(least, index, picks(probe, pick, index));
        at = next(probe.table, probe.hash, index);
    }
    least
}

/// Whether a step takes another one than an index.
fn is_other_picked(probe: &Probe<'_>, pick: Pick<'_>, index: u32, candidate: u32) -> bool
    ensures { result ≡ (not (candidate == index) && spec.picks probe.now pick.entry candidate) }
{
    candidate != index && picks(probe, pick, candidate)
}

/// Whether a step takes another one than an index of those to which the hash leads.
fn has_another(probe: &Probe<'_>, pick: Pick<'_>, index: u32) -> bool
    requires { spec.IsProbe probe.now }
    ensures { result ≡ spec.another (spec.picks probe.now pick.entry) index
        (spec.led_to probe.now) }
{
    let mut at = probe.first;
    while let Some(candidate) = at {
        if is_other_picked(probe, pick, index, candidate) {
            return true;
        }
        at = next(probe.table, probe.hash, candidate);
    }
    false
}

/// The index of the first symbol that a step takes.
fn first_picked(probe: &Probe<'_>, pick: Pick<'_>) -> Option<u32>
    requires { spec.IsProbe probe.now }
    ensures { result ≡ position (spec.taken probe.now.object.now probe.now.name.now Jump pick.entry)
        probe.now.object.now.symbols }
{
    least(probe, pick)
}

/// The index of the only symbol that a step takes.
fn only_picked(probe: &Probe<'_>, pick: Pick<'_>) -> Option<u32>
    requires { spec.IsProbe probe.now }
    ensures { result ≡ matching.only (spec.taken probe.now.object.now probe.now.name.now
        Jump pick.entry) probe.now.object.now.symbols }
{
    let Some(index) = first_picked(probe, pick) else {
        return None;
    };
    if has_another(probe, pick, index) {
        None
    } else {
        Some(index)
    }
}

/// For a reference with a version, of the class of jump slots: the definer of the version, else of no version, else, in an object without version words, the only one. Canonical addresses, which count for other references alone, are looked for by `matching_by_hash`.
#[tactic(auto, unfolding(crate::specs::Matching::versioned))]
fn versioned(probe: &Probe<'_>, version: &[u8]) -> Option<u32>
    requires { spec.IsProbe probe.now }
    ensures { result ≡ matching.versioned probe.now.object.now probe.now.name.now Jump version.now }
{
    if let Some(index) = first_picked(probe, Pick::Version(version)) {
        return Some(index);
    }
    if let Some(index) = first_picked(probe, Pick::Plain) {
        return Some(index);
    }
    if probe.object.versions.is_some() {
        None
    } else {
        only_picked(probe, Pick::Each)
    }
}

#[tactic(auto, unfolding(crate::specs::Matching::unversioned))]
fn unversioned(probe: &Probe<'_>) -> Option<u32>
    requires { spec.IsProbe probe.now }
    ensures { result ≡ matching.unversioned probe.now.object.now probe.now.name.now Jump }
{
    if let Some(index) = first_picked(probe, Pick::Index(VER_NDX_LOCAL)) {
        return Some(index);
    }
    if let Some(index) = first_picked(probe, Pick::Index(VER_NDX_GLOBAL)) {
        return Some(index);
    }
    if let Some(index) = first_picked(probe, Pick::Index(FIRST_VERSION)) {
        return Some(index);
    }
    only_picked(probe, Pick::Shown)
}

/// The last of an object's tables, which is the GNU table where it has one.
fn last_table(object: &Object) -> Option<&Table>
    requires { IsFit object.now }
    ensures some { IfSome result (λ table. spec.IsTable object.now table.now) }
    ensures none { IfNone result (object.now.hashes ≡ []) }
{
    let tables = object.hashes.as_slice();
    let count = tables.len();
    if count == 0 {
        return None;
    }
    Some(&tables[count - 1])
}

/// The index of an object's symbol that matches what is wanted of jump slots, by a table of the object.
pub fn matching_by_table(object: &Object, wanted: &Wanted<'_>) -> Option<u32>
    requires fit { IsFit object.now }
    requires wanted { spec.IsWanted wanted.now }
    ensures { result ≡ matching.matching object.now wanted.now.name.now Jump
        (option_map (λ x. x.now) wanted.now.version) }
{
    let Some(table) = last_table(object) else {
        return None;
    };
    let hash = hash_in(wanted, table);
    let start = first(table, hash);
    if start.is_none() {
        return None;
    }
    let probe = Probe {
        object,
        table,
        name: wanted.name,
        hash,
        first: start,
    };
    match wanted.version {
        None => unversioned(&probe),
        Some(version) => versioned(&probe, version),
    }
}
