// The definers of the objects of a folder, by the hashes of their names.
ghost use Rattle.std.specs.Prelude.{◌≡◌, ◌<◌, ◌^◌, IfOk, OnOk, ◌++◌, length, map};
ghost use Rattle.std.specs.Bool.{OnFalse};
ghost use Rattle.std.specs.List.Sorted.{IsPermutation};
ghost use Rattle.std.specs.Option.{option_map};
ghost use Rattle.pl_scope.specs.Index as index;
ghost use Rattle.pl_scope.specs.Folder as spec;

use crate::index::{Entry, add_entries, starts_of, under};
use crate::shared::Shared;
use crate::short_index::mixed;
use crate::starts::Starts;
use pl_hash::gnu_hash;
use pl_io::NoMemory;
use pl_object::Object;
use std::alloc::{AllocError, Global};
use std::marker::Model;

/// The definers of the objects of a folder: for each hash of a name in a GNU table the definers whose names have that hash, each with the row of its object and the number of its symbol. Contracts see it as the list of its entries.
#[derive(Drop)]
pub struct Index {
    entries: Vec<Entry>,

    /// Where searches of the entries begin.
    starts: Starts,

    /// Which hashes may have more entries than one.
    shared: Shared,
}

impl Model for Index {
    ghost use Rattle.std.specs.Prelude.{List};
    ghost use Rattle.pl_scope.specs.Shared.{IsSearchable};
    ghost use Rattle.pl_scope.specs.declared.index.Entry.{Entry};

    ghost Value = { List Entry };

    ghost view = { λ i. i.entries.items };

    ghost invariant = { λ i. IsSearchable i.entries.items i.shared.flags.items };
}

/// An index of a folder, and where the objects of its rows stand in a scope.
#[derive(Clone, Copy)]
pub struct Among<'i> {
    pub index: &'i Index,

    /// For each row of the folder the member of the scope that it is, if it is one.
    pub positions: &'i [Option<u32>],
}

/// Adds the definers of the object of a row, if it has one.
fn add_row(entries: &mut Vec<Entry>, object: Option<&Object>, row: u32) -> Result<(), AllocError>
    ensures { OnOk result (entries.new.items ≡ entries.old.items
        ++ spec.entries_at row (option_map (λ o. o.now) object.entry)) }
{
    match object {
        None => Ok(()),
        Some(object) => add_entries(entries, object, row),
    }
}

/// The definers of all objects, one object after the other.
fn all_entries(alloc: Global, objects: &[Option<&Object>]) -> Result<Vec<Entry>, AllocError>
    requires { length objects.now < 2 ^ 32 }
    ensures all { IfOk result (λ v. v.items ≡ spec.all_entries
        (map (option_map (λ o. o.now)) objects.now)) }
    ensures hashes { IfOk result (λ v. index.AreSmallHashes v.items) }
{
    let mut entries = Vec::new(alloc);
    for row in 0..objects.len() {
        add_row(&mut entries, objects[row], row as u32)?;
    }
    Ok(entries)
}

/// Puts entries into the order of their mixed hashes.
fn sort_by_hash(entries: &mut Vec<Entry>)
    ensures same { IsPermutation entries.old.items entries.new.items }
    ensures rising { index.IsRising entries.new.items }
{
    entries.sort_unstable_by_key(|entry| mixed(entry.hash));
}

impl Index {
    /// The index of the objects of a folder; a row may have none. The time grows as `n log n` with their symbols. It fails only for want of memory, which comes before 2^32 rows.
    pub fn of(alloc: Global, objects: &[Option<&Object>]) -> Result<Index, NoMemory>
        ensures { IfOk result (spec.IsFolderIndex (map (option_map (λ o. o.now)) objects.now)) }
    {
        if objects.len() >= 4_294_967_296 {
            return Err(NoMemory);
        }
        let mut entries = all_entries(alloc, objects)?;
        sort_by_hash(&mut entries);
        entries.shrink_to_fit();
        let starts = starts_of(alloc, &entries)?;
        let shared = Shared::of(alloc, &entries)?;
        Ok(Index {
            entries,
            starts,
            shared,
        })
    }

    /// The entries of a hash.
    pub fn entries_of(&self, hash: u32) -> &[Entry]
        ensures { result.now ≡ index.entries_of self.now hash }
    {
        under(&self.entries, &self.starts, hash)
    }

    /// Whether a hash may have more entries than one, by the flags alone; where it is false, it has one at most.
    pub fn may_repeat(&self, hash: u32) -> bool
        ensures { OnFalse result (spec.IsOnce self.now hash) }
    {
        self.shared.may_repeat(hash)
    }

    /// Whether objects may have two definers of a name; where it is false, they have one at most. The name is hashed and looked for again here, after the look-up of the reference that asks: handed on from there, the entries took no less time.
    pub fn may_share(&self, name: &[u8]) -> bool
        ensures { OnFalse result (spec.HasOneEntryAtMost self.now name.now) }
    {
        let hash = gnu_hash(name);
        self.may_repeat(hash) && self.entries_of(hash).len() > 1
    }
}

/// The member of a scope that the object of an entry is, if it is one.
pub fn position_of(among: &Among<'_>, entry: &Entry) -> Option<u32>
    ensures { result ≡ spec.position_of among.now.positions.now entry.now }
{
    match among.positions.get(entry.member as usize) {
        None => None,
        Some(member) => *member,
    }
}
