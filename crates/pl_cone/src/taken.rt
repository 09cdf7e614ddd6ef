// What a file is that was taken.
ghost use Rattle.std.specs.Prelude.{◌≡◌, ◌≤◌, length, IfOk};
ghost use Rattle.std.specs.Option.{option_map};
ghost use Rattle.pl_base.specs.Bytes.{IsBytes};
ghost use Rattle.pl_form.specs.Files.{marked_in, original_in};
ghost use Rattle.pl_cone.specs.Currency.{old_stamp};
ghost use Rattle.pl_cone.specs.Faults as faults;
ghost use Rattle.pl_cone.specs.Taken as spec;

use pl_base::{Rows, Text};
use pl_elf::Range;
use pl_form::{Entry, File, FileFault, FormFault, Marked, STORED, check_form, read_file};
use pl_io::NoMemory;
use pl_object::{Object, Refusal};
use std::alloc::Global;

/// A file that was taken from a folder, and what it is.
#[derive(Drop)]
pub struct Taken {
    /// Its name.
    pub name: Text,

    /// Its bytes, as it stands.
    pub bytes: Rows<u8>,

    /// What it is: a form with its original, a file that is its own original, or none of both.
    pub entry: Entry,

    /// The number of the first form fault of its original under a region of slots, 1 to 5: NoSpareTags, BssTooLarge, StrayHeader, InRegion, LastLoadNotLast. None where the original has a form there, and where the file has no original.
    pub fault: Option<u32>,
}

impl Taken {
    /// The object of its original, if it has one.
    pub fn object(&self) -> Option<&Object>
        ensures { option_map (λ o. o.now) result ≡ spec.object_by self.now.entry }
    {
        match &self.entry {
            Entry::There(File::Plain(object)) => Some(object),
            Entry::There(File::Marked(marked)) => Some(&marked.object),
            Entry::BadMark | Entry::Refused { .. } => None,
        }
    }

    /// All that was read of it, if it is prelinked.
    pub fn marked(&self) -> Option<&Marked>
        ensures value { option_map (λ m. m.now) result ≡ spec.marked_by self.now.entry }
        ensures read { spec.HasItsEntry self.now → option_map (λ m. m.now) result
            ≡ marked_in self.now.bytes }
    {
        match &self.entry {
            Entry::There(File::Marked(marked)) => Some(marked),
            Entry::There(File::Plain(_)) | Entry::BadMark | Entry::Refused { .. } => None,
        }
    }

    /// Its original; any file but a prelinked one is its own.
    pub fn original(&self) -> &[u8]
        requires { spec.HasItsEntry self.now }
        ensures { result.now ≡ original_in self.now.bytes }
    {
        match self.marked() {
            None => self.bytes.as_slice(),
            Some(marked) => marked.original.as_slice(),
        }
    }

    /// The stamp that it bears, 0 where it is not prelinked.
    pub fn stamp(&self) -> u32
        ensures { result ≡ old_stamp self.now }
    {
        match self.marked() {
            None => 0,
            Some(marked) => marked.stamp,
        }
    }

    /// Whether it is a library, prelinked or not.
    pub fn is_library(&self) -> bool
        ensures { result ≡ spec.is_library_entry self.now.entry }
    {
        match self.object() {
            None => false,
            Some(object) => object.kind.is_library(),
        }
    }
}

fn trimmed<T>(rows: Rows<T>) -> Rows<T>
    ensures { result ≡ rows }
{
    let mut rows = rows.into_vec();
    rows.shrink_to_fit();
    Rows::from_vec(rows)
}

/// An object whose long tables have no room behind them, since a run keeps the objects of all files at once.
fn trimmed_object(object: Object) -> Object
    ensures { result ≡ object }
{
    Object {
        symbols: trimmed(object.symbols),
        relocations: trimmed(object.relocations),
        ..object
    }
}

fn trimmed_file(file: File) -> File
    ensures { result ≡ file }
{
    match file {
        File::Plain(object) => File::Plain(trimmed_object(object)),
        File::Marked(marked) => File::Marked(Marked {
            object: trimmed_object(marked.object),
            ..marked
        }),
    }
}

#[tactic(auto, unfolding(crate::specs::Taken::entry_in))]
fn entry_of(alloc: Global, bytes: &[u8]) -> Result<Entry, NoMemory>
    requires { length bytes.now ≤ STORED }
    ensures value { IfOk result (λ entry. entry ≡ spec.entry_in bytes.now) }
    ensures bytes { IsBytes bytes.now }
{
    match read_file(alloc, bytes) {
        Ok(file) => Ok(Entry::There(trimmed_file(file))),
        Err(FileFault::BadMark) => Ok(Entry::BadMark),
        Err(FileFault::Refused(Refusal::Clause { number, argument })) => {
            Ok(Entry::Refused { number, argument })
        }
        Err(FileFault::Refused(Refusal::NoMemory)) => Err(NoMemory),
    }
}

fn fault_of(object: &Object, region: Range) -> Option<u32>
    ensures { result ≡ faults.fault_of region object.now }
{
    match check_form(object, region) {
        Ok(()) => None,
        Err(FormFault::NoSpareTags) => Some(1),
        Err(FormFault::BssTooLarge) => Some(2),
        Err(FormFault::StrayHeader) => Some(3),
        Err(FormFault::InRegion) => Some(4),
        Err(FormFault::LastLoadNotLast) => Some(5),
        Err(FormFault::TooLarge) => Some(6),
        Err(FormFault::NoMemory) => Some(0),
    }
}

fn fault_of_entry(entry: &Entry, region: Range) -> Option<u32>
    ensures { result ≡ spec.fault_of_entry region entry.now }
{
    match entry {
        Entry::There(File::Plain(object)) => fault_of(object, region),
        Entry::There(File::Marked(marked)) => fault_of(&marked.object, region),
        Entry::BadMark | Entry::Refused { .. } => None,
    }
}

/// What a file under a name is, with the first form fault of its original under a region of slots. The file has at most `pl_form::STORED` bytes. It fails only for want of memory.
pub fn take_file(
    alloc: Global,
    name: Text,
    bytes: Vec<u8>,
    region: Range,
) -> Result<Taken, NoMemory>
    requires { length bytes.items ≤ STORED }
    ensures value { IfOk result (λ taken. taken ≡ spec.taken_of region name bytes.items) }
    ensures is { IfOk result (spec.IsTaken region) }
{
    let entry = entry_of(alloc, &bytes)?;
    let fault = fault_of_entry(&entry, region);
    Ok(Taken {
        name,
        bytes: Rows::from_vec(bytes),
        entry,
        fault,
    })
}
