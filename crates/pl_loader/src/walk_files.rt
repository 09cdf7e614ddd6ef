ghost use Rattle.std.specs.Prelude.{◌≡◌, ◌<◌, ◌^◌, length, Some, Ok, Err, IsSome, IfOk, IfErr, OnOk, OnErr};
ghost use Rattle.std.specs.Option.{option_map, ForSome};
ghost use Rattle.pl_base.specs.Answers.{Answers};
ghost use Rattle.pl_form.specs.declared.file.File.TheVariants as files;
ghost use Rattle.pl_scope.specs.Walking.{wants};
ghost use Rattle.pl_loader.specs.Faults.{is_memory, of_file};
ghost use Rattle.pl_loader.specs.Loading.{IsLoadable, IsLoading, IsRead};
ghost use Rattle.pl_loader.specs.Walk as spec;

use crate::file_given::GivenParts;
use crate::{GivenFile, LoadFault, Mark, ObjectFile};
use pl_base::{Rows, Text};
use pl_form::{File, FileFault, Marked, read_file};
use pl_io::NoMemory;
use pl_object::Refusal;
use pl_scope::Order;
use std::alloc::{AllocError, Global};
use std::marker::Model;

/// The files of a walk, as far as they were given. Contracts see it as the name, how far the walk has come, and the files.
#[derive(Drop)]
pub struct WalkFiles {
    name: Text,
    order: Order,
    files: Vec<ObjectFile>,
}

impl Model for WalkFiles {
    ghost use Rattle.pl_loader.specs.Loading.{Loading, IsLoading};

    ghost Value = { Loading };

    ghost view = { λ l. record { name = l.name; order = l.order; files = l.files.items } };

    ghost invariant = { λ l. IsLoading (record { name = l.name; order = l.order; files = l.files.items }) };
}

/// Why a file of a name is none that can be loaded.
fn file_fault(alloc: Global, name: &str, fault: FileFault) -> Result<LoadFault, AllocError>
    ensures { IfOk result (λ load. load ≡ of_file name.now fault) }
{
    Ok(match fault {
        FileFault::BadMark => LoadFault::BadMark(Text::copy_of(alloc, name)?),
        FileFault::Refused(Refusal::Clause { number, argument }) => LoadFault::Refused {
            name: Text::copy_of(alloc, name)?,
            number,
            argument,
        },
        FileFault::Refused(Refusal::NoMemory) => LoadFault::NoMemory,
    })
}

/// A prelinked file, with its original and its object.
fn marked_file(name: Text, bytes: Vec<u8>, marked: Marked) -> ObjectFile
    ensures { result ≡ spec.with_mark name bytes.items (files.Marked marked) }
{
    let mark = Mark {
        file: Rows::from_vec(bytes),
        slot: marked.slot,
        stamp: marked.stamp,
        checksum: marked.checksum,
        list: marked.list,
        conflicts: marked.conflicts,
    };
    ObjectFile {
        name,
        bytes: marked.original,
        object: marked.object,
        mark: Some(mark),
    }
}

/// A file with its original and the object of that.
fn with_mark(name: Text, bytes: Vec<u8>, file: File) -> ObjectFile
    ensures { result ≡ spec.with_mark name bytes.items file }
{
    match file {
        File::Plain(object) => ObjectFile {
            name,
            bytes: Rows::from_vec(bytes),
            object,
            mark: None,
        },
        File::Marked(marked) => marked_file(name, bytes, marked),
    }
}

/// What a file of a name is, or why it cannot be loaded: its mark, or else the first acceptance clause that refuses it.
#[tactic(auto, unfolding(crate::specs::Walk::named))]
fn read_named(alloc: Global, name: Text, bytes: Vec<u8>) -> Result<ObjectFile, LoadFault>
    requires { length bytes.items < 2 ^ 32 }
    ensures exact { Answers is_memory result (spec.named name bytes.items) }
    ensures read { IfOk result IsRead }
    ensures name { IfOk result (λ file. file.name ≡ name) }
{
    match read_file(alloc, &bytes) {
        Ok(file) => Ok(with_mark(name, bytes, file)),
        Err(fault) => Err(file_fault(alloc, name.as_str(), fault)?),
    }
}

/// What a file of the walk is, by its object where that is known already; or why it is none.
fn named(alloc: Global, name: Text, file: GivenFile) -> Result<ObjectFile, LoadFault>
    requires { length file < 2 ^ 32 }
    ensures exact { Answers is_memory result (spec.named name file) }
    ensures read { IfOk result IsRead }
    ensures name { IfOk result (λ read. read.name ≡ name) }
{
    let parts = file.into_parts();
    let GivenParts { bytes, object } = parts;
    match object {
        None => read_named(alloc, name, bytes),
        Some(object) => Ok(with_mark(name, bytes, File::Plain(object))),
    }
}

/// Refuses a library under the name that is loaded.
#[tactic(auto, unfolding(crate::specs::Walk::loadable))]
fn loadable(alloc: Global, loaded: &str, file: ObjectFile) -> Result<ObjectFile, LoadFault>
    ensures exact { Answers is_memory result (spec.loadable loaded.now file) }
    ensures same { IfOk result (λ same. same ≡ file) }
    ensures loadable { IfOk result (IsLoadable loaded.now) }
{
    if file.name.as_str() == loaded && file.object.kind.is_library() {
        let name = Text::copy_of(alloc, file.name.as_str());
        drop(file);
        return Err(LoadFault::NotProgram(name?));
    }
    Ok(file)
}

/// The file of a name of the walk of the name that is loaded.
#[tactic(auto, unfolding(crate::specs::Walk::read_in))]
fn read_in(
    alloc: Global,
    loaded: &str,
    name: Text,
    given: GivenFile,
) -> Result<ObjectFile, LoadFault>
    requires { length given < 2 ^ 32 }
    ensures exact { Answers is_memory result (spec.read_in loaded.now name given) }
    ensures read { IfOk result IsRead }
    ensures named { IfOk result (λ file. file.name ≡ name) }
    ensures loadable { IfOk result (IsLoadable loaded.now) }
{
    let file = named(alloc, name, given)?;
    loadable(alloc, loaded, file)
}

impl WalkFiles {
    /// The walk of a name to which no file was given yet. It fails only for want of memory.
    pub fn new(alloc: Global, name: &str) -> Result<WalkFiles, NoMemory>
        ensures begun { IfOk result (λ files. files ≡ spec.begun name.now) }
    {
        Ok(WalkFiles {
            name: Text::copy_of(alloc, name)?,
            order: Order::new(alloc, name)?,
            files: Vec::new(alloc),
        })
    }

    /// The name whose file comes next. None exactly where every name of the walk was given its file.
    pub fn wants(&self) -> Option<&str>
        ensures name { option_map (λ name. name.now) result ≡ wants self.now.order }
        ensures loading { IsLoading self.now }
    {
        self.order.wants()
    }

    /// Takes a file over, with the object that it is.
    #[tactic(auto, unfolding(crate::specs::Walk::entered))]
    fn enter(&mut self, alloc: Global, file: ObjectFile) -> Result<(), LoadFault>
        requires wanted { wants self.old.order ≡ Some file.name }
        requires read { IsRead file }
        requires loadable { IsLoadable self.old.name file }
        ensures ok { OnOk result (spec.entered self.old file ≡ Ok self.new) }
        ensures err { IfErr result (λ fault. Answers is_memory (Err fault)
            (spec.entered self.old file)) }
        ensures unchanged { OnErr result (self.new ≡ self.old) }
    {
        if self.files.reserve(1).is_err() {
            drop(file);
            return Err(LoadFault::NoMemory);
        }
        match self.order.give(alloc, &file.object) {
            Ok(()) => {
                self.files.push(file).unwrap();
                Ok(())
            }
            Err(fault) => {
                drop(file);
                Err(LoadFault::from(fault))
            }
        }
    }

    /// Gives the wanted name its file, or tells that there is none.
    pub fn give(&mut self, alloc: Global, file: Option<GivenFile>) -> Result<(), LoadFault>
        requires wanted { IsSome (wants self.old.order) }
        requires size { ForSome file (λ bytes. length bytes < 2 ^ 32) }
        ensures ok { OnOk result (spec.give self.old file ≡ Ok self.new) }
        ensures err { IfErr result (λ fault. Answers is_memory (Err fault)
            (spec.give self.old file)) }
        ensures unchanged { OnErr result (self.new ≡ self.old) }
    {
        let Some(wanted) = self.wants() else {
            drop(file);
            return Ok(());
        };
        let name = match Text::copy_of(alloc, wanted) {
            Ok(name) => name,
            Err(_) => {
                drop(file);
                return Err(LoadFault::NoMemory);
            }
        };
        let Some(given) = file else {
            return Err(LoadFault::NotThere(name));
        };
        let file = read_in(alloc, self.name.as_str(), name, given)?;
        self.enter(alloc, file)
    }

    /// The files that were given, lent.
    pub fn files(&self) -> &[ObjectFile]
        ensures files { result.now ≡ self.now.files }
        ensures loading { IsLoading self.now }
    {
        self.files.as_slice()
    }
}
