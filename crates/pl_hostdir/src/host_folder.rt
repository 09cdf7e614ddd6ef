ghost use Rattle.std.specs.Prelude.{◌≡◌, ◌≤◌, [], false, true, map, string_bytes, All, IfOk, IfErr, OnOk, IsSorted};
ghost use Rattle.std.specs.FinMap.{keys};
ghost use Rattle.std.specs.String.{string_cmp};
ghost use Rattle.pl_base.specs.Counts.{Counted};
ghost use Rattle.pl_base.specs.Names.{IsNameLength};
ghost use Rattle.pl_folder.specs.Calls.{GivesNames, IsPlain};
ghost use Rattle.pl_folder.specs.Seen.{Broken, fault_ending, is_broken};
ghost use Rattle.pl_io.specs.Scripts.{one_more};
ghost use Rattle.std.specs.IoError.{error_kind};
ghost use Rattle.pl_hostdir.specs.Errors as spec;
ghost use Rattle.pl_hostdir.specs.Errors.{calling_fault};
ghost use Rattle.pl_hostdir.specs.Listing.{AreListed, HaveNameLengths};
ghost use Rattle.pl_hostdir.specs.Unseen.{unseen};
ghost use Rattle.std.proofs.lemmas.Bool.{false≢true};

use crate::changing::{create_file, open_to_append, remove_name, rename_file, sync_file};
use crate::listing::{clear_others, list_names};
use crate::lock::lock_folder;
use crate::take_fault::TakeFault;
use crate::taking::take_file;
use crate::{Call, FirstFault, HostFile, Progress, Reason};
use pl_folder::{Folder, FolderFault};
use pl_io::{Failed, NoMemory};
use std::alloc::Global;
use std::fs::{Files, OpenFile};
use std::io::{self, Write};

/// The folder of a path, at the trusted edge: it tells neither its files nor its disk.
///
/// Its files are the regular files there: a symbolic link is none of them, and anything else that has a valid name is a fault where that name is taken or given. It lists those whose names are valid or the program's own. From its first call that writes on it holds a lock, which one folder of a path has at a time.
#[derive(Drop)]
pub struct HostFolder<'p, R: Files> {
    rt: R,
    path: String,
    faults: u64,
    first: Option<FirstFault>,
    // The folder itself, locked.
    lock: Option<R::File>,
    progress: Option<&'p Progress>,
}

impl<'p, R: Files + AllocGlobal + Clone + Drop> HostFolder<'p, R>
where
    R::File: HostFile,
{
    ghost use Rattle.pl_hostdir.specs.Paths.{folder_path};

    /// The folder of a path, before any call. It fails only for want of memory.
    pub fn new(rt: R, alloc: Global, path: &str) -> Result<HostFolder<'p, R>, NoMemory>
        ensures seen { IfOk result (λ folder. ⟦<HostFolder<'p, R> as Folder>⟧.seen folder
            ≡ unseen 0) }
        ensures path { IfOk result (λ folder. folder_path folder ≡ path.now) }
    {
        Ok(HostFolder {
            rt,
            path: String::from_str(alloc, path)?,
            faults: 0,
            first: None,
            lock: None,
            progress: None,
        })
    }

    /// Counts the files that are read and written from now on on a line for people.
    pub fn show(&mut self, progress: &'p Progress)
        ensures seen { ⟦<HostFolder<'p, R> as Folder>⟧.seen self.new
            ≡ ⟦<HostFolder<'p, R> as Folder>⟧.seen self.old }
        ensures path { folder_path self.new ≡ folder_path self.old }
    {
        self.progress = Some(progress);
    }

    /// The first call that failed, if one did. A want of memory is none.
    pub fn first_fault(&self) -> Option<&FirstFault> {
        self.first.as_ref()
    }

    // Counts a fault, and keeps the first one.
    fn fail(&mut self, fault: FirstFault) -> Failed
        ensures counted { self.new.faults ≡ one_more self.old.faults }
        ensures count { Counted true self.old.faults self.new.faults }
    {
        if self.first.is_none() {
            self.first = Some(fault);
        }
        self.faults = self.faults.saturating_add(1);
        Failed
    }

    // What a fault means for a call that takes memory: a want of memory, or else a fault, which is counted.
    fn stop(&mut self, fault: FirstFault) -> FolderFault
        ensures kind { result ≡ spec.fault_of fault.reason }
        ensures plain { IsPlain result }
        ensures counted { fault_ending result ≡ Broken → self.new.faults
            ≡ one_more self.old.faults }
        ensures count { Counted (is_broken (fault_ending result)) self.old.faults self.new.faults }
    {
        let meaning = fault_of(&fault.reason);
        if matches!(meaning, FolderFault::Failed) {
            self.fail(fault);
        }
        meaning
    }
}

// What an error of the system means for a call that takes memory.
fn system_fault(error: &io::Error) -> FolderFault
    ensures kind { result ≡ calling_fault (error_kind error.now) }
    ensures plain { IsPlain result }
{
    match error.kind() {
        io::ErrorKind::OutOfMemory => FolderFault::NoMemory,
        _ => FolderFault::Failed,
    }
}

// What a reason means for a call that takes memory.
fn fault_of(reason: &Reason) -> FolderFault
    ensures kind { result ≡ spec.fault_of reason.now }
    ensures plain { IsPlain result }
{
    match reason {
        Reason::System(error) => system_fault(error),
        Reason::Busy | Reason::NotAFile | Reason::Foreign => FolderFault::Failed,
    }
}

// The answer of a call about a name.
fn answer<T>(call: Call, name: &str, given: Result<T, Reason>) -> Result<T, FirstFault> {
    match given {
        Ok(value) => Ok(value),
        Err(reason) => Err(FirstFault::new(call, name, reason)),
    }
}

impl<'p, R: Files + AllocGlobal + Clone + Drop> HostFolder<'p, R>
where
    R::File: HostFile,
{
    // Locks the folder, where that is not done.
    fn hold(&mut self) -> Result<(), FirstFault>
        ensures { self.new.faults ≡ self.old.faults }
    {
        if self.lock.is_none() {
            let lock = answer(Call::Lock, "", lock_folder(&self.rt, &self.path))?;
            self.lock = Some(lock);
        }
        Ok(())
    }

    // `create` of a name.
    fn try_create(&mut self, name: &str) -> Result<(), FirstFault>
        ensures { self.new.faults ≡ self.old.faults }
    {
        self.hold()?;
        answer(Call::Create, name, create_file(&self.rt, &self.path, name))
    }

    // Opens the file of a name for `append`.
    fn try_open(&mut self, name: &str) -> Result<R::File, FirstFault>
        ensures { self.new.faults ≡ self.old.faults }
    {
        self.hold()?;
        answer(
            Call::Append,
            name,
            open_to_append(&self.rt, &self.path, name),
        )
    }

    // `rename` of a name.
    fn try_rename(&mut self, from: &str, to: &str) -> Result<(), FirstFault>
        ensures { self.new.faults ≡ self.old.faults }
    {
        self.hold()?;
        answer(
            Call::Rename,
            to,
            rename_file(&self.rt, &self.path, from, to),
        )
    }

    // `remove` of a name.
    fn try_remove(&mut self, name: &str) -> Result<(), FirstFault>
        ensures { self.new.faults ≡ self.old.faults }
    {
        self.hold()?;
        answer(Call::Remove, name, remove_name(&self.rt, &self.path, name))
    }

    // `settle`, by the open folder that is locked.
    fn try_settle(&mut self) -> Result<(), FirstFault>
        ensures { self.new.faults ≡ self.old.faults }
    {
        self.hold()?;
        let Some(folder) = &self.lock else {
            return Ok(());
        };
        match folder.sync_all() {
            Ok(()) => Ok(()),
            Err(error) => Err(FirstFault::new(Call::SyncFolder, "", Reason::System(error))),
        }
    }

    // `names`. In a folder that is locked, what has own names and is no file is cleared away.
    fn list(&self) -> Result<Vec<String>, FirstFault>
        ensures listed { IfOk result (λ names. AreListed names.items) }
        ensures lengths { IfOk result (λ names. HaveNameLengths names.items) }
        ensures ascend { IfOk result (λ names. IsSorted string_cmp names.items) }
    {
        let names = list_names(&self.rt, &self.path)?;
        if self.lock.is_some() {
            clear_others(&self.rt, &self.path)?;
        }
        Ok(names)
    }

    // Counts a file that was read.
    fn count_read(&self) {
        if let Some(progress) = self.progress {
            progress.count_read();
        }
    }

    // Counts a file that was written.
    fn count_written(&self) {
        if let Some(progress) = self.progress {
            progress.count_written();
        }
    }
}

impl<'p, R: Files + AllocGlobal + Clone + Drop> Folder for HostFolder<'p, R>
where
    R::File: HostFile,
{
    ghost seen = { λ folder. unseen folder.faults };

    ghost is_folder = { λ folder. record { tells = λ told. absurd (false≢true told); reads = λ told. absurd (false≢true told); whole = λ told. absurd (false≢true told) } };

    fn names(&mut self, _alloc: Global) -> Result<Vec<String>, FolderFault>
        ensures names { GivesNames result (unseen self.old.faults) (unseen self.new.faults) }
        // It lists no other names, ascending.
        ensures listed { IfOk result (λ names. AreListed names.items) }
        ensures ascend { IfOk result (λ names. IsSorted string_cmp names.items) }
    {
        match self.list() {
            Ok(names) => Ok(names),
            Err(fault) => Err(self.stop(fault)),
        }
    }

    fn take(&mut self, alloc: Global, name: &str) -> Result<Vec<u8>, FolderFault> {
        match take_file(&self.rt, alloc, &self.path, name) {
            Ok(bytes) => {
                self.count_read();
                Ok(bytes)
            }
            Err(TakeFault::NotThere) => Err(FolderFault::NotThere),
            Err(TakeFault::TooLarge) => Err(FolderFault::TooLarge),
            Err(TakeFault::Failed(reason)) => {
                Err(self.stop(FirstFault::new(Call::Take, name, reason)))
            }
        }
    }

    fn create(&mut self, _alloc: Global, name: &str) -> Result<(), FolderFault> {
        match self.try_create(name) {
            Ok(()) => Ok(()),
            Err(fault) => Err(self.stop(fault)),
        }
    }

    fn append(&mut self, _alloc: Global, name: &str, bytes: &[u8]) -> Result<(), FolderFault> {
        let mut file = match self.try_open(name) {
            Ok(file) => file,
            Err(fault) => return Err(self.stop(fault)),
        };
        match file.write_all(bytes) {
            Ok(()) => {
                self.count_written();
                Ok(())
            }
            Err(error) => {
                let fault = FirstFault::new(Call::Append, name, Reason::System(error));
                Err(FolderFault::from(self.fail(fault)))
            }
        }
    }

    fn firm(&mut self, name: &str) -> Result<(), Failed> {
        match answer(Call::Sync, name, sync_file(&self.rt, &self.path, name)) {
            Ok(()) => Ok(()),
            Err(fault) => Err(self.fail(fault)),
        }
    }

    fn rename(&mut self, from: &str, to: &str) -> Result<(), Failed> {
        match self.try_rename(from, to) {
            Ok(()) => Ok(()),
            Err(fault) => Err(self.fail(fault)),
        }
    }

    fn remove(&mut self, name: &str) -> Result<(), Failed> {
        match self.try_remove(name) {
            Ok(()) => Ok(()),
            Err(fault) => Err(self.fail(fault)),
        }
    }

    fn settle(&mut self) -> Result<(), Failed> {
        match self.try_settle() {
            Ok(()) => Ok(()),
            Err(fault) => Err(self.fail(fault)),
        }
    }
}
