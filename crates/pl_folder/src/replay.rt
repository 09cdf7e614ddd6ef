//! The disk of a folder in memory after some of its calls.
ghost use Rattle.std.specs.Prelude.{◌≡◌, ◌++◌, None, OnOk, IfOk, unwrap_or, []};
ghost use Rattle.std.specs.FinMap.{get};
ghost use Rattle.pl_folder.specs.Chosen.{image_by};
ghost use Rattle.pl_folder.specs.Disk.{IsWhole, Name as NameBytes, State};
ghost use Rattle.pl_folder.specs.Entries.{name_bytes};
ghost use Rattle.pl_folder.specs.Replay.{step_of};
ghost use Rattle.pl_folder.specs.Replaying.{Adds, Stands, bound_by, changes_of, chosen_changes, content_at, contents_of, keeps, settled_view, shown_files};
ghost use Rattle.pl_folder.specs.States as state;
ghost use Rattle.pl_folder.specs.Tables.{started_with, table_files};

use crate::call::Call;
use crate::choice::Choice;
use crate::directory_change::DirectoryChange;
use crate::file_table::FileTable;
use crate::name::Name;
use std::alloc::{AllocError, Global};

/// A file, and whether its bytes outlast a crash.
#[derive(Drop)]
pub(crate) struct FileContent {
    bytes: Vec<u8>,
    is_firm: bool,
}

/// A disk, while the calls of a folder are replayed: the changes of names up to the last settle and those since, the oldest first, and the files by their numbers.
#[derive(Drop)]
pub(crate) struct Replay {
    settled: Vec<DirectoryChange>,
    changes: Vec<DirectoryChange>,
    files: Vec<FileContent>,
}

impl Replay {
    /// A settled disk with the files of a table.
    pub(crate) fn new(alloc: Global, first: &FileTable) -> Result<Replay, AllocError>
        ensures { IfOk result (λ replay. Stands replay (started_with first.now).now) }
    {
        let mut settled = Vec::new(alloc);
        let mut files = Vec::new(alloc);
        for (i, file) in first.files().iter().enumerate() {
            settled.push(DirectoryChange::Bind {
                name: file.name.copy(),
                file: i,
            })?;
            files.push(FileContent {
                bytes: Vec::from_slice(alloc, file.bytes.as_slice())?,
                is_firm: true,
            })?;
        }
        Ok(Replay {
            settled,
            changes: Vec::new(alloc),
            files,
        })
    }

    /// Does one call more.
    pub(crate) fn step(&mut self, alloc: Global, call: &Call) -> Result<(), AllocError>
        ensures { OnOk result ((s : State) → IsWhole s → Stands self.old s
            → Stands self.new (step_of call.now s)) }
    {
        match call {
            Call::Nothing => Ok(()),
            Call::Create { name } => self.create(alloc, name),
            Call::Append { name, bytes } => self.append(name, bytes),
            Call::Firm { name } => {
                self.firm(name);
                Ok(())
            }
            Call::Rename { from, to } => self.rename(from, to),
            Call::Remove { name } => self.remove(name),
            Call::Settle => self.settle(alloc, Choice::All),
        }
    }

    // The number of a name's file.
    fn file_of(&self, name: &Name) -> Option<usize>
        ensures { result ≡ bound_by (changes_of self.now.changes.items) (name_bytes name.now)
            (bound_by (changes_of self.now.settled.items) (name_bytes name.now) None) }
    {
        bound(&self.changes, name, bound(&self.settled, name, None))
    }

    fn create(&mut self, alloc: Global, name: &Name) -> Result<(), AllocError>
        ensures { OnOk result ((s : State) → Stands self.old s
            → Stands self.new (state.created (name_bytes name.now) s)) }
    {
        let file = self.files.len();
        self.changes.push(DirectoryChange::Bind {
            name: name.copy(),
            file,
        })?;
        self.files.push(FileContent {
            bytes: Vec::new(alloc),
            is_firm: false,
        })?;
        Ok(())
    }

    fn append(&mut self, name: &Name, bytes: &[u8]) -> Result<(), AllocError>
        ensures { OnOk result ((s : State) → IsWhole s → Stands self.old s
            → Stands self.new (state.appended (name_bytes name.now) bytes.now s)) }
    {
        let Some(file) = self.file_of(name) else {
            return Ok(());
        };
        if file < self.files.len() {
            let loaded = &mut self.files[file];
            loaded.bytes.extend_from_slice(bytes)?;
            loaded.is_firm = false;
        }
        Ok(())
    }

    fn firm(&mut self, name: &Name)
        ensures { (s : State) → IsWhole s → Stands self.old s
            → Stands self.new (state.firmed (name_bytes name.now) s) }
    {
        let Some(file) = self.file_of(name) else {
            return;
        };
        if file < self.files.len() {
            self.files[file].is_firm = true;
        }
    }

    fn rename(&mut self, from: &Name, to: &Name) -> Result<(), AllocError>
        ensures { OnOk result ((s : State) → Stands self.old s
            → Stands self.new (state.renamed (name_bytes from.now) (name_bytes to.now) s)) }
    {
        let Some(file) = self.file_of(from) else {
            return Ok(());
        };
        self.changes.push(DirectoryChange::Move {
            from: from.copy(),
            to: to.copy(),
            file,
        })?;
        Ok(())
    }

    fn remove(&mut self, name: &Name) -> Result<(), AllocError>
        ensures { OnOk result ((s : State) → Stands self.old s
            → Stands self.new (state.removed (name_bytes name.now) s)) }
    {
        self.changes
            .push(DirectoryChange::Unbind { name: name.copy() })?;
        Ok(())
    }

    /// Settles the disk after a crash that left what is chosen. Without a crash all is left.
    pub(crate) fn settle(&mut self, alloc: Global, choice: Choice) -> Result<(), AllocError>
        ensures { OnOk result ((s : State) → Stands self.old s
            → Stands self.new (image_by (keeps choice) s)) }
    {
        keep(&mut self.settled, &self.changes, choice)?;
        self.changes.clear();
        self.files = shown(alloc, &self.files, choice)?;
        Ok(())
    }

    /// The files of a settled disk.
    pub(crate) fn table(&self, alloc: Global) -> Result<FileTable, AllocError>
        ensures { IfOk result (λ table. (n : NameBytes) → get (table_files table) n
            ≡ settled_view self.now n) }
    {
        let mut table = FileTable::new(alloc);
        for change in &self.settled {
            if let Some(name) = change.bound_name() {
                self.add_to(alloc, &mut table, name)?;
            }
        }
        Ok(table)
    }

    // Adds the file of a name to a table, where it is not there yet.
    fn add_to(&self, alloc: Global, table: &mut FileTable, name: &Name) -> Result<(), AllocError>
        ensures { OnOk result (Adds (settled_view self.now) (name_bytes name.now)
            (table_files table.old) (table_files table.new)) }
    {
        if table.has(name.as_str()) {
            return Ok(());
        }
        let Some(file) = bound(&self.settled, name, None) else {
            return Ok(());
        };
        table.add(alloc, name.as_str(), self.bytes(file))
    }

    // The bytes of a file, none past the last one.
    fn bytes(&self, file: usize) -> &[u8]
        ensures { result.now ≡ (content_at (contents_of self.now.files.items) file).bytes }
    {
        match self.files.get(file) {
            Some(loaded) => &loaded.bytes,
            None => &[],
        }
    }
}

// The file of a name after some changes, by what it was before.
fn bound(changes: &[DirectoryChange], name: &Name, before: Option<usize>) -> Option<usize>
    ensures { result ≡ bound_by (changes_of changes.now) (name_bytes name.now) before }
{
    let mut file = before;
    for change in changes {
        file = change.bound(name.as_str(), file);
    }
    file
}

// Adds the changes that are chosen to those that are settled.
fn keep(
    settled: &mut Vec<DirectoryChange>,
    changes: &[DirectoryChange],
    choice: Choice,
) -> Result<(), AllocError>
    ensures { OnOk result (changes_of settled.new.items ≡ changes_of settled.old.items
        ++ chosen_changes (keeps choice) 0 (changes_of changes.now)) }
{
    for (i, change) in changes.iter().enumerate() {
        if choice.keeps(i) {
            settled.push(change.copy())?;
        }
    }
    Ok(())
}

// The files after a crash that left those which are chosen, of the ones that are not firm.
fn shown(
    alloc: Global,
    files: &[FileContent],
    choice: Choice,
) -> Result<Vec<FileContent>, AllocError>
    ensures { IfOk result (λ shown. contents_of shown.items
        ≡ shown_files (keeps choice) 0 (contents_of files.now)) }
{
    let mut shown = Vec::new(alloc);
    let mut loose = 0;
    for file in files {
        let mut bytes = Vec::new(alloc);
        if file.is_firm || choice.keeps(loose) {
            bytes.extend_from_slice(&file.bytes)?;
        }
        if !file.is_firm {
            loose += 1;
        }
        shown.push(FileContent {
            bytes,
            is_firm: true,
        })?;
    }
    Ok(shown)
}
