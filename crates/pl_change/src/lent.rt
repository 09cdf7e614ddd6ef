ghost use Rattle.pl_folder.specs.Seen.{Seen};
ghost use Rattle.pl_change.specs.Lent.{lent};

use pl_folder::{Folder, FolderFault};
use pl_io::Failed;
use std::alloc::Global;

/// A folder that is lent. Contracts see it as the folder, but that its place tells where the reference points and the folder's own place.
#[derive(Drop)]
pub struct Lent<'a, D> {
    /// The folder.
    pub folder: &'a mut D,
}

impl<'a, D: Folder> Folder for Lent<'a, D> {
    ghost seen = { λ it. lent it.folder.ghost_name (D.seen it.folder.now) };

    ghost is_folder = { λ it. record { tells = (D.is_folder it.folder.now).tells; reads = (D.is_folder it.folder.now).reads; whole = (D.is_folder it.folder.now).whole } };

    fn names(&mut self, alloc: Global) -> Result<Vec<String>, FolderFault> {
        self.folder.names(alloc)
    }

    fn take(&mut self, alloc: Global, name: &str) -> Result<Vec<u8>, FolderFault> {
        self.folder.take(alloc, name)
    }

    fn create(&mut self, alloc: Global, name: &str) -> Result<(), FolderFault> {
        self.folder.create(alloc, name)
    }

    fn append(&mut self, alloc: Global, name: &str, bytes: &[u8]) -> Result<(), FolderFault> {
        self.folder.append(alloc, name, bytes)
    }

    fn firm(&mut self, name: &str) -> Result<(), Failed> {
        self.folder.firm(name)
    }

    fn rename(&mut self, from: &str, to: &str) -> Result<(), Failed> {
        self.folder.rename(from, to)
    }

    fn remove(&mut self, name: &str) -> Result<(), Failed> {
        self.folder.remove(name)
    }

    fn settle(&mut self) -> Result<(), Failed> {
        self.folder.settle()
    }
}
