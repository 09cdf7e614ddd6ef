// The table of a run.
ghost use Rattle.std.specs.Prelude.{◌≡◌, IfOk};
ghost use Rattle.pl_scope.specs.Folder.{IsFolderIndex};
ghost use Rattle.pl_cone.specs.Table as spec;
ghost use Rattle.pl_cone.specs.Taken.{WereTaken};

use crate::linking::{Linked, WalkedFiles};
use crate::walking::{FolderWalks, walks_of};
use crate::{Link, Skip, Taken};
use pl_base::Rows;
use pl_io::NoMemory;
use pl_scope::Index;
use std::alloc::Global;

/// The files of a folder in the order of their names, and what is known of each, by its row's number.
#[derive(Drop)]
pub struct RunTable<'f> {
    pub files: &'f [Taken],

    /// For each file the rows of the members of its name's walk, in the order of the walk, its own first; none where the walk is refused.
    pub walks: Rows<Rows<u32>>,

    /// The rows of the objects that define a name, by its hash.
    pub index: Index,

    /// For each file what its own relocations find by its walk; of no relocations where it may not be prelinked.
    pub links: Rows<Link>,

    /// For each file the first cause why it may not be prelinked; None where it may be. It is no want of memory.
    pub causes: Rows<Option<Skip>>,
}

/// The index of what the originals of files define. It fails only for want of memory.
pub fn index_of(alloc: Global, files: &[Taken]) -> Result<Index, NoMemory>
    requires { WereTaken files.now }
    ensures { IfOk result (IsFolderIndex (spec.folder_objects files.now)) }
{
    let mut objects = Vec::new(alloc);
    for taken in files {
        objects.push(taken.object())?;
    }
    Index::of(alloc, &objects)
}

impl<'f> RunTable<'f> {
    /// The table of the files of a folder, ascending by name: the walk of each name, what the relocations of each that may be prelinked find, and the first cause why it may not be, as `prelinkable` has it. It fails only for want of memory.
    ///
    /// `take_file` gave the files under one region, and no name stands twice.
    pub fn of(alloc: Global, files: &'f [Taken]) -> Result<RunTable<'f>, NoMemory>
        requires { WereTaken files.now }
        ensures files { IfOk result (λ t. t.files.now ≡ files.now) }
        ensures table { IfOk result spec.IsRunTableOfAny }
    {
        let made = walks_of(alloc, files)?;
        let FolderWalks { walks, causes } = made;
        let index = index_of(alloc, files)?;
        let walked = WalkedFiles {
            files,
            walks: walks.as_slice(),
            index: &index,
        };
        let linked = walked.links_of(alloc, causes)?;
        let Linked { links, causes } = linked;
        Ok(RunTable {
            files,
            walks,
            index,
            links: Rows::from_vec(links),
            causes: Rows::from_vec(causes),
        })
    }

    /// Whether the name of a row may be prelinked.
    pub fn is_candidate(&self, row: usize) -> bool
        ensures { result ≡ spec.is_candidate_row self.now row }
    {
        matches!(self.causes.as_slice().get(row), Some(None))
    }

    /// The rows of the walk of a row; none where that is refused.
    pub fn walk(&self, row: usize) -> &[u32]
        ensures { result.now ≡ spec.walk_of self.now row }
    {
        match self.walks.as_slice().get(row) {
            None => &[],
            Some(walk) => walk.as_slice(),
        }
    }
}
