// The original of a file that is what prelinking would make of it.
ghost use Rattle.pl_cli.specs.Came.{HasVerified};
ghost use Rattle.pl_texts.specs.Files.{Unasked};

use pl_folder::Folder;
use pl_texts::Stop;
use std::alloc::Global;

/// The original of the file of a name, where that is the prelinked file of the originals of its walk; None where it is another file; or the first cause why its walk has none. Its calls only read, and for a name that is not valid the folder is not asked.
pub fn verify<D: Folder>(alloc: Global, folder: &mut D, name: &str) -> Result<Option<Vec<u8>>, Stop>
    ensures verified { HasVerified name.now result (D.seen folder.old) (D.seen folder.new) }
    ensures unasked { Unasked name.now folder.old folder.new }
{
    Ok(pl_batch::verify(alloc, folder, name)?)
}
