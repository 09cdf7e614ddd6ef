// The commands that undo and remove files.
ghost use Rattle.pl_batch.specs.Changes.{IsRun};
ghost use Rattle.pl_cli.specs.Came.{HasRemoved, HasUndone};

use pl_batch::{Run, do_run};
use pl_folder::Folder;
use pl_texts::{Stop, removed_text};
use std::alloc::Global;

/// Gives prelinked files their originals; so many, or why it stopped.
pub fn undo<D: Folder>(alloc: Global, folder: &mut D, run: &Run) -> Result<usize, Stop>
    requires { IsRun run.now }
    ensures { HasUndone run.now result (D.seen folder.old) (D.seen folder.new) }
{
    Ok(do_run(alloc, folder, run)?)
}

/// Removes the file of the name, and gives the line that says so; or why it stopped. The line is there before the file is gone, so that no want of memory comes after that.
pub fn remove<D: Folder>(alloc: Global, folder: &mut D, name: &str) -> Result<Vec<u8>, Stop>
    ensures { HasRemoved name.now result (D.seen folder.old) (D.seen folder.new) }
{
    let line = removed_text(alloc, name)?;
    pl_change::remove(alloc, folder, name)?;
    Ok(line.into_bytes())
}
