// The commands that fix a position-independent program, and loosen a fixed one.
ghost use Rattle.pl_cli.specs.Came.{HasFixed, HasUnfixed};

use crate::chosen::chosen;
use pl_change::{fix_file, unfix_file};
use pl_folder::Folder;
use pl_place::{Holes, Placer};
use pl_texts::{Stop, unfixed_text};
use pl_words::Policy;
use std::alloc::Global;

/// Fixes the program of the name where the policy places it; at this address, or why it stopped.
pub fn fix<D: Folder>(alloc: Global, folder: &mut D, name: &str, asked: Policy) -> Result<u64, Stop>
    ensures { HasFixed name.now asked result (D.seen folder.old) (D.seen folder.new) }
{
    let placer = Placer::new(|holes: &Holes, span: u64, align: u64| chosen(
        asked, holes, span, align,
    ));
    Ok(fix_file(alloc, folder, name, &placer)?)
}

/// Makes the fixed program of the name position-independent again, and gives the line that says so; or why it stopped. The line is there before the file is changed, so that no want of memory comes after that.
pub fn unfix<D: Folder>(alloc: Global, folder: &mut D, name: &str) -> Result<Vec<u8>, Stop>
    ensures { HasUnfixed name.now result (D.seen folder.old) (D.seen folder.new) }
{
    let line = unfixed_text(alloc, name)?;
    unfix_file(alloc, folder, name)?;
    Ok(line.into_bytes())
}
