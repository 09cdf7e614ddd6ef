// The commands over all files: to prelink them, or to say what that would do.
ghost use Rattle.std.specs.Prelude.{◌≡◌, IfOk};
ghost use Rattle.pl_cli.specs.Came.{HasPrelinked, HasPreviewed};
ghost use Rattle.pl_texts.specs.Reports as spec;

use pl_batch::{Prelinking, prelink_all, preview_all};
use pl_folder::Folder;
use pl_texts::{Detail, Report, Stop, report_text};
use std::alloc::{AllocError, Global};

/// Prelinks every file that may be prelinked, and gives the text of what became of each name; or why it stopped. The text is there before a change is committed, so that no want of memory comes after that.
pub fn prelink<D: Folder>(
    alloc: Global,
    folder: &mut D,
    asked: &Prelinking,
    detail: Detail,
) -> Result<Vec<u8>, Stop>
    ensures { HasPrelinked asked.now detail result (D.seen folder.old) (D.seen folder.new) }
{
    let text = prelink_all(
        alloc,
        folder,
        asked,
        |report: &Report| -> Result<Vec<u8>, AllocError>
            ensures { IfOk result (λ text. text.items ≡ spec.report_text detail report.now) }
        { report_text(alloc, report, detail) },
    )?;
    Ok(text)
}

/// The text of what `prelink` would do with the files as they stand, or why it would stop. It only reads, and does not look at a journal.
pub fn preview<D: Folder>(
    alloc: Global,
    folder: &mut D,
    asked: &Prelinking,
    detail: Detail,
) -> Result<Vec<u8>, Stop>
    ensures { HasPreviewed asked.now detail result (D.seen folder.old) (D.seen folder.new) }
{
    let report = preview_all(alloc, folder, asked)?;
    Ok(report_text(alloc, &report, detail)?)
}
