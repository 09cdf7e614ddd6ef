//! What is asked of a folder.
ghost use Rattle.std.specs.Prelude.{◌≡◌, ◌≢◌, ◌<◌, ◌≤◌, ◌^◌, All, IfOk, OnErr, Ok, length, map, string_bytes, vec_len};
ghost use Rattle.std.specs.FinMap.{keys};
ghost use Rattle.pl_base.specs.Names.{IsNameLength};
ghost use Rattle.pl_folder.specs.declared.TheConstants.{STORED};
ghost use Rattle.pl_change.specs.Answers.{Finds, of_take};
ghost use Rattle.pl_change.specs.Names as spec;

use crate::{BatchFault, Cause};
use pl_base::Text;
use pl_folder::{Folder, FolderFault};
use std::alloc::{AllocError, Global};

/// All names of a folder, of 1 to 255 bytes each; they ascend where the folder tells its files. It has no cause: `DiskFailed` comes only where the folder failed. No call writes to the folder.
pub fn list<D: Folder>(alloc: Global, folder: &mut D) -> Result<Vec<String>, BatchFault>
    ensures found { Finds (Ok (keys (D.seen folder.old).files))
        (λ names. map string_bytes names.items) result
        (D.seen folder.old) (D.seen folder.new) }
    ensures lengths { IfOk result (λ names. All (λ name. IsNameLength
        (string_bytes name)) names.items) }
{
    Ok(folder.names(alloc)?)
}

/// Why the file of a name was not taken. A fault of the folder takes no memory.
fn untaken(alloc: Global, name: &str, fault: FolderFault) -> Result<BatchFault, AllocError>
    ensures fault { IfOk result (λ whole. whole ≡ of_take name.now fault) }
    ensures lacks { OnErr result (fault ≢ FolderFault.Failed) }
{
    Ok(match fault {
        FolderFault::Failed => BatchFault::DiskFailed,
        FolderFault::NotThere => BatchFault::Cause(Cause::NotThere(Text::copy_of(alloc, name)?)),
        FolderFault::TooLarge => BatchFault::Cause(Cause::FileTooLarge(Text::copy_of(
            alloc, name,
        )?)),
        FolderFault::NoMemory => BatchFault::NoMemory,
    })
}

/// The file of a name. The one cause is NotThere or FileTooLarge, as there is no such file or it is longer than a folder gives. `DiskFailed` comes only where the folder failed. No call writes to the folder.
pub fn take<D: Folder>(alloc: Global, folder: &mut D, name: &str) -> Result<Vec<u8>, BatchFault>
    requires { IsNameLength name.now }
    ensures found { Finds (spec.file_of (D.seen folder.old).files name.now)
        (λ bytes. bytes.items) result
        (D.seen folder.old) (D.seen folder.new) }
    ensures size { IfOk result (λ bytes. vec_len bytes < 2 ^ 32) }
    ensures stored { IfOk result (λ bytes. length bytes.items ≤ STORED) }
{
    match folder.take(alloc, name) {
        Ok(bytes) => Ok(bytes),
        Err(fault) => Err(untaken(alloc, name, fault)?),
    }
}
