// One file of a walk.
ghost use Rattle.std.specs.Prelude.{◌≡◌, ◌≢◌, ◌<◌, ◌^◌, IfOk, OnErr, vec_len};
ghost use Rattle.pl_texts.specs.Finds.{HasTaken};
ghost use Rattle.pl_texts.specs.Stops.{of_take};

use crate::cause::Cause;
use crate::stop::Stop;
use pl_base::{Text, is_valid_name};
use pl_folder::{Folder, FolderFault};
use pl_loader::LoadFault;
use std::alloc::{AllocError, Global};

/// Why the file of a name was not taken. A fault of the folder takes no memory.
fn untaken(alloc: Global, name: &str, fault: FolderFault) -> Result<Stop, AllocError>
    ensures stop { IfOk result (λ stop. stop ≡ of_take name.now fault) }
    ensures lacks { OnErr result (fault ≢ FolderFault.Failed) }
{
    Ok(match fault {
        FolderFault::Failed => Stop::Failed,
        FolderFault::NotThere => Stop::from(LoadFault::NotThere(Text::copy_of(alloc, name)?)),
        FolderFault::TooLarge => Stop::Cause(Cause::FileTooLarge(Text::copy_of(alloc, name)?)),
        FolderFault::NoMemory => Stop::NoMemory,
    })
}

/// The file of a name that a walk wants. A name that is no valid name has none, and the folder is not asked for it.
pub fn take<D: Folder>(alloc: Global, folder: &mut D, name: &str) -> Result<Vec<u8>, Stop>
    ensures taken { HasTaken name.now result (D.seen folder.old) (D.seen folder.new) }
    ensures size { IfOk result (λ bytes. vec_len bytes < 2 ^ 32) }
{
    if !is_valid_name(name.as_bytes()) {
        return Err(untaken(alloc, name, FolderFault::NotThere)?);
    }
    match folder.take(alloc, name) {
        Ok(bytes) => Ok(bytes),
        Err(fault) => Err(untaken(alloc, name, fault)?),
    }
}
