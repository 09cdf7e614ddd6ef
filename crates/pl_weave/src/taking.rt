// One file of a folder, at this moment.
ghost use Rattle.std.specs.Prelude.{◌≡◌, ◌<◌, ◌^◌, IfErr, IfOk, length};
ghost use Rattle.std.specs.Option.{ForSome};
ghost use Rattle.pl_weave.specs.Taking.{HasTaken, Untaken};

use crate::WeaveFault;
use pl_base::is_valid_name;
use pl_folder::FolderFault;
use pl_journal::Takes;
use std::alloc::Global;

/// The file that the folder has of a name at this moment; none where it has none. For a name that is not valid it is not asked.
pub fn take<T: Takes>(
    alloc: Global,
    held: &mut T,
    name: &str,
) -> Result<Option<Vec<u8>>, WeaveFault>
    ensures taken { HasTaken name.now result (T.seen held.old) (T.seen held.new) }
    ensures untaken { IfErr result (λ fault. Untaken name.now fault (T.seen held.old)) }
    ensures size { IfOk result (λ file. ForSome file (λ bytes. length bytes.items < 2 ^ 32)) }
    ensures referent { T.referent held.new ≡ T.referent held.old }
    ensures rows { T.rows held.new ≡ T.rows held.old }
{
    if !is_valid_name(name.as_bytes()) {
        return Ok(None);
    }
    match held.take_now(alloc, name) {
        Ok(bytes) => Ok(Some(bytes)),
        Err(FolderFault::Failed) => Err(WeaveFault::Failed),
        Err(FolderFault::NotThere) => Ok(None),
        Err(FolderFault::TooLarge) => Err(WeaveFault::TooLarge),
        Err(FolderFault::NoMemory) => Err(WeaveFault::NoMemory),
    }
}
