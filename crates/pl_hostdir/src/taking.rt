//! A whole file of the folder.
ghost use Rattle.std.specs.Prelude.{◌≡◌, ◌+◌, ◌≤◌, length, take, IfOk, IfSome};
ghost use Rattle.pl_folder.specs.declared.TheConstants.{STORED};
ghost use Rattle.pl_hostdir.specs.declared.take_fault.TakeFault.TheVariants as faults;

use crate::Reason;
use crate::entry::{Entry, changed};
use crate::take_fault::TakeFault;
use pl_folder::STORED;
use std::alloc::Global;
use std::fs::{self, Files, Metadata, OpenFile};
use std::io::{self, Read};

// How often a name is looked at that gets another file between the look and the open.
const LOOKS: u32 = 16;

// The bytes of a file that had this length, or the first ones, one more than a file may have: what is left of the file, where it tells it.
fn read_stored<F: Read + Drop>(alloc: Global, file: F, length: usize) -> io::Result<Vec<u8>>
    ensures { IfOk result (λ bytes. IfSome (F.remaining file)
        (λ left. bytes.items ≡ take (STORED + 1) left)) }
{
    let mut bytes = Vec::with_capacity(alloc, length.saturating_add(1))?;
    file.take(STORED as u64 + 1).read_to_end(&mut bytes)?;
    Ok(bytes)
}

// The whole open file, where it has at most `STORED` bytes. A longer one is not read whole.
fn read_whole<F: Read + OpenFile + Drop>(alloc: Global, file: F) -> Result<Vec<u8>, TakeFault>
    ensures { IfOk result (λ bytes. length bytes.items ≤ STORED) }
{
    let length = usize::try_from(file.metadata()?.len()).unwrap_or(usize::MAX);
    if length > STORED {
        return Err(TakeFault::TooLarge);
    }
    let bytes = read_stored(alloc, file, length)?;
    if bytes.len() > STORED {
        return Err(TakeFault::TooLarge);
    }
    Ok(bytes)
}

// What has the name, where it is a regular file.
fn look_for_file(rt: &impl Files, entry: &Entry) -> Result<Metadata, TakeFault> {
    match entry.look(rt)? {
        Some(there) if there.is_file() => Ok(there),
        Some(there) if entry.blocks(&there) => Err(TakeFault::Failed(Reason::NotAFile)),
        _ => Err(TakeFault::NotThere),
    }
}

/// The whole file of a name, where it is a regular file of at most `STORED` bytes. A longer one is not read whole.
///
/// `NotThere` comes where nothing has the name, a symbolic link, or under an own name anything but a file; a directory, socket, fifo or device under a valid name is `NotAFile`.
pub(crate) fn take_file(
    rt: &impl Files,
    alloc: Global,
    folder: &str,
    name: &str,
) -> Result<Vec<u8>, TakeFault>
    ensures { IfOk result (λ bytes. length bytes.items ≤ STORED) }
{
    let entry = Entry::new(folder, name)?;
    let mut to_read = fs::File::options();
    to_read.read(true);
    for _ in 0..LOOKS {
        let looked = look_for_file(rt, &entry)?;
        if let Some(file) = entry.open_looked(rt, &to_read, &looked)? {
            return read_whole(alloc, file);
        }
    }
    Err(TakeFault::Failed(Reason::System(changed())))
}
