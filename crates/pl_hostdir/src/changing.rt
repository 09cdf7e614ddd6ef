//! The calls that change files of the folder.
use crate::bits::{PRIVATE, bits_of, set_bits, take_over};
use crate::entry::Entry;
use crate::{HostFile, Reason};
use std::fs::{self, Files, OpenFile, Permissions};
use std::os::unix::fs::{OpenOptionsExt, PermissionsExt};

// The own name of an empty file that is made and removed, to see which permission bits a new file gets. It is one of those that a recovery clears away.
const PROBE: &str = ".prelink.new.mode";

/// Gives the name a new, empty file, its owner's alone, in place of what has the name. Its mode is never wider, and whatever the umask is its owner may write it.
pub(crate) fn create_file(rt: &impl Files, folder: &str, name: &str) -> Result<(), Reason> {
    let entry = Entry::new(folder, name)?;
    entry.clear(rt)?;
    let mut to_create = fs::File::options();
    to_create.write(true).create_new(true).mode(PRIVATE);
    let file = to_create.open(rt, entry.path())?;
    file.set_permissions(Permissions::from_mode(PRIVATE))?;
    Ok(())
}

/// Opens the file of a name so that what is written comes at its end.
pub(crate) fn open_to_append<R: Files>(
    rt: &R,
    folder: &str,
    name: &str,
) -> Result<R::File, Reason> {
    let mut to_append = fs::File::options();
    to_append.append(true);
    Entry::new(folder, name)?.open(rt, &to_append)
}

// Opens the file of a name to be read.
fn open_to_read<R: Files>(rt: &R, entry: &Entry) -> Result<R::File, Reason> {
    let mut to_read = fs::File::options();
    to_read.read(true);
    entry.open(rt, &to_read)
}

/// Syncs the file of a name. It is an error where the name has no regular file.
pub(crate) fn sync_file(rt: &impl Files, folder: &str, name: &str) -> Result<(), Reason> {
    let entry = Entry::new(folder, name)?;
    open_to_read(rt, &entry)?.sync_all()?;
    Ok(())
}

// The permission bits that the system gives a new file of a name, which is made and removed.
fn bits_of_new(rt: &impl Files, folder: &str, name: &str) -> Result<u32, Reason> {
    let entry = Entry::new(folder, name)?;
    entry.clear(rt)?;
    let made = fs::File::create_new(rt, entry.path())?.metadata()?;
    fs::remove_file(rt, entry.path())?;
    Ok(bits_of(&made))
}

/// Gives a file another name. In place of a file it takes over that one's owner, group and permission bits, so that a program can still be started, and else gets the bits of a new file. It is synced with them before it gets the name.
pub(crate) fn rename_file<R: Files>(
    rt: &R,
    folder: &str,
    from: &str,
    to: &str,
) -> Result<(), Reason>
where
    R::File: HostFile,
{
    let from = Entry::new(folder, from)?;
    let to = Entry::new(folder, to)?;
    let file = open_to_read(rt, &from)?;
    match to.replaced(rt)? {
        Some(old) => take_over(&file, &old)?,
        None => set_bits(&file, bits_of_new(rt, folder, PROBE)?)?,
    }
    fs::rename(rt, from.path(), to.path())?;
    Ok(())
}

/// Removes the file of a name, where there is one, and under an own name whatever has it.
pub(crate) fn remove_name(rt: &impl Files, folder: &str, name: &str) -> Result<(), Reason> {
    let entry = Entry::new(folder, name)?;
    match entry.look(rt)? {
        Some(there) if there.is_file() || entry.has_own_name() => entry.clear(rt),
        _ => Ok(()),
    }
}
