//! Whose files may have the program's own names.
use crate::Reason;
use std::fs::{self, Files, Metadata};
use std::os::unix::fs::MetadataExt;

// The user who may change every file anyway.
const ROOT: u32 = 0;

// What the system shows of the calling process. Its owner is the caller's effective user.
const CALLER: &str = "/proc/self";

// The owner of what has a path, where the system tells it.
fn owner_of(rt: &impl Files, path: &str) -> Option<u32> {
    match fs::metadata(rt, path) {
        Ok(metadata) => Some(metadata.uid()),
        Err(_) => None,
    }
}

/// An error where a file belongs neither to the caller nor to the owner of the folder nor to root.
pub(crate) fn require_trusted(
    rt: &impl Files,
    folder: &str,
    file: &Metadata,
) -> Result<(), Reason> {
    let owner = file.uid();
    if owner == ROOT || owner_of(rt, folder) == Some(owner) || owner_of(rt, CALLER) == Some(owner) {
        return Ok(());
    }
    Err(Reason::Foreign)
}
