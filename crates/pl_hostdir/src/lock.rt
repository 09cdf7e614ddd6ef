//! The lock of the folder, which one command that writes holds at a time.
use crate::{HostFile, Reason};
use std::fs::{self, Files, TryLockError};

/// The folder of a path, open and locked.
pub(crate) fn lock_folder<R: Files>(rt: &R, folder: &str) -> Result<R::File, Reason>
where
    R::File: HostFile,
{
    let open = fs::File::open(rt, folder)?;
    match open.try_lock() {
        Ok(()) => Ok(open),
        Err(TryLockError::WouldBlock) => Err(Reason::Busy),
        Err(TryLockError::Error(error)) => Err(Reason::System(error)),
    }
}
