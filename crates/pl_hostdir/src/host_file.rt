//! What the folder asks of an open file beside the calls of std's trait.
use std::fs::{self, TryLockError};
use std::io;
use std::os::unix::fs::fchown;

/// An open file or folder of the system.
pub trait HostFile {
    /// Takes the exclusive advisory lock, and keeps it until the file is closed. It does not wait: `WouldBlock` comes where it is held through another open file.
    fn try_lock(&self) -> Result<(), TryLockError>;

    /// Gives the file an owner and a group, each only where there is one here. The file is the open one, whatever has its name by now.
    fn give(&self, owner: Option<u32>, group: Option<u32>) -> io::Result<()>;
}

impl HostFile for fs::File {
    fn try_lock(&self) -> Result<(), TryLockError> {
        fs::File::try_lock(self)
    }

    fn give(&self, owner: Option<u32>, group: Option<u32>) -> io::Result<()> {
        fchown(self, owner, group)
    }
}
