// The calls of the folder that may fail, and why they do where the system gives no error, one sentence each. The manual page has the same table.
use pl_hostdir::{Call, Reason};

/// What could not be done. The system's words follow.
pub fn sentence(call: Call) -> &'static str {
    match call {
        Call::List => "The names of the folder could not be listed",
        Call::Take => "The file could not be read",
        Call::Create => "The file could not be made",
        Call::Append => "The file could not be written",
        Call::Sync => "The file could not be synced",
        Call::Rename => "The file could not be renamed",
        Call::Remove => "The file could not be removed",
        Call::SyncFolder => "The folder could not be synced",
        Call::Lock => "The folder could not be locked",
    }
}

/// The sentence of a reason that is no error of the system.
pub fn reason(reason: &Reason) -> Option<&'static str> {
    match reason {
        Reason::System(_) => None,
        Reason::Busy => Some(
            "Another prelink command writes in this folder. Nothing was done; try again when it has ended.",
        ),
        Reason::NotAFile => Some(
            "The name is that of a directory, a socket, a fifo or a device, and of no regular file.",
        ),
        Reason::Foreign => Some(
            "The name is one of the program's own, and its file belongs neither to you nor to the owner of the folder nor to root. Nothing was done with it; remove it if nobody needs it.",
        ),
    }
}

/// A call of the folder failed, and none is known.
pub const FOLDER: &str = "The folder failed";

/// The input failed.
pub const INPUT: &str = "The input could not be read";

/// The output failed.
pub const OUTPUT: &str = "The output could not be written";

/// There was no memory.
pub const NO_MEMORY: &str = "There was no memory.";
