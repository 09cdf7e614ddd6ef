ghost use Rattle.std.specs.Prelude.{◌≡◌};
ghost use Rattle.pl_hostdir.specs.declared.reason.Reason.TheVariants as reasons;

use std::io;

/// Why a call of the real folder failed.
#[derive(Clone, Copy, Debug)]
pub enum Reason {
    /// The system's error.
    System(io::Error),
    /// Another command that writes holds the folder.
    Busy,
    /// A directory, socket, fifo or device has the name.
    NotAFile,
    /// The name is the program's own, and its file belongs neither to the caller nor to the owner of the folder nor to root.
    Foreign,
}

impl From<io::Error> for Reason {
    ghost from_gives = { λ error reason. reason ≡ reasons.System error };

    fn from(error: io::Error) -> Reason {
        Reason::System(error)
    }
}
