ghost use Rattle.std.specs.Prelude.{◌≡◌};
ghost use Rattle.pl_hostdir.specs.declared.reason.Reason.TheVariants as reasons;
ghost use Rattle.pl_hostdir.specs.declared.take_fault.TakeFault.TheVariants as faults;

use crate::Reason;
use std::io;

/// Why a file is not taken.
#[derive(Clone, Copy)]
pub(crate) enum TakeFault {
    /// The name has no file.
    NotThere,
    /// The file is longer than a folder gives.
    TooLarge,
    /// The call failed.
    Failed(Reason),
}

impl From<Reason> for TakeFault {
    ghost from_gives = { λ reason fault. fault ≡ faults.Failed reason };

    fn from(reason: Reason) -> TakeFault {
        TakeFault::Failed(reason)
    }
}

impl From<io::Error> for TakeFault {
    ghost from_gives = { λ error fault. fault ≡ faults.Failed (reasons.System error) };

    fn from(error: io::Error) -> TakeFault {
        TakeFault::Failed(Reason::System(error))
    }
}
