ghost use Rattle.std.specs.Prelude.{◌≡◌};
ghost use Rattle.pl_texts.specs.declared.write_stop.WriteStop.TheVariants as stops;

use pl_io::Failed;
use std::alloc::AllocError;

/// Why a text was not written to its end.
#[derive(Clone, Copy, Debug, PartialEq, Eq)]
pub enum WriteStop {
    /// The output failed.
    Failed,
    /// There was no memory.
    NoMemory,
}

impl From<Failed> for WriteStop {
    ghost from_gives = { λ _ stop. stop ≡ stops.Failed };

    fn from(_: Failed) -> WriteStop {
        WriteStop::Failed
    }
}

impl From<AllocError> for WriteStop {
    ghost from_gives = { λ _ stop. stop ≡ stops.NoMemory };

    fn from(_: AllocError) -> WriteStop {
        WriteStop::NoMemory
    }
}
