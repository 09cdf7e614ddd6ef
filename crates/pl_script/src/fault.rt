ghost use Rattle.std.specs.Prelude.{◌≡◌};
ghost use Rattle.pl_script.specs.declared.fault.ScriptFault.TheVariants as faults;

use std::alloc::AllocError;
use thiserror::Error;

/// Why a text is no script.
#[derive(Clone, Copy, Debug, PartialEq, Eq, Error)]
pub enum ScriptFault {
    /// The first line, from 1 on, that is outside the grammar, past a limit, or names a loader that no line makes.
    #[error("line {line} of the script is wrong")]
    Wrong { line: u64 },

    #[error("out of memory")]
    NoMemory,
}

impl From<AllocError> for ScriptFault {
    ghost from_gives = { λ _ e. e ≡ faults.NoMemory };

    fn from(_: AllocError) -> ScriptFault {
        ScriptFault::NoMemory
    }
}
