ghost use Rattle.std.specs.Prelude.{◌≡◌};

use crate::{Call, Reason};
use arrayvec::ArrayString;
use pl_base::MAX_NAME;

/// The first call of a real folder that failed.
#[derive(Clone, Copy, Debug)]
pub struct FirstFault {
    /// The call.
    pub call: Call,
    /// The name that it was about, empty for the folder itself.
    pub name: ArrayString<MAX_NAME>,
    /// Why it failed.
    pub reason: Reason,
}

impl FirstFault {
    /// A call about a name that failed.
    pub(crate) fn new(call: Call, name: &str, reason: Reason) -> FirstFault
        ensures call { result.call ≡ call }
        ensures reason { result.reason ≡ reason }
    {
        let name = ArrayString::from(name).unwrap_or(ArrayString::new());
        FirstFault { call, name, reason }
    }
}
