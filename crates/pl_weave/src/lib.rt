//! Loads during runs: loaders that open one file at a time, and runs that do one row at a time, in any order.
#![tactic(auto)]

mod copying;
mod fault;
mod laws;
mod opening;
mod progress;
mod quiet;
mod running;
mod seen;
mod storable;
mod taking;
mod weave;
mod weaving;

pub use fault::WeaveFault;
pub use laws::{events_lead, finished_are_loads, woven_are_led};
pub use opening::Opening;
pub use progress::Progress;
pub use seen::Seen;
pub use weave::Weave;
pub use weaving::{Woven, interleave};
