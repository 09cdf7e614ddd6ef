//! Where libraries without a slot are placed: holes of a region, policies that choose an address in them, and the places of all libraries in turn.
#![tactic(auto)]

mod fault;
mod holes;
mod numbering;
mod placer;
mod placing;
mod policies;

pub use fault::PlaceFault;
pub use holes::Holes;
pub use placer::Placer;
pub use placing::place_all;
pub use policies::{highest, lowest, seeded};
