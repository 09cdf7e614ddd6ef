//! Slots that may overlap: which address range each library gets in a region where two libraries that no walk holds together may share addresses.
#![tactic(auto)]

mod asked;
mod given;
mod keeping;
mod laws;
mod sharing;
mod together;
mod walks;

pub use keeping::disjoint;
pub use laws::plans_agree;
pub use sharing::plan_shared;
pub use walks::Walks;
