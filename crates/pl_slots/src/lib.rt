//! The plan of slots: which address range each library gets in the region, and the holes that are left.
#![tactic(auto)]

mod apart;
mod fault;
mod holes;
mod partial_plan;
mod planning;
mod slot;

pub use apart::{are_apart, is_beside};
pub use fault::PlanFault;
pub use holes::{first_address, greatest, lowest_place, region_holes, without};
pub use planning::{kept_row, plan};
pub use slot::{Slot, Want};
