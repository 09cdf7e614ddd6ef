//! A file that is written beside the others: one that is not firm cannot get another name.
#![tactic(auto)]

mod held;
mod named;
mod states;
mod writing;

pub use held::Held;
pub use named::Named;
pub use states::{Firm, Fresh};
pub use writing::{firm_there, fresh};
