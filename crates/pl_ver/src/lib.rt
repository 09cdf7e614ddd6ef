//! The versions of symbols: the records of GNU symbol versioning (the sections `.gnu.version`, `.gnu.version_d` and `.gnu.version_r`), and acceptance clauses 17 and 18 as far as these sections show them.
#![tactic(auto)]

mod chains;
mod collecting;
pub mod constants;
mod demand;
mod fault;
mod fields;
mod indices;
mod lengths;
mod look_up;
mod read;
mod record;
mod records;
mod versions;

pub use fault::VerFault;
pub use fields::index_of;
pub use look_up::version_of;
pub use read::read_versions;
pub use versions::{VersionName, Versions};
