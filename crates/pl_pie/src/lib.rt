//! Position-independent programs: which files are such programs, the program that one becomes where it is fixed, at an address or where a policy places it in the region of such programs, and how it is loosened again (System V gABI chapter 5, "Program Loading"; GNU extension DF_1_PIE).
#![tactic(auto)]

mod bare_laws;
pub mod constants;
mod fixing;
mod law;
mod links;
mod meets;
mod objects;
mod pie;
mod placed;
mod placing;
mod points;
mod program;
mod unfixing;
mod words;

pub use bare_laws::files_are_bare;
pub use fixing::fix;
pub use law::{
    fixed_file_bears, fixed_file_is_ordinary, fixed_file_is_read, pies_are_placed, unfix_is_exact,
};
pub use pie::is_pie;
pub use placed::fix_placed;
pub use placing::Placing;
pub use program::{FixedParts, FixedProgram};
pub use unfixing::unfix;
