//! What a run that prelinks everything plans (Jelínek, "Prelink"): the table of a run, with a row for each file of a folder in the order of the files, which says what each is, its walk, what its relocations find, and why it may not be prelinked; and the plan over it: where the libraries go, which names are stale, and the stamp that these get.
//!
//! A name may be prelinked where its walk has no refusal, each member has a form, and a program's members link; it is current where it and each library of its walk are prelinked as they are planned, with lists that tell their walks. What is planned is what law_sound defines of the folder that has the files.
//!
//! Which relocations of a library give the same in every walk of the folder is found once: where at most one symbol of the folder is defined under the hash of the name to which a relocation refers, every walk that holds both objects finds the same symbol (System V gABI chapter 5, "Shared Object Dependencies"). So programs that share libraries look up the remaining ones alone.
#![tactic(auto)]

mod calls;
mod currency;
mod laws;
mod linking;
mod needs;
mod planning;
mod scopes;
mod skip;
mod table;
mod taken;
mod walking;

pub use calls::{Cone, cone_of, prelinkable, row_of};
pub use currency::LAST_STAMP;
pub use laws::{flags_give_one_word, rule_is_one};
pub use linking::{Link, library_link};
pub use planning::{Asked, RowPlan, plan_of};
pub use scopes::{WalkLinking, WalkScope, modules_of, sought};
pub use skip::{ConeFault, PlanningFault, Skip};
pub use table::{RunTable, index_of};
pub use taken::{Taken, take_file};
pub use walking::{FolderWalks, walks_of};
