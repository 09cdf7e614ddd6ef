//! Scopes: the walk over needed libraries, and the look-up of symbols (System V gABI, chapter 5, "Shared Object Dependencies"; GNU symbol versioning).
#![tactic(auto)]

mod ahead;
mod answers;
mod block;
pub mod constants;
mod definers;
mod entries;
mod fault;
mod folder;
mod found;
mod index;
mod kept;
mod laws;
mod lookup;
mod matching;
mod member;
mod numbers;
mod order;
mod probe;
mod reference;
mod scope;
mod scope_index;
mod shared;
mod short_index;
mod sorted;
mod starts;
mod version_index;
mod walks;
mod wanted;

pub use constants::MAX_MEMBERS;
pub use fault::WalkFault;
pub use folder::{Among, Index};
pub use found::Found;
pub use kept::Kept;
pub use laws::{members_tell_walks, members_walk_within, walks_are_closed, walks_are_walks};
pub use lookup::{find, find_among, find_in_lists, own_symbol};
pub use member::Member;
pub use order::Order;
pub use reference::Reference;
pub use scope::Scope;
pub use walks::walk;
