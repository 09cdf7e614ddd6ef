//! Programs that are fixed at an address: what the object becomes, and why its image is that of the program loaded there (System V gABI chapter 5; x86-64 psABI, "Relocation").
#![tactic(auto)]

mod law;

pub use law::{each_is_needed, fixed_is_ordinary, two_are_fixed_alike, what_stays};
