//! What relocations give, and the memory from which a program starts (x86-64 psABI, "Relocation"; Drepper, "ELF Handling for Thread-Local Storage").
#![tactic(auto)]

mod collecting;
mod copies;
mod definer;
mod fault;
mod images;
mod law;
mod link_names;
mod meaning;
mod places;
mod targets;
mod tls;
mod tls_index;
mod values;
mod word;

pub use collecting::meanings;
pub use fault::{LinkFault, OrdinaryFault};
pub use images::{load, ordinary, patches, words};
pub use law::meanings_fit;
pub use link_names::{LinkCause, NamedFault, named_fault};
pub use meaning::Meaning;
pub use places::Places;
pub use values::{reference_of, value, value_of, word_of};
pub use word::Word;
