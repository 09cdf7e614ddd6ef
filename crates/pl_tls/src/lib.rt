//! The module numbers and offsets of static thread-local storage, variant II (x86-64 psABI, section 3.4.2 and "Thread-Local Storage"; Drepper, "ELF Handling for Thread-Local Storage").
#![tactic(auto)]

mod block;
mod fault;
mod layout;
mod module;

pub use block::Block;
pub use fault::TlsFault;
pub use layout::offsets;
pub use module::Module;

/// The greatest offset of a module in bytes, 2^30.
pub const OFFSET_LIMIT: u64 = 0x4000_0000;
