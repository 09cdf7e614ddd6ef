//! The loader: asks for one file of a program's walk after the other, places the objects, and gives the image from which the program starts, or the first cause why there is none (System V gABI, chapter 5).
#![tactic(auto)]

mod bounds;
pub mod constants;
mod fast;
mod fault;
mod file_given;
mod given;
mod linking;
mod loader;
mod modules;
mod object_file;
mod placed;
mod placing;
mod slot_places;
mod standing;
mod started;
mod starting;
mod tls_module;
mod walk_files;

pub use constants::{REGION_END, REGION_START};
pub use fault::LoadFault;
pub use file_given::GivenFile;
pub use given::{given_file, given_if_there};
pub use loader::Loader;
pub use object_file::{Mark, ObjectFile};
pub use placed::Placed;
pub use started::Started;
pub use tls_module::TlsModule;
