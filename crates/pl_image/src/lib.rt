//! Images: what objects load into memory, patches over it, and 0 at the bytes of link tables; and the lines of their words.
#![tactic(auto)]

mod image;
mod image_text;
mod lines;
mod loaded_object;
mod loading;
mod mask;
mod masked;
mod parts;
mod patch;
mod patched;
mod piece;
mod place;
mod ranges;
mod touched;

pub use image::{Image, loaded_byte};
pub use loaded_object::LoadedObject;
pub use loading::{load_mask, load_object, load_pieces};
pub use mask::{Load, Mask};
pub use parts::Parts;
pub use patch::Patch;
pub use patched::{Patched, Patches, read_loaded};
pub use piece::Piece;
pub use ranges::{apart, near};
