// The words that the files of libraries hold.
ghost use Rattle.std.specs.Prelude.{◌≡◌, ◌<◌, length, IfOk};
ghost use Rattle.pl_base.specs.Bytes.{bytes64};
ghost use Rattle.pl_image.specs.Image.{AreLoaded};
ghost use Rattle.pl_conflict.specs.Held.{HoldsAt};

use crate::rows::held;
use pl_base::word64;
use pl_image::LoadedObject;
use pl_object::Reloc;
use std::alloc::{AllocError, Global};

/// The word that eight bytes are, little-endian.
fn word_in(bytes: &[u8]) -> u64
    requires { length bytes.now ≡ 8 }
    ensures { bytes.now ≡ bytes64 result }
{
    word64(bytes, 0)
}

/// The word that the first object of files holds at the place of a relocation of it, where it is loaded at a place. It fails only for want of memory.
pub fn word_held(
    alloc: Global,
    file: &[LoadedObject<'_>],
    place: u64,
    reloc: &Reloc,
) -> Result<u64, AllocError>
    requires file { AreLoaded file.now }
    requires one { 0 < length file.now }
    ensures { IfOk result (HoldsAt file.now place reloc.now) }
{
    let bytes = held(alloc, file, 0, place.wrapping_add(reloc.address))?;
    Ok(word_in(&bytes))
}
