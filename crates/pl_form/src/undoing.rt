// The original of a prelinked file.
ghost use Rattle.std.specs.Prelude.{◌≡◌, IfOk};

use crate::Marked;
use pl_io::NoMemory;
use std::alloc::Global;

/// The original of a prelinked file, byte for byte. It fails only for want of memory.
pub fn undo(alloc: Global, marked: &Marked) -> Result<Vec<u8>, NoMemory>
    ensures { IfOk result (λ v. v.items ≡ marked.now.original) }
{
    Ok(Vec::from_slice(alloc, marked.original.as_slice())?)
}
