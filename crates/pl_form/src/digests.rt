// The SHA-256 of the original of a prelinked file.
ghost use Rattle.std.specs.Prelude.{◌≡◌, IfOk, Some};
ghost use Rattle.pl_form.specs.Files.{marked_in};
ghost use Rattle.pl_form.specs.Reading as spec;
ghost use Rattle.sha2.specs.Sha256.{sha256};

use crate::Marked;
use crate::back::find_undo;
use crate::library_form::digest_of;
use pl_undo::{DIGEST_SIZE, Undo};
use std::alloc::{AllocError, Global};

/// The digest that an undo section keeps, if it keeps one.
fn digest_kept(undo: Option<Undo>) -> Option<[u8; DIGEST_SIZE]>
    ensures { result ≡ spec.digest_kept undo }
{
    match undo {
        None => None,
        Some(undo) => undo.digest,
    }
}

/// The SHA-256 of the original of a prelinked file: the one that its undo section keeps, and where that keeps none it is made. `read_file` gave for the file what it is made of. It fails only for want of memory.
pub fn original_digest(alloc: Global, file: &[u8], marked: &Marked) -> Result<[u8; 32], AllocError>
    requires { marked_in file.now ≡ Some marked.now }
    ensures { IfOk result (λ digest. digest ≡ sha256 marked.now.original) }
{
    let undo = find_undo(alloc, file)?;
    match digest_kept(undo) {
        None => Ok(digest_of(marked.original.as_slice())),
        Some(digest) => Ok(digest),
    }
}
