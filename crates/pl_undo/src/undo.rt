ghost use Rattle.std.specs.Prelude.{◌≡◌};
ghost use Rattle.pl_undo.specs.Section as section;

use crate::constants::{DIGEST_AT, DIGEST_SIZE, HEADERS_AT};
use pl_base::Rows;

/// What a prelinked file keeps of its original.
#[derive(Drop)]
pub struct Undo {
    /// The address by which a library was moved; 0 for a program.
    pub slot: u64,

    /// File offset in the original from which bytes were inserted; the original's length for a library.
    pub cut: u64,

    /// How many bytes were inserted there; 0 for a library.
    pub shift: u64,

    /// The original's length in bytes.
    pub length: u64,

    /// The original's header, program header table and section header table, one after the other.
    pub headers: Rows<u8>,

    /// The original's bytes at the places that were changed.
    pub kept: Rows<u8>,

    /// The original's SHA-256 in version 2 of the section; None in version 1.
    pub digest: Option<[u8; DIGEST_SIZE]>,
}

/// Where the headers begin in a section, in bytes.
pub fn headers_at(digest: &Option<[u8; DIGEST_SIZE]>) -> usize
    ensures { result ≡ section.headers_at digest.now }
{
    match digest {
        None => DIGEST_AT,
        Some(_) => HEADERS_AT,
    }
}
