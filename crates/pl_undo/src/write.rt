ghost use Rattle.std.specs.Prelude.{◌≡◌, ◌++◌, true, IfOk, OnOk};
ghost use Rattle.pl_undo.specs.Section as section;

use crate::Undo;
use crate::constants::{DIGEST_SIZE, UNDO_MAGIC, UNDO_MAGIC_2};
use pl_base::push64;
use pl_io::NoMemory;
use std::alloc::{AllocError, Global};

fn magic(digest: &Option<[u8; DIGEST_SIZE]>) -> [u8; 8]
    ensures { result ≡ section.magic digest.now }
{
    match digest {
        None => UNDO_MAGIC,
        Some(_) => UNDO_MAGIC_2,
    }
}

fn push_digest(bytes: &mut Vec<u8>, digest: &Option<[u8; DIGEST_SIZE]>) -> Result<(), AllocError>
    ensures { OnOk result (bytes.new.items ≡ bytes.old.items ++ section.digest_bytes digest.now) }
{
    if let Some(digest) = digest {
        bytes.extend_from_slice(digest)?;
    }
    Ok(())
}

/// The bytes of an undo section, in version 2 exactly where there is a digest. Where the headers are as long as the header among them says and the numbers fit its type, they are the value's one spelling, which `read_undo` reads.
#[tactic(auto, unfolding(crate::specs::Section::undo_bytes))]
pub fn write_undo(alloc: Global, undo: &Undo) -> Result<Vec<u8>, NoMemory>
    ensures value { IfOk result (λ bytes. bytes.items ≡ section.undo_bytes undo.now) }
    ensures spelled { IfOk result (λ bytes. section.is_undo undo.now ≡ true
        → section.IsUndoOf bytes.items undo.now) }
{
    let mut bytes = magic(&undo.digest).to_vec(alloc)?;
    push64(&mut bytes, undo.slot)?;
    push64(&mut bytes, undo.cut)?;
    push64(&mut bytes, undo.shift)?;
    push64(&mut bytes, undo.length)?;
    push64(&mut bytes, undo.kept.len() as u64)?;
    push_digest(&mut bytes, &undo.digest)?;
    bytes.extend_from_slice(undo.headers.as_slice())?;
    bytes.extend_from_slice(undo.kept.as_slice())?;
    Ok(bytes)
}
