// What a file is.
ghost use Rattle.std.specs.Prelude.{◌≡◌, ◌<◌, ◌^◌, length, IfErr, IfOk};
ghost use Rattle.pl_base.specs.Answers.{Answers};
ghost use Rattle.pl_form.specs.Files as whole;
ghost use Rattle.pl_form.specs.Marks as spec;

use crate::has_mark::has_mark;
use crate::read::marked_of;
use crate::{File, FileFault};
use pl_object::accept;
use std::alloc::{AllocError, Global};

/// Whether a file of fewer than 2^32 bytes bears a mark of a prelinked one: clauses 1 to 8 of acceptance hold, and there is a section `.gnu.prelink_undo`, or a prelink tag in a dynamic table of which clause 9 holds. It fails only for want of memory.
pub fn bears_mark(alloc: Global, bytes: &[u8]) -> Result<bool, AllocError>
    requires { length bytes.now < 2 ^ 32 }
    ensures { IfOk result (λ b. b ≡ spec.has_mark bytes.now) }
{
    has_mark(alloc, bytes)
}

/// What a file of fewer than 2^32 bytes is.
///
/// Marked comes exactly where the file is a form, with its one original, slot, stamp, checksum, list, conflicts and version. BadMark comes exactly where it is no form and bears a mark: clauses 1 to 8 of acceptance hold, and there is a section `.gnu.prelink_undo`, or a prelink tag in a dynamic table of which clause 9 holds. Any other file is Plain where it is accepted, else Refused by the first clause that refuses it.
pub fn read_file(alloc: Global, bytes: &[u8]) -> Result<File, FileFault>
    requires { length bytes.now < 2 ^ 32 }
    // What is answered is so.
    ensures is { IfOk result (λ file. spec.IsFile bytes.now file) }
    ensures refused { IfErr result (λ fault. spec.IsFault bytes.now fault) }
    // It is a function of the bytes, unless there is no memory.
    ensures exact { Answers spec.file_fault_is_memory result (whole.file_in bytes.now) }
    // The program headers of a form lie in it, and have the original's segments.
    ensures segments { IfOk result (λ file. whole.BearsIfMarked bytes.now file) }
{
    if let Some(marked) = marked_of(alloc, bytes)? {
        return Ok(File::Marked(marked));
    }
    if has_mark(alloc, bytes)? {
        return Err(FileFault::BadMark);
    }
    match accept(alloc, bytes) {
        Ok(object) => Ok(File::Plain(object)),
        Err(refusal) => Err(FileFault::Refused(refusal)),
    }
}
