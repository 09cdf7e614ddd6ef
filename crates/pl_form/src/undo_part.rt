// The undo section of a form.
ghost use Rattle.std.specs.Prelude.{◌≡◌, ◌≤◌, ◌++◌, length, IfOk};
ghost use Rattle.pl_base.specs.Windows.{within};
ghost use Rattle.pl_elf.specs.Headers.{header};
ghost use Rattle.pl_form.specs.Back as back;
ghost use Rattle.pl_form.specs.Forms as forms;
ghost use Rattle.pl_form.specs.Originals.{original};

use crate::places::push_all_memory;
use crate::windows::all_bytes;
use crate::{FormPlan, Layout};
use pl_base::{Rows, part};
use pl_elf::constants::{HEADER_SIZE, SECTION_SIZE, SEGMENT_SIZE};
use pl_elf::{Header, header_fields};
use pl_io::NoMemory;
use pl_object::Window;
use pl_undo::{DIGEST_SIZE, Undo, write_undo};
use std::alloc::{AllocError, Global};

/// The header and the two tables that it names.
pub fn head_windows(header: &Header) -> [Window; 3]
    ensures { result ≡ back.head_windows header.now }
{
    [
        Window::new(0, HEADER_SIZE as u64),
        Window::new(
            u128::from(header.phoff),
            SEGMENT_SIZE as u64 * u64::from(header.phnum),
        ),
        Window::new(
            u128::from(header.shoff),
            SECTION_SIZE as u64 * u64::from(header.shnum),
        ),
    ]
}

fn headers(alloc: Global, bytes: &[u8]) -> Result<Vec<u8>, AllocError>
    requires { 64 ≤ length bytes.now }
    ensures { IfOk result (λ v. v.items ≡ back.headers_of bytes.now) }
{
    all_bytes(alloc, &head_windows(&header_fields(bytes)), bytes)
}

/// The bytes of the dynamic table, and those of memory at all places.
fn kept(alloc: Global, bytes: &[u8], layout: &Layout) -> Result<Vec<u8>, AllocError>
    ensures { IfOk result (λ v. v.items ≡ within layout.now.dynamic bytes.now
        ++ back.memory_of layout.now.spots bytes.now) }
{
    let dynamic = part(bytes, layout.dynamic.at(), layout.dynamic.size());
    let mut kept = Vec::from_slice(alloc, dynamic)?;
    push_all_memory(&mut kept, bytes, layout.spots.as_slice())?;
    Ok(kept)
}

/// The bytes of the undo section of a form: version 2 where there is a digest, else version 1.
pub fn undo_part(
    alloc: Global,
    bytes: &[u8],
    layout: &Layout,
    plan: &FormPlan,
    digest: Option<[u8; DIGEST_SIZE]>,
) -> Result<Vec<u8>, NoMemory>
    requires { 64 ≤ length bytes.now }
    ensures { IfOk result (λ v. v.items ≡ forms.undo_part plan.now (original bytes.now layout.now)
        digest) }
{
    let undo = Undo {
        slot: plan.slot,
        cut: plan.cut as u64,
        shift: plan.more.len() as u64,
        length: bytes.len() as u64,
        headers: Rows::from_vec(headers(alloc, bytes)?),
        kept: Rows::from_vec(kept(alloc, bytes, layout)?),
        digest,
    };
    write_undo(alloc, &undo)
}
