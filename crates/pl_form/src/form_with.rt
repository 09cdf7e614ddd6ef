// A form by all that it is made of.
ghost use Rattle.std.specs.Prelude.{◌≡◌, ◌%◌, length, true, false, IfOk};
ghost use Rattle.pl_elf.specs.Kinds.{is_library};
ghost use Rattle.pl_form.specs.Back.{wanted};
ghost use Rattle.pl_form.specs.Found.{ps_of};
ghost use Rattle.pl_form.specs.Originals.{AreFoundIn};
ghost use Rattle.pl_form.specs.Reading.{FormWithIfAny, IsMade};

use crate::library_form::library_with;
use crate::program_form::program_with;
use crate::{FormFault, Layout, Marked, STORED, Source};
use std::alloc::{AllocError, Global};

/// The form of a library.
#[tactic(auto, unfolding(crate::specs::Marks::form_with))]
fn of_library(
    alloc: Global,
    marked: &Marked,
    layout: &Layout,
    flat: &[u8],
    digest: &[u8; 32],
) -> Result<Option<Vec<u8>>, AllocError>
    requires made { IsMade marked.now }
    requires found { AreFoundIn marked.now.original layout.now digest.now }
    requires library { is_library marked.now.object.kind ≡ true }
    requires even { marked.now.slot % 2 ≡ 0 }
    requires filled { length flat.now ≡ wanted (ps_of marked.now.original) }
    ensures { IfOk result (FormWithIfAny marked.now flat.now) }
{
    let source = Source {
        original: marked.original.as_slice(),
        object: &marked.object,
        layout,
        digest,
    };
    let Ok(form) = library_with(
        alloc,
        &source,
        marked.slot,
        marked.stamp,
        marked.list.as_slice(),
        flat,
        marked.version,
    ) else {
        return Err(AllocError);
    };
    if form.len() > STORED {
        return Ok(None);
    }
    Ok(Some(form))
}

/// The form of a program.
#[tactic(auto, unfolding(crate::specs::Marks::form_with))]
fn of_program(
    alloc: Global,
    marked: &Marked,
    layout: &Layout,
    flat: &[u8],
    digest: &[u8; 32],
) -> Result<Option<Vec<u8>>, AllocError>
    requires made { IsMade marked.now }
    requires found { AreFoundIn marked.now.original layout.now digest.now }
    requires program { is_library marked.now.object.kind ≡ false }
    requires filled { length flat.now ≡ wanted (ps_of marked.now.original) }
    ensures { IfOk result (FormWithIfAny marked.now flat.now) }
{
    let source = Source {
        original: marked.original.as_slice(),
        object: &marked.object,
        layout,
        digest,
    };
    match program_with(
        alloc,
        &source,
        marked.list.as_slice(),
        flat,
        marked.conflicts.as_slice(),
        marked.version,
    ) {
        Ok(form) => Ok(Some(form)),
        Err(FormFault::TooLarge) => Ok(None),
        Err(_) => Err(AllocError),
    }
}

/// The form of an original of this SHA-256 with its slot, stamp, lists and version, with these bytes at the places; None where it has more than `STORED` bytes.
pub fn form_with(
    alloc: Global,
    marked: &Marked,
    layout: &Layout,
    flat: &[u8],
    digest: &[u8; 32],
) -> Result<Option<Vec<u8>>, AllocError>
    requires made { IsMade marked.now }
    requires found { AreFoundIn marked.now.original layout.now digest.now }
    requires even { is_library marked.now.object.kind ≡ true → marked.now.slot % 2 ≡ 0 }
    requires filled { length flat.now ≡ wanted (ps_of marked.now.original) }
    ensures { IfOk result (FormWithIfAny marked.now flat.now) }
{
    if marked.object.kind.is_library() {
        of_library(alloc, marked, layout, flat, digest)
    } else {
        of_program(alloc, marked, layout, flat, digest)
    }
}
