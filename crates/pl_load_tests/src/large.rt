// The longest form.
ghost use Rattle.pl_form.specs.Program.{IsFirmProgram};

use crate::firm::{file_of, object_of};
use pl_form::{FormFault, Version, form_program};
use pl_lists::ConflictRow;
use pl_object::Object;
use std::alloc::{AllocError, Global};
use std::test::Fail;

// Without a conflict the form of this program has 6,640 bytes, and with an even number of them 24 more for each.
const RECIPE: &str = "program; data 8";

// How many conflicts a form of 256 MiB has.
const FITTING: u64 = 11_184_534;

/// So many conflicts at ascending addresses.
fn conflicts(alloc: Global, count: u64) -> Result<Vec<ConflictRow>, AllocError> {
    let mut rows = Vec::new(alloc);
    for address in 0..count {
        rows.push(ConflictRow { address, word: 0 })?;
    }
    Ok(rows)
}

/// How many bytes a program's form with so many conflicts has, None where it is too large.
fn length_with(
    alloc: Global,
    file: &[u8],
    object: &Object,
    count: u64,
) -> Result<Option<usize>, Fail>
    requires { IsFirmProgram file.now object.now }
{
    if !object.relocations.as_slice().is_empty() {
        return Err("no relocations".into());
    }
    let rows = conflicts(alloc, count)?;
    match form_program(alloc, file, object, &[], &[], &rows, Version::Two) {
        Ok(form) => Ok(Some(form.len())),
        Err(FormFault::TooLarge) => Ok(None),
        Err(fault) => Err(fault.into()),
    }
}

#[test]
fn longest_form(rt: HostRuntime) -> Result<(), Fail> {
    let alloc = rt.alloc();
    let file = file_of(alloc, RECIPE)?;
    let object = object_of(alloc, &file)?;
    if object.kind.is_library() {
        return Err("a program".into());
    }
    assert_eq!(rt; length_with(alloc, &file, &object, 0)?, Some(6640));
    assert_eq!(rt;
        length_with(alloc, &file, &object, FITTING)?,
        Some(268_435_456)
    );
    assert_eq!(rt; length_with(alloc, &file, &object, FITTING + 1)?, None);
    Ok(())
}
