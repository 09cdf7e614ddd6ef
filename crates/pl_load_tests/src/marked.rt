// Marked files: forms of recipes, forms with changed bytes, and false marks.
ghost use Rattle.std.specs.Prelude.{◌<◌, length, IfSome};
ghost use Rattle.pl_form.specs.Library.{IsFirmLibrary};
ghost use Rattle.pl_form.specs.Program.{IsFirmProgram};

use crate::firm::{file_of, fills_of, object_of};
use pl_base::{word16, word64};
use pl_cases::{bytes_of, number, parts};
use pl_form::{File, FileFault, Marked, Version, form_library, form_program, read_file, undo};
use pl_object::{Object, Refusal};
use std::alloc::{AllocError, Global};
use std::test::Fail;

const ONE: &str = "program; data 10; word 8 7; rel relative 0 - 8";

pub const LIBA: &str = "library; data 8; word 0 1111; def f global func 0 8";

pub const P: &str = "program; needs liba; data 8; ref f global func; rel globdat 0 f 0";

const SLOT: u64 = 0x30_0000_0000;

const STAMP: u32 = 1001;

/// The form of a library without words and other libraries.
fn library_form(
    alloc: Global,
    file: &[u8],
    object: &Object,
    slot: u64,
    stamp: u32,
    version: Version,
) -> Result<Vec<u8>, Fail>
    requires { IsFirmLibrary file.now object.now }
{
    if slot % 2 != 0 {
        return Err("an even slot".into());
    }
    let mut words = Vec::new(alloc);
    words.resize(object.relocations.len(), None)?;
    Ok(form_library(alloc, file, object, slot, stamp, &[], &words, version)?)
}

/// The form of a library's file without words and other libraries.
pub fn marked_library(alloc: Global, file: &[u8], slot: u64, stamp: u32) -> Result<Vec<u8>, Fail> {
    let object = object_of(alloc, file)?;
    if !object.kind.is_library() {
        return Err("a library".into());
    }
    library_form(alloc, file, &object, slot, stamp, Version::Two)
}

/// The form of a program without other files.
fn program_form(
    alloc: Global,
    file: &[u8],
    object: &Object,
    version: Version,
) -> Result<Vec<u8>, Fail>
    requires { IsFirmProgram file.now object.now }
{
    let fills = fills_of(alloc, object.relocations.as_slice(), None)?;
    Ok(form_program(alloc, file, object, &[], &fills, &[], version)?)
}

/// The form of a file.
fn form_of(alloc: Global, file: &[u8], version: Version) -> Result<Vec<u8>, Fail> {
    let object = object_of(alloc, file)?;
    if object.kind.is_library() {
        library_form(alloc, file, &object, SLOT, STAMP, version)
    } else {
        program_form(alloc, file, &object, version)
    }
}

/// What is read of a file of at most 1 MiB.
fn read(alloc: Global, file: &[u8]) -> Result<File, FileFault> {
    if file.len() > 0x10_0000 {
        return Err(FileFault::Refused(Refusal::NoMemory));
    }
    read_file(alloc, file)
}

/// The stamp that is read of a form, `-` where the mark is bad; its recipe; and, where it is changed, how far behind the start of a pattern that stands in it bytes are put, the pattern and the bytes, all in hexadecimal. In turn: forms as they are; the original's length; the stamp, past 32 bits and within; the word at a program's place; the name of the undo section, where a prelink tag is left; the first byte of the undo section, and its slot.
const ROWS: &str = "\
0: program; data 10; word 8 7; rel relative 0 - 8: 0:\n\
3e9: library; data 8; word 0 1111; def f global func 0 8: 0:\n\
0: program; needs liba; data 8; ref f global func; rel globdat 0 f 0: 0:\n\
-: library; data 8; word 0 1111; def f global func 0 8: 20: 50 4c 55 4e 44 4f 30/ff ff ff ff ff ff ff ff\n\
-: library; data 8; word 0 1111; def f global func 0 8: 8: f5 fd ff 6f 00 00 00 00/00 00 00 00 01 00 00 00\n\
4d: library; data 8; word 0 1111; def f global func 0 8: 8: f5 fd ff 6f 00 00 00 00/4d 00 00 00 00 00 00 00\n\
0: program; needs liba; data 8; ref f global func; rel globdat 0 f 0: 0: a7 a7 a7 a7 a7 a7 a7 a7/01 02\n\
-: program; needs liba; data 8; ref f global func; rel globdat 0 f 0: 1: 2e 67 6e 75 2e 70 72 65 6c 69 6e 6b 5f 75 6e 64 6f/47\n\
-: library; data 8; word 0 1111; def f global func 0 8: 0: 50 4c 55 4e 44 4f 30/51\n\
-: library; data 8; word 0 1111; def f global func 0 8: 8: 50 4c 55 4e 44 4f 30/01\n\
-: program; needs liba; data 8; ref f global func; rel globdat 0 f 0: 8: 50 4c 55 4e 44 4f 30/02";

const UNDO: &[u8] = b"PLUNDO0";

/// Where a pattern stands first.
pub fn find(bytes: &[u8], pattern: &[u8]) -> Option<usize>
    ensures { IfSome result (λ at. at < length bytes.now) }
{
    for at in 0..bytes.len() {
        if bytes[at..].starts_with(pattern) {
            return Some(at);
        }
    }
    None
}

/// Puts bytes over those from an offset on, where there are as many.
fn write(file: &mut [u8], at: usize, new: &[u8]) {
    if at <= file.len() && new.len() <= file.len() - at {
        file[at..at + new.len()].copy_from_slice(new);
    }
}

/// Puts bytes so far behind the start of a pattern, where there is one.
fn change(alloc: Global, form: &mut [u8], offset: u64, change: &str) -> Result<(), Fail> {
    let Some((pattern, new)) = change.split_once('/') else {
        return Ok(());
    };
    if let Some(at) = find(form, &bytes_of(alloc, pattern)?) {
        write(
            form,
            at.saturating_add(offset as usize),
            &bytes_of(alloc, new)?,
        );
    }
    Ok(())
}

/// Whether a form is read as a form of the file, with this stamp and of this version.
fn gives_back(
    alloc: Global,
    marked: &Marked,
    file: &[u8],
    stamp: u64,
    version: Version,
) -> Result<bool, Fail> {
    let original = undo(alloc, marked)?;
    let is_same = u64::from(marked.stamp) == stamp && marked.version == version;
    Ok(is_same && original.as_slice() == file)
}

/// Whether what is read of a form is what a word says: a stamp, with the file as its original, or a bad mark where it is `-`.
fn is_read(
    alloc: Global,
    wanted: &str,
    read: &Result<File, FileFault>,
    file: &[u8],
    version: Version,
) -> Result<bool, Fail> {
    match read {
        Ok(File::Marked(marked)) => {
            Ok(wanted != "-" && gives_back(alloc, marked, file, number(wanted)?, version)?)
        }
        Err(FileFault::BadMark) => Ok(wanted == "-"),
        _ => Ok(false),
    }
}

/// Whether the changed form of a line is read as it says.
fn is_read_as_stated(alloc: Global, line: &str, version: Version) -> Result<bool, Fail> {
    let (wanted, row) = parts(line)?;
    let (recipe, row) = parts(row)?;
    let (offset, changed) = parts(row)?;
    let file = file_of(alloc, recipe)?;
    let mut form = form_of(alloc, &file, version)?;
    change(alloc, form.as_mut_slice(), number(offset)?, changed)?;
    is_read(alloc, wanted, &read(alloc, &form), &file, version)
}

#[test]
fn false_marks(rt: HostRuntime) -> Result<(), Fail> {
    for line in ROWS.lines() {
        if !is_read_as_stated(rt.alloc(), line, Version::One)?
            || !is_read_as_stated(rt.alloc(), line, Version::Two)?
        {
            return Err(line.into());
        }
    }
    Ok(())
}

/// Whether the form of a library without its last byte is refused by clause 5.
fn is_refused_when_cut(alloc: Global, version: Version) -> Result<bool, Fail> {
    let form = form_of(alloc, &file_of(alloc, LIBA)?, version)?;
    let cut = &form[..form.len().saturating_sub(1)];
    match read(alloc, cut) {
        Err(FileFault::Refused(Refusal::Clause { number, .. })) => Ok(number == 5),
        _ => Ok(false),
    }
}

#[test]
fn without_last_byte(rt: HostRuntime) -> Result<(), Fail> {
    assert!(rt; is_refused_when_cut(rt.alloc(), Version::One)?);
    assert!(rt; is_refused_when_cut(rt.alloc(), Version::Two)?);
    Ok(())
}

/// Where the undo section of a form ends, by its own numbers.
fn undo_end(form: &[u8]) -> Option<usize> {
    let at = find(form, UNDO)?;
    let section = &form[at..];
    if section.len() < 144 {
        return None;
    }
    let header = if section[7] == b'1' { 48 } else { 80 };
    let rows = 64
        + 56 * usize::from(word16(section, header + 56))
        + 64 * usize::from(word16(section, header + 60));
    let kept = word64(section, 40);
    if kept > section.len() as u64 {
        return None;
    }
    at.checked_add(header + rows + kept as usize)
}

/// In how many places two files of one length differ.
fn differences(file: &[u8], other: &[u8]) -> Option<usize> {
    if file.len() != other.len() {
        return None;
    }
    Some(
        file.iter()
            .zip(other)
            .filter(|pair| pair.0 != pair.1)
            .count(),
    )
}

/// The form of a program whose last kept byte is another one.
fn spoiled(alloc: Global, file: &[u8], version: Version) -> Result<Vec<u8>, Fail> {
    let mut form = form_of(alloc, file, version)?;
    let end = undo_end(&form).ok_or("an undo section")?;
    write(form.as_mut_slice(), end.saturating_sub(1), b"\x01");
    Ok(form)
}

/// In how many bytes the original of the spoiled form of version 1 is another one; version 2 has a digest, and refuses it.
fn spoiled_bytes(alloc: Global) -> Result<Option<usize>, Fail> {
    let file = file_of(alloc, ONE)?;
    let Ok(File::Marked(marked)) = read(alloc, &spoiled(alloc, &file, Version::One)?) else {
        return Err("a form".into());
    };
    Ok(differences(&file, marked.original.as_slice()))
}

#[test]
fn last_kept_byte(rt: HostRuntime) -> Result<(), Fail> {
    let alloc = rt.alloc();
    assert_eq!(rt; spoiled_bytes(alloc)?, Some(1));
    let second = spoiled(alloc, &file_of(alloc, ONE)?, Version::Two)?;
    assert!(rt; matches!(read(alloc, &second), Err(FileFault::BadMark)));
    Ok(())
}

const RECIPES: &str = "\
program; data 10; word 8 7; rel relative 0 - 8\n\
library; data 8; word 0 1111; def f global func 0 8\n\
program; needs liba; data 8; ref f global func; rel globdat 0 f 0\n\
library; data 10; word 0 5; def h global func 0 8; rel globdat 8 h 0\n\
program; needs libk; data 18; ref h global func at 10; rel globdat 0 h 0; rel jumpslot 8 h 0\n\
library; version V1; version V2; data 10; word 0 1; word 8 2; def foo@V1 global func 0 8; def foo@@V2 global func 8 8\n\
program; needs libv; data 18; ref foo@V1 global func from libv; ref foo@V2 global func from libv; ref foo global func; rel globdat 0 foo@V1 0; rel globdat 8 foo@V2 0; rel globdat 10 foo 0\n\
library; usual; hash both; data 18; bss 20; tls 0 0 8 40; def a global tls 4 4; rel dtpmod 0 a 0; rel dtpoff 8 a 0; rel tpoff 10 a 0\n\
library; data 210; rel packed 0 - 10; rel packed 8 - 18; rel packed 200 - 0\n\
program; usual; needs libe; bss 10; def x global object 0 10; rel copy 0 x 0";

/// The form with one byte changed.
fn changed(alloc: Global, form: &[u8], number: usize) -> Result<Vec<u8>, AllocError> {
    let mut file = Vec::from_slice(alloc, form)?;
    let at = number.wrapping_mul(7919) % file.len().max(1);
    if let Some(byte) = file.get_mut(at) {
        *byte ^= 1 + (number % 255) as u8;
    }
    Ok(file)
}

/// Whether each of a hundred changes of one byte leaves a form of the same original, or no form.
fn keeps_its_original(alloc: Global, file: &[u8], form: &[u8]) -> Result<bool, Fail> {
    for number in 0..100 {
        let other = changed(alloc, form, number)?;
        if let Ok(File::Marked(marked)) = read(alloc, &other) {
            if marked.original.as_slice() != file {
                return Ok(false);
            }
        }
    }
    Ok(true)
}

#[test]
fn a_thousand_changes(rt: HostRuntime) -> Result<(), Fail> {
    for recipe in RECIPES.lines() {
        let file = file_of(rt.alloc(), recipe)?;
        let form = form_of(rt.alloc(), &file, Version::Two)?;
        if !keeps_its_original(rt.alloc(), &file, &form)? {
            return Err(recipe.into());
        }
    }
    Ok(())
}
