// Loads of prelinked files: all files of a set, and a marked library beside a program that is none.
use crate::firm::file_of;
use crate::forms::forms_of;
use crate::marked::{LIBA, P, marked_library};
use crate::running::ran;
use pl_cases::number;
use pl_cli::Status;
use pl_folder::{MemoryFolder, are_files};
use std::alloc::Global;
use std::test::Fail;

/// Whether a run of words over files ends so, and writes this text with a line's end.
fn writes(
    alloc: Global,
    files: &[(String, Vec<u8>)],
    words: &str,
    text: &str,
    wanted: Status,
) -> Result<bool, Fail> {
    if !are_files(files) {
        return Err("names that differ".into());
    }
    let mut folder = MemoryFolder::new(alloc, files, Vec::new(alloc), 100)?;
    let (status, bytes) = ran(alloc, &mut folder, words)?;
    let line_ended = format!(in alloc; "{text}\n")?;
    Ok(status == wanted && bytes.as_slice() == line_ended.as_bytes())
}

/// Loads, parted by empty lines: the number of the set whose files are prelinked, and the words; below them what is written. First all sets; then those with one library, with a library whose symbol another one needs, and with one whose word is copied, where the first page of a slot is busy.
const LOADS: &str = "\
0 --load p\n\
fast\n\
object 0000000000400000 0000000000501000 p\n\
object 0000003000000000 0000003000101000 liba\n\
entry 0000000000400000\n\
word 0000000000500000 0000003000100000\n\
word 0000003000100000 0000000000001111\n\
end\n\
\n\
1 --load q\n\
fast\n\
object 0000000000400000 0000000000501000 q\n\
object 0000003000000000 0000003000101000 libx\n\
object 0000003000202000 0000003000303000 libz\n\
object 0000003000101000 0000003000202000 liby\n\
entry 0000000000400000\n\
word 0000003000100000 000000000000aaaa\n\
word 0000003000302000 0000003000100000\n\
word 0000003000201000 000000000000bbbb\n\
end\n\
\n\
2 --load r\n\
fast\n\
object 0000000000400000 0000000000501000 r\n\
object 0000003000202000 0000003000303000 liby\n\
object 0000003000000000 0000003000101000 libd\n\
object 0000003000101000 0000003000202000 libx\n\
entry 0000000000400000\n\
word 0000000000500008 0000003000302000\n\
word 0000003000302000 000000000000bbbb\n\
word 0000003000100000 0000003000302000\n\
word 0000003000201000 000000000000aaaa\n\
end\n\
\n\
3 --load c\n\
fast\n\
object 0000000000400000 0000000000501000 c\n\
object 0000003000000000 0000003000101000 libm\n\
object 0000003000101000 0000003000202000 libn\n\
entry 0000000000400000\n\
word 0000000000500000 0000003000100004\n\
word 0000003000100000 0000003000201000\n\
word 0000003000201000 0000003000100000\n\
end\n\
\n\
4 --load v\n\
fast\n\
object 0000000000400000 0000000000501000 v\n\
object 0000003000000000 0000003000101000 libv\n\
entry 0000000000400000\n\
word 0000000000500000 0000003000100000\n\
word 0000000000500008 0000003000100008\n\
word 0000000000500010 0000003000100000\n\
word 0000003000100000 0000000000000001\n\
word 0000003000100008 0000000000000002\n\
end\n\
\n\
5 --load t\n\
fast\n\
object 0000000000400000 0000000000501000 t\n\
object 0000003000000000 0000003000101000 libt\n\
object 0000003000101000 0000003000202000 libu\n\
tls 1 0000000000000008 t\n\
tls 2 0000000000000040 libt\n\
tls 3 0000000000000045 libu\n\
entry 0000000000400000\n\
word 0000003000100000 0000000000000002\n\
word 0000003000100008 0000000000000004\n\
word 0000003000100010 ffffffffffffffc4\n\
word 0000003000201000 0000000000000003\n\
word 0000003000201008 ffffffffffffffbe\n\
end\n\
\n\
6 --load k\n\
fast\n\
object 0000000000400000 0000000000501000 k\n\
object 0000003000000000 0000003000101000 libk\n\
entry 0000000000400000\n\
word 0000000000500000 0000000000500010\n\
word 0000000000500008 0000003000100000\n\
word 0000003000100000 0000000000000005\n\
word 0000003000100008 0000000000500010\n\
end\n\
\n\
7 --load tool\n\
fast\n\
object 0000000000400000 0000000000501000 tool\n\
object 0000003000101000 0000003000202000 libtext.so.2\n\
object 0000003000000000 0000003000101000 libsys.so.1\n\
tls 1 0000000000000008 libsys.so.1\n\
entry 0000000000500000\n\
word 0000000000400200 6c2f343662696c2f\n\
word 0000000000400208 2d78756e696c2d64\n\
word 0000000000400210 732e34362d363878\n\
word 0000000000400218 0000000000322e6f\n\
word 0000000000500000 0000003000201010\n\
word 0000000000500008 0000003000100010\n\
word 0000000000500010 000000000000002a\n\
word 0000003000201000 0000003000100010\n\
word 0000003000201008 0000003000201010\n\
word 0000003000100008 fffffffffffffff8\n\
word 0000003000100018 000000000000002a\n\
end\n\
\n\
8 --load y\n\
fast\n\
object 0000000000400000 0000000000501000 y\n\
object 0000003000000000 0000003000101000 libsy\n\
entry 0000000000400000\n\
word 0000003000100008 0000003000100000\n\
end\n\
\n\
9 --load pk\n\
fast\n\
object 0000000000400000 0000000000501000 pk\n\
object 0000003000000000 0000003000101000 libpk\n\
entry 0000000000400000\n\
word 0000003000100000 0000003000100010\n\
word 0000003000100008 0000003000100018\n\
word 0000003000100200 0000003000100000\n\
end\n\
\n\
0 --load p --busy 3000000000-3000001000\n\
slow\n\
object 0000000000400000 0000000000501000 p\n\
object 0000003000001000 0000003000102000 liba\n\
entry 0000000000400000\n\
word 0000000000500000 0000003000101000\n\
word 0000003000101000 0000000000001111\n\
end\n\
\n\
1 --load q --busy 3000000000-3000001000\n\
slow\n\
object 0000000000400000 0000000000501000 q\n\
object 0000003000303000 0000003000404000 libx\n\
object 0000003000202000 0000003000303000 libz\n\
object 0000003000101000 0000003000202000 liby\n\
entry 0000000000400000\n\
word 0000003000403000 000000000000aaaa\n\
word 0000003000302000 0000003000403000\n\
word 0000003000201000 000000000000bbbb\n\
end\n\
\n\
2 --load r --busy 3000000000-3000001000\n\
slow\n\
object 0000000000400000 0000000000501000 r\n\
object 0000003000202000 0000003000303000 liby\n\
object 0000003000303000 0000003000404000 libd\n\
object 0000003000101000 0000003000202000 libx\n\
entry 0000000000400000\n\
word 0000000000500008 0000003000302000\n\
word 0000003000302000 000000000000bbbb\n\
word 0000003000403000 0000003000302000\n\
word 0000003000201000 000000000000aaaa\n\
end";

/// The number of a case and its words, and what is written.
fn head_of(case: &str) -> Result<(u64, &str, &str), Fail> {
    let (head, text) = case.split_once('\n').ok_or("a text")?;
    let (digits, words) = head.split_once(' ').ok_or("a number and words")?;
    Ok((number(digits)?, words, text))
}

/// Whether the load of a case writes what it says.
fn is_loaded(alloc: Global, case: &str) -> Result<bool, Fail> {
    let (set, words, text) = head_of(case)?;
    let files = forms_of(alloc, set)?;
    writes(alloc, &files, words, text, Status::Done)
}

#[test]
fn loads_prelinked_files(rt: HostRuntime) -> Result<(), Fail> {
    for case in LOADS.split("\n\n") {
        if !is_loaded(rt.alloc(), case)? {
            return Err(case.into());
        }
    }
    Ok(())
}

/// Loads of a program beside a marked library, parted by empty lines: the library's slot, in hexadecimal, and the words; below them what is written.
const MIXED: &str = "\
3000101000 --load p\n\
slow\n\
object 0000000000400000 0000000000501000 p\n\
object 0000003000101000 0000003000202000 liba\n\
entry 0000000000400000\n\
word 0000000000500000 0000003000201000\n\
word 0000003000201000 0000000000001111\n\
end\n\
\n\
3000000000 --load p --busy 3000000000-3000001000\n\
slow\n\
object 0000000000400000 0000000000501000 p\n\
object 0000003000001000 0000003000102000 liba\n\
entry 0000000000400000\n\
word 0000000000500000 0000003000101000\n\
word 0000003000101000 0000000000001111\n\
end";

/// A program as it was built, and a marked library with these bytes behind its end.
fn mixed(alloc: Global, slot: u64, more: &[u8]) -> Result<Vec<(String, Vec<u8>)>, Fail> {
    let mut form = marked_library(alloc, &file_of(alloc, LIBA)?, slot, 5)?;
    form.extend_from_slice(more)?;
    let mut files = Vec::new(alloc);
    files.push((String::from_str(alloc, "liba")?, form))?;
    files.push((String::from_str(alloc, "p")?, file_of(alloc, P)?))?;
    Ok(files)
}

/// Whether the load of a case writes what it says.
fn is_loaded_beside(alloc: Global, case: &str) -> Result<bool, Fail> {
    let (slot, words, text) = head_of(case)?;
    let files = mixed(alloc, slot, b"")?;
    writes(alloc, &files, words, text, Status::Done)
}

/// Whether a marked library with a byte behind its end is refused.
fn refuses_a_longer_form(alloc: Global) -> Result<bool, Fail> {
    let files = mixed(alloc, 0x30_0000_0000, b"1")?;
    writes(
        alloc,
        &files,
        "--load p",
        "refused BadMark liba",
        Status::Refused,
    )
}

#[test]
fn loads_a_marked_library(rt: HostRuntime) -> Result<(), Fail> {
    for case in MIXED.split("\n\n") {
        if !is_loaded_beside(rt.alloc(), case)? {
            return Err(case.into());
        }
    }
    assert!(rt; refuses_a_longer_form(rt.alloc())?);
    Ok(())
}
