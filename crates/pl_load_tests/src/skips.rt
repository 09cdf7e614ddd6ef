// What is in the way of a program's form, at its borders, by the line that a run prints.
use crate::firm::file_of;
use crate::running::ran;
use pl_base::put64;
use pl_cases::{numbers, parts};
use pl_folder::{MemoryFolder, are_files};
use std::alloc::Global;
use std::test::Fail;

/// The number of what is in the way, 0 where nothing is; the region; what is changed in a file; and its recipe. The file of `program; data 8` has program headers from 40 on, its tables up to 4e0, the data from 1000 to 1008, the section names up to 103d, and eight section headers from 1040 to 1240, of which the data's is number 5. A change is words, each behind its offset, or a fourth program header: its type, where its bytes begin and how many they are; all in hexadecimal. In turn: nothing; spare tags; the zeros of the last segment; program headers that end with the last segment's bytes, and eight bytes behind them; a note that ends with the last segment's bytes, passes them by one, and begins behind them; a section of the data that passes the last segment's bytes by one; a last segment whose bytes end in the section names, with them, with the first section header's beginning, in it, in the last one, and with it; a region that ends where the program begins, and a page later; one that begins 2 MiB behind the program's memory, and a page before; a last segment that stands in the file before the one of the data, and without bytes at the same offset.
const ROWS: &str = "\
0 3000000000-4000000000: -: program; data 8\n\
0 3000000000-4000000000: -: program; spare 4; data 8\n\
1 3000000000-4000000000: -: program; spare 3; data 8\n\
0 3000000000-4000000000: -: program; data 8; bss 1000000\n\
2 3000000000-4000000000: -: program; data 8; bss 1000001\n\
2 500000-600000: -: program; data 8; bss 1000001\n\
0 3000000000-4000000000: words 20 1000: headers\n\
3 3000000000-4000000000: words 20 1000  1058 a0  1240 a0: headers\n\
0 3000000000-4000000000: header 4 1000 8: program; data 8\n\
3 3000000000-4000000000: header 4 1000 9: program; data 8\n\
0 3000000000-4000000000: header 4 1008 9: program; data 8\n\
3 3000000000-4000000000: words 11a0 9: program; data 8\n\
3 500000-600000: words 11a0 9: program; data 8\n\
3 3000000000-4000000000: header 1 1038 4: program; data 8\n\
0 3000000000-4000000000: header 1 1038 5: program; data 8\n\
0 3000000000-4000000000: header 1 1038 8: program; data 8\n\
3 3000000000-4000000000: header 1 1038 9: program; data 8\n\
3 3000000000-4000000000: header 1 1038 207: program; data 8\n\
0 3000000000-4000000000: header 1 1038 208: program; data 8\n\
0 100000-400000: -: program; data 8\n\
4 100000-401000: -: program; data 8\n\
0 701000-900000: -: program; data 1000\n\
4 700000-900000: -: program; data 1000\n\
5 3000000000-4000000000: header 1 500 8: program; data 8\n\
4 500000-600000: header 1 500 8: program; data 8\n\
0 3000000000-4000000000: header 1 1000 0: program; data 8";

/// A program whose data is a copy of the program headers, of the name `headers`.
const HEADERS: &str =
    "program; data a8; word 0 400000001; word 10 400000; word 18 400000; word 20 4e0; word 28 4e0; word 30 1000; word 38 600000001; word 40 1000; word 48 500000; word 50 500000; word 58 a8; word 60 a8; word 68 1000; word 70 600000002; word 78 430; word 80 400430; word 88 400430; word 90 b0; word 98 b0; word a0 8";

fn recipe_of(text: &str) -> &str {
    if text == "headers" { HEADERS } else { text }
}

/// Puts words into a file, each at the offset before it.
fn put_words(file: &mut [u8], words: &[u64]) -> Result<(), Fail> {
    for word in words.chunks(2) {
        let [at, number] = word else {
            return Err("an offset and a word".into());
        };
        let at = *at as usize;
        if file.len() < 8 || at > file.len() - 8 {
            return Err("an offset in the file".into());
        }
        put64(file, at, *number);
    }
    Ok(())
}

/// Puts a fourth program header behind three. Its segment has eight bytes more in memory, at addresses from 600000 on.
fn put_header(file: &mut [u8], header: &[u64]) -> Result<(), Fail> {
    let [kind, offset, size] = header else {
        return Err("a type, an offset and a size".into());
    };
    let address = offset.saturating_add(0x60_0000);
    put_words(
        file,
        &[
            0x38,
            0x0007_0008_0040_0004,
            0xe8,
            0x0000_0004_0000_0000 | *kind,
            0xf0,
            *offset,
            0xf8,
            address,
            0x100,
            address,
            0x108,
            *size,
            0x110,
            size.saturating_add(8),
            0x118,
            0x1000,
        ],
    )
}

/// Makes the change of a line.
fn make_change(alloc: Global, file: &mut [u8], change: &str) -> Result<(), Fail> {
    let Some((kind, text)) = change.split_once(' ') else {
        return Ok(());
    };
    let values = numbers(alloc, text)?;
    if kind == "words" {
        put_words(file, &values)
    } else {
        put_header(file, &values)
    }
}

/// The folder of this file alone, under the name b.
fn folder_of(alloc: Global, file: Vec<u8>) -> Result<MemoryFolder, Fail> {
    let mut rows = Vec::new(alloc);
    rows.push((String::from_str(alloc, "b")?, file))?;
    if !are_files(&rows) {
        return Err("a name".into());
    }
    Ok(MemoryFolder::new(alloc, &rows, Vec::new(alloc), 1000)?)
}

/// What is printed where this number is in the way of the form of b.
fn wanted(alloc: Global, number: &str) -> Result<String, Fail> {
    if number == "0" {
        return Ok(String::from_str(
            alloc,
            "prelinked b conflicts 0\ndone 1 prelinked 0 current 0 skipped\n",
        )?);
    }
    Ok(format!(in alloc; "skip b Form b {number}\ndone 0 prelinked 0 current 1 skipped\n")?)
}

/// Whether a run over the file of a line prints what is in the way.
fn is_printed(alloc: Global, line: &str) -> Result<bool, Fail> {
    let (head, row) = parts(line)?;
    let (change, recipe) = parts(row)?;
    let (number, region) = head.split_once(' ').ok_or("a number and a region")?;
    let mut file = file_of(alloc, recipe_of(recipe))?;
    make_change(alloc, file.as_mut_slice(), change)?;
    let mut folder = folder_of(alloc, file)?;
    let words = format!(in alloc; "-a -v --region {region}")?;
    let (_status, text) = ran(alloc, &mut folder, words.as_str())?;
    Ok(text.as_slice() == wanted(alloc, number)?.as_bytes())
}

#[test]
fn skips(rt: HostRuntime) -> Result<(), Fail> {
    for line in ROWS.lines() {
        if !is_printed(rt.alloc(), line)? {
            return Err(line.into());
        }
    }
    Ok(())
}
