// Acceptance: which files of recipes it takes, and the clause that refuses them after changes.
use crate::samples::{changed_file, file_of};
use pl_cases::parts;
use pl_object::{ORIGINAL, Refusal, accept};
use std::alloc::{AllocError, Global};
use std::test::Fail;

// What a library and a program with all tables have. Where they stand: HASH at 0x400, GNU_HASH at 0x420, the symbols u, f and g from 0x460 on, the version words at 0x4c0, VERDEF at 0x4c8, VERNEED at 0x500, three relocations at 0x520 and that of JMPREL behind them, the dynamic table at 0x580, the data at 0x1000, the names of sections at 0x1040, the section headers at 0x10c0.
const LIBRARY: &str =
    "library; hash both; spare 2; needs liba; version V1; data 40; bss 40; tls 0 8 10 8; ref u@V1 global func from liba; def f global func 0 8; def g@@V1 global object 8 8; rel relative 10 - 0; rel globdat 18 u@V1 0; rel abs64 20 g@@V1 4; rel jumpslot 28 u@V1 0";

const PROGRAM: &str =
    "program; hash both; spare 2; needs liba; version V1; data 40; bss 40; tls 0 8 10 8; ref u@V1 global func from liba; def f global func 0 8; def g@@V1 global object 8 8; rel relative 10 - 0; rel globdat 18 u@V1 0; rel abs64 20 g@@V1 4; rel jumpslot 28 u@V1 0";

// What acceptance answers to the library after changes: the clause that refuses it, with what of the file does, or that it is accepted; and the changes, each an offset, a size and a number, in hexadecimal. After each clause's first line others that it refuses, by this order: clause 9, no entry of tag 0, past the file part, another tag after one of tag 0, a broken entry; clause 12, the size of symbols, strings past the file part, no section at the hash table, not exactly one DYNSYM, the relocations over a symbol, a SYMTAB section over a section header, and beside it, which is accepted; clause 21, a SysV chain in a ring, one without f, a GNU table that lets no hash pass, no table; clause 22, two named f, without versions, and one with a version, which is accepted; clause 26, over the header, the program headers, a link table, the section headers.
const LIBRARIES: &str = "\
accepted:\n\
1 0: 3 1 47  4 1 1\n\
2 0: 4 1 1  12 2 3\n\
3 0: 12 2 3  10 2 1\n\
4 0: 10 2 1  28 8 ffffffffffffffff\n\
5 0: 28 8 ffffffffffffffff  a0 8 8\n\
6 0: a0 8 8  3e 2 fde8\n\
7 0: 3e 2 fde8  d0 8 120\n\
8 0: 3c 2 0  d0 8 120\n\
9 0: d0 8 120  5e8 8 19\n\
9 0: d0 8 160\n\
9 0: 6b0 8 15\n\
9 0: d0 8 138\n\
10 74565: 6a0 8 12345  5e8 8 19\n\
10 1879047928: 6a0 8 6ffffef8\n\
11 10: 6a0 8 a  5e8 8 19\n\
12 0: 5e8 8 19  648 8 10\n\
12 0: 5d8 8 1000\n\
12 0: 598 8 401\n\
12 0: 1104 4 b\n\
12 0: 1184 4 1\n\
12 0: 5c0 8 15\n\
12 0: 628 8 490\n\
12 0: 1404 4 2  1420 8 81\n\
accepted: 1404 4 2  1420 8 80\n\
13 0: 648 8 10  6a0 8 24\n\
13 0: 638 8 47\n\
13 0: 600 8 15\n\
13 0: 608 8 8\n\
13 0: 630 8 15\n\
14 0: 6a0 8 24  588 8 ffff\n\
15 0: 588 8 ffff  478 4 ffff\n\
15 0: 588 8 0\n\
16 0: 478 4 ffff  51c 4 5\n\
17 0: 51c 4 5  4c6 2 9\n\
17 0: 670 8 15\n\
17 0: 650 8 15\n\
18 0: 4c6 2 9  414 4 2\n\
18 0: 1220 8 6\n\
21 0: 414 4 2  528 4 25\n\
21 0: 410 4 0\n\
21 0: 430 8 0\n\
21 0: 590 8 15  5a0 8 16\n\
22 0: 5a0 8 15  490 4 8  4c6 2 1\n\
accepted: 5a0 8 15  490 4 8\n\
23 37: 528 4 25  520 8 100039\n\
23 6: 544 4 4\n\
24 0: 520 8 100039  538 8 100021\n\
25 0: 538 8 100021  520 8 0\n\
26 0: 520 8 0  548 8 1\n\
26 0: 520 8 11c\n\
26 0: 520 8 4bf\n\
26 0: 98 8 d0  a0 8 d0  520 8 1000c0\n\
27 0: 548 8 1  47c 1 1a\n\
28 0: 47c 1 1a  540 4 5\n\
29 0: 540 4 5\n\
31 0: 6a0 8 6ffffffb  6a8 8 8000000\n\
accepted: 6a0 8 6ffffffb  6a8 8 4000000\n\
31 0: e8 4 3\n\
accepted: e8 4 3  6a0 8 e";

// The same of the program. No clause asks for a base in page 0, for SONAME or for a place in the file; a COPY of 0 bytes, and one by no symbol; a symbol that is not defined and has a value; the last two without PT_DYNAMIC.
const PROGRAMS: &str = "\
accepted:\n\
20 0: 10 2 3\n\
accepted: 520 8 500078  e8 4 3\n\
24 0: 520 8 500079\n\
26 0: 520 8 400000\n\
accepted: 540 4 5\n\
29 0: 540 8 5\n\
accepted: 468 8 401000\n\
accepted: b0 4 4\n\
accepted: b0 4 4  5e8 8 19  520 8 0";

// What acceptance answers to files of recipes: the first has an empty GNU table alone.
const SPELLED: &str = "\
accepted: program; hash gnu; needs liba; ref u global func\n\
5 0: library; data 8; tls 0 2000 2000 1\n\
6 0: library; data 8; tls 0 8 8 3\n\
22 0: library; data 8; version V; def f@V global func 0 8; def f@@V global func 0 8\n\
23 36: library; data 8; rel tlsdesc 0 - 0\n\
24 0: library; data 8; rel abs64 1 - 0\n\
24 0: library; data 8; bss 8; rel abs64 8 - 0\n\
24 0: program; data 8; bss 8; rel abs64 9 - 0\n\
25 0: library; data 10; rel abs64 0 - 0; rel relative 4 - 0\n\
27 0: program; data 8; ref f weak func; rel globdat 0 f 1\n\
28 0: library; data 8; def f global ifunc 0 8\n\
29 0: library; data 8; def x global object 0 8; rel copy 0 x 0\n\
29 0: program; data 8; rel copy 0 - 0";

// What acceptance answers to a file, as the cases spell it.
fn answer(alloc: Global, file: &[u8]) -> Result<String, AllocError> {
    if file.len() > 0xffff_ffff {
        return String::from_str(alloc, "too long");
    }
    match accept(alloc, file) {
        Ok(_) => String::from_str(alloc, "accepted"),
        Err(Refusal::Clause { number, argument }) => format!(in alloc; "{number} {argument}"),
        Err(Refusal::NoMemory) => String::from_str(alloc, "no memory"),
    }
}

// Whether the answer to the file of a recipe with the changes of a line is the line's.
fn is_answered(alloc: Global, recipe: &str, line: &str) -> Result<bool, Fail> {
    let (wanted, changes) = parts(line)?;
    let file = changed_file(alloc, recipe, changes)?;
    Ok(answer(alloc, &file)?.as_str() == wanted)
}

// Whether the answer to the file of a sample is this one.
fn is_answered_so(alloc: Global, sample: &str, wanted: &str) -> Result<bool, Fail> {
    let file = file_of(alloc, sample)?;
    Ok(answer(alloc, &file)?.as_str() == wanted)
}

#[test]
fn refuses_a_changed_library(rt: HostRuntime) -> Result<(), Fail> {
    for line in LIBRARIES.lines() {
        if !is_answered(rt.alloc(), LIBRARY, line)? {
            return Err(line.into());
        }
    }
    Ok(())
}

#[test]
fn refuses_a_changed_program(rt: HostRuntime) -> Result<(), Fail> {
    for line in PROGRAMS.lines() {
        if !is_answered(rt.alloc(), PROGRAM, line)? {
            return Err(line.into());
        }
    }
    Ok(())
}

#[test]
fn refuses_by_the_first_clause(rt: HostRuntime) -> Result<(), Fail> {
    for line in SPELLED.lines() {
        let (wanted, recipe) = parts(line)?;
        if !is_answered_so(rt.alloc(), recipe, wanted)? {
            return Err(line.into());
        }
    }
    Ok(())
}

#[test]
fn goes_by_the_length(rt: HostRuntime) -> Result<(), Fail> {
    let alloc = rt.alloc();
    let mut file = file_of(alloc, LIBRARY)?;
    file.resize(ORIGINAL, 0)?;
    assert!(rt; answer(alloc, &file)?.as_str() == "accepted");
    file.resize(ORIGINAL + 1, 0)?;
    assert!(rt; answer(alloc, &file)?.as_str() == "30 0");
    file.resize(0x143f, 0)?;
    assert!(rt; answer(alloc, &file)?.as_str() == "5 0");
    Ok(())
}

/// A generated recipe has one part of each group, whose parts bars separate: the kind and the data, the header, the hash tables, references, definitions, and thread-local storage.
const GROUPS: &str = "\
program; data 30; |library; data 30; |library; symbolic; data 30; word 28 2a; \n\
|usual; |usual; entry 8; bss 20; \n\
|hash gnu; buckets 3; spare 0; |hash both; buckets 2; \n\
|needs libq; ref r weak func; rel jumpslot 0 r 0; |needs libq; needs libs; ref r@Q global object from libq; ref s@S weak func from libs at 8; rel globdat 0 r@Q 0; rel jumpslot 8 s@S 0; \n\
def f global func 10 8; rel abs64 10 f -4; |version V1; version V2; def f@V1 global func 10 8; def f@@V2 global func 18 8 protected; rel globdat 10 f@@V2 0; |def f unique object 10 8 hidden; def g weak abs 7 0; rel relative 18 - 10; rel none 0 g 5; \n\
|tls 0 8 10 8; def t global tls 4 4; rel dtpmod 20 t 0; rel dtpoff 28 t 2; |tls 0 0 5 1; rel dtpmod 20 - 0; rel tpoff 28 - -8; ";

/// How many recipes the groups make: 3^6.
const COUNT: usize = 729;

/// The recipe of that number, whose digits in base 3, the last one first, name its parts.
fn generated(alloc: Global, number: usize) -> Result<String, AllocError> {
    let mut recipe = String::new(alloc);
    let mut digits = number;
    for group in GROUPS.lines() {
        recipe.push_str(group.split('|').nth(digits % 3).unwrap_or(""))?;
        digits /= 3;
    }
    Ok(recipe)
}

#[test]
fn accepts_generated_recipes(rt: HostRuntime) -> Result<(), Fail> {
    for number in 0..COUNT {
        let recipe = generated(rt.alloc(), number)?;
        if !is_answered_so(rt.alloc(), recipe.as_str(), "accepted")? {
            return Err(recipe.as_str().into());
        }
    }
    Ok(())
}
