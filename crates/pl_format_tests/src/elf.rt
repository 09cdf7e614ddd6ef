// Tests of pl_elf.
use pl_base::part;
use pl_cases::{number, numbers, parts};
use pl_elf::constants::{
    ET_EXEC, HEADER_SIZE, MAX_SECTIONS, PT_DYNAMIC, PT_LOAD, SECTION_SIZE, SEGMENT_SIZE, SHT_STRTAB,
};
use pl_elf::{
    Header, HeaderFault, Section, Segment, count_of_kind, is_static_file, loads, read_header,
    read_sections, read_segments, section_data, segment_of_kind, write_header, write_section,
    write_segment,
};
use std::alloc::{AllocError, Global};
use std::test::Fail;

/// An offset of a file, and a number of so many bytes that is put there.
type Change = (usize, usize, u64);

fn put_each(file: &mut [u8], changes: &[Change]) {
    for (at, size, number) in changes {
        let bytes = number.to_le_bytes();
        if *size <= 8 && *at < file.len() && *size <= file.len() - *at {
            file[*at..*at + *size].copy_from_slice(&bytes[..*size]);
        }
    }
}

/// A static program: two PT_LOADs, a section of no kind and `.shstrtab`.
const PROGRAM: [Change; 36] = [
    (0, 8, 0x0001_0102_464c_457f),
    (16, 2, 2),
    (18, 2, 0x3e),
    (20, 4, 1),
    (24, 8, 0x40_0000),
    (32, 8, 0x40),
    (40, 8, 0x1020),
    (52, 2, 0x40),
    (54, 2, 0x38),
    (56, 2, 2),
    (58, 2, 0x40),
    (60, 2, 2),
    (62, 2, 1),
    (0x40, 4, 1),
    (0x44, 4, 4),
    (0x50, 8, 0x40_0000),
    (0x58, 8, 0x40_0000),
    (0x60, 8, 0xb0),
    (0x68, 8, 0xb0),
    (0x70, 8, 0x1000),
    (0x78, 4, 1),
    (0x7c, 4, 6),
    (0x80, 8, 0x1000),
    (0x88, 8, 0x50_0000),
    (0x90, 8, 0x50_0000),
    (0x98, 8, 0x10),
    (0xa0, 8, 0x10),
    (0xa8, 8, 0x1000),
    (0x1008, 8, 7),
    // `\0.shstrtab\0`
    (0x1010, 8, 0x7274_7368_732e_00),
    (0x1017, 4, 0x62_6174),
    (0x1060, 4, 1),
    (0x1064, 4, 3),
    (0x1078, 8, 0x1010),
    (0x1080, 8, 0xb),
    (0x1090, 8, 1),
];

/// The program with numbers changed.
fn program(alloc: Global, changes: &[Change]) -> Result<Vec<u8>, AllocError> {
    let mut file = vec![in alloc; 0u8; 4256]?;
    put_each(&mut file, &PROGRAM);
    put_each(&mut file, changes);
    Ok(file)
}

const HEADER: Header = Header {
    ident: [0x7f, 0x45, 0x4c, 0x46, 2, 1, 1, 0, 0, 0, 0, 0, 0, 0, 0, 0],
    kind: ET_EXEC,
    machine: 62,
    version: 1,
    entry: 0x40_0000,
    phoff: 64,
    shoff: 4128,
    flags: 0,
    ehsize: 64,
    phentsize: 56,
    phnum: 2,
    shentsize: 64,
    shnum: 2,
    shstrndx: 1,
};

/// The second segment.
const DATA: Segment = Segment {
    kind: PT_LOAD,
    flags: 6,
    offset: 0x1000,
    vaddr: 0x50_0000,
    paddr: 0x50_0000,
    filesz: 16,
    memsz: 16,
    align: 0x1000,
};

/// The second section.
const NAMES: Section = Section {
    name: 1,
    kind: SHT_STRTAB,
    flags: 0,
    addr: 0,
    offset: 0x1010,
    size: 11,
    link: 0,
    info: 0,
    addralign: 1,
    entsize: 0,
};

/// Whether the program's header is read.
fn reads_header(bytes: &[u8]) -> bool {
    match read_header(bytes) {
        Ok(header) => header == HEADER && is_static_file(bytes, &header),
        Err(_) => false,
    }
}

/// Whether the second segment of a file is that of the program.
fn reads_segments(alloc: Global, bytes: &[u8]) -> Result<bool, AllocError> {
    match read_header(bytes) {
        Ok(header) => Ok(read_segments(alloc, bytes, &header)?.get(1) == Some(&DATA)),
        Err(_) => Ok(false),
    }
}

/// Whether the second section of a file is that of the program.
fn reads_sections(alloc: Global, bytes: &[u8]) -> Result<bool, AllocError> {
    match read_header(bytes) {
        Ok(header) => Ok(read_sections(alloc, bytes, &header)?.get(1) == Some(&NAMES)),
        Err(_) => Ok(false),
    }
}

#[test]
fn reads_headers(rt: HostRuntime) -> Result<(), AllocError> {
    let alloc = rt.alloc();
    let file = program(alloc, &[])?;
    assert!(rt; reads_header(&file));
    assert!(rt; reads_segments(alloc, &file)?);
    assert!(rt; reads_sections(alloc, &file)?);
    assert!(rt; section_data(&file, &NAMES) == b"\0.shstrtab\0".as_slice());
    Ok(())
}

/// What is written of the program's header, its second segment and its second section.
fn header_row() -> [u8; HEADER_SIZE] {
    let mut row = [0xffu8; HEADER_SIZE];
    write_header(&HEADER, &mut row);
    row
}

fn segment_row() -> [u8; SEGMENT_SIZE] {
    let mut row = [0xffu8; SEGMENT_SIZE];
    write_segment(&DATA, &mut row);
    row
}

fn section_row() -> [u8; SECTION_SIZE] {
    let mut row = [0xffu8; SECTION_SIZE];
    write_section(&NAMES, &mut row);
    row
}

#[test]
fn writes_headers(rt: HostRuntime) -> Result<(), AllocError> {
    let file = program(rt.alloc(), &[])?;
    assert!(rt; header_row().as_slice() == part(&file, 0, 64));
    assert!(rt; segment_row().as_slice() == part(&file, 0x78, 56));
    assert!(rt; section_row().as_slice() == part(&file, 0x1060, 64));
    Ok(())
}

#[test]
fn lists_by_kind(rt: HostRuntime) -> Result<(), AllocError> {
    let dynamic = Segment {
        kind: PT_DYNAMIC,
        ..DATA
    };
    let segments = [DATA, dynamic, DATA];
    assert!(rt; loads(rt.alloc(), &segments)?.as_slice() == [DATA, DATA].as_slice());
    assert!(rt; count_of_kind(&segments, PT_LOAD) == 2);
    assert!(rt; segment_of_kind(&segments, PT_DYNAMIC) == Some(dynamic));
    Ok(())
}

/// Changes of the program, in hexadecimal, behind the first clause that refuses what they make of it, 0 where none does. Among them: a library without PT_DYNAMIC, with one, and with one outside the file; no file bytes past the end, which in a static program is not looked at; a NOBITS section, which has no file bytes, so no names either; one byte of the file in common, and the next byte.
const CHANGED: &str = "\
1: 0 1 7e\n\
1: 3 1 47  4 1 1\n\
2: 4 1 1  12 2 3\n\
2: 5 1 2\n\
2: 6 1 0\n\
3: 12 2 3  10 2 1\n\
4: 10 2 1  20 8 1fff\n\
4: 10 2 3\n\
0: 10 2 3  78 4 2\n\
4: 10 2 3  1069 4 2  20 8 1069\n\
5: 10 2 3  1068 4 2  20 8 1068\n\
5: 20 8 1031  36 2 39\n\
5: 28 8 1021\n\
5: 28 8 ffffffffffffffff\n\
5: 80 8 ffffffffffffffff\n\
5: 1080 8 91\n\
0: 78 4 4  80 8 10000  98 8 0\n\
0: 80 8 10000  98 8 0\n\
5: 78 4 2  80 8 10000  98 8 0\n\
7: 1064 4 8  1080 8 91\n\
6: 36 2 39  3a 2 3f\n\
6: 40 4 4  78 4 4\n\
6: 38 2 3  78 4 2  b0 4 2\n\
6: 38 2 3  78 4 7  b0 4 7\n\
6: 38 2 3  78 4 3  b0 4 3\n\
0: 38 2 3  78 4 4  b0 4 4\n\
6: a0 8 f\n\
6: a8 8 3  88 8 500002\n\
0: a8 8 0  88 8 500001\n\
0: a8 8 200000  88 8 601000\n\
6: a8 8 400000  88 8 801000\n\
6: 88 8 500001\n\
0: 88 8 7ffffffff000  a0 8 1000\n\
6: 88 8 7ffffffff000  a0 8 1001\n\
6: 88 8 3ff000\n\
6: 88 8 400000\n\
6: 80 8 af  a8 8 1\n\
0: 80 8 b0  a8 8 1\n\
6: 78 4 7  a8 8 3\n\
7: 3a 2 3f\n\
7: 3e 2 2\n\
7: 3e 2 0\n\
7: 1060 4 b\n\
7: 101a 1 41\n\
8: 3c 2 0  3a 2 0  3e 2 9";

/// The clause that refuses a file, 0 where none does.
fn clause(bytes: &[u8]) -> u8 {
    match read_header(bytes) {
        Ok(_) => 0,
        Err(HeaderFault::NotElf) => 1,
        Err(HeaderFault::Class) => 2,
        Err(HeaderFault::Machine) => 3,
        Err(HeaderFault::Kind) => 4,
        Err(HeaderFault::Truncated) => 5,
        Err(HeaderFault::BadSegment) => 6,
        Err(HeaderFault::BadSection) => 7,
        Err(HeaderFault::NoSections) => 8,
    }
}

/// The changes of a line: each three numbers, of which the first are the offset and the size.
fn changes_of(alloc: Global, line: &str) -> Result<Vec<Change>, Fail> {
    let mut changes = Vec::new(alloc);
    for change in numbers(alloc, line)?.chunks(3) {
        let [at, size, number] = change else {
            return Err("three numbers".into());
        };
        changes.push((*at as usize, *size as usize, *number))?;
    }
    Ok(changes)
}

/// Whether the clause of a line refuses the program with its changes.
fn is_refused(alloc: Global, line: &str) -> Result<bool, Fail> {
    let (wanted, changes) = parts(line)?;
    let file = program(alloc, &changes_of(alloc, changes)?)?;
    Ok(u64::from(clause(&file)) == number(wanted)?)
}

#[test]
fn refuses_by_the_first_clause(rt: HostRuntime) -> Result<(), Fail> {
    let alloc = rt.alloc();
    for line in CHANGED.lines() {
        if !is_refused(alloc, line)? {
            return Err(line.into());
        }
    }
    Ok(())
}

#[test]
fn refuses_a_cut_file(rt: HostRuntime) -> Result<(), Fail> {
    let file = program(rt.alloc(), &[])?;
    assert!(rt; clause(part(&file, 0, 0)) == 1);
    assert!(rt; clause(part(&file, 0, 63)) == 1);
    assert!(rt; clause(part(&file, 0, 4255)) == 5);
    Ok(())
}

// The clauses name the limit, so its number stands here once more.
#[test]
fn knows_the_most_sections(rt: HostRuntime) {
    assert!(rt; MAX_SECTIONS == 65000);
}
