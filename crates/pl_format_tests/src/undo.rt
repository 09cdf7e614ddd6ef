// Tests of pl_undo.
use pl_base::{Rows, part};
use pl_elf::constants::{ET_DYN, ET_EXEC};
use pl_io::NoMemory;
use pl_undo::{Undo, UndoFault, read_undo, write_undo};
use std::alloc::{AllocError, Global};
use std::test::Fail;

/// The first bytes, and a library's numbers: slot 0x3000101000, cut and length 0x1234, shift 0, and 5 bytes kept.
const FRONT: [u8; 48] = [
    0x50, 0x4c, 0x55, 0x4e, 0x44, 0x4f, 0x30, 0x31, //
    0x00, 0x10, 0x10, 0x00, 0x30, 0, 0, 0, //
    0x34, 0x12, 0, 0, 0, 0, 0, 0, //
    0, 0, 0, 0, 0, 0, 0, 0, //
    0x34, 0x12, 0, 0, 0, 0, 0, 0, //
    5, 0, 0, 0, 0, 0, 0, 0,
];

/// A header of a type, with one program header and two section headers behind it.
fn headers(kind: u16) -> [u8; 248] {
    let mut bytes = [0u8; 248];
    bytes[16..18].copy_from_slice(&kind.to_le_bytes());
    bytes[56] = 1;
    bytes[60] = 2;
    bytes
}

/// The section of a file of a type, with another byte at an offset.
fn section(alloc: Global, kind: u16, at: usize, byte: u8) -> Result<Vec<u8>, AllocError> {
    let mut bytes = FRONT.to_vec(alloc)?;
    bytes.extend_from_slice(&headers(kind))?;
    bytes.extend_from_slice(b"kept!")?;
    if let Some(place) = bytes.get_mut(at) {
        *place = byte;
    }
    Ok(bytes)
}

/// Whether it is what the section of a library has.
fn is_of_a_library(undo: &Undo) -> bool {
    undo.slot == 0x30_0010_1000
        && undo.cut == 0x1234
        && undo.shift == 0
        && undo.length == 0x1234
        && undo.headers.as_slice() == headers(ET_DYN).as_slice()
        && undo.kept.as_slice() == b"kept!".as_slice()
}

#[test]
fn both_ways(rt: HostRuntime) -> Result<(), UndoFault> {
    let alloc = rt.alloc();
    let bytes = section(alloc, ET_DYN, 0, b'P')?;
    let undo = read_undo(alloc, &bytes)?;
    assert!(rt; is_of_a_library(&undo));
    assert!(rt; write_undo(alloc, &undo).as_deref() == Ok(bytes.as_slice()));
    Ok(())
}

#[test]
fn writes_for_a_program(rt: HostRuntime) -> Result<(), NoMemory> {
    let alloc = rt.alloc();
    let undo = Undo {
        slot: 0,
        cut: 0x200,
        shift: 0x1000,
        length: 0x300,
        headers: Rows::from_vec(headers(ET_EXEC).to_vec(alloc)?),
        kept: Rows::new(alloc),
        digest: None,
    };
    let bytes = write_undo(alloc, &undo)?;
    assert!(rt; read_undo(alloc, &bytes).is_ok());
    Ok(())
}

/// The section of a library with a digest.
fn with_digest(alloc: Global) -> Result<Vec<u8>, UndoFault> {
    let mut undo = read_undo(alloc, &section(alloc, ET_DYN, 0, b'P')?)?;
    undo.digest = Some([7; 32]);
    match write_undo(alloc, &undo) {
        Ok(bytes) => Ok(bytes),
        Err(_) => Err(UndoFault::NoMemory),
    }
}

/// A section of version 2 has the digest behind the first bytes and the numbers, and the header behind it.
fn is_of_version_2(bytes: &[u8]) -> bool {
    bytes.starts_with(b"PLUNDO02")
        && part(bytes, 48, 32) == [7u8; 32].as_slice()
        && part(bytes, 80, 248) == headers(ET_DYN).as_slice()
}

#[test]
fn writes_the_digest(rt: HostRuntime) -> Result<(), UndoFault> {
    let bytes = with_digest(rt.alloc())?;
    assert!(rt; is_of_version_2(&bytes));
    assert!(rt; read_undo(rt.alloc(), &bytes)?.digest == Some([7; 32]));
    Ok(())
}

/// A type, an offset in the section and a byte there, and whether it is one then.
const CHANGED: [(u16, usize, u8, bool); 13] = [
    // the numbers, which have to fit the type
    (ET_DYN, 8, 1, true),
    (ET_DYN, 16, 1, false),
    (ET_DYN, 24, 1, false),
    (ET_DYN, 32, 1, false),
    (ET_EXEC, 8, 0, false),
    (4, 24, 1, true),
    // the first bytes, the kept length, the sizes of the tables
    (ET_DYN, 0, b'p', false),
    (ET_DYN, 7, b'2', false),
    (ET_DYN, 40, 4, false),
    (ET_DYN, 40, 6, false),
    (ET_DYN, 47, 1, false),
    (ET_DYN, 48 + 56, 2, false),
    (ET_DYN, 48 + 60, 1, false),
];

/// Why bytes are no section.
fn fault(alloc: Global, bytes: &[u8]) -> Option<UndoFault> {
    read_undo(alloc, bytes).err()
}

#[test]
fn refuses_what_is_no_section(rt: HostRuntime) -> Result<(), Fail> {
    let alloc = rt.alloc();
    for (kind, at, byte, fits) in &CHANGED {
        let bytes = section(alloc, *kind, *at, *byte)?;
        let wanted = if *fits {
            None
        } else {
            Some(UndoFault::BadUndo)
        };
        if fault(alloc, &bytes) != wanted {
            return Err((*at).into());
        }
    }
    Ok(())
}

/// Sizes to which the section of 301 bytes is cut.
const SIZES: [u64; 6] = [0, 47, 48, 111, 112, 300];

#[test]
fn refuses_other_sizes(rt: HostRuntime) -> Result<(), Fail> {
    let alloc = rt.alloc();
    let bytes = section(alloc, ET_DYN, 0, b'P')?;
    for size in SIZES {
        let cut = part(&bytes, 0, size);
        if fault(alloc, cut) != Some(UndoFault::BadUndo) {
            return Err(size.into());
        }
    }
    Ok(())
}

#[test]
fn refuses_a_byte_behind_it(rt: HostRuntime) -> Result<(), AllocError> {
    let mut bytes = section(rt.alloc(), ET_DYN, 0, b'P')?;
    bytes.extend_from_slice(b"\0")?;
    assert!(rt; fault(rt.alloc(), &bytes) == Some(UndoFault::BadUndo));
    Ok(())
}
