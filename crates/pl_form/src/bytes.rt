// Rows as bytes, and parts of a file.
ghost use Rattle.std.specs.Prelude.{◌≡◌, ◌+◌, ◌*◌, ◌++◌, ◌<◌, ◌≤◌, ◌^◌, drop, length, map, take, IfOk, OnOk};
ghost use Rattle.std.specs.List.{concat};
ghost use Rattle.pl_base.specs.Bytes.{put};
ghost use Rattle.pl_base.specs.Windows.{◌⊕◌};
ghost use Rattle.pl_elf.specs.Written.{section_header_bytes, segment_bytes};
ghost use Rattle.pl_form.specs.Parts as parts;

use pl_base::push64;
use pl_elf::constants::{SECTION_SIZE, SEGMENT_SIZE};
use pl_elf::{Section, Segment, write_section, write_segment};
use std::alloc::{AllocError, Global};

fn push_segment(table: &mut Vec<u8>, segment: &Segment) -> Result<(), AllocError>
    ensures { OnOk result (table.new.items ≡ table.old.items ++ segment_bytes segment.now) }
{
    let mut row = [0; SEGMENT_SIZE];
    write_segment(segment, &mut row);
    table.extend_from_slice(&row)
}

/// A program header table.
pub fn segment_table(alloc: Global, segments: &[Segment]) -> Result<Vec<u8>, AllocError>
    ensures rows { IfOk result (λ table. table.items ≡ concat (map segment_bytes segments.now)) }
    ensures size { IfOk result (λ table. length table.items ≡ SEGMENT_SIZE * length segments.now) }
{
    let mut table = Vec::new(alloc);
    for segment in segments {
        push_segment(&mut table, segment)?;
    }
    Ok(table)
}

fn push_section(table: &mut Vec<u8>, section: &Section) -> Result<(), AllocError>
    ensures { OnOk result (table.new.items ≡ table.old.items ++ section_header_bytes section.now) }
{
    let mut row = [0; SECTION_SIZE];
    write_section(section, &mut row);
    table.extend_from_slice(&row)
}

/// A section header table.
pub fn section_table(alloc: Global, sections: &[Section]) -> Result<Vec<u8>, AllocError>
    ensures { IfOk result (λ table. table.items ≡ concat (map section_header_bytes sections.now)) }
{
    let mut table = Vec::new(alloc);
    for section in sections {
        push_section(&mut table, section)?;
    }
    Ok(table)
}

/// Writes bytes over those from an offset on.
#[tactic(auto, unfolding(pl_base::specs::Bytes::put))]
pub fn put_bytes(bytes: &mut [u8], at: usize, new: &[u8])
    requires { at + length new.now ≤ length bytes.old }
    ensures { bytes.new ≡ put at new.now bytes.old }
{
    bytes[at..at + new.len()].copy_from_slice(new);
}

/// The next multiple of 8.
pub fn up(size: usize) -> usize
    requires { size + 8 ≤ 2 ^ 64 }
    ensures { result ≡ parts.up size }
{
    (size + 7) / 8 * 8
}

/// So many of the first bytes, as far as there are any, and the rest.
pub fn split(bytes: &[u8], size: u64) -> (&[u8], &[u8])
    ensures first { result.0.now ≡ take size bytes.now }
    ensures rest { result.1.now ≡ drop size bytes.now }
{
    let at = size.min(bytes.len() as u64) as usize;
    (&bytes[..at], &bytes[at..])
}

/// Adds a part at the next multiple of 8, with zeros before it.
pub fn push_part(file: &mut Vec<u8>, next: &[u8]) -> Result<(), AllocError>
    ensures { OnOk result (file.new.items ≡ file.old.items ⊕ next.now) }
{
    let at = up(file.len());
    file.resize(at, 0)?;
    file.extend_from_slice(next)
}

/// An entry of a dynamic table.
pub fn push_entry(table: &mut Vec<u8>, number: u64, value: u64) -> Result<(), AllocError>
    ensures { OnOk result (table.new.items ≡ table.old.items ++ parts.entry_bytes number value) }
{
    push64(table, number)?;
    push64(table, value)
}

/// A section that nothing loads.
pub fn plain(name: usize, kind: u32, at: usize, size: usize) -> Section
    requires { name < 2 ^ 32 }
    ensures { result ≡ parts.plain name kind at size }
{
    Section {
        name: name as u32,
        kind,
        flags: 0,
        addr: 0,
        offset: at as u64,
        size: size as u64,
        link: 0,
        info: 0,
        addralign: 8,
        entsize: 0,
    }
}
