//! Where the tables of an object stand in the file, as windows of it.
ghost use Rattle.std.specs.Prelude.{◌≡◌, ◌++◌, IfOk};
ghost use Rattle.pl_object.specs.Tables as spec;

use crate::Window;
use crate::file_part::file_window;
use crate::tags::{
    dynamic_memory, jmprel_memory, rela_memory, relr_memory, section_memory, strings_memory,
    symbols_memory,
};
use pl_dyn::Tag;
use pl_dyn::constants::{DT_GNU_HASH, DT_HASH, DT_VERDEF, DT_VERNEED, DT_VERSYM};
use pl_elf::constants::{HEADER_SIZE, SECTION_SIZE, SEGMENT_SIZE, SHT_SYMTAB};
use pl_elf::{Header, Section, Segment};
use std::alloc::{AllocError, Global};

/// The ELF header.
pub fn header_window() -> Window
    ensures { result ≡ spec.header_window }
{
    Window::new(0, HEADER_SIZE as u64)
}

/// The program header table.
pub fn segments_window(header: &Header) -> Window
    ensures { result ≡ spec.segments_window header.now }
{
    Window::new(
        u128::from(header.phoff),
        SEGMENT_SIZE as u64 * u64::from(header.phnum),
    )
}

/// The section header table.
pub fn sections_window(header: &Header) -> Window
    ensures { result ≡ spec.sections_window header.now }
{
    Window::new(
        u128::from(header.shoff),
        SECTION_SIZE as u64 * u64::from(header.shnum),
    )
}

fn section_window(section: &Section) -> Window
    ensures { result ≡ spec.section_window section.now }
{
    Window::new(u128::from(section.offset), section.size)
}

/// Each section of kind SHT_SYMTAB, in the order of the section header table. It fails only for want of memory.
#[tactic(auto, unfolding(crate::specs::Tables::symtab_windows))]
pub fn symtab_windows(alloc: Global, sections: &[Section]) -> Result<Vec<Window>, AllocError>
    ensures { IfOk result (λ v. v.items ≡ spec.symtab_windows sections.now) }
{
    sections
        .iter()
        .filter(|section| section.kind == SHT_SYMTAB)
        .map(section_window)
        .collect(alloc)
}

/// The tables of which no two may overlap in the file: the ELF header, the program and the section header table, the dynamic table, the symbols, the relocations of DT_RELA and of DT_JMPREL, and each SYMTAB section. It fails only for want of memory.
#[tactic(auto, unfolding(crate::specs::Tables::main_windows))]
pub fn main_windows(
    alloc: Global,
    header: &Header,
    segments: &[Segment],
    sections: &[Section],
    tags: &[Tag],
) -> Result<Vec<Window>, AllocError>
    ensures { IfOk result (λ v. v.items ≡ spec.main_windows header.now segments.now sections.now
        tags.now) }
{
    let main = [
        header_window(),
        segments_window(header),
        sections_window(header),
        file_window(segments, dynamic_memory(segments)),
        file_window(segments, symbols_memory(tags, sections)),
        file_window(segments, rela_memory(tags)),
        file_window(segments, jmprel_memory(tags)),
    ];
    with_symtabs(alloc, &main, sections)
}

fn with_symtabs(
    alloc: Global,
    windows: &[Window],
    sections: &[Section],
) -> Result<Vec<Window>, AllocError>
    ensures { IfOk result (λ v. v.items ≡ windows.now ++ spec.symtab_windows sections.now) }
{
    let symtabs = symtab_windows(alloc, sections)?;
    let mut all = Vec::from_slice(alloc, windows)?;
    all.extend_from_slice(&symtabs)?;
    Ok(all)
}

/// The link tables of an object with a PT_DYNAMIC in the file, in the order of `Object::tables`. It fails only for want of memory.
#[tactic(auto, unfolding(crate::specs::Tables::link_windows, crate::specs::Tables::tables_memory))]
pub fn link_windows(
    alloc: Global,
    header: &Header,
    segments: &[Segment],
    sections: &[Section],
    tags: &[Tag],
) -> Result<Vec<Window>, AllocError>
    ensures { IfOk result (λ v. v.items ≡ spec.link_windows header.now segments.now sections.now
        tags.now) }
{
    let windows = [
        header_window(),
        segments_window(header),
        file_window(segments, dynamic_memory(segments)),
        file_window(segments, symbols_memory(tags, sections)),
        file_window(segments, strings_memory(tags)),
        file_window(segments, rela_memory(tags)),
        file_window(segments, jmprel_memory(tags)),
        file_window(segments, section_memory(tags, sections, DT_HASH)),
        file_window(segments, section_memory(tags, sections, DT_GNU_HASH)),
        file_window(segments, section_memory(tags, sections, DT_VERSYM)),
        file_window(segments, section_memory(tags, sections, DT_VERDEF)),
        file_window(segments, section_memory(tags, sections, DT_VERNEED)),
        file_window(segments, relr_memory(tags)),
    ];
    with_symtabs(alloc, &windows, sections)
}

/// The link tables of a static program in the file. It fails only for want of memory.
#[tactic(auto, unfolding(crate::specs::Tables::static_windows))]
pub fn static_windows(
    alloc: Global,
    header: &Header,
    sections: &[Section],
) -> Result<Vec<Window>, AllocError>
    ensures { IfOk result (λ v. v.items ≡ spec.static_windows header.now sections.now) }
{
    with_symtabs(alloc, &[header_window(), segments_window(header)], sections)
}
