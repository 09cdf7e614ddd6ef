//! The values of tags of a dynamic table, and the windows of memory that they name (System V gABI chapter 5, "Dynamic Section"). No memory is taken, and nothing is refused.
ghost use Rattle.std.specs.Prelude.{◌≡◌, find, is_some};
ghost use Rattle.std.specs.List.{list_any};
ghost use Rattle.pl_elf.specs.Headers.{segment_of_kind};
ghost use Rattle.pl_object.specs.Tables as spec;

use crate::Window;
use pl_dyn::constants::{
    DT_GNU_HASH, DT_HASH, DT_JMPREL, DT_PLTRELSZ, DT_RELA, DT_RELASZ, DT_RELR, DT_RELRSZ, DT_STRSZ,
    DT_STRTAB, DT_SYMTAB, DT_VERDEF, DT_VERNEED, DT_VERSYM,
};
use pl_dyn::{Tag, value_of};
use pl_elf::constants::{PT_DYNAMIC, SHF_ALLOC, SHT_DYNSYM, SHT_NOBITS};
use pl_elf::{Section, Segment, segment_of_kind};

/// Whether a tag is there.
pub fn has_tag(tags: &[Tag], number: u64) -> bool
    ensures { result ≡ spec.has_tag number tags.now }
{
    value_of(tags, number).is_some()
}

/// A tag's value, 0 where the tag is absent.
pub fn value(tags: &[Tag], number: u64) -> u64
    ensures { result ≡ spec.value number tags.now }
{
    value_of(tags, number).unwrap_or(0)
}

/// The bytes in the file of PT_DYNAMIC, as a window of memory; no bytes at 0 where there is none.
#[tactic(auto, unfolding(crate::specs::Tables::dynamic_memory))]
pub fn dynamic_memory(segments: &[Segment]) -> Window
    ensures { result ≡ spec.dynamic_memory segments.now }
{
    match segment_of_kind(segments, PT_DYNAMIC) {
        None => Window::new(0, 0),
        Some(segment) => Window::new(u128::from(segment.vaddr), segment.filesz),
    }
}

#[tactic(auto, unfolding(crate::specs::Tables::tag_memory))]
fn tag_memory(tags: &[Tag], address: u64, size: u64) -> Window
    ensures { result ≡ spec.tag_memory address size tags.now }
{
    if has_tag(tags, address) && has_tag(tags, size) {
        Window::new(u128::from(value(tags, address)), value(tags, size))
    } else {
        Window::new(0, 0)
    }
}

/// The strings in memory: DT_STRSZ bytes at DT_STRTAB; no bytes at 0 where one of the two is absent.
pub fn strings_memory(tags: &[Tag]) -> Window
    ensures { result ≡ spec.strings_memory tags.now }
{
    tag_memory(tags, DT_STRTAB, DT_STRSZ)
}

/// The relocations of DT_RELA in memory: DT_RELASZ bytes; no bytes at 0 where one of the two is absent.
pub fn rela_memory(tags: &[Tag]) -> Window
    ensures { result ≡ spec.rela_memory tags.now }
{
    tag_memory(tags, DT_RELA, DT_RELASZ)
}

/// The relocations of DT_JMPREL in memory: DT_PLTRELSZ bytes; no bytes at 0 where one of the two is absent.
pub fn jmprel_memory(tags: &[Tag]) -> Window
    ensures { result ≡ spec.jmprel_memory tags.now }
{
    tag_memory(tags, DT_JMPREL, DT_PLTRELSZ)
}

/// The packed relocations in memory: DT_RELRSZ bytes at DT_RELR; no bytes at 0 where one of the two is absent.
pub fn relr_memory(tags: &[Tag]) -> Window
    ensures { result ≡ spec.relr_memory tags.now }
{
    tag_memory(tags, DT_RELR, DT_RELRSZ)
}

fn first_dynsym(sections: &[Section]) -> Option<Section>
    ensures { result ≡ find (spec.has_kind SHT_DYNSYM) sections.now }
{
    sections
        .iter()
        .copied()
        .find(|section| section.kind == SHT_DYNSYM)
}

fn section_size(section: Option<Section>) -> u64
    ensures { result ≡ spec.section_size section }
{
    match section {
        None => 0,
        Some(section) => section.size,
    }
}

/// The symbols in memory: as many bytes at DT_SYMTAB as the first DYNSYM section has, none where there is no such section.
#[tactic(auto, unfolding(crate::specs::Tables::symbols_memory))]
pub fn symbols_memory(tags: &[Tag], sections: &[Section]) -> Window
    ensures { result ≡ spec.symbols_memory tags.now sections.now }
{
    let size = section_size(first_dynsym(sections));
    Window::new(u128::from(value(tags, DT_SYMTAB)), size)
}

#[tactic(auto, unfolding(crate::specs::Tables::begins_at))]
fn begins_at(address: u64, section: &Section) -> bool
    ensures { result ≡ spec.begins_at address section.now }
{
    section.flags & SHF_ALLOC != 0
        && section.kind != SHT_NOBITS
        && section.size > 0
        && section.addr == address
}

fn first_at(sections: &[Section], address: u64) -> Option<Section>
    ensures { result ≡ find (spec.begins_at address) sections.now }
{
    sections
        .iter()
        .copied()
        .find(|section| begins_at(address, section))
}

fn any_at(sections: &[Section], address: u64) -> bool
    ensures { result ≡ list_any (spec.begins_at address) sections.now }
{
    sections.iter().any(|section| begins_at(address, section))
}

/// The table of a tag in memory: as many bytes as the first section has that begins there, is loaded, is not SHT_NOBITS and is not empty; no bytes where the tag or such a section is absent.
#[tactic(auto, unfolding(crate::specs::Tables::section_memory))]
pub fn section_memory(tags: &[Tag], sections: &[Section], number: u64) -> Window
    ensures { result ≡ spec.section_memory number tags.now sections.now }
{
    if !has_tag(tags, number) {
        return Window::new(0, 0);
    }
    let address = value(tags, number);
    Window::new(
        u128::from(address),
        section_size(first_at(sections, address)),
    )
}

/// Whether a tag is there and no section begins where it says.
#[tactic(auto, unfolding(crate::specs::Tables::is_lost))]
pub fn is_lost(tags: &[Tag], sections: &[Section], number: u64) -> bool
    ensures { result ≡ spec.is_lost number tags.now sections.now }
{
    has_tag(tags, number) && !any_at(sections, value(tags, number))
}

/// The tables that a tag names, in memory: the symbols, the strings, the relocations of DT_RELA and of DT_JMPREL, and the tables of DT_HASH, DT_GNU_HASH, DT_VERSYM, DT_VERDEF and DT_VERNEED.
#[tactic(auto, unfolding(crate::specs::Tables::tables_memory))]
pub fn tables_memory(tags: &[Tag], sections: &[Section]) -> [Window; 9]
    ensures { result ≡ spec.tables_memory tags.now sections.now }
{
    [
        symbols_memory(tags, sections),
        strings_memory(tags),
        rela_memory(tags),
        jmprel_memory(tags),
        section_memory(tags, sections, DT_HASH),
        section_memory(tags, sections, DT_GNU_HASH),
        section_memory(tags, sections, DT_VERSYM),
        section_memory(tags, sections, DT_VERDEF),
        section_memory(tags, sections, DT_VERNEED),
    ]
}
