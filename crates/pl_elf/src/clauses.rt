// Acceptance clauses 1 to 5: a test for each, true where the clause refuses the file.
ghost use Rattle.std.specs.Prelude.{◌≡◌, ◌+◌, ◌<◌, ◌≤◌, ◌^◌, length};
ghost use Rattle.std.specs.Bool.{OnFalse};
ghost use Rattle.std.specs.List.{list_any};
ghost use Rattle.pl_elf.specs.Headers.{HasSections, HasSegments, sections, segment_offset, segments};
ghost use Rattle.pl_elf.specs.Clauses as spec;

use crate::constants::{
    EI_CLASS, EI_DATA, EI_MAG0, EI_MAG1, EI_MAG2, EI_MAG3, EI_VERSION, ELFCLASS64, ELFDATA2LSB,
    ELFMAG0, ELFMAG1, ELFMAG2, ELFMAG3, ET_DYN, ET_EXEC, EV_CURRENT, HEADER_SIZE, SECTION_SIZE,
    SEGMENT_SIZE, SHT_NOBITS,
};
use crate::{Header, Section, Segment, read_section, read_segment};

#[tactic(auto, unfolding(crate::specs::Clauses::passes))]
fn passes(bytes: &[u8], offset: u128, size: u64) -> bool
    requires { offset < 2 ^ 66 }
    ensures { result ≡ spec.passes bytes.now offset size }
{
    offset + u128::from(size) > bytes.len() as u128
}

/// Acceptance clause 1: whether the file is shorter than a header or begins with other magic bytes (gABI chapter 4, "ELF Identification").
#[tactic(auto, unfolding(crate::specs::Clauses::not_elf))]
pub fn not_elf(bytes: &[u8]) -> bool
    ensures test { result ≡ spec.not_elf bytes.now }
    ensures long { OnFalse result (HEADER_SIZE ≤ length bytes.now) }
{
    bytes.len() < HEADER_SIZE
        || !(bytes[EI_MAG0] == ELFMAG0
            && bytes[EI_MAG1] == ELFMAG1
            && bytes[EI_MAG2] == ELFMAG2
            && bytes[EI_MAG3] == ELFMAG3)
}

/// Acceptance clause 2: whether the class, the byte order or the version is another (gABI chapter 4, "ELF Identification").
#[tactic(auto, unfolding(crate::specs::Clauses::other_class))]
pub fn other_class(bytes: &[u8]) -> bool
    requires { HEADER_SIZE ≤ length bytes.now }
    ensures { result ≡ spec.other_class bytes.now }
{
    !(bytes[EI_CLASS] == ELFCLASS64
        && bytes[EI_DATA] == ELFDATA2LSB
        && bytes[EI_VERSION] == EV_CURRENT)
}

fn segment_offset(header: &Header, index: u16) -> u128
    ensures offset { result ≡ segment_offset header.now index }
    ensures small { result < 2 ^ 66 }
{
    u128::from(header.phoff) + u128::from(SEGMENT_SIZE as u64 * u64::from(index))
}

#[tactic(auto, unfolding(crate::specs::Clauses::is_seen_dynamic, crate::specs::Clauses::passes))]
fn is_seen_dynamic(bytes: &[u8], header: &Header, index: u16) -> bool
    ensures { result ≡ spec.is_seen_dynamic bytes.now header.now index }
{
    !passes(bytes, segment_offset(header, index), SEGMENT_SIZE as u64)
        && read_segment(bytes, header, index).is_dynamic()
}

/// Whether a program header that lies in the file is PT_DYNAMIC. The table need not lie there as a whole.
#[tactic(auto, unfolding(crate::specs::Clauses::has_dynamic))]
pub fn has_dynamic(bytes: &[u8], header: &Header) -> bool
    ensures { result ≡ spec.has_dynamic bytes.now header.now }
{
    (0..header.phnum).any(|index| is_seen_dynamic(bytes, header, index))
}

/// Acceptance clause 4: whether the file is neither ET_EXEC nor an ET_DYN with PT_DYNAMIC.
#[tactic(auto, unfolding(crate::specs::Clauses::other_kind))]
pub fn other_kind(bytes: &[u8], header: &Header) -> bool
    ensures { result ≡ spec.other_kind bytes.now header.now }
{
    header.kind != ET_EXEC && !(header.kind == ET_DYN && has_dynamic(bytes, header))
}

/// Whether the header is a static program's: ET_EXEC, and no program header that lies in the file is PT_DYNAMIC.
#[tactic(auto, unfolding(crate::specs::Clauses::is_static_file))]
pub fn is_static_file(bytes: &[u8], header: &Header) -> bool
    ensures { result ≡ spec.is_static_file bytes.now header.now }
{
    header.kind == ET_EXEC && !has_dynamic(bytes, header)
}

fn segment_passes(bytes: &[u8], is_static: bool, segment: &Segment) -> bool
    ensures { result ≡ spec.segment_passes bytes.now is_static segment.now }
{
    passes(bytes, u128::from(segment.offset), segment.filesz) && !(is_static && segment.filesz == 0)
}

fn section_passes(bytes: &[u8], section: &Section) -> bool
    ensures { result ≡ spec.section_passes bytes.now section.now }
{
    section.kind != SHT_NOBITS && passes(bytes, u128::from(section.offset), section.size)
}

#[tactic(auto, unfolding(crate::specs::Headers::segments))]
fn any_segment_passes(bytes: &[u8], header: &Header, is_static: bool) -> bool
    requires { HasSegments bytes.now header.now }
    ensures { result ≡ list_any (spec.segment_passes bytes.now is_static)
        (segments bytes.now header.now) }
{
    (0..header.phnum)
        .map(|index| read_segment(bytes, header, index))
        .any(|segment| segment_passes(bytes, is_static, &segment))
}

#[tactic(auto, unfolding(crate::specs::Headers::sections))]
fn any_section_passes(bytes: &[u8], header: &Header) -> bool
    requires { HasSections bytes.now header.now }
    ensures { result ≡ list_any (spec.section_passes bytes.now) (sections bytes.now header.now) }
{
    (0..header.shnum)
        .map(|index| read_section(bytes, header, index))
        .any(|section| section_passes(bytes, &section))
}

/// Acceptance clause 5: whether a table, a segment or a section passes the end of the file. In a static program a segment without file bytes is not looked at.
#[tactic(auto, unfolding(crate::specs::Clauses::truncated, crate::specs::Clauses::passes))]
pub fn truncated(bytes: &[u8], header: &Header) -> bool
    ensures test { result ≡ spec.truncated bytes.now header.now }
    ensures segments { OnFalse result (HasSegments bytes.now header.now) }
    ensures sections { OnFalse result (HasSections bytes.now header.now) }
{
    passes(
        bytes,
        u128::from(header.phoff),
        SEGMENT_SIZE as u64 * u64::from(header.phnum),
    ) || passes(
        bytes,
        u128::from(header.shoff),
        SECTION_SIZE as u64 * u64::from(header.shnum),
    ) || any_segment_passes(bytes, header, is_static_file(bytes, header))
        || any_section_passes(bytes, header)
}
