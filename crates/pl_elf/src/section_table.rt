// Acceptance clause 7: what the section header table has to meet, and the bytes of a section.
ghost use Rattle.std.specs.Prelude.{◌≡◌, ◌≤◌, length, not};
ghost use Rattle.std.specs.List.{list_any};
ghost use Rattle.pl_base.specs.Strings.{has_end};
ghost use Rattle.pl_elf.specs.Headers.{HasSections, sections};
ghost use Rattle.pl_elf.specs.Clauses as spec;

use crate::constants::{MAX_SECTIONS, SECTION_SIZE, SHT_NOBITS};
use crate::{Header, Section, read_section};
use pl_base::{Strings, part};

/// The bytes of a section in the file, as far as the file goes (gABI chapter 4, "Sections"). A NOBITS section has none.
#[tactic(auto, unfolding(crate::specs::Clauses::section_data))]
pub fn section_data<'a>(bytes: &'a [u8], section: &Section) -> &'a [u8]
    ensures bytes { result.now ≡ spec.section_data bytes.now section.now }
    ensures within { length result.now ≤ length bytes.now }
{
    if section.kind == SHT_NOBITS {
        return &bytes[bytes.len()..];
    }
    part(bytes, u128::from(section.offset), section.size)
}

#[tactic(auto, unfolding(crate::specs::Headers::sections))]
fn any_without_end(bytes: &[u8], header: &Header, strings: &Strings<'_>) -> bool
    requires { HasSections bytes.now header.now }
    ensures { result ≡ list_any (λ s. not (has_end s.name strings.now))
        (sections bytes.now header.now) }
{
    (0..header.shnum)
        .map(|index| read_section(bytes, header, index))
        .any(|section| !strings.has_end(section.name))
}

/// Acceptance clause 7: whether the file has section headers, and `HeaderFault::BadSection` says what is wrong with them.
#[tactic(auto, unfolding(crate::specs::Clauses::bad_section))]
pub fn bad_section(bytes: &[u8], header: &Header) -> bool
    requires { HasSections bytes.now header.now }
    ensures { result ≡ spec.bad_section bytes.now header.now (sections bytes.now header.now) }
{
    if header.shnum == 0 {
        return false;
    }
    if usize::from(header.shentsize) != SECTION_SIZE
        || header.shnum > MAX_SECTIONS
        || header.shstrndx >= header.shnum
    {
        return true;
    }
    let names = read_section(bytes, header, header.shstrndx);
    any_without_end(bytes, header, &Strings::new(section_data(bytes, &names)))
}
