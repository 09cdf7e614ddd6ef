ghost use Rattle.std.specs.Prelude.{◌≡◌, ◌+◌, ◌<◌, ◌≤◌, length, IfOk};
ghost use Rattle.pl_elf.specs.Headers as spec;

use crate::Header;
use crate::constants::SECTION_SIZE;
use pl_base::{word32, word64};
use std::alloc::{AllocError, Global};

/// A section as a section header describes it (gABI chapter 4, "Sections").
#[derive(Clone, Copy, Debug, PartialEq, Eq)]
pub struct Section {
    /// Where its name begins in the section of section names, in bytes.
    pub name: u32,

    /// The kind, one of the `SHT_` numbers.
    pub kind: u32,

    /// A union of the `SHF_` numbers.
    pub flags: u64,

    /// The address at which it begins in memory, 0 for none.
    pub addr: u64,

    /// File offset of its bytes.
    pub offset: u64,

    /// Bytes in the file, or for NOBITS in memory.
    pub size: u64,

    /// Index of another section, whose meaning the kind gives.
    pub link: u32,

    /// A number whose meaning the kind gives.
    pub info: u32,

    /// Alignment of the address in bytes: 0 or 1 for none, else a power of two.
    pub addralign: u64,

    /// Bytes of an entry, 0 where it has no entries of one size.
    pub entsize: u64,
}

#[tactic(auto, unfolding(crate::specs::Headers::section_at))]
fn section_at(bytes: &[u8], at: usize) -> Section
    requires { at + SECTION_SIZE ≤ length bytes.now }
    ensures { result ≡ spec.section_at bytes.now at }
{
    Section {
        name: word32(bytes, at),
        kind: word32(bytes, at + 4),
        flags: word64(bytes, at + 8),
        addr: word64(bytes, at + 16),
        offset: word64(bytes, at + 24),
        size: word64(bytes, at + 32),
        link: word32(bytes, at + 40),
        info: word32(bytes, at + 44),
        addralign: word64(bytes, at + 48),
        entsize: word64(bytes, at + 56),
    }
}

/// The section at an index of the section header table (gABI chapter 4, "Sections"). Its section header, 64 bytes, has to lie in the file.
pub fn read_section(bytes: &[u8], header: &Header, index: u16) -> Section
    requires { spec.section_offset header.now index + SECTION_SIZE ≤ length bytes.now }
    ensures { result ≡ spec.section bytes.now header.now index }
{
    section_at(
        bytes,
        header.shoff as usize + SECTION_SIZE * usize::from(index),
    )
}

/// All sections, in the order of the section header table (gABI chapter 4, "Sections"). The table has to lie in the file, as it does after `read_header`. It fails only for want of memory.
#[tactic(auto, unfolding(crate::specs::Headers::sections))]
pub fn read_sections(
    alloc: Global,
    bytes: &[u8],
    header: &Header,
) -> Result<Vec<Section>, AllocError>
    requires { spec.HasSections bytes.now header.now }
    ensures { IfOk result (λ v. v.items ≡ spec.sections bytes.now header.now) }
{
    (0..header.shnum)
        .map(|index| read_section(bytes, header, index))
        .collect(alloc)
}
