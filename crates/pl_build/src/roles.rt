// The sections of a file by what they hold.
ghost use Rattle.std.specs.Prelude.{◌≡◌, position};
ghost use Rattle.pl_build.specs.Roles as spec;

use crate::constants::TABLE_ALIGN;
use crate::names::is;
use pl_dyn::constants::ENTRY_SIZE;
use pl_elf::constants::{
    RELA_SIZE, RELR_SIZE, SHF_ALLOC, SHF_WRITE, SHT_DYNAMIC, SHT_DYNSYM, SHT_GNU_HASH,
    SHT_GNU_VERDEF, SHT_GNU_VERNEED, SHT_GNU_VERSYM, SHT_HASH, SHT_NOBITS, SHT_NULL, SHT_PROGBITS,
    SHT_RELA, SHT_RELR, SHT_STRTAB,
};
use pl_hash::WORD_SIZE;
use pl_sym::constants::SYMBOL_SIZE;
use pl_ver::constants::VERSYM_SIZE;

/// What a section holds, in the order of the section header table.
#[derive(Clone, Copy)]
pub enum Role {
    Null,
    Interp,
    Hash,
    GnuHash,
    Dynsym,
    Dynstr,
    Versym,
    Verdef,
    Verneed,
    RelaDyn,
    RelaPlt,
    RelrDyn,
    Dynamic,
    Data,
    Bss,
    Shstrtab,
}

/// Where a section stands in memory and in the file.
#[derive(Clone, Copy)]
pub struct PlacedSection {
    pub role: Role,
    pub addr: u64,
    pub offset: u64,
    pub size: u64,
}

/// The name of a section.
#[tactic(auto, unfolding(crate::specs::Roles::section_name))]
pub fn section_name(role: Role) -> &'static [u8]
    ensures { result.now ≡ spec.section_name role }
{
    match role {
        Role::Null => b"",
        Role::Interp => b".interp",
        Role::Hash => b".hash",
        Role::GnuHash => b".gnu.hash",
        Role::Dynsym => b".dynsym",
        Role::Dynstr => b".dynstr",
        Role::Versym => b".gnu.version",
        Role::Verdef => b".gnu.version_d",
        Role::Verneed => b".gnu.version_r",
        Role::RelaDyn => b".rela.dyn",
        Role::RelaPlt => b".rela.plt",
        Role::RelrDyn => b".relr.dyn",
        Role::Dynamic => b".dynamic",
        Role::Data => b".data",
        Role::Bss => b".bss",
        Role::Shstrtab => b".shstrtab",
    }
}

/// The section's kind, one of the `SHT_` numbers.
#[tactic(auto, unfolding(crate::specs::Roles::kind_of))]
pub fn kind_of(role: Role) -> u32
    ensures { result ≡ spec.kind_of role }
{
    match role {
        Role::Null => SHT_NULL,
        Role::Interp | Role::Data => SHT_PROGBITS,
        Role::Hash => SHT_HASH,
        Role::GnuHash => SHT_GNU_HASH,
        Role::Dynsym => SHT_DYNSYM,
        Role::Dynstr | Role::Shstrtab => SHT_STRTAB,
        Role::Versym => SHT_GNU_VERSYM,
        Role::Verdef => SHT_GNU_VERDEF,
        Role::Verneed => SHT_GNU_VERNEED,
        Role::RelaDyn | Role::RelaPlt => SHT_RELA,
        Role::RelrDyn => SHT_RELR,
        Role::Dynamic => SHT_DYNAMIC,
        Role::Bss => SHT_NOBITS,
    }
}

/// The name of the section that the field `link` is to name, empty for the null section.
#[tactic(auto, unfolding(crate::specs::Roles::link_of))]
pub fn link_of(role: Role) -> &'static [u8]
    ensures { result.now ≡ spec.link_of role }
{
    match role {
        Role::Hash | Role::GnuHash | Role::Versym | Role::RelaDyn | Role::RelaPlt => b".dynsym",
        Role::Dynsym | Role::Verdef | Role::Verneed | Role::Dynamic => b".dynstr",
        _ => b"",
    }
}

/// The section's flags, a union of the `SHF_` numbers.
#[tactic(auto, unfolding(crate::specs::Roles::flags_of))]
pub fn flags_of(role: Role) -> u64
    ensures { result ≡ spec.flags_of role }
{
    match role {
        Role::Null | Role::Shstrtab => 0,
        Role::Data | Role::Bss => SHF_ALLOC + SHF_WRITE,
        _ => SHF_ALLOC,
    }
}

/// What the section is aligned to, in bytes; 0 for the null section.
#[tactic(auto, unfolding(crate::specs::Roles::align_of))]
pub fn align_of(role: Role) -> u64
    ensures { result ≡ spec.align_of role }
{
    match role {
        Role::Null => 0,
        Role::Interp | Role::Shstrtab => 1,
        _ => TABLE_ALIGN,
    }
}

/// Bytes of a row of the section, 0 where it has none of one size.
#[tactic(auto, unfolding(crate::specs::Roles::entsize_of))]
pub fn entsize_of(role: Role) -> u64
    ensures { result ≡ spec.entsize_of role }
{
    match role {
        Role::Hash => WORD_SIZE as u64,
        Role::Dynsym => SYMBOL_SIZE as u64,
        Role::Versym => VERSYM_SIZE as u64,
        Role::RelaDyn | Role::RelaPlt => RELA_SIZE as u64,
        Role::RelrDyn => RELR_SIZE as u64,
        Role::Dynamic => ENTRY_SIZE as u64,
        _ => 0,
    }
}

fn has_name(name: &[u8], role: Role) -> bool
    ensures { result ≡ spec.has_name name.now role }
{
    is(section_name(role), name)
}

fn position_of(roles: &[Role], name: &[u8]) -> Option<usize>
    ensures { result ≡ position (spec.has_name name.now) roles.now }
{
    roles.iter().position(|role| has_name(name, *role))
}

/// The index of the section of a name, 0 where there is none.
#[tactic(auto, unfolding(crate::specs::Roles::index_of))]
pub fn index_of(roles: &[Role], name: &[u8]) -> usize
    ensures { result ≡ spec.index_of roles.now name.now }
{
    position_of(roles, name).unwrap_or(0)
}
