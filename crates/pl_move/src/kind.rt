ghost use Rattle.std.specs.Prelude.{◌≡◌, ◌+◌, ◌<◌, ◌≤◌, length};
ghost use Rattle.pl_move.specs.Moves as spec;

use pl_base::{word16, word32, word64};
use pl_dyn::constants::ENTRY_SIZE;
use pl_dyn::is_address_tag;
use pl_elf::constants::{
    HEADER_SIZE, R_X86_64_NONE, R_X86_64_RELATIVE, RELA_SIZE, SEGMENT_SIZE, WORD64_SIZE,
};
use pl_elf::is_moved_kind;
use pl_sym::constants::{SHN_LORESERVE, SHN_UNDEF, STT_TLS, SYMBOL_SIZE};

/// A kind of row with one word of 64 bits that may move with the file's address.
#[derive(Clone, Copy, Debug, PartialEq, Eq)]
pub enum RowKind {
    /// The ELF header: its entry.
    Entry,

    /// A program header: the address of a segment that has one.
    SegmentAddress,

    /// A program header: the physical address of such a segment.
    PhysicalAddress,

    /// An entry of the dynamic table: the value of an address tag.
    TagValue,

    /// A symbol: its value, where it has a section and is not thread-local.
    SymbolValue,

    /// A relocation with addend: where its place is.
    RelocationPlace,

    /// A relocation with addend: the addend of an R_X86_64_RELATIVE.
    RelativeAddend,

    /// A word of the packed relative relocations, where it is an address, which is even.
    PackedAddress,
}

impl RowKind {
    /// Bytes of a row.
    pub fn row_size(self) -> usize
        ensures size { result ≡ spec.row_size self }
        ensures some { 0 < result }
        ensures small { result ≤ 64 }
    {
        match self {
            RowKind::Entry => HEADER_SIZE,
            RowKind::SegmentAddress | RowKind::PhysicalAddress => SEGMENT_SIZE,
            RowKind::TagValue => ENTRY_SIZE,
            RowKind::SymbolValue => SYMBOL_SIZE,
            RowKind::RelocationPlace | RowKind::RelativeAddend => RELA_SIZE,
            RowKind::PackedAddress => WORD64_SIZE as usize,
        }
    }

    /// Where the word stands in a row.
    pub fn word_offset(self) -> usize
        ensures at { result ≡ spec.word_offset self }
        ensures within { result + 8 ≤ spec.row_size self }
    {
        match self {
            RowKind::Entry | RowKind::PhysicalAddress => 24,
            RowKind::SegmentAddress | RowKind::RelativeAddend => 16,
            RowKind::TagValue | RowKind::SymbolValue => 8,
            RowKind::RelocationPlace | RowKind::PackedAddress => 0,
        }
    }

    /// Whether the word of a row moves. The word itself does not tell it, but for an address of the packed relocations, where its parity does.
    pub fn moves(self, row: &[u8]) -> bool
        requires { length row.now ≡ spec.row_size self }
        ensures { result ≡ spec.moves self row.now }
    {
        match self {
            RowKind::Entry => true,
            RowKind::SegmentAddress | RowKind::PhysicalAddress => is_moved_kind(word32(row, 0)),
            RowKind::TagValue => is_address_tag(word64(row, 0)),
            RowKind::SymbolValue => has_section(word16(row, 6)) && row[4] % 16 != STT_TLS,
            RowKind::RelocationPlace => word32(row, 8) != R_X86_64_NONE,
            RowKind::RelativeAddend => word32(row, 8) == R_X86_64_RELATIVE,
            RowKind::PackedAddress => word64(row, 0) % 2 == 0,
        }
    }
}

/// Whether a symbol's section index is that of a section.
fn has_section(section: u16) -> bool
    ensures { result ≡ spec.has_section section }
{
    section > SHN_UNDEF && section < SHN_LORESERVE
}
