use crate::Reloc;
use pl_base::{Rows, Text};
use pl_elf::{Header, Kind, Range, Section, Segment};
use pl_hash::Table;
use pl_sym::Symbol;
use pl_tls::Block;
use pl_ver::Versions;

/// A file that every acceptance clause accepts, taken apart. A static program has no names of libraries, no symbols, no versions, no hash tables and no relocations.
#[derive(Drop)]
pub struct Object {
    pub kind: Kind,
    pub header: Header,

    /// All sections, in the order of the section header table.
    pub sections: Rows<Section>,

    /// The header's entry, 0 for none.
    pub entry: u64,

    /// All segments, in the order of the program header table.
    pub segments: Rows<Segment>,

    /// The names of DT_NEEDED, in the order of the dynamic table.
    pub needed: Rows<Text>,

    /// The symbols of the dynamic symbol table, each with its version word. The word is 1 where the object has no table of them.
    pub symbols: Rows<Symbol>,

    /// None exactly where there is no DT_VERSYM.
    pub versions: Option<Versions>,

    /// The System V table, then the GNU table, as far as they are there.
    pub hashes: Rows<Table>,

    /// The relocations of DT_RELA, then those of DT_JMPREL, then one of kind RELATIVE and symbol 0 for each place that DT_RELR names, with the word at the place as addend.
    pub relocations: Rows<Reloc>,

    /// How many of the relocations are packed ones of DT_RELR. They stand last.
    pub packed: u32,

    /// Where the link tables stand in the file: the header, the program headers, the dynamic table, the symbols, the strings, the relocations of DT_RELA and of DT_JMPREL, the tables of DT_HASH, DT_GNU_HASH, DT_VERSYM, DT_VERDEF and DT_VERNEED, the packed relocations of DT_RELR, then each SYMTAB section. A table that is absent has no bytes. A static program has the header, the program headers and the SYMTAB sections alone.
    pub tables: Rows<Range>,

    /// Bytes in memory and alignment of the PT_TLS.
    pub tls: Option<Block>,

    /// Whether its own references search it first: DT_SYMBOLIC, or DF_SYMBOLIC in DT_FLAGS.
    pub symbolic: bool,

    /// How many entries of tag DT_NULL its dynamic table has, less one.
    pub spare: u32,

    /// The end of its last PT_LOAD, rounded up to a page.
    pub span: u64,

    /// The greatest alignment of its PT_LOADs, at least a page.
    pub align: u64,
}
