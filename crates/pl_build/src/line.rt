use crate::kind::FileKind;
use pl_base::Rows;

/// Which hash tables a file has.
#[derive(Clone, Copy)]
pub struct Hashes {
    pub sysv: bool,
    pub gnu: bool,
}

/// A word of the data: eight bytes at an offset.
#[derive(Clone, Copy)]
pub struct DataWord {
    pub offset: u64,
    pub value: u64,
}

/// What the segment PT_TLS is to say. The offset is one in the data.
#[derive(Clone, Copy)]
pub struct TlsBlock {
    pub offset: u64,
    pub filesz: u64,
    pub memsz: u64,
    pub align: u64,
}

/// A line `def` or `ref`.
#[derive(Drop)]
pub struct SymbolLine {
    /// Whether it is a `def`.
    pub defined: bool,

    /// The name as the line writes it, with the version.
    pub written: Rows<u8>,

    /// The name alone.
    pub name: Rows<u8>,

    /// The version, empty for none.
    pub version: Rows<u8>,

    /// Whether the version stands behind two signs `@`: it is the default version of the name, which references without a version find.
    pub default_version: bool,

    /// The file that the version is needed of, empty for none.
    pub file: Rows<u8>,

    /// One of the `STB_` numbers.
    pub bind: u8,

    /// One of the `STT_` numbers. STT_NOTYPE stands for an absolute symbol.
    pub kind: u8,

    /// One of the `STV_` numbers.
    pub visibility: u8,

    /// Whether the line has an offset.
    pub placed: bool,
    pub offset: u64,
    pub size: u64,
}

/// An addend as a line writes it.
#[derive(Clone, Copy)]
pub struct Addend {
    /// Whether a sign stands before the number.
    pub negative: bool,
    pub magnitude: u64,
}

/// A line `rel` of kind `packed`: a word of the data that holds an address, and that the packed table relocates.
#[derive(Clone, Copy)]
pub struct PackedWord {
    pub offset: u64,

    /// How far the address lies behind that of the data.
    pub addend: Addend,
}

/// A line `rel` of another kind.
#[derive(Drop)]
pub struct Relocation {
    /// One of the `R_X86_64_` numbers.
    pub kind: u32,

    /// The data offset of the word.
    pub offset: u64,

    /// A symbol's name as its line writes it, or `-`.
    pub name: Rows<u8>,
    pub addend: Addend,
}

/// A line of a recipe.
#[derive(Drop)]
pub enum Line {
    /// Not in the grammar.
    Wrong,
    Empty,
    First(FileKind),
    Usual,
    Hash(Hashes),
    Buckets(u64),
    Spare(u64),
    Needs(Rows<u8>),
    Symbolic,
    Entry(u64),
    Data(u64),
    Bss(u64),
    Put(DataWord),
    Tls(TlsBlock),
    Version(Rows<u8>),
    Names(SymbolLine),
    Relocates(Relocation),
    Packs(PackedWord),
}
