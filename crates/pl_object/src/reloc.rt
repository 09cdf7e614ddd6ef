/// A relocation with addend (x86-64 psABI, "Relocation").
#[derive(Clone, Copy, Debug, PartialEq, Eq)]
pub struct Reloc {
    /// Where the bytes that it changes stand in memory, as linked.
    pub address: u64,

    /// One of the `R_X86_64_` numbers.
    pub kind: u32,

    /// An index in the symbol table, 0 for none.
    pub symbol: u32,
    pub addend: i64,

    /// How many bytes it changes: none for NONE, its symbol's size for COPY, else a word's 8.
    pub width: u64,
}
