// A table and its parts.
ghost use Rattle.std.specs.Prelude.{◌≡◌, ℕ, ◌+◌, ◌*◌, ◌<◌, ◌≤◌, ◌^◌, true, false, length, IsTrue};
ghost use Rattle.std.specs.Bool.{OnTrue};
ghost use Rattle.pl_hash.specs.Header.{IsHeader};
ghost use Rattle.pl_hash.specs.Table as spec;

use pl_base::{Rows, word32, word64};
use std::marker::Model;

/// Where a word of the header stands, in bytes: in both kinds of table, the count of buckets.
pub const NBUCKET: usize = 0;

/// In a System V table, the count of links.
pub const NCHAIN: usize = 4;

/// In a GNU table, the first symbol with a link.
pub const SYMOFFSET: usize = 4;

/// In a GNU table, the count of bloom words.
pub const BLOOM_SIZE: usize = 8;

/// In a GNU table, by how many bits a hash is shifted for its second bit in the bloom word.
pub const BLOOM_SHIFT: usize = 12;

/// The size of a System V table's header, in bytes.
pub const SYSV_HEADER_SIZE: usize = 8;

/// The size of a GNU table's header, in bytes.
pub const GNU_HEADER_SIZE: usize = 16;

/// The size of a bucket and of a link, in bytes.
pub const WORD_SIZE: usize = 4;

/// The size of a bloom word, in bytes.
pub const BLOOM_WORD_SIZE: usize = 8;

/// The size of a bloom word, in bits.
pub const BLOOM_WORD_BITS: u32 = 64;

/// What stands for the header of a table that does not hold it.
const NO_HEADER: Header = Header {
    buckets: 0,
    links: 0,
    bloom_size: 0,
    bloom_shift: 0,
    buckets_at: 0,
    chains_at: 0,
};

/// What the header of a table says, with where its parts begin; all 0 where the table does not hold it.
#[derive(Clone, Copy, Debug)]
pub struct Header {
    /// The count of buckets.
    pub buckets: u32,

    /// In a System V table the count of links, in a GNU table the first symbol with a link.
    pub links: u32,

    /// In a GNU table, the count of bloom words.
    pub bloom_size: u32,

    /// In a GNU table, by how many bits a hash is shifted for its second bit in the bloom word.
    pub bloom_shift: u32,

    /// Where the buckets begin, in bytes.
    pub buckets_at: usize,

    /// Where the links begin, in bytes.
    pub chains_at: usize,
}

/// A hash table of symbols (System V gABI chapter 5, "Hash Table"; GNU hash table of binutils). Its header is read once, when it is made. Contracts see it as its bytes, its kind and the count of symbols.
#[derive(Drop)]
pub struct Table {
    words: Rows<u8>,
    gnu: bool,
    symbols: u32,
    header: Header,
}

impl Model for Table {
    ghost use Rattle.pl_hash.specs.Table.{HashTable};
    ghost use Rattle.pl_hash.specs.Header.{IsHeader};

    ghost Value = { HashTable };

    ghost view = { λ t. record { words = t.words; gnu = t.gnu; symbols = t.symbols } };

    ghost invariant = { λ t. IsHeader (record { words = t.words; gnu = t.gnu; symbols = t.symbols }) t.header };
}

impl Table {
    /// The System V table of the bytes from its header on, which may go on after it, in an object of so many symbols, the one of index 0 among them. It takes no memory.
    pub fn sysv(words: Rows<u8>, symbols: u32) -> Table
        ensures { result ≡ record { words = words; gnu = false; symbols = symbols } }
    {
        let header = sysv_header(words.as_slice());
        Table {
            words,
            gnu: false,
            symbols,
            header,
        }
    }

    /// The GNU table of the bytes from its header on, which may go on after it, in an object of so many symbols, the one of index 0 among them. It takes no memory.
    pub fn gnu(words: Rows<u8>, symbols: u32) -> Table
        ensures { result ≡ record { words = words; gnu = true; symbols = symbols } }
    {
        let header = gnu_header(words.as_slice());
        Table {
            words,
            gnu: true,
            symbols,
            header,
        }
    }

    /// Whether it is a GNU table; otherwise it is a System V one.
    pub fn is_gnu(&self) -> bool
        ensures { result ≡ self.now.gnu }
    {
        self.gnu
    }

    /// How many symbols the object's symbol table has.
    pub fn symbols(&self) -> u32
        ensures { result ≡ self.now.symbols }
    {
        self.symbols
    }

    /// How many bytes it has, with those after the table.
    pub fn size(&self) -> usize
        ensures { result ≡ length self.now.words }
    {
        self.words.len()
    }
}

/// The header of a System V table.
fn sysv_header(words: &[u8]) -> Header
    ensures { (symbols : ℕ) → IsHeader (record
        { words = words.now; gnu = false; symbols = symbols }) result }
{
    if words.len() < SYSV_HEADER_SIZE {
        return NO_HEADER;
    }
    let buckets = word32(words, NBUCKET);
    Header {
        buckets,
        links: word32(words, NCHAIN),
        bloom_size: 0,
        bloom_shift: 0,
        buckets_at: SYSV_HEADER_SIZE,
        chains_at: SYSV_HEADER_SIZE + WORD_SIZE * buckets as usize,
    }
}

/// The header of a GNU table.
fn gnu_header(words: &[u8]) -> Header
    ensures { (symbols : ℕ) → IsHeader (record
        { words = words.now; gnu = true; symbols = symbols }) result }
{
    if words.len() < GNU_HEADER_SIZE {
        return NO_HEADER;
    }
    let buckets = word32(words, NBUCKET);
    let bloom_size = word32(words, BLOOM_SIZE);
    let buckets_at = GNU_HEADER_SIZE + BLOOM_WORD_SIZE * bloom_size as usize;
    Header {
        buckets,
        links: word32(words, SYMOFFSET),
        bloom_size,
        bloom_shift: word32(words, BLOOM_SHIFT),
        buckets_at,
        chains_at: buckets_at + WORD_SIZE * buckets as usize,
    }
}

/// Whether the header lies in the table.
#[tactic(auto, unfolding(crate::specs::Table::has_header))]
pub fn has_header(table: &Table) -> bool
    ensures value { result ≡ spec.has_header table.now }
    ensures facts { OnTrue result (spec.HasHeader table.now) }
{
    let size = if table.is_gnu() {
        GNU_HEADER_SIZE
    } else {
        SYSV_HEADER_SIZE
    };
    size <= table.size()
}

/// The count of buckets.
pub fn bucket_count(table: &Table) -> u32
    requires { spec.HasHeader table.now }
    ensures { result ≡ spec.bucket_count table.now }
{
    table.header.buckets
}

/// The count of links in a System V table.
pub fn chain_count(table: &Table) -> u32
    requires { spec.HasHeader table.now }
    ensures { result ≡ spec.chain_count table.now }
{
    table.header.links
}

/// The first symbol with a link in a GNU table.
pub fn symoffset(table: &Table) -> u32
    requires header { spec.HasHeader table.now }
    requires gnu { IsTrue table.now.gnu }
    ensures { result ≡ spec.symoffset table.now }
{
    table.header.links
}

/// The count of bloom words in a GNU table.
pub fn bloom_size(table: &Table) -> u32
    requires header { spec.HasHeader table.now }
    requires gnu { IsTrue table.now.gnu }
    ensures { result ≡ spec.bloom_size table.now }
{
    table.header.bloom_size
}

/// By how many bits a hash is shifted for its second bit in a GNU table's bloom word.
pub fn bloom_shift(table: &Table) -> u32
    requires header { spec.HasHeader table.now }
    requires gnu { IsTrue table.now.gnu }
    ensures { result ≡ spec.bloom_shift table.now }
{
    table.header.bloom_shift
}

/// Where the buckets begin, in bytes.
pub fn buckets_at(table: &Table) -> usize
    requires { spec.HasHeader table.now }
    ensures value { result ≡ spec.buckets_at table.now }
    ensures small { result < 2 ^ 36 }
{
    table.header.buckets_at
}

/// Where the links begin, in bytes.
pub fn chains_at(table: &Table) -> usize
    requires { spec.HasHeader table.now }
    ensures value { result ≡ spec.chains_at table.now }
    ensures small { result < 2 ^ 37 }
{
    table.header.chains_at
}

/// The first symbol with a link.
#[tactic(auto, unfolding(crate::specs::Table::first_linked))]
pub fn first_linked(table: &Table) -> u32
    requires { spec.HasHeader table.now }
    ensures { result ≡ spec.first_linked table.now }
{
    if table.is_gnu() { symoffset(table) } else { 0 }
}

/// Where a symbol's link begins, in bytes.
#[tactic(auto, unfolding(crate::specs::Table::link_at))]
pub fn link_at(table: &Table, index: u32) -> usize
    requires { spec.HasHeader table.now }
    ensures value { result ≡ spec.link_at table.now index }
    ensures small { result < 2 ^ 38 }
{
    chains_at(table) + WORD_SIZE * index.saturating_sub(first_linked(table)) as usize
}

/// The table's bytes, lent.
fn bytes(table: &Table) -> &[u8]
    ensures { result.now ≡ table.now.words }
{
    table.words.as_slice()
}

/// The bucket of a number, from 0.
#[tactic(auto, unfolding(crate::specs::Table::bucket, crate::specs::Table::chains_at))]
pub fn bucket(table: &Table, k: u32) -> u32
    requires header { spec.HasHeader table.now }
    requires buckets { spec.chains_at table.now ≤ length table.now.words }
    requires below { k < spec.bucket_count table.now }
    ensures { result ≡ spec.bucket table.now k }
{
    word32(bytes(table), buckets_at(table) + WORD_SIZE * k as usize)
}

/// A symbol's link.
#[tactic(auto, unfolding(crate::specs::Table::link))]
pub fn link(table: &Table, index: u32) -> u32
    requires header { spec.HasHeader table.now }
    requires within { spec.link_at table.now index + WORD_SIZE ≤ length table.now.words }
    ensures { result ≡ spec.link table.now index }
{
    word32(bytes(table), link_at(table, index))
}

/// The bloom word of a hash.
#[tactic(auto, unfolding(crate::specs::Table::bloom_word, crate::specs::Table::chains_at, crate::specs::Table::buckets_at))]
pub fn bloom_word(table: &Table, hash: u32) -> u64
    requires header { spec.HasHeader table.now }
    requires gnu { IsTrue table.now.gnu }
    requires buckets { spec.chains_at table.now ≤ length table.now.words }
    requires some { 0 < spec.bloom_size table.now }
    ensures { result ≡ spec.bloom_word table.now hash }
{
    let number = hash / BLOOM_WORD_BITS % bloom_size(table);
    word64(
        bytes(table),
        GNU_HEADER_SIZE + BLOOM_WORD_SIZE * number as usize,
    )
}
