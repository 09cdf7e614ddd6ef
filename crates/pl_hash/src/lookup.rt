// The symbols that a hash leads to.
ghost use Rattle.std.specs.Prelude.{◌≡◌, ℕ, ◌<◌, nat_eq, slice_get, IsTrue, IsSome, IfSome};
ghost use Rattle.std.specs.List.{IsDistinct};
ghost use Rattle.pl_hash.specs.Table as part;
ghost use Rattle.pl_hash.specs.Chain.{IsLinked, IsWellFormed, chain};
ghost use Rattle.pl_hash.specs.ChainSymbols as spec;

use crate::chain::{following, head};
use crate::hash::{gnu_hash, sysv_hash};
use crate::table::{BLOOM_WORD_BITS, Table, bloom_shift, bloom_word, bucket_count, link};

/// Whether a bit of a bloom word is set.
fn has_bit(word: u64, bit: u32) -> bool
    requires { bit < BLOOM_WORD_BITS }
    ensures { result ≡ part.has_bit word bit }
{
    (word >> bit) % 2 == 1
}

/// The bit of a bloom word that a shifted hash stands for.
fn second_bit(hash: u32, shift: u32) -> u32
    ensures { result ≡ part.second_bit hash shift }
{
    if shift < u32::BITS {
        (hash >> shift) % BLOOM_WORD_BITS
    } else {
        0
    }
}

/// Whether the bloom word lets a hash pass.
#[tactic(auto, unfolding(crate::specs::Table::admits))]
pub fn admits(table: &Table, hash: u32) -> bool
    requires formed { IsWellFormed table.now }
    ensures { result ≡ part.admits table.now hash }
{
    if !table.is_gnu() {
        return true;
    }
    let word = bloom_word(table, hash);
    has_bit(word, hash % BLOOM_WORD_BITS) && has_bit(word, second_bit(hash, bloom_shift(table)))
}

/// Whether a symbol may have a hash.
#[tactic(auto, unfolding(crate::specs::Table::matches))]
pub fn matches(table: &Table, hash: u32, index: u32) -> bool
    requires header { part.HasHeader table.now }
    requires linked { IsLinked table.now index }
    ensures { result ≡ part.matches table.now hash index }
{
    !table.is_gnu() || link(table, index) / 2 == hash / 2
}

/// The first symbol that may have a hash, from one on in its chain.
fn first_matching(table: &Table, hash: u32, start: Option<u32>) -> Option<u32>
    requires header { part.HasHeader table.now }
    requires ends { IsSome (chain table.now start) }
    ensures { result ≡ slice_get (spec.matching table.now hash start) 0 }
{
    let mut at = start;
    while let Some(index) = at {
        if matches(table, hash, index) {
            return Some(index);
        }
        at = following(table, index);
    }
    None
}

/// The first symbol that a hash leads to: the first symbol of its chain that may have it (System V gABI chapter 5, "Hash Table"; GNU hash table). `None` exactly where there is none: the bloom word refuses the hash, its bucket is empty or, in a GNU table, no link has the upper 31 bits of the hash.
///
/// The symbols are distinct and below the count of symbols. No memory is taken, and no more steps than the chain has symbols.
#[tactic(auto, unfolding(crate::specs::ChainSymbols::chain_symbols))]
pub fn first(table: &Table, hash: u32) -> Option<u32>
    requires { IsWellFormed table.now }
    ensures value { result ≡ slice_get (spec.chain_symbols table.now hash) 0 }
    ensures rest { spec.rest_from result (spec.chain_symbols table.now hash)
        ≡ spec.chain_symbols table.now hash }
    ensures given { IfSome result (λ index. IsTrue (spec.is_chain_symbol table.now hash index)) }

    // Each index is one of a symbol, and is listed once.
    ensures within { (index : ℕ) → IsTrue (spec.is_chain_symbol table.now hash index)
        → index < table.now.symbols }
    ensures once { IsDistinct nat_eq (spec.chain_symbols table.now hash) }
{
    if !admits(table, hash) {
        return None;
    }
    first_matching(table, hash, head(table, hash % bucket_count(table)))
}

/// The symbol after one that `first` or `next` gave for this table and hash: the next symbol of its chain that may have it (System V gABI chapter 5, "Hash Table"; GNU hash table). `None` exactly after the last.
///
/// The symbol may have another name: its name, and its version, are the caller's to compare. No memory is taken, and no more steps than the chain has symbols left.
pub fn next(table: &Table, hash: u32, index: u32) -> Option<u32>
    requires formed { IsWellFormed table.now }
    requires given { IsTrue (spec.is_chain_symbol table.now hash index) }
    ensures value { result ≡ slice_get (spec.rest_after index (spec.chain_symbols table.now hash))
        0 }
    ensures rest { spec.rest_from result (spec.chain_symbols table.now hash)
        ≡ spec.rest_after index (spec.chain_symbols table.now hash) }
    ensures given { IfSome result (λ index. IsTrue (spec.is_chain_symbol table.now hash index)) }
{
    first_matching(table, hash, following(table, index))
}

/// The hash of 32 bits of a symbol's name that a table goes by: that of `gnu_hash` in a GNU table, that of `sysv_hash` in a System V one (System V gABI chapter 5, "Hash Table"; GNU hash table). The name is without the 0 that ends it.
pub fn name_hash(table: &Table, name: &[u8]) -> u32
    ensures { result ≡ spec.name_hash table.now name.now }
{
    if table.is_gnu() {
        gnu_hash(name)
    } else {
        sysv_hash(name)
    }
}
