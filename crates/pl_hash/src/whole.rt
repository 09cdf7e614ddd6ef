// The whole of a table.
ghost use Rattle.std.specs.Prelude.{◌≡◌, IfOk};
ghost use Rattle.std.specs.Bool.{OnTrue};
ghost use Rattle.pl_hash.specs.Table.{HasHeader};
ghost use Rattle.pl_hash.specs.Chain as spec;

use crate::chain::{chain_ends, has_buckets, head};
use crate::lengths::note_all;
use crate::table::{Table, bloom_size, bucket, bucket_count, chain_count, has_header, link_at};
use std::alloc::{AllocError, Global};

/// Whether the kind's count is right: a link for each symbol in a System V table, a power of two bloom words in a GNU table.
#[tactic(auto, unfolding(crate::specs::Chain::is_counted))]
fn is_counted(table: &Table) -> bool
    requires { HasHeader table.now }
    ensures { result ≡ spec.is_counted table.now }
{
    if table.is_gnu() {
        bloom_size(table).is_power_of_two()
    } else {
        chain_count(table) == table.symbols()
    }
}

/// Whether each bucket is 0.
#[tactic(auto, unfolding(crate::specs::Chain::has_empty_buckets))]
fn has_empty_buckets(table: &Table) -> bool
    requires { spec.HasBuckets table.now }
    ensures { result ≡ spec.has_empty_buckets table.now }
{
    (0..bucket_count(table)).all(|k| bucket(table, k) == 0)
}

/// Whether the links of all symbols lie in the table.
#[tactic(auto, unfolding(crate::specs::Chain::has_links))]
fn has_links(table: &Table) -> bool
    requires { spec.HasBuckets table.now }
    ensures { result ≡ spec.has_links table.now }
{
    table.is_gnu() && has_empty_buckets(table) || link_at(table, table.symbols()) <= table.size()
}

/// Whether each chain stays among the linked symbols, and ends.
#[tactic(auto, unfolding(crate::specs::Chain::chains_end))]
fn chains_end(table: &Table) -> bool
    requires { spec.HasBuckets table.now }
    ensures { result ≡ spec.chains_end table.now }
{
    (0..bucket_count(table)).all(|k| chain_ends(table, head(table, k)))
}

/// Whether a table is well formed: it has a bucket; its counts, buckets, links and chains stay in its bytes and below the count of symbols; and each chain ends.
///
/// A System V table (System V gABI chapter 5, "Hash Table") has a link for each symbol. In a GNU table (GNU hash table) the count of bloom words is a power of two, and a bucket is 0 or names a symbol from symoffset on; where every bucket is 0 there are no links, so the table ends after its buckets whatever symoffset and the count of symbols are. Bytes after the table, and links on no bucket's chain, are not looked at.
///
/// A hostile table costs as many steps as it has buckets times the count of symbols, which `is_whole` does not. No memory is taken.
#[tactic(auto, unfolding(crate::specs::Chain::well_formed))]
pub fn well_formed(table: &Table) -> bool
    ensures value { result ≡ spec.well_formed table.now }
    ensures facts { OnTrue result (spec.IsWellFormed table.now) }
{
    has_header(table)
        && has_buckets(table)
        && is_counted(table)
        && has_links(table)
        && chains_end(table)
}

/// `chains_end` in as many steps as there are symbols and buckets.
fn all_end(alloc: Global, table: &Table) -> Result<bool, AllocError>
    requires { spec.HasBuckets table.now }
    ensures { IfOk result (λ b. b ≡ spec.chains_end table.now) }
{
    let mut lengths = Vec::from_elem(alloc, 0, table.symbols() as usize)?;
    Ok(note_all(table, &mut lengths))
}

#[tactic(auto, unfolding(crate::specs::Chain::well_formed))]
fn checked(alloc: Global, table: &Table) -> Result<bool, AllocError>
    ensures { IfOk result (λ b. b ≡ spec.well_formed table.now) }
{
    if !(has_header(table) && has_buckets(table) && is_counted(table) && has_links(table)) {
        return Ok(false);
    }
    all_end(alloc, table)
}

/// The answer of `well_formed`, in a time that grows as the counts of symbols and of buckets, also where chains share their ends. It fails only for want of memory.
pub fn is_whole(alloc: Global, table: &Table) -> Result<bool, AllocError>
    ensures value { IfOk result (λ b. b ≡ spec.well_formed table.now) }
    ensures facts { IfOk result (λ b. OnTrue b (spec.IsWellFormed table.now)) }
{
    checked(alloc, table)
}
