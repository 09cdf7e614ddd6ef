// One chain of a table.
ghost use Rattle.std.specs.Prelude.{◌≡◌, ◌+◌, ◌<◌, is_some};
ghost use Rattle.std.specs.Bool.{OnTrue};
ghost use Rattle.pl_hash.specs.Table.{HasHeader, bucket_count};
ghost use Rattle.pl_hash.specs.Chain as spec;

use crate::table::{
    Table, WORD_SIZE, bucket, bucket_count, chains_at, first_linked, link, link_at,
};

/// Whether there is a bucket and the buckets lie in the table.
#[tactic(auto, unfolding(crate::specs::Chain::has_buckets))]
pub fn has_buckets(table: &Table) -> bool
    requires { HasHeader table.now }
    ensures value { result ≡ spec.has_buckets table.now }
    ensures facts { OnTrue result (spec.HasBuckets table.now) }
{
    bucket_count(table) > 0 && chains_at(table) <= table.size()
}

/// The first symbol of a bucket's chain.
#[tactic(auto, unfolding(crate::specs::Chain::head))]
pub fn head(table: &Table, k: u32) -> Option<u32>
    requires buckets { spec.HasBuckets table.now }
    requires below { k < bucket_count table.now }
    ensures { result ≡ spec.head table.now k }
{
    let symbol = bucket(table, k);
    if symbol == 0 { None } else { Some(symbol) }
}

/// Whether a symbol is one of the object's, and its link lies in the table.
#[tactic(auto, unfolding(crate::specs::Chain::is_linked))]
pub fn is_linked(table: &Table, index: u32) -> bool
    requires { HasHeader table.now }
    ensures value { result ≡ spec.is_linked table.now index }
    ensures facts { OnTrue result (spec.IsLinked table.now index) }
{
    first_linked(table) <= index
        && index < table.symbols()
        && link_at(table, index) + WORD_SIZE <= table.size()
}

/// The symbol after one in its chain.
#[tactic(auto, unfolding(crate::specs::Chain::following))]
pub fn following(table: &Table, index: u32) -> Option<u32>
    requires header { HasHeader table.now }
    requires linked { spec.IsLinked table.now index }
    ensures { result ≡ spec.following table.now index }
{
    // The count of symbols has 32 bits, so the index after one of a symbol has too.
    let _count = table.symbols();
    let link = link(table, index);
    if table.is_gnu() {
        if link % 2 == 1 { None } else { Some(index + 1) }
    } else if link == 0 {
        None
    } else {
        Some(link)
    }
}

/// Whether the chain from a symbol on ends.
#[tactic(auto, unfolding(crate::specs::Chain::chain))]
pub fn chain_ends(table: &Table, start: Option<u32>) -> bool
    requires { HasHeader table.now }
    ensures { result ≡ is_some (spec.chain table.now start) }
{
    let mut at = start;
    for _ in 0..table.symbols() {
        let Some(index) = at else {
            return true;
        };
        if !is_linked(table, index) {
            return false;
        }
        at = following(table, index);
    }
    at.is_none()
}
