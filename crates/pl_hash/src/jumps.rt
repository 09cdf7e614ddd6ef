// Which symbols their own hashes lead to. How far each lies behind the head of its bucket's chain is told by the lengths of the chains; where so many steps lead from the head is found for all at once, by jumps of 1, 2, 4 and so on steps.
ghost use Rattle.std.specs.Prelude.{◌≡◌, ◌<◌, ◌%◌, ◌^◌, ℕ, map, length, slice_index, slice_index_or, false, None, IfOk, OnOk};
ghost use Rattle.std.specs.List.{range_with_len};
ghost use Rattle.pl_hash.specs.Table.{HasHeader, bucket_count};
ghost use Rattle.pl_hash.specs.Chain.{IsWellFormed};
ghost use Rattle.pl_hash.specs.ChainSymbols.{is_chain_symbol};
ghost use Rattle.pl_hash.specs.Lengths.{HasLengths};
ghost use Rattle.pl_hash.specs.Jumps as spec;
ghost use Rattle.pl_hash.specs.Queries as asked;

use crate::chain::{following, head, is_linked};
use crate::lengths::{length_at, note_all};
use crate::lookup::{admits, matches};
use crate::table::{Table, bucket_count};
use std::alloc::{AllocError, Global};

/// So many steps to be gone from a symbol on.
#[derive(Clone, Copy, Debug)]
pub struct Query {
    pub at: Option<u32>,
    pub left: u32,
}

#[tactic(auto, unfolding(crate::specs::Jumps::next_in_chain))]
fn next_in_chain(table: &Table, index: u32) -> Option<u32>
    requires { HasHeader table.now }
    ensures { result ≡ spec.next_in_chain table.now index }
{
    if is_linked(table, index) {
        following(table, index)
    } else {
        None
    }
}

/// The jumps of one step.
fn steps(alloc: Global, table: &Table) -> Result<Vec<Option<u32>>, AllocError>
    requires { HasHeader table.now }
    ensures { IfOk result (λ v. v.items ≡ map (spec.next_in_chain table.now)
        (range_with_len 0 table.now.symbols)) }
{
    (0..table.symbols())
        .map(|index| next_in_chain(table, index))
        .collect(alloc)
}

fn jump(jumps: &[Option<u32>], at: Option<u32>) -> Option<u32>
    ensures { result ≡ spec.jump jumps.now at }
{
    match at {
        None => None,
        Some(index) => {
            if (index as usize) < jumps.len() {
                jumps[index as usize]
            } else {
                None
            }
        }
    }
}

/// The jumps of twice as many steps.
fn doubled(alloc: Global, jumps: &[Option<u32>]) -> Result<Vec<Option<u32>>, AllocError>
    ensures { IfOk result (λ v. v.items ≡ map (spec.jump jumps.now) jumps.now) }
{
    jumps.iter().map(|at| jump(jumps, *at)).collect(alloc)
}

fn advanced(jumps: &[Option<u32>], query: &Query) -> Query
    ensures { result ≡ spec.advanced jumps.now query.now }
{
    let at = if query.left % 2 == 1 {
        jump(jumps, query.at)
    } else {
        query.at
    };
    Query {
        at,
        left: query.left / 2,
    }
}

fn all_advanced(
    alloc: Global,
    jumps: &[Option<u32>],
    queries: &[Query],
) -> Result<Vec<Query>, AllocError>
    ensures { IfOk result (λ v. v.items ≡ map (spec.advanced jumps.now) queries.now) }
{
    queries
        .iter()
        .map(|query| advanced(jumps, query))
        .collect(alloc)
}

#[tactic(auto, unfolding(crate::specs::Queries::all_done))]
fn all_done(queries: &[Query]) -> bool
    ensures { result ≡ asked.all_done queries.now }
{
    queries.iter().all(|query| query.left == 0)
}

/// Goes all steps of all queries.
fn answered(alloc: Global, table: &Table, first: Vec<Query>) -> Result<Vec<Query>, AllocError>
    requires header { HasHeader table.now }
    requires few { (index : ℕ) → index < length first.items
        → (asked.query_at first.items index).left < 2 ^ 32 }
    ensures { IfOk result (λ v. asked.AreAnswered table.now first.items v.items) }
{
    let mut queries = first;
    let mut jumps = steps(alloc, table)?;
    for round in 0..u32::BITS {
        if all_done(&queries) {
            return Ok(queries);
        }
        queries = all_advanced(alloc, &jumps, &queries)?;
        jumps = doubled(alloc, &jumps)?;
    }
    Ok(queries)
}

/// The steps from the head of its bucket's chain to a symbol, where the chain may have it.
fn query_of(table: &Table, lengths: &[u32], hash: u32, index: usize) -> Query
    requires formed { IsWellFormed table.now }
    requires known { HasLengths table.now lengths.now }
    ensures asked { asked.IsQuery table.now (hash % bucket_count table.now) index result }
    ensures small { result.left < 2 ^ 32 }
{
    let nowhere = Query { at: None, left: 0 };
    let Some(start) = head(table, hash % bucket_count(table)) else {
        return nowhere;
    };
    let whole = length_at(lengths, start as usize);
    let rest = length_at(lengths, index);
    if rest == 0 || rest > whole {
        return nowhere;
    }
    Query {
        at: Some(start),
        left: whole - rest,
    }
}

fn all_queries(
    alloc: Global,
    table: &Table,
    lengths: &[u32],
    hashes: &[u32],
) -> Result<Vec<Query>, AllocError>
    requires formed { IsWellFormed table.now }
    requires known { HasLengths table.now lengths.now }
    ensures { IfOk result (λ v. asked.AreQueries table.now hashes.now (length hashes.now) v.items) }
{
    let mut queries = Vec::new(alloc);
    for index in 0..hashes.len() {
        queries.push(query_of(table, lengths, hashes[index], index))?;
    }
    Ok(queries)
}

fn is_reached(table: &Table, hash: u32, index: usize, at: Option<u32>) -> bool
    requires { IsWellFormed table.now }
    ensures { result ≡ spec.is_reached table.now hash index at }
{
    match at {
        None => false,
        Some(at) => {
            at as usize == index
                && is_linked(table, at)
                && matches(table, hash, at)
                && admits(table, hash)
        }
    }
}

fn all_reached(
    alloc: Global,
    table: &Table,
    hashes: &[u32],
    queries: &[Query],
) -> Result<Vec<bool>, AllocError>
    requires formed { IsWellFormed table.now }
    requires len { length queries.now ≡ length hashes.now }
    ensures len { IfOk result (λ v. length v.items ≡ length hashes.now) }
    ensures exact { IfOk result (λ v. (index : ℕ) → index < length hashes.now
        → slice_index_or v.items index false ≡ spec.is_reached table.now
        (slice_index hashes.now index)
        index (asked.place_at queries.now index)) }
{
    let mut own = Vec::new(alloc);
    for index in 0..hashes.len() {
        own.push(is_reached(table, hashes[index], index, queries[index].at))?;
    }
    Ok(own)
}

/// The lengths of all chains.
fn all_lengths(alloc: Global, table: &Table) -> Result<Vec<u32>, AllocError>
    requires { IsWellFormed table.now }
    ensures { IfOk result (λ v. HasLengths table.now v.items) }
{
    let mut lengths = Vec::from_elem(alloc, 0, table.symbols() as usize)?;
    let _ends = note_all(table, &mut lengths);
    Ok(lengths)
}

/// For each of so many symbols, by their hashes, whether its own hash leads to it, that is, whether `first`, or a `next` after it, gives it for that hash (System V gABI chapter 5, "Hash Table"; GNU hash table). The time grows as the counts of symbols and of buckets, times the logarithm of the longest chain, also where chains share their ends. It fails only for want of memory.
pub fn found(alloc: Global, table: &Table, hashes: &[u32]) -> Result<Vec<bool>, AllocError>
    requires { IsWellFormed table.now }
    ensures len { IfOk result (λ v. length v.items ≡ length hashes.now) }
    ensures exact { IfOk result (λ v. (index : ℕ) → index < length hashes.now
        → slice_index_or v.items index false ≡ is_chain_symbol table.now
        (slice_index hashes.now index)
        index) }
{
    let lengths = all_lengths(alloc, table)?;
    let first = all_queries(alloc, table, &lengths, hashes)?;
    let queries = answered(alloc, table, first)?;
    all_reached(alloc, table, hashes, &queries)
}
