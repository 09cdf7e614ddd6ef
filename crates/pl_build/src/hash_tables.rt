// The hash tables of symbols.
ghost use Rattle.std.specs.Prelude.{◌≡◌, ◌+◌, ◌++◌, ◌<◌, ◌≤◌, IfOk, OnOk, count_by, length};
ghost use Rattle.pl_build.specs.Symbols.{is_undefined};
ghost use Rattle.pl_build.specs.WordTables.{words};
ghost use Rattle.pl_build.specs.HashTables as spec;

use crate::constants::{BLOOM_COUNT, BLOOM_SHIFT_BITS};
use crate::fields::{Field, push_fields};
use crate::layout_plan::LayoutPlan;
use crate::line::SymbolLine;
use crate::symbols::bucket_of;
use pl_hash::{BLOOM_WORD_BITS, gnu_hash, sysv_hash};
use std::alloc::{AllocError, Global};

fn position_of(buckets: &[u64], bucket: u64) -> Option<usize>
    ensures { result ≡ spec.position_of buckets.now bucket }
{
    buckets.iter().position(|b| *b == bucket)
}

fn found(buckets: &[u64], from: usize, bucket: u64) -> Option<usize>
    requires { from ≤ length buckets.now }
    ensures { result ≡ spec.found buckets.now from bucket }
{
    position_of(&buckets[from..], bucket)
}

#[tactic(auto, unfolding(crate::specs::HashTables::sysv_buckets))]
fn sysv_buckets(alloc: Global, plan: &LayoutPlan) -> Result<Vec<u64>, AllocError>
    ensures { IfOk result (λ v. v.items ≡ spec.sysv_buckets plan.now) }
{
    let mut buckets = Vec::new(alloc);
    let count = plan.settings.buckets;
    let symbols = plan.symbols.as_slice();
    for symbol in symbols {
        buckets.push(bucket_of(count, sysv_hash(symbol.name.as_slice())))?;
    }
    Ok(buckets)
}

#[tactic(auto, unfolding(crate::specs::HashTables::first_from))]
fn first_from(buckets: &[u64], from: usize, bucket: u64) -> u64
    requires { from ≤ length buckets.now }
    ensures { result ≡ spec.first_from buckets.now from bucket }
{
    match found(buckets, from, bucket) {
        Some(k) => (from + k + 1) as u64,
        None => 0,
    }
}

#[tactic(auto, unfolding(crate::specs::HashTables::next_after))]
fn next_after(buckets: &[u64], index: usize) -> u64
    requires { index < length buckets.now }
    ensures { result ≡ spec.next_after buckets.now index }
{
    first_from(buckets, index + 1, buckets[index])
}

/// Adds the number of the first symbol of each bucket.
fn push_sysv_heads(out: &mut Vec<u8>, count: u64, buckets: &[u64]) -> Result<(), AllocError>
    ensures { OnOk result (out.new.items ≡ out.old.items
        ++ words (spec.first_from buckets.now 0) count) }
{
    for bucket in 0..count {
        push_fields(out, &[Field::Word(first_from(buckets, 0, bucket))])?;
    }
    Ok(())
}

/// Adds, for each symbol, the number of the next one of its bucket.
fn push_sysv_chains(out: &mut Vec<u8>, buckets: &[u64]) -> Result<(), AllocError>
    ensures { OnOk result (out.new.items ≡ out.old.items
        ++ words (spec.next_after buckets.now) (length buckets.now)) }
{
    for index in 0..buckets.len() {
        push_fields(out, &[Field::Word(next_after(buckets, index))])?;
    }
    Ok(())
}

#[tactic(auto, unfolding(crate::specs::HashTables::sysv_words))]
fn sysv_words(alloc: Global, count: u64, buckets: &[u64]) -> Result<Vec<u8>, AllocError>
    ensures { IfOk result (λ v. v.items ≡ spec.sysv_words count buckets.now) }
{
    let mut out = Vec::new(alloc);
    push_fields(
        &mut out,
        &[Field::Word(count), Field::Word(buckets.len() as u64 + 1)],
    )?;
    push_sysv_heads(&mut out, count, buckets)?;
    push_fields(&mut out, &[Field::Word(0)])?;
    push_sysv_chains(&mut out, buckets)?;
    Ok(out)
}

/// The bytes of `.hash`. It lists all symbols but the null one.
#[tactic(auto, unfolding(crate::specs::HashTables::sysv_table))]
pub fn sysv_table(alloc: Global, plan: &LayoutPlan) -> Result<Vec<u8>, AllocError>
    ensures { IfOk result (λ v. v.items ≡ spec.sysv_table plan.now) }
{
    let buckets = sysv_buckets(alloc, plan)?;
    sysv_words(alloc, plan.settings.buckets, buckets.as_slice())
}

fn is_defined(symbol: &SymbolLine) -> bool
    ensures { result ≡ spec.is_defined symbol.now }
{
    symbol.defined
}

#[tactic(auto, unfolding(crate::specs::HashTables::hash_of))]
fn hash_of(symbol: &SymbolLine) -> u32
    ensures { result ≡ spec.hash_of symbol.now }
{
    gnu_hash(symbol.name.as_slice())
}

fn gnu_hashes(alloc: Global, symbols: &[SymbolLine]) -> Result<Vec<u32>, AllocError>
    ensures { IfOk result (λ v. v.items ≡ spec.gnu_hashes symbols.now) }
{
    let mut hashes = Vec::new(alloc);
    for symbol in symbols {
        if is_defined(symbol) {
            hashes.push(hash_of(symbol))?;
        }
    }
    Ok(hashes)
}

#[tactic(auto, unfolding(crate::specs::HashTables::gnu_buckets))]
fn gnu_buckets(alloc: Global, count: u64, hashes: &[u32]) -> Result<Vec<u64>, AllocError>
    ensures { IfOk result (λ v. v.items ≡ spec.gnu_buckets count hashes.now) }
{
    let mut buckets = Vec::new(alloc);
    for hash in hashes {
        buckets.push(bucket_of(count, *hash))?;
    }
    Ok(buckets)
}

fn undefined_count(symbols: &[SymbolLine]) -> usize
    ensures value { result ≡ count_by is_undefined symbols.now }
    ensures within { result ≤ length symbols.now }
{
    symbols.iter().filter(|symbol| !symbol.defined).count()
}

#[tactic(auto, unfolding(crate::specs::HashTables::symoffset))]
fn symoffset(plan: &LayoutPlan) -> usize
    ensures { result ≡ spec.symoffset plan.now }
{
    undefined_count(plan.symbols.as_slice()) + 1
}

#[tactic(auto, unfolding(crate::specs::HashTables::bloom_more))]
fn bloom_more(word: u64, hash: u32) -> u64
    ensures { result ≡ spec.bloom_more word hash }
{
    let bits = BLOOM_WORD_BITS;
    let first = hash % bits;
    let second = (hash >> BLOOM_SHIFT_BITS) % bits;
    word | (1 << first) | (1 << second)
}

#[tactic(auto, unfolding(crate::specs::HashTables::bloom))]
fn bloom(hashes: &[u32]) -> u64
    ensures { result ≡ spec.bloom hashes.now }
{
    hashes.iter().fold(0, |word, hash| bloom_more(word, *hash))
}

#[tactic(auto, unfolding(crate::specs::HashTables::gnu_first))]
fn gnu_first(first: usize, buckets: &[u64], bucket: u64) -> u64
    ensures { result ≡ spec.gnu_first first buckets.now bucket }
{
    match found(buckets, 0, bucket) {
        Some(k) => (first as u64).wrapping_add(k as u64),
        None => 0,
    }
}

#[tactic(auto, unfolding(crate::specs::HashTables::goes_on))]
fn goes_on(buckets: &[u64], index: usize) -> bool
    requires { index < length buckets.now }
    ensures { result ≡ spec.goes_on buckets.now index }
{
    buckets[index + 1..].contains(&buckets[index])
}

#[tactic(auto, unfolding(crate::specs::HashTables::gnu_chain))]
fn gnu_chain(hashes: &[u32], buckets: &[u64], index: usize) -> u64
    requires hash { index < length hashes.now }
    requires bucket { index < length buckets.now }
    ensures { result ≡ spec.gnu_chain hashes.now buckets.now index }
{
    let hash = u64::from(hashes[index]);
    if goes_on(buckets, index) {
        hash / 2 * 2
    } else {
        hash / 2 * 2 + 1
    }
}

/// Adds the number of the first symbol of each bucket, where the first of all has a number.
fn push_gnu_heads(
    out: &mut Vec<u8>,
    count: u64,
    first: usize,
    buckets: &[u64],
) -> Result<(), AllocError>
    ensures { OnOk result (out.new.items ≡ out.old.items
        ++ words (spec.gnu_first first buckets.now) count) }
{
    for bucket in 0..count {
        push_fields(out, &[Field::Word(gnu_first(first, buckets, bucket))])?;
    }
    Ok(())
}

/// Adds the hash of each symbol, with the bit that ends its bucket.
fn push_gnu_chains(out: &mut Vec<u8>, hashes: &[u32], buckets: &[u64]) -> Result<(), AllocError>
    requires { length buckets.now ≡ length hashes.now }
    ensures { OnOk result (out.new.items ≡ out.old.items
        ++ words (spec.gnu_chain hashes.now buckets.now) (length hashes.now)) }
{
    for index in 0..hashes.len() {
        push_fields(out, &[Field::Word(gnu_chain(hashes, buckets, index))])?;
    }
    Ok(())
}

#[tactic(auto, unfolding(crate::specs::HashTables::gnu_words))]
fn gnu_words(
    alloc: Global,
    count: u64,
    first: usize,
    hashes: &[u32],
    buckets: &[u64],
) -> Result<Vec<u8>, AllocError>
    requires { length buckets.now ≡ length hashes.now }
    ensures { IfOk result (λ v. v.items ≡ spec.gnu_words count first hashes.now buckets.now) }
{
    let mut out = Vec::new(alloc);
    push_fields(
        &mut out,
        &[
            Field::Word(count),
            Field::Word(first as u64),
            Field::Word(BLOOM_COUNT),
            Field::Word(BLOOM_SHIFT_BITS),
            Field::Xword(bloom(hashes)),
        ],
    )?;
    push_gnu_heads(&mut out, count, first, buckets)?;
    push_gnu_chains(&mut out, hashes, buckets)?;
    Ok(out)
}

/// The bytes of `.gnu.hash`. It lists the defined symbols, which stand last.
#[tactic(auto, unfolding(crate::specs::HashTables::gnu_table))]
pub fn gnu_table(alloc: Global, plan: &LayoutPlan) -> Result<Vec<u8>, AllocError>
    ensures { IfOk result (λ v. v.items ≡ spec.gnu_table plan.now) }
{
    let count = plan.settings.buckets;
    let hashes = gnu_hashes(alloc, plan.symbols.as_slice())?;
    let buckets = gnu_buckets(alloc, count, hashes.as_slice())?;
    gnu_words(
        alloc,
        count,
        symoffset(plan),
        hashes.as_slice(),
        buckets.as_slice(),
    )
}
