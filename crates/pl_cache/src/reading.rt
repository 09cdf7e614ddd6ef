ghost use Rattle.std.specs.Prelude.{◌≡◌, Ok, take, IfOk};
ghost use Rattle.std.specs.Str.{bytes_eq};
ghost use Rattle.pl_base.specs.Answers.{Answers, AnswersAs};
ghost use Rattle.pl_cache.specs.declared.cache.Cache as declared;
ghost use Rattle.pl_cache.specs.Spelling as spelling;
ghost use Rattle.pl_cache.specs.Reading as spec;

use crate::constants::MAX_ROWS;
use crate::rows::{is_cache, magic_of};
use crate::{Cache, CacheFault};
use pl_base::{Rows, Text, valid_text, word32, word64};
use pl_slots::Slot;
use std::alloc::Global;

/// A number of 32 bits, and the bytes after it.
#[tactic(auto, unfolding(crate::specs::Reading::number32_at))]
fn take_number32(bytes: &[u8]) -> Result<(u32, &[u8]), CacheFault>
    ensures { AnswersAs (λ x. (x.0, x.1.now)) spec.is_memory result (spec.number32_at bytes.now) }
{
    if bytes.len() < 4 {
        return Err(CacheFault::BadCache);
    }
    let (_, rest) = bytes.split_at(4);
    Ok((word32(bytes, 0), rest))
}

/// A number of 64 bits, and the bytes after it.
#[tactic(auto, unfolding(crate::specs::Reading::number64_at))]
fn take_number64(bytes: &[u8]) -> Result<(u64, &[u8]), CacheFault>
    ensures { AnswersAs (λ x. (x.0, x.1.now)) spec.is_memory result (spec.number64_at bytes.now) }
{
    if bytes.len() < 8 {
        return Err(CacheFault::BadCache);
    }
    let (_, rest) = bytes.split_at(8);
    Ok((word64(bytes, 0), rest))
}

/// A name of so many bytes.
#[tactic(auto, unfolding(crate::specs::Reading::name_of_size))]
fn take_text(alloc: Global, size: usize, bytes: &[u8]) -> Result<(Text, &[u8]), CacheFault>
    ensures { AnswersAs (λ x. (x.0, x.1.now)) spec.is_memory result
        (spec.name_of_size size bytes.now) }
{
    if bytes.len() < size {
        return Err(CacheFault::BadCache);
    }
    let (name, rest) = bytes.split_at(size);
    match valid_text(name) {
        None => Err(CacheFault::BadCache),
        Some(name) => Ok((Text::copy_of(alloc, name)?, rest)),
    }
}

#[tactic(auto, unfolding(crate::specs::Reading::name_at))]
fn take_name(alloc: Global, bytes: &[u8]) -> Result<(Text, &[u8]), CacheFault>
    ensures { AnswersAs (λ x. (x.0, x.1.now)) spec.is_memory result (spec.name_at bytes.now) }
{
    match bytes {
        [] => Err(CacheFault::BadCache),
        [size, rest @ ..] => take_text(alloc, usize::from(*size), rest),
    }
}

#[tactic(auto, unfolding(crate::specs::Reading::row_at))]
fn take_row(alloc: Global, bytes: &[u8]) -> Result<(Slot, &[u8]), CacheFault>
    ensures { AnswersAs (λ x. (x.0, x.1.now)) spec.is_memory result (spec.row_at bytes.now) }
{
    let (name, rest) = take_name(alloc, bytes)?;
    let (start, rest) = take_number64(rest)?;
    let (span, rest) = take_number64(rest)?;
    Ok((Slot { name, start, span }, rest))
}

fn take_rows(alloc: Global, count: u32, bytes: &[u8]) -> Result<(Rows<Slot>, &[u8]), CacheFault>
    ensures { AnswersAs (λ x. (x.0, x.1.now)) spec.is_memory result (spec.rows_at count bytes.now) }
{
    let mut rows = Rows::new(alloc);
    let mut rest = bytes;
    for _ in 0..count {
        let (row, after) = take_row(alloc, rest)?;
        rows.push(row)?;
        rest = after;
    }
    Ok((rows, rest))
}

/// The bytes behind the magic.
#[tactic(auto, unfolding(crate::specs::Reading::behind_magic))]
fn take_magic(bytes: &[u8]) -> Result<&[u8], CacheFault>
    ensures { AnswersAs (λ rest. rest.now) spec.is_memory result (spec.behind_magic bytes.now) }
{
    if bytes.len() < 8 {
        return Err(CacheFault::BadCache);
    }
    let (_, rest) = bytes.split_at(8);
    Ok(rest)
}

fn begins_with(bytes: &[u8], magic: [u8; 8]) -> bool
    ensures { result ≡ bytes_eq (take 8 bytes.now) magic }
{
    bytes.strip_prefix(magic.as_slice()).is_some()
}

#[tactic(auto, unfolding(crate::specs::Reading::has_magic))]
fn has_magic(bytes: &[u8], cache: &Cache) -> bool
    ensures { result ≡ spec.has_magic bytes.now cache.now }
{
    begins_with(bytes, magic_of(cache.rows.as_slice()))
}

#[tactic(auto, unfolding(crate::specs::Reading::all_rows))]
fn take_all_rows(alloc: Global, count: u32, bytes: &[u8]) -> Result<Rows<Slot>, CacheFault>
    ensures { Answers spec.is_memory result (spec.all_rows count bytes.now) }
{
    if count > MAX_ROWS {
        return Err(CacheFault::BadCache);
    }
    let (rows, rest) = take_rows(alloc, count, bytes)?;
    if !rest.is_empty() {
        return Err(CacheFault::BadCache);
    }
    Ok(rows)
}

#[tactic(auto, unfolding(crate::specs::Reading::fields))]
fn take_fields(alloc: Global, bytes: &[u8]) -> Result<Cache, CacheFault>
    ensures { Answers spec.is_memory result (spec.fields bytes.now) }
{
    let rest = take_magic(bytes)?;
    let (last, rest) = take_number32(rest)?;
    let (count, rest) = take_number32(rest)?;
    let rows = take_all_rows(alloc, count, rest)?;
    Ok(Cache { last, rows })
}

#[tactic(auto, unfolding(crate::specs::Reading::read))]
fn read(alloc: Global, bytes: &[u8]) -> Result<Cache, CacheFault>
    ensures { Answers spec.is_memory result (spec.read bytes.now) }
{
    let cache = take_fields(alloc, bytes)?;
    if is_cache(&cache) && has_magic(bytes, &cache) {
        Ok(cache)
    } else {
        Err(CacheFault::BadCache)
    }
}

/// The cache that bytes spell.
///
/// BadCache comes exactly where they spell none: the magic, the last stamp and the number of rows in 32 bits each, at most 1024 rows, and nothing behind them; a row is one byte of length, the name, the slot's first address and its span in 64 bits each, and the rows are such that `is_cache` holds. The magic is `PLCACHE1` where no two slots share an address, and `PLCACHE2` where two do. All numbers are little-endian.
pub fn read_cache(alloc: Global, bytes: &[u8]) -> Result<Cache, CacheFault>
    // What is read is spelled so.
    ensures found { IfOk result (spelling.IsCacheOf bytes.now) }
    // What is spelled so is read, unless there is no memory.
    ensures only { (cache : declared.Cache) → spelling.IsCacheOf bytes.now cache
        → Answers spec.is_memory result (Ok cache) }
    // No bytes spell two caches.
    ensures unique { (cache other : declared.Cache) → spelling.IsCacheOf bytes.now cache
        → spelling.IsCacheOf bytes.now other → cache ≡ other }
    ensures exact { Answers spec.is_memory result (spec.read bytes.now) }
{
    read(alloc, bytes)
}
