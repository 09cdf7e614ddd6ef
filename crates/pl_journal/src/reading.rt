ghost use Rattle.std.specs.Prelude.{◌≡◌, ◌≢◌, if◌then◌else◌, Ok, Some, None, IfErr, IfOk, List};
ghost use Rattle.std.specs.Option.{option_map};
ghost use Rattle.pl_base.specs.Answers.{Answers, AnswersAs};
ghost use Rattle.pl_journal.specs.Names as names;
ghost use Rattle.pl_journal.specs.Spelling as spelling;
ghost use Rattle.pl_journal.specs.Reading as spec;
ghost use Rattle.pl_journal.specs.declared.fault.JournalFault.TheVariants as faults;
ghost use Rattle.pl_journal.specs.declared.row.Row as declared;

use crate::constants::{DROP, MAGIC, MAX_ROWS, PUT};
use crate::names::CACHE;
use crate::rows::are_rows;
use crate::{JournalFault, Row};
use pl_base::{Rows, Text, valid_text, word32};
use std::alloc::Global;

/// A number of 32 bits, little-endian, and the bytes after it. Fewer than 4 bytes are a `BadJournal`.
#[tactic(auto, unfolding(crate::specs::Reading::number32_at))]
fn take_number32(bytes: &[u8]) -> Result<(u32, &[u8]), JournalFault>
    ensures { AnswersAs (λ x. (x.0, x.1.now)) spec.is_memory result (spec.number32_at bytes.now) }
{
    if bytes.len() < 4 {
        return Err(JournalFault::BadJournal);
    }
    let (_, rest) = bytes.split_at(4);
    Ok((word32(bytes, 0), rest))
}

/// The bytes of a name that a row may have, as text: a valid name or the cache's. Other bytes give none.
#[tactic(auto, using(crate::proofs::NameLemmas::cache_text))]
fn row_text(name: &[u8]) -> Option<&str>
    ensures { option_map (λ x. x.now) result ≡
        (if names.is_row_name name.now then Some name.now else None) }
{
    if name == CACHE.as_bytes() {
        return Some(CACHE);
    }
    valid_text(name)
}

/// A name of so many bytes, and the bytes after it. Fewer bytes, and a name that no row may have, are a `BadJournal`.
#[tactic(auto, unfolding(crate::specs::Reading::name_of_size))]
fn take_text(alloc: Global, size: usize, bytes: &[u8]) -> Result<(Text, &[u8]), JournalFault>
    ensures { AnswersAs (λ x. (x.0, x.1.now)) spec.is_memory result
        (spec.name_of_size size bytes.now) }
{
    if bytes.len() < size {
        return Err(JournalFault::BadJournal);
    }
    let (name, rest) = bytes.split_at(size);
    match row_text(name) {
        None => Err(JournalFault::BadJournal),
        Some(name) => Ok((Text::copy_of(alloc, name)?, rest)),
    }
}

/// A name behind its length, which is one byte, and the bytes after it.
#[tactic(auto, unfolding(crate::specs::Reading::name_at))]
fn take_name(alloc: Global, bytes: &[u8]) -> Result<(Text, &[u8]), JournalFault>
    ensures { AnswersAs (λ x. (x.0, x.1.now)) spec.is_memory result (spec.name_at bytes.now) }
{
    match bytes {
        [] => Err(JournalFault::BadJournal),
        [size, rest @ ..] => take_text(alloc, usize::from(*size), rest),
    }
}

/// The row of a code, with its name. A code other than `PUT` and `DROP` is a `BadJournal`.
#[tactic(auto, unfolding(crate::specs::Reading::row_of_kind))]
fn row_of(kind: u8, name: Text) -> Result<Row, JournalFault>
    ensures { Answers spec.is_memory result (spec.row_of_kind kind name) }
{
    if kind == PUT {
        Ok(Row::Put { name })
    } else if kind == DROP {
        Ok(Row::Drop { name })
    } else {
        Err(JournalFault::BadJournal)
    }
}

/// A row, its code of one byte before its name, and the bytes after it.
#[tactic(auto, unfolding(crate::specs::Reading::row_at))]
fn take_row(alloc: Global, bytes: &[u8]) -> Result<(Row, &[u8]), JournalFault>
    ensures { AnswersAs (λ x. (x.0, x.1.now)) spec.is_memory result (spec.row_at bytes.now) }
{
    match bytes {
        [] => Err(JournalFault::BadJournal),
        [kind, rest @ ..] => {
            let (name, rest) = take_name(alloc, rest)?;
            Ok((row_of(*kind, name)?, rest))
        }
    }
}

/// So many rows one after the other, and the bytes after them.
fn take_rows(alloc: Global, count: u32, bytes: &[u8]) -> Result<(Rows<Row>, &[u8]), JournalFault>
    ensures { AnswersAs (λ x. (x.0, x.1.now)) spec.is_memory result (spec.rows_at count bytes.now) }
{
    let mut rows = Rows::new(alloc);
    let mut rest = bytes;
    for _ in 0..count {
        let (row, after) = take_row(alloc, rest)?;
        rows.push(row)?;
        rest = after;
    }
    Ok((rows, rest))
}

/// The bytes after the magic. Bytes that do not begin with it are a `BadJournal`.
#[tactic(auto, unfolding(crate::specs::Reading::behind_magic))]
fn take_magic(bytes: &[u8]) -> Result<&[u8], JournalFault>
    ensures { AnswersAs (λ rest. rest.now) spec.is_memory result (spec.behind_magic bytes.now) }
{
    match bytes.strip_prefix(MAGIC.as_slice()) {
        None => Err(JournalFault::BadJournal),
        Some(rest) => Ok(rest),
    }
}

/// So many rows. More than `MAX_ROWS`, and bytes behind the rows, are a `BadJournal`.
#[tactic(auto, unfolding(crate::specs::Reading::all_rows))]
fn take_all_rows(alloc: Global, count: u32, bytes: &[u8]) -> Result<Rows<Row>, JournalFault>
    ensures { Answers spec.is_memory result (spec.all_rows count bytes.now) }
{
    if count > MAX_ROWS {
        return Err(JournalFault::BadJournal);
    }
    let (rows, rest) = take_rows(alloc, count, bytes)?;
    if !rest.is_empty() {
        return Err(JournalFault::BadJournal);
    }
    Ok(rows)
}

/// The rows as the bytes give them, of which two may have one name.
#[tactic(auto, unfolding(crate::specs::Reading::fields))]
fn take_fields(alloc: Global, bytes: &[u8]) -> Result<Rows<Row>, JournalFault>
    ensures { Answers spec.is_memory result (spec.fields bytes.now) }
{
    let rest = take_magic(bytes)?;
    let (count, rest) = take_number32(rest)?;
    take_all_rows(alloc, count, rest)
}

/// The rows of a journal, no two of one name.
#[tactic(auto, unfolding(crate::specs::Reading::read))]
fn read(alloc: Global, bytes: &[u8]) -> Result<Rows<Row>, JournalFault>
    ensures { Answers spec.is_memory result (spec.read bytes.now) }
{
    let rows = take_fields(alloc, bytes)?;
    if are_rows(rows.as_slice()) {
        Ok(rows)
    } else {
        Err(JournalFault::BadJournal)
    }
}

/// The rows of a journal that bytes spell.
///
/// `BadJournal` comes exactly where they spell none: the magic `PLJRNL01`, the number of rows in 32 bits, little-endian, at most 1025, and nothing behind the rows; a row is one byte, 1 to put and 2 to drop, one byte of length, and the name, which is valid or the cache's. No two rows have the same name. `Failed` does not come here.
pub fn read_journal(alloc: Global, bytes: &[u8]) -> Result<Rows<Row>, JournalFault>
    // What is read is spelled so.
    ensures found { IfOk result (spelling.IsJournalOf bytes.now) }
    // What is spelled so is read, unless there is no memory.
    ensures only { (rows : List declared.Row) → spelling.IsJournalOf bytes.now rows → Answers
        spec.is_memory result (Ok rows) }
    // No bytes spell two journals.
    ensures unique { (rows other : List declared.Row) → spelling.IsJournalOf bytes.now rows →
        spelling.IsJournalOf bytes.now other → rows ≡ other }
    ensures exact { Answers spec.is_memory result (spec.read bytes.now) }
    ensures plain { IfErr result (λ fault. fault ≢ faults.Failed) }
{
    read(alloc, bytes)
}
