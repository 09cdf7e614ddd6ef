// Acceptance clauses 20 to 22 and 28: how symbols are found. A test is true where the clause refuses the file.
ghost use Rattle.std.specs.Prelude.{◌≡◌, ◌++◌, false, length, map, slice_get, slice_index_or, IsTrue, OnOk, IfOk};
ghost use Rattle.std.specs.List.{list_any, range_with_len};
ghost use Rattle.pl_base.specs.Answers.{Answers};
ghost use Rattle.pl_hash.specs.Chain.{IsWellFormed, well_formed};
ghost use Rattle.pl_object.specs.Finding as finding;
ghost use Rattle.pl_object.specs.Refusals.{is_memory};
ghost use Rattle.pl_object.specs.SymbolClauses as spec;

use crate::Refusal;
use crate::file_part::loaded;
use crate::tags::{has_tag, section_memory};
use crate::twins::duplicate_definer;
use pl_base::Rows;
use pl_dyn::Tag;
use pl_dyn::constants::{DT_GNU_HASH, DT_HASH};
use pl_elf::constants::{PAGE, PT_LOAD};
use pl_elf::{Section, Segment, segment_of_kind};
use pl_hash::{SYSV_HEADER_SIZE, Table, WORD_SIZE, found, is_whole, name_hash};
use pl_sym::constants::STT_GNU_IFUNC;
use pl_sym::{Class, Symbol, is_definer};
use pl_ver::Versions;
use std::alloc::{AllocError, Global};

/// Clause 20.
#[tactic(auto, unfolding(crate::specs::SymbolClauses::base_not_zero))]
fn base_not_zero(program: bool, segments: &[Segment]) -> bool
    ensures { result ≡ spec.base_not_zero program segments.now }
{
    !program && is_above(segment_of_kind(segments, PT_LOAD))
}

fn is_above(segment: Option<Segment>) -> bool
    ensures { result ≡ spec.is_above segment }
{
    match segment {
        None => false,
        Some(segment) => segment.vaddr / PAGE != 0,
    }
}

fn table_of(alloc: Global, words: &[u8], gnu: bool, symbols: u32) -> Result<Table, AllocError>
    ensures { IfOk result (λ table. table ≡ record
        { words = words.now; gnu = gnu; symbols = symbols }) }
{
    let words = Rows::from_vec(Vec::from_slice(alloc, words)?);
    if gnu {
        Ok(Table::gnu(words, symbols))
    } else {
        Ok(Table::sysv(words, symbols))
    }
}

/// Adds the hash table of a tag, where the tag is there.
#[tactic(auto, unfolding(crate::specs::SymbolClauses::hash_table))]
fn add_hash_table(
    alloc: Global,
    tables: &mut Rows<Table>,
    bytes: &[u8],
    segments: &[Segment],
    sections: &[Section],
    tags: &[Tag],
    count: u32,
    gnu: bool,
    number: u64,
) -> Result<(), AllocError>
    ensures { OnOk result (tables.new ≡ tables.old
        ++ spec.hash_table bytes.now segments.now sections.now tags.now count gnu number) }
{
    if has_tag(tags, number) {
        let memory = section_memory(tags, sections, number);
        tables.push(table_of(alloc, loaded(bytes, segments, memory), gnu, count)?)?;
    }
    Ok(())
}

/// The hash tables, the System V table first.
#[tactic(auto, unfolding(crate::specs::SymbolClauses::hash_tables))]
pub fn hash_tables(
    alloc: Global,
    bytes: &[u8],
    segments: &[Segment],
    sections: &[Section],
    tags: &[Tag],
    count: u32,
) -> Result<Rows<Table>, AllocError>
    ensures { IfOk result (λ tables. tables ≡ spec.hash_tables bytes.now segments.now sections.now
        tags.now count) }
{
    let mut tables = Rows::new(alloc);
    add_hash_table(
        alloc,
        &mut tables,
        bytes,
        segments,
        sections,
        tags,
        count,
        false,
        DT_HASH,
    )?;
    add_hash_table(
        alloc,
        &mut tables,
        bytes,
        segments,
        sections,
        tags,
        count,
        true,
        DT_GNU_HASH,
    )?;
    Ok(tables)
}

fn defines(symbol: &Symbol) -> bool
    ensures { result ≡ spec.defines symbol.now }
{
    is_definer(symbol, Class::Jump, false)
}

/// Whether it is a System V table whose bytes have room for one bucket alone.
#[tactic(auto, unfolding(crate::specs::Finding::has_one_bucket))]
fn has_one_bucket(table: &Table) -> bool
    ensures { result ≡ finding.has_one_bucket table.now }
{
    !table.is_gnu() && table.size() < SYSV_HEADER_SIZE + WORD_SIZE * (2 + table.symbols() as usize)
}

/// The hash by which a table is asked for a symbol. No name is read of a symbol that is no definer, nor where every hash leads to the same symbols.
#[tactic(auto, unfolding(crate::specs::Finding::asked_hash))]
fn asked_hash(table: &Table, symbol: &Symbol) -> u32
    ensures { result ≡ finding.asked_hash table.now symbol.now }
{
    if !defines(symbol) || has_one_bucket(table) {
        0
    } else {
        name_hash(table, symbol.name.as_slice())
    }
}

/// The hashes by which a table is asked for the symbols.
fn hashes(alloc: Global, table: &Table, symbols: &[Symbol]) -> Result<Vec<u32>, AllocError>
    ensures { IfOk result (λ v. v.items ≡ map (finding.asked_hash table.now) symbols.now) }
{
    symbols
        .iter()
        .map(|symbol| asked_hash(table, symbol))
        .collect(alloc)
}

fn is_unfound(found: &[bool], index: usize, symbols: &[Symbol]) -> bool
    requires { length found.now ≡ length symbols.now }
    ensures { result ≡ finding.is_unfound (slice_index_or found.now index false)
        (slice_get symbols.now index) }
{
    match symbols.get(index) {
        None => false,
        Some(symbol) => defines(symbol) && !found[index],
    }
}

fn any_unfound(found: &[bool], symbols: &[Symbol]) -> bool
    requires { length found.now ≡ length symbols.now }
    ensures { result ≡ list_any (λ index. finding.is_unfound (slice_index_or found.now index false)
        (slice_get symbols.now index)) (range_with_len 0 (length symbols.now)) }
{
    (0..symbols.len()).any(|index| is_unfound(found, index, symbols))
}

/// Whether a definer's own hash does not lead to it.
fn misses_one(alloc: Global, symbols: &[Symbol], table: &Table) -> Result<bool, AllocError>
    requires formed { IsWellFormed table.now }
    requires whole { IsTrue (well_formed table.now) }
    ensures { IfOk result (λ b. b ≡ spec.misses_one symbols.now table.now) }
{
    let hashes = hashes(alloc, table, symbols)?;
    let found = found(alloc, table, &hashes)?;
    Ok(any_unfound(&found, symbols))
}

#[tactic(auto, unfolding(crate::specs::SymbolClauses::is_incomplete))]
fn is_incomplete(alloc: Global, symbols: &[Symbol], table: &Table) -> Result<bool, AllocError>
    ensures { IfOk result (λ b. b ≡ spec.is_incomplete symbols.now table.now) }
{
    if !is_whole(alloc, table)? {
        return Ok(true);
    }
    misses_one(alloc, symbols, table)
}

fn any_defines(symbols: &[Symbol]) -> bool
    ensures { result ≡ list_any spec.defines symbols.now }
{
    symbols.iter().any(defines)
}

fn any_incomplete(alloc: Global, tables: &[Table], symbols: &[Symbol]) -> Result<bool, AllocError>
    ensures { IfOk result (λ b. b ≡ list_any (spec.is_incomplete symbols.now) tables.now) }
{
    for table in tables {
        if is_incomplete(alloc, symbols, table)? {
            return Ok(true);
        }
    }
    Ok(false)
}

/// Clause 21.
#[tactic(auto, unfolding(crate::specs::SymbolClauses::hash_incomplete))]
fn hash_incomplete(alloc: Global, tables: &[Table], symbols: &[Symbol]) -> Result<bool, AllocError>
    ensures { IfOk result (λ b. b ≡ spec.hash_incomplete tables.now symbols.now) }
{
    if tables.len() == 0 && any_defines(symbols) {
        return Ok(true);
    }
    any_incomplete(alloc, tables, symbols)
}

#[tactic(auto, unfolding(crate::specs::SymbolClauses::is_ifunc))]
fn is_ifunc(symbol: &Symbol) -> bool
    ensures { result ≡ spec.is_ifunc symbol.now }
{
    !symbol.is_undefined() && symbol.kind == STT_GNU_IFUNC
}

/// Clause 28.
#[tactic(auto, unfolding(crate::specs::SymbolClauses::has_ifunc))]
pub fn has_ifunc(symbols: &[Symbol]) -> bool
    ensures { result ≡ spec.has_ifunc symbols.now }
{
    symbols.iter().any(is_ifunc)
}

/// The first of clauses 20 to 22 that refuses the file.
#[tactic(auto, unfolding(crate::specs::SymbolClauses::check_symbols))]
pub fn check_symbols(
    alloc: Global,
    program: bool,
    segments: &[Segment],
    tables: &[Table],
    versions: &Option<Versions>,
    symbols: &[Symbol],
) -> Result<(), Refusal>
    ensures { Answers is_memory result (spec.check_symbols program segments.now tables.now
        versions.now symbols.now) }
{
    if base_not_zero(program, segments) {
        return Err(Refusal::clause(20));
    }
    if hash_incomplete(alloc, tables, symbols)? {
        return Err(Refusal::clause(21));
    }
    if duplicate_definer(alloc, versions, program, symbols)? {
        return Err(Refusal::clause(22));
    }
    Ok(())
}
