// The faults of a recipe's lines.
ghost use Rattle.std.specs.Prelude.{◌≡◌, ◌+◌, ◌%◌, ◌<◌, ◌^◌, ◌||◌, ◌==◌, Some, find, length, map, nat_lt, take, IfOk};
ghost use Rattle.std.specs.List.{list_any};
ghost use Rattle.std.specs.Option.{option_copied, option_map};
ghost use Rattle.std.specs.Str.{bytes_eq};
ghost use Rattle.pl_build.specs.TextIndex.{IsIndexOf};
ghost use Rattle.pl_build.specs.PackedIndex as packed;
ghost use Rattle.pl_build.specs.NamedLines.{AreNamed};
ghost use Rattle.pl_build.specs.NamedLines as named;
ghost use Rattle.pl_build.specs.Checks as spec;

use crate::constants::{MAX_ADDEND, MAX_BSS, MAX_BUCKETS, MAX_DATA, MAX_SPARE};
use crate::line::{Addend, Line, PackedWord, SymbolLine};
use crate::names::is;
use crate::packed_index::PackedIndex;
use crate::relocation_lines::is_no_symbol;
use crate::text_index::TextIndex;
use pl_base::end;
use pl_elf::constants::WORD64_SIZE;
use std::alloc::{AllocError, Global};

/// A fault of a recipe.
#[derive(Clone, Copy)]
pub struct Fault {
    /// The number of the line, from 1 on; 0 where the tables or the file would be too large.
    pub line: u64,

    /// The lowest kind of the line's faults, 0 for none; 5 where the line is 0.
    pub kind: u8,
}

/// The lines of a recipe, with where a symbol is named first as it is written, where a version is defined first, and where a packed word stands first at an offset.
#[derive(Drop)]
pub struct NamedLines<'a> {
    pub lines: &'a [Line],
    pub written: TextIndex<'a>,
    pub versions: TextIndex<'a>,
    pub packed: PackedIndex,
}

fn is_first(line: &Line) -> bool
    ensures { result ≡ spec.is_first line.now }
{
    matches!(line, Line::First(_))
}

/// Whether a line is the first one of the recipe of a static program.
fn is_static_first(line: &Line) -> bool
    ensures { result ≡ spec.is_static_first (Some line.now) }
{
    match line {
        Line::First(kind) => kind.is_static(),
        _ => false,
    }
}

#[tactic(auto, unfolding(crate::specs::Checks::is_static_recipe))]
fn is_static_recipe(lines: &[Line]) -> bool
    ensures { result ≡ spec.is_static_recipe lines.now }
{
    match lines.get(0) {
        Some(line) => is_static_first(line),
        None => false,
    }
}

#[tactic(auto, unfolding(crate::specs::Checks::is_misplaced))]
fn is_misplaced(is_static: bool, line: &Line) -> bool
    ensures { result ≡ spec.is_misplaced is_static line.now }
{
    match line {
        Line::Wrong | Line::First(_) => true,
        Line::Empty | Line::Data(_) | Line::Bss(_) | Line::Put(_) | Line::Entry(_) => false,
        _ => is_static,
    }
}

#[tactic(auto, unfolding(crate::specs::Checks::is_wrong))]
fn is_wrong(lines: &[Line], index: usize, line: &Line) -> bool
    ensures { result ≡ spec.is_wrong lines.now index line.now }
{
    if index == 0 {
        !is_first(line)
    } else {
        is_misplaced(is_static_recipe(lines), line)
    }
}

#[tactic(auto, unfolding(crate::specs::Checks::is_over_addend))]
fn is_over_addend(addend: Addend) -> bool
    ensures { result ≡ spec.is_over_addend addend }
{
    let most = if addend.negative {
        MAX_ADDEND + 1
    } else {
        MAX_ADDEND
    };
    addend.magnitude > most
}

/// Whether one of the lines before an index has a packed word at an offset.
fn packs_before(lines: &NamedLines<'_>, index: usize, offset: u64) -> bool
    requires { AreNamed lines.now }
    ensures { result ≡ list_any (packed.packs_at offset) (take index lines.now.lines.now) }
{
    match lines.packed.first(offset) {
        None => false,
        Some(place) => place < index,
    }
}

/// Whether a packed word of one of the lines before an index shares a byte with one at an offset. Of those that do there are fifteen offsets.
fn shares_before(lines: &NamedLines<'_>, index: usize, offset: u64) -> bool
    requires named { AreNamed lines.now }
    requires fits { offset + 8 < 2 ^ 64 }
    ensures { result ≡ list_any (spec.shares offset) (take index lines.now.lines.now) }
{
    let start = offset.saturating_sub(7);
    for other in start..offset + 8 {
        if packs_before(lines, index, other) {
            return true;
        }
    }
    false
}

/// Whether a packed word stands at an odd offset, or passes so many bytes of data.
fn is_astray(size: u64, word: PackedWord) -> bool
    ensures { result ≡ (word.offset % 2 == 1 || nat_lt size (word.offset + WORD64_SIZE)) }
{
    word.offset % 2 == 1 || end(word.offset, WORD64_SIZE) > u128::from(size)
}

#[tactic(auto, unfolding(crate::specs::Checks::is_over_packed))]
fn is_over_packed(lines: &NamedLines<'_>, index: usize, size: u64, word: PackedWord) -> bool
    requires { AreNamed lines.now }
    ensures { result ≡ spec.is_over_packed (take index lines.now.lines.now) size word }
{
    if is_astray(size, word) {
        return true;
    }
    shares_before(lines, index, word.offset) || is_over_addend(word.addend)
}

#[tactic(auto, unfolding(crate::specs::Checks::is_over))]
fn is_over(lines: &NamedLines<'_>, index: usize, size: u64, line: &Line) -> bool
    requires { AreNamed lines.now }
    ensures { result ≡ spec.is_over (take index lines.now.lines.now) size line.now }
{
    match line {
        Line::Buckets(n) => *n == 0 || *n > MAX_BUCKETS,
        Line::Spare(n) => *n > MAX_SPARE,
        Line::Data(n) => *n > MAX_DATA,
        Line::Bss(n) => *n > MAX_BSS,
        Line::Put(word) => end(word.offset, WORD64_SIZE) > u128::from(size),
        Line::Relocates(relocation) => is_over_addend(relocation.addend),
        Line::Packs(word) => is_over_packed(lines, index, size, *word),
        _ => false,
    }
}

fn written_name(line: &Line) -> Option<&[u8]>
    ensures { option_map (λ name. name.now) result ≡ named.written_name line.now }
{
    match line {
        Line::Names(symbol) => Some(symbol.written.as_slice()),
        _ => None,
    }
}

fn defined_version(line: &Line) -> Option<&[u8]>
    ensures { option_map (λ name. name.now) result ≡ named.defined_version line.now }
{
    match line {
        Line::Version(version) => Some(version.as_slice()),
        _ => None,
    }
}

/// Where symbols are named first.
fn written_index<'a>(alloc: Global, lines: &'a [Line]) -> Result<TextIndex<'a>, AllocError>
    ensures { IfOk result (λ index. IsIndexOf spec.writes lines.now index) }
{
    let mut index = TextIndex::new(alloc);
    for place in 0..lines.len() {
        index.note(written_name(&lines[place]), place)?;
    }
    Ok(index)
}

/// Where versions are defined first.
fn version_index<'a>(alloc: Global, lines: &'a [Line]) -> Result<TextIndex<'a>, AllocError>
    ensures { IfOk result (λ index. IsIndexOf spec.defines lines.now index) }
{
    let mut index = TextIndex::new(alloc);
    for place in 0..lines.len() {
        index.note(defined_version(&lines[place]), place)?;
    }
    Ok(index)
}

fn packed_offset(line: &Line) -> Option<u64>
    ensures { result ≡ packed.packed_offset line.now }
{
    match line {
        Line::Packs(word) => Some(word.offset),
        _ => None,
    }
}

/// Where packed words stand first.
fn packed_index(alloc: Global, lines: &[Line]) -> Result<PackedIndex, AllocError>
    ensures { IfOk result (λ index. packed.IsPackedIndex lines.now index) }
{
    let mut index = PackedIndex::new(alloc);
    for place in 0..lines.len() {
        index.note(packed_offset(&lines[place]), place)?;
    }
    Ok(index)
}

fn named_lines<'a>(alloc: Global, lines: &'a [Line]) -> Result<NamedLines<'a>, AllocError>
    ensures same { IfOk result (λ named. named.lines.now ≡ lines.now) }
    ensures named { IfOk result (λ named. AreNamed named) }
{
    Ok(NamedLines {
        lines,
        written: written_index(alloc, lines)?,
        versions: version_index(alloc, lines)?,
        packed: packed_index(alloc, lines)?,
    })
}

fn is_written(lines: &NamedLines<'_>, name: &[u8]) -> bool
    requires { AreNamed lines.now }
    ensures { result ≡ list_any (spec.writes name.now) lines.now.lines.now }
{
    lines.written.first(name).is_some()
}

/// Whether a symbol is named by one of the lines before an index.
fn is_written_before(lines: &NamedLines<'_>, index: usize, name: &[u8]) -> bool
    requires { AreNamed lines.now }
    ensures { result ≡ list_any (spec.writes name.now) (take index lines.now.lines.now) }
{
    match lines.written.first(name) {
        None => false,
        Some(place) => place < index,
    }
}

fn is_defined(lines: &NamedLines<'_>, version: &[u8]) -> bool
    requires { AreNamed lines.now }
    ensures { result ≡ list_any (spec.defines version.now) lines.now.lines.now }
{
    lines.versions.first(version).is_some()
}

#[tactic(auto, unfolding(crate::specs::Checks::wants_version))]
fn wants_version(symbol: &SymbolLine) -> bool
    ensures { result ≡ spec.wants_version symbol.now }
{
    symbol.version.len() != 0 && symbol.file.len() == 0
}

#[tactic(auto, unfolding(crate::specs::Checks::is_unknown))]
fn is_unknown(lines: &NamedLines<'_>, line: &Line) -> bool
    requires { AreNamed lines.now }
    ensures { result ≡ spec.is_unknown lines.now.lines.now line.now }
{
    match line {
        Line::Relocates(relocation) => {
            let name = relocation.name.as_slice();
            !is_no_symbol(name) && !is_written(lines, name)
        }
        Line::Names(symbol) => {
            wants_version(symbol) && !is_defined(lines, symbol.version.as_slice())
        }
        _ => false,
    }
}

#[tactic(auto, unfolding(crate::specs::Checks::keyword))]
fn keyword(line: &Line) -> &'static [u8]
    ensures { result.now ≡ spec.keyword line.now }
{
    match line {
        Line::Usual => b"usual",
        Line::Hash(_) => b"hash",
        Line::Buckets(_) => b"buckets",
        Line::Spare(_) => b"spare",
        Line::Symbolic => b"symbolic",
        Line::Entry(_) => b"entry",
        Line::Data(_) => b"data",
        Line::Bss(_) => b"bss",
        Line::Tls(_) => b"tls",
        _ => b"",
    }
}

fn stands_in(lines: &[Line], word: &[u8]) -> bool
    ensures { result ≡ list_any (λ l. bytes_eq (spec.keyword l) word.now) lines.now }
{
    lines.iter().any(|line| is(keyword(line), word))
}

#[tactic(auto, unfolding(crate::specs::Checks::is_repeated))]
fn is_repeated(lines: &NamedLines<'_>, index: usize, line: &Line) -> bool
    requires named { AreNamed lines.now }
    requires within { index < length lines.now.lines.now }
    ensures { result ≡ spec.is_repeated (take index lines.now.lines.now) line.now }
{
    match line {
        Line::Names(symbol) => is_written_before(lines, index, symbol.written.as_slice()),
        _ => !keyword(line).is_empty() && stands_in(&lines.lines[..index], keyword(line)),
    }
}

fn is_data(line: &Line) -> bool
    ensures { result ≡ spec.is_data line.now }
{
    matches!(line, Line::Data(_))
}

fn find_data(lines: &[Line]) -> Option<&Line>
    ensures { option_copied result ≡ find spec.is_data lines.now }
{
    lines.iter().find(|line| is_data(line))
}

#[tactic(auto, unfolding(crate::specs::Checks::data_size))]
fn data_size(lines: &[Line]) -> u64
    ensures { result ≡ spec.data_size lines.now }
{
    match find_data(lines) {
        Some(Line::Data(size)) => *size,
        _ => 0,
    }
}

#[tactic(auto, unfolding(crate::specs::Checks::lowest_kind))]
fn lowest_kind(lines: &NamedLines<'_>, size: u64, index: usize, line: &Line) -> u8
    requires named { AreNamed lines.now }
    requires within { index < length lines.now.lines.now }
    ensures { result ≡ spec.lowest_kind lines.now.lines.now size index line.now }
{
    if is_wrong(lines.lines, index, line) {
        1
    } else if is_over(lines, index, size, line) {
        2
    } else if is_unknown(lines, line) {
        3
    } else if is_repeated(lines, index, line) {
        4
    } else {
        0
    }
}

#[tactic(auto, unfolding(crate::specs::Checks::fault_at))]
fn fault_at(lines: &NamedLines<'_>, size: u64, index: usize) -> Fault
    requires named { AreNamed lines.now }
    requires within { index < length lines.now.lines.now }
    ensures { result ≡ spec.fault_at lines.now.lines.now size index }
{
    let kind = match lines.lines.get(index) {
        Some(line) => lowest_kind(lines, size, index, line),
        None => 0,
    };
    Fault {
        line: index as u64 + 1,
        kind,
    }
}

#[tactic(auto, unfolding(crate::specs::Checks::first_fault, crate::specs::Checks::faults))]
fn first_fault_of(lines: &NamedLines<'_>) -> Option<Fault>
    requires { AreNamed lines.now }
    ensures { result ≡ spec.first_fault lines.now.lines.now }
{
    let size = data_size(lines.lines);
    (0..lines.lines.len())
        .map(|index| fault_at(lines, size, index))
        .find(|fault| fault.kind != 0)
}

/// The first line with a fault, and the lowest kind of its faults. The time grows as `n log n`.
pub fn first_fault(alloc: Global, lines: &[Line]) -> Result<Option<Fault>, AllocError>
    ensures { IfOk result (λ fault. fault ≡ spec.first_fault lines.now) }
{
    let named = named_lines(alloc, lines)?;
    Ok(first_fault_of(&named))
}
