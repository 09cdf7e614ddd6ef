// What is found by segments, sections, tags and rows: where a form changes an original, and where Back restores it.
ghost use Rattle.std.specs.Prelude.{◌≡◌, ◌+◌, ◌*◌, ◌^◌, ◌<◌, ◌++◌, ◌∷◌, [], ◌≤◌, slice_index, length, map, true, IfOk, OnOk};
ghost use Rattle.pl_base.specs.Bytes as bytes;
ghost use Rattle.pl_base.specs.Windows as window_words;
ghost use Rattle.pl_object.specs.PlaceClauses as clauses;
ghost use Rattle.pl_object.specs.Relocations as relocations;
ghost use Rattle.pl_object.specs.Tables as tables;
ghost use Rattle.pl_form.specs.Back.{all_within};
ghost use Rattle.pl_form.specs.Found as spec;
ghost use Rattle.pl_form.specs.Loads as loads;
ghost use Rattle.pl_form.specs.Rows as row_words;

use crate::Spot;
use crate::bytes::split;
use crate::windows::{all_bytes, are_in};
use pl_base::{Rows, end, part, word32, word64};
use pl_dyn::Tag;
use pl_dyn::constants::DT_SYMTAB;
use pl_elf::constants::{
    PT_DYNAMIC, R_X86_64_COPY, R_X86_64_NONE, RELA_SIZE, SHT_SYMTAB, WORD64_SIZE,
};
use pl_elf::{Section, Segment, segment_of_kind};
use pl_move::{RowKind, Table, rows_of};
use pl_object::tags::{
    dynamic_memory, has_tag, jmprel_memory, rela_memory, relr_memory, symbols_memory,
};
use pl_object::{Window, file_window, in_file_part, last_load};
use pl_relr::{RelrFault, unpack};
use pl_sym::constants::SYMBOL_SIZE;
use std::alloc::{AllocError, Global};

/// How many packed places are looked at.
const MOST_PLACES: u64 = 4_294_967_296;

/// The dynamic table, as the segments say.
pub fn dynamic_in(segments: &[Segment]) -> Window
    ensures { result ≡ spec.dynamic_in segments.now }
{
    file_window(segments, dynamic_memory(segments))
}

/// Whether there is a PT_DYNAMIC whose file bytes a PT_LOAD loads.
pub fn has_dynamic_table(segments: &[Segment]) -> bool
    ensures { result ≡ spec.has_dynamic_table segments.now }
{
    segment_of_kind(segments, PT_DYNAMIC).is_some()
        && in_file_part(segments, dynamic_memory(segments))
}

/// The windows of the rows of relocations: those of DT_RELA, of DT_JMPREL, the packed ones, and the symbols.
fn row_windows(segments: &[Segment], sections: &[Section], tags: &[Tag]) -> [Window; 4]
    ensures { result ≡ spec.row_windows segments.now sections.now tags.now }
{
    [
        file_window(segments, rela_memory(tags)),
        file_window(segments, jmprel_memory(tags)),
        file_window(segments, relr_memory(tags)),
        file_window(segments, symbols_memory(tags, sections)),
    ]
}

/// Whether there are symbols, and each table whose words move is in the file part.
pub fn has_tables(segments: &[Segment], sections: &[Section], tags: &[Tag]) -> bool
    ensures { result ≡ spec.has_tables segments.now sections.now tags.now }
{
    has_tag(tags, DT_SYMTAB)
        && in_file_part(segments, symbols_memory(tags, sections))
        && in_file_part(segments, rela_memory(tags))
        && in_file_part(segments, jmprel_memory(tags))
        && in_file_part(segments, relr_memory(tags))
}

/// Adds a table of symbols, where a section is a SYMTAB section.
#[tactic(auto, unfolding(pl_object::specs::Tables::symtab_windows))]
fn push_symtab(all: &mut Rows<Table>, section: &Section) -> Result<(), AllocError>
    ensures { OnOk result (all.new ≡ all.old ++ spec.symtab_tables
        (tables.symtab_windows (section.now ∷ []))) }
{
    if section.kind != SHT_SYMTAB {
        return Ok(());
    }
    let window = Window::new(u128::from(section.offset), section.size);
    all.push(rows_of(RowKind::SymbolValue, window))?;
    Ok(())
}

/// Adds a table of symbols for each SYMTAB section.
fn push_symtabs(all: &mut Rows<Table>, sections: &[Section]) -> Result<(), AllocError>
    ensures { OnOk result (all.new ≡ all.old ++ spec.symtab_tables
        (tables.symtab_windows sections.now)) }
{
    for section in sections {
        push_symtab(all, section)?;
    }
    Ok(())
}

/// The tables whose words move: the symbols, the relocations and the SYMTAB sections.
pub fn moved_tables(
    alloc: Global,
    segments: &[Segment],
    sections: &[Section],
    tags: &[Tag],
) -> Result<Rows<Table>, AllocError>
    ensures { IfOk result (λ all. all ≡ spec.moved_tables segments.now sections.now tags.now) }
{
    let [rela, jmprel, packed, symbols] = row_windows(segments, sections, tags);
    let main = [
        rows_of(RowKind::SymbolValue, symbols),
        rows_of(RowKind::RelocationPlace, rela),
        rows_of(RowKind::RelativeAddend, rela),
        rows_of(RowKind::RelocationPlace, jmprel),
        rows_of(RowKind::RelativeAddend, jmprel),
        rows_of(RowKind::PackedAddress, packed),
    ];
    let mut all = Rows::from_vec(Vec::from_slice(alloc, &main)?);
    push_symtabs(&mut all, sections)?;
    Ok(all)
}

/// The byte at an offset, 0 past the end.
fn byte_or_zero(xs: &[u8], at: u128) -> u64
    ensures value { result ≡ slice_index xs.now at }
    ensures small { result < 256 }
{
    if at >= xs.len() as u128 {
        return 0;
    }
    u64::from(xs[at as usize])
}

/// The word of 32 bits at an offset; a byte past the end counts as 0.
fn half_or_zeros(xs: &[u8], at: u128) -> u64
    requires { at < 2 ^ 101 }
    ensures value { result ≡ bytes.word32 at xs.now }
    ensures small { result < 2 ^ 32 }
{
    let low = byte_or_zero(xs, at) + 256 * byte_or_zero(xs, at + 1);
    let high = byte_or_zero(xs, at + 2) + 256 * byte_or_zero(xs, at + 3);
    low + 65_536 * high
}

/// The word of 64 bits at an offset; a byte past the end counts as 0.
pub fn word_or_zeros(xs: &[u8], at: u128) -> u64
    requires { at < 2 ^ 100 }
    ensures { result ≡ bytes.word64 at xs.now }
{
    half_or_zeros(xs, at) + 4_294_967_296 * half_or_zeros(xs, at + 4)
}

/// How many bytes a relocation changes, by the bytes of the symbol table.
#[tactic(auto, unfolding(pl_object::specs::Relocations::raw_width))]
fn raw_width(symbols: &[u8], kind: u32, symbol: u32) -> u64
    ensures { result ≡ relocations.raw_width symbols.now kind symbol }
{
    match kind {
        R_X86_64_NONE => 0,
        R_X86_64_COPY => word_or_zeros(
            symbols,
            u128::from(SYMBOL_SIZE as u64 * u64::from(symbol) + 16),
        ),
        _ => WORD64_SIZE,
    }
}

/// The place of the relocation at an index of a table.
fn raw_place(symbols: &[u8], table: &[u8], index: usize) -> Window
    requires { 24 * index + 24 ≤ length table.now }
    ensures { result ≡ spec.raw_place symbols.now table.now index }
{
    let at = RELA_SIZE * index;
    let width = raw_width(symbols, word32(table, at + 8), word32(table, at + 12));
    Window::new(u128::from(word64(table, at)), width)
}

/// The segments of a file, and the address at which the zeros of the last PT_LOAD begin.
#[derive(Clone, Copy)]
struct Memory<'f> {
    segments: &'f [Segment],
    zeros: u128,
}

/// The address at which the zeros of the last PT_LOAD begin.
fn zeros_from(last: Option<Segment>) -> u128
    ensures { result ≡ spec.zeros_from last }
{
    match last {
        None => 0,
        Some(last) => end(last.vaddr, last.filesz),
    }
}

/// The segments, with the address at which the zeros of the last PT_LOAD begin.
fn memory_of(segments: &[Segment]) -> Memory<'_>
    ensures segments { result.segments.now ≡ segments.now }
    ensures zeros { result.zeros ≡ spec.zeros_from (clauses.last_load segments.now) }
{
    Memory {
        segments,
        zeros: zeros_from(last_load(segments)),
    }
}

/// Where a place stands: its file bytes, and how many bytes follow in the zeros.
#[tactic(auto, unfolding(crate::specs::Loads::spot_of))]
fn spot_of(memory: &Memory<'_>, place: Window) -> Spot
    ensures { result ≡ loads.spot_of memory.now.segments.now memory.now.zeros place }
{
    let window = file_window(memory.segments, place);
    let behind = if place.size() == window.size() {
        0
    } else {
        place.at().saturating_sub(memory.zeros)
    };
    Spot {
        at: window.at(),
        size: window.size(),
        hidden: place.size().saturating_sub(window.size()),
        behind,
    }
}

/// Adds where the places of all whole rows of a table stand.
fn push_row_spots(
    spots: &mut Vec<Spot>,
    memory: &Memory<'_>,
    symbols: &[u8],
    table: &[u8],
) -> Result<(), AllocError>
    ensures { OnOk result (spots.new.items ≡ spots.old.items
        ++ row_words.spots_in_memory memory.now (spec.raw_places symbols.now table.now)) }
{
    for index in 0..table.len() / RELA_SIZE {
        let place = raw_place(symbols, table, index);
        spots.push(spot_of(memory, place))?;
    }
    Ok(())
}

/// Adds where the words at addresses stand.
fn push_word_spots(
    spots: &mut Vec<Spot>,
    memory: &Memory<'_>,
    addresses: &[u64],
) -> Result<(), AllocError>
    ensures { OnOk result (spots.new.items ≡ spots.old.items
        ++ row_words.spots_in_memory memory.now (map spec.word_window addresses.now)) }
{
    for address in addresses {
        let place = Window::new(u128::from(*address), WORD64_SIZE);
        spots.push(spot_of(memory, place))?;
    }
    Ok(())
}

/// Adds where the places that a packed table names stand; none where its words name none.
#[tactic(auto, unfolding(crate::specs::Found::packed_places))]
fn push_packed_spots(
    alloc: Global,
    spots: &mut Vec<Spot>,
    memory: &Memory<'_>,
    table: &[u8],
) -> Result<(), AllocError>
    ensures { OnOk result (spots.new.items ≡ spots.old.items
        ++ row_words.spots_in_memory memory.now (spec.packed_places table.now)) }
{
    match unpack(alloc, table, MOST_PLACES) {
        Ok(addresses) => push_word_spots(spots, memory, addresses.as_slice()),
        Err(RelrFault::Packed) => Ok(()),
        Err(RelrFault::NoMemory) => Err(AllocError),
    }
}

/// The bytes of the tables by whose rows places are found.
#[derive(Clone, Copy)]
struct RowBytes<'f> {
    rela: &'f [u8],
    jmprel: &'f [u8],
    packed: &'f [u8],
    symbols: &'f [u8],
}

/// The bytes of a window, as far as it is in the file.
fn within<'f>(window: &Window, bytes: &'f [u8]) -> &'f [u8]
    ensures { result.now ≡ window_words.within window.now bytes.now }
{
    part(bytes, window.at(), window.size())
}

/// The bytes of the tables as they lie in a file, by their windows.
fn rows_in<'f>(windows: &[Window; 4], bytes: &'f [u8]) -> RowBytes<'f>
    requires { window_words.are_in (length bytes.now) windows.now ≡ true }
    ensures { row_words.IsCut windows.now (all_within windows.now bytes.now) result }
{
    let [rela, jmprel, packed, symbols] = windows;
    RowBytes {
        rela: within(rela, bytes),
        jmprel: within(jmprel, bytes),
        packed: within(packed, bytes),
        symbols: within(symbols, bytes),
    }
}

/// The bytes of the tables, of the sizes of their windows, as they stand one after the other.
fn split_rows<'f>(windows: &[Window; 4], bytes: &'f [u8]) -> RowBytes<'f>
    ensures { row_words.IsCut windows.now bytes.now result }
{
    let (rela, slots) = split(bytes, windows[0].size());
    let (jmprel, words) = split(slots, windows[1].size());
    let (packed, symbols) = split(words, windows[2].size());
    RowBytes {
        rela,
        jmprel,
        packed,
        symbols,
    }
}

/// Where the places of all relocations stand, by the bytes of their tables.
fn spots_by(
    alloc: Global,
    segments: &[Segment],
    rows: &RowBytes<'_>,
) -> Result<Rows<Spot>, AllocError>
    ensures { IfOk result (λ spots. spots ≡ loads.spots_of segments.now
        (spec.zeros_from (clauses.last_load segments.now)) (row_words.places_in rows.now)) }
{
    let memory = memory_of(segments);
    let room = rows.rela.len() / RELA_SIZE + rows.jmprel.len() / RELA_SIZE;
    let mut spots = Vec::with_capacity(alloc, room)?;
    push_row_spots(&mut spots, &memory, rows.symbols, rows.rela)?;
    push_row_spots(&mut spots, &memory, rows.symbols, rows.jmprel)?;
    push_packed_spots(alloc, &mut spots, &memory, rows.packed)?;
    Ok(Rows::from_vec(spots))
}

/// Where the places of all relocations stand, by their rows in these bytes.
pub fn spots_in(
    alloc: Global,
    segments: &[Segment],
    sections: &[Section],
    tags: &[Tag],
    bytes: &[u8],
) -> Result<Rows<Spot>, AllocError>
    ensures { IfOk result (λ spots. spots ≡ spec.spots_in segments.now sections.now tags.now
        bytes.now) }
{
    let windows = row_windows(segments, sections, tags);
    if are_in(bytes.len(), &windows) {
        spots_by(alloc, segments, &rows_in(&windows, bytes))
    } else {
        let copy = all_bytes(alloc, &windows, bytes)?;
        spots_by(alloc, segments, &split_rows(&windows, &copy))
    }
}
