// The original that a file's undo section brings back.
ghost use Rattle.std.specs.Prelude.{◌≡◌, ◌+◌, ◌-◌, ◌*◌, ◌^◌, ◌<◌, ◌==◌, ◌++◌, ◌∷◌, [], length, nat_le, IfOk, OnOk, Some};
ghost use Rattle.pl_base.specs.Bytes.{part};
ghost use Rattle.pl_base.specs.Windows as windows;
ghost use Rattle.pl_elf.specs.Headers as headers;
ghost use Rattle.pl_move.specs.Moves.{all_back, table_window, table_windows};
ghost use Rattle.pl_form.specs.Back as back;
ghost use Rattle.pl_form.specs.Found as found;
ghost use Rattle.pl_undo.specs.Section.{headers_size};
ghost use Rattle.pl_form.specs.Stored as spec;
ghost use Rattle.pl_form.specs.Stored.{IsWhole, WholeIfAny};

use crate::Spot;
use crate::bytes::put_bytes;
use crate::found::{dynamic_in, has_dynamic_table, has_tables, moved_tables, spots_in};
use crate::places::put_visible;
use crate::undo_part::head_windows;
use crate::windows::are_in;
use pl_base::{Rows, end, part};
use pl_dyn::{Tag, read_tags};
use pl_elf::constants::{HEADER_SIZE, SECTION_SIZE, SEGMENT_SIZE};
use pl_elf::{Header, Section, Segment, header_fields, read_section, read_sections, read_segments};
use pl_move::{Table, move_tables_back};
use pl_object::Window;
use pl_undo::{Undo, UndoFault, read_undo};
use std::alloc::{AllocError, Global};
use std::marker::Model;

/// Where the section header of a file's undo section is, two before the end of the table.
fn undo_row(header: &Header) -> Window
    ensures { result ≡ spec.undo_header_window header.now }
{
    let index = u64::from(header.shnum.saturating_sub(2));
    Window::new(
        end(header.shoff, SECTION_SIZE as u64 * index),
        SECTION_SIZE as u64,
    )
}

/// The section header of a file's undo section, where there is such a row, and it and its bytes lie in the file.
fn undo_section(file: &[u8]) -> Option<Section>
    ensures { result ≡ back.when (back.has_undo_section file.now)
        (Some (back.undo_section file.now)) }
{
    if file.len() < HEADER_SIZE {
        return None;
    }
    let header = header_fields(file);
    if header.shnum < 2 || !are_in(file.len(), &[undo_row(&header)]) {
        return None;
    }
    let section = read_section(file, &header, header.shnum - 2);
    let bytes = Window::new(u128::from(section.offset), section.size);
    if !are_in(file.len(), &[bytes]) {
        return None;
    }
    Some(section)
}

/// What a file's undo section spells; None where there is no such section, or its bytes are in neither version's grammar.
pub fn find_undo(alloc: Global, file: &[u8]) -> Result<Option<Undo>, AllocError>
    requires { length file.now < 2 ^ 32 }
    ensures exact { IfOk result (λ u. u ≡ back.find_undo file.now) }
    ensures whole { IfOk result WholeIfAny }
{
    let Some(section) = undo_section(file) else {
        return Ok(None);
    };
    match read_undo(alloc, part(file, u128::from(section.offset), section.size)) {
        Ok(undo) => Ok(Some(undo)),
        Err(UndoFault::BadUndo) => Ok(None),
        Err(UndoFault::NoMemory) => Err(AllocError),
    }
}

/// The bytes that stand where the original's stood: those before the inserted ones, and those behind them, as far as there are any. Contracts see it as these bytes, one part after the other.
#[derive(Drop)]
pub struct Front<'f> {
    before: &'f [u8],
    behind: &'f [u8],
}

impl<'f> Model for Front<'f> {
    ghost use Rattle.std.specs.Prelude.{ℕ, List, ◌++◌};

    ghost Value = { List ℕ };

    ghost view = { λ f. f.before.now ++ f.behind.now };
}

impl<'f> Front<'f> {
    /// The bytes that stand in a file where the original's stood that its undo section brings back.
    pub fn of(undo: &Undo, file: &'f [u8]) -> Front<'f>
        ensures { result ≡ back.front_of undo.now file.now }
    {
        let behind = end(undo.cut, undo.shift);
        let rest = undo.length.saturating_sub(undo.cut);
        Front {
            before: part(file, 0, undo.cut),
            behind: part(file, behind, rest),
        }
    }

    /// Adds so many of the bytes from an offset on, as far as there are any.
    pub fn push_part(&self, out: &mut Vec<u8>, at: u128, size: u64) -> Result<(), AllocError>
        ensures { OnOk result (out.new.items ≡ out.old.items ++ part at size self.now) }
    {
        let first = part(self.before, at, size);
        out.extend_from_slice(first)?;
        let rest = size.saturating_sub(first.len() as u64);
        let from = at.saturating_sub(self.before.len() as u128);
        out.extend_from_slice(part(self.behind, from, rest))
    }

    /// A copy of the bytes.
    fn to_vec(&self, alloc: Global) -> Result<Vec<u8>, AllocError>
        ensures { IfOk result (λ v. v.items ≡ self.now) }
    {
        let mut front = Vec::with_capacity(alloc, self.before.len() + self.behind.len())?;
        front.extend_from_slice(self.before)?;
        front.extend_from_slice(self.behind)?;
        Ok(front)
    }
}

/// Headers that are stored in an undo section, taken apart.
#[derive(Drop)]
struct StoredHeaders {
    header: Header,
    segments: Rows<Segment>,
    sections: Rows<Section>,
}

/// The stored headers: the header, then the program header table, then the section header table.
#[tactic(auto, unfolding(crate::specs::Found::stored_segments, crate::specs::Found::stored_sections, pl_undo::specs::Section::headers_size))]
fn stored_headers(alloc: Global, bytes: &[u8]) -> Result<StoredHeaders, AllocError>
    requires { length bytes.now ≡ headers_size (headers.header bytes.now) }
    ensures { IfOk result (λ s. s ≡ spec.stored_headers bytes.now) }
{
    let header = header_fields(bytes);
    let phoff = HEADER_SIZE as u64;
    let shoff = phoff + SEGMENT_SIZE as u64 * u64::from(header.phnum);
    let segments = read_segments(alloc, bytes, &Header { phoff, ..header })?;
    let sections = read_sections(alloc, bytes, &Header { shoff, ..header })?;
    Ok(StoredHeaders {
        header,
        segments: Rows::from_vec(segments),
        sections: Rows::from_vec(sections),
    })
}

/// Puts the stored header, the stored tables and the stored dynamic table at their places.
#[tactic(auto, unfolding(pl_base::specs::Windows::put_all, pl_undo::specs::Section::headers_size))]
fn put_stored(front: &mut [u8], undo: &Undo, header: &Header, dynamic: &Window)
    requires head { header.now ≡ headers.header undo.now.headers }
    requires whole { IsWhole undo.now }
    requires room { windows.AllIn (length front.old) (back.head_windows header.now ++ dynamic.now
        ∷ []) }
    ensures { front.new ≡ windows.put_all (back.stored_puts undo.now dynamic.now) front.old }
{
    let headers = undo.headers.as_slice();
    let segments = SEGMENT_SIZE as u64 * u64::from(header.phnum);
    let sections = SECTION_SIZE as u64 * u64::from(header.shnum);
    let first = part(headers, 0, HEADER_SIZE as u64);
    let second = part(headers, HEADER_SIZE as u128, segments);
    let third = part(
        headers,
        HEADER_SIZE as u128 + u128::from(segments),
        sections,
    );
    let table = part(undo.kept.as_slice(), 0, dynamic.size());
    put_bytes(front, 0, first);
    put_bytes(front, header.phoff as usize, second);
    put_bytes(front, header.shoff as usize, third);
    put_bytes(front, dynamic.at() as usize, table);
}

/// Whether so many bytes and those at places are as many as given.
pub fn are_filled(spots: &[Spot], before: u64, size: u128) -> bool
    ensures { result ≡ (size == before + back.wanted spots.now) }
{
    if size < u128::from(before) {
        return false;
    }
    let mut rest = size - u128::from(before);
    for spot in spots {
        let here = end(spot.size, spot.hidden);
        if rest < here {
            return false;
        }
        rest -= here;
    }
    rest == 0
}

fn is_spot_in(size: usize, spot: &Spot) -> bool
    ensures { result ≡ nat_le (spot.now.at + spot.now.size) size }
{
    let size = size as u128;
    spot.at <= size && u128::from(spot.size) <= size - spot.at
}

fn are_spots_in(size: usize, spots: &[Spot]) -> bool
    ensures { result ≡ windows.are_in size (back.spot_windows spots.now) }
{
    for spot in spots {
        if !is_spot_in(size, spot) {
            return false;
        }
    }
    true
}

fn is_table_in(size: usize, table: &Table) -> bool
    ensures { result ≡ nat_le (windows.end_of (table_window table.now)) size }
{
    let size = size as u128;
    let rows = table.kind.row_size() as u128 * u128::from(table.count);
    table.at <= size && rows <= size - table.at
}

fn are_tables_in(size: usize, tables: &[Table]) -> bool
    ensures { result ≡ windows.are_in size (table_windows tables.now) }
{
    for table in tables {
        if !is_table_in(size, table) {
            return false;
        }
    }
    true
}

/// Whether places lie in so many bytes, and an undo section keeps the bytes of the dynamic table and of all places.
fn fits_places(size: usize, undo: &Undo, dynamic: u64, spots: &[Spot]) -> bool
    ensures { result ≡ spec.fits_places size undo.now dynamic spots.now }
{
    are_spots_in(size, spots) && are_filled(spots, dynamic, undo.kept.len() as u128)
}

/// Restores the bytes at places, where all of them and the kept bytes fit.
#[tactic(auto, unfolding(crate::specs::Stored::kept_back))]
fn kept_back(undo: &Undo, dynamic: u64, spots: &[Spot], bytes: Vec<u8>) -> Option<Rows<u8>>
    ensures { result ≡ spec.kept_back undo.now dynamic spots.now bytes.items }
{
    if !fits_places(bytes.len(), undo, dynamic, spots) {
        return None;
    }
    let mut original = bytes;
    let kept = &undo.kept.as_slice()[dynamic as usize..];
    put_visible(&mut original, spots, kept);
    Some(Rows::from_vec(original))
}

/// Restores the places of all relocations, which are found by their rows.
#[tactic(auto, unfolding(crate::specs::Stored::places_back))]
fn places_back(
    alloc: Global,
    undo: &Undo,
    stored: &StoredHeaders,
    tags: &[Tag],
    bytes: Vec<u8>,
) -> Result<Option<Rows<u8>>, AllocError>
    ensures { IfOk result (λ o. o ≡ spec.places_back undo.now stored.now tags.now bytes.items) }
{
    let segments = stored.segments.as_slice();
    let sections = stored.sections.as_slice();
    let spots = spots_in(alloc, segments, sections, tags, &bytes)?;
    let dynamic = dynamic_in(segments).size();
    Ok(kept_back(undo, dynamic, spots.as_slice(), bytes))
}

/// Whether the header, the tables and the dynamic table lie in so many bytes, and the rows that move do.
fn fits_tables(size: usize, header: &Header, dynamic: &Window, tables: &[Table]) -> bool
    ensures { result ≡ spec.fits_tables size header.now dynamic.now tables.now }
{
    let [first, segments, sections] = head_windows(header);
    are_in(size, &[first, segments, sections, *dynamic]) && are_tables_in(size, tables)
}

/// Puts the stored headers back, and moves the tables back.
fn put_back(front: &mut [u8], undo: &Undo, header: &Header, dynamic: &Window, tables: &[Table])
    requires head { header.now ≡ headers.header undo.now.headers }
    requires whole { IsWhole undo.now }
    requires room { windows.AllIn (length front.old) (back.head_windows header.now ++ dynamic.now
        ∷ []) }
    requires tables { windows.AllIn (length front.old) (table_windows tables.now) }
    ensures { front.new ≡ all_back undo.now.slot tables.now
        (windows.put_all (back.stored_puts undo.now dynamic.now) front.old) }
{
    put_stored(front, undo, header, dynamic);
    move_tables_back(front, tables, undo.slot);
}

/// Puts the stored headers back and moves the tables back, where all of them fit; then the places.
#[tactic(auto, unfolding(crate::specs::Stored::tables_back))]
fn tables_back(
    alloc: Global,
    undo: &Undo,
    stored: &StoredHeaders,
    tags: &[Tag],
    front: Vec<u8>,
) -> Result<Option<Rows<u8>>, AllocError>
    requires head { stored.now.header ≡ headers.header undo.now.headers }
    requires whole { IsWhole undo.now }
    ensures { IfOk result (λ o. o ≡ spec.tables_back undo.now stored.now tags.now front.items) }
{
    let segments = stored.segments.as_slice();
    let dynamic = dynamic_in(segments);
    let tables = moved_tables(alloc, segments, stored.sections.as_slice(), tags)?;
    if !fits_tables(front.len(), &stored.header, &dynamic, tables.as_slice()) {
        return Ok(None);
    }
    let mut moved = front;
    put_back(
        &mut moved,
        undo,
        &stored.header,
        &dynamic,
        tables.as_slice(),
    );
    places_back(alloc, undo, stored, tags, moved)
}

/// Whether there is a dynamic table, and each table whose words move is in the file part.
fn has_all_tables(stored: &StoredHeaders, tags: &[Tag]) -> bool
    ensures { result ≡ spec.has_all_tables stored.now tags.now }
{
    let segments = stored.segments.as_slice();
    has_dynamic_table(segments) && has_tables(segments, stored.sections.as_slice(), tags)
}

/// The original, from the bytes that stand where its bytes stood; None where a segment, a tag or a part that is needed is missing.
#[tactic(auto, unfolding(crate::specs::Stored::original_by))]
fn original_by(
    alloc: Global,
    undo: &Undo,
    stored: &StoredHeaders,
    front: Vec<u8>,
) -> Result<Option<Rows<u8>>, AllocError>
    requires head { stored.now.header ≡ headers.header undo.now.headers }
    requires whole { IsWhole undo.now }
    ensures { IfOk result (λ o. o ≡ spec.original_by undo.now stored.now front.items) }
{
    let size = dynamic_in(stored.segments.as_slice()).size();
    let tags = read_tags(alloc, part(undo.kept.as_slice(), 0, size))?;
    if !has_all_tables(stored, &tags) {
        return Ok(None);
    }
    tables_back(alloc, undo, stored, &tags, front)
}

/// Whether a file of so many bytes has all those that stood in the original.
fn fits_file(size: usize, undo: &Undo) -> bool
    ensures { result ≡ spec.fits_file size undo.now }
{
    undo.cut <= undo.length && end(undo.length, undo.shift) <= size as u128
}

/// The original that an undo section brings back from a file; None where the file has not all that is needed.
pub fn restored(alloc: Global, undo: &Undo, file: &[u8]) -> Result<Option<Rows<u8>>, AllocError>
    requires { IsWhole undo.now }
    ensures { IfOk result (λ o. o ≡ back.restored found.reader undo.now file.now) }
{
    if !fits_file(file.len(), undo) {
        return Ok(None);
    }
    let front = Front::of(undo, file).to_vec(alloc)?;
    let stored = stored_headers(alloc, undo.headers.as_slice())?;
    original_by(alloc, undo, &stored, front)
}
