ghost use Rattle.std.specs.Prelude.{◌≡◌, ◌<◌, ◌≤◌, ◌^◌, ◌∷◌, ◌++◌, length, map, false, IfOk, OnOk};
ghost use Rattle.std.specs.List.{All};
ghost use Rattle.pl_base.specs.Answers.{Answers, AnswersAs, NeverMemory, because};
ghost use Rattle.pl_base.specs.Windows.{end_of};
ghost use Rattle.pl_elf.specs.Headers.{HasSections, HasSegments, loads};
ghost use Rattle.pl_elf.specs.Clauses.{AreLoads};
ghost use Rattle.pl_elf.specs.Clauses as elf;
ghost use Rattle.pl_object.specs.Accepted.{Accepted};
ghost use Rattle.pl_object.specs.FilePart as file;
ghost use Rattle.pl_object.specs.Relocations as rows;
ghost use Rattle.pl_object.specs.Tables as tables;
ghost use Rattle.pl_object.specs.Refusals.{is_memory, of_dynamic};
ghost use Rattle.pl_object.specs.Reads as spec;

use crate::contents::Contents;
use crate::file_part::{in_file_part, loaded};
use crate::headers::Headers;
use crate::layout::Layout;
use crate::linking::Linking;
use crate::loads::Loads;
use crate::names::{read_needed, strings, symbols, versioned, versions};
use crate::parts::{align, check_rest, is_symbolic, kind_of, span, tls, too_large};
use crate::place_clauses::check_relocs;
use crate::ranges::ranges_of;
use crate::relocations::{add_packed, relocs};
use crate::symbol_clauses::{check_symbols, hash_tables};
use crate::table_clauses::{check_tables, relr_table};
use crate::tables::{link_windows, sections_window, static_windows};
use crate::tags::{dynamic_memory, jmprel_memory, rela_memory};
use crate::{Object, Refusal, Reloc, Window};
use pl_base::Rows;
use pl_dyn::{Dynamic, Tag, read_dynamic};
use pl_elf::constants::{ET_EXEC, RELR_SIZE};
use pl_elf::{
    Header, Kind, Range, Segment, is_static_file, read_header, read_sections, read_segments,
};
use pl_relr::{RelrFault, unpack};
use pl_sym::Symbol;
use std::alloc::{AllocError, Global};

/// The dynamic table: clauses 9 to 11.
#[tactic(auto, unfolding(crate::specs::Reads::dynamic))]
fn dynamic(alloc: Global, bytes: &[u8], segments: &[Segment]) -> Result<Dynamic, Refusal>
    requires { length bytes.now < 2 ^ 32 }
    ensures { Answers is_memory result (because of_dynamic (spec.dynamic bytes.now segments.now)) }
{
    let memory = dynamic_memory(segments);
    if !in_file_part(segments, memory) {
        return Err(Refusal::clause(9));
    }
    let dynamic = read_dynamic(alloc, loaded(bytes, segments, memory))?;
    Ok(dynamic)
}

/// The names: clauses 15 to 18.
#[tactic(auto, unfolding(crate::specs::Reads::linking))]
fn linking(
    alloc: Global,
    bytes: &[u8],
    headers: &Headers,
    dynamic: &Dynamic,
) -> Result<Linking, Refusal>
    requires { length bytes.now < 2 ^ 32 }
    ensures exact { Answers is_memory result (spec.linking bytes.now headers.now dynamic.now.tags) }
    ensures few { IfOk result (λ l. length l.symbols ≤ length bytes.now) }
{
    let segments = headers.segments.as_slice();
    let sections = headers.sections.as_slice();
    let tags = dynamic.tags.as_slice();
    let needed = read_needed(alloc, dynamic, strings(bytes, segments, tags))?;
    let bare = symbols(alloc, bytes, segments, sections, tags)?;
    let versions = versions(alloc, bytes, segments, sections, tags, bare.as_slice())?;
    Ok(Linking {
        needed,
        symbols: versioned(bare, &versions),
        versions,
    })
}

/// The addresses that the packed table names; none where clause 14 refuses it.
#[tactic(auto, unfolding(crate::specs::Reads::packed_places))]
fn packed_places(
    alloc: Global,
    bytes: &[u8],
    segments: &[Segment],
    tags: &[Tag],
) -> Result<Rows<u64>, AllocError>
    requires { length bytes.now < 2 ^ 32 }
    ensures exact { IfOk result (λ v. v ≡ spec.packed_places bytes.now segments.now tags.now) }
    ensures few { IfOk result (λ v. length v < 2 ^ 32) }
{
    let table = relr_table(bytes, segments, tags);
    match unpack(alloc, table, (bytes.len() / RELR_SIZE) as u64) {
        Ok(places) => Ok(places),
        Err(RelrFault::Packed) => Ok(Rows::new(alloc)),
        Err(RelrFault::NoMemory) => Err(AllocError),
    }
}

/// The relocations of both tables of rows.
fn table_relocs(
    alloc: Global,
    bytes: &[u8],
    segments: &[Segment],
    tags: &[Tag],
    symbols: &[Symbol],
) -> Result<Vec<Reloc>, AllocError>
    ensures { IfOk result (λ v. v.items
        ≡ rows.relocs symbols.now (file.loaded bytes.now segments.now (tables.rela_memory tags.now))
        ++ rows.relocs symbols.now
        (file.loaded bytes.now segments.now (tables.jmprel_memory tags.now))) }
{
    let mut all = relocs(alloc, symbols, loaded(bytes, segments, rela_memory(tags)))?;
    let slots = relocs(alloc, symbols, loaded(bytes, segments, jmprel_memory(tags)))?;
    all.extend_from_slice(&slots)?;
    Ok(all)
}

/// Adds the relocations of packed places.
fn add_places(
    alloc: Global,
    all: &mut Vec<Reloc>,
    bytes: &[u8],
    segments: &[Segment],
    packed: &[u64],
) -> Result<(), AllocError>
    requires { AreLoads (loads segments.now) }
    ensures { OnOk result (all.new.items
        ≡ all.old.items ++ rows.packed_relocs bytes.now segments.now packed.now) }
{
    let loads = Loads::new(alloc, segments)?;
    add_packed(all, bytes, &loads, packed)
}

/// The relocations of both tables of rows, then those of the packed places.
#[tactic(auto, unfolding(crate::specs::Reads::relocations))]
fn relocations(
    alloc: Global,
    bytes: &[u8],
    segments: &[Segment],
    tags: &[Tag],
    symbols: &[Symbol],
    packed: &[u64],
) -> Result<Vec<Reloc>, AllocError>
    requires loads { AreLoads (loads segments.now) }
    requires packed { packed.now ≡ spec.packed_places bytes.now segments.now tags.now }
    ensures { IfOk result (λ v. v.items ≡ spec.relocations bytes.now segments.now tags.now
        symbols.now) }
{
    let mut all = table_relocs(alloc, bytes, segments, tags, symbols)?;
    add_places(alloc, &mut all, bytes, segments, packed)?;
    Ok(all)
}

/// The tables that no place may share a byte with.
fn with_section_table(
    alloc: Global,
    header: &Header,
    link: &[Window],
) -> Result<Vec<Window>, AllocError>
    ensures { IfOk result (λ v. v.items ≡ tables.sections_window header.now ∷ link.now) }
{
    let mut windows = Vec::from_array(alloc, [sections_window(header)])?;
    windows.extend_from_slice(link)?;
    Ok(windows)
}

#[tactic(auto, unfolding(crate::specs::Reads::layout))]
fn layout(
    alloc: Global,
    bytes: &[u8],
    headers: &Headers,
    tags: &[Tag],
    linking: &Linking,
) -> Result<Layout, AllocError>
    requires few { length bytes.now < 2 ^ 32 }
    requires symbols { length linking.now.symbols < 2 ^ 32 }
    requires loads { AreLoads (loads headers.now.segments) }
    ensures { IfOk result (λ layout. layout ≡ spec.layout bytes.now headers.now tags.now
        linking.now) }
{
    let segments = headers.segments.as_slice();
    let sections = headers.sections.as_slice();
    let symbols = linking.symbols.as_slice();
    let hashes = hash_tables(alloc, bytes, segments, sections, tags, symbols.len() as u32)?;
    let packed = packed_places(alloc, bytes, segments, tags)?;
    let relocations = relocations(alloc, bytes, segments, tags, symbols, packed.as_slice())?;
    let windows = link_windows(alloc, &headers.header, segments, sections, tags)?;
    Ok(Layout {
        hashes,
        relocations: Rows::from_vec(relocations),
        packed: packed.len() as u32,
        windows: Rows::from_vec(windows),
    })
}

/// The first of clauses 20 to 31 that refuses a file.
#[tactic(auto, unfolding(crate::specs::Reads::check))]
fn check(
    alloc: Global,
    bytes: &[u8],
    headers: &Headers,
    dynamic: &Dynamic,
    linking: &Linking,
    layout: &Layout,
) -> Result<(), Refusal>
    requires few { length linking.now.symbols < 2 ^ 32 }
    requires loads { AreLoads (loads headers.now.segments) }
    ensures { Answers is_memory result (spec.check bytes.now headers.now dynamic.now.tags
        linking.now layout.now) }
{
    let program = headers.header.kind == ET_EXEC;
    let segments = headers.segments.as_slice();
    let symbols = linking.symbols.as_slice();
    let relocs = layout.relocations.as_slice();
    check_symbols(
        alloc,
        program,
        segments,
        layout.hashes.as_slice(),
        &linking.versions,
        symbols,
    )?;
    let kept = with_section_table(alloc, &headers.header, layout.windows.as_slice())?;
    check_relocs(
        alloc,
        program,
        segments,
        &kept,
        symbols.len() as u32,
        layout.packed,
        relocs,
    )?;
    check_rest(
        bytes,
        &headers.header,
        segments,
        dynamic.tags.as_slice(),
        symbols,
        relocs,
    )
}

/// An object of what was read of a file, and where its link tables stand.
#[tactic(auto, unfolding(crate::specs::Reads::object))]
fn object_of(
    headers: Headers,
    dynamic: &Dynamic,
    linking: Linking,
    layout: Layout,
    ranges: Rows<Range>,
) -> Object
    requires loads { AreLoads (loads headers.segments) }
    requires ranges { ranges ≡ map tables.window_range layout.windows }
    ensures { result ≡ spec.object headers dynamic.now linking layout }
{
    let tls = tls(headers.segments.as_slice());
    let span = span(headers.segments.as_slice());
    let align = align(headers.segments.as_slice());
    Object {
        kind: kind_of(&headers.header),
        entry: headers.header.entry,
        header: headers.header,
        sections: headers.sections,
        segments: headers.segments,
        needed: linking.needed,
        symbols: linking.symbols,
        versions: linking.versions,
        hashes: layout.hashes,
        relocations: layout.relocations,
        packed: layout.packed,
        tables: ranges,
        tls,
        symbolic: is_symbolic(dynamic.tags.as_slice()),
        spare: dynamic.spare,
        span,
        align,
    }
}

/// An object of what was read of a file, its names and tables as one value.
fn contents_object(
    headers: Headers,
    dynamic: &Dynamic,
    contents: Contents,
    ranges: Rows<Range>,
) -> Object
    requires loads { AreLoads (loads headers.segments) }
    requires ranges { ranges ≡ map tables.window_range contents.layout.windows }
    ensures { result ≡ spec.object headers dynamic.now contents.linking contents.layout }
{
    object_of(headers, dynamic, contents.linking, contents.layout, ranges)
}

/// A static program by what was read of its headers, and where its link tables stand.
#[tactic(auto, unfolding(crate::specs::Reads::static_object))]
fn static_object_of(alloc: Global, headers: Headers, ranges: Rows<Range>) -> Object
    requires loads { AreLoads (loads headers.segments) }
    requires ranges { ranges ≡ map tables.window_range
        (tables.static_windows headers.header headers.sections) }
    ensures { result ≡ spec.static_object headers }
{
    let tls = tls(headers.segments.as_slice());
    let span = span(headers.segments.as_slice());
    let align = align(headers.segments.as_slice());
    Object {
        kind: Kind::Static,
        entry: headers.header.entry,
        header: headers.header,
        sections: headers.sections,
        segments: headers.segments,
        needed: Rows::new(alloc),
        symbols: Rows::new(alloc),
        versions: None,
        hashes: Rows::new(alloc),
        relocations: Rows::new(alloc),
        packed: 0,
        tables: ranges,
        tls,
        symbolic: false,
        spare: 0,
        span,
        align,
    }
}

/// Where the link tables of a static program stand in the file.
fn static_ranges(alloc: Global, headers: &Headers) -> Result<Rows<Range>, AllocError>
    requires { All (λ w. end_of w < 2 ^ 64)
        (tables.static_windows headers.now.header headers.now.sections) }
    ensures { IfOk result (λ ranges. ranges ≡ map tables.window_range
        (tables.static_windows headers.now.header headers.now.sections)) }
{
    let windows = static_windows(alloc, &headers.header, headers.sections.as_slice())?;
    ranges_of(alloc, &windows)
}

/// The names and the tables of a file: clauses 15 to 18.
fn contents(
    alloc: Global,
    bytes: &[u8],
    headers: &Headers,
    dynamic: &Dynamic,
) -> Result<Contents, Refusal>
    requires few { length bytes.now < 2 ^ 32 }
    requires loads { AreLoads (loads headers.now.segments) }
    ensures linking { AnswersAs (λ c. c.linking) is_memory result
        (spec.linking bytes.now headers.now dynamic.now.tags) }
    ensures layout { IfOk result (λ c. c.layout
        ≡ spec.layout bytes.now headers.now dynamic.now.tags c.linking) }
    ensures few { IfOk result (λ c. length c.linking.symbols ≤ length bytes.now) }
{
    let linking = linking(alloc, bytes, headers, dynamic)?;
    let layout = layout(alloc, bytes, headers, dynamic.tags.as_slice(), &linking)?;
    Ok(Contents { linking, layout })
}

/// Where the link tables stand in the file, where none of clauses 20 to 31 refuses it.
fn checked_ranges(
    alloc: Global,
    bytes: &[u8],
    headers: &Headers,
    dynamic: &Dynamic,
    contents: &Contents,
) -> Result<Rows<Range>, Refusal>
    requires few { length contents.now.linking.symbols < 2 ^ 32 }
    requires loads { AreLoads (loads headers.now.segments) }
    requires windows { All (λ w. end_of w < 2 ^ 64) contents.now.layout.windows }
    ensures check { AnswersAs (λ _. tt) is_memory result (spec.check bytes.now headers.now
        dynamic.now.tags contents.now.linking contents.now.layout) }
    ensures ranges { IfOk result (λ ranges. ranges
        ≡ map tables.window_range contents.now.layout.windows) }
{
    check(
        alloc,
        bytes,
        headers,
        dynamic,
        &contents.linking,
        &contents.layout,
    )?;
    let ranges = ranges_of(alloc, contents.layout.windows.as_slice())?;
    Ok(ranges)
}

/// The object, where none of clauses 20 to 31 refuses the file.
#[tactic(auto, unfolding(crate::specs::Reads::checked))]
fn checked(
    alloc: Global,
    bytes: &[u8],
    headers: Headers,
    dynamic: &Dynamic,
    contents: Contents,
) -> Result<Object, Refusal>
    requires few { length contents.linking.symbols < 2 ^ 32 }
    requires loads { AreLoads (loads headers.segments) }
    requires windows { All (λ w. end_of w < 2 ^ 64) contents.layout.windows }
    ensures { Answers is_memory result (spec.checked bytes.now headers dynamic.now contents.linking
        contents.layout) }
{
    let ranges = checked_ranges(alloc, bytes, &headers, dynamic, &contents)?;
    Ok(contents_object(headers, dynamic, contents, ranges))
}

/// A program or library by its dynamic table: clauses 12 to 31.
#[tactic(auto, using(crate::proofs::ReadLaws::layout_fits), unfolding(crate::specs::Reads::dynamic_object))]
fn dynamic_object(
    alloc: Global,
    bytes: &[u8],
    headers: Headers,
    dynamic: &Dynamic,
) -> Result<Object, Refusal>
    requires few { length bytes.now < 2 ^ 32 }
    requires read { spec.IsRead bytes.now headers }
    requires dynamic { elf.is_static_file bytes.now headers.header ≡ false }
    ensures { Answers is_memory result (spec.dynamic_object bytes.now headers dynamic.now) }
{
    check_tables(
        alloc,
        bytes,
        &headers.header,
        headers.segments.as_slice(),
        headers.sections.as_slice(),
        dynamic.tags.as_slice(),
    )?;
    let contents = contents(alloc, bytes, &headers, dynamic)?;
    checked(alloc, bytes, headers, dynamic, contents)
}

/// A static program: of the clauses after 8 the 30th alone.
#[tactic(auto, using(crate::proofs::ReadLaws::static_fits), unfolding(crate::specs::Reads::static_program))]
fn static_program(alloc: Global, bytes: &[u8], headers: Headers) -> Result<Object, Refusal>
    requires few { length bytes.now < 2 ^ 32 }
    requires read { spec.IsRead bytes.now headers }
    ensures { Answers is_memory result (spec.static_program bytes.now headers) }
{
    if too_large(bytes) {
        return Err(Refusal::clause(30));
    }
    let ranges = static_ranges(alloc, &headers)?;
    Ok(static_object_of(alloc, headers, ranges))
}

/// Clauses 9 to 31 for a file that is no static program.
#[tactic(auto, unfolding(crate::specs::Reads::parts))]
fn dynamic_parts(alloc: Global, bytes: &[u8], headers: Headers) -> Result<Object, Refusal>
    requires few { length bytes.now < 2 ^ 32 }
    requires read { spec.IsRead bytes.now headers }
    requires dynamic { elf.is_static_file bytes.now headers.header ≡ false }
    ensures { Answers is_memory result (spec.parts bytes.now headers) }
{
    let dynamic = dynamic(alloc, bytes, headers.segments.as_slice())?;
    dynamic_object(alloc, bytes, headers, &dynamic)
}

/// Clauses 9 to 31.
#[tactic(auto, unfolding(crate::specs::Reads::parts))]
fn parts(alloc: Global, bytes: &[u8], headers: Headers) -> Result<Object, Refusal>
    requires few { length bytes.now < 2 ^ 32 }
    requires read { spec.IsRead bytes.now headers }
    ensures { Answers is_memory result (spec.parts bytes.now headers) }
{
    if is_static_file(bytes, &headers.header) {
        static_program(alloc, bytes, headers)
    } else {
        dynamic_parts(alloc, bytes, headers)
    }
}

#[tactic(auto, unfolding(crate::specs::Reads::headers))]
fn headers(alloc: Global, bytes: &[u8], header: Header) -> Result<Headers, AllocError>
    requires segments { HasSegments bytes.now header }
    requires sections { HasSections bytes.now header }
    ensures { IfOk result (λ headers. headers ≡ spec.headers bytes.now header) }
{
    let segments = read_segments(alloc, bytes, &header)?;
    let sections = read_sections(alloc, bytes, &header)?;
    Ok(Headers {
        header,
        segments: Rows::from_vec(segments),
        sections: Rows::from_vec(sections),
    })
}

#[tactic(auto, unfolding(crate::specs::Reads::reads, crate::specs::Reads::headers))]
fn read_object(alloc: Global, bytes: &[u8]) -> Result<Object, Refusal>
    requires { length bytes.now < 2 ^ 32 }
    ensures { Answers is_memory result (spec.reads bytes.now) }
{
    let header = read_header(bytes)?;
    let headers = headers(alloc, bytes, header)?;
    parts(alloc, bytes, headers)
}

/// The object that a file is: Ok exactly where no acceptance clause refuses it. Else the first clause in the order of their numbers that refuses it, with its argument, or NoMemory. The file has fewer than 2^32 bytes. Nothing of it is kept but what the object holds.
pub fn accept(alloc: Global, bytes: &[u8]) -> Result<Object, Refusal>
    requires { length bytes.now < 2 ^ 32 }
    ensures exact { Answers is_memory result (spec.reads bytes.now) }
    ensures facts { IfOk result (λ o. Accepted bytes.now o) }
    // a law over definitions: no file means a want of memory
    ensures never_memory { NeverMemory is_memory (spec.reads bytes.now) }
{
    read_object(alloc, bytes)
}
