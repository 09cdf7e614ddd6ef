// What is read of a program that is fixed at an address, by the object that it was.
ghost use Rattle.std.specs.Prelude.{◌≡◌, ◌+◌, ◌<◌, ◌^◌, Ok, IfOk, OnOk, length, map, if◌then◌else◌};
ghost use Rattle.std.specs.List.{All};
ghost use Rattle.law_fixed.specs.Fixed as fixed;
ghost use Rattle.pl_base.specs.Sums.{plus};
ghost use Rattle.pl_base.specs.Windows.{end_of};
ghost use Rattle.pl_elf.specs.Headers as headers;
ghost use Rattle.pl_object.specs.Reads.{reads};
ghost use Rattle.pl_object.specs.Tables.{window_range};
ghost use Rattle.pl_pie.specs.Fix as spec;

use crate::links::moves;
use pl_base::Rows;
use pl_dyn::read_tags;
use pl_elf::constants::{R_X86_64_NONE, R_X86_64_RELATIVE, SHF_ALLOC};
use pl_elf::{Header, Range, Section, Segment, is_moved_kind};
use pl_object::tables::link_windows;
use pl_object::tags::dynamic_memory;
use pl_object::{Object, Reloc, loaded, ranges_of};
use pl_sym::Symbol;
use std::alloc::{AllocError, Global};
use std::mem::replace;

/// Where an entry is; 0 stands for none.
#[tactic(auto, unfolding(law_fixed::specs::Fixed::fixed_entry))]
fn entry_at(entry: u64, address: u64) -> u64
    ensures { result ≡ fixed.fixed_entry address entry }
{
    if entry == 0 {
        0
    } else {
        entry.wrapping_add(address)
    }
}

#[tactic(auto, unfolding(law_fixed::specs::Fixed::fixed_header))]
fn header_at(header: &Header, address: u64) -> Header
    ensures { result ≡ fixed.fixed_header address header.now }
{
    Header {
        ident: header.ident,
        kind: header.kind,
        machine: header.machine,
        version: header.version,
        entry: entry_at(header.entry, address),
        phoff: header.phoff,
        shoff: header.shoff,
        flags: header.flags,
        ehsize: header.ehsize,
        phentsize: header.phentsize,
        phnum: header.phnum,
        shentsize: header.shentsize,
        shnum: header.shnum,
        shstrndx: header.shstrndx,
    }
}

/// Where a section is that has an address.
#[tactic(auto, unfolding(law_fixed::specs::Fixed::fixed_section))]
fn section_at(section: &Section, address: u64) -> Section
    ensures { result ≡ fixed.fixed_section address section.now }
{
    let addr = if section.flags & SHF_ALLOC == 0 {
        section.addr
    } else {
        section.addr.wrapping_add(address)
    };
    Section {
        name: section.name,
        kind: section.kind,
        flags: section.flags,
        addr,
        offset: section.offset,
        size: section.size,
        link: section.link,
        info: section.info,
        addralign: section.addralign,
        entsize: section.entsize,
    }
}

/// An address of a segment, where the kind moves with the program.
fn in_segment_at(kind: u32, start: u64, address: u64) -> u64
    ensures { result ≡ (if headers.is_moved_kind kind then plus start address else start) }
{
    if is_moved_kind(kind) {
        start.wrapping_add(address)
    } else {
        start
    }
}

/// Where a segment is of a kind that moves with the program.
#[tactic(auto, unfolding(law_fixed::specs::Fixed::fixed_segment))]
fn segment_at(segment: &Segment, address: u64) -> Segment
    ensures { result ≡ fixed.fixed_segment address segment.now }
{
    Segment {
        kind: segment.kind,
        flags: segment.flags,
        offset: segment.offset,
        vaddr: in_segment_at(segment.kind, segment.vaddr, address),
        paddr: in_segment_at(segment.kind, segment.paddr, address),
        filesz: segment.filesz,
        memsz: segment.memsz,
        align: segment.align,
    }
}

/// A symbol with its value at the address, where that moves.
#[tactic(auto, unfolding(law_fixed::specs::Fixed::fixed_symbol))]
fn symbol_at(symbol: Symbol, address: u64) -> Symbol
    ensures { result ≡ fixed.fixed_symbol address symbol }
{
    if !moves(&symbol) {
        return symbol;
    }
    Symbol {
        name: symbol.name,
        value: symbol.value.wrapping_add(address),
        size: symbol.size,
        bind: symbol.bind,
        kind: symbol.kind,
        visibility: symbol.visibility,
        section: symbol.section,
        version: symbol.version,
    }
}

#[tactic(auto, unfolding(law_fixed::specs::Fixed::fixed_reloc))]
fn place_at(reloc: &Reloc, address: u64) -> u64
    ensures { result ≡ (fixed.fixed_reloc address reloc.now).address }
{
    if reloc.kind == R_X86_64_NONE {
        reloc.address
    } else {
        reloc.address.wrapping_add(address)
    }
}

#[tactic(auto, unfolding(law_fixed::specs::Fixed::fixed_reloc))]
fn addend_at(reloc: &Reloc, address: u64) -> i64
    ensures { result ≡ (fixed.fixed_reloc address reloc.now).addend }
{
    if reloc.kind == R_X86_64_RELATIVE {
        reloc
            .addend
            .cast_unsigned()
            .wrapping_add(address)
            .cast_signed()
    } else {
        reloc.addend
    }
}

/// A relocation at the address: its place moves, and the addend of kind RELATIVE.
#[tactic(auto, unfolding(law_fixed::specs::Fixed::fixed_reloc))]
fn reloc_at(reloc: &Reloc, address: u64) -> Reloc
    ensures { result ≡ fixed.fixed_reloc address reloc.now }
{
    Reloc {
        address: place_at(reloc, address),
        kind: reloc.kind,
        symbol: reloc.symbol,
        addend: addend_at(reloc, address),
        width: reloc.width,
    }
}

fn sections_at(
    alloc: Global,
    sections: &[Section],
    address: u64,
) -> Result<Vec<Section>, AllocError>
    ensures { IfOk result (λ v. v.items ≡ map (fixed.fixed_section address) sections.now) }
{
    sections
        .iter()
        .map(|section| section_at(section, address))
        .collect(alloc)
}

fn segments_at(
    alloc: Global,
    segments: &[Segment],
    address: u64,
) -> Result<Vec<Segment>, AllocError>
    ensures { IfOk result (λ v. v.items ≡ map (fixed.fixed_segment address) segments.now) }
{
    segments
        .iter()
        .map(|segment| segment_at(segment, address))
        .collect(alloc)
}

fn relocs_at(alloc: Global, relocs: &[Reloc], address: u64) -> Result<Vec<Reloc>, AllocError>
    ensures { IfOk result (λ v. v.items ≡ map (fixed.fixed_reloc address) relocs.now) }
{
    relocs
        .iter()
        .map(|reloc| reloc_at(reloc, address))
        .collect(alloc)
}

fn symbols_at(
    alloc: Global,
    symbols: Rows<Symbol>,
    address: u64,
) -> Result<Rows<Symbol>, AllocError>
    ensures { IfOk result (λ rows. rows ≡ map (fixed.fixed_symbol address) symbols) }
{
    let mut moved = Rows::new(alloc);
    let items = symbols.into_vec();
    for symbol in items {
        moved.push(symbol_at(symbol, address))?;
    }
    Ok(moved)
}

/// Makes an object that of its program at an address; its link tables stay where they were in the file.
#[tactic(auto, unfolding(law_fixed::specs::Fixed::fixed))]
fn move_object(alloc: Global, object: &mut Object, address: u64) -> Result<(), AllocError>
    requires { object.old.span + address < 2 ^ 64 }
    ensures { OnOk result (object.new ≡ fixed.fixed address object.old) }
{
    let sections = sections_at(alloc, object.sections.as_slice(), address)?;
    let segments = segments_at(alloc, object.segments.as_slice(), address)?;
    let relocations = relocs_at(alloc, object.relocations.as_slice(), address)?;
    let symbols = replace(&mut object.symbols, Rows::new(alloc));
    object.symbols = symbols_at(alloc, symbols, address)?;
    object.header = header_at(&object.header, address);
    object.sections = Rows::from_vec(sections);
    object.entry = entry_at(object.entry, address);
    object.segments = Rows::from_vec(segments);
    object.relocations = Rows::from_vec(relocations);
    object.span += address;
    Ok(())
}

/// Where the link tables of an object stand in a file.
fn tables_in(alloc: Global, file: &[u8], object: &Object) -> Result<Rows<Range>, AllocError>
    requires few { length file.now < 2 ^ 32 }
    requires low { All (λ w. end_of w < 2 ^ 64) (spec.windows_in file.now object.now) }
    ensures { IfOk result (λ tables. tables
        ≡ map window_range (spec.windows_in file.now object.now)) }
{
    let segments = object.segments.as_slice();
    let sections = object.sections.as_slice();
    let tags = read_tags(alloc, loaded(file, segments, dynamic_memory(segments)))?;
    let told = tags.as_slice();
    let windows = link_windows(alloc, &object.header, segments, sections, told)?;
    let all = windows.as_slice();
    let tables = ranges_of(alloc, all)?;
    Ok(tables)
}

/// Makes an object the one that is read of the file of its program at an address.
fn move_in_file(
    alloc: Global,
    file: &[u8],
    object: &mut Object,
    address: u64,
) -> Result<(), AllocError>
    requires { spec.IsFixedAt object.old address file.now }
    ensures { OnOk result (reads file.now ≡ Ok object.new) }
{
    move_object(alloc, object, address)?;
    let tables = tables_in(alloc, file, object)?;
    object.tables = tables;
    Ok(())
}

/// The object that is read of a file that `fix` made of a program at an address, by the object of that program. No acceptance clause is looked at again. It fails only for want of memory.
pub fn object_at(
    alloc: Global,
    file: &[u8],
    object: Object,
    address: u64,
) -> Result<Object, AllocError>
    requires { spec.IsFixedAt object address file.now }
    ensures { IfOk result (λ x. reads file.now ≡ Ok x) }
{
    let mut object = object;
    match move_in_file(alloc, file, &mut object, address) {
        Ok(()) => Ok(object),
        Err(fault) => {
            drop(object);
            Err(fault)
        }
    }
}
