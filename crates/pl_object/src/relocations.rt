// The relocations of a table.
ghost use Rattle.std.specs.Prelude.{◌≡◌, ◌+◌, ◌++◌, ◌*◌, ◌≤◌, length, slice_get, IfOk, OnOk};
ghost use Rattle.pl_object.specs.Relocations as spec;

use crate::loads::Loads;
use crate::{Reloc, Window};
use pl_base::{word32, word64};
use pl_elf::constants::{R_X86_64_COPY, R_X86_64_NONE, R_X86_64_RELATIVE, RELA_SIZE, WORD64_SIZE};
use pl_sym::Symbol;
use pl_sym::constants::SYMBOL_SIZE;
use std::alloc::{AllocError, Global};

fn size_of(symbols: &[Symbol], index: u32) -> u64
    ensures { result ≡ spec.size_of (slice_get symbols.now index) }
{
    match symbols.get(index as usize) {
        None => 0,
        Some(symbol) => symbol.size,
    }
}

#[tactic(auto, unfolding(crate::specs::Relocations::width))]
fn width(symbols: &[Symbol], kind: u32, symbol: u32) -> u64
    ensures { result ≡ spec.width symbols.now kind symbol }
{
    if kind == R_X86_64_NONE {
        return 0;
    }
    if kind == R_X86_64_COPY {
        return size_of(symbols, symbol);
    }
    WORD64_SIZE
}

/// How many bytes a relocation changes, by the bytes of the symbol table (gABI chapter 4, "Symbol Table"; x86-64 psABI, "Relocation"): none for NONE, for COPY the size of its symbol, whose 24 bytes lie in the table, else a word's 8.
#[tactic(auto, unfolding(crate::specs::Relocations::raw_width))]
pub fn raw_width(table: &[u8], kind: u32, symbol: u32) -> u64
    requires { SYMBOL_SIZE * symbol + SYMBOL_SIZE ≤ length table.now }
    ensures { result ≡ spec.raw_width table.now kind symbol }
{
    if kind == R_X86_64_NONE {
        return 0;
    }
    if kind == R_X86_64_COPY {
        return word64(table, SYMBOL_SIZE * symbol as usize + 16);
    }
    WORD64_SIZE
}

#[tactic(auto, unfolding(crate::specs::Relocations::reloc_at))]
fn reloc_at(symbols: &[Symbol], table: &[u8], at: usize) -> Reloc
    requires { at + RELA_SIZE ≤ length table.now }
    ensures { result ≡ spec.reloc_at symbols.now table.now at }
{
    let kind = word32(table, at + 8);
    let symbol = word32(table, at + 12);
    Reloc {
        address: word64(table, at),
        kind,
        symbol,
        addend: word64(table, at + 16).cast_signed(),
        width: width(symbols, kind, symbol),
    }
}

/// A relocation for each whole row of 24 bytes in a table, in its order. The time grows as the table's length.
#[tactic(auto, unfolding(crate::specs::Relocations::relocs))]
pub fn relocs(alloc: Global, symbols: &[Symbol], table: &[u8]) -> Result<Vec<Reloc>, AllocError>
    ensures { IfOk result (λ v. v.items ≡ spec.relocs symbols.now table.now) }
{
    (0..table.len() / RELA_SIZE)
        .map(|index| reloc_at(symbols, table, RELA_SIZE * index))
        .collect(alloc)
}

fn word_of(bytes: &[u8]) -> u64
    ensures { result ≡ spec.word_of bytes.now }
{
    if bytes.len() as u64 == WORD64_SIZE {
        word64(bytes, 0)
    } else {
        0
    }
}

/// The word of 64 bits that stands in the file at an address of memory; 0 where its 8 bytes are not all in the file part.
#[tactic(auto, unfolding(crate::specs::Relocations::file_word))]
fn file_word(bytes: &[u8], loads: &Loads, address: u64) -> u64
    ensures { result ≡ spec.file_word bytes.now loads.now address }
{
    let place = Window::new(u128::from(address), WORD64_SIZE);
    word_of(loads.loaded(bytes, place))
}

fn packed_reloc(bytes: &[u8], loads: &Loads, address: u64) -> Reloc
    ensures { result ≡ spec.packed_reloc bytes.now loads.now address }
{
    Reloc {
        address,
        kind: R_X86_64_RELATIVE,
        symbol: 0,
        addend: file_word(bytes, loads, address).cast_signed(),
        width: WORD64_SIZE,
    }
}

/// Adds the relocations of packed places, in their order.
pub fn add_packed(
    relocs: &mut Vec<Reloc>,
    bytes: &[u8],
    loads: &Loads,
    addresses: &[u64],
) -> Result<(), AllocError>
    ensures { OnOk result (relocs.new.items ≡ relocs.old.items
        ++ spec.packed_relocs bytes.now loads.now addresses.now) }
{
    relocs.reserve(addresses.len())?;
    for address in addresses {
        relocs.push(packed_reloc(bytes, loads, *address))?;
    }
    Ok(())
}

/// Where the bytes that a relocation changes stand in memory.
pub fn place(reloc: &Reloc) -> Window
    ensures { result ≡ spec.place reloc.now }
{
    Window::new(u128::from(reloc.address), reloc.width)
}

/// The places of relocations, in their order.
pub fn places(alloc: Global, relocs: &[Reloc]) -> Result<Vec<Window>, AllocError>
    ensures { IfOk result (λ v. v.items ≡ spec.places relocs.now) }
{
    relocs.iter().map(place).collect(alloc)
}
