// The words that move with a program's address, beside those in rows of tables.
ghost use Rattle.std.specs.Prelude.{◌≡◌, ◌+◌, ◌*◌, ◌<◌, ◌^◌, map, slice_get, IfOk};
ghost use Rattle.pl_object.specs.PlaceClauses.{last_packed};
ghost use Rattle.pl_object.specs.Named.{symbols_of};
ghost use Rattle.pl_object.specs.Tables as tables;
ghost use Rattle.pl_pie.specs.Words as spec;

use crate::constants::{ADDR_AT, VALUE_AT};
use pl_elf::Section;
use pl_elf::constants::{SECTION_SIZE, SHF_ALLOC};
use pl_object::{Object, Reloc, file_window, place, symbols_of};
use pl_sym::Symbol;
use pl_sym::constants::SYMBOL_SIZE;
use std::alloc::{AllocError, Global};

fn is_allocated(section: &Section) -> bool
    ensures { result ≡ tables.is_allocated section.now }
{
    section.flags & SHF_ALLOC != 0
}

fn is_allocated_at(sections: &[Section], index: usize) -> bool
    ensures { result ≡ spec.passes tables.is_allocated (slice_get sections.now index) }
{
    match sections.get(index) {
        None => false,
        Some(section) => is_allocated(section),
    }
}

fn offset_of(table: u128, size: usize, index: usize, field: usize) -> u128
    requires table { table < 2 ^ 65 }
    requires size { size < 2 ^ 7 }
    ensures { result ≡ table + size * index + field }
{
    table + size as u128 * index as u128 + field as u128
}

#[tactic(auto, unfolding(crate::specs::Words::section_words))]
fn section_words(alloc: Global, object: &Object) -> Result<Vec<u128>, AllocError>
    ensures { IfOk result (λ v. v.items ≡ spec.section_words object.now) }
{
    let table = u128::from(object.header.shoff);
    let sections = object.sections.as_slice();
    (0..sections.len())
        .filter(|&index| is_allocated_at(sections, index))
        .map(|index| offset_of(table, SECTION_SIZE, index, ADDR_AT))
        .collect(alloc)
}

#[tactic(auto, unfolding(crate::specs::Words::is_address, pl_sym::specs::Definers::is_canonical))]
fn is_address(symbol: &Symbol) -> bool
    ensures { result ≡ spec.is_address symbol.now }
{
    !symbol.is_tls() && symbol.is_undefined() && !symbol.is_local() && symbol.value != 0
}

fn is_address_at(symbols: &[Symbol], index: usize) -> bool
    ensures { result ≡ spec.passes spec.is_address (slice_get symbols.now index) }
{
    match symbols.get(index) {
        None => false,
        Some(symbol) => is_address(symbol),
    }
}

#[tactic(auto, unfolding(crate::specs::Words::undefined_words))]
fn undefined_words(alloc: Global, object: &Object) -> Result<Vec<u128>, AllocError>
    requires { (symbols_of object.now).at < 2 ^ 64 }
    ensures { IfOk result (λ v. v.items ≡ spec.undefined_words object.now) }
{
    let table = symbols_of(object).at();
    let symbols = object.symbols.as_slice();
    (0..symbols.len())
        .filter(|&index| is_address_at(symbols, index))
        .map(|index| offset_of(table, SYMBOL_SIZE, index, VALUE_AT))
        .collect(alloc)
}

fn last_packed(object: &Object) -> &[Reloc]
    ensures { result.now ≡ last_packed object.now.packed object.now.relocations }
{
    let all = object.relocations.as_slice();
    &all[all.len().saturating_sub(object.packed as usize)..]
}

#[tactic(auto, unfolding(crate::specs::Words::packed_words))]
fn packed_words(alloc: Global, object: &Object) -> Result<Vec<u128>, AllocError>
    ensures { IfOk result (λ v. v.items ≡ spec.packed_words object.now) }
{
    let segments = object.segments.as_slice();
    last_packed(object)
        .iter()
        .map(|reloc| file_window(segments, place(reloc)).at())
        .collect(alloc)
}

/// Where the words stand in the file that move with a program's address, beside those in rows of tables: the addresses of sections that have one, the values of undefined symbols that are addresses, and the words at packed places.
#[tactic(auto, unfolding(crate::specs::Words::other_words))]
pub fn other_words(alloc: Global, object: &Object) -> Result<Vec<u128>, AllocError>
    requires { (symbols_of object.now).at < 2 ^ 64 }
    ensures { IfOk result (λ v. v.items ≡ spec.other_words object.now) }
{
    let mut words = section_words(alloc, object)?;
    words.extend_from_slice(&undefined_words(alloc, object)?)?;
    words.extend_from_slice(&packed_words(alloc, object)?)?;
    Ok(words)
}
