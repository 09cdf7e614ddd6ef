// Whether the members of a walk can be prelinked together.
ghost use Rattle.std.specs.Prelude.{◌≡◌, ◌<◌, ◌+◌, ◌++◌, ◌%◌, ◌==◌, ◌&&◌, IfOk, OnOk, not, map, length, nat_le};
ghost use Rattle.std.specs.List.{All, flat_map, list_all};
ghost use Rattle.pl_conflict.specs.Prelinked as firm;
ghost use Rattle.pl_elf.specs.Headers.{loads};
ghost use Rattle.pl_base.specs.Windows as windows_by;
ghost use Rattle.pl_cone.specs.Table.{AreRows};
ghost use Rattle.pl_rewrite.specs.Rows as spec;
ghost use Rattle.pl_rewrite.specs.Sources.{AreSources};

use crate::numbers::Numbered;
use pl_base::{end, is_valid_name};
use pl_elf::constants::ADDRESS_LIMIT;
use pl_object::{Object, Window, any_share};
use std::alloc::{AllocError, Global};

fn is_placed(slot: u64, align: u64, span: u64) -> bool
    requires { 0 < align }
    ensures { result ≡ (slot % align == 0 && nat_le (slot + span) ADDRESS_LIMIT) }
{
    slot % align == 0 && end(slot, span) <= u128::from(ADDRESS_LIMIT)
}

fn is_at_zero(slot: u64, stamp: u32) -> bool
    ensures { result ≡ (slot == 0 && stamp == 0) }
{
    slot == 0 && stamp == 0
}

fn numbers_fit(object: &Object, slot: u64, stamp: u32) -> bool
    requires { 0 < object.now.align }
    ensures { result ≡ spec.numbers_fit object.now slot stamp }
{
    if object.kind.is_library() {
        return is_placed(slot, object.align, object.span);
    }
    is_at_zero(slot, stamp)
}

fn all_have_numbers(numbered: &Numbered<'_>, walk: &[u32]) -> bool
    requires numbered { spec.IsNumbered numbered.now }
    requires rows { spec.AreRowsOf numbered.now.files.now walk.now }
    requires aligned { All (spec.IsAligned numbered.now) walk.now }
    ensures { result ≡ list_all (spec.has_numbers numbered.now) walk.now }
{
    for member in walk {
        let row = *member as usize;
        let Some(object) = numbered.files[row].object() else {
            return false;
        };
        if !numbers_fit(object, numbered.places[row], numbered.stamps[row]) {
            return false;
        }
    }
    true
}

fn all_have_names(numbered: &Numbered<'_>, others: &[u32]) -> bool
    requires { spec.AreRowsOf numbered.now.files.now others.now }
    ensures { result ≡ list_all (spec.is_named_well numbered.now) others.now }
{
    for row in others {
        let taken = &numbered.files[*row as usize];
        let Some(_) = taken.object() else {
            return false;
        };
        if !is_valid_name(taken.name.as_str().as_bytes()) {
            return false;
        }
    }
    true
}

fn add_loads(windows: &mut Vec<Window>, object: &Object) -> Result<(), AllocError>
    ensures { OnOk result (windows.new.items
        ≡ windows.old.items ++ map firm.load_window (loads object.now.segments)) }
{
    for segment in object.segments.as_slice() {
        if segment.is_load() {
            windows.push(Window::new(u128::from(segment.vaddr), segment.memsz))?;
        }
    }
    Ok(())
}

/// Adds what a file takes up: a library the addresses from its slot to its end, a program those of its PT_LOADs.
fn add_windows(all: &mut Vec<Window>, numbered: &Numbered<'_>, row: usize) -> Result<(), AllocError>
    requires numbered { spec.IsNumbered numbered.now }
    requires row { row < length numbered.now.files.now }
    ensures { OnOk result (all.new.items ≡ all.old.items ++ spec.windows_of numbered.now row) }
{
    let Some(object) = numbered.files[row].object() else {
        return Ok(());
    };
    if !object.kind.is_library() {
        return add_loads(all, object);
    }
    all.push(Window::new(u128::from(numbered.places[row]), object.span))?;
    Ok(())
}

/// Whether no two files have an address in common. The time grows as `n log n`.
fn are_apart(alloc: Global, numbered: &Numbered<'_>, walk: &[u32]) -> Result<bool, AllocError>
    requires numbered { spec.IsNumbered numbered.now }
    requires rows { spec.AreRowsOf numbered.now.files.now walk.now }
    ensures { IfOk result (λ b. b ≡ not (windows_by.any_share
        (flat_map (spec.windows_of numbered.now) walk.now))) }
{
    let mut windows = Vec::new(alloc);
    for row in walk {
        add_windows(&mut windows, numbered, *row as usize)?;
    }
    Ok(!any_share(windows))
}

/// Whether the members of the walk of a row can be prelinked together: their numbers are such as they may have, what they take up has no address in common, and the names of those after the first are valid.
pub fn are_set(alloc: Global, numbered: &Numbered<'_>, row: usize) -> Result<bool, AllocError>
    requires numbered { spec.IsNumbered numbered.now }
    requires rows { AreRows numbered.now.files.now (spec.walk_of numbered.now row) }
    requires sources { AreSources (spec.firms_of numbered.now row) }
    ensures { IfOk result (λ b. b ≡ firm.are_set (spec.firms_of numbered.now row)) }
{
    let walk = numbered.walk(row);
    let [_, others @ ..] = walk else {
        return Ok(false);
    };
    if !all_have_numbers(numbered, walk) {
        return Ok(false);
    }
    let apart = are_apart(alloc, numbered, walk)?;
    if !apart {
        return Ok(false);
    }
    Ok(all_have_names(numbered, others))
}
