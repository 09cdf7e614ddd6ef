// The masked addresses of objects.
ghost use Rattle.std.specs.Prelude.{◌≡◌, ◌+◌, ◌≤◌, ◌||◌, ℕ, true, IfOk, OnOk};
ghost use Rattle.std.specs.List.{list_any, All};
ghost use Rattle.pl_elf.specs.declared.constants.TheConstants.{ADDRESS_LIMIT};
ghost use Rattle.pl_elf.specs.Ranges.{has};
ghost use Rattle.pl_image.specs.Image.{any_masked};
ghost use Rattle.pl_image.specs.Index.{rises};
ghost use Rattle.pl_image.specs.Loads as spec;

use crate::ranges::{apart, near};
use crate::{Load, LoadedObject, Mask};
use pl_elf::Range;
use std::alloc::{AllocError, Global};

/// Adds the addresses at which bytes of a table are loaded.
fn add_table(ranges: &mut Vec<Range>, load: &Load, table: &Range) -> Result<(), AllocError>
    requires { load.now.start + load.now.size ≤ ADDRESS_LIMIT }
    ensures { OnOk result ((a : ℕ) → list_any (has a) ranges.new.items
        ≡ (list_any (has a) ranges.old.items || spec.loads_table a load.now table.now)) }
{
    let from = table.start.saturating_sub(load.offset);
    let to = table.end.saturating_sub(load.offset).min(load.size);
    if from < to {
        ranges.push(Range {
            start: load.start + from,
            end: load.start + to,
        })?;
    }
    Ok(())
}

/// Adds the addresses at which bytes of tables are loaded.
fn add_load(ranges: &mut Vec<Range>, load: &Load, tables: &[Range]) -> Result<(), AllocError>
    requires fits { load.now.start + load.now.size ≤ ADDRESS_LIMIT }
    requires rising { rises 0 tables.now ≡ true }
    ensures { OnOk result ((a : ℕ) → list_any (has a) ranges.new.items
        ≡ (list_any (has a) ranges.old.items || list_any (spec.loads_table a load.now)
        tables.now)) }
{
    let near = near(tables, load.offset, load.size);
    for table in near {
        add_table(ranges, load, table)?;
    }
    Ok(())
}

/// Adds the addresses at which bytes of tables are loaded, of all parts of a file.
fn add_loads(ranges: &mut Vec<Range>, loads: &[Load], tables: &[Range]) -> Result<(), AllocError>
    requires fit { All (λ l. l.start + l.size ≤ ADDRESS_LIMIT) loads.now }
    requires rising { rises 0 tables.now ≡ true }
    ensures { OnOk result ((a : ℕ) → list_any (has a) ranges.new.items
        ≡ (list_any (has a) ranges.old.items || list_any
        (λ l. list_any (spec.loads_table a l) tables.now) loads.now)) }
{
    for load in loads {
        add_load(ranges, load, tables)?;
    }
    Ok(())
}

/// Adds the masked addresses of an object.
fn add_mask(alloc: Global, ranges: &mut Vec<Range>, mask: &Mask) -> Result<(), AllocError>
    requires { All (λ l. l.start + l.size ≤ ADDRESS_LIMIT) mask.now.loads }
    ensures { OnOk result ((a : ℕ) → list_any (has a) ranges.new.items
        ≡ (list_any (has a) ranges.old.items || spec.is_masked mask.now a)) }
{
    let tables = Vec::from_slice(alloc, mask.tables.as_slice())?;
    let tables = apart(alloc, tables)?;
    add_loads(ranges, mask.loads.as_slice(), &tables)?;
    Ok(())
}

/// The masked addresses of objects, in any order.
fn all_masked(alloc: Global, objects: &[LoadedObject<'_>]) -> Result<Vec<Range>, AllocError>
    requires { All (λ o. All (λ l. l.start + l.size ≤ ADDRESS_LIMIT) o.mask.loads) objects.now }
    ensures { IfOk result (λ v. (a : ℕ) → list_any (has a) v.items ≡ any_masked objects.now a) }
{
    let mut ranges = Vec::new(alloc);
    for object in objects {
        add_mask(alloc, &mut ranges, &object.mask)?;
    }
    Ok(ranges)
}

/// The masked addresses of objects, in ranges that ascend and do not overlap.
pub fn masked_ranges(alloc: Global, objects: &[LoadedObject<'_>]) -> Result<Vec<Range>, AllocError>
    requires { All (λ o. All (λ l. l.start + l.size ≤ ADDRESS_LIMIT) o.mask.loads) objects.now }
    ensures rises { IfOk result (λ v. rises 0 v.items ≡ true) }
    ensures masked { IfOk result (λ v. (a : ℕ) → list_any (has a) v.items
        ≡ any_masked objects.now a) }
{
    let ranges = all_masked(alloc, objects)?;
    apart(alloc, ranges)
}
