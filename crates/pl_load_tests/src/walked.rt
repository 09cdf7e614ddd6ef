// The files of a set as a walk has them: the scope, the places, and what is asked of these by lists and images.
ghost use Rattle.std.specs.Prelude.{◌≡◌, ◌+◌, ◌≤◌, List, ℕ, map, length, IfOk};
ghost use Rattle.std.specs.Bool.{OnTrue};
ghost use Rattle.std.specs.List.{All};
ghost use Rattle.pl_elf.specs.declared.constants.TheConstants.{ADDRESS_LIMIT};
ghost use Rattle.pl_form.specs.Faults.{IsFirm};
ghost use Rattle.pl_form.specs.Library.{IsListing};
ghost use Rattle.pl_scope.specs.Scope.{objects, IsAccepted};
ghost use Rattle.pl_value.specs.Ordinary.{ArePlaced};

use crate::firm::{file_of, object_of};
use pl_base::{Rows, Text, end, push32, word32};
use pl_cases::number;
use pl_elf::constants::ADDRESS_LIMIT;
use pl_image::Parts;
use pl_io::NoMemory;
use pl_lists::{ListRow, read_list};
use pl_object::Object;
use pl_scope::{MAX_MEMBERS, Member, Order, Scope};
use pl_slots::{Slot, are_apart};
use pl_tls::{Module, offsets};
use pl_value::Places;
use sha2::{Digest, Sha256};
use std::alloc::{AllocError, Global};
use std::test::Fail;

/// The stamp of every library.
pub const STAMP: u32 = 1000;

/// A file of a set.
#[derive(Drop)]
pub struct Sample {
    pub name: &'static str,
    pub recipe: &'static str,

    /// The address that its address 0 gets, 0 for a program.
    pub place: u64,

    /// The SHA-256 of its form in version 1 and in version 2, `-` where the other builder has no form.
    pub first: &'static str,
    pub second: &'static str,
}

/// The file of a line of a set.
fn sample_of(line: &'static str) -> Result<Sample, Fail> {
    let (head, recipe) = line.split_once(": ").ok_or("a recipe")?;
    let (name, head) = head.split_once(' ').ok_or("a name")?;
    let (place, digests) = head.split_once(' ').ok_or("a place")?;
    let (first, second) = digests.split_once(' ').ok_or("two digests")?;
    Ok(Sample {
        name,
        recipe,
        place: number(place)?,
        first,
        second,
    })
}

/// The files of a set.
pub fn samples_of(alloc: Global, set: &'static str) -> Result<Vec<Sample>, Fail> {
    let mut samples = Vec::new(alloc);
    for line in set.lines() {
        samples.push(sample_of(line)?)?;
    }
    Ok(samples)
}

/// A file that was built and accepted, and has no fault of forms.
#[derive(Drop)]
pub struct Original {
    pub name: &'static str,
    pub place: u64,
    pub bytes: Vec<u8>,
    pub object: Object,
    ghost firm: { IsFirm bytes.items object },
}

/// The file of a sample.
pub fn original_of(alloc: Global, sample: &Sample) -> Result<Original, Fail> {
    let bytes = file_of(alloc, sample.recipe)?;
    let object = object_of(alloc, &bytes)?;
    Ok(Original {
        name: sample.name,
        place: sample.place,
        bytes,
        object,
    })
}

/// The bytes of a file, as its object was read from them.
pub fn firm_bytes(original: &Original) -> &[u8]
    ensures { IsFirm result.now original.now.object }
{
    original.bytes.as_slice()
}

/// The sample of a name.
fn find<'a>(set: &'a [Sample], name: &str) -> Option<&'a Sample> {
    for sample in set {
        if sample.name == name {
            return Some(sample);
        }
    }
    None
}

/// The files of the walk of a name, in its order.
pub fn walked(alloc: Global, name: &str, set: &[Sample]) -> Result<Vec<Original>, Fail> {
    let mut walk = Order::new(alloc, name)?;
    let mut order = Vec::new(alloc);
    for _member in 0..MAX_MEMBERS {
        let Some(name) = walk.wants() else {
            return Ok(order);
        };
        let Some(sample) = find(set, name) else {
            return Err("a file of each name".into());
        };
        let original = original_of(alloc, sample)?;
        walk.give(alloc, &original.object)?;
        order.push(original)?;
    }
    Ok(order)
}

/// The scope of files.
pub fn scope_of<'a>(alloc: Global, order: &'a [Original]) -> Result<Scope<'a>, Fail>
    ensures objects { IfOk result (λ scope. objects scope ≡ map (λ f. f.object) order.now) }
    ensures accepted { IfOk result (λ scope. All IsAccepted (objects scope)) }
{
    if order.len() > MAX_MEMBERS {
        return Err("few files".into());
    }
    let mut members = Vec::new(alloc);
    for original in order {
        members.push(Member {
            name: Text::copy_of(alloc, original.name)?,
            object: &original.object,
        })?;
    }
    Ok(Scope::new(members))
}

/// The address range of each file at its place.
pub fn slots_of(alloc: Global, order: &[Original]) -> Result<Vec<Slot>, AllocError>
    ensures { IfOk result (λ slots. map (λ s. s.span) slots.items ≡ map (λ o. o.span) (map (λ f. f.object) order.now)) }
{
    let mut slots = Vec::new(alloc);
    for original in order {
        slots.push(Slot {
            name: Text::copy_of(alloc, original.name)?,
            start: original.place,
            span: original.object.span,
        })?;
    }
    Ok(slots)
}

/// Whether address ranges end within the limit of addresses.
fn are_low(slots: &[Slot]) -> bool
    ensures { OnTrue result (All (λ s. s.start + s.span ≤ ADDRESS_LIMIT) slots.now) }
{
    slots.iter().all(|slot| end(slot.start, slot.span) <= u128::from(ADDRESS_LIMIT))
}

fn starts_of(alloc: Global, slots: &[Slot]) -> Result<Vec<u64>, AllocError>
    ensures { IfOk result (λ starts. starts.items ≡ map (λ s. s.start) slots.now) }
{
    slots.iter().map(|slot| slot.start).collect(alloc)
}

/// The places of files, whose address ranges there do not meet.
pub fn places_of(alloc: Global, slots: &[Slot], scope: &Scope<'_>) -> Result<Places, Fail>
    requires spans { map (λ s. s.span) slots.now ≡ map (λ o. o.span) (objects scope.now) }
    requires accepted { All IsAccepted (objects scope.now) }
    ensures one_each { IfOk result (λ places. length places ≡ length scope.now) }
    ensures placed { IfOk result (λ places. (parts : List (List ℕ)) → ArePlaced places parts (objects scope.now)) }
{
    if slots.len() != scope.count() as usize || !are_apart(slots) {
        return Err("places that are apart".into());
    }
    if !are_low(slots) {
        return Err("low places".into());
    }
    let starts = starts_of(alloc, slots)?;
    Ok(Places::new(Rows::from_vec(starts)))
}

/// The thread-local storage of files.
pub fn modules_of(alloc: Global, order: &[Original]) -> Result<Rows<Module>, Fail> {
    let mut blocks = Vec::new(alloc);
    for original in order {
        blocks.push(original.object.tls)?;
    }
    if blocks.len() > MAX_MEMBERS {
        return Err("few files".into());
    }
    Ok(offsets(alloc, &blocks)?)
}

/// The bytes of files.
pub fn originals_of<'a>(alloc: Global, order: &'a [Original]) -> Result<Parts<'a>, NoMemory> {
    let mut parts = Parts::new(alloc);
    for original in order {
        parts.add(&original.bytes)?;
    }
    Ok(parts)
}

/// The bytes of a program, and those of its libraries' forms.
pub fn files_of<'a>(
    alloc: Global,
    program: &'a Original,
    forms: &'a [Vec<u8>],
) -> Result<Parts<'a>, NoMemory> {
    let mut parts = Parts::new(alloc);
    parts.add(&program.bytes)?;
    for form in forms {
        parts.add(form)?;
    }
    Ok(parts)
}

/// Adds the row of a library to the table of a list, and its name to the strings.
fn push_row(
    table: &mut Vec<u8>,
    strings: &mut Vec<u8>,
    original: &Original,
) -> Result<(), AllocError> {
    push32(table, (strings.len() % 0x1_0000) as u32)?;
    push32(table, STAMP)?;
    push32(table, word32(&Sha256::digest(&original.bytes), 0))?;
    push32(table, 0)?;
    push32(table, 0)?;
    strings.extend_from_slice(original.name.as_bytes())?;
    strings.push(0)?;
    Ok(())
}

/// The list of libraries.
pub fn list_of(alloc: Global, libraries: &[Original]) -> Result<Rows<ListRow>, Fail>
    ensures { IfOk result IsListing }
{
    let mut table = Vec::new(alloc);
    let mut strings = Vec::new(alloc);
    for library in libraries {
        push_row(&mut table, &mut strings, library)?;
    }
    if strings.len() > 0x1_0000 {
        return Err("short names".into());
    }
    Ok(read_list(alloc, &table, &strings)?)
}
