// A program's form, by its list, the bytes at its places and its conflicts.
ghost use Rattle.std.specs.Prelude.{◌≡◌, ◌+◌, ◌≤◌, ◌++◌, length, nat_lt, IfOk, OnOk};
ghost use Rattle.pl_base.specs.Answers.{AnswersAs};
ghost use Rattle.pl_lists.specs.Lists.{list_strings};
ghost use Rattle.pl_form.specs.Back.{wanted};
ghost use Rattle.pl_form.specs.Found.{ps_of};
ghost use Rattle.pl_form.specs.Faults as fault_spec;
ghost use Rattle.pl_form.specs.Program as spec;
ghost use Rattle.pl_form.specs.Words as words;
ghost use Rattle.pl_form.specs.Words.{AreFills};
ghost use Rattle.sha2.specs.Sha256.{sha256};

use crate::constants::STORED;
use crate::library_form::{digest_of, kept_digest, layout_of};
use crate::program::{Last, program_plan};
use crate::write::write_planned;
use crate::{Extension, Fill, FormFault, Source, Version};
use pl_base::{Rows, part};
use pl_elf::Segment;
use pl_io::NoMemory;
use pl_lists::{ConflictRow, ListRow, write_conflicts, write_list};
use pl_object::{Object, strings_of};
use std::alloc::{AllocError, Global};

/// How many bytes a fill has, but for those of copies, so that room is made for all at once. Nothing but memory and time depends on it.
const FILL_SIZE: usize = 8;

/// Whether the names of a list have more bytes than a form.
fn has_long_names(list: &[ListRow]) -> bool
    ensures { result ≡ nat_lt STORED (length (list_strings list.now)) }
{
    let mut room = STORED;
    for row in list {
        let size = row.name.as_str().len();
        if size >= room {
            return true;
        }
        room -= size + 1;
    }
    false
}

/// The dynamic strings with the list's names, the list and the conflicts.
fn extension_of(
    alloc: Global,
    original: &[u8],
    object: &Object,
    list: &[ListRow],
    conflicts: &[ConflictRow],
) -> Result<Extension, NoMemory>
    requires firm { spec.IsFirmProgram original.now object.now }
    requires names { length (list_strings list.now) ≤ STORED }
    ensures { IfOk result (λ lists. lists ≡ words.extension_of original.now list.now
        conflicts.now) }
{
    let window = strings_of(object);
    let old = part(original, window.at(), window.size());
    let mut strings = Vec::from_slice(alloc, old)?;
    let rows = write_list(alloc, list, &mut strings)?;
    let conflicts = write_conflicts(alloc, conflicts)?;
    Ok(Extension {
        strings: Rows::from_vec(strings),
        rows: Rows::from_vec(rows),
        conflicts: Rows::from_vec(conflicts),
    })
}

/// Whether the parts of an extension alone have more bytes than a form.
fn are_too_long(lists: &Extension) -> bool
    ensures { result ≡ nat_lt STORED (length lists.now.strings +
        (length lists.now.rows + length lists.now.conflicts)) }
{
    let size = (lists.strings.len() as u128)
        + (lists.rows.len() as u128)
        + (lists.conflicts.len() as u128);
    size > STORED as u128
}

/// The last PT_LOAD with its index.
fn find_last(segments: &[Segment]) -> Option<Last>
    ensures { result ≡ spec.find_last segments.now }
{
    for past in 0..segments.len() {
        let index = segments.len() - 1 - past;
        let segment = segments[index];
        if segment.is_load() {
            return Some(Last { index, segment });
        }
    }
    None
}

/// The form of a program with these bytes at its places.
fn extended(
    alloc: Global,
    source: &Source<'_>,
    lists: &Extension,
    flat: &[u8],
    version: Version,
) -> Result<Vec<u8>, NoMemory>
    requires source { spec.IsProgramSource source.now }
    requires flat { length flat.now ≡ wanted (ps_of source.now.original.now) }
    requires lists { length lists.now.strings + (length lists.now.rows + length lists.now.conflicts)
        ≤ STORED }
    ensures { IfOk result (λ v. v.items ≡ spec.extended source.now.original.now lists.now flat.now
        version) }
{
    let Some(last) = find_last(source.object.segments.as_slice()) else {
        return Ok(Vec::new(alloc));
    };
    let plan = program_plan(
        alloc,
        source.original,
        source.object,
        source.layout,
        &last,
        flat,
        lists,
    )?;
    let kept = kept_digest(version, *source.digest);
    write_planned(alloc, source.original, source.layout, &plan, flat, kept)
}

/// The form of an accepted program with these bytes at its places, one place after the other in the order of the relocations.
///
/// The program was accepted from these bytes and has no form fault other than InRegion. TooLarge comes exactly where the form has more than 256 MiB.
pub fn program_with(
    alloc: Global,
    source: &Source<'_>,
    list: &[ListRow],
    flat: &[u8],
    conflicts: &[ConflictRow],
    version: Version,
) -> Result<Vec<u8>, FormFault>
    requires source { spec.IsProgramSource source.now }
    requires flat { length flat.now ≡ wanted (ps_of source.now.original.now) }
    ensures { AnswersAs (λ v. v.items) fault_spec.is_memory result (spec.stored
        (spec.program_with source.now.original.now list.now flat.now conflicts.now version)) }
{
    if has_long_names(list) {
        return Err(FormFault::TooLarge);
    }
    let lists = extension_of(alloc, source.original, source.object, list, conflicts)?;
    if are_too_long(&lists) {
        return Err(FormFault::TooLarge);
    }
    let form = extended(alloc, source, &lists, flat, version)?;
    if form.len() > STORED {
        return Err(FormFault::TooLarge);
    }
    Ok(form)
}

/// Adds the bytes of a fill.
fn push_fill(flat: &mut Vec<u8>, fill: &Fill) -> Result<(), AllocError>
    ensures { OnOk result (flat.new.items ≡ flat.old.items ++ words.bytes_of fill.now) }
{
    flat.extend_from_slice(fill.bytes.as_slice())
}

/// The bytes of the fills, one after the other.
fn flat_of(alloc: Global, fills: &[Fill]) -> Result<Vec<u8>, AllocError>
    ensures { IfOk result (λ v. v.items ≡ words.flat_of fills.now) }
{
    let mut flat = Vec::with_capacity(alloc, fills.len().saturating_mul(FILL_SIZE))?;
    for fill in fills {
        push_fill(&mut flat, fill)?;
    }
    Ok(flat)
}

/// The bytes of the fills, one after the other. The fills are let go.
fn flat_from(alloc: Global, fills: Vec<Fill>) -> Result<Vec<u8>, AllocError>
    ensures { IfOk result (λ v. v.items ≡ words.flat_of fills.items) }
{
    flat_of(alloc, &fills)
}

/// The form that `form_program` gives, where the caller has the SHA-256 of the original. The fills are let go before the form is made.
pub fn form_program_with(
    alloc: Global,
    original: &[u8],
    object: &Object,
    list: &[ListRow],
    fills: Vec<Fill>,
    conflicts: &[ConflictRow],
    version: Version,
    digest: &[u8; 32],
) -> Result<Vec<u8>, FormFault>
    requires firm { spec.IsFirmProgram original.now object.now }
    requires fills { AreFills fills.items object.now.relocations }
    requires digest { digest.now ≡ sha256 original.now }
    ensures { AnswersAs (λ v. v.items) fault_spec.is_memory result
        (spec.stored (spec.program_form original.now list.now fills.items conflicts.now version)) }
{
    let flat = flat_from(alloc, fills)?;
    let layout = layout_of(alloc, original, object)?;
    let source = Source {
        original,
        object,
        layout: &layout,
        digest,
    };
    program_with(alloc, &source, list, &flat, conflicts, version)
}

/// The form of an accepted program: its bytes with those of the fills at the places, and behind the last PT_LOAD's memory the dynamic strings with the list's names, the library list and the conflicts; then what followed in the file, the undo section, the section names and the section headers.
///
/// The program was accepted from these bytes and has no form fault other than InRegion. There is one fill for each relocation that is not NONE, in their order, with its address and as many bytes as it changes. TooLarge comes exactly where the form has more than 256 MiB.
pub fn form_program(
    alloc: Global,
    original: &[u8],
    object: &Object,
    list: &[ListRow],
    fills: &[Fill],
    conflicts: &[ConflictRow],
    version: Version,
) -> Result<Vec<u8>, FormFault>
    requires firm { spec.IsFirmProgram original.now object.now }
    requires fills { AreFills fills.now object.now.relocations }
    ensures { AnswersAs (λ v. v.items) fault_spec.is_memory result
        (spec.stored (spec.program_form original.now list.now fills.now conflicts.now version)) }
{
    let digest = digest_of(original);
    let flat = flat_of(alloc, fills)?;
    let layout = layout_of(alloc, original, object)?;
    let source = Source {
        original,
        object,
        layout: &layout,
        digest: &digest,
    };
    program_with(alloc, &source, list, &flat, conflicts, version)
}
