// What is read of a file that may be a form.
ghost use Rattle.std.specs.Prelude.{◌≡◌, ◌+◌, ◌++◌, ◌*◌, ◌%◌, ◌^◌, ◌<◌, ◌≤◌, length, true, false, Some, IfOk, OnOk, if◌then◌else◌};
ghost use Rattle.pl_base.specs.Bytes.{part, word32};
ghost use Rattle.pl_elf.specs.Kinds.{is_library};
ghost use Rattle.pl_lists.specs.Reading.{list_of, conflicts_of};
ghost use Rattle.pl_object.specs.PlaceClauses.{last_load};
ghost use Rattle.pl_form.specs.Back.{front_of, has_undo_section, when};
ghost use Rattle.pl_form.specs.Marks.{IsFormOf};
ghost use Rattle.pl_form.specs.Originals.{AreFoundIn, IsLayoutOf};
ghost use Rattle.pl_form.specs.Reading as spec;
ghost use Rattle.sha2.specs.Sha256.{sha256};

use crate::back::{Front, are_filled, find_undo, restored};
use crate::form_with::form_with;
use crate::found::word_or_zeros;
use crate::has_mark::has_mark;
use crate::library_form::{digest_of, layout_of};
use crate::{Layout, Marked, STORED, Spot, Version, check_form};
use pl_base::{Rows, end, part, word32};
use pl_elf::{Range, header_fields, read_section};
use pl_lists::{ConflictRow, ListFault, ListRow, read_conflicts, read_list};
use pl_object::{Object, Refusal, accept, last_load as last_segment};
use pl_undo::{DIGEST_SIZE, Undo};
use std::alloc::{AllocError, Global};

/// An original has fewer bytes.
const MOST_BYTES: usize = 4_294_967_296;

/// The lists of a form.
#[derive(Drop)]
pub struct Lists {
    pub list: Rows<ListRow>,
    pub conflicts: Rows<ConflictRow>,
}

/// Whether an object is a program or library without form fault other than InRegion.
fn has_form(object: &Object) -> bool
    ensures { result ≡ spec.has_form object.now }
{
    let nowhere = Range { start: 0, end: 0 };
    !object.kind.is_static() && check_form(object, nowhere).is_ok()
}

/// Whether an accepted file may be an original: it has a form, and no mark.
fn is_firm(alloc: Global, bytes: &[u8], object: &Object) -> Result<bool, AllocError>
    requires { length bytes.now < 2 ^ 32 }
    ensures { IfOk result (λ b. b ≡ spec.is_firm bytes.now object.now) }
{
    if !has_form(object) {
        return Ok(false);
    }
    Ok(!has_mark(alloc, bytes)?)
}

/// The object that an original is; None where the bytes are no original of a form.
#[tactic(auto, unfolding(crate::specs::Reading::firm_object))]
fn firm_object(alloc: Global, bytes: &[u8]) -> Result<Option<Object>, AllocError>
    ensures exact { IfOk result (λ o. o ≡ spec.firm_object bytes.now) }
    ensures own { IfOk result (spec.OwnIfAny bytes.now) }
{
    if bytes.len() >= MOST_BYTES {
        return Ok(None);
    }
    let object = match accept(alloc, bytes) {
        Ok(object) => object,
        Err(Refusal::NoMemory) => return Err(AllocError),
        Err(Refusal::Clause { .. }) => return Ok(None),
    };
    match is_firm(alloc, bytes, &object) {
        Ok(true) => Ok(Some(object)),
        Ok(false) => {
            drop(object);
            Ok(None)
        }
        Err(fault) => {
            drop(object);
            Err(fault)
        }
    }
}

/// The bytes of the section so many rows before the end of the section header table.
fn section_from_end(file: &[u8], rows: u16) -> &[u8]
    requires undo { has_undo_section file.now ≡ true }
    requires rows { 2 ≤ rows }
    ensures bytes { result.now ≡ spec.section_from_end rows file.now }
    ensures within { length result.now ≤ length file.now }
{
    let header = header_fields(file);
    let section = read_section(file, &header, header.shnum.saturating_sub(rows));
    part(file, u128::from(section.offset), section.size)
}

fn list_in(alloc: Global, table: &[u8], strings: &[u8]) -> Result<Option<Rows<ListRow>>, AllocError>
    ensures exact { IfOk result (λ o. o ≡ spec.spelled (list_of table.now strings.now)) }
    ensures spelled { IfOk result (spec.ListIfAny (length strings.now)) }
{
    match read_list(alloc, table, strings) {
        Ok(list) => Ok(Some(list)),
        Err(ListFault::BadList) => Ok(None),
        Err(ListFault::NoMemory) => Err(AllocError),
    }
}

fn conflicts_in(alloc: Global, table: &[u8]) -> Result<Option<Rows<ConflictRow>>, AllocError>
    ensures exact { IfOk result (λ o. o ≡ spec.spelled (conflicts_of table.now)) }
    ensures spelled { IfOk result spec.ConflictsIfAny }
{
    match read_conflicts(alloc, table) {
        Ok(conflicts) => Ok(Some(conflicts)),
        Err(ListFault::BadList) => Ok(None),
        Err(ListFault::NoMemory) => Err(AllocError),
    }
}

fn library_lists(alloc: Global, file: &[u8]) -> Result<Option<Lists>, AllocError>
    requires { has_undo_section file.now ≡ true }
    ensures exact { IfOk result (λ o. o ≡ spec.library_lists file.now) }
    ensures spelled { IfOk result (spec.SpelledIfAny true file.now) }
{
    let Some(list) = list_in(alloc, section_from_end(file, 3), section_from_end(file, 4))? else {
        return Ok(None);
    };
    Ok(Some(Lists {
        list,
        conflicts: Rows::new(alloc),
    }))
}

fn program_lists(alloc: Global, file: &[u8]) -> Result<Option<Lists>, AllocError>
    requires { has_undo_section file.now ≡ true }
    ensures exact { IfOk result (λ o. o ≡ spec.program_lists file.now) }
    ensures spelled { IfOk result (spec.SpelledIfAny false file.now) }
{
    let Some(list) = list_in(alloc, section_from_end(file, 4), section_from_end(file, 5))? else {
        return Ok(None);
    };
    let Some(conflicts) = conflicts_in(alloc, section_from_end(file, 3))? else {
        return Ok(None);
    };
    Ok(Some(Lists { list, conflicts }))
}

/// The lists that a library's form or a program's has in its sections; None where their bytes spell none.
#[tactic(auto, unfolding(crate::specs::Reading::lists_in))]
fn lists_in(alloc: Global, object: &Object, file: &[u8]) -> Result<Option<Lists>, AllocError>
    requires { has_undo_section file.now ≡ true }
    ensures exact { IfOk result (λ o. o ≡ spec.lists_in (is_library object.now.kind) file.now) }
    ensures spelled { IfOk result (spec.SpelledIfAny (is_library object.now.kind) file.now) }
{
    if object.kind.is_library() {
        library_lists(alloc, file)
    } else {
        program_lists(alloc, file)
    }
}

/// The zeros of the last PT_LOAD, as they stand in a file.
fn zeros_behind<'a>(object: &Object, file: &'a [u8]) -> &'a [u8]
    ensures { result.now ≡ spec.zeros_behind (last_load object.now.segments) file.now }
{
    match last_segment(object.segments.as_slice()) {
        None => &file[file.len()..],
        Some(last) => {
            let cut = end(last.offset, last.filesz);
            part(file, cut, last.memsz.saturating_sub(last.filesz))
        }
    }
}

/// Adds the bytes that stand at a place.
fn push_standing(
    flat: &mut Vec<u8>,
    spot: &Spot,
    front: &Front<'_>,
    zeros: &[u8],
) -> Result<(), AllocError>
    ensures { OnOk result (flat.new.items ≡ flat.old.items
        ++ part spot.now.at spot.now.size front.now
        ++ part spot.now.behind spot.now.hidden zeros.now) }
{
    front.push_part(flat, spot.at, spot.size)?;
    flat.extend_from_slice(part(zeros, spot.behind, spot.hidden))
}

/// The bytes that stand at all places, in a file's bytes and in the zeros.
fn standing(
    alloc: Global,
    spots: &[Spot],
    front: &Front<'_>,
    zeros: &[u8],
) -> Result<Vec<u8>, AllocError>
    ensures { IfOk result (λ v. v.items ≡ spec.standing spots.now front.now zeros.now) }
{
    let mut flat = Vec::new(alloc);
    for spot in spots {
        push_standing(&mut flat, spot, front, zeros)?;
    }
    Ok(flat)
}

fn version_in(digest: &Option<[u8; DIGEST_SIZE]>) -> Version
    ensures { result ≡ spec.version_in digest.now }
{
    match digest {
        None => Version::One,
        Some(_) => Version::Two,
    }
}

/// The stamp that stands in the first entry behind the tags.
fn stamp_in(alloc: Global, layout: &Layout, front: &Front<'_>) -> Result<u32, AllocError>
    ensures { IfOk result (λ s. s ≡ spec.stamp_behind layout.now front.now) }
{
    let mut table = Vec::new(alloc);
    front.push_part(&mut table, layout.dynamic.at(), layout.dynamic.size())?;
    Ok((word_or_zeros(&table, 16 * u128::from(layout.tags) + 8) % 4_294_967_296) as u32)
}

/// The stamp of a library, 0 for a program.
fn stamp_for(
    alloc: Global,
    object: &Object,
    layout: &Layout,
    front: &Front<'_>,
) -> Result<u32, AllocError>
    ensures { IfOk result (λ s. s ≡ (if is_library object.now.kind
        then spec.stamp_behind layout.now front.now else 0)) }
{
    if object.kind.is_library() {
        stamp_in(alloc, layout, front)
    } else {
        Ok(0)
    }
}

/// The checksum of a library of this SHA-256, 0 for a program.
fn checksum_in(object: &Object, digest: &[u8; 32]) -> u32
    ensures { result ≡ (if is_library object.now.kind then word32 0 digest.now else 0) }
{
    if object.kind.is_library() {
        word32(digest, 0)
    } else {
        0
    }
}

/// All that a file would be made of that has this stamp, by an original of this SHA-256.
fn candidate(
    undo: &Undo,
    original: Rows<u8>,
    object: Object,
    stamp: u32,
    lists: Lists,
    digest: &[u8; 32],
) -> Marked
    requires { digest.now ≡ sha256 original }
    ensures { result ≡ spec.candidate_with stamp undo.now original object lists }
{
    let checksum = checksum_in(&object, digest);
    let Lists { list, conflicts } = lists;
    Marked {
        object,
        original,
        slot: undo.slot,
        stamp,
        checksum,
        list,
        conflicts,
        version: version_in(&undo.digest),
    }
}

/// Whether the slot is one that such an object may have.
#[tactic(auto, unfolding(crate::specs::Reading::is_placed))]
fn is_placed(marked: &Marked) -> bool
    requires { 0 < marked.now.object.align }
    ensures { result ≡ spec.is_placed marked.now }
{
    let object = &marked.object;
    if !object.kind.is_library() {
        return marked.slot == 0;
    }
    marked.slot % 2 == 0
        && marked.slot % object.align == 0
        && end(marked.slot, object.span) <= 1 << 47
}

/// Whether there is a byte for each byte of a place, and the slot is one that such an object may have.
fn fits(marked: &Marked, spots: &[Spot], size: usize) -> bool
    requires { 0 < marked.now.object.align }
    ensures { result ≡ spec.fits marked.now spots.now size }
{
    are_filled(spots, 0, size as u128) && is_placed(marked)
}

/// Whether a file is the form with these bytes at the places, of an original of this SHA-256.
#[tactic(auto, unfolding(crate::specs::Reading::is_form))]
fn is_form(
    alloc: Global,
    file: &[u8],
    marked: &Marked,
    layout: &Layout,
    flat: &[u8],
    digest: &[u8; 32],
) -> Result<bool, AllocError>
    requires file { length file.now ≤ STORED }
    requires made { spec.IsMade marked.now }
    requires found { AreFoundIn marked.now.original layout.now digest.now }
    ensures { IfOk result (λ b. b ≡ spec.is_form file.now marked.now flat.now) }
{
    if !fits(marked, layout.spots.as_slice(), flat.len()) {
        return Ok(false);
    }
    match form_with(alloc, marked, layout, flat, digest)? {
        None => Ok(false),
        Some(form) => Ok(file == form.as_slice()),
    }
}

/// Whether a file is the form with these bytes at the places, of an original of this SHA-256. Where it is, the file is a form of what is given.
fn makes_file(
    alloc: Global,
    file: &[u8],
    marked: &Marked,
    layout: &Layout,
    flat: &[u8],
    digest: &[u8; 32],
) -> Result<bool, AllocError>
    requires file { length file.now ≤ STORED }
    requires made { spec.IsMade marked.now }
    requires found { AreFoundIn marked.now.original layout.now digest.now }
    ensures exact { IfOk result (λ b. b ≡ spec.is_form file.now marked.now flat.now) }
    ensures form { IfOk result (λ b. b ≡ true → IsFormOf file.now marked.now) }
{
    is_form(alloc, file, marked, layout, flat, digest)
}

/// Where a form changes its original, the stamp that stands in the form, and the bytes at the places.
#[derive(Drop)]
struct StandingBytes {
    layout: Layout,
    stamp: u32,
    flat: Vec<u8>,
}

/// What stands in a file of an original.
fn standing_in(
    alloc: Global,
    file: &[u8],
    undo: &Undo,
    original: &[u8],
    object: &Object,
) -> Result<StandingBytes, AllocError>
    requires { spec.IsOwn original.now object.now }
    ensures layout { IfOk result (λ s. IsLayoutOf original.now s.layout) }
    ensures stamp { IfOk result (λ s. s.stamp ≡ spec.stamp_for object.now original.now
        (front_of undo.now file.now)) }
    ensures flat { IfOk result (λ s. s.flat.items ≡ spec.places_in original.now
        (front_of undo.now file.now) file.now) }
{
    let layout = layout_of(alloc, original, object)?;
    let front = Front::of(undo, file);
    let stamp = stamp_for(alloc, object, &layout, &front)?;
    let zeros = zeros_behind(object, file);
    let flat = standing(alloc, layout.spots.as_slice(), &front, zeros)?;
    Ok(StandingBytes {
        layout,
        stamp,
        flat,
    })
}

/// What is read of a file for the object of an original.
#[derive(Drop)]
struct Contents {
    lists: Lists,
    standing: StandingBytes,
}

/// What is read of a file for the object of an original; None where the file's lists are none of a form.
fn contents_in(
    alloc: Global,
    file: &[u8],
    undo: &Undo,
    original: &[u8],
    object: &Object,
) -> Result<Option<Contents>, AllocError>
    requires undo { has_undo_section file.now ≡ true }
    requires own { spec.IsOwn original.now object.now }
    ensures { IfOk result (spec.ContentsIfAny file.now undo.now original.now object.now) }
{
    let Some(lists) = lists_in(alloc, object, file)? else {
        return Ok(None);
    };
    let standing = standing_in(alloc, file, undo, original, object)?;
    Ok(Some(Contents { lists, standing }))
}

/// What is read of a file by which it is told whether it is a form of an original.
#[derive(Drop)]
struct FileParts {
    object: Object,
    contents: Contents,
}

/// What is read of a file for an original; None where the original or the file's lists are none of a form.
#[tactic(auto, unfolding(crate::specs::Reading::marked_by))]
fn parts_in(
    alloc: Global,
    file: &[u8],
    undo: &Undo,
    original: &[u8],
) -> Result<Option<FileParts>, AllocError>
    requires { has_undo_section file.now ≡ true }
    ensures { IfOk result (spec.PartsIfAny file.now undo.now original.now) }
{
    let Some(object) = firm_object(alloc, original)? else {
        return Ok(None);
    };
    match contents_in(alloc, file, undo, original, &object) {
        Ok(Some(contents)) => Ok(Some(FileParts { object, contents })),
        Ok(None) => {
            drop(object);
            Ok(None)
        }
        Err(fault) => {
            drop(object);
            Err(fault)
        }
    }
}

/// All that a file is made of, if it is the form of it with the bytes that stand at the places.
fn if_form(
    alloc: Global,
    file: &[u8],
    marked: Marked,
    standing: &StandingBytes,
    digest: &[u8; 32],
) -> Result<Option<Marked>, AllocError>
    requires file { length file.now ≤ STORED }
    requires made { spec.IsMade marked }
    requires found { AreFoundIn marked.original standing.now.layout digest.now }
    ensures exact { IfOk result (λ o. o ≡ when
        (spec.is_form file.now marked standing.now.flat.items) (Some marked)) }
    ensures form { IfOk result (spec.FormIfAny file.now) }
{
    match makes_file(
        alloc,
        file,
        &marked,
        &standing.layout,
        &standing.flat,
        digest,
    ) {
        Ok(true) => Ok(Some(marked)),
        Ok(false) => {
            drop(marked);
            Ok(None)
        }
        Err(fault) => {
            drop(marked);
            Err(fault)
        }
    }
}

/// What a file is made of, if it is a form of this original, of which this is read.
fn marked_with(
    alloc: Global,
    file: &[u8],
    undo: &Undo,
    original: Rows<u8>,
    parts: FileParts,
) -> Result<Option<Marked>, AllocError>
    requires file { length file.now ≤ STORED }
    requires parts { spec.ArePartsOf file.now undo.now original parts }
    ensures exact { IfOk result (λ o. o ≡ spec.marked_by file.now undo.now original) }
    ensures form { IfOk result (spec.FormIfAny file.now) }
{
    let FileParts { object, contents } = parts;
    let Contents { lists, standing } = contents;
    let digest = digest_of(original.as_slice());
    let marked = candidate(undo, original, object, standing.stamp, lists, &digest);
    if_form(alloc, file, marked, &standing, &digest)
}

/// What a file is made of, if it is a form of this original.
fn marked_by(
    alloc: Global,
    file: &[u8],
    undo: &Undo,
    original: Rows<u8>,
) -> Result<Option<Marked>, AllocError>
    requires file { length file.now ≤ STORED }
    requires undo { has_undo_section file.now ≡ true }
    ensures exact { IfOk result (λ o. o ≡ spec.marked_by file.now undo.now original) }
    ensures form { IfOk result (spec.FormIfAny file.now) }
{
    let Some(parts) = parts_in(alloc, file, undo, original.as_slice())? else {
        return Ok(None);
    };
    marked_with(alloc, file, undo, original, parts)
}

/// What a file is made of, if it is a form.
#[tactic(auto, unfolding(crate::specs::Reading::marked_of))]
pub fn marked_of(alloc: Global, file: &[u8]) -> Result<Option<Marked>, AllocError>
    ensures exact { IfOk result (λ o. o ≡ spec.marked_of file.now) }
    ensures form { IfOk result (spec.FormIfAny file.now) }
{
    if file.len() > STORED {
        return Ok(None);
    }
    let Some(undo) = find_undo(alloc, file)? else {
        return Ok(None);
    };
    let Some(original) = restored(alloc, &undo, file)? else {
        return Ok(None);
    };
    marked_by(alloc, file, &undo, original)
}
