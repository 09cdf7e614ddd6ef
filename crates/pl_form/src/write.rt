// A form by its plan.
ghost use Rattle.std.specs.Prelude.{◌≡◌, ◌+◌, ◌++◌, ◌<◌, ◌≤◌, ◌^◌, ◌∷◌, [], length, IfOk, OnOk};
ghost use Rattle.pl_elf.specs.Headers as headers;
ghost use Rattle.pl_elf.specs.Clauses.{names};
ghost use Rattle.pl_form.specs.Back.{inserted};
ghost use Rattle.pl_form.specs.Extending.{HasNames};
ghost use Rattle.pl_form.specs.Fits.{Fits};
ghost use Rattle.pl_form.specs.Forms.{undo_part};
ghost use Rattle.pl_form.specs.Parts as parts;
ghost use Rattle.pl_form.specs.Ends as ends;
ghost use Rattle.pl_form.specs.Originals.{LiesIn, original};
ghost use Rattle.pl_base.specs.Bytes.{put};
ghost use Rattle.pl_elf.specs.Written.{header_bytes};

use crate::bytes::{plain, push_part, put_bytes, section_table, segment_table, up};
use crate::places::put_visible;
use crate::section_names::{NAMES_NAME, UNDO_NAME};
use crate::undo_part::undo_part;
use crate::{FormPlan, Layout};
use pl_base::Rows;
use pl_elf::constants::{HEADER_SIZE, SECTION_SIZE, SHT_PROGBITS, SHT_STRTAB};
use pl_elf::{Header, Section, header_fields, read_section, section_data, write_header};
use pl_io::NoMemory;
use pl_move::move_tables;
use pl_undo::DIGEST_SIZE;
use std::alloc::{AllocError, Global};

/// How many bytes there may be of a form, so that room is made for them at once. Nothing but memory and time depends on it.
fn room_for(bytes: &[u8], plan: &FormPlan, undo: &[u8]) -> usize {
    // The names of sections, and the 0 bytes between parts.
    let mut room: usize = 1024;
    room = room.saturating_add(bytes.len());
    room = room.saturating_add(plan.more.len());
    room = room.saturating_add(undo.len());
    room = room.saturating_add(plan.names.len());
    room = room.saturating_add(SECTION_SIZE.saturating_mul(plan.sections.len()));
    for part in plan.parts.as_slice() {
        room = room.saturating_add(part.len());
    }
    room
}

/// A copy of bytes with room for so many.
fn copy_with(alloc: Global, bytes: &[u8], room: usize) -> Result<Vec<u8>, AllocError>
    ensures { IfOk result (λ v. v.items ≡ bytes.now) }
{
    let mut copy = Vec::with_capacity(alloc, room)?;
    copy.extend_from_slice(bytes)?;
    Ok(copy)
}

/// The original's bytes moved, with bytes at the places, and the new dynamic table and program headers.
#[tactic(auto, unfolding(crate::specs::Parts::moved_part))]
fn under_header(
    alloc: Global,
    bytes: &[u8],
    layout: &Layout,
    plan: &FormPlan,
    flat: &[u8],
    room: usize,
) -> Result<Vec<u8>, AllocError>
    requires { LiesIn bytes.now layout.now plan.now flat.now }
    ensures under { IfOk result (λ v. v.items ≡ parts.under_header plan.now
        (original bytes.now layout.now) flat.now) }
    ensures size { IfOk result (λ v. length v.items ≡ length bytes.now) }
{
    let phoff = header_fields(bytes).phoff;
    let segments = segment_table(alloc, plan.segments.as_slice())?;
    let mut front = copy_with(alloc, bytes, room)?;
    move_tables(&mut front, layout.tables.as_slice(), plan.slot);
    put_visible(&mut front, layout.spots.as_slice(), flat);
    put_bytes(
        &mut front,
        layout.dynamic.at() as usize,
        plan.dynamic.as_slice(),
    );
    put_bytes(&mut front, phoff as usize, &segments);
    Ok(front)
}

/// Bytes with others inserted at an offset. What follows is copied aside and added again, which is little but for a file with much behind its last PT_LOAD.
fn with_more(alloc: Global, cut: usize, more: &[u8], bytes: Vec<u8>) -> Result<Vec<u8>, AllocError>
    requires { cut ≤ length bytes.items }
    ensures { IfOk result (λ v. v.items ≡ inserted cut more.now bytes.items) }
{
    let rest = Vec::from_slice(alloc, &bytes[cut..])?;
    let mut file = bytes;
    file.truncate(cut);
    file.extend_from_slice(more)?;
    file.extend_from_slice(&rest)?;
    Ok(file)
}

/// Bytes with others inserted at an offset. Where nothing is inserted, no byte is copied.
fn with_inserted(
    alloc: Global,
    cut: usize,
    more: &[u8],
    bytes: Vec<u8>,
) -> Result<Vec<u8>, AllocError>
    requires { cut ≤ length bytes.items }
    ensures { IfOk result (λ v. v.items ≡ inserted cut more.now bytes.items) }
{
    if more.is_empty() {
        return Ok(bytes);
    }
    with_more(alloc, cut, more, bytes)
}

/// Adds each part at the next multiple of 8.
fn push_parts(file: &mut Vec<u8>, next: &[Rows<u8>]) -> Result<(), AllocError>
    ensures { OnOk result (file.new.items ≡ parts.joined file.old.items next.now) }
{
    for part in next {
        push_part(file, part.as_slice())?;
    }
    Ok(())
}

/// The bytes of the section of section names.
pub fn old_names<'a>(bytes: &'a [u8]) -> &'a [u8]
    requires { HasNames bytes.now }
    ensures { result.now ≡ names bytes.now (headers.header bytes.now) }
{
    let header = header_fields(bytes);
    section_data(bytes, &read_section(bytes, &header, header.shstrndx))
}

/// The names of the sections of a form: the original's, then the new ones.
fn names_part(alloc: Global, old: &[u8], plan: &FormPlan) -> Result<Vec<u8>, AllocError>
    ensures { IfOk result (λ v. v.items ≡ old.now
        ++ (plan.now.names ++ (UNDO_NAME ++ NAMES_NAME))) }
{
    let mut names = Vec::from_slice(alloc, old)?;
    names.extend_from_slice(plan.names.as_slice())?;
    names.extend_from_slice(&UNDO_NAME)?;
    names.extend_from_slice(&NAMES_NAME)?;
    Ok(names)
}

/// The original's bytes with all that changes in them but the header, with the inserted bytes, and the parts of a form that stand before its undo section.
fn body(
    alloc: Global,
    bytes: &[u8],
    layout: &Layout,
    plan: &FormPlan,
    flat: &[u8],
    room: usize,
) -> Result<Vec<u8>, AllocError>
    requires { LiesIn bytes.now layout.now plan.now flat.now }
    ensures { IfOk result (λ v. v.items ≡ parts.joined
        (inserted plan.now.cut plan.now.more (parts.under_header plan.now
        (original bytes.now layout.now) flat.now)) plan.now.parts) }
{
    let front = under_header(alloc, bytes, layout, plan, flat, room)?;
    let mut file = with_inserted(alloc, plan.cut, plan.more.as_slice(), front)?;
    push_parts(&mut file, plan.parts.as_slice())?;
    Ok(file)
}

/// The section header table of a form: that of the plan, then the sections of the undo section and of the names, of so many bytes each, behind a file of so many bytes and other names of so many.
fn ended_rows(
    alloc: Global,
    plan: &FormPlan,
    file: usize,
    old: usize,
    undo: usize,
    names: usize,
) -> Result<Vec<Section>, AllocError>
    requires end { ends.names_from file undo + names < 2 ^ 32 }
    requires name { old + length plan.now.names + 18 < 2 ^ 32 }
    ensures { IfOk result (λ v. v.items ≡ ends.rows_behind plan.now file old undo names) }
{
    let mut rows = Vec::from_slice(alloc, plan.sections.as_slice())?;
    let name = old + plan.names.len();
    let at = up(file);
    let new = [
        plain(name, SHT_PROGBITS, at, undo),
        plain(name + UNDO_NAME.len(), SHT_STRTAB, up(at + undo), names),
    ];
    rows.extend_from_slice(&new)?;
    Ok(rows)
}

/// Adds the undo section and the names, and answers the section header table that follows them.
fn push_ends(
    alloc: Global,
    file: &mut Vec<u8>,
    old: &[u8],
    plan: &FormPlan,
    undo: &[u8],
) -> Result<Vec<Section>, AllocError>
    requires { ends.names_end (length file.old.items) old.now plan.now (length undo.now) < 2 ^ 32 }
    ensures file { OnOk result (file.new.items
        ≡ parts.joined file.old.items (undo.now ∷ parts.all_names old.now plan.now ∷ [])) }
    ensures rows { IfOk result (λ v. v.items ≡ ends.ended_rows (length file.old.items) old.now
        plan.now (length undo.now)) }
{
    let names = names_part(alloc, old, plan)?;
    let before = file.len();
    push_part(file, undo)?;
    push_part(file, &names)?;
    let rows = ended_rows(alloc, plan, before, old.len(), undo.len(), names.len())?;
    Ok(rows)
}

/// The header of a form whose section header table of so many rows stands at an offset.
fn new_header(old: &Header, plan: &FormPlan, table: usize) -> Header
    requires { length plan.now.sections + 2 < 2 ^ 16 }
    ensures { result ≡ ends.header_with old.now plan.now table }
{
    let entry = if old.entry == 0 {
        0
    } else {
        old.entry.wrapping_add(plan.slot)
    };
    let rows = plan.sections.len() as u16;
    Header {
        entry,
        shoff: table as u64,
        shnum: rows + 2,
        shstrndx: rows + 1,
        ..*old
    }
}

/// Puts a header at the start of a file.
fn put_header(file: &mut Vec<u8>, header: &Header)
    requires { 64 ≤ length file.old.items }
    ensures { file.new.items ≡ put 0 (header_bytes header.now) file.old.items }
{
    let mut row = [0; HEADER_SIZE];
    write_header(header, &mut row);
    put_bytes(file, 0, &row);
}

/// The form of an original by a plan, with the bytes for all places and those of the undo section.
fn write_form(
    alloc: Global,
    bytes: &[u8],
    layout: &Layout,
    plan: &FormPlan,
    flat: &[u8],
    undo: &[u8],
) -> Result<Vec<u8>, AllocError>
    requires fits { Fits plan.now (original bytes.now layout.now) flat.now (length undo.now) }
    requires names { HasNames bytes.now }
    ensures { IfOk result (λ v. v.items ≡ parts.form plan.now (original bytes.now layout.now)
        flat.now undo.now) }
{
    let room = room_for(bytes, plan, undo);
    let mut file = body(alloc, bytes, layout, plan, flat, room)?;
    let names = old_names(bytes);
    let rows = push_ends(alloc, &mut file, names, plan, undo)?;
    let at = up(file.len());
    let old = header_fields(bytes);
    let header = new_header(&old, plan, at);
    let table = section_table(alloc, &rows)?;
    push_part(&mut file, &table)?;
    put_header(&mut file, &header);
    Ok(file)
}

/// The form of an original by a plan, with the bytes for all places and its undo section: version 2 where there is a digest, else version 1.
pub fn write_planned(
    alloc: Global,
    bytes: &[u8],
    layout: &Layout,
    plan: &FormPlan,
    flat: &[u8],
    digest: Option<[u8; DIGEST_SIZE]>,
) -> Result<Vec<u8>, NoMemory>
    requires fits { Fits plan.now (original bytes.now layout.now) flat.now
        (length (undo_part plan.now (original bytes.now layout.now) digest)) }
    requires names { HasNames bytes.now }
    ensures { IfOk result (λ v. v.items ≡ parts.form plan.now (original bytes.now layout.now)
        flat.now (undo_part plan.now (original bytes.now layout.now) digest)) }
{
    let undo = undo_part(alloc, bytes, layout, plan, digest)?;
    let form = write_form(alloc, bytes, layout, plan, flat, &undo)?;
    Ok(form)
}
