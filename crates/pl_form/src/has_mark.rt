// Marks of a prelinked file.
ghost use Rattle.std.specs.Prelude.{◌≡◌, ◌<◌, ◌^◌, length, IfOk};
ghost use Rattle.std.specs.List.{list_any};
ghost use Rattle.std.specs.Result.{is_ok};
ghost use Rattle.pl_elf.specs.Clauses.{read};
ghost use Rattle.pl_form.specs.Marks as spec;
ghost use Rattle.pl_form.specs.Stored.{LieIn};

use crate::found::{dynamic_in, has_dynamic_table};
use crate::section_names::UNDO_NAME;
use crate::write::old_names;
use pl_base::part;
use pl_dyn::{Tag, is_ended, is_prelink_tag, read_tags};
use pl_elf::{Section, header_fields, read_header, read_sections, read_segments};
use std::alloc::{AllocError, Global};

/// Whether a section has the name of the undo section.
fn is_undo_name(names: &[u8], section: &Section) -> bool
    ensures { result ≡ spec.is_undo_name names.now section.now }
{
    let at = (section.name as usize).min(names.len());
    names[at..].starts_with(&UNDO_NAME)
}

/// Whether acceptance clauses 1 to 8 hold.
fn is_headed(bytes: &[u8]) -> bool
    ensures { result ≡ is_ok (read bytes.now) }
{
    read_header(bytes).is_ok()
}

fn any_undo_name(names: &[u8], sections: &[Section]) -> bool
    ensures { result ≡ list_any (spec.is_undo_name names.now) sections.now }
{
    sections.iter().any(|section| is_undo_name(names, section))
}

#[tactic(auto, unfolding(crate::specs::Marks::has_undo_name))]
fn has_undo_name(alloc: Global, bytes: &[u8]) -> Result<bool, AllocError>
    requires { LieIn bytes.now }
    ensures { IfOk result (λ b. b ≡ spec.has_undo_name bytes.now) }
{
    let sections = read_sections(alloc, bytes, &header_fields(bytes))?;
    Ok(any_undo_name(old_names(bytes), &sections))
}

fn any_prelink(tags: &[Tag]) -> bool
    ensures { result ≡ list_any spec.is_prelink tags.now }
{
    tags.iter().any(|tag| is_prelink_tag(tag.number))
}

/// Whether a dynamic table ends as clause 9 asks, and has a prelink tag.
fn is_prelinked(alloc: Global, table: &[u8]) -> Result<bool, AllocError>
    requires { length table.now < 2 ^ 32 }
    ensures { IfOk result (λ b. b ≡ spec.is_prelinked table.now) }
{
    if !is_ended(table) {
        return Ok(false);
    }
    let tags = read_tags(alloc, table)?;
    Ok(any_prelink(&tags))
}

#[tactic(auto, unfolding(crate::specs::Marks::has_prelink_tag, pl_object::specs::FilePart::loaded))]
fn has_prelink_tag(alloc: Global, bytes: &[u8]) -> Result<bool, AllocError>
    requires few { length bytes.now < 2 ^ 32 }
    requires tables { LieIn bytes.now }
    ensures { IfOk result (λ b. b ≡ spec.has_prelink_tag bytes.now) }
{
    let segments = read_segments(alloc, bytes, &header_fields(bytes))?;
    if !has_dynamic_table(&segments) {
        return Ok(false);
    }
    let dynamic = dynamic_in(&segments);
    is_prelinked(alloc, part(bytes, dynamic.at(), dynamic.size()))
}

/// Whether a file has a mark of a prelinked one: acceptance clauses 1 to 8 hold of it, and it has a section of the undo section's name, or a dynamic table of which clause 9 holds and that has a prelink tag.
#[tactic(auto, using(crate::proofs::MarkLaws::lie_in), unfolding(crate::specs::Marks::has_mark))]
pub fn has_mark(alloc: Global, bytes: &[u8]) -> Result<bool, AllocError>
    requires { length bytes.now < 2 ^ 32 }
    ensures { IfOk result (λ b. b ≡ spec.has_mark bytes.now) }
{
    if !is_headed(bytes) {
        return Ok(false);
    }
    if has_undo_name(alloc, bytes)? {
        return Ok(true);
    }
    has_prelink_tag(alloc, bytes)
}
