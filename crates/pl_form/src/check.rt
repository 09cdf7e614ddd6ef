// What is in the way of a form.
ghost use Rattle.std.specs.Prelude.{◌≡◌, ◌*◌, ◌<◌};
ghost use Rattle.std.specs.List.{list_any};
ghost use Rattle.pl_form.specs.Faults as spec;

use crate::FormFault;
use crate::constants::{MAX_ZEROS, REGION_GAP};
use pl_base::end;
use pl_elf::constants::{SECTION_SIZE, SEGMENT_SIZE, SHT_NOBITS};
use pl_elf::{Header, Range, Section, Segment};
use pl_object::{Object, Window, last_load};

/// Whether bytes lie before an offset and at or after it.
fn is_torn(cut: u128, at: u64, size: u64) -> bool
    ensures { result ≡ spec.is_torn cut at size }
{
    u128::from(at) < cut && cut < end(at, size)
}

fn is_torn_section(cut: u128, section: &Section) -> bool
    ensures { result ≡ spec.is_torn_section cut section.now }
{
    section.kind != SHT_NOBITS && is_torn(cut, section.offset, section.size)
}

fn any_torn_segment(cut: u128, segments: &[Segment]) -> bool
    ensures { result ≡ list_any (λ s. spec.is_torn cut s.offset s.filesz) segments.now }
{
    segments
        .iter()
        .any(|segment| is_torn(cut, segment.offset, segment.filesz))
}

fn any_torn_section(cut: u128, sections: &[Section]) -> bool
    ensures { result ≡ list_any (spec.is_torn_section cut) sections.now }
{
    sections.iter().any(|section| is_torn_section(cut, section))
}

fn is_torn_table(cut: u128, header: &Header) -> bool
    ensures { result ≡ spec.is_torn cut header.now.shoff (64 * header.now.shnum) }
{
    is_torn(
        cut,
        header.shoff,
        SECTION_SIZE as u64 * u64::from(header.shnum),
    )
}

#[tactic(auto, unfolding(crate::specs::Faults::stray_header))]
fn stray_header(object: &Object, cut: u128) -> bool
    ensures { result ≡ spec.stray_header object.now cut }
{
    let header = &object.header;
    let size = SEGMENT_SIZE as u64 * u64::from(header.phnum);
    cut < end(header.phoff, size)
        || any_torn_segment(cut, object.segments.as_slice())
        || any_torn_section(cut, object.sections.as_slice())
        || is_torn_table(cut, header)
}

fn region_window(region: Range) -> Window
    ensures { result ≡ spec.region_window region }
{
    Window::new(
        u128::from(region.start),
        region.end.saturating_sub(region.start),
    )
}

fn is_loaded_in(segment: &Segment, region: &Window) -> bool
    ensures { result ≡ spec.is_loaded_in region.now segment.now }
{
    segment.is_load() && Window::new(u128::from(segment.vaddr), segment.memsz).shares(region)
}

fn any_loaded_in(segments: &[Segment], region: &Window) -> bool
    ensures { result ≡ list_any (spec.is_loaded_in region.now) segments.now }
{
    segments.iter().any(|segment| is_loaded_in(segment, region))
}

#[tactic(auto, unfolding(crate::specs::Faults::in_region))]
fn in_region(segments: &[Segment], last: &Segment, region: Range) -> bool
    ensures { result ≡ spec.in_region segments.now last.now region }
{
    let window = region_window(region);
    any_loaded_in(segments, &window)
        || Window::new(end(last.vaddr, last.memsz), REGION_GAP).shares(&window)
}

fn any_later(segments: &[Segment], last: &Segment) -> bool
    ensures { result ≡ list_any (spec.is_later last.now) segments.now }
{
    segments.iter().any(|segment| {
        segment.is_load() && segment.filesz > 0 && last.offset < segment.offset
    })
}

#[tactic(auto, unfolding(crate::specs::Faults::program_fault))]
fn check_program(object: &Object, last: Option<Segment>, region: Range) -> Result<(), FormFault>
    ensures { result ≡ spec.program_fault object.now last region }
{
    let Some(last) = last else {
        return Ok(());
    };
    if last.memsz.saturating_sub(last.filesz) > MAX_ZEROS {
        return Err(FormFault::BssTooLarge);
    }
    if stray_header(object, end(last.offset, last.filesz)) {
        return Err(FormFault::StrayHeader);
    }
    if in_region(object.segments.as_slice(), &last, region) {
        return Err(FormFault::InRegion);
    }
    if any_later(object.segments.as_slice(), &last) {
        return Err(FormFault::LastLoadNotLast);
    }
    Ok(())
}

/// Whether an accepted library or program has a form under a region of slots: the first of the faults NoSpareTags, BssTooLarge, StrayHeader, InRegion and LastLoadNotLast that holds, in this order, or Ok. A library has the first alone. The others do not come here.
#[tactic(auto, unfolding(crate::specs::Faults::form_fault))]
pub fn check_form(object: &Object, region: Range) -> Result<(), FormFault>
    ensures { result ≡ spec.form_fault object.now region }
{
    let wanted = if object.kind.is_library() { 2 } else { 4 };
    if object.spare < wanted {
        return Err(FormFault::NoSpareTags);
    }
    if object.kind.is_library() {
        return Ok(());
    }
    check_program(object, last_load(object.segments.as_slice()), region)
}
