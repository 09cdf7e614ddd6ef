ghost use Rattle.std.specs.Prelude.{◌≡◌, ◌≤◌, length, IfOk, OnOk};
ghost use Rattle.pl_elf.specs.Headers.{HasSections, HasSegments, loads, segments};
ghost use Rattle.pl_elf.specs.Clauses as spec;

use crate::clauses::{not_elf, other_class, other_kind, truncated};
use crate::constants::{EM_X86_64, HEADER_SIZE};
use crate::section_table::bad_section;
use crate::segments::bad_segment;
use crate::{Header, HeaderFault, header_fields};

/// The header of a file that acceptance clauses 1 to 8 accept, or the first of them that refuses it (gABI chapter 4, "ELF Header" and "Sections", and chapter 5, "Program Header"; `HeaderFault` says what each refuses).
///
/// The header and both tables then lie in the file. It takes no memory: where there are more than 256 program headers, the PT_LOADs are sorted in a table of 1 MiB on the stack.
#[tactic(auto, unfolding(crate::specs::Clauses::read))]
pub fn read_header(bytes: &[u8]) -> Result<Header, HeaderFault>
    ensures exact { result ≡ spec.read bytes.now }
    ensures long { OnOk result (HEADER_SIZE ≤ length bytes.now) }
    ensures segments { IfOk result (HasSegments bytes.now) }
    ensures sections { IfOk result (HasSections bytes.now) }
    ensures loads { IfOk result (λ h. spec.AreLoads (loads (segments bytes.now h))) }
{
    if not_elf(bytes) {
        return Err(HeaderFault::NotElf);
    }
    if other_class(bytes) {
        return Err(HeaderFault::Class);
    }
    let header = header_fields(bytes);
    if header.machine != EM_X86_64 {
        return Err(HeaderFault::Machine);
    }
    if other_kind(bytes, &header) {
        return Err(HeaderFault::Kind);
    }
    if truncated(bytes, &header) {
        return Err(HeaderFault::Truncated);
    }
    if bad_segment(bytes, &header) {
        return Err(HeaderFault::BadSegment);
    }
    if bad_section(bytes, &header) {
        return Err(HeaderFault::BadSection);
    }
    if header.shnum == 0 {
        return Err(HeaderFault::NoSections);
    }
    Ok(header)
}
