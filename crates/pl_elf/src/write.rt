// Headers as bytes. A table of more than eight fields is written in two functions, since the check sees the ranges of eight numbers behind a reference.
ghost use Rattle.std.specs.Prelude.{◌≡◌, ◌<◌, ◌^◌, length};
ghost use Rattle.pl_base.specs.Bytes.{bytes16, bytes32, bytes64, put};
ghost use Rattle.pl_elf.specs.Headers as fields;
ghost use Rattle.pl_elf.specs.Written as spec;

use crate::constants::{EI_NIDENT, HEADER_SIZE, SECTION_SIZE, SEGMENT_SIZE};
use crate::{Header, Section, Segment};
use pl_base::{put16, put32, put64};

/// Writes the ELF header. `header_fields` reads it back.
#[tactic(auto, using(crate::proofs::WrittenLaws::header_written, crate::proofs::WrittenLaws::header_read))]
pub fn write_header(header: &Header, into: &mut [u8])
    requires { length into.old ≡ HEADER_SIZE }
    ensures bytes { into.new ≡ spec.header_bytes header.now }
    ensures back { fields.header into.new ≡ header.now }
{
    write_ident(&header.ident, into);
    put16(into, 16, header.kind);
    put16(into, 18, header.machine);
    put32(into, 20, header.version);
    put64(into, 24, header.entry);
    put64(into, 32, header.phoff);
    put64(into, 40, header.shoff);
    write_header_end(header, into);
}

#[tactic(auto, unfolding(pl_base::specs::Bytes::put))]
fn write_ident(ident: &[u8; EI_NIDENT], into: &mut [u8])
    requires { length into.old ≡ HEADER_SIZE }
    ensures bytes { into.new ≡ put 0 ident.now into.old }
    ensures size { length ident.now ≡ EI_NIDENT }
{
    into[..EI_NIDENT].copy_from_slice(ident);
}

fn write_header_end(header: &Header, into: &mut [u8])
    requires { length into.old ≡ HEADER_SIZE }
    ensures bytes { let h = header.now in into.new
        ≡ put 62 (bytes16 h.shstrndx) (put 60 (bytes16 h.shnum)
        (put 58 (bytes16 h.shentsize) (put 56 (bytes16 h.phnum)
        (put 54 (bytes16 h.phentsize) (put 52 (bytes16 h.ehsize)
        (put 48 (bytes32 h.flags) into.old)))))) }
    ensures flags { header.now.flags < 2 ^ 32 }
    ensures ehsize { header.now.ehsize < 2 ^ 16 }
    ensures phentsize { header.now.phentsize < 2 ^ 16 }
    ensures phnum { header.now.phnum < 2 ^ 16 }
    ensures shentsize { header.now.shentsize < 2 ^ 16 }
    ensures shnum { header.now.shnum < 2 ^ 16 }
    ensures shstrndx { header.now.shstrndx < 2 ^ 16 }
{
    put32(into, 48, header.flags);
    put16(into, 52, header.ehsize);
    put16(into, 54, header.phentsize);
    put16(into, 56, header.phnum);
    put16(into, 58, header.shentsize);
    put16(into, 60, header.shnum);
    put16(into, 62, header.shstrndx);
}

/// Writes a program header. `read_segment` reads it back.
#[tactic(auto, using(crate::proofs::WrittenLaws::segment_written, crate::proofs::WrittenLaws::segment_read))]
pub fn write_segment(segment: &Segment, into: &mut [u8])
    requires { length into.old ≡ SEGMENT_SIZE }
    ensures bytes { into.new ≡ spec.segment_bytes segment.now }
    ensures back { fields.segment_at into.new 0 ≡ segment.now }
{
    put32(into, 0, segment.kind);
    put32(into, 4, segment.flags);
    put64(into, 8, segment.offset);
    put64(into, 16, segment.vaddr);
    put64(into, 24, segment.paddr);
    put64(into, 32, segment.filesz);
    put64(into, 40, segment.memsz);
    put64(into, 48, segment.align);
}

/// Writes a section header. `read_section` reads it back.
#[tactic(auto, using(crate::proofs::WrittenLaws::section_written, crate::proofs::WrittenLaws::section_read))]
pub fn write_section(section: &Section, into: &mut [u8])
    requires { length into.old ≡ SECTION_SIZE }
    ensures bytes { into.new ≡ spec.section_header_bytes section.now }
    ensures back { fields.section_at into.new 0 ≡ section.now }
{
    put32(into, 0, section.name);
    put32(into, 4, section.kind);
    put64(into, 8, section.flags);
    put64(into, 16, section.addr);
    put64(into, 24, section.offset);
    put64(into, 32, section.size);
    write_section_end(section, into);
}

fn write_section_end(section: &Section, into: &mut [u8])
    requires { length into.old ≡ SECTION_SIZE }
    ensures bytes { let s = section.now in into.new
        ≡ put 56 (bytes64 s.entsize) (put 48 (bytes64 s.addralign)
        (put 44 (bytes32 s.info) (put 40 (bytes32 s.link) into.old))) }
    ensures link { section.now.link < 2 ^ 32 }
    ensures info { section.now.info < 2 ^ 32 }
    ensures addralign { section.now.addralign < 2 ^ 64 }
    ensures entsize { section.now.entsize < 2 ^ 64 }
{
    put32(into, 40, section.link);
    put32(into, 44, section.info);
    put64(into, 48, section.addralign);
    put64(into, 56, section.entsize);
}
