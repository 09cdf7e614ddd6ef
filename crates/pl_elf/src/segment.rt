ghost use Rattle.std.specs.Prelude.{◌≡◌, ◌+◌, ◌<◌, ◌≤◌, length, IfOk};
ghost use Rattle.pl_elf.specs.Headers as spec;

use crate::Header;
use crate::constants::{PT_DYNAMIC, PT_LOAD, SEGMENT_SIZE};
use pl_base::{word32, word64};
use std::alloc::{AllocError, Global};

/// A segment as a program header describes it (gABI chapter 5, "Program Header").
#[derive(Clone, Copy, Debug, PartialEq, Eq)]
pub struct Segment {
    /// The kind, one of the `PT_` numbers.
    pub kind: u32,

    /// Permissions: 1 to execute, 2 to write, 4 to read, or a sum of these.
    pub flags: u32,

    /// File offset of its bytes.
    pub offset: u64,

    /// The address at which it begins in memory.
    pub vaddr: u64,

    /// Its physical address, which System V ignores for application programs.
    pub paddr: u64,

    /// Bytes in the file.
    pub filesz: u64,

    /// Bytes in memory. Those past the file's are 0.
    pub memsz: u64,

    /// Alignment in bytes: 0 or 1 for none, else a power of two. The address and the file offset are congruent modulo it.
    pub align: u64,
}

impl Segment {
    /// Whether it is a PT_LOAD.
    pub fn is_load(&self) -> bool
        ensures { result ≡ spec.is_load self.now }
    {
        self.kind == PT_LOAD
    }

    /// Whether it is the PT_DYNAMIC.
    pub fn is_dynamic(&self) -> bool
        ensures { result ≡ spec.is_dynamic self.now }
    {
        self.kind == PT_DYNAMIC
    }
}

#[tactic(auto, unfolding(crate::specs::Headers::segment_at))]
fn segment_at(bytes: &[u8], at: usize) -> Segment
    requires { at + SEGMENT_SIZE ≤ length bytes.now }
    ensures { result ≡ spec.segment_at bytes.now at }
{
    Segment {
        kind: word32(bytes, at),
        flags: word32(bytes, at + 4),
        offset: word64(bytes, at + 8),
        vaddr: word64(bytes, at + 16),
        paddr: word64(bytes, at + 24),
        filesz: word64(bytes, at + 32),
        memsz: word64(bytes, at + 40),
        align: word64(bytes, at + 48),
    }
}

/// The segment at an index of the program header table (gABI chapter 5, "Program Header"). Its program header, 56 bytes, has to lie in the file.
pub fn read_segment(bytes: &[u8], header: &Header, index: u16) -> Segment
    requires { spec.segment_offset header.now index + SEGMENT_SIZE ≤ length bytes.now }
    ensures { result ≡ spec.segment bytes.now header.now index }
{
    segment_at(
        bytes,
        header.phoff as usize + SEGMENT_SIZE * usize::from(index),
    )
}

/// All segments, in the order of the program header table (gABI chapter 5, "Program Header"). The table has to lie in the file, as it does after `read_header`. It fails only for want of memory.
#[tactic(auto, unfolding(crate::specs::Headers::segments))]
pub fn read_segments(
    alloc: Global,
    bytes: &[u8],
    header: &Header,
) -> Result<Vec<Segment>, AllocError>
    requires { spec.HasSegments bytes.now header.now }
    ensures { IfOk result (λ v. v.items ≡ spec.segments bytes.now header.now) }
{
    (0..header.phnum)
        .map(|index| read_segment(bytes, header, index))
        .collect(alloc)
}
