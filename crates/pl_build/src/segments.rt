// The program header table.
ghost use Rattle.std.specs.Prelude.{◌≡◌, ◌<◌, ◌+◌, ◌^◌, IfOk};
ghost use Rattle.pl_elf.specs.Written.{segment_bytes};
ghost use Rattle.pl_build.specs.Segments as spec;

use crate::choices::push_chosen;
use crate::constants::{INTERP_OFFSET, STACK_ALIGN, TABLE_ALIGN};
use crate::dynamic::is_there;
use crate::fields::{Field, Row, push_fields};
use crate::layout_plan::{base_of, data_address, has_interp};
use crate::line::TlsBlock;
use crate::recipe::Settings;
use crate::roles::PlacedSection;
use pl_base::round_up;
use pl_elf::Segment;
use pl_elf::constants::{
    HEADER_SIZE, PAGE, PF_R, PF_W, PT_DYNAMIC, PT_GNU_STACK, PT_INTERP, PT_LOAD, PT_PHDR, PT_TLS,
    SEGMENT_SIZE,
};
use std::alloc::{AllocError, Global};

impl Row for Segment {
    ghost bytes = { segment_bytes };

    #[tactic(auto, unfolding(pl_elf::specs::Written::segment_bytes, pl_base::specs::Bytes::bytes32, pl_base::specs::Bytes::bytes64, crate::specs::Fields::fields))]
    fn push_to(&self, out: &mut Vec<u8>) -> Result<(), AllocError> {
        push_fields(
            out,
            &[
                Field::Word(u64::from(self.kind)),
                Field::Word(u64::from(self.flags)),
                Field::Xword(self.offset),
                Field::Xword(self.vaddr),
                Field::Xword(self.paddr),
                Field::Xword(self.filesz),
                Field::Xword(self.memsz),
                Field::Xword(self.align),
            ],
        )
    }
}

/// The path of the interpreter, ended by a 0 byte.
pub fn interp_bytes() -> &'static [u8]
    ensures { result.now ≡ spec.interp_bytes }
{
    b"/lib64/ld-linux-x86-64.so.2\0"
}

#[tactic(auto, unfolding(crate::specs::Segments::readable))]
fn readable(kind: u32, offset: u64, address: u64, size: u64, align: u64) -> Segment
    ensures { result ≡ spec.readable kind offset address size align }
{
    Segment {
        kind,
        flags: PF_R,
        offset,
        vaddr: address,
        paddr: address,
        filesz: size,
        memsz: size,
        align,
    }
}

/// The file offset of the data, where the tables end at an offset.
#[tactic(auto, unfolding(pl_base::specs::Sums::round_up))]
pub fn data_offset(tables_end: u64) -> u64
    requires { tables_end < 2 ^ 32 }
    ensures value { result ≡ spec.data_offset tables_end }
    ensures small { result < 2 ^ 33 }
{
    round_up(tables_end, PAGE)
}

#[tactic(auto, unfolding(crate::specs::Segments::first_load))]
fn first_load(settings: &Settings, tables_end: u64) -> Segment
    ensures { result ≡ spec.first_load settings.now tables_end }
{
    readable(PT_LOAD, 0, base_of(settings), tables_end, PAGE)
}

#[tactic(auto, unfolding(crate::specs::Segments::second_load))]
fn second_load(settings: &Settings, tables_end: u64) -> Segment
    requires { tables_end < 2 ^ 32 }
    ensures { result ≡ spec.second_load settings.now tables_end }
{
    let address = data_address(settings);
    Segment {
        kind: PT_LOAD,
        flags: PF_R + PF_W,
        offset: data_offset(tables_end),
        vaddr: address,
        paddr: address,
        filesz: settings.data_size,
        memsz: settings.data_size.wrapping_add(settings.bss),
        align: PAGE,
    }
}

fn no_tls() -> TlsBlock
    ensures { result ≡ spec.no_tls }
{
    TlsBlock {
        offset: 0,
        filesz: 0,
        memsz: 0,
        align: 0,
    }
}

#[tactic(auto, unfolding(crate::specs::Segments::tls_segment))]
fn tls_segment(settings: &Settings, tables_end: u64) -> Segment
    requires { tables_end < 2 ^ 32 }
    ensures { result ≡ spec.tls_segment settings.now tables_end }
{
    let tls = settings.tls.unwrap_or(no_tls());
    let address = data_address(settings).wrapping_add(tls.offset);
    Segment {
        kind: PT_TLS,
        flags: PF_R,
        offset: data_offset(tables_end).wrapping_add(tls.offset),
        vaddr: address,
        paddr: address,
        filesz: tls.filesz,
        memsz: tls.memsz,
        align: tls.align,
    }
}

fn stack_segment() -> Segment
    ensures { result ≡ spec.stack_segment }
{
    Segment {
        kind: PT_GNU_STACK,
        flags: PF_R + PF_W,
        offset: 0,
        vaddr: 0,
        paddr: 0,
        filesz: 0,
        memsz: 0,
        align: STACK_ALIGN,
    }
}

#[tactic(auto, unfolding(crate::specs::Segments::table_segment))]
fn table_segment(settings: &Settings, count: u64) -> Segment
    requires { count < 2 ^ 32 }
    ensures { result ≡ spec.table_segment settings.now count }
{
    let offset = HEADER_SIZE as u64;
    let size = SEGMENT_SIZE as u64 * count;
    readable(
        PT_PHDR,
        offset,
        base_of(settings) + offset,
        size,
        TABLE_ALIGN,
    )
}

#[tactic(auto, unfolding(crate::specs::Segments::interp_segment))]
fn interp_segment(settings: &Settings) -> Segment
    ensures { result ≡ spec.interp_segment settings.now }
{
    let address = base_of(settings) + INTERP_OFFSET;
    let size = interp_bytes().len() as u64;
    readable(PT_INTERP, INTERP_OFFSET, address, size, 1)
}

#[tactic(auto, unfolding(crate::specs::Segments::dynamic_segment))]
fn dynamic_segment(place: &PlacedSection) -> Segment
    ensures { result ≡ spec.dynamic_segment place.now }
{
    readable(
        PT_DYNAMIC,
        place.offset,
        place.addr,
        place.size,
        TABLE_ALIGN,
    )
}

#[tactic(auto, unfolding(crate::specs::Segments::has_data))]
fn has_data(settings: &Settings) -> bool
    ensures { result ≡ spec.has_data settings.now }
{
    settings.data_size > 0 || settings.bss > 0
}

#[tactic(auto, unfolding(crate::specs::Segments::with_count))]
fn with_count(
    alloc: Global,
    settings: &Settings,
    tables_end: u64,
    dynamic: &PlacedSection,
    count: u64,
) -> Result<Vec<Segment>, AllocError>
    requires tables { tables_end < 2 ^ 32 }
    requires small { count < 2 ^ 32 }
    ensures { IfOk result (λ v. v.items ≡ spec.with_count settings.now tables_end dynamic.now
        count) }
{
    let mut rows = Vec::new(alloc);
    push_chosen(
        &mut rows,
        &[
            (has_interp(settings), table_segment(settings, count)),
            (has_interp(settings), interp_segment(settings)),
            (true, first_load(settings, tables_end)),
            (has_data(settings), second_load(settings, tables_end)),
            (is_there(dynamic), dynamic_segment(dynamic)),
            (settings.tls.is_some(), tls_segment(settings, tables_end)),
            (settings.usual, stack_segment()),
        ],
    )?;
    Ok(rows)
}

/// The segments, where the tables end at an offset of the file.
#[tactic(auto, using(crate::proofs::SegmentLaws::few_segments), unfolding(crate::specs::Segments::segments))]
pub fn segments(
    alloc: Global,
    settings: &Settings,
    tables_end: u64,
    dynamic: &PlacedSection,
) -> Result<Vec<Segment>, AllocError>
    requires { tables_end < 2 ^ 32 }
    ensures { IfOk result (λ v. v.items ≡ spec.segments settings.now tables_end dynamic.now) }
{
    let counted = with_count(alloc, settings, tables_end, dynamic, 0)?;
    with_count(alloc, settings, tables_end, dynamic, counted.len() as u64)
}
