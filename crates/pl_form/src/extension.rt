// What a program's form has behind the file bytes of its last PT_LOAD.
ghost use Rattle.std.specs.Prelude.{◌≡◌, ◌+◌, ◌-◌, ◌≤◌, drop, length, take, IfOk};
ghost use Rattle.pl_base.specs.Bytes.{put};
ghost use Rattle.pl_base.specs.Windows.{AllIn, put_all};
ghost use Rattle.pl_form.specs.Loads.{hidden_windows};
ghost use Rattle.pl_form.specs.Parts as parts;
ghost use Rattle.pl_form.specs.Extending.{IsShort, AreShort, LieInZeros};

use crate::bytes::{push_part, put_bytes, split, up};
use crate::places::push_zeros;
use crate::{Extension, Spot};
use pl_base::round_up;
use pl_elf::Segment;
use std::alloc::{AllocError, Global};

/// By how many bytes the extension is aligned.
const EXTENSION_ALIGN: u64 = 16;

/// No fewer zeros than align the lists, and what follows the extension.
const MOST_ALIGNING: usize = 64;

/// Puts those of the first bytes, which are for a place, that lie in the zeros of the last PT_LOAD, and answers those for the places behind it.
fn put_behind<'a>(zeros: &mut [u8], spot: &Spot, flat: &'a [u8]) -> &'a [u8]
    requires { spot.now.behind + spot.now.hidden ≤ length zeros.old }
    ensures zeros { zeros.new ≡ put spot.now.behind
        (take spot.now.hidden (drop spot.now.size flat.now)) zeros.old }
    ensures rest { result.now ≡ drop spot.now.hidden (drop spot.now.size flat.now) }
{
    let (hidden, rest) = split(split(flat, spot.size).1, spot.hidden);
    put_bytes(zeros, spot.behind as usize, hidden);
    rest
}

/// Puts those of the bytes for all places that lie in the zeros of the last PT_LOAD.
pub fn put_hidden(zeros: &mut [u8], spots: &[Spot], flat: &[u8])
    requires spots { AllIn (length zeros.old) (hidden_windows spots.now) }
    ensures { zeros.new ≡ put_all (parts.hidden spots.now flat.now) zeros.old }
{
    let mut rest = flat;
    for spot in spots {
        rest = put_behind(zeros, spot, rest);
    }
}

/// How many zeros a PT_LOAD has behind its file bytes.
fn zeros_of(last: &Segment) -> u64
    ensures { result ≡ last.now.memsz - last.now.filesz }
{
    last.memsz.saturating_sub(last.filesz)
}

/// How many bytes the extension has at most, with zeros up to a multiple of 16.
fn room_for(last: &Segment, lists: &Extension) -> usize {
    (zeros_of(last) as usize)
        .saturating_add(lists.strings.len())
        .saturating_add(lists.rows.len())
        .saturating_add(lists.conflicts.len())
        .saturating_add(MOST_ALIGNING)
}

/// The zeros of the last PT_LOAD, with the bytes of the places there, in a block that has room for so many bytes.
#[tactic(auto, unfolding(crate::specs::Parts::zeros_part))]
fn zeros_part(
    alloc: Global,
    last: &Segment,
    spots: &[Spot],
    flat: &[u8],
    room: usize,
) -> Result<Vec<u8>, AllocError>
    requires spots { LieInZeros last.now spots.now }
    ensures { IfOk result (λ v. v.items ≡ parts.zeros_part last.now spots.now flat.now) }
{
    let mut zeros = Vec::with_capacity(alloc, room)?;
    push_zeros(&mut zeros, zeros_of(last))?;
    put_hidden(&mut zeros, spots, flat);
    Ok(zeros)
}

/// The address at which the strings begin.
pub fn extension_at(last: &Segment) -> u64
    requires { IsShort last.now }
    ensures { result ≡ parts.extension_at last.now }
{
    round_up(last.vaddr + last.memsz, EXTENSION_ALIGN)
}

/// The address of the list.
#[tactic(auto, using(crate::proofs::ExtensionLaws::round_near, crate::proofs::ExtensionLaws::up_near))]
pub fn rows_at(last: &Segment, lists: &Extension) -> u64
    requires last { IsShort last.now }
    requires lists { AreShort lists.now }
    ensures { result ≡ parts.rows_at last.now lists.now }
{
    extension_at(last) + up(lists.strings.len()) as u64
}

/// The address of the conflicts.
#[tactic(auto, using(crate::proofs::ExtensionLaws::round_near, crate::proofs::ExtensionLaws::up_near))]
pub fn conflicts_at(last: &Segment, lists: &Extension) -> u64
    requires last { IsShort last.now }
    requires lists { AreShort lists.now }
    ensures { result ≡ parts.conflicts_at last.now lists.now }
{
    let rows = up(lists.strings.len()) + lists.rows.len();
    extension_at(last) + up(rows) as u64
}

/// The strings, the list and the conflicts, each at the next multiple of 8.
fn lists_part(alloc: Global, lists: &Extension) -> Result<Vec<u8>, AllocError>
    ensures { IfOk result (λ v. v.items ≡ parts.lists_part lists.now) }
{
    let mut part = Vec::from_slice(alloc, lists.strings.as_slice())?;
    push_part(&mut part, lists.rows.as_slice())?;
    push_part(&mut part, lists.conflicts.as_slice())?;
    Ok(part)
}

/// What the last PT_LOAD of a form has behind the original's file bytes.
#[tactic(auto, unfolding(crate::specs::Parts::extension))]
pub fn extension(
    alloc: Global,
    last: &Segment,
    spots: &[Spot],
    flat: &[u8],
    lists: &Extension,
) -> Result<Vec<u8>, AllocError>
    requires last { IsShort last.now }
    requires spots { LieInZeros last.now spots.now }
    ensures { IfOk result (λ v. v.items ≡ parts.extension last.now spots.now flat.now lists.now) }
{
    let mut block = zeros_part(alloc, last, spots, flat, room_for(last, lists))?;
    let gap = extension_at(last) - (last.vaddr + last.memsz);
    push_zeros(&mut block, gap)?;
    block.extend_from_slice(&lists_part(alloc, lists)?)?;
    Ok(block)
}

/// A block with zeros up to a multiple of 16 bytes, so that what follows in the file keeps its alignment.
#[tactic(auto, unfolding(crate::specs::Parts::whole_extension))]
pub fn whole_extension(block: Vec<u8>) -> Result<Vec<u8>, AllocError>
    ensures { IfOk result (λ v. v.items ≡ parts.whole_extension block.items) }
{
    let mut whole = block;
    let size = whole.len() as u64;
    push_zeros(&mut whole, round_up(size, EXTENSION_ALIGN) - size)?;
    Ok(whole)
}
