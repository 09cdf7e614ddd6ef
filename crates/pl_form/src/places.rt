// The bytes at places.
ghost use Rattle.std.specs.Prelude.{◌≡◌, ◌+◌, ◌++◌, ◌≤◌, drop, length, replicate, take, OnOk};
ghost use Rattle.pl_base.specs.Bytes.{part, put};
ghost use Rattle.pl_base.specs.Windows.{AllIn, put_all};
ghost use Rattle.pl_form.specs.Back as back;

use crate::Spot;
use crate::bytes::{put_bytes, split};
use pl_base::part;
use std::alloc::{AllocError, Global};

/// Puts the first bytes at a place, as far as it is in the file, and answers those for the places behind it.
fn put_spot<'a>(bytes: &mut [u8], spot: &Spot, flat: &'a [u8]) -> &'a [u8]
    requires { spot.now.at + spot.now.size ≤ length bytes.old }
    ensures bytes { bytes.new ≡ put spot.now.at (take spot.now.size flat.now) bytes.old }
    ensures rest { result.now ≡ drop spot.now.hidden (drop spot.now.size flat.now) }
{
    let (shown, rest) = split(flat, spot.size);
    put_bytes(bytes, spot.at as usize, shown);
    split(rest, spot.hidden).1
}

/// Puts bytes for all places, one place after the other, at the places, as far as these are in the file.
pub fn put_visible(bytes: &mut [u8], spots: &[Spot], flat: &[u8])
    requires spots { AllIn (length bytes.old) (back.spot_windows spots.now) }
    ensures { bytes.new ≡ put_all (back.visible spots.now flat.now) bytes.old }
{
    let mut rest = flat;
    for spot in spots {
        rest = put_spot(bytes, spot, rest);
    }
}

/// Adds zeros at the end.
pub fn push_zeros(out: &mut Vec<u8>, count: u64) -> Result<(), AllocError>
    ensures { OnOk result (out.new.items ≡ out.old.items ++ replicate count 0) }
{
    let Some(end) = out.len().checked_add(count as usize) else {
        return Err(AllocError);
    };
    out.resize(end, 0)
}

/// Adds the memory bytes of a place: those in the file, and the zeros behind them.
pub fn push_memory(out: &mut Vec<u8>, bytes: &[u8], spot: &Spot) -> Result<(), AllocError>
    ensures { OnOk result (out.new.items ≡ out.old.items ++ part spot.now.at spot.now.size bytes.now
        ++ replicate spot.now.hidden 0) }
{
    out.extend_from_slice(part(bytes, spot.at, spot.size))?;
    push_zeros(out, spot.hidden)
}

/// Adds the memory bytes of all places, in order.
pub fn push_all_memory(out: &mut Vec<u8>, bytes: &[u8], spots: &[Spot]) -> Result<(), AllocError>
    ensures { OnOk result (out.new.items ≡ out.old.items ++ back.memory_of spots.now bytes.now) }
{
    for spot in spots {
        push_memory(out, bytes, spot)?;
    }
    Ok(())
}
