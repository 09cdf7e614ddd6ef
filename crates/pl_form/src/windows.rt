// Windows that are tested before a byte of them is read.
ghost use Rattle.std.specs.Prelude.{◌≡◌, ◌++◌, nat_le, IfOk, OnOk};
ghost use Rattle.pl_base.specs.Windows as spec;
ghost use Rattle.pl_form.specs.Back.{all_within};

use pl_base::part;
use pl_object::Window;
use std::alloc::{AllocError, Global};

/// Whether a window lies in so many bytes.
pub fn is_in(size: usize, window: &Window) -> bool
    ensures { result ≡ nat_le (spec.end_of window.now) size }
{
    let size = size as u128;
    window.at() <= size && u128::from(window.size()) <= size - window.at()
}

/// Whether windows lie in so many bytes.
pub fn are_in(size: usize, windows: &[Window]) -> bool
    ensures { result ≡ spec.are_in size windows.now }
{
    for window in windows {
        if !is_in(size, window) {
            return false;
        }
    }
    true
}

/// Adds the bytes of a window.
fn push_window(all: &mut Vec<u8>, window: &Window, bytes: &[u8]) -> Result<(), AllocError>
    ensures { OnOk result (all.new.items ≡ all.old.items ++ spec.within window.now bytes.now) }
{
    all.extend_from_slice(part(bytes, window.at(), window.size()))
}

/// How many bytes windows have, so that room is made for them at once. Nothing but memory and time depends on it.
fn room_for(windows: &[Window], bytes: &[u8]) -> usize {
    let mut room: usize = 0;
    for window in windows {
        let size = part(bytes, window.at(), window.size()).len();
        room = room.saturating_add(size);
    }
    room
}

/// The bytes of windows, one after the other.
pub fn all_bytes(alloc: Global, windows: &[Window], bytes: &[u8]) -> Result<Vec<u8>, AllocError>
    ensures { IfOk result (λ v. v.items ≡ all_within windows.now bytes.now) }
{
    let mut all = Vec::with_capacity(alloc, room_for(windows, bytes))?;
    for window in windows {
        push_window(&mut all, window, bytes)?;
    }
    Ok(all)
}
