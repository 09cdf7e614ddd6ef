// Windows that share a byte.
ghost use Rattle.std.specs.Prelude.{◌≡◌, IfOk};
ghost use Rattle.std.specs.List.Sorted.{IsNonDecreasingBy, IsPermutation};
ghost use Rattle.pl_base.specs.Windows as spec;
ghost use Rattle.pl_object.specs.FilePart.{nothing};
ghost use Rattle.pl_elf.specs.Sweep as walk;

use crate::Window;
use std::alloc::{AllocError, Global};

fn later(last: Window, window: &Window) -> Window
    ensures { result ≡ walk.later last window.now }
{
    if window.size() == 0 { last } else { *window }
}

/// Whether a window shares a byte with the last one before it that has some.
#[tactic(auto, using(pl_elf::proofs::SweepLaws::sweep_done))]
fn sweep(windows: &[Window]) -> bool
    ensures { result ≡ walk.sweep nothing windows.now }
{
    let mut last = Window::new(0, 0);
    for window in windows {
        if last.shares(window) {
            return true;
        }
        last = later(last, window);
    }
    false
}

/// Puts windows into the order of where they begin.
fn sort_windows(windows: &mut Vec<Window>)
    ensures same { IsPermutation windows.old.items windows.new.items }
    ensures rising { IsNonDecreasingBy (λ w. w.at) windows.new.items }
{
    windows.sort_unstable_by_key(Window::at);
}

/// A copy of windows in the order of where they begin.
pub fn sorted_windows(alloc: Global, windows: &[Window]) -> Result<Vec<Window>, AllocError>
    ensures same { IfOk result (λ v. IsPermutation windows.now v.items) }
    ensures rising { IfOk result (λ v. IsNonDecreasingBy (λ w. w.at) v.items) }
{
    let mut sorted = Vec::from_slice(alloc, windows)?;
    sort_windows(&mut sorted);
    Ok(sorted)
}

/// Whether two of the windows share a byte. They are sorted where they stand: the time grows as `n log n`.
pub fn any_share(windows: Vec<Window>) -> bool
    ensures { result ≡ spec.any_share windows.items }
{
    let mut sorted = windows;
    sort_windows(&mut sorted);
    sweep(&sorted)
}
