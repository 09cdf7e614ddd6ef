ghost use Rattle.std.specs.Prelude.{◌≡◌, ◌<◌, ◌^◌, map, IfOk};
ghost use Rattle.std.specs.List.{All};
ghost use Rattle.pl_base.specs.Windows.{end_of};
ghost use Rattle.pl_object.specs.Tables as spec;

use crate::Window;
use pl_base::Rows;
use pl_elf::Range;
use std::alloc::{AllocError, Global};

fn window_range(window: &Window) -> Range
    requires { end_of window.now < 2 ^ 64 }
    ensures { result ≡ spec.window_range window.now }
{
    Range::from_size(window.at() as u64, window.size())
}

/// Windows of a file that end below 2^64, as ranges. It fails only for want of memory.
pub fn ranges_of(alloc: Global, windows: &[Window]) -> Result<Rows<Range>, AllocError>
    requires { All (λ w. end_of w < 2 ^ 64) windows.now }
    ensures { IfOk result (λ ranges. ranges ≡ map spec.window_range windows.now) }
{
    let mut ranges = Rows::new(alloc);
    for window in windows {
        ranges.push(window_range(window))?;
    }
    Ok(ranges)
}
