ghost use Rattle.std.specs.Prelude.{◌≡◌, ◌+◌, ◌<◌, ◌^◌};
ghost use Rattle.pl_elf.specs.Ranges.{range_from};

/// Addresses or file offsets from `start` up to, but not including, `end`.
#[derive(Clone, Copy, Debug, PartialEq, Eq)]
pub struct Range {
    /// The first address or file offset.
    pub start: u64,

    /// The first one that is past the range.
    pub end: u64,
}

impl Range {
    /// The addresses, or file offsets, from `start` on, `size` of them. The end is below 2^64.
    pub fn from_size(start: u64, size: u64) -> Range
        requires { start + size < 2 ^ 64 }
        ensures { result ≡ range_from start size }
    {
        Range {
            start,
            end: start + size,
        }
    }
}
