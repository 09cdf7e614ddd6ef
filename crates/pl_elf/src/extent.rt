ghost use Rattle.std.specs.Prelude.{◌≡◌};
ghost use Rattle.pl_base.specs.Windows as windows;
ghost use Rattle.pl_elf.specs.Clauses as spec;

use crate::Segment;
use std::marker::Model;

/// A run of bytes in the file. Contracts see it as a window.
#[derive(Clone, Copy, Debug)]
pub struct Extent {
    at: u64,
    size: u64,
}

impl Model for Extent {
    ghost use Rattle.pl_base.specs.Windows as words;

    ghost Value = { words.Window };

    ghost view = { λ e. record { at = e.at; size = e.size } };

    ghost inverse = { λ w. record { at = w.at; size = w.size } };
}

impl Extent {
    /// So many bytes from an offset on.
    pub fn new(at: u64, size: u64) -> Extent
        ensures { result ≡ record { at = at; size = size } }
    {
        Extent { at, size }
    }

    /// The bytes of a segment in the file.
    pub fn of(segment: &Segment) -> Extent
        ensures { result ≡ spec.load_window segment.now }
    {
        Extent::new(segment.offset, segment.filesz)
    }

    /// The offset of the first byte.
    pub fn at(&self) -> u64
        ensures { result ≡ self.now.at }
    {
        self.at
    }

    /// How many bytes.
    pub fn size(&self) -> u64
        ensures { result ≡ self.now.size }
    {
        self.size
    }

    /// Whether the two have a byte in common.
    pub fn shares(&self, other: &Extent) -> bool
        ensures { result ≡ windows.share self.now other.now }
    {
        if self.at <= other.at {
            other.at - self.at < self.size && other.size > 0
        } else {
            self.at - other.at < other.size && self.size > 0
        }
    }
}
