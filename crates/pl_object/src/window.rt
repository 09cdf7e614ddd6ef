ghost use Rattle.std.specs.Prelude.{◌≡◌};
ghost use Rattle.pl_base.specs.Windows as spec;

use std::marker::Model;

/// A run of bytes in a file or in memory. Contracts see it as a window.
#[derive(Clone, Copy, Debug)]
pub struct Window {
    at: u128,
    size: u64,
}

impl Model for Window {
    ghost use Rattle.pl_base.specs.Windows as words;

    ghost Value = { words.Window };

    ghost view = { λ s. record { at = s.at; size = s.size } };

    ghost inverse = { λ w. record { at = w.at; size = w.size } };
}

impl Window {
    /// So many bytes from an offset or an address on.
    pub fn new(at: u128, size: u64) -> Window
        ensures { result ≡ record { at = at; size = size } }
    {
        Window { at, size }
    }

    /// The offset or address of the first byte.
    pub fn at(&self) -> u128
        ensures { result ≡ self.now.at }
    {
        self.at
    }

    /// How many bytes.
    pub fn size(&self) -> u64
        ensures { result ≡ self.now.size }
    {
        self.size
    }

    /// Whether the two have a byte in common.
    pub fn shares(&self, other: &Window) -> bool
        ensures { result ≡ spec.share self.now other.now }
    {
        if self.at <= other.at {
            other.at - self.at < u128::from(self.size) && other.size > 0
        } else {
            self.at - other.at < u128::from(other.size) && self.size > 0
        }
    }
}
