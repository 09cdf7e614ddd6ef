ghost use Rattle.std.specs.Prelude.{◌≡◌};
ghost use Rattle.pl_folder.specs.Replaying as spec;

/// Which of a row of things outlast a crash.
#[derive(Clone, Copy)]
pub(crate) enum Choice {
    All,
    /// Bit `i` modulo 64 is that of thing `i`.
    Bits(u64),
}

impl Choice {
    pub(crate) fn keeps(self, i: usize) -> bool
        ensures { result ≡ spec.keeps self i }
    {
        match self {
            Choice::All => true,
            Choice::Bits(bits) => (bits >> (i % 64)) % 2 == 1,
        }
    }
}
