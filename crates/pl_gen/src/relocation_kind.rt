ghost use Rattle.std.specs.Prelude.{◌≡◌};
ghost use Rattle.pl_gen.specs.Lines as spec;

/// A kind of relocation in the set.
#[derive(Clone, Copy)]
pub enum RelocationKind {
    /// The data address and a number.
    Relative,

    /// The address of a function, in a word of its own.
    Abs64,

    /// The address of a function, in the global offset table.
    GlobDat,

    /// The address of a function, for the procedure linkage table.
    JumpSlot,
}

/// The kind that a word draws.
#[tactic(auto, unfolding(crate::specs::Lines::kind_of))]
pub fn kind_of(word: u64) -> RelocationKind
    ensures { result ≡ spec.kind_of word }
{
    match word % 4 {
        0 => RelocationKind::Relative,
        1 => RelocationKind::Abs64,
        2 => RelocationKind::GlobDat,
        _ => RelocationKind::JumpSlot,
    }
}
