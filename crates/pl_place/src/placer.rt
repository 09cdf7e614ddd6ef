ghost use Rattle.std.specs.Prelude.{◌≡◌};
ghost use Rattle.pl_place.specs.Policy as policy;

use crate::Holes;
use std::marker::Model;

/// A policy that is stored. Its maker proves that it may be called for all holes, and that each answer is an aligned address at which the span fits, and none only where there is no such address.
#[derive(Drop)]
pub struct Placer<F> {
    choose: F,
}

impl<F> Model for Placer<F> {
    ghost Value = { F };

    ghost view = { λ p. p.choose };
}

impl<F: Fn(&Holes, u64, u64) -> Option<u64>> Placer<F> {
    /// A placer of this policy.
    pub fn new(choose: F) -> Placer<F>
        requires may { policy.MayChoose (F.pre choose) }
        requires chooses { policy.Chooses (F.post choose) }
        ensures { result ≡ choose }
    {
        Placer { choose }
    }

    /// What the policy answers.
    pub fn place(&self, holes: &Holes, span: u64, align: u64) -> Option<u64>
        requires may { policy.MayChoose (F.pre self.now) }
        requires chooses { policy.Chooses (F.post self.now) }
        requires asked { policy.IsAsked span align }
        ensures answer { policy.Answered (F.post self.now) holes.now span align result }
        ensures fits { policy.MayAnswer holes.now span align result }
    {
        // What the arguments' types say of them is known once they are read.
        let _rows = holes.rows();
        let (_span, _align) = (span, align);
        (self.choose)(holes, span, align)
    }
}
