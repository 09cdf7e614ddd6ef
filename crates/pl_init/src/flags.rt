// A flag for each member.
ghost use Rattle.std.specs.Prelude.{◌≡◌, ◌<◌, ℕ, Bool, false, length, ◌||◌, ◌==◌};
ghost use Rattle.pl_init.specs.Flags.{AreFlags};

use pl_scope::MAX_MEMBERS;

/// No flags.
#[tactic(auto, using(crate::proofs::FlagLaws::none_flagged))]
pub fn no_flags() -> [bool; MAX_MEMBERS]
    ensures { AreFlags result (λ _. false) }
{
    [false; MAX_MEMBERS]
}

/// One flag more.
pub fn flag(flags: &mut [bool], member: u32)
    requires small { member < MAX_MEMBERS }
    requires long { length flags.old ≡ MAX_MEMBERS }
    ensures { (test : ℕ → Bool) → AreFlags flags.old test
        → AreFlags flags.new (λ k. k == member || test k) }
{
    flags[member as usize] = true;
}
