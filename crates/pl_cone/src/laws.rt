//! Laws of what may be prelinked, for the proofs of the crates above.
ghost use Rattle.pl_cone.specs.OneWord.{FlagsAreLaws};
ghost use Rattle.pl_cone.specs.Laws.{RuleIsOne};

/// A relocation that is told to be of one word gives one word in every scope of the folder that holds the members of its own walk, with the same addresses.
pub fn flags_give_one_word()
    ensures { FlagsAreLaws }
{}

/// The rule of a folder's prelinked files does not depend on how a command tells why a name of a walk has no object.
pub fn rule_is_one<E, F>()
    ensures { RuleIsOne E F }
{}
