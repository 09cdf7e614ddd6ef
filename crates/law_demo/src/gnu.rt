ghost use Rattle.law_demo.specs.Gnu.{GnuIsWhole};

/// A law: the GNU hash table of a recipe's plan is well formed, and leads to each symbol that the plan defines by the hash of its name.
pub fn gnu_is_whole()
    ensures { GnuIsWhole }
{}
