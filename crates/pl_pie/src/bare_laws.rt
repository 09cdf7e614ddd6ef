// What holds of programs that are fixed where a policy places them, and of what is loosened.
ghost use Rattle.pl_pie.specs.Placed.{FixedFilesAreBare, LoosenedFilesAreBare, MadeFilesAreBare};

/// No file that `fix` makes would be taken for a prelinked one, so none that is fixed where a policy places it; and none that is loosened. It does nothing.
#[tactic(auto, using(crate::proofs::FixedLaws::made_bare, crate::proofs::BareLaws::fixed_bare, crate::proofs::LooseLaws::unfixed_bare))]
pub fn files_are_bare()
    ensures made { MadeFilesAreBare }
    ensures fixed { FixedFilesAreBare }
    ensures loosened { LoosenedFilesAreBare }
{}
