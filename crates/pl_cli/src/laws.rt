// Laws over the definitions that the top call cites.
ghost use Rattle.pl_cli.specs.Tells.{ComparisonsTell, FixesTell, LoadsTell, LooseningsTell, OrdersTell, PreviewsTell, PrintsTell, RemovalsTell, ReportsTell, StoresTell, UndosTell, WeavesTell};

/// No load, no order, no cache and no command that writes means a want of memory, so no answer has the line of one. It does nothing.
#[tactic(auto, using(crate::proofs::TellsLemmas::loaded_tells, crate::proofs::TellsLemmas::ordered_tells, crate::proofs::TellsLemmas::printed_tells, crate::proofs::TellsLemmas::undone_tells, crate::proofs::TellsLemmas::removed_tells, crate::proofs::TellsLemmas::stored_tells))]
pub fn causes_tell()
    ensures load { LoadsTell }
    ensures order { OrdersTell }
    ensures print { PrintsTell }
    ensures undo { UndosTell }
    ensures remove { RemovalsTell }
    ensures store { StoresTell }
{}

/// Nor does a program that is fixed or loosened. It does nothing.
#[tactic(auto, using(crate::proofs::TellsLemmas::fixed_tells, crate::proofs::TellsLemmas::unfixed_tells))]
pub fn replacements_tell()
    ensures fix { FixesTell }
    ensures unfix { LooseningsTell }
{}

/// Nor does a run over all files, or what one would do, a file that is compared, or a weave. It does nothing.
#[tactic(auto, using(crate::proofs::TellsLemmas::previewed_tells, crate::proofs::TellsLemmas::reported_tells, crate::proofs::TellsLemmas::verified_tells, crate::proofs::TellsLemmas::woven_tells))]
pub fn reports_tell()
    ensures all { ReportsTell }
    ensures preview { PreviewsTell }
    ensures verify { ComparisonsTell }
    ensures weave { WeavesTell }
{}
