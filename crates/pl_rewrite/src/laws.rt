// Why a folder stays sound.
ghost use Rattle.pl_rewrite.specs.History.{HistoriesKeepTheRule, RowsKeepTheRule, RowsMakeTheFiles, RunsAreSteps, StampsNameFiles, UndoingIsEditing, VerifiedKeepTheRule};
ghost use Rattle.pl_rewrite.specs.Laws.{MixturesKeepTheRule, NamesStay, NextIsFromScratch, OriginalsStay};

/// In a folder that keeps the rule of prelinked files, the files after a run are those from scratch, of current names too.
pub fn next_is_from_scratch()
    ensures { NextIsFromScratch }
{}

/// In every folder a run leaves a file to each name that had one, and to no other.
pub fn names_stay()
    ensures { NamesStay }
{}

/// In every folder each name keeps the original that it had.
pub fn originals_stay()
    ensures { OriginalsStay }
{}

/// A folder that keeps the rule keeps it while each name has its old file or the run's, in any mixture.
pub fn mixtures_keep_the_rule()
    ensures { MixturesKeepTheRule }
{}

/// The rows of a run, all made, give each name the run's file. With any of them made a folder that kept the rule keeps it.
pub fn rows_make_the_files()
    ensures all { RowsMakeTheFiles }
    ensures any { RowsKeepTheRule }
{}

/// A folder keeps the rule, whoever wrote it, where `is_verified` holds of each name that matches and of each member of its walk.
pub fn verified_keep_the_rule()
    ensures { VerifiedKeepTheRule }
{}

/// What a run makes of a folder that keeps the rule is a step of a history, with the stamp of its cache as last stamp. So is undoing, of files of either version.
pub fn runs_are_steps()
    ensures runs { RunsAreSteps }
    ensures undoing { UndoingIsEditing }
{}

/// Over a history of runs and edits, files that are taken at any moments, each at its own, keep the rule together.
pub fn histories_keep_the_rule()
    ensures { HistoriesKeepTheRule }
{}

/// Over it a name and a stamp name one library file.
pub fn stamps_name_files()
    ensures { StampsNameFiles }
{}
