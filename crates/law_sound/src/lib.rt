//! Why a folder of prelinked files stays sound: what a run over it, a crash on the way, an edit and other writers leave keeps the rule that a file whose list matches, and each library of its walk, is what prelinking their originals at the slots and stamps of the files gives.
//!
//! The laws ask nothing of how prelinked files are made: they hold for every `Format` that keeps `IsFormat`, over the objects and walks of pl_scope. Each is a clause of a function that does nothing, with the type of a format's faults as its parameter, but for `marks_do_not_bound`, which has an object.
#![tactic(auto)]

ghost use Rattle.law_sound.specs.Laws.{CurrentIsFromScratch, RunsAreSound, RunsKeepOriginals, MixturesAreSound, RowsAreSound, EditsAreSound, OthersAreSound, NoFilesAreSound, VerifiedAreSound, HistoriesAreSound, StampsNameFiles, MarksDoNotBound};

use pl_object::Object;

/// In a folder that keeps the rule, a current name's file is the one that a run makes from scratch, and each member of its walk is current too.
pub fn current_is_from_scratch<E>()
    ensures { CurrentIsFromScratch E }
{}

/// What a run leaves keeps the rule, whatever the folder was, sound or not.
pub fn runs_are_sound<E>()
    ensures { RunsAreSound E }
{}

/// It leaves each name the original that it had, whatever the folder was.
pub fn runs_keep_originals<E>()
    ensures { RunsKeepOriginals E }
{}

/// Where a folder keeps the rule, and a run's stamp is past all stamps of its marks and of their lists, each name may have its old file or the run's, in any mixture: the rule is kept.
pub fn mixtures_are_sound<E>()
    ensures { MixturesAreSound E }
{}

/// So it is where, over such a mixture, any of the run's changes are made, in any order, some of them more than once.
pub fn rows_are_sound<E>()
    ensures { RowsAreSound E }
{}

/// Files that are taken away, or put there without a mark, keep the rule.
pub fn edits_are_sound<E>()
    ensures { EditsAreSound E }
{}

/// So does what others write, where no file that they changed matches, and each name in the list of a file that stayed has its old bytes, is not marked, or differs from its row.
pub fn others_are_sound<E>()
    ensures { OthersAreSound E }
{}

/// A folder without files keeps the rule.
pub fn no_files_are_sound<E>()
    ensures { NoFilesAreSound E }
{}

/// So does one, whoever wrote it, in which each name that matches, and each member of its walk, is prelinked and its file is the one that its original, and those of its walk, give at the versions, slots and stamps that the files bear.
pub fn verified_are_sound<E>()
    ensures { VerifiedAreSound E }
{}

/// Over runs and edits, one after the other: the last stamp bounds the folder, and files that are taken at any moments, each at its own, keep the rule together.
pub fn histories_are_sound<E>()
    ensures { HistoriesAreSound E }
{}

/// Over runs and edits, a name and a stamp name one library file.
pub fn stamps_name_files<E>()
    ensures { StampsNameFiles E }
{}

/// The stamps in lists have to be counted too: with a run's stamp past those of the marks alone, a mixture of old and new files may break the rule.
pub fn marks_do_not_bound(object: &Object)
    ensures { MarksDoNotBound object.now }
{
    let _ = object;
}
