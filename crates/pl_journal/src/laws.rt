ghost use Rattle.std.specs.Prelude.{List};
ghost use Rattle.pl_folder.specs.Disk.{View};
ghost use Rattle.pl_journal.specs.Laws.{AfterTheStart, CommitStands, FinishStands, RecoveriesEnd, RecoveriesLeave, RowsStand, RunsEnd, RunsLeave, SinceTheStart, StagingStands, StepsDoRows};
ghost use Rattle.pl_journal.specs.Meaning.{Edit, StandsBetween, StandsFor};
ghost use Rattle.pl_journal.specs.RealDisk.{FirmDisksStaySame, LostWithoutARun, OnRealDisk, RealImages, RunsBeside};

/// Each image since the start of a recovery is one of the start's, or stands for the folder; since the start of a run it is one of the start's, or stands for the files before or for those after.
pub fn since_the_start()
    ensures recovery { (before : View) → SinceTheStart (StandsFor before) }
    ensures run { (before : View) (edits : List Edit) → SinceTheStart (StandsBetween before edits) }
{}

/// After the first moment it stands for the folder; in a run for the files before or for those after.
pub fn after_the_start()
    ensures recovery { (before : View) → AfterTheStart (StandsFor before) }
    ensures run { (before : View) (edits : List Edit) → AfterTheStart (StandsBetween before edits) }
{}

/// What a crash of each part of a run leaves.
pub fn each_part_stands()
    // Of staging: it stands for the files before.
    ensures staging { StagingStands }
    // Of the commit: it stands for these or for those after.
    ensures commit { CommitStands }
    // Each step does its row.
    ensures steps { StepsDoRows }
    // Between two rows (`Midway`): recovered it is the files before or those after,
    // as in every part from the commit on.
    ensures rows { RowsStand }
    // Of the end: it stands for the files before or for those after.
    ensures finish { FinishStands }
    // With the end the changes are made.
    ensures end { RunsEnd }
{}

/// What a crash of a run, or of a recovery of a folder without a journal or with one in its grammar, leaves has none, or one in its grammar; and of a folder that tells its files no recovery ends by `BadJournal` then.
pub fn never_a_bad_journal()
    ensures run { RunsLeave }
    ensures recovery { RecoveriesLeave }
    ensures end { RecoveriesEnd }
{}

/// On a disk whose settle makes names last and no file's bytes, as real ones are: from the same start a run stays alike, moment for moment, but for the firmness of files that were loose at the start and that it left alone, and where it is done each file that it made is firm; from a start all of whose files are firm the two disks are the same.
pub fn runs_beside_a_real_disk()
    ensures beside { RunsBeside }
    ensures same { FirmDisksStaySame }
{}

/// What a crash of such a disk leaves is an image of the other, but for names that were loose at the start and have in it what they had then: these may have what a crash at the start could leave. So after the first moment that image stands for the folder, and in a run of changes for the files before or for those after.
pub fn on_a_real_disk()
    ensures recovery { (before : View) → OnRealDisk (StandsFor before) }
    ensures run { (before : View) (edits : List Edit) → OnRealDisk (StandsBetween before edits) }
    ensures images { RealImages }
    ensures lost { LostWithoutARun }
{}
