//! Laws of what a folder stands for, and of commands one after another.
ghost use Rattle.pl_change.specs.Again.{GoesOn};
ghost use Rattle.pl_change.specs.Restored.{OneIsBefore, RestoredIsBefore};

/// What a folder stands for is one finite map of files. It does nothing.
pub fn stands_for_files()
    ensures stands { RestoredIsBefore }
    ensures one { OneIsBefore }
{}

/// A command after a recovery makes of the folder what it would have made of it before the recovery. It does nothing.
pub fn commands_go_on()
    ensures { GoesOn }
{}
