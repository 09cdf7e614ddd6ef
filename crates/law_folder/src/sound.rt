// Laws of sound folders, of images that a crash leaves, and of commands.
ghost use Rattle.law_folder.specs.Laws.{CommandsEnd, CommandsLeave, CommandsRead, EmptyIsSound, EveryImageIsSound, FixingMakesBare, ImagesKeepOriginals, LooseningMakesBare, OthersStaySound, RecoveredKeepTheRule, RecoveriesStaySound, RemovalsAreSafe, RemovalsKeepOriginals, ReplacementsAreSafe, ReplacementsKeepOriginals, RuleIsEnough, RunsAreSafe, RunsKeepOriginals, RunsStaySound, SettledAreSound, SoundKeepTheRule, VerifiedAreSound};
ghost use Rattle.law_folder.specs.Steps.{EmptyIsPastAll, RemovalsMakeSteps, ReplacementsMakeSteps, RunsMakeSteps, StepsKeepPastAll};

/// A sound folder keeps the rule of prelinked files as it stands, so a load from it needs no recovery, and when it is recovered. Where there is no journal the rule is enough. A folder without files is sound.
pub fn sound_folders_keep_the_rule()
    ensures stands { SoundKeepTheRule }
    ensures recovered { RecoveredKeepTheRule }
    ensures enough { RuleIsEnough }
    ensures empty { EmptyIsSound }
{}

/// What others may write between commands leaves a folder without a journal sound: each name in a list of a file that stayed has its old bytes, no mark, or another stamp or checksum than the list's row, and no changed file matches. Such a folder is sound, too, where each name that matches is the file that its walk's members prelink, and so is each member of its walk.
pub fn others_stay_sound()
    ensures others { OthersStaySound }
    ensures verified { VerifiedAreSound }
{}

/// What a command makes of a folder that keeps the rule is one step of a history, with the last stamp of its cache before and after.
pub fn commands_are_steps()
    ensures runs { RunsMakeSteps }
    ensures removals { RemovalsMakeSteps }
    ensures replacements { ReplacementsMakeSteps }
{}

/// No stamp of a file or of a list is past the last one of the cache: so it is in a folder without files, and every command keeps it that makes steps.
pub fn last_stamps_stay_past<C>()
    ensures empty { EmptyIsPastAll }
    ensures steps { StepsKeepPastAll C }
{}

/// What a crash of a recovery leaves of a sound folder is sound, and so is what a crash of a safe command's run leaves. A settled folder that keeps the rule has sound images alone.
pub fn images_stay_sound<C>()
    ensures recovery { RecoveriesStaySound }
    ensures run { RunsStaySound C }
    ensures settled { SettledAreSound }
{}

/// The commands are safe: their changes fit a journal, and files that keep the rule keep it whichever of the changes are made. A command that replaces a file is safe where what it makes is no prelinked file, and such are a fixed program and a loosened one.
pub fn changes_are_safe()
    ensures runs { RunsAreSafe }
    ensures removals { RemovalsAreSafe }
    ensures replacements { ReplacementsAreSafe }
    ensures fixing { FixingMakesBare }
    ensures loosening { LooseningMakesBare }
{}

/// What a safe command leaves of a sound folder, however it comes out: each image of a moment after its start is sound, and stands for the files before it or for those after it; a command that failed or lacked memory may have only looked. Where each image at the start was sound, each one since then is. Where a command is done or refused the files after it are the only image. Of a folder that tells its files alone, what is read after it is such an image.
pub fn commands_stay_sound<C>()
    ensures images { CommandsLeave C }
    ensures every { EveryImageIsSound C }
    ensures end { CommandsEnd C }
    ensures files { CommandsRead C }
{}

/// Undoing leaves each valid name its original, whichever of its changes are made. Storing a file, removing one, fixing a program and loosening one change the original of that name alone. A recovered image has all originals from before the command, or all from after it.
pub fn originals_stay<C>()
    ensures runs { RunsKeepOriginals }
    ensures removals { RemovalsKeepOriginals }
    ensures replacements { ReplacementsKeepOriginals }
    ensures images { ImagesKeepOriginals C }
{}
