// Laws of whole runs.
ghost use Rattle.pl_safe.specs.Ordinary.{AnswersAreOrdinary};
ghost use Rattle.pl_safe.specs.Texts.{WeavesPrintLoads, WeavesPrintOrdinary};
ghost use Rattle.pl_safe.specs.Laws.{EveryImageStandsPastAll, EveryRunIsSafe, FilesAreFromScratch, FilesStandPastAll, FirmDisksStaySound, ImagesAreFromScratch, ImagesOfRealDisks, SoundLoadsAreOrdinary, SoundWeavesAreOrdinary, ReadersLook, RealImagesStand, RealWritersEnd, OthersKeepOriginals, RunsLeave, RunsLeavePastAll, RunsEndSound, RunsOnRealDisks, RunsRead, VerifiedAreSound, WritersEnd, WritersEndPastAll, WrittenArePastAll};

/// What a run leaves of a folder that reads as a sound one, whatever its words ask for and however it ends: it only looked, or each image of a moment after its start is sound, and stands for the files before it or for those after it. Where each image at the start was sound, each one since then is. A command that only reads changes nothing; after one that writes, is done or refused, and whether or not its text could be written, the files after it are the only image.
pub fn every_run_is_safe()
    ensures leaves { RunsLeave }
    ensures every { EveryRunIsSafe }
    ensures next { RunsEndSound }
    ensures readers { ReadersLook }
    ensures writers { WritersEnd }
{}

/// On a disk whose settle makes names last and no file's bytes, as real ones are, every run from the same start goes on alike, moment for moment, but for the firmness of files that were loose, that is not firm, at the start and that it left alone; where it is done or refused each file that it made is firm. So each image of such a disk since the start is a sound one of the other, where each one at the start was, but for names that were loose at the start and have in that one what they had then: these may have what a crash at the start could leave. But for them, over a folder that reads as a sound one, each image of a moment after the start is sound and stands for the files before or for those after, unless the run only looked; and after a command that writes, is done or refused, the files after it are the only image. From a start all of whose files are firm no name is lost so: the two disks are the same, and where the run is done or refused all files are firm, so the next one starts so.
pub fn runs_on_real_disks()
    ensures runs { RunsOnRealDisks }
    ensures images { ImagesOfRealDisks }
    ensures stands { RealImagesStand }
    ensures writers { RealWritersEnd }
    ensures firm { FirmDisksStaySound }
{}

/// What is read of a folder that tells its files alone, after a run over one that reads as a sound one, however the run ends: it is sound, and stands for the files before the run or for those after it.
pub fn runs_read_as_safe()
    ensures { RunsRead }
{}

/// After `-a` is done, each valid name has what prelinking everything from scratch gives, and the cache is the planned one: in each image, where the folder tells its disk, and as the files are read, where it tells these alone.
pub fn runs_prelink_from_scratch()
    ensures images { ImagesAreFromScratch }
    ensures files { FilesAreFromScratch }
{}

/// Over a folder that reads as a sound one every command keeps it that no stamp of a file or of a list is past the last one of the cache: in the files that each image since the start stands for, where it was so of each image at the start; of each moment after the start, where it was so of the files that were read; and in the images themselves after a command that writes, is done or refused. So it is of the files that are read, where the folder tells these alone.
pub fn runs_keep_stamps_past()
    ensures every { EveryImageStandsPastAll }
    ensures leaves { RunsLeavePastAll }
    ensures writers { WritersEndPastAll }
    ensures files { FilesStandPastAll }
    ensures written { WrittenArePastAll }
{}

/// A command changes at most the original of the one name that it stores, removes, fixes or loosens.
pub fn others_keep_originals()
    ensures { OthersKeepOriginals }
{}

/// A folder without a journal, whoever wrote it, is sound where `-y` answers Done for each name that matches and for each member of its walk.
pub fn verified_are_sound()
    ensures { VerifiedAreSound }
{}

/// `--load` of a name at which the files of its folder keep the rule of prelinked files answers, by its status and byte for byte of its text, as a command that links the originals at the same places and tells the path by the prelinked files.
pub fn answers_are_ordinary<F>()
    ensures { AnswersAreOrdinary F }
{}

/// So over a sound folder, recovered or not, `--load` answers by status and text as if it linked the originals at the same places.
pub fn sound_loads_are_ordinary()
    ensures { SoundLoadsAreOrdinary }
{}

/// The text of `--weave`, over every folder and input: each loader that has finished prints what `--load` prints of the files that it saw, or why they do not load. Where the folder keeps the rule of prelinked files, and its cache's last stamp is no less than all stamps and rows of lists, that is what linking the originals of these files gives, at the same places, with the path that these files allow.
pub fn weaves_print_ordinary_loads()
    ensures loads { WeavesPrintLoads }
    ensures ordinary { WeavesPrintOrdinary }
{}

/// So each loader of `--weave` that has finished prints what linking the originals of the files that it saw gives, where the folder is sound and no stamp or row of a list in it is past the last stamp of its cache.
pub fn sound_weaves_are_ordinary()
    ensures { SoundWeavesAreOrdinary }
{}
