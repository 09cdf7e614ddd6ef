// The history of a weave.
ghost use Rattle.law_loads.specs.Weaves.{CopiesKeep, WeavesAreOrdinary, WovenHaveAHistory};

/// From files that keep the rule of prelinked files, and whose cache's last stamp is no less than all stamps and rows of lists, there is, whatever the events of a weave are, one history of runs and edits in which each file that a loader saw was held at some moment.
pub fn woven_have_a_history()
    ensures { WovenHaveAHistory }
{}

/// So a loader that has finished answers as a load that links the originals of the files that it saw, at the same places, whatever the policy is; of its own file, where that is a position-independent program, it links the one that it becomes. And its path is the fast one exactly where these files allow it there.
pub fn weaves_are_ordinary<E>()
    ensures { WeavesAreOrdinary E }
{}

/// And these files may be those that a weave copies of a folder: the copy of one that keeps the rule, with such a cache, keeps the rule and has such a cache.
pub fn copies_keep()
    ensures { CopiesKeep }
{}
