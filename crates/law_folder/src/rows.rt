ghost use Rattle.law_folder.specs.All.{AllGivesNext, NextIsFromScratch};
ghost use Rattle.law_folder.specs.Candidates.{CandidatesAreMarked, CandidatesArePrelinked};
ghost use Rattle.law_folder.specs.Causes.{BadCacheIsOfTheCache};
ghost use Rattle.law_folder.specs.Fits.{RemovalsFit, ReplacementsFit, RunsFit};
ghost use Rattle.law_folder.specs.Reported.{ReportsTellNames};

/// With all its rows done a run that prelinks everything leaves each valid name the file that is planned for it, and the planned cache. In a folder that keeps the rule of prelinked files these are the files from scratch.
pub fn all_gives_next()
    ensures next { AllGivesNext }
    ensures scratch { NextIsFromScratch }
{}

/// A name that may be prelinked is prelinked, whether slots may be shared or not: it has a prelinked file, and what it has after the run bears a mark, unless it is a program whose file would be longer than a folder stores. Then each step of the definition of that file has a value: its members' originals have forms, their numbers are such as they may have, their addresses are apart, and all links resolve. The report of a run says so: it names each such name prelinked or current, and has the sixth form fault of those programs alone.
pub fn candidates_are_prelinked()
    ensures prelinked { CandidatesArePrelinked }
    ensures marked { CandidatesAreMarked }
    ensures reported { ReportsTellNames }
{}

/// The rows of every command fit a journal: there are at most 1025 of them, their names differ, and each is valid or the cache's. So TooManyFiles comes of the files alone.
pub fn rows_fit()
    ensures runs { RunsFit }
    ensures removals { RemovalsFit }
    ensures replacements { ReplacementsFit }
{}

/// The cache that a run leaves always has a spelling, so BadCache comes of the cache that is there alone: slots end at or below 2^47, the run's moment has 32 bits, and the cache is bytes.
pub fn bad_cache_is_of_the_cache()
    ensures { BadCacheIsOfTheCache }
{}
