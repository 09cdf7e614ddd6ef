// Laws of fast loads.
ghost use Rattle.law_demo.specs.Demo.{DemoLoadsAreFast, DemoProgramsAreReady};
ghost use Rattle.law_demo.specs.DemoText.{DemoRelocationsAreDrawn, DemoTextIsDrawn, DemoTextsAreOrdinary};
ghost use Rattle.law_demo.specs.Fast.{FilesOffTheRegionAreClear, LowProgramsKeepOff, MatchedLoadsAreFast, PrelinkedLoadsAreFast};

/// `--load` of a program starts on the fast path, by every policy and whatever is busy: where its file's list tells the files of its walk, the rule of prelinked files holds at it, and no library that it needs has, at the slot that its file bears, an address that the program's file loads by its own program headers, or a busy one. It does nothing.
pub fn matched_loads_are_fast<E>()
    ensures { MatchedLoadsAreFast E }
{}

/// So does each program that a run which prelinks everything left prelinked, of a folder that kept the rule: its list tells its walk, since each library of it could be prelinked too. Its slots are free where its file, as it stands, keeps off the region of the run; so it does where its original's PT_LOADs end 8 GiB below it. It does nothing.
pub fn prelinked_loads_are_fast()
    ensures fast { PrelinkedLoadsAreFast }
    ensures clear { FilesOffTheRegionAreClear }
    ensures low { LowProgramsKeepOff }
{}

/// For every number each program of the set of `--demo` is prelinked by its run, and its file keeps off the region of the slots; so all of its loads are fast, and they are as many as the number draws programs. It does nothing.
pub fn demo_loads_are_fast()
    ensures ready { DemoProgramsAreReady }
    ensures fast { DemoLoadsAreFast }
{}

/// For every number the text of `--demo` is known, but for how many conflict rows there are: the set has as many files as the number draws; their relocations are 128 a library and 65 a program; as many loads are fast as there are programs; and the digest is that of the texts of loads that link the originals, at the same places. It does nothing.
pub fn demo_text_is_drawn()
    ensures texts { DemoTextsAreOrdinary }
    ensures relocations { DemoRelocationsAreDrawn }
    ensures text { DemoTextIsDrawn }
{}
