// Laws of the folder of a generated set.
ghost use Rattle.law_demo.specs.Folder.{DemosAreReady};
ghost use Rattle.law_demo.specs.Small.{SmallFoldersAreTaken};

/// A run that prelinks everything is not refused: in a folder without journal and cache, of so many files under valid names, each of at most so many bytes and not prelinked, where a run takes as much and its region has room for as many libraries with their alignments, of which each gets addresses of its own. It does nothing.
pub fn small_folders_are_taken()
    ensures { SmallFoldersAreTaken }
{}

/// For every number, each name of the set has the file that its recipe describes, the run of `--demo` over these files is not refused, and it can prelink each of them, if its prelinked file is one that a folder stores. It does nothing.
pub fn demos_are_ready()
    ensures { DemosAreReady }
{}
