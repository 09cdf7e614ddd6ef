ghost use Rattle.law_demo.specs.Candidates.{FilesAreKnown, LibrariesAreCandidates, ProgramsAreCandidates};

/// A law: where fewer than 256 names have the files of plain and modest recipes of libraries that need one another alone and copy nothing, a run can prelink each of them; and each program below the region that needs no others, and copies objects that libraries define which it needs.
pub fn names_are_candidates()
    ensures libraries { LibrariesAreCandidates }
    ensures programs { ProgramsAreCandidates }
{}

/// A law: such a file has no mark, and its object is of the recipe's kind, needs the recipe's names, is aligned by pages and lies below 64 MiB.
pub fn files_are_known()
    ensures { FilesAreKnown }
{}
