ghost use Rattle.law_demo.specs.SetFiles.{SetLibrariesAreReady, SetProgramsAreReady};

/// A law: the libraries of a generated set are such that a run can prelink each of them, and so are its programs, where the folder has the files that their recipes describe.
pub fn sets_are_ready()
    ensures libraries { SetLibrariesAreReady }
    ensures programs { SetProgramsAreReady }
{}
