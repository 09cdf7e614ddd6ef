ghost use Rattle.law_demo.specs.SetLines.{LibrariesAreBuilt, LibrariesSpell, ProgramsAreBuilt, ProgramsSpell};
ghost use Rattle.law_demo.specs.SetNames.{FilesAreNamed, RecipesAreNamed};
ghost use Rattle.law_demo.specs.SetRead.{SetIsRead};

/// A law: the recipes of a generated set spell their lines.
pub fn set_is_spelled()
    ensures libraries { LibrariesSpell }
    ensures programs { ProgramsSpell }
{}

/// A law: the recipes of a generated set have no fault, and are built as the recipes that they describe.
pub fn set_is_built()
    ensures libraries { LibrariesAreBuilt }
    ensures programs { ProgramsAreBuilt }
{}

/// A law: each library and each program of a generated set has a file, and the file is accepted, with the object that its recipe describes.
pub fn set_is_read()
    ensures { SetIsRead }
{}

/// A law: the recipes of a generated set need libraries of the set alone. A library copies nothing and defines its object, and a program copies the object of a library that it needs. The files' names are valid and differ.
pub fn set_is_named()
    ensures recipes { RecipesAreNamed }
    ensures files { FilesAreNamed }
{}
