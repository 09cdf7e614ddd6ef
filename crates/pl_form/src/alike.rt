// Laws on what forms load.
ghost use Rattle.pl_form.specs.Alike.{LibrariesLoadAlike, ProgramsLoadAlike};
ghost use Rattle.pl_form.specs.Pieces.{GivenAreWanted, LibrariesAreMoved, LibrariesStandFor, ProgramsStandFor};

/// A law: a form that is loaded by its own program headers has, at each address of a PT_LOAD of the original that is in no link table and under no place, the byte that the original has there, a library's at its slot and a program's at its own addresses.
pub fn forms_leave_the_rest()
    ensures libraries { LibrariesLoadAlike }
    ensures programs { ProgramsLoadAlike }
{}

/// A law: each PT_LOAD of a form, at the addresses of its original's, has at each of them that byte where neither a link table nor a place is, and under a place the byte that was given for it. Bytes for each relocation of a program, put one after the other, are as many as its places want. The program headers of a library's form are its original's, moved to the slot: each keeps its offset and its size in the file.
pub fn forms_stand_for_originals()
    ensures libraries { LibrariesStandFor }
    ensures programs { ProgramsStandFor }
    ensures wanted { GivenAreWanted }
    ensures moved { LibrariesAreMoved }
{}
