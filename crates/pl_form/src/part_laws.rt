ghost use Rattle.pl_form.specs.PartLaws.{FillsAreTold, FormsGiveOriginals, LibraryFormsAreMoved, LibrariesHoldFills, LibraryFormsLoadAlike, NoFormOfTwoOriginals, PartsAreFound, ProgramsAreExtended, ProgramsHoldFills, ProgramFormsLoadAlike};

/// A law: from the bytes of a form alone its original comes back, of a library and of a program, in both versions of the undo section, whatever the list, the conflicts and the bytes at the places are. So no file is a form of two originals.
pub fn forms_are_undone()
    ensures undone { FormsGiveOriginals }
    ensures one { NoFormOfTwoOriginals }
{}

/// A law: a form that is loaded by its own program headers has, at each address of a PT_LOAD of the original that is in no link table and under no place, the byte that the original has there.
pub fn forms_load_alike()
    ensures libraries { LibraryFormsLoadAlike }
    ensures programs { ProgramFormsLoadAlike }
{}

/// A law: the program header table of a form lies in it. A library's has the original's segments moved by the slot, each with its offset and its size in the file. A program's has them with the last PT_LOAD grown, and with the offsets of the others where the inserted bytes leave them.
pub fn forms_bear_segments()
    ensures libraries { LibraryFormsAreMoved }
    ensures programs { ProgramsAreExtended }
{}

/// A law: a form that is loaded by its own program headers has, at each address of a PT_LOAD of the original that is in a place, the byte that was given for it. The places are those of the original's relocations, in their order.
pub fn forms_hold_fills()
    ensures libraries { LibrariesHoldFills }
    ensures programs { ProgramsHoldFills }
    ensures told { FillsAreTold }
    ensures found { PartsAreFound }
{}
