// Laws of prelinked files and of the fast path.
ghost use Rattle.pl_conflict.specs.Complete.{ConflictsAreComplete, FilesStand, FastImagesAreOrdinary};
ghost use Rattle.pl_conflict.specs.Fast.{FastIsOrdinary};
ghost use Rattle.pl_conflict.specs.Format.{PrelinkedAreForms, FormatIsKept};
ghost use Rattle.pl_conflict.specs.Held.{FormsHoldWords};

/// The law of the fast path. Files stand for originals: where no link table is, each has its original's bytes outside the places of relocations, a program has the bytes of the relocated originals at its places, and the rows are the words of libraries' places that differ from what their files hold. Then the files' segments with the rows over them are the originals' segments relocated, at every address; a byte of a link table is 0 on both sides.
pub fn fast_is_ordinary()
    ensures { FastIsOrdinary }
{}

/// The law of the fast path over a scope: a program and libraries, each accepted in its original, at places where no PT_LOADs meet. Their files load where they stand, by their own program headers, at the addresses of the originals; the libraries' files load what they would by their originals' headers; where no link table is, each file has its original's bytes outside the places, and the program's has the bytes of the relocated originals at its places. Then with the conflict rows of the scope as patches over the files as they stand, the image is the ordinary one at every address.
pub fn conflicts_are_complete()
    ensures { ConflictsAreComplete }
{}

/// What the members of a walk prelink for its first name is a form of that name's original: it is bytes, and it bears the version, the slot and the stamp of the first member, and the names, stamps and checksums of the others as its list.
pub fn prelinked_are_forms()
    ensures { PrelinkedAreForms }
{}

/// The format of prelinked files keeps what every format keeps, so that a folder that keeps its rule stays sound: an original is not marked, what the members of a walk prelink tells the first's original, version, slot and stamp and the others' rows, a marked file is no static program, and a marked program has slot and stamp 0.
pub fn format_is_kept<E>()
    ensures { FormatIsKept E }
{}

/// The fast path over a folder that keeps the rule at one name, a program's, whatever the rest of the folder is. Where its list matches, the files of its walk stand at their slots for their originals. Where it is loaded fast, that is at 0 with each library at the slot that its file bears, the segments of these files as they stand, with the program's conflict rows as patches and nothing else, are the ordinary image of the originals at every address; so the originals link, too.
pub fn fast_images_are_ordinary<E>()
    ensures stand { FilesStand E }
    ensures ordinary { FastImagesAreOrdinary E }
{}

/// A library's form, loaded at its slot, holds at each place of eight bytes the word that it was given for the relocation, or what the original holds there where it was given none.
pub fn forms_hold_words()
    ensures { FormsHoldWords }
{}
