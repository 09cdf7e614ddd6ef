// What holds of programs that are fixed, and of what is loosened.
ghost use Rattle.pl_pie.specs.Laws.{FitsMayBeFixed, FixedFileBears, FixedFileIsOrdinary, FixedFileIsRead, PiesArePlaced, UnfixIsExact, UnfixUndoes};

/// A position-independent program that is loaded at any address at which `fix` takes it, with other members, and the program that is read of the file that `fix` makes of it there have one image, 0 in the link tables, or the same link refusal. So it does at each address of the region at which it fits.
pub fn fixed_file_is_ordinary()
    ensures { FixedFileIsOrdinary }
{}

/// The header, the program headers and the section headers of a file that `fix` makes are those of the fixed object.
pub fn fixed_file_bears()
    ensures { FixedFileBears }
{}

/// A position-independent program has memory, and its alignment is a power of two. So a policy may be asked for its address. At each address of the region at which it fits `fix` takes it.
pub fn pies_are_placed()
    ensures placed { PiesArePlaced }
    ensures region { FitsMayBeFixed }
{}

/// A file that `fix` makes, at whatever address, is accepted, and what is read of it is the fixed object; a link table without bytes may stand elsewhere in it.
pub fn fixed_file_is_read()
    ensures { FixedFileIsRead }
{}

/// What `unfix` gives is a position-independent program, of which the file is the one fixed at an address of the region. And of a file that `fix` makes at an address of the region it gives what was fixed.
pub fn unfix_is_exact()
    ensures exact { UnfixIsExact }
    ensures undoes { UnfixUndoes }
{}
