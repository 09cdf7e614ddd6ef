// The faults for which a file that was accepted has no form. The manual page has the same table.

/// Each fault, by its number, with its sentence.
pub const SENTENCES: &str =
    "1 The dynamic table has too few spare entries of tag DT_NULL: a library needs two, a program four.
2 The zeros behind the file bytes of the last PT_LOAD are over 16 MiB.
3 The program headers, a segment, a section or the section headers do not lie wholly before or wholly behind the place where the program grows, the end of the file bytes of its last PT_LOAD.
4 A PT_LOAD of the program, or the 2 MiB behind its memory, lies in the region of the slots.
5 A PT_LOAD has file bytes behind those of the last one.
6 The prelinked program would be longer than 256 MiB.";

/// What can be done about a file with a fault, if anything is known.
pub const REMEDIES: &str =
    "1 Link it with more spare entries, as with --spare-dynamic-tags=5 of GNU ld.
4 Give another --region.";
