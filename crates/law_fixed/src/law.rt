// What holds of programs that are fixed at an address.
ghost use Rattle.law_fixed.specs.Laws.{EachIsNeeded, FixedIsOrdinary};
ghost use Rattle.law_fixed.specs.Stays.{MovesStay, OutsideStays, TwoAreFixedAlike, WindowsStay};

/// A program that is loaded at an address, with others, and the program fixed there, with the same others, have one image: the same byte at each address, 0 in the link tables, or the same link refusal. This is asked of the program: no value of a symbol becomes 0, no symbol would be a definer but for its value 0, what binds to itself is a number or moves with its section, and no COPY binds to itself; and of the fixed file: outside the link tables and the places of RELATIVE relocations it loads the program's bytes.
pub fn fixed_is_ordinary()
    ensures { FixedIsOrdinary }
{}

/// Without one of its four conditions on symbols and relocations that is false.
pub fn each_is_needed()
    ensures { EachIsNeeded }
{}

/// What fixing leaves: a window of memory that moves with the program stands in the same bytes of the file, what would be copied of the program itself is inside its memory or outside as it was, and what moves does not depend on what is moved.
pub fn what_stays()
    ensures windows { WindowsStay }
    ensures outside { OutsideStays }
    ensures moves { MovesStay }
{}

/// Were the values of undefined symbols or the entry of any size, or the first address in any page, two programs would be fixed alike.
pub fn two_are_fixed_alike()
    ensures { TwoAreFixedAlike }
{}
