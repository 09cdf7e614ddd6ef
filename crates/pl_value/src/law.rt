// What holds of the meanings of an accepted scope at disjoint places.
ghost use Rattle.pl_value.specs.Laws.{WordsFit, PlacesAreApart};

/// Laws of what relocations give, over objects that acceptance reads of their files, at places where no PT_LOADs meet: a word has a place of eight bytes, a copy fits its place and stands in a program, and in a library nothing else but a place of no bytes stays as it is; and at most one place is over an address.
pub fn meanings_fit()
    ensures fit { WordsFit }
    ensures apart { PlacesAreApart }
{}
