// Laws of the two paths of a load.
ghost use Rattle.law_loads.specs.Loads.{WalksAreOne, PathsAreOne, FastImagesAreOne, ImagesAreOrdinary, StartsAreOrdinary, PlacesAreAt, LoadsAreOrdinary, LoadsOverHistories};

/// The fast path of a loader is the one of the folder's files, whether or not the folder keeps a rule. The files that a load takes of a folder are those of the folder's walk of the name, with their originals and the program's conflict rows. The loader's test of its files at places, one for each, is the folder's: the program's list tells the other files of the walk, each a prelinked one, and each is placed at the slot that it bears. Its image is made of the folder's files as they stand and of the program's conflict rows.
pub fn paths_are_one<E, F>()
    ensures walks { WalksAreOne E F }
    ensures fast { PathsAreOne E F }
    ensures image { FastImagesAreOne E }
{}

/// Where the rule holds at the loaded name, whatever the rest of the folder is: at any places, one for each file and the first at 0, the image on the fast path and on the slow one has at every address the byte of the ordinary image of the originals at these places, and a link is refused just where the originals' is, for the same cause. So a `Started` that is a start at these places has the ordinary image. Whatever addresses a policy chose for the libraries that are not at their slots, the places of a load are such. So the answer of a whole load is that of one which links the originals at the same places, whatever is chosen and whatever is busy: the same objects, modules, entry and bytes, or the same first cause; its path is the fast one exactly where the folder's files allow it at these places.
pub fn loads_are_ordinary<E, F>()
    ensures image { ImagesAreOrdinary E F }
    ensures start { StartsAreOrdinary E F }
    ensures placed { PlacesAreAt }
    ensures load { LoadsAreOrdinary E F }
{}

/// A load that takes each of its files at a moment of its own, while runs and edits change the folder, answers as one that links the originals of the files that it took, whatever is chosen and whatever is busy: where the folder kept the rule at the start, its last stamp was no less than all stamps and rows of lists, and each run has a stamp past the last one. Its path is the fast one exactly where the files that it took allow it at these places.
pub fn loads_over_histories_are_ordinary<E, F>()
    ensures { LoadsOverHistories E F }
{}
