ghost use Rattle.law_demo.specs.Forms.{PlainFilesAreBare, PlainFilesAreBytes, RoomyObjectsHaveNoFault};

/// A law: the object of a plain recipe with data, at most 16 MiB of zeros and four spare entries of the dynamic table has no form fault under a region that begins 2 MiB above it.
pub fn roomy_objects_have_no_fault()
    ensures { RoomyObjectsHaveNoFault }
{}

/// A law: the file of a plain and modest recipe is bytes, and has no mark of a prelinked file.
pub fn plain_files_are_bare()
    ensures bytes { PlainFilesAreBytes }
    ensures bare { PlainFilesAreBare }
{}
