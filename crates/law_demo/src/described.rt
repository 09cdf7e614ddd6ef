ghost use Rattle.law_demo.specs.Described.{DescribedObjectsAreSettled};

/// A law: the object of a plain and modest recipe with data has symbols that are definitions in the memory of a PT_LOAD or weak references, relocations that change words or copy objects of the recipe, and a definition of each name that the recipe defines.
pub fn described_objects_are_settled()
    ensures { DescribedObjectsAreSettled }
{}
