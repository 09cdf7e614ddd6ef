ghost use Rattle.law_demo.specs.Relocs.{PlannedRelocsAreRead, PlannedRelocsAreTaken};

/// A law: both tables of relocations of a modest recipe are read as the recipe's relocations, those of jump slots behind the others.
pub fn relocs_are_read()
    ensures { PlannedRelocsAreRead }
{}

/// A law: acceptance clauses 23 to 29 take the relocations of a modest recipe.
pub fn relocs_are_taken()
    ensures { PlannedRelocsAreTaken }
{}
