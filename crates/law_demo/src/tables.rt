ghost use Rattle.law_demo.specs.Shape.{TablesAreTaken};

/// A law: of a plain recipe's file, the tags and sections say where its tables are, and acceptance clauses 12 to 14 take them.
pub fn tables_are_taken()
    ensures { TablesAreTaken }
{}
