// Laws of rows and orders.
ghost use Rattle.pl_init.specs.Laws.{PrintedIsEarliest, PrintedIsLawful, PrintedTakesTheEarliest, RightRowsAreReaches, RightRowsGivePrinted, RightRowsShowChains, WalkRowsAreRight};

/// Of each walk rows that are right are the relation "a chain of one or more needed names leads from this member to another", no two of them say the same, and each shows a chain; the rows that `reach` gives are right. It does nothing.
pub fn rows_are_the_relation()
    ensures relation { RightRowsAreReaches }
    ensures chains { RightRowsShowChains }
    ensures right { WalkRowsAreRight }
{}

/// Of each walk the order that is printed has each member once, behind all that have to come before it; each member of it is the earliest in the walk that is ready there, so of all lawful orders it is the earliest; and `order` gives it from all rows that are right. It does nothing.
pub fn printed_order_is_the_earliest()
    ensures lawful { PrintedIsLawful }
    ensures steps { PrintedTakesTheEarliest }
    ensures earliest { PrintedIsEarliest }
    ensures rows { RightRowsGivePrinted }
{}
