// Laws of plans.
ghost use Rattle.pl_share.specs.Laws.{ApartRowsGiveThePlan, TogetherIsApart};

/// Over a cache whose rows share no address the plan with the rows that `disjoint` keeps is the plan with all rows. Where each two libraries are loaded together, `plan_shared` gives the plan with the rows that `disjoint` keeps. It does nothing.
pub fn plans_agree()
    ensures apart { ApartRowsGiveThePlan }
    ensures together { TogetherIsApart }
{}
