// Laws of loaders that open one file after the other.
ghost use Rattle.pl_weave.specs.Laws.{EventsLead, FinishedAreLoads, WovenAreLed};

/// Each event leads a loader on: with one file more it is where the files that it saw lead it, each of the name that it wanted at that event, by a policy that is a function.
pub fn events_lead<F>()
    ensures { EventsLead F }
{}

/// A loader that has finished answers as the whole load of its name over any files that have, under each name that it wanted, the file that it saw; of a position-independent program's own file this load too takes the program that it becomes.
pub fn finished_are_loads<E, F>()
    ensures { FinishedAreLoads E F }
{}

/// Whatever the events are, each loader of a weave is where the files that it saw lead it, each of the name that it wanted.
pub fn woven_are_led()
    ensures { WovenAreLed }
{}
