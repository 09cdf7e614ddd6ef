use crate::Step;
use pl_base::Rows;
use pl_stage::Held;

/// A folder that is settled, with nothing to recover, and its loan: nothing else acts on it in between.
pub struct Settled<'a, D> {
    pub(crate) held: &'a mut Held<D>,
}

/// The loan of a folder in which a run was stopped: nothing is done with it but to end it.
pub struct Stopped<'a, D> {
    pub(crate) held: &'a mut Held<D>,
}

/// Changes that are staged and not yet committed, what does them, and the loan of the folder.
pub struct Staged<'a, D> {
    pub(crate) held: &'a mut Held<D>,
    pub(crate) steps: Rows<Step>,
}

/// A committed journal, how many of its rows are done, and the loan of the folder.
pub struct Committed<'a, D> {
    pub(crate) held: &'a mut Held<D>,
    pub(crate) steps: Rows<Step>,
    pub(crate) done: usize,
}
