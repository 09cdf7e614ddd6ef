ghost use Rattle.std.specs.Prelude.{◌≡◌, ℕ, List, []};
ghost use Rattle.pl_base.specs.Names.{IsNameLength};
ghost use Rattle.pl_folder.specs.Calls as calls;
ghost use Rattle.pl_folder.specs.Seen.{Seen};
ghost use Rattle.pl_journal.specs.declared.step.Step.{Step};

use crate::states::{Committed, Settled};
use pl_folder::{Folder, FolderFault};
use pl_stage::Held;
use std::alloc::Global;

/// A state in which files can be taken.
pub trait Takes {
    /// What is seen of its folder.
    ghost seen: { Self → Seen };

    /// Where its loan points.
    ghost referent: { Self → ℕ };

    /// The rows that it holds, and how many of them are done.
    ghost rows: { Self → List Step × ℕ };

    /// The whole file as a read gives it now, at most `STORED` bytes. Faults are those of `take`; else the state is as before.
    fn take_now(&mut self, alloc: Global, name: &str) -> Result<Vec<u8>, FolderFault>
        requires { IsNameLength name.now }
        ensures takes { calls.Takes name.now result (seen self.old) (seen self.new) }
        ensures referent { referent self.new ≡ referent self.old }
        ensures rows { rows self.new ≡ rows self.old };
}

impl<'a, D: Folder> Takes for Settled<'a, D> {
    ghost seen = { λ state. D.seen state.held.now.folder };

    ghost referent = { λ state. state.held.ghost_name };

    ghost rows = { λ state. ([], 0) };

    fn take_now(&mut self, alloc: Global, name: &str) -> Result<Vec<u8>, FolderFault> {
        self.held.folder.take(alloc, name)
    }
}

impl<'a, D: Folder> Takes for Committed<'a, D> {
    ghost seen = { λ state. D.seen state.held.now.folder };

    ghost referent = { λ state. state.held.ghost_name };

    ghost rows = { λ state. (state.steps, state.done) };

    fn take_now(&mut self, alloc: Global, name: &str) -> Result<Vec<u8>, FolderFault> {
        self.held.folder.take(alloc, name)
    }
}

/// A held folder, between the steps of a run that is done one row at a time: it holds no rows of its own.
impl<D: Folder> Takes for Held<D> {
    ghost seen = { λ held. D.seen held.folder };

    ghost referent = { λ held. (D.seen held.folder).referent };

    ghost rows = { λ held. ([], 0) };

    fn take_now(&mut self, alloc: Global, name: &str) -> Result<Vec<u8>, FolderFault> {
        self.folder.take(alloc, name)
    }
}
