// The load of a folder's program by its name.
ghost use Rattle.std.specs.Prelude.{◌≡◌, None, IfErr, IfOk};
ghost use Rattle.pl_scope.specs.Walking.{wants};
ghost use Rattle.pl_cli.specs.Came.{HasLoaded, IsNotStarted, IsStarted};
ghost use Rattle.pl_texts.specs.Files.{Unasked};
ghost use Rattle.pl_cli.specs.Load.{MayStart};

use crate::given::given;
use pl_base::is_valid_name;
use pl_elf::Range;
use pl_folder::Folder;
use pl_loader::{Loader, Started};
use pl_place::{Holes, Placer};
use pl_texts::{Cause, Stop};
use pl_words::Policy;
use std::alloc::Global;

/// The load of a name that was given the files of its whole walk, one after the other as it wanted them; or the first cause that came before. A position-independent program is loaded as the one that it becomes where the policy places it. For a name that is not valid the folder is not asked.
pub fn load<'p, D: Folder, F>(
    alloc: Global,
    folder: &mut D,
    name: &str,
    busy: Option<Range>,
    asked: Policy,
    placer: &'p Placer<F>,
) -> Result<Loader<'p, F>, Stop>
    ensures loaded { HasLoaded asked name.now result (D.seen folder.old) (D.seen folder.new) }
    ensures all { IfOk result (λ loader. wants loader.walk.order ≡ None) }
    ensures busy { IfOk result (λ loader. loader.busy ≡ busy) }
    ensures policy { IfOk result (λ loader. loader.policy ≡ placer.entry.now) }
    ensures unasked { Unasked name.now folder.old folder.new }
{
    if !is_valid_name(name.as_bytes()) {
        return Err(Stop::Cause(Cause::BadName));
    }
    let mut loader = Loader::new(alloc, name, busy, placer)?;
    while let Some(wanted) = loader.wants() {
        let file = given(alloc, folder, name, wanted, asked)?;
        loader.give(alloc, Some(file))?;
    }
    Ok(loader)
}

/// What a program starts from whose files were all given, or the first cause why it does not.
pub fn start<'l, F: Fn(&Holes, u64, u64) -> Option<u64>>(
    alloc: Global,
    loader: &'l Loader<'_, F>,
) -> Result<Started<'l>, Stop>
    requires { MayStart F.pre F.post loader.now }
    ensures ok { IfOk result (IsStarted (F.post loader.now.policy) loader.now) }
    ensures stop { IfErr result (IsNotStarted (F.post loader.now.policy) loader.now) }
{
    Ok(loader.start(alloc)?)
}
