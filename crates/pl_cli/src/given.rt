// The file of a name of the walk of a name that is loaded.
ghost use Rattle.std.specs.Prelude.{◌<◌, ◌^◌, IfOk, length};
ghost use Rattle.pl_cli.specs.Came.{HasGiven};
ghost use Rattle.pl_cli.specs.Load as spec;
ghost use Rattle.pl_texts.specs.Stops.{MeansAlone};

use crate::chosen::chosen;
use pl_folder::Folder;
use pl_loader::{GivenFile, given_file};
use pl_place::{Holes, Placer};
use pl_texts::{Stop, take};
use pl_words::Policy;
use std::alloc::Global;

/// What is loaded of the bytes of the file of a name of its walk: of a position-independent program the one that it becomes where the policy places it; any other file is loaded as it is.
fn given_at(
    alloc: Global,
    name: &str,
    wanted: &str,
    bytes: Vec<u8>,
    asked: Policy,
) -> Result<GivenFile, Stop>
    requires { length bytes.items < 2 ^ 32 }
    ensures means { MeansAlone (spec.given_file asked name.now wanted.now bytes.items) result }
    ensures size { IfOk result (λ file. length file < 2 ^ 32) }
{
    let placer = Placer::new(|holes: &Holes, span: u64, align: u64| chosen(
        asked, holes, span, align,
    ));
    Ok(given_file(alloc, &placer, name, wanted, bytes)?)
}

/// The file that a name of the walk of a name is loaded with, or the first cause why there is none. It is taken as `take` takes it.
pub fn given<D: Folder>(
    alloc: Global,
    folder: &mut D,
    name: &str,
    wanted: &str,
    asked: Policy,
) -> Result<GivenFile, Stop>
    ensures given { HasGiven asked name.now wanted.now result
        (D.seen folder.old) (D.seen folder.new) }
    ensures size { IfOk result (λ file. length file < 2 ^ 32) }
{
    let bytes = take(alloc, folder, wanted)?;
    given_at(alloc, name, wanted, bytes, asked)
}
