// A file that is stored from an input.
ghost use Rattle.std.specs.Prelude.{◌≡◌, ◌≤◌, IfOk, false, length};
ghost use Rattle.pl_base.specs.Names.{is_valid_name};
ghost use Rattle.pl_folder.specs.declared.TheConstants.{STORED};
ghost use Rattle.pl_cli.specs.Came.{HasContent, HasStored};
ghost use Rattle.pl_texts.specs.Stops.{MeansAlone};
ghost use Rattle.pl_cli.specs.Writes as spec;
ghost use Rattle.pl_batch.specs.declared.run.Run.TheVariants.{Install};

use pl_base::{Rows, Text};
use pl_batch::{Run, do_run};
use pl_build::build;
use pl_change::recover_for;
use pl_folder::{Folder, STORED};
use pl_io::{Source, read_all};
use pl_texts::{Cause, Content, Stop, stored_text};
use std::alloc::{AllocError, Global};

/// The most bytes of a recipe: 1 MiB.
pub const RECIPE: usize = 1_048_576;

/// The most bytes that an input may have.
fn most_bytes(kind: Content) -> usize
    ensures { result ≡ spec.most_bytes kind }
{
    match kind {
        Content::File => STORED,
        Content::Recipe => RECIPE,
    }
}

/// The file that an input is, or the one that its recipe describes.
fn file_by(alloc: Global, kind: Content, input: Vec<u8>) -> Result<Rows<u8>, Stop>
    requires { length input.items ≤ spec.most_bytes kind }
    ensures { MeansAlone (spec.file_by kind input.items) result }
{
    match kind {
        Content::File => Ok(Rows::from_vec(input)),
        Content::Recipe => Ok(build(alloc, &input)?),
    }
}

/// The file that an input is, or the one that its recipe describes, where a folder stores a file of that size.
fn stored_by(alloc: Global, kind: Content, input: Vec<u8>) -> Result<Rows<u8>, Stop>
    requires { length input.items ≤ spec.most_bytes kind }
    ensures means { MeansAlone (spec.content kind input.items) result }
    ensures size { IfOk result (λ file. length file ≤ STORED) }
{
    let file = file_by(alloc, kind, input)?;
    if file.len() > STORED {
        return Err(Stop::Cause(Cause::InputTooLarge));
    }
    Ok(file)
}

/// The file that is to be stored of an input, or the first cause why there is none.
fn content<S: Source>(alloc: Global, kind: Content, input: &mut S) -> Result<Rows<u8>, Stop>
    ensures content { HasContent kind result (S.seen input.old) (S.seen input.new) }
    ensures size { IfOk result (λ file. length file ≤ STORED) }
{
    let bytes = read_all(alloc, input, most_bytes(kind))?;
    stored_by(alloc, kind, bytes)
}

/// The run that stores a file.
fn install_run(alloc: Global, name: &str, bytes: Rows<u8>) -> Result<Run, AllocError>
    ensures { IfOk result (λ run. run ≡ Install name.now bytes) }
{
    let name = Text::copy_of(alloc, name)?;
    Ok(Run::Install { name, bytes })
}

/// Stores a file of the input under the name, and gives the line that says so; or why it stopped. The folder is recovered first, also for a name that is not valid; then the input is read, but not for such a name.
///
/// The line is there before the name gets its file, so that no want of memory comes after that.
pub fn store<D: Folder, S: Source>(
    alloc: Global,
    name: &str,
    kind: Content,
    folder: &mut D,
    input: &mut S,
) -> Result<Vec<u8>, Stop>
    ensures stored { HasStored name.now kind result
        (D.seen folder.old) (D.seen folder.new) (S.seen input.old) (S.seen input.new) }
    ensures unread { is_valid_name name.now ≡ false → input.new ≡ input.old }
{
    recover_for(alloc, folder, name)?;
    let bytes = content(alloc, kind, input)?;
    let line = stored_text(alloc, kind, name)?;
    let run = install_run(alloc, name, bytes)?;
    do_run(alloc, folder, &run)?;
    Ok(line.into_bytes())
}
