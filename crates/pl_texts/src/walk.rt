// The walk of a name over a folder's files.
ghost use Rattle.std.specs.Prelude.{◌≡◌, ◌<◌, ◌^◌, IfErr, IfOk, Ok, length};
ghost use Rattle.pl_base.specs.Answers.{because};
ghost use Rattle.pl_loader.specs.Faults.{of_file};
ghost use Rattle.pl_scope.specs.Scope.{IsAccepted};
ghost use Rattle.pl_texts.specs.Finds.{HasObject, HasWalked};
ghost use Rattle.pl_texts.specs.Files.{Unasked};
ghost use Rattle.pl_texts.specs.Order as spec;
ghost use Rattle.pl_texts.specs.Order.{AreMembers};
ghost use Rattle.pl_texts.specs.Stops.{StopsAlone, of_load_fault};

use crate::cause::Cause;
use crate::named_object::NamedObject;
use crate::stop::Stop;
use crate::taking::take;
use pl_base::{Text, is_valid_name};
use pl_folder::Folder;
use pl_form::{File, FileFault, read_file};
use pl_loader::LoadFault;
use pl_object::{Object, Refusal};
use pl_scope::Order;
use std::alloc::{AllocError, Global};

/// The object of a file: a prelinked one has that of its original.
fn object_by(file: File) -> Object
    ensures { result ≡ spec.object_by file }
{
    match file {
        File::Plain(object) => object,
        File::Marked(marked) => marked.object,
    }
}

/// Why the file of a name has no object.
fn refused(alloc: Global, name: &str, fault: FileFault) -> Result<Stop, AllocError>
    ensures { IfOk result (λ stop. stop ≡ of_load_fault (of_file name.now fault)) }
{
    Ok(match fault {
        FileFault::BadMark => Stop::from(LoadFault::BadMark(Text::copy_of(alloc, name)?)),
        FileFault::Refused(Refusal::Clause { number, argument }) => {
            Stop::from(LoadFault::Refused {
                name: Text::copy_of(alloc, name)?,
                number,
                argument,
            })
        }
        FileFault::Refused(Refusal::NoMemory) => Stop::NoMemory,
    })
}

/// The object that the file of a name has.
fn object_of(alloc: Global, name: &str, bytes: &[u8]) -> Result<Object, Stop>
    requires { length bytes.now < 2 ^ 32 }
    ensures ok { IfOk result (λ o. spec.original bytes.now ≡ Ok o) }
    ensures accepted { IfOk result IsAccepted }
    ensures stop { IfErr result (StopsAlone (because (spec.refused_file name.now)
        (spec.original bytes.now))) }
{
    match read_file(alloc, bytes) {
        Ok(file) => Ok(object_by(file)),
        Err(fault) => Err(refused(alloc, name, fault)?),
    }
}

/// The object of a name that a walk wants, with the name.
fn named_object<D: Folder>(alloc: Global, folder: &mut D, name: &str) -> Result<NamedObject, Stop>
    ensures object { HasObject name.now result (D.seen folder.old) (D.seen folder.new) }
    ensures name { IfOk result (λ m. m.name ≡ name.now) }
    ensures accepted { IfOk result (λ m. IsAccepted m.object) }
{
    let bytes = take(alloc, folder, name)?;
    let object = object_of(alloc, name, &bytes)?;
    Ok(NamedObject {
        name: Text::copy_of(alloc, name)?,
        object,
    })
}

/// The names of the walk of a name with their objects, whose files are taken one after the other as the walk wants them; or the first cause that came before. A library has a walk as a program has. For a name that is not valid the folder is not asked.
pub fn walk<D: Folder>(alloc: Global, folder: &mut D, name: &str) -> Result<Vec<NamedObject>, Stop>
    ensures walked { HasWalked name.now result (D.seen folder.old) (D.seen folder.new) }
    ensures members { IfOk result (λ members. AreMembers members.items) }
    ensures unasked { Unasked name.now folder.old folder.new }
{
    if !is_valid_name(name.as_bytes()) {
        return Err(Stop::Cause(Cause::BadName));
    }
    let mut order = Order::new(alloc, name)?;
    let mut members = Vec::new(alloc);
    while let Some(wanted) = order.wants() {
        let member = named_object(alloc, folder, wanted)?;
        order.give(alloc, &member.object)?;
        members.push(member)?;
    }
    Ok(members)
}
