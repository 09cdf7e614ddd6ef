// The memory of the objects, and why there is none.
ghost use Rattle.std.specs.Prelude.{◌≡◌, ◌≤◌, length, map, Ok, Err, IfOk, IfErr};
ghost use Rattle.pl_base.specs.Answers.{Answers};
ghost use Rattle.pl_scope.specs.Scope.{objects};
ghost use Rattle.pl_scope.specs.declared.constants.TheConstants.{MAX_MEMBERS};
ghost use Rattle.pl_loader.specs.Faults.{is_memory};
ghost use Rattle.pl_loader.specs.Loading.{AreFiles, ArePlacedFiles, objects_of, parts_of};
ghost use Rattle.pl_loader.specs.Started as spec;
ghost use Rattle.pl_loader.specs.Walk.{member};
ghost use Rattle.pl_loader.specs.declared.fault.LoadFault.TheVariants as faults;
ghost use Rattle.pl_value.specs.LinkNames as link_names;

use crate::{LoadFault, ObjectFile};
use pl_base::Text;
use pl_image::{Image, Parts};
use pl_io::NoMemory;
use pl_scope::{Member, Scope};
use pl_tls::Module;
use pl_value::{LinkFault, OrdinaryFault, Places, named_fault, ordinary};
use std::alloc::{AllocError, Global};

/// The scope of the files' objects, each by the name of its file.
fn scope<'a>(alloc: Global, files: &'a [ObjectFile]) -> Result<Scope<'a>, AllocError>
    requires files { AreFiles files.now }
    requires few { length files.now ≤ MAX_MEMBERS }
    ensures members { IfOk result (λ scope. scope ≡ map member files.now) }
    ensures objects { IfOk result (λ scope. objects scope ≡ objects_of files.now) }
    ensures count { IfOk result (λ scope. length scope ≡ length files.now) }
{
    let mut members = Vec::new(alloc);
    for file in files {
        members.push(Member {
            name: Text::copy_of(alloc, file.name.as_str())?,
            object: &file.object,
        })?;
    }
    Ok(Scope::new(members))
}

/// The files' bytes, lent.
fn parts<'a>(alloc: Global, files: &'a [ObjectFile]) -> Result<Parts<'a>, NoMemory>
    ensures { IfOk result (λ parts. parts ≡ parts_of files.now) }
{
    let mut parts = Parts::new(alloc);
    for file in files {
        parts.add(file.bytes.as_slice())?;
    }
    Ok(parts)
}

/// A link refusal, by the names of its object and symbol.
fn of_link(alloc: Global, scope: &Scope<'_>, fault: LinkFault) -> Result<LoadFault, AllocError>
    ensures { IfOk result (λ load. load ≡ faults.Link (link_names.named_fault scope.now fault)) }
{
    let named = named_fault(alloc, scope.members(), fault)?;
    Ok(LoadFault::Link(named))
}

/// The memory of the objects at their places, or the first link refusal.
#[tactic(auto, unfolding(crate::specs::Started::linked))]
pub fn linked<'a>(
    alloc: Global,
    files: &'a [ObjectFile],
    places: &Places,
    modules: &[Module],
) -> Result<Image<'a>, LoadFault>
    requires files { AreFiles files.now }
    requires few { length files.now ≤ MAX_MEMBERS }
    requires one_each { length places.now ≡ length files.now }
    requires placed { ArePlacedFiles places.now files.now }
    ensures ok { IfOk result (λ image. spec.IsLinked image files.now places.now
        (spec.linked files.now places.now modules.now)) }
    ensures err { IfErr result (λ fault. Answers is_memory (Err fault)
        (spec.linked files.now places.now modules.now)) }
{
    let scope = scope(alloc, files)?;
    let parts = parts(alloc, files)?;
    match ordinary(alloc, &scope, &parts, places, modules) {
        Ok(image) => Ok(image),
        Err(OrdinaryFault::Link(fault)) => Err(of_link(alloc, &scope, fault)?),
        Err(OrdinaryFault::NoMemory) => Err(LoadFault::NoMemory),
    }
}
