// The start of a load whose files were all given.
ghost use Rattle.std.specs.Prelude.{◌≡◌, ◌≤◌, length, true, Err, IfOk, IfErr};
ghost use Rattle.pl_base.specs.Answers.{Answers};
ghost use Rattle.pl_place.specs.Policy as policy;
ghost use Rattle.pl_scope.specs.declared.constants.TheConstants.{MAX_MEMBERS};
ghost use Rattle.pl_loader.specs.Fast.{fast_image, is_fast as is_fast_spec};
ghost use Rattle.pl_loader.specs.Faults.{is_memory};
ghost use Rattle.pl_loader.specs.Loading.{AreFiles, ArePlacedFiles};
ghost use Rattle.pl_loader.specs.Started as spec;

use crate::bounds::all_placed;
use crate::fast::is_fast;
use crate::linking::linked;
use crate::modules::{modules, tls_modules};
use crate::placing::places;
use crate::standing::standing;
use crate::{LoadFault, ObjectFile, Started};
use pl_elf::Range;
use pl_image::Image;
use pl_place::{Holes, Placer};
use pl_tls::Module;
use pl_value::Places;
use std::alloc::Global;

/// The entry of the first object, which is the program.
fn entry_of(files: &[ObjectFile]) -> u64
    ensures { result ≡ spec.entry_of files.now }
{
    match files {
        [] => 0,
        [program, ..] => program.object.entry,
    }
}

/// The memory of files at their places: of the prelinked files as they stand, where all conditions of it hold; else of the originals, linked, or the first link refusal.
#[tactic(auto, unfolding(crate::specs::Started::imaged))]
fn imaged<'a>(
    alloc: Global,
    files: &'a [ObjectFile],
    places: &Places,
    modules: &[Module],
) -> Result<Image<'a>, LoadFault>
    requires files { AreFiles files.now }
    requires few { length files.now ≤ MAX_MEMBERS }
    requires one_each { length places.now ≡ length files.now }
    requires placed { ArePlacedFiles places.now files.now }
    ensures ok { IfOk result (λ image. spec.IsLinked image files.now places.now
        (spec.imaged files.now places.now modules.now)) }
    ensures stands { IfOk result (λ image. is_fast_spec files.now places.now ≡ true → image
        ≡ fast_image files.now places.now) }
    ensures err { IfErr result (λ fault. Answers is_memory (Err fault)
        (spec.imaged files.now places.now modules.now)) }
{
    if is_fast(files, places.as_slice()) {
        standing(alloc, files, places.as_slice())
    } else {
        linked(alloc, files, places, modules)
    }
}

/// What files start from, the program first: modules, places and memory, or the first cause why not, in this order.
pub fn started<'a, F: Fn(&Holes, u64, u64) -> Option<u64>>(
    alloc: Global,
    placer: &Placer<F>,
    busy: Option<Range>,
    files: &'a [ObjectFile],
) -> Result<Started<'a>, LoadFault>
    requires may { policy.MayChoose (F.pre placer.now) }
    requires chooses { policy.Chooses (F.post placer.now) }
    requires files { AreFiles files.now }
    requires few { length files.now ≤ MAX_MEMBERS }
    ensures ok { IfOk result (spec.StartsBy (F.post placer.now) busy files.now) }
    ensures err { IfErr result (spec.FailsBy (F.post placer.now) busy files.now) }
{
    let modules = modules(alloc, files)?;
    let rows = places(alloc, placer, busy, files)?;
    let places = Places::new(rows);
    let image = imaged(alloc, files, &places, modules.as_slice())?;
    Ok(Started {
        fast: is_fast(files, places.as_slice()),
        objects: all_placed(alloc, files, places.as_slice())?,
        modules: tls_modules(alloc, files, modules.as_slice())?,
        entry: entry_of(files),
        image,
    })
}
