// The modules of thread-local storage.
ghost use Rattle.std.specs.Prelude.{◌≡◌, ◌<◌, ◌^◌, length, map, IfOk};
ghost use Rattle.pl_base.specs.Answers.{Answers, because};
ghost use Rattle.pl_tls.specs.Layout.{offsets};
ghost use Rattle.pl_loader.specs.Faults.{is_memory, of_tls};
ghost use Rattle.pl_loader.specs.Started as spec;

use crate::{LoadFault, ObjectFile, TlsModule};
use pl_base::{Rows, Text};
use pl_tls::{Block, Module, offsets};
use std::alloc::{AllocError, Global};

/// The thread-local storage of an object, if it has any.
#[tactic(auto, unfolding(crate::specs::Started::block_of))]
fn block_of(file: &ObjectFile) -> Option<Block>
    ensures { result ≡ spec.block_of file.now }
{
    file.object.tls
}

fn blocks(alloc: Global, files: &[ObjectFile]) -> Result<Vec<Option<Block>>, AllocError>
    ensures { IfOk result (λ blocks. blocks.items ≡ spec.blocks files.now) }
{
    let mut blocks = Vec::new(alloc);
    for file in files {
        blocks.push(block_of(file))?;
    }
    Ok(blocks)
}

/// The modules of objects: those with thread-local storage, numbered from 1.
pub fn modules(alloc: Global, files: &[ObjectFile]) -> Result<Rows<Module>, LoadFault>
    requires { length files.now < 2 ^ 32 }
    ensures { Answers is_memory result (because of_tls (offsets (spec.blocks files.now))) }
{
    let blocks = blocks(alloc, files)?;
    Ok(offsets(alloc, &blocks)?)
}

/// A copy of the name of the object of an index, an empty one where there is none.
#[tactic(auto, unfolding(crate::specs::Started::name_of))]
fn name_of(alloc: Global, files: &[ObjectFile], index: u32) -> Result<Text, AllocError>
    ensures { IfOk result (λ name. name ≡ spec.name_of files.now index) }
{
    match files.get(index as usize) {
        None => Text::copy_of(alloc, ""),
        Some(file) => Text::copy_of(alloc, file.name.as_str()),
    }
}

#[tactic(auto, unfolding(crate::specs::Started::tls_module))]
fn tls_module(alloc: Global, files: &[ObjectFile], tls: &Module) -> Result<TlsModule, AllocError>
    ensures { IfOk result (λ named. named ≡ spec.tls_module files.now tls.now) }
{
    Ok(TlsModule {
        number: tls.number,
        offset: tls.offset,
        name: name_of(alloc, files, tls.member)?,
    })
}

/// The modules with the names of their objects.
pub fn tls_modules(
    alloc: Global,
    files: &[ObjectFile],
    modules: &[Module],
) -> Result<Rows<TlsModule>, AllocError>
    ensures { IfOk result (λ rows. rows ≡ map (spec.tls_module files.now) modules.now) }
{
    let mut rows = Rows::new(alloc);
    for tls in modules {
        rows.push(tls_module(alloc, files, tls)?)?;
    }
    Ok(rows)
}
