// The versions that are needed of other files, and those files.
ghost use Rattle.std.specs.Prelude.{◌≡◌, IfOk, OnOk};
ghost use Rattle.std.specs.List.{list_any};
ghost use Rattle.std.specs.Str.{bytes_eq};
ghost use Rattle.pl_build.specs.Needed as spec;

use crate::line::SymbolLine;
use crate::names::is;
use crate::words::copy_of;
use pl_base::Rows;
use std::alloc::{AllocError, Global};

/// A version that is needed of a file.
#[derive(Drop)]
pub struct Need {
    pub file: Rows<u8>,
    pub version: Rows<u8>,
}

/// Whether a symbol has the version.
pub fn is_need_of(symbol: &SymbolLine, need: &Need) -> bool
    ensures { result ≡ spec.is_need_of symbol.now need.now }
{
    is(need.file.as_slice(), symbol.file.as_slice())
        && is(need.version.as_slice(), symbol.version.as_slice())
}

/// Whether the version is one of a file.
pub fn is_of(file: &[u8], need: &Need) -> bool
    ensures { result ≡ spec.is_of file.now need.now }
{
    is(need.file.as_slice(), file)
}

fn has_need(needs: &[Need], symbol: &SymbolLine) -> bool
    ensures { result ≡ list_any (spec.is_need_of symbol.now) needs.now }
{
    needs.iter().any(|need| is_need_of(symbol, need))
}

#[tactic(auto, unfolding(crate::specs::Needed::need_added))]
fn add_need(alloc: Global, needs: &mut Rows<Need>, symbol: &SymbolLine) -> Result<(), AllocError>
    ensures { OnOk result (needs.new ≡ spec.need_added needs.old symbol.now) }
{
    if symbol.file.len() == 0 || has_need(needs.as_slice(), symbol) {
        return Ok(());
    }
    let file = copy_of(alloc, symbol.file.as_slice())?;
    let version = copy_of(alloc, symbol.version.as_slice())?;
    needs.push(Need { file, version })
}

/// The versions that symbols need of other files, each once, in the order of their first use.
#[tactic(auto, unfolding(crate::specs::Needed::needs_of))]
pub fn needs_of(alloc: Global, symbols: &[SymbolLine]) -> Result<Rows<Need>, AllocError>
    ensures { IfOk result (λ v. v ≡ spec.needs_of symbols.now) }
{
    let mut needs = Rows::new(alloc);
    for symbol in symbols {
        add_need(alloc, &mut needs, symbol)?;
    }
    Ok(needs)
}

fn has_file(files: &[Rows<u8>], name: &[u8]) -> bool
    ensures { result ≡ list_any (λ file. bytes_eq file name.now) files.now }
{
    files.iter().any(|file| is(file.as_slice(), name))
}

#[tactic(auto, unfolding(crate::specs::Needed::file_added))]
fn add_file(alloc: Global, files: &mut Rows<Rows<u8>>, need: &Need) -> Result<(), AllocError>
    ensures { OnOk result (files.new ≡ spec.file_added files.old need.now) }
{
    if has_file(files.as_slice(), need.file.as_slice()) {
        return Ok(());
    }
    files.push(copy_of(alloc, need.file.as_slice())?)
}

/// The files of needed versions, each once, in the order of their first use.
#[tactic(auto, unfolding(crate::specs::Needed::files_of))]
pub fn files_of(alloc: Global, needs: &[Need]) -> Result<Rows<Rows<u8>>, AllocError>
    ensures { IfOk result (λ v. v ≡ spec.files_of needs.now) }
{
    let mut files = Rows::new(alloc);
    for need in needs {
        add_file(alloc, &mut files, need)?;
    }
    Ok(files)
}
