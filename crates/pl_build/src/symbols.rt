// The order of the symbols.
ghost use Rattle.std.specs.Prelude.{◌≡◌, ◌++◌, ◌∷◌, [], IfOk, OnOk, filter};
ghost use Rattle.pl_build.specs.NamedSymbols as named;
ghost use Rattle.pl_build.specs.Symbols as spec;

use crate::line::SymbolLine;
use crate::recipe::Settings;
use crate::words::copy_of;
use pl_base::Rows;
use pl_hash::gnu_hash;
use std::alloc::{AllocError, Global};

/// The bucket of a hash in a table of so many buckets.
#[tactic(auto, unfolding(crate::specs::Symbols::bucket_of))]
pub fn bucket_of(buckets: u64, hash: u32) -> u64
    ensures { result ≡ spec.bucket_of buckets hash }
{
    if buckets == 0 {
        0
    } else {
        u64::from(hash) % buckets
    }
}

#[tactic(auto, unfolding(crate::specs::Symbols::bucket))]
fn bucket(settings: &Settings, symbol: &SymbolLine) -> u64
    ensures { result ≡ spec.bucket settings.now symbol.now }
{
    if settings.hashes.gnu {
        bucket_of(settings.buckets, gnu_hash(symbol.name.as_slice()))
    } else {
        0
    }
}

#[tactic(auto, unfolding(crate::specs::Symbols::is_in))]
fn is_in(settings: &Settings, number: u64, symbol: &SymbolLine) -> bool
    ensures { result ≡ spec.is_in settings.now number symbol.now }
{
    symbol.defined && bucket(settings, symbol) == number
}

/// A symbol with copies of its names, of which nothing else is said.
pub fn named_symbol(
    alloc: Global,
    written: &[u8],
    name: &[u8],
    version: &[u8],
    file: &[u8],
) -> Result<SymbolLine, AllocError>
    ensures { IfOk result (λ s. s ≡ named.named_symbol written.now name.now version.now file.now) }
{
    let written = copy_of(alloc, written)?;
    let name = copy_of(alloc, name)?;
    let version = copy_of(alloc, version)?;
    let file = copy_of(alloc, file)?;
    Ok(SymbolLine {
        defined: false,
        written,
        name,
        version,
        default_version: false,
        file,
        bind: 0,
        kind: 0,
        visibility: 0,
        placed: false,
        offset: 0,
        size: 0,
    })
}

/// A copy of a symbol.
pub fn copy_symbol(alloc: Global, symbol: &SymbolLine) -> Result<SymbolLine, AllocError>
    ensures { IfOk result (λ s. s ≡ symbol.now) }
{
    let named = named_symbol(
        alloc,
        symbol.written.as_slice(),
        symbol.name.as_slice(),
        symbol.version.as_slice(),
        symbol.file.as_slice(),
    )?;
    Ok(SymbolLine {
        written: named.written,
        name: named.name,
        version: named.version,
        file: named.file,
        ..*symbol
    })
}

/// Adds a copy of a symbol.
fn push_copy(
    alloc: Global,
    to: &mut Rows<SymbolLine>,
    symbol: &SymbolLine,
) -> Result<(), AllocError>
    ensures { OnOk result (to.new ≡ to.old ++ symbol.now ∷ []) }
{
    to.push(copy_symbol(alloc, symbol)?)
}

fn keep_undefined(
    alloc: Global,
    to: &mut Rows<SymbolLine>,
    symbol: &SymbolLine,
) -> Result<(), AllocError>
    ensures { OnOk result (to.new ≡ spec.kept (spec.is_undefined symbol.now) symbol.now to.old) }
{
    if symbol.defined {
        Ok(())
    } else {
        push_copy(alloc, to, symbol)
    }
}

fn undefined(alloc: Global, symbols: &[SymbolLine]) -> Result<Rows<SymbolLine>, AllocError>
    ensures { IfOk result (λ v. v ≡ filter spec.is_undefined symbols.now) }
{
    let mut to = Rows::new(alloc);
    for symbol in symbols {
        keep_undefined(alloc, &mut to, symbol)?;
    }
    Ok(to)
}

fn keep_in(
    alloc: Global,
    to: &mut Rows<SymbolLine>,
    settings: &Settings,
    number: u64,
    symbol: &SymbolLine,
) -> Result<(), AllocError>
    ensures { OnOk result (to.new ≡ spec.kept (spec.is_in settings.now number symbol.now) symbol.now
        to.old) }
{
    if is_in(settings, number, symbol) {
        push_copy(alloc, to, symbol)
    } else {
        Ok(())
    }
}

fn add_bucket(
    alloc: Global,
    to: &mut Rows<SymbolLine>,
    settings: &Settings,
    number: u64,
    symbols: &[SymbolLine],
) -> Result<(), AllocError>
    ensures { OnOk result (to.new ≡ to.old
        ++ filter (spec.is_in settings.now number) symbols.now) }
{
    for symbol in symbols {
        keep_in(alloc, to, settings, number, symbol)?;
    }
    Ok(())
}

/// The symbols in the order of the symbol table.
#[tactic(auto, unfolding(crate::specs::Symbols::ordered))]
pub fn ordered(
    alloc: Global,
    settings: &Settings,
    symbols: &[SymbolLine],
) -> Result<Rows<SymbolLine>, AllocError>
    ensures { IfOk result (λ v. v ≡ spec.ordered settings.now symbols.now) }
{
    let mut to = undefined(alloc, symbols)?;
    let buckets = settings.buckets;
    for number in 0..buckets {
        add_bucket(alloc, &mut to, settings, number, symbols)?;
    }
    Ok(to)
}
