// Copies of what a loader keeps.
ghost use Rattle.std.specs.Prelude.{◌≡◌, IfOk};
ghost use Rattle.std.specs.Option.{option_map};
ghost use Rattle.pl_weave.specs.Copying as spec;

use pl_base::{Rows, Text};
use pl_loader::LoadFault;
use pl_value::NamedFault;
use std::alloc::{AllocError, Global};

/// A copy of a file, if there is one.
pub fn copy_file(alloc: Global, file: &Option<Vec<u8>>) -> Result<Option<Rows<u8>>, AllocError>
    ensures { IfOk result (λ copy. copy ≡ option_map (λ bytes. bytes.items) file.now) }
{
    match file {
        Some(bytes) => {
            let copy = Vec::from_slice(alloc, bytes.as_slice())?;
            Ok(Some(Rows::from_vec(copy)))
        }
        None => Ok(None),
    }
}

/// The name that a fault has, an empty one where it has none.
fn name_in(fault: &LoadFault) -> &str
    ensures { result.now ≡ spec.name_in fault.now }
{
    match fault {
        LoadFault::NotThere(name) => name.as_str(),
        LoadFault::BadMark(name) => name.as_str(),
        LoadFault::Refused { name, .. } => name.as_str(),
        LoadFault::NotProgram(name) => name.as_str(),
        LoadFault::NeededIsProgram(name) => name.as_str(),
        LoadFault::TooMany(name) => name.as_str(),
        LoadFault::TlsTooLarge => "",
        LoadFault::NoPlace(name) => name.as_str(),
        LoadFault::Link(fault) => fault.object.as_str(),
        LoadFault::NoMemory => "",
    }
}

fn bytes_in(symbol: &Option<Rows<u8>>) -> Option<&[u8]>
    ensures { option_map (λ bytes. bytes.now) result ≡ symbol.now }
{
    match symbol {
        None => None,
        Some(bytes) => Some(bytes.as_slice()),
    }
}

/// The symbol that a link fault has, none of any other.
fn symbol_in(fault: &LoadFault) -> Option<&[u8]>
    ensures { option_map (λ bytes. bytes.now) result ≡ spec.symbol_in fault.now }
{
    match fault {
        LoadFault::Link(fault) => bytes_in(&fault.symbol),
        _ => None,
    }
}

/// A copy of bytes, if there are any.
fn copy_bytes(alloc: Global, bytes: Option<&[u8]>) -> Result<Option<Rows<u8>>, AllocError>
    ensures { IfOk result (λ copy. copy ≡ option_map (λ bytes. bytes.now) bytes.entry) }
{
    match bytes {
        None => Ok(None),
        Some(bytes) => {
            let copy = Vec::from_slice(alloc, bytes)?;
            Ok(Some(Rows::from_vec(copy)))
        }
    }
}

/// A fault of the same kind, with this name and this symbol where it has such.
fn with_names(fault: &LoadFault, name: Text, symbol: Option<Rows<u8>>) -> LoadFault
    ensures { result ≡ spec.with_names name symbol fault.now }
{
    match fault {
        LoadFault::NotThere(_) => LoadFault::NotThere(name),
        LoadFault::BadMark(_) => LoadFault::BadMark(name),
        LoadFault::Refused {
            name: _,
            number,
            argument,
        } => LoadFault::Refused {
            name,
            number: *number,
            argument: *argument,
        },
        LoadFault::NotProgram(_) => LoadFault::NotProgram(name),
        LoadFault::NeededIsProgram(_) => LoadFault::NeededIsProgram(name),
        LoadFault::TooMany(_) => LoadFault::TooMany(name),
        LoadFault::TlsTooLarge => LoadFault::TlsTooLarge,
        LoadFault::NoPlace(_) => LoadFault::NoPlace(name),
        LoadFault::Link(fault) => LoadFault::Link(NamedFault {
            cause: fault.cause,
            object: name,
            symbol,
        }),
        LoadFault::NoMemory => LoadFault::NoMemory,
    }
}

/// A copy of a fault.
#[tactic(auto, using(crate::proofs::CopyLemmas::same_names))]
pub fn copy_fault(alloc: Global, fault: &LoadFault) -> Result<LoadFault, AllocError>
    ensures { IfOk result (λ copy. copy ≡ fault.now) }
{
    let name = Text::copy_of(alloc, name_in(fault))?;
    let symbol = copy_bytes(alloc, symbol_in(fault))?;
    Ok(with_names(fault, name, symbol))
}
