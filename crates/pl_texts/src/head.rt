// The lines of a start before those of the words.
ghost use Rattle.std.specs.Prelude.{◌≡◌, ◌++◌, IfOk, OnOk, string_bytes};
ghost use Rattle.std.specs.List.{flat_map};
ghost use Rattle.pl_texts.specs.LoadText as spec;

use pl_loader::{Placed, Started, TlsModule};
use std::alloc::{AllocError, Global};

/// The line of an object.
#[tactic(auto, using(pl_base::proofs::HexLaws::hex16_format), unfolding(crate::specs::LoadText::object_line))]
fn object_line(alloc: Global, object: &Placed) -> Result<String, AllocError>
    ensures { IfOk result (λ text. string_bytes text ≡ spec.object_line object.now) }
{
    let (start, end, name) = (object.start, object.end, object.name.as_str());
    format!(in alloc; "object {start:016x} {end:016x} {name}\n")
}

/// The line of an object with thread-local storage.
#[tactic(auto, using(pl_base::proofs::HexLaws::hex16_format), unfolding(crate::specs::LoadText::tls_line))]
fn tls_line(alloc: Global, tls: &TlsModule) -> Result<String, AllocError>
    ensures { IfOk result (λ text. string_bytes text ≡ spec.tls_line tls.now) }
{
    let (number, offset, name) = (tls.number, tls.offset, tls.name.as_str());
    format!(in alloc; "tls {number} {offset:016x} {name}\n")
}

#[tactic(auto, using(pl_base::proofs::HexLaws::hex16_format), unfolding(crate::specs::LoadText::entry_line))]
fn entry_line(alloc: Global, entry: u64) -> Result<String, AllocError>
    ensures { IfOk result (λ text. string_bytes text ≡ spec.entry_line entry) }
{
    format!(in alloc; "entry {entry:016x}\n")
}

fn push_objects(alloc: Global, out: &mut Vec<u8>, objects: &[Placed]) -> Result<(), AllocError>
    ensures { OnOk result
        (out.new.items ≡ out.old.items ++ flat_map spec.object_line objects.now) }
{
    for object in objects {
        let line = object_line(alloc, object)?;
        out.extend_from_slice(line.as_bytes())?;
    }
    Ok(())
}

fn push_modules(alloc: Global, out: &mut Vec<u8>, modules: &[TlsModule]) -> Result<(), AllocError>
    ensures { OnOk result (out.new.items ≡ out.old.items ++ flat_map spec.tls_line modules.now) }
{
    for tls in modules {
        let line = tls_line(alloc, tls)?;
        out.extend_from_slice(line.as_bytes())?;
    }
    Ok(())
}

/// The line of the path: from the prelinked files as they stand, or from the originals, linked.
#[tactic(auto, unfolding(crate::specs::LoadText::path_line))]
fn path_line(started: &Started<'_>) -> &'static [u8]
    ensures { result.now ≡ spec.path_line started.now.fast }
{
    if started.fast { b"fast\n" } else { b"slow\n" }
}

/// The lines before those of the words: the path, the objects and the modules in scope order, and the entry.
#[tactic(auto, unfolding(crate::specs::LoadText::head_text))]
pub fn head_text(alloc: Global, started: &Started<'_>) -> Result<Vec<u8>, AllocError>
    ensures { IfOk result (λ text.
        text.items ≡ spec.head_text started.now.fast started.now.objects
        started.now.modules started.now.entry) }
{
    let mut head = Vec::new(alloc);
    head.extend_from_slice(path_line(started))?;
    push_objects(alloc, &mut head, started.objects.as_slice())?;
    push_modules(alloc, &mut head, started.modules.as_slice())?;
    let entry = entry_line(alloc, started.entry)?;
    head.extend_from_slice(entry.as_bytes())?;
    Ok(head)
}
