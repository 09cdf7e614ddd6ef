// The relocations of a recipe.
ghost use Rattle.std.specs.Prelude.{◌≡◌, ◌+◌, ◌*◌, ◌≤◌, ◌^◌, ◌++◌, ◌∷◌, [], length, string_bytes, OnOk};
ghost use Rattle.pl_gen.specs.Lines as spec;

use crate::lines::{function_line, ref_line, relative_line};
use crate::relocation_kind::{RelocationKind, kind_of};
use std::alloc::{AllocError, Global};

/// Adds the line of a function's symbol, where it has none yet.
fn push_ref(alloc: Global, out: &mut String, known: &[u64], number: u64) -> Result<(), AllocError>
    ensures { OnOk result (string_bytes out.new ≡ string_bytes out.old
        ++ spec.unless_there known.now number (spec.ref_line number)) }
{
    if !known.contains(&number) {
        out.push_str(ref_line(alloc, number)?.as_str())?;
    }
    Ok(())
}

/// Adds a relocation by a function, behind the line of the function's symbol where that has none yet.
fn push_by_function(
    alloc: Global,
    out: &mut String,
    known: &mut Vec<u64>,
    kind: &str,
    place: u64,
    number: u64,
) -> Result<(), AllocError>
    ensures text { OnOk result (string_bytes out.new ≡ string_bytes out.old
        ++ spec.by_function known.old.items kind.now place number) }
    ensures known { OnOk result (known.new.items ≡ known.old.items ++ number ∷ []) }
{
    push_ref(alloc, out, known, number)?;
    out.push_str(function_line(alloc, kind, place, number)?.as_str())?;
    known.push(number)?;
    Ok(())
}

/// Adds a relocation, by its kind and the word behind that of its kind.
#[tactic(auto, unfolding(crate::specs::Lines::relocation, crate::specs::Lines::known_after))]
fn push_relocation(
    alloc: Global,
    out: &mut String,
    known: &mut Vec<u64>,
    place: u64,
    kind: RelocationKind,
    word: u64,
) -> Result<(), AllocError>
    ensures text { OnOk result (string_bytes out.new ≡ string_bytes out.old
        ++ spec.relocation known.old.items place kind word) }
    ensures known { OnOk result (known.new.items ≡ spec.known_after known.old.items kind word) }
{
    let number = word % 1000;
    match kind {
        RelocationKind::Relative => out.push_str(relative_line(
            alloc,
            place,
            8 * (word % 64),
        )?.as_str()),
        RelocationKind::Abs64 => push_by_function(alloc, out, known, "abs64", place, number),
        RelocationKind::GlobDat => push_by_function(alloc, out, known, "globdat", place, number),
        RelocationKind::JumpSlot => push_by_function(alloc, out, known, "jumpslot", place, number),
    }
}

/// Adds relocations of words from a place on, one for every two words that are drawn, behind the functions that have a symbol already.
pub fn push_relocations(
    alloc: Global,
    out: &mut String,
    functions: Vec<u64>,
    place: u64,
    words: &[u64],
) -> Result<(), AllocError>
    requires { place + 8 * length words.now ≤ 2 ^ 32 }
    ensures { OnOk result (string_bytes out.new ≡ string_bytes out.old
        ++ spec.relocations functions.items place words.now) }
{
    let mut known = functions;
    for turn in 0..words.len() / 2 {
        let (kind, word) = (kind_of(words[2 * turn]), words[2 * turn + 1]);
        push_relocation(alloc, out, &mut known, place + 8 * turn as u64, kind, word)?;
    }
    Ok(())
}
