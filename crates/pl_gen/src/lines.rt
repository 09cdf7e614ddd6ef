// The lines of the recipes, and names.
ghost use Rattle.std.specs.Prelude.{◌≡◌, ◌++◌, codes, string_bytes, IfOk};
ghost use Rattle.pl_gen.specs.Lines as spec;

use std::alloc::{AllocError, Global};

/// The name of a library.
#[tactic(auto, using(crate::proofs::DigitLaws::three_format))]
pub fn library_name(alloc: Global, index: u64) -> Result<String, AllocError>
    ensures { IfOk result (λ text. string_bytes text ≡ spec.library_name index) }
{
    format!(in alloc; "lib{index:03}")
}

/// The name of a program.
#[tactic(auto, using(crate::proofs::DigitLaws::three_format))]
pub fn program_name(alloc: Global, index: u64) -> Result<String, AllocError>
    ensures { IfOk result (λ text. string_bytes text ≡ spec.program_name index) }
{
    format!(in alloc; "prog{index:03}")
}

/// A needed library.
#[tactic(auto, using(crate::proofs::DigitLaws::three_format), unfolding(crate::specs::Lines::needs_line))]
pub fn needs_line(alloc: Global, index: u64) -> Result<String, AllocError>
    ensures { IfOk result (λ text. string_bytes text ≡ spec.needs_line index) }
{
    format!(in alloc; "needs lib{index:03}\n")
}

/// The first words of the line of a function that is defined.
#[tactic(auto, using(crate::proofs::DigitLaws::three_format))]
fn def_front(alloc: Global, number: u64) -> Result<String, AllocError>
    ensures { IfOk result (λ text. string_bytes text ≡ codes "def " ++ spec.function_name number) }
{
    format!(in alloc; "def s{number:03}")
}

/// What stands behind its name.
fn def_back(alloc: Global, offset: u64) -> Result<String, AllocError>
    ensures { IfOk result (λ text. string_bytes text ≡ codes " global func "
        ++ spec.hexadecimal offset ++ codes " 8\n") }
{
    format!(in alloc; " global func {offset:x} 8\n")
}

/// A function that is defined.
pub fn def_line(alloc: Global, offset: u64, number: u64) -> Result<String, AllocError>
    ensures { IfOk result (λ text. string_bytes text ≡ spec.def_line offset number) }
{
    let mut text = def_front(alloc, number)?;
    text.push_str(def_back(alloc, offset)?.as_str())?;
    Ok(text)
}

/// The first words of the line of a library's object.
#[tactic(auto, using(crate::proofs::DigitLaws::three_format))]
fn object_front(alloc: Global, index: u64) -> Result<String, AllocError>
    ensures { IfOk result (λ text. string_bytes text ≡ codes "def " ++ spec.object_name index) }
{
    format!(in alloc; "def o{index:03}")
}

/// The object of a library.
pub fn object_line(alloc: Global, index: u64) -> Result<String, AllocError>
    ensures { IfOk result (λ text. string_bytes text ≡ spec.object_line index) }
{
    let mut text = object_front(alloc, index)?;
    text.push_str(" global object 800 8\n")?;
    Ok(text)
}

/// A function that others define.
#[tactic(auto, using(crate::proofs::DigitLaws::three_format), unfolding(crate::specs::Lines::ref_line))]
pub fn ref_line(alloc: Global, number: u64) -> Result<String, AllocError>
    ensures { IfOk result (λ text. string_bytes text ≡ spec.ref_line number) }
{
    format!(in alloc; "ref s{number:03} weak func\n")
}

/// The copy of a library's object.
#[tactic(auto, using(crate::proofs::DigitLaws::three_format), unfolding(crate::specs::Lines::copy_line))]
pub fn copy_line(alloc: Global, index: u64) -> Result<String, AllocError>
    ensures { IfOk result (λ text. string_bytes text ≡ spec.copy_line index) }
{
    format!(in alloc; "rel copy 800 o{index:03} 0\n")
}

/// A relocation without a symbol.
#[tactic(auto, unfolding(crate::specs::Lines::relative_line))]
pub fn relative_line(alloc: Global, place: u64, addend: u64) -> Result<String, AllocError>
    ensures { IfOk result (λ text. string_bytes text ≡ spec.relative_line place addend) }
{
    format!(in alloc; "rel relative {place:x} - {addend:x}\n")
}

/// A relocation by a function.
#[tactic(auto, using(crate::proofs::DigitLaws::three_format), unfolding(crate::specs::Lines::function_line))]
pub fn function_line(
    alloc: Global,
    kind: &str,
    place: u64,
    number: u64,
) -> Result<String, AllocError>
    ensures { IfOk result (λ text. string_bytes text ≡ spec.function_line kind.now place number) }
{
    format!(in alloc; "rel {kind} {place:x} s{number:03} 0\n")
}
