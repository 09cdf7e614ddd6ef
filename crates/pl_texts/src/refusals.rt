// The texts of causes, and the lines of refusals.
ghost use Rattle.std.specs.Prelude.{◌≡◌, IfOk, string_bytes};
ghost use Rattle.pl_texts.specs.Refusals as spec;

use crate::cause::Cause;
use crate::symbol_text::push_symbol;
use pl_base::{Rows, Text};
use pl_loader::LoadFault;
use pl_rewrite::Skip;
use pl_value::NamedFault;
use std::alloc::{AllocError, Global};

/// The text of a cause that tells nothing more.
fn bare(alloc: Global, cause: &str) -> Result<Vec<u8>, AllocError>
    ensures { IfOk result (λ text. text.items ≡ cause.now) }
{
    let mut text = Vec::new(alloc);
    text.extend_from_slice(cause.as_bytes())?;
    Ok(text)
}

/// The text of a cause that tells a file's name.
#[tactic(auto, unfolding(crate::specs::Refusals::named))]
fn named(alloc: Global, cause: &str, name: &Text) -> Result<Vec<u8>, AllocError>
    ensures { IfOk result (λ text. text.items ≡ spec.named cause.now name.now) }
{
    let name = name.as_str();
    Ok(format!(in alloc; "{cause} {name}")?.into_bytes())
}

/// The text of a cause that tells a number.
#[tactic(auto, unfolding(crate::specs::Refusals::numbered))]
fn numbered(alloc: Global, cause: &str, number: u64) -> Result<Vec<u8>, AllocError>
    ensures { IfOk result (λ text. text.items ≡ spec.numbered cause.now number) }
{
    Ok(format!(in alloc; "{cause} {number}")?.into_bytes())
}

/// The text of a cause that tells an object's name and a symbol's.
#[tactic(auto, unfolding(crate::specs::Refusals::link_text))]
fn link_text(
    alloc: Global,
    cause: &str,
    object: &Text,
    symbol: &Option<Rows<u8>>,
) -> Result<Vec<u8>, AllocError>
    ensures { IfOk result (λ text.
        text.items ≡ spec.link_text cause.now object.now symbol.now) }
{
    let object = object.as_str();
    let mut text = format!(in alloc; "{cause} {object} ")?.into_bytes();
    push_symbol(&mut text, symbol)?;
    Ok(text)
}

/// The text of a link refusal by names.
fn fault_text(alloc: Global, fault: &NamedFault) -> Result<Vec<u8>, AllocError>
    ensures { IfOk result (λ text. text.items ≡ spec.link_fault_text fault.now) }
{
    link_text(alloc, fault.cause.name(), &fault.object, &fault.symbol)
}

/// Whether a refusal by the acceptance clause has an argument: a tag's number or a relocation's kind.
fn has_argument(clause: u32) -> bool
    ensures { result ≡ spec.has_argument clause }
{
    matches!(clause, 10 | 11 | 23)
}

/// The text of a refusal by an acceptance clause.
#[tactic(auto, unfolding(crate::specs::Refusals::refused))]
fn refused(alloc: Global, name: &Text, clause: u32, argument: u64) -> Result<Vec<u8>, AllocError>
    ensures { IfOk result (λ text. text.items ≡ spec.refused name.now clause argument) }
{
    let name = name.as_str();
    if has_argument(clause) {
        Ok(format!(in alloc; "Refused {name} {clause} {argument}")?.into_bytes())
    } else {
        Ok(format!(in alloc; "Refused {name} {clause}")?.into_bytes())
    }
}

/// The text of a fault of a recipe.
#[tactic(auto, unfolding(crate::specs::Refusals::recipe_text))]
fn recipe_text(alloc: Global, number: u32, kind: u8) -> Result<Vec<u8>, AllocError>
    ensures { IfOk result (λ text. text.items ≡ spec.recipe_text number kind) }
{
    Ok(format!(in alloc; "Recipe {number} {kind}")?.into_bytes())
}

/// The text of a library without a slot.
#[tactic(auto, using(pl_base::proofs::HexLaws::hex16_format), unfolding(crate::specs::Refusals::no_slot))]
fn no_slot(alloc: Global, name: &Text, span: u64, hole: u64) -> Result<String, AllocError>
    ensures { IfOk result (λ text. string_bytes text ≡ spec.no_slot name.now span hole) }
{
    let name = name.as_str();
    format!(in alloc; "NoSlot {name} {span:016x} {hole:016x}")
}

/// The text of a file without a form.
#[tactic(auto, unfolding(crate::specs::Refusals::form_text))]
fn form_text(alloc: Global, name: &Text, number: u32) -> Result<Vec<u8>, AllocError>
    ensures { IfOk result (λ text. text.items ≡ spec.form_text name.now number) }
{
    let name = name.as_str();
    Ok(format!(in alloc; "Form {name} {number}")?.into_bytes())
}

/// The text of a fault of a load. No load means a want of memory, so the text of `NoMemory` is never printed.
#[tactic(auto, unfolding(crate::specs::Refusals::load_fault_text))]
fn load_text(alloc: Global, fault: &LoadFault) -> Result<Vec<u8>, AllocError>
    ensures { IfOk result (λ text. text.items ≡ spec.load_fault_text fault.now) }
{
    match fault {
        LoadFault::NotThere(name) => named(alloc, "NotThere", name),
        LoadFault::BadMark(name) => named(alloc, "BadMark", name),
        LoadFault::Refused {
            name,
            number,
            argument,
        } => refused(alloc, name, *number, *argument),
        LoadFault::NotProgram(name) => named(alloc, "NotProgram", name),
        LoadFault::NeededIsProgram(name) => named(alloc, "NeededIsProgram", name),
        LoadFault::TooMany(name) => named(alloc, "TooMany", name),
        LoadFault::TlsTooLarge => bare(alloc, "TlsTooLarge"),
        LoadFault::NoPlace(name) => named(alloc, "NoPlace", name),
        LoadFault::Link(fault) => fault_text(alloc, fault),
        LoadFault::NoMemory => bare(alloc, "NoMemory"),
    }
}

/// The text of why a name is not prelinked. No run means a want of memory, so the text of `NoMemory` is never printed.
#[tactic(auto, unfolding(crate::specs::Refusals::skip_text))]
pub fn skip_text(alloc: Global, cause: &Skip) -> Result<Vec<u8>, AllocError>
    ensures { IfOk result (λ text. text.items ≡ spec.skip_text cause.now) }
{
    match cause {
        Skip::NotThere(name) => named(alloc, "NotThere", name),
        Skip::BadMark(name) => named(alloc, "BadMark", name),
        Skip::Refused {
            name,
            number,
            argument,
        } => refused(alloc, name, *number, *argument),
        Skip::Static(name) => named(alloc, "Static", name),
        Skip::NeededIsProgram(name) => named(alloc, "NeededIsProgram", name),
        Skip::TooMany(name) => named(alloc, "TooMany", name),
        Skip::Form { name, number } => form_text(alloc, name, *number),
        Skip::TlsTooLarge => bare(alloc, "TlsTooLarge"),
        Skip::Link(fault) => fault_text(alloc, fault),
        Skip::NoMemory => bare(alloc, "NoMemory"),
    }
}

/// The text of why a command is refused.
#[tactic(auto, unfolding(crate::specs::Refusals::cause_text))]
pub fn cause_text(alloc: Global, cause: &Cause) -> Result<Vec<u8>, AllocError>
    ensures { IfOk result (λ text. text.items ≡ spec.cause_text cause.now) }
{
    match cause {
        Cause::BadName => bare(alloc, "BadName"),
        Cause::BadJournal => bare(alloc, "BadJournal"),
        Cause::FileTooLarge(name) => named(alloc, "FileTooLarge", name),
        Cause::Load(fault) => load_text(alloc, fault),
        Cause::InputTooLarge => bare(alloc, "InputTooLarge"),
        Cause::Recipe { number, kind } => recipe_text(alloc, *number, *kind),
        Cause::Script(line) => numbered(alloc, "Script", *line),
        Cause::TooManyFiles => bare(alloc, "TooManyFiles"),
        Cause::BadCache => bare(alloc, "BadCache"),
        Cause::FolderTooLarge => bare(alloc, "FolderTooLarge"),
        Cause::NoSlot { name, span, hole } => {
            Ok(no_slot(alloc, name, *span, *hole)?.into_bytes())
        }
        Cause::StampsSpent(stamp) => numbered(alloc, "StampsSpent", u64::from(*stamp)),
        Cause::NotPie(name) => named(alloc, "NotPie", name),
        Cause::NotFixed(name) => named(alloc, "NotFixed", name),
    }
}

/// The line of a refusal.
#[tactic(auto, unfolding(crate::specs::Refusals::refusal))]
pub fn refusal(alloc: Global, cause: &Cause) -> Result<Vec<u8>, AllocError>
    ensures { IfOk result (λ line. line.items ≡ spec.refusal cause.now) }
{
    let text = cause_text(alloc, cause)?;
    let mut line = Vec::new(alloc);
    line.extend_from_slice(b"refused ")?;
    line.extend_from_slice(&text)?;
    line.extend_from_slice(b"\n")?;
    Ok(line)
}
