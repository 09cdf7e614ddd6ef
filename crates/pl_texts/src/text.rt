// The texts that a run writes where it is not refused and prints no image.
ghost use Rattle.std.specs.Prelude.{◌≡◌, IfOk, string_bytes};
ghost use Rattle.pl_texts.specs.DoneText as spec;

use crate::content::Content;
use std::alloc::{AllocError, Global};

/// What is printed where the words are no command.
pub const USAGE: &[u8] = b"usage: prelink MODE [OPTIONS] [NAME..]\n";

/// What is printed of a file that is not what prelinking would make of it.
pub const DIFFERS: &[u8] = b"differs\n";

/// The line of a file that was stored.
#[tactic(auto, unfolding(crate::specs::DoneText::stored_text))]
pub fn stored_text(alloc: Global, kind: Content, name: &str) -> Result<String, AllocError>
    ensures { IfOk result (λ text. string_bytes text ≡ spec.stored_text kind name.now) }
{
    match kind {
        Content::File => format!(in alloc; "installed {name}\n"),
        Content::Recipe => format!(in alloc; "made {name}\n"),
    }
}

/// The line of a file that was removed.
#[tactic(auto, unfolding(crate::specs::DoneText::removed_text))]
pub fn removed_text(alloc: Global, name: &str) -> Result<String, AllocError>
    ensures { IfOk result (λ text. string_bytes text ≡ spec.removed_text name.now) }
{
    format!(in alloc; "removed {name}\n")
}

/// The line of a fixed program that was made position-independent again.
#[tactic(auto, unfolding(crate::specs::DoneText::unfixed_text))]
pub fn unfixed_text(alloc: Global, name: &str) -> Result<String, AllocError>
    ensures { IfOk result (λ text. string_bytes text ≡ spec.unfixed_text name.now) }
{
    format!(in alloc; "unfixed {name}\n")
}
