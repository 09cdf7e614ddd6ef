// What a symbol found when it was asked last.
ghost use Rattle.std.specs.Prelude.{◌≡◌};
ghost use Rattle.pl_scope.specs.Kept as spec;

use crate::Found;
use pl_elf::constants::{R_X86_64_COPY, R_X86_64_JUMP_SLOT};

/// A class of relocations: those of one class find the same by a symbol.
#[derive(Clone, Copy)]
pub enum AskedBy {
    /// JUMP_SLOT.
    Jump,

    /// COPY.
    Copy,

    /// Every other kind.
    Other,
}

impl AskedBy {
    /// The class of a kind of relocation.
    #[tactic(auto, unfolding(crate::specs::Kept::class_of))]
    pub fn of(kind: u32) -> AskedBy
        ensures { result ≡ spec.class_of kind }
    {
        match kind {
            R_X86_64_JUMP_SLOT => AskedBy::Jump,
            R_X86_64_COPY => AskedBy::Copy,
            _ => AskedBy::Other,
        }
    }

    /// Whether a kind of relocation is of the class.
    #[tactic(auto, unfolding(crate::specs::Kept::has_kind))]
    pub fn has(self, kind: u32) -> bool
        ensures { result ≡ spec.has_kind self kind }
    {
        match self {
            AskedBy::Jump => kind == R_X86_64_JUMP_SLOT,
            AskedBy::Copy => kind == R_X86_64_COPY,
            AskedBy::Other => kind != R_X86_64_JUMP_SLOT && kind != R_X86_64_COPY,
        }
    }
}

/// What a symbol found when it was asked last, with the class of the relocation that asked. It takes 12 bytes, and a scope has one for each symbol.
#[derive(Clone, Copy)]
pub enum Answer {
    /// It was not asked yet.
    Unasked,

    /// There is no definer.
    Nothing { asked_by: AskedBy },

    /// A definer.
    There { asked_by: AskedBy, found: Found },
}

const _: () = prove!(size_of::<Answer>() == 12);

impl Answer {
    /// What a kind of relocation found.
    pub fn new(kind: u32, found: Option<Found>) -> Answer
        ensures { result ≡ spec.answer_for kind found }
    {
        let asked_by = AskedBy::of(kind);
        match found {
            None => Answer::Nothing { asked_by },
            Some(found) => Answer::There { asked_by, found },
        }
    }

    /// What a kind of relocation finds, if one of its class asked last.
    #[tactic(auto, unfolding(crate::specs::Kept::answer_of))]
    pub fn of(&self, kind: u32) -> Option<Option<Found>>
        ensures { result ≡ spec.answer_of self.now kind }
    {
        match *self {
            Answer::Nothing { asked_by } if asked_by.has(kind) => Some(None),
            Answer::There { asked_by, found } if asked_by.has(kind) => Some(Some(found)),
            _ => None,
        }
    }
}
