ghost use Rattle.std.specs.Prelude.{◌≡◌, IfOk};

use std::alloc::{AllocError, Global};
use std::marker::Model;
use std::rc::RcStr;

/// Where the bytes of a text stand.
#[derive(Drop)]
enum TextBytes {
    /// In memory of its own.
    Own(String),

    /// In memory that texts share.
    Shared(RcStr),
}

/// A name or another text. Contracts see it as its bytes.
#[derive(Drop)]
pub struct Text {
    place: TextBytes,
}

impl Model for Text {
    ghost use Rattle.std.specs.Prelude.{List, ℕ};
    ghost use Rattle.pl_base.specs.Text.{bytes_at};

    ghost Value = { List ℕ };

    ghost view = { λ s. bytes_at s.place };
}

impl Text {
    /// A copy of a text. It fails only for want of memory.
    pub fn copy_of(alloc: Global, text: &str) -> Result<Text, AllocError>
        ensures { IfOk result (λ t. t ≡ text.now) }
    {
        let text = String::from_str(alloc, text)?;
        Ok(Text {
            place: TextBytes::Own(text),
        })
    }

    /// A copy of a text whose memory `again` shares. It fails only for want of memory.
    pub fn to_share(alloc: Global, text: &str) -> Result<Text, AllocError>
        ensures { IfOk result (λ t. t ≡ text.now) }
    {
        let text = RcStr::from_str(alloc, text)?;
        Ok(Text {
            place: TextBytes::Shared(text),
        })
    }

    /// The text once more: one of `to_share` shares its memory, of any other it is a copy. It fails only for want of memory.
    pub fn again(&self, alloc: Global) -> Result<Text, AllocError>
        ensures { IfOk result (λ t. t ≡ self.now) }
    {
        match &self.place {
            TextBytes::Own(text) => Text::copy_of(alloc, text.as_str()),
            TextBytes::Shared(text) => {
                let text = text.clone()?;
                Ok(Text {
                    place: TextBytes::Shared(text),
                })
            }
        }
    }

    /// The text, lent.
    pub fn as_str(&self) -> &str
        ensures { result.now ≡ self.now }
    {
        match &self.place {
            TextBytes::Own(text) => text.as_str(),
            TextBytes::Shared(text) => text.as_str(),
        }
    }
}
