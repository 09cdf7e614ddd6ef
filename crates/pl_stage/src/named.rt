ghost use Rattle.std.specs.Prelude.{◌≡◌, ℕ, List};

/// A name that is lent.
pub trait Named: Drop {
    /// Its bytes.
    ghost text: { Self → List ℕ };

    /// The name as text.
    fn text(&self) -> &str
        ensures { result.now ≡ text self.now };
}

impl Named for &str {
    ghost text = { λ name. name.now };

    fn text(&self) -> &str {
        *self
    }
}
