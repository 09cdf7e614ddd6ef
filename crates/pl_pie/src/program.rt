// A program that was fixed, with the object that is read of it.
ghost use Rattle.std.specs.Prelude.{◌≡◌};
ghost use Rattle.pl_pie.specs.ReadAs as spec;

use pl_base::Rows;
use pl_object::Object;
use std::marker::Model;

/// A program that was fixed where a policy places it, with the object that is read of it. Contracts see it as its bytes.
#[derive(Drop)]
pub struct FixedProgram {
    bytes: Vec<u8>,
    object: Object,
}

impl Model for FixedProgram {
    ghost use Rattle.std.specs.Prelude.{List, ℕ};
    ghost use Rattle.pl_pie.specs.ReadAs.{IsReadAs};

    ghost Value = { List ℕ };

    ghost view = { λ p. p.bytes.items };

    ghost invariant = { λ p. IsReadAs p.bytes.items p.object };
}

/// The bytes of a program that was fixed, and the object that is read of them.
#[derive(Drop)]
pub struct FixedParts {
    pub bytes: Vec<u8>,
    pub object: Object,
}

impl FixedProgram {
    /// The program of these bytes, of which this object is read, and which is no prelinked file. It takes no memory.
    pub(crate) fn new(bytes: Vec<u8>, object: Object) -> FixedProgram
        requires { spec.IsReadAs bytes.items object }
        ensures { result ≡ bytes.items }
    {
        FixedProgram { bytes, object }
    }

    /// Its bytes. It takes no memory.
    pub fn into_bytes(self) -> Rows<u8>
        ensures { result ≡ self }
    {
        let FixedProgram { bytes, object } = self;
        drop(object);
        Rows::from_vec(bytes)
    }

    /// Its bytes, with the object that is read of them; they are no prelinked file. It takes no memory.
    pub fn into_parts(self) -> FixedParts
        ensures bytes { result.bytes.items ≡ self }
        ensures read { spec.IsReadAs self result.object }
    {
        let FixedProgram { bytes, object } = self;
        FixedParts { bytes, object }
    }
}
