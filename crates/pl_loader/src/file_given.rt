// A file that a load is given.
ghost use Rattle.std.specs.Prelude.{◌≡◌, ◌<◌, ◌^◌, IfOk, length};
ghost use Rattle.pl_loader.specs.Given as spec;

use pl_form::bears_mark;
use pl_object::Object;
use pl_pie::{FixedParts, FixedProgram};
use std::alloc::{AllocError, Global};
use std::marker::Model;

/// A file that a load is given, with the object that is read of it where that is known. Contracts see it as its bytes.
#[derive(Drop)]
pub struct GivenFile {
    bytes: Vec<u8>,
    object: Option<Object>,
}

impl Model for GivenFile {
    ghost use Rattle.std.specs.Prelude.{List, ℕ};
    ghost use Rattle.pl_loader.specs.Given.{IsReadIfAny};

    ghost Value = { List ℕ };

    ghost view = { λ f. f.bytes.items };

    ghost invariant = { λ f. IsReadIfAny f.bytes.items f.object };
}

/// The bytes of a file that a load is given, and the object that is read of them where that is known.
#[derive(Drop)]
pub struct GivenParts {
    pub bytes: Vec<u8>,
    pub object: Option<Object>,
}

impl GivenFile {
    /// The file of these bytes, of which nothing is read yet. It takes no memory.
    pub fn new(bytes: Vec<u8>) -> GivenFile
        ensures { result ≡ bytes.items }
    {
        GivenFile {
            bytes,
            object: None,
        }
    }

    /// The file of these bytes, of which this object is read. It takes no memory.
    fn known(bytes: Vec<u8>, object: Object) -> GivenFile
        requires { spec.IsReadPlain bytes.items object }
        ensures { result ≡ bytes.items }
    {
        GivenFile {
            bytes,
            object: Some(object),
        }
    }

    /// The file that a program is that was fixed. Its object is known, unless it bears a mark. It fails only for want of memory.
    pub(crate) fn fixed(alloc: Global, program: FixedProgram) -> Result<GivenFile, AllocError>
        requires { length program < 2 ^ 32 }
        ensures { IfOk result (λ file. file ≡ program) }
    {
        let parts = program.into_parts();
        let FixedParts { bytes, object } = parts;
        match bears_mark(alloc, bytes.as_slice()) {
            Ok(marked) => {
                if marked {
                    drop(object);
                    Ok(GivenFile::new(bytes))
                } else {
                    Ok(GivenFile::known(bytes, object))
                }
            }
            Err(fault) => {
                drop(object);
                Err(fault)
            }
        }
    }

    /// Its bytes, with the object that is read of them where that is known. It takes no memory.
    pub(crate) fn into_parts(self) -> GivenParts
        ensures bytes { result.bytes.items ≡ self }
        ensures known { spec.IsReadIfAny self result.object }
    {
        let GivenFile { bytes, object } = self;
        GivenParts { bytes, object }
    }
}
