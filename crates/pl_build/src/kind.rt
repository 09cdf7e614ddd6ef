ghost use Rattle.std.specs.Prelude.{◌≡◌};
ghost use Rattle.pl_build.specs.FileKinds as spec;

/// What a recipe's file is, as its first line says.
#[derive(Clone, Copy)]
pub enum FileKind {
    /// A program at fixed addresses.
    Program,

    /// A position-independent program: a program, but for the type and the addresses, which are those of a library.
    Pie,
    Library,

    /// A program without tables.
    Static,
}

impl FileKind {
    /// Whether it is a program with tables.
    pub fn is_program(self) -> bool
        ensures { result ≡ spec.is_program self }
    {
        matches!(self, FileKind::Program | FileKind::Pie)
    }

    /// Whether it is a position-independent program.
    pub fn is_pie(self) -> bool
        ensures { result ≡ spec.is_pie self }
    {
        matches!(self, FileKind::Pie)
    }

    /// Whether it may be loaded anywhere: its type is ET_DYN, and its addresses begin at 0.
    pub fn is_position_independent(self) -> bool
        ensures { result ≡ spec.is_position_independent self }
    {
        matches!(self, FileKind::Pie | FileKind::Library)
    }

    /// Whether it is a program without tables.
    pub fn is_static(self) -> bool
        ensures { result ≡ spec.is_static self }
    {
        matches!(self, FileKind::Static)
    }
}
