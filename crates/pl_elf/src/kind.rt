ghost use Rattle.std.specs.Prelude.{◌≡◌};
ghost use Rattle.pl_elf.specs.Kinds as spec;

/// What a file is, of those that are loaded.
#[derive(Clone, Copy, Debug, PartialEq, Eq)]
pub enum Kind {
    /// ET_EXEC with a PT_DYNAMIC.
    Program,

    /// ET_DYN with a PT_DYNAMIC.
    Library,

    /// ET_EXEC without a PT_DYNAMIC. It has no symbols and no relocations.
    Static,
}

impl Kind {
    /// Whether it is a program with relocations.
    pub fn is_program(self) -> bool
        ensures { result ≡ spec.is_program self }
    {
        matches!(self, Kind::Program)
    }

    /// Whether it is a library.
    pub fn is_library(self) -> bool
        ensures { result ≡ spec.is_library self }
    {
        matches!(self, Kind::Library)
    }

    /// Whether it is a program without relocations.
    pub fn is_static(self) -> bool
        ensures { result ≡ spec.is_static self }
    {
        matches!(self, Kind::Static)
    }
}
