ghost use Rattle.std.specs.Prelude.{◌≡◌};
ghost use Rattle.pl_sym.specs.Symbol as spec;

use crate::Name;
use crate::constants::{SHN_ABS, SHN_HIRESERVE, SHN_LORESERVE, SHN_UNDEF, STB_LOCAL, STT_TLS};

/// A symbol as a row of a symbol table describes it (gABI chapter 4, "Symbol Table").
#[derive(Drop)]
pub struct Symbol {
    /// The bytes of its name, without the 0 that ends it.
    pub name: Name,

    /// An address, or a number if the symbol is absolute, or an offset in the TLS block.
    pub value: u64,

    /// How many bytes it names, 0 where that is not known.
    pub size: u64,

    /// One of the `STB_` numbers: the high four bits of the field `info`.
    pub bind: u8,

    /// One of the `STT_` numbers: the low four bits of the field `info`.
    pub kind: u8,

    /// One of the `STV_` numbers: the low two bits of the field `other`.
    pub visibility: u8,

    /// An index in the section header table, or one of the `SHN_` numbers.
    pub section: u16,

    /// Its version word (GNU symbol versioning). It stands in another table.
    pub version: u16,
}

// A folder's symbols are the most of what a command holds beside the files.
const _: () = prove!(size_of::<Symbol>() == 40);

impl Symbol {
    /// Whether its object only refers to it.
    #[tactic(auto, unfolding(crate::specs::Symbol::is_undefined))]
    pub fn is_undefined(&self) -> bool
        ensures { result ≡ spec.is_undefined self.now }
    {
        self.section == SHN_UNDEF
    }

    /// Whether its value is a number, the same wherever its object is loaded.
    #[tactic(auto, unfolding(crate::specs::Symbol::is_absolute))]
    pub fn is_absolute(&self) -> bool
        ensures { result ≡ spec.is_absolute self.now }
    {
        self.section == SHN_ABS
    }

    /// Whether it lies in a section of its object: the index is not 0, and not one of those that stand for no section.
    #[tactic(auto, unfolding(crate::specs::Symbol::is_in_section))]
    pub fn is_in_section(&self) -> bool
        ensures { result ≡ spec.is_in_section self.now }
    {
        self.section != SHN_UNDEF && !(SHN_LORESERVE..=SHN_HIRESERVE).contains(&self.section)
    }

    /// Whether its binding is local.
    #[tactic(auto, unfolding(crate::specs::Symbol::is_local))]
    pub fn is_local(&self) -> bool
        ensures { result ≡ spec.is_local self.now }
    {
        self.bind == STB_LOCAL
    }

    /// Whether it names thread-local data.
    #[tactic(auto, unfolding(crate::specs::Symbol::is_tls))]
    pub fn is_tls(&self) -> bool
        ensures { result ≡ spec.is_tls self.now }
    {
        self.kind == STT_TLS
    }
}
