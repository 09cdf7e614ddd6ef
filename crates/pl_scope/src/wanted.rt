// What a reference asks of each object.
ghost use Rattle.std.specs.Prelude.{◌≡◌};
ghost use Rattle.pl_hash.specs.ChainSymbols.{name_hash};
ghost use Rattle.pl_scope.specs.Finds as finds;
ghost use Rattle.pl_scope.specs.Probing as spec;

use pl_elf::constants::R_X86_64_JUMP_SLOT;
use pl_hash::{Table, gnu_hash, sysv_hash};
use pl_sym::{Class, Symbol};

/// What a reference asks of each object: a definer of a name, for a class of relocations and with or without a version. The name's hash in GNU tables, which most objects have, is made once.
#[derive(Clone, Copy)]
pub struct Wanted<'a> {
    pub name: &'a [u8],

    pub class: Class,

    pub version: Option<&'a [u8]>,

    /// The name's hash in a GNU table.
    pub gnu: u32,

    /// Where the search for the name begins in one list of a scope's definers, if that was found ahead. It decides the time alone.
    pub start: Option<u32>,
}

#[tactic(auto, unfolding(crate::specs::Finds::class_of))]
fn class_of(kind: u32) -> Class
    ensures { result ≡ finds.class_of kind }
{
    if kind == R_X86_64_JUMP_SLOT {
        Class::Jump
    } else {
        Class::Other
    }
}

/// What a symbol asks for a kind of relocation, where the version that it asks for is given, and where the search begins, if that was found ahead.
pub fn wanted_by<'a>(
    symbol: &'a Symbol,
    kind: u32,
    version: Option<&'a [u8]>,
    start: Option<u32>,
) -> Wanted<'a>
    ensures name { result.name.now ≡ symbol.now.name }
    ensures class { result.class ≡ finds.class_of kind }
    ensures version { result.version ≡ version.entry }
    ensures hash { spec.IsWanted result }
{
    let name = symbol.name.as_slice();
    Wanted {
        name,
        class: class_of(kind),
        version,
        gnu: gnu_hash(name),
        start,
    }
}

/// The name's hash by which a table goes.
pub fn hash_in(wanted: &Wanted<'_>, table: &Table) -> u32
    requires { spec.IsWanted wanted.now }
    ensures { result ≡ name_hash table.now wanted.now.name.now }
{
    if table.is_gnu() {
        wanted.gnu
    } else {
        sysv_hash(wanted.name)
    }
}
