// The names of members, each found by a hash.
ghost use Rattle.std.specs.Prelude.{◌≡◌, ◌<◌, ◌≤◌, length, map, string_bytes, IfOk, IfSome};
ghost use Rattle.std.specs.List.{filter_map};
ghost use Rattle.pl_scope.specs.Scope.{walked};
ghost use Rattle.pl_scope.specs.Members.{IsClosed, names};
ghost use Rattle.pl_scope.specs.declared.constants.TheConstants.{MAX_MEMBERS};
ghost use Rattle.pl_init.specs.Graph as spec;

use indexmap::IndexSet;
use pl_base::{Rows, Text};
use pl_io::NoMemory;
use pl_scope::Member;
use std::alloc::Global;

/// The names of members, in order.
pub fn names_of(alloc: Global, members: &[Member<'_>]) -> Result<IndexSet<String>, NoMemory>
    requires { IsClosed (walked members.now) }
    ensures { IfOk result (λ set. map string_bytes set.keys ≡ names (walked members.now)) }
{
    let mut names = IndexSet::new(alloc);
    for member in members {
        names.insert(String::from_str(alloc, member.name.as_str())?)?;
    }
    Ok(names)
}

fn number_of(names: &IndexSet<String>, name: &str) -> Option<usize>
    ensures within { IfSome result (λ number. number < length names.now.keys) }
    ensures value { result ≡ spec.number (map string_bytes names.now.keys) name.now }
{
    names.get_index_of(name)
}

/// The numbers of needed names, in their order, without those that are no member's.
#[tactic(auto, using(crate::proofs::NameLaws::numbers_some, crate::proofs::NameLaws::numbers_none, crate::proofs::NameLaws::numbers_all, pl_scope::proofs::WalkedLaws::limit_is))]
pub fn numbers_of(
    alloc: Global,
    names: &IndexSet<String>,
    needed: &[Text],
) -> Result<Rows<u32>, NoMemory>
    requires { length names.now.keys ≤ MAX_MEMBERS }
    ensures { IfOk result (λ numbers. numbers ≡ filter_map
        (spec.number (map string_bytes names.now.keys)) needed.now) }
{
    let mut numbers = Rows::new(alloc);
    for name in needed {
        if let Some(number) = number_of(names, name.as_str()) {
            numbers.push(number as u32)?;
        }
    }
    Ok(numbers)
}
