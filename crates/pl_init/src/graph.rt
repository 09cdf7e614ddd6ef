// The members of a walk with the numbers of what each needs.
ghost use Rattle.std.specs.Prelude.{◌≡◌, ◌<◌, length, IfOk};
ghost use Rattle.std.specs.List.{All};
ghost use Rattle.pl_scope.specs.Scope.{walked};
ghost use Rattle.pl_scope.specs.Members.{IsClosed};
ghost use Rattle.pl_init.specs.Flags.{IsGraph};
ghost use Rattle.pl_init.specs.Graph as spec;

use crate::names::{names_of, numbers_of};
use pl_base::Rows;
use pl_io::NoMemory;
use pl_scope::Member;
use std::alloc::Global;

/// For each member the numbers of the members that it needs.
pub fn graph_of(alloc: Global, members: &[Member<'_>]) -> Result<Rows<Rows<u32>>, NoMemory>
    requires { IsClosed (walked members.now) }
    ensures value { IfOk result (λ graph. graph ≡ spec.graph (walked members.now)) }
    ensures sound { IfOk result IsGraph }
{
    let names = names_of(alloc, members)?;
    let mut graph = Rows::new(alloc);
    for member in members {
        graph.push(numbers_of(alloc, &names, member.object.needed.as_slice())?)?;
    }
    Ok(graph)
}

/// The numbers that a member needs.
pub fn needs_of(graph: &[Rows<u32>], member: u32) -> &[u32]
    requires graph { IsGraph graph.now }
    requires within { member < length graph.now }
    ensures value { result.now ≡ spec.needs graph.now member }
    ensures small { All (λ k. k < length graph.now) result.now }
{
    graph[member as usize].as_slice()
}
