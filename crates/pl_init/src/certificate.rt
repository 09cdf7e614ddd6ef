// The certificate of an order: which member reaches which.
ghost use Rattle.std.specs.Prelude.{◌≡◌, true, length, IfOk};
ghost use Rattle.std.specs.Bool.{OnTrue};
ghost use Rattle.std.specs.List.{list_all};
ghost use Rattle.pl_scope.specs.Members.{IsWalk};
ghost use Rattle.pl_init.specs.Graph.{graph};
ghost use Rattle.pl_init.specs.Found.{all_reached};
ghost use Rattle.pl_init.specs.Right.{is_numbered, is_right, AreReaches};

use crate::Reach;
use crate::graph::graph_of;
use crate::reaching::all_reached;
use crate::rightness::rows_are_right;
use pl_io::NoMemory;
use pl_scope::Scope;
use std::alloc::Global;

/// Which members of a walk each member reaches: for each member in walk order the others to which a chain of needed names leads from it, in breadth-first order, each with the member by which it was found. It fails only for want of memory.
#[tactic(auto, using(crate::proofs::RelationLaws::found_right, crate::proofs::RelationLaws::relation))]
pub fn reach(alloc: Global, scope: &Scope<'_>) -> Result<Reach, NoMemory>
    requires walk { IsWalk scope.now }
    ensures rows { IfOk result (λ reach. reach.rows ≡ all_reached (graph scope.now)) }
    ensures right { IfOk result (λ reach. is_right (graph scope.now) reach.rows ≡ true) }
    ensures numbered { IfOk result (λ reach. list_all (is_numbered (length scope.now)) reach.rows
        ≡ true) }
    ensures relation { IfOk result (λ reach. AreReaches scope.now reach.rows) }
{
    let graph = graph_of(alloc, scope.members())?;
    let rows = all_reached(alloc, graph.as_slice())?;
    Ok(Reach { rows })
}

/// Whether rows are right, which takes no search to see: they stand by ascending `from`; all their numbers are members'; no row leads to its `from`, and no two rows of one `from` lead to one member; `via` is `from` or a member to which an earlier row of that `from` leads, and needs `to`; and each name that a member needs, or that one needs to which its rows lead, is its own or that of one to which its rows lead.
///
/// Right rows are the relation "a chain of one or more needed names leads from this member to another". It fails only for want of memory.
#[tactic(auto, using(crate::proofs::RelationLaws::relation))]
pub fn right(alloc: Global, scope: &Scope<'_>, reach: &Reach) -> Result<bool, NoMemory>
    requires walk { IsWalk scope.now }
    ensures exact { IfOk result (λ answer. answer ≡ is_right (graph scope.now) reach.now.rows) }
    ensures relation { IfOk result (λ answer. OnTrue answer (AreReaches scope.now reach.now.rows)) }
{
    let graph = graph_of(alloc, scope.members())?;
    Ok(rows_are_right(graph.as_slice(), reach.rows.as_slice()))
}
