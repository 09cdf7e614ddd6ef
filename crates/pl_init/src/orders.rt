// Orders of initialisation.
ghost use Rattle.std.specs.Prelude.{◌≡◌, ◌↔◌, [], true, length, IsTrue, IfOk};
ghost use Rattle.pl_scope.specs.Members.{IsWalk};
ghost use Rattle.pl_init.specs.Graph.{graph};
ghost use Rattle.pl_init.specs.Flags.{IsTable};
ghost use Rattle.pl_init.specs.Right.{is_right};
ghost use Rattle.pl_init.specs.Lawful.{IsLawful, IsPrinted, ordered};

use crate::Reach;
use crate::ordering::{lawful, ordered};
use crate::table::{PAIRS, Table, flag_pairs};
use pl_io::NoMemory;
use pl_scope::Scope;
use std::alloc::Global;

/// Flags the pairs of a walk's rows, where no pair is flagged yet.
fn flag_rows(scope: &Scope<'_>, reach: &Reach, cells: &mut [bool])
    requires walk { IsWalk scope.now }
    requires right { is_right (graph scope.now) reach.now.rows ≡ true }
    requires none { IsTable cells.old [] }
    ensures { IsTable cells.new reach.now.rows }
{
    flag_pairs(scope.count() as usize, reach.rows.as_slice(), cells);
}

/// Whether an order is lawful: it has each member once, and each stands behind all that have to come before it. A number that is no member's makes it false.
///
/// One member has to come before another where the other reaches it and it does not reach the other, or where each reaches the other and it is earlier in the walk.
#[tactic(auto, using(crate::proofs::TableLaws::no_cells))]
pub fn check(scope: &Scope<'_>, order: &[u32], reach: &Reach) -> bool
    requires walk { IsWalk scope.now }
    requires right { is_right (graph scope.now) reach.now.rows ≡ true }
    ensures { IsTrue result ↔ IsLawful scope.now order.now }
{
    let mut cells = [false; PAIRS];
    flag_rows(scope, reach, &mut cells);
    let table = Table::of(reach.rows.as_slice(), &cells);
    lawful(&table, scope.count(), order)
}

/// The order in which the members of a walk are initialised: at each step the earliest member that is ready. It fails only for want of memory.
pub fn order(alloc: Global, scope: &Scope<'_>, reach: &Reach) -> Result<Vec<u32>, NoMemory>
    requires walk { IsWalk scope.now }
    requires right { is_right (graph scope.now) reach.now.rows ≡ true }
    ensures printed { IfOk result (λ order. IsPrinted scope.now order.items) }
    ensures lawful { IfOk result (λ order. IsLawful scope.now order.items) }
    // and as computed from the rows
    ensures rows { IfOk result (λ order. order.items
        ≡ ordered reach.now.rows (length scope.now) (length scope.now) []) }
{
    let mut cells = Vec::from_elem(alloc, false, PAIRS)?;
    flag_rows(scope, reach, &mut cells);
    let table = Table::of(reach.rows.as_slice(), &cells);
    Ok(ordered(alloc, &table, scope.count())?)
}
