// The members that a member reaches, found in breadth-first order.
ghost use Rattle.std.specs.Prelude.{◌≡◌, ◌<◌, ◌∷◌, ◌++◌, [], length, slice_get, IfOk, OnOk};
ghost use Rattle.std.specs.List.{All};
ghost use Rattle.pl_init.specs.Flags.{AreFlags, IsGraph};
ghost use Rattle.pl_init.specs.Found as spec;

use crate::ReachRow;
use crate::flags::{flag, no_flags};
use crate::graph::needs_of;
use pl_base::Rows;
use pl_scope::MAX_MEMBERS;
use std::alloc::{AllocError, Global};

/// Adds a row, where the member to which it leads is new.
#[tactic(auto, unfolding(crate::specs::Found::found))]
fn add(rows: &mut Rows<ReachRow>, seen: &mut [bool], row: ReachRow) -> Result<(), AllocError>
    requires small { row.to < MAX_MEMBERS }
    requires seen { AreFlags seen.old (spec.is_seen row.from rows.old) }
    ensures rows { OnOk result (rows.new ≡ spec.found row.from row.via rows.old row.to) }
    ensures seen { OnOk result (AreFlags seen.new (spec.is_seen row.from rows.new)) }
{
    if seen[row.to as usize] {
        return Ok(());
    }
    rows.push(row)?;
    flag(seen, row.to);
    Ok(())
}

/// Adds rows for all that a member needs, each where the needed one is new.
fn add_needed(
    graph: &[Rows<u32>],
    rows: &mut Rows<ReachRow>,
    seen: &mut [bool],
    from: u32,
    via: u32,
) -> Result<(), AllocError>
    requires graph { IsGraph graph.now }
    requires within { via < length graph.now }
    requires seen { AreFlags seen.old (spec.is_seen from rows.old) }
    requires rows { All (λ r. r.to < length graph.now) rows.old }
    ensures rows { OnOk result (rows.new ≡ spec.found_by graph.now from rows.old via) }
    ensures seen { OnOk result (AreFlags seen.new (spec.is_seen from rows.new)) }
    ensures within { OnOk result (All (λ r. r.to < length graph.now) rows.new) }
{
    for to in needs_of(graph, via) {
        add(rows, seen, ReachRow { from, to: *to, via })?;
    }
    Ok(())
}

fn row_at(rows: &Rows<ReachRow>, index: usize) -> Option<ReachRow>
    ensures { result ≡ slice_get rows.now index }
{
    rows.as_slice().get(index).copied()
}

/// The rows of one member: what it reaches, in breadth-first order, each with the member by which it was found.
pub fn reached(alloc: Global, graph: &[Rows<u32>], from: u32) -> Result<Rows<ReachRow>, AllocError>
    requires graph { IsGraph graph.now }
    requires within { from < length graph.now }
    ensures { IfOk result (λ rows. rows ≡ spec.reached graph.now from) }
{
    let mut seen = no_flags();
    flag(&mut seen, from);
    let mut rows = Rows::new(alloc);
    add_needed(graph, &mut rows, &mut seen, from, from)?;
    for next in 0..graph.len() {
        let Some(row) = row_at(&rows, next) else {
            return Ok(rows);
        };
        add_needed(graph, &mut rows, &mut seen, from, row.to)?;
    }
    Ok(rows)
}

fn append(rows: &mut Rows<ReachRow>, more: &[ReachRow]) -> Result<(), AllocError>
    ensures { OnOk result (rows.new ≡ rows.old ++ more.now) }
{
    for row in more {
        rows.push(*row)?;
    }
    Ok(())
}

/// The rows of all members, in the order of the walk.
#[tactic(auto, unfolding(crate::specs::Found::all_reached))]
pub fn all_reached(alloc: Global, graph: &[Rows<u32>]) -> Result<Rows<ReachRow>, AllocError>
    requires { IsGraph graph.now }
    ensures { IfOk result (λ rows. rows ≡ spec.all_reached graph.now) }
{
    let mut rows = Rows::new(alloc);
    for from in 0..graph.len() as u32 {
        let found = reached(alloc, graph, from)?;
        append(&mut rows, found.as_slice())?;
    }
    Ok(rows)
}
