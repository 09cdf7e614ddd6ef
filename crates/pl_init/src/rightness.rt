// Whether rows are the whole relation "reaches".
ghost use Rattle.std.specs.Prelude.{◌≡◌, ◌<◌, ◌≤◌, [], ℕ, false, true, List, length, slice_index_or};
ghost use Rattle.std.specs.Bool.{OnTrue};
ghost use Rattle.std.specs.List.{list_all, range_with_len};
ghost use Rattle.pl_init.specs.Graph.{needs, has_number};
ghost use Rattle.pl_init.specs.declared.relation.ReachRow.{ReachRow as Row};
ghost use Rattle.pl_init.specs.Flags.{AreFlags, IsGraph};
ghost use Rattle.pl_init.specs.Found.{is_seen};
ghost use Rattle.pl_init.specs.Right as spec;

use crate::ReachRow;
use crate::flags::{flag, no_flags};
use crate::graph::needs_of;
use pl_base::Rows;
use pl_scope::MAX_MEMBERS;

/// Whether the rows stand by ascending `from`.
fn ascends(rows: &[ReachRow]) -> bool
    ensures { result ≡ spec.ascends 0 rows.now }
{
    let mut last = 0;
    for row in rows {
        if row.from < last {
            return false;
        }
        last = row.from;
    }
    true
}

fn is_numbered(count: usize, row: &ReachRow) -> bool
    ensures { result ≡ spec.is_numbered count row.now }
{
    (row.from as usize) < count && (row.to as usize) < count && (row.via as usize) < count
}

fn are_numbered(count: usize, rows: &[ReachRow]) -> bool
    ensures { result ≡ spec.are_numbered count rows.now }
{
    rows.iter().all(|row| is_numbered(count, row))
}

fn is_needed(graph: &[Rows<u32>], member: u32, needed: u32) -> bool
    requires graph { IsGraph graph.now }
    requires within { member < length graph.now }
    ensures { result ≡ has_number (needs graph.now member) needed }
{
    needs_of(graph, member).iter().any(|to| *to == needed)
}

/// Whether a row is a step after those whose members are flagged.
#[tactic(auto, unfolding(crate::specs::Right::is_step))]
fn is_step(graph: &[Rows<u32>], seen: &[bool], row: &ReachRow) -> bool
    requires graph { IsGraph graph.now }
    requires numbered { spec.is_numbered (length graph.now) row.now ≡ true }
    requires long { length seen.now ≡ MAX_MEMBERS }
    ensures { (before : List Row) → AreFlags seen.now (is_seen row.now.from before) → result
        ≡ spec.is_step graph.now row.now.from before row.now }
{
    !seen[row.to as usize] && seen[row.via as usize] && is_needed(graph, row.via, row.to)
}

/// Whether the rows of a member are steps, each after those before it. If so, the members to which they lead are flagged.
fn are_steps(graph: &[Rows<u32>], seen: &mut [bool], member: u32, rows: &[ReachRow]) -> bool
    requires graph { IsGraph graph.now }
    requires numbered { spec.are_numbered (length graph.now) rows.now ≡ true }
    requires seen { AreFlags seen.old (is_seen member []) }
    ensures value { result ≡ spec.are_steps graph.now member [] (spec.rows_of rows.now member) }
    ensures seen { OnTrue result (AreFlags seen.new
        (is_seen member (spec.rows_of rows.now member))) }
{
    for row in rows {
        if row.from == member {
            if !is_step(graph, seen, row) {
                return false;
            }
            flag(seen, row.to);
        }
    }
    true
}

/// Whether all that a member needs is flagged.
fn holds_needs(graph: &[Rows<u32>], seen: &[bool], member: u32) -> bool
    requires graph { IsGraph graph.now }
    requires within { member < length graph.now }
    requires long { length seen.now ≡ MAX_MEMBERS }
    ensures { result ≡ list_all (λ k. slice_index_or seen.now k false) (needs graph.now member) }
{
    needs_of(graph, member).iter().all(|to| seen[*to as usize])
}

/// Whether all that a member needs, and all that those need to which its rows lead, is flagged.
fn is_closed(graph: &[Rows<u32>], seen: &[bool], member: u32, rows: &[ReachRow]) -> bool
    requires graph { IsGraph graph.now }
    requires within { member < length graph.now }
    requires numbered { spec.are_numbered (length graph.now) rows.now ≡ true }
    requires seen { AreFlags seen.now (is_seen member (spec.rows_of rows.now member)) }
    ensures { result ≡ spec.is_closed graph.now member (spec.rows_of rows.now member) }
{
    if !holds_needs(graph, seen, member) {
        return false;
    }
    for row in rows {
        if row.from == member && !holds_needs(graph, seen, row.to) {
            return false;
        }
    }
    true
}

fn is_right_at(graph: &[Rows<u32>], rows: &[ReachRow], member: u32) -> bool
    requires graph { IsGraph graph.now }
    requires within { member < length graph.now }
    requires numbered { spec.are_numbered (length graph.now) rows.now ≡ true }
    ensures { result ≡ spec.is_right_at graph.now rows.now member }
{
    let mut seen = no_flags();
    flag(&mut seen, member);
    are_steps(graph, &mut seen, member, rows) && is_closed(graph, &seen, member, rows)
}

fn are_right(graph: &[Rows<u32>], rows: &[ReachRow]) -> bool
    requires graph { IsGraph graph.now }
    requires numbered { spec.are_numbered (length graph.now) rows.now ≡ true }
    ensures { result ≡ list_all (spec.is_right_at graph.now rows.now)
        (range_with_len 0 (length graph.now)) }
{
    let count = graph.len() as u32;
    (0..count).all(|member| is_right_at(graph, rows, member))
}

/// Whether rows are right.
#[tactic(auto, unfolding(crate::specs::Right::is_right))]
pub fn rows_are_right(graph: &[Rows<u32>], rows: &[ReachRow]) -> bool
    requires graph { IsGraph graph.now }
    ensures { result ≡ spec.is_right graph.now rows.now }
{
    ascends(rows) && are_numbered(graph.len(), rows) && are_right(graph, rows)
}
