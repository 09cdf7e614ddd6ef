// Orders of the members, by a table of rows.
ghost use Rattle.std.specs.Prelude.{◌≡◌, ◌<◌, ◌≤◌, [], ℕ, List, length, find, IfOk, IfSome};
ghost use Rattle.std.specs.List.{range_with_len};
ghost use Rattle.pl_init.specs.Flags.{AreFlags, is_flagged_ready, is_flagged_next};
ghost use Rattle.pl_init.specs.Lawful as spec;

use crate::flags::{flag, no_flags};
use crate::table::Table;
use pl_scope::MAX_MEMBERS;
use std::alloc::{AllocError, Global};

fn is_ready(table: &Table<'_>, count: u32, stands: &[bool], member: u32) -> bool
    requires few { count ≤ MAX_MEMBERS }
    requires small { member < count }
    requires long { length stands.now ≡ MAX_MEMBERS }
    ensures { result ≡ is_flagged_ready table.now.rows.now count stands.now member }
{
    (0..count).all(|other| stands[other as usize] || !table.precedes(other, member))
}

fn is_next(table: &Table<'_>, count: u32, stands: &[bool], member: u32) -> bool
    requires few { count ≤ MAX_MEMBERS }
    requires small { member < count }
    requires long { length stands.now ≡ MAX_MEMBERS }
    ensures { result ≡ is_flagged_next table.now.rows.now count stands.now member }
{
    !stands[member as usize] && is_ready(table, count, stands, member)
}

/// The earliest member that does not stand, where all stand that have to come before it.
fn next_of(table: &Table<'_>, count: u32, stands: &[bool]) -> Option<u32>
    requires few { count ≤ MAX_MEMBERS }
    requires long { length stands.now ≡ MAX_MEMBERS }
    ensures value { result ≡ find (is_flagged_next table.now.rows.now count stands.now)
        (range_with_len 0 count) }
    ensures small { IfSome result (λ member. member < count) }
{
    (0..count).find(|member| is_next(table, count, stands, *member))
}

/// The printed order.
pub fn ordered(alloc: Global, table: &Table<'_>, count: u32) -> Result<Vec<u32>, AllocError>
    requires few { count ≤ MAX_MEMBERS }
    ensures { IfOk result (λ order. order.items ≡ spec.ordered table.now.rows.now count count []) }
{
    let mut stands = no_flags();
    let mut order = Vec::new(alloc);
    for _turn in 0..count {
        let Some(next) = next_of(table, count, &stands) else {
            return Ok(order);
        };
        order.push(next)?;
        flag(&mut stands, next);
    }
    Ok(order)
}

fn are_next(table: &Table<'_>, count: u32, order: &[u32]) -> bool
    requires few { count ≤ MAX_MEMBERS }
    ensures { result ≡ spec.are_next table.now.rows.now count [] order.now }
{
    let mut stands = no_flags();
    for member in order {
        if *member >= count || !is_next(table, count, &stands, *member) {
            return false;
        }
        flag(&mut stands, *member);
    }
    true
}

/// Whether an order is lawful.
pub fn lawful(table: &Table<'_>, count: u32, order: &[u32]) -> bool
    requires few { count ≤ MAX_MEMBERS }
    ensures { result ≡ spec.is_lawful table.now.rows.now count order.now }
{
    order.len() == count as usize && are_next(table, count, order)
}
