// The text of an order.
ghost use Rattle.std.specs.Prelude.{◌≡◌, ◌<◌, ◌++◌, true, length, string_bytes, IfOk, OnOk};
ghost use Rattle.std.specs.List.{All, list_all, flat_map};
ghost use Rattle.pl_scope.specs.Scope.{walked};
ghost use Rattle.pl_scope.specs.Members.{names, IsWalk};
ghost use Rattle.pl_init.specs.Right.{is_numbered};
ghost use Rattle.pl_init.specs.Lawful.{AreMembers};
ghost use Rattle.pl_init.specs.OrderText as spec;

use crate::ReachRow;
use crate::certificate::reach;
use crate::orders::order;
use pl_io::NoMemory;
use pl_scope::{Member, Scope};
use std::alloc::{AllocError, Global};

fn name_at<'a>(members: &'a [Member<'_>], member: u32) -> &'a str
    requires { member < length (walked members.now) }
    ensures { result.now ≡ spec.name_at (names (walked members.now)) member }
{
    members[member as usize].name.as_str()
}

#[tactic(auto, unfolding(crate::specs::OrderText::init_line))]
fn init_line(alloc: Global, members: &[Member<'_>], member: u32) -> Result<String, AllocError>
    requires { member < length (walked members.now) }
    ensures { IfOk result (λ text. string_bytes text
        ≡ spec.init_line (names (walked members.now)) member) }
{
    let name = name_at(members, member);
    format!(in alloc; "init {name}\n")
}

#[tactic(auto, unfolding(crate::specs::OrderText::reach_line))]
fn reach_line(alloc: Global, members: &[Member<'_>], row: &ReachRow) -> Result<String, AllocError>
    requires { is_numbered (length (walked members.now)) row.now ≡ true }
    ensures { IfOk result (λ text. string_bytes text
        ≡ spec.reach_line (names (walked members.now)) row.now) }
{
    let (from, to, via) = (
        name_at(members, row.from),
        name_at(members, row.to),
        name_at(members, row.via),
    );
    format!(in alloc; "reach {from} {to} via {via}\n")
}

fn push_inits(
    alloc: Global,
    out: &mut Vec<u8>,
    members: &[Member<'_>],
    order: &[u32],
) -> Result<(), AllocError>
    requires { All (λ m. m < length (walked members.now)) order.now }
    ensures { OnOk result (out.new.items ≡ out.old.items
        ++ flat_map (spec.init_line (names (walked members.now))) order.now) }
{
    for member in order {
        let line = init_line(alloc, members, *member)?;
        out.extend_from_slice(line.as_bytes())?;
    }
    Ok(())
}

fn push_rows(
    alloc: Global,
    out: &mut Vec<u8>,
    members: &[Member<'_>],
    rows: &[ReachRow],
) -> Result<(), AllocError>
    requires { All (λ r. is_numbered (length (walked members.now)) r ≡ true) rows.now }
    ensures { OnOk result (out.new.items ≡ out.old.items
        ++ flat_map (spec.reach_line (names (walked members.now))) rows.now) }
{
    for row in rows {
        let line = reach_line(alloc, members, row)?;
        out.extend_from_slice(line.as_bytes())?;
    }
    Ok(())
}

/// The text of an order and of rows, by the members' names: a line `init NAME` for each member in its turn, a line `reach FROM TO via BY` for each row, and the line `end`. It fails only for want of memory.
#[tactic(auto, unfolding(crate::specs::OrderText::order_text))]
pub fn order_text(
    alloc: Global,
    scope: &Scope<'_>,
    order: &[u32],
    rows: &[ReachRow],
) -> Result<Vec<u8>, NoMemory>
    requires order { AreMembers scope.now order.now }
    requires rows { list_all (is_numbered (length scope.now)) rows.now ≡ true }
    ensures { IfOk result (λ text. text.items ≡ spec.order_text (names scope.now) order.now
        rows.now) }
{
    let mut text = Vec::new(alloc);
    let members = scope.members();
    push_inits(alloc, &mut text, members, order)?;
    push_rows(alloc, &mut text, members, rows)?;
    text.extend_from_slice(b"end\n")?;
    Ok(text)
}

/// The text of the order in which the members of a walk are initialised. It fails only for want of memory.
#[tactic(auto, unfolding(crate::specs::OrderText::short_text))]
pub fn short_text(alloc: Global, scope: &Scope<'_>) -> Result<Vec<u8>, NoMemory>
    requires { IsWalk scope.now }
    ensures { IfOk result (λ text. text.items ≡ spec.short_text scope.now) }
{
    let reach = reach(alloc, scope)?;
    let order = order(alloc, scope, &reach)?;
    order_text(alloc, scope, &order, &[])
}

/// The text of the order in which the members of a walk are initialised, with the rows of who reaches whom. It fails only for want of memory.
#[tactic(auto, unfolding(crate::specs::OrderText::full_text))]
pub fn full_text(alloc: Global, scope: &Scope<'_>) -> Result<Vec<u8>, NoMemory>
    requires { IsWalk scope.now }
    ensures { IfOk result (λ text. text.items ≡ spec.full_text scope.now) }
{
    let reach = reach(alloc, scope)?;
    let order = order(alloc, scope, &reach)?;
    order_text(alloc, scope, &order, reach.rows.as_slice())
}
