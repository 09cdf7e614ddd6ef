// Orders of initialisation with their certificates, over walks of recipes.
ghost use Rattle.std.specs.Prelude.{IfOk};
ghost use Rattle.std.specs.List.{All};
ghost use Rattle.indexmap.specs.IndexMap.{values};
ghost use Rattle.pl_scope.specs.Members.{IsWalk};
ghost use Rattle.pl_scope.specs.Scope.{IsAccepted};

use crate::samples::{by_name, insert, needs};
use indexmap::IndexMap;
use pl_base::Rows;
use pl_cases::{numbers32, parts};
use pl_init::{Reach, ReachRow, check, full_text, order, reach, right, short_text};
use pl_object::Object;
use pl_scope::{MAX_MEMBERS, Scope, WalkFault, walk};
use std::alloc::{AllocError, Global};
use std::test::Fail;

// Names and their recipes.
const OBJECTS: &str = "\
q: program; needs libx; needs libz\n\
libx: library\n\
liby: library\n\
libz: library; needs liby; needs libx\n\
c: program; needs libm\n\
libm: library; needs libn; needs libm\n\
libn: library; needs libm; needs libn\n\
d: program; needs libj; needs libk; needs libl\n\
libj: library\n\
libk: library\n\
libl: library; needs libj";

fn walk_of<'a>(
    alloc: Global,
    name: &str,
    objects: &'a IndexMap<String, Object>,
) -> Result<Scope<'a>, WalkFault>
    requires { All IsAccepted (values objects.now) }
    ensures { IfOk result IsWalk }
{
    let scope = walk(alloc, name, objects)?;
    Ok(scope)
}

// The text of a name's order, without or with all rows.
fn text_of(
    alloc: Global,
    name: &str,
    objects: &IndexMap<String, Object>,
    rows: bool,
) -> Result<Vec<u8>, Fail>
    requires { All IsAccepted (values objects.now) }
{
    let scope = walk_of(alloc, name, objects)?;
    if rows {
        Ok(full_text(alloc, &scope)?)
    } else {
        Ok(short_text(alloc, &scope)?)
    }
}

// A name, the lines of its walk's order, and those of the rows, where a bar ends each.
const ORDERS: &str = "\
q: init libx|init liby|init libz|init q|: reach q libx via q|reach q libz via q|reach q liby via libz|reach libz liby via libz|reach libz libx via libz|\n\
c: init libm|init libn|init c|: reach c libm via c|reach c libn via libm|reach libm libn via libm|reach libn libm via libn|\n\
libn: init libn|init libm|: reach libn libm via libn|reach libm libn via libm|\n\
d: init libj|init libk|init libl|init d|: reach d libj via d|reach d libk via d|reach d libl via d|reach libl libj via libl|\n\
libx: init libx|:";

// Whether the texts of the order of a line's name are those of the line.
fn has_texts(alloc: Global, objects: &IndexMap<String, Object>, line: &str) -> Result<bool, Fail>
    requires { All IsAccepted (values objects.now) }
{
    let (name, texts) = parts(line)?;
    let (order, rows) = parts(texts)?;
    let short = format!(in alloc; "{order}end|")?.replace(alloc, "|", "\n")?;
    let full = format!(in alloc; "{order}{rows}end|")?.replace(alloc, "|", "\n")?;
    Ok(
        text_of(alloc, name, objects, false)?.as_slice() == short.as_bytes()
            && text_of(alloc, name, objects, true)?.as_slice() == full.as_bytes(),
    )
}

#[test]
fn orders_and_reaches(rt: HostRuntime) -> Result<(), Fail> {
    let objects = by_name(rt.alloc(), OBJECTS)?;
    for line in ORDERS.lines() {
        if !has_texts(rt.alloc(), &objects, line)? {
            return Err(line.into());
        }
    }
    Ok(())
}

// Whether an order of a name's walk is lawful.
fn is_lawful(
    alloc: Global,
    name: &str,
    objects: &IndexMap<String, Object>,
    members: &[u32],
) -> Result<bool, Fail>
    requires { All IsAccepted (values objects.now) }
{
    let scope = walk_of(alloc, name, objects)?;
    let reached = reach(alloc, &scope)?;
    Ok(check(&scope, members, &reached))
}

// Whether rows, of three numbers each, are right for a name's walk.
fn are_right(
    alloc: Global,
    name: &str,
    objects: &IndexMap<String, Object>,
    table: &[u32],
) -> Result<bool, Fail>
    requires { All IsAccepted (values objects.now) }
{
    let mut rows = Vec::new(alloc);
    for row in table.chunks(3) {
        let [from, to, via] = row else {
            return Err("three numbers".into());
        };
        rows.push(ReachRow {
            from: *from,
            to: *to,
            via: *via,
        })?;
    }
    let scope = walk_of(alloc, name, objects)?;
    let reached = Reach {
        rows: Rows::from_vec(rows),
    };
    Ok(right(alloc, &scope, &reached)?)
}

// Names, 1 where an order of its walk is lawful, and the order: of the walk of `q`, which is q, libx, libz, liby; of `c`, which is c, libm, libn, with a cycle that breaks at the earlier one; of `d`, which is d, libj, libk, libl, where libl needs libj. In the last one no two neighbours stand the wrong way round.
const LAWFUL: &str = "\
q 1: 1 3 2 0\n\
q 1: 3 1 2 0\n\
q 0: 0 1 3 2\n\
q 0: 3 2 1 0\n\
q 0: 1 3 2\n\
q 0: 1 3 2 4\n\
q 0: 1 3 2 0 0\n\
q 0: 1 1 3 2\n\
c 1: 1 2 0\n\
c 0: 2 1 0\n\
c 0: 1 0 2\n\
d 1: 1 2 3 0\n\
d 1: 2 1 3 0\n\
d 1: 1 3 2 0\n\
d 0: 3 2 1 0";

// Whether the order of a line is as lawful as it says.
fn is_as_lawful(alloc: Global, objects: &IndexMap<String, Object>, line: &str) -> Result<bool, Fail>
    requires { All IsAccepted (values objects.now) }
{
    let (head, order) = parts(line)?;
    let (name, wanted) = head.split_once(' ').ok_or("a name")?;
    Ok(is_lawful(alloc, name, objects, &numbers32(alloc, order)?)? == (wanted == "1"))
}

#[test]
fn checks_orders(rt: HostRuntime) -> Result<(), Fail> {
    let objects = by_name(rt.alloc(), OBJECTS)?;
    for line in LAWFUL.lines() {
        if !is_as_lawful(rt.alloc(), &objects, line)? {
            return Err(line.into());
        }
    }
    Ok(())
}

// Names, 1 where rows of its walk are right, and the rows, of three numbers each. Of the walk of `q` the third is not by ascending `from`; then: no member's number, one member twice, by one that is found later, by one that does not need it, one that is reached left out, all of a member left out. Of the walk of `libn`, which is libn, libm and needs itself: with and without a row that leads to its `from`.
const ROWS: &str = "\
q 1: 0 1 0  0 2 0  0 3 2  2 3 2  2 1 2\n\
q 1: 0 2 0  0 3 2  0 1 2  2 1 2  2 3 2\n\
q 0: 2 3 2  2 1 2  0 1 0  0 2 0  0 3 2\n\
q 0: 0 1 0  0 2 0  0 3 2  2 3 2  2 1 2  4 1 4\n\
q 0: 0 1 0  0 2 0  0 3 2  0 1 2  2 3 2  2 1 2\n\
q 0: 0 1 0  0 3 2  0 2 0  2 3 2  2 1 2\n\
q 0: 0 1 0  0 2 0  0 3 1  2 3 2  2 1 2\n\
q 0: 0 1 0  0 2 0  2 3 2  2 1 2\n\
q 0: 0 1 0  0 2 0  0 3 2\n\
libn 1: 0 1 0  1 0 1\n\
libn 0: 0 1 0  0 0 1  1 0 1";

// Whether the rows of a line are as right as it says.
fn are_as_right(alloc: Global, objects: &IndexMap<String, Object>, line: &str) -> Result<bool, Fail>
    requires { All IsAccepted (values objects.now) }
{
    let (head, rows) = parts(line)?;
    let (name, wanted) = head.split_once(' ').ok_or("a name")?;
    Ok(are_right(alloc, name, objects, &numbers32(alloc, rows)?)? == (wanted == "1"))
}

#[test]
fn sees_whether_rows_are_right(rt: HostRuntime) -> Result<(), Fail> {
    let objects = by_name(rt.alloc(), OBJECTS)?;
    for line in ROWS.lines() {
        if !are_as_right(rt.alloc(), &objects, line)? {
            return Err(line.into());
        }
    }
    Ok(())
}

// A library that needs `MAX_MEMBERS` libraries, of which it is one.
fn wide_recipe(alloc: Global) -> Result<String, AllocError> {
    let mut recipe = String::from_str(alloc, "library\n")?;
    recipe.push_str(needs(alloc, MAX_MEMBERS)?.as_str())?;
    Ok(recipe)
}

fn wide_objects(alloc: Global) -> Result<IndexMap<String, Object>, Fail>
    ensures { IfOk result (λ objects. All IsAccepted (values objects)) }
{
    let recipe = wide_recipe(alloc)?;
    let mut objects = IndexMap::new(alloc);
    for member in 0..MAX_MEMBERS {
        let name = format!(in alloc; "lib{member}")?;
        insert(alloc, &mut objects, name.as_str(), recipe.as_str())?;
    }
    Ok(objects)
}

// The rows of a walk and its order, counted.
fn counts(alloc: Global, scope: &Scope<'_>) -> Result<(usize, usize), Fail>
    requires { IsWalk scope.now }
{
    let reached = reach(alloc, scope)?;
    let members = order(alloc, scope, &reached)?;
    Ok((reached.rows.len(), members.len()))
}

#[test]
fn orders_the_widest_walk(rt: HostRuntime) -> Result<(), Fail> {
    let objects = wide_objects(rt.alloc())?;
    let scope = walk_of(rt.alloc(), "lib0", &objects)?;
    assert_eq!(rt;
        counts(rt.alloc(), &scope)?,
        (MAX_MEMBERS * (MAX_MEMBERS - 1), MAX_MEMBERS)
    );
    Ok(())
}
