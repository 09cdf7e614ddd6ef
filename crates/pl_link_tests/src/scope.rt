// The walk over needed names, and the definers that references find. The objects are those of recipes.
ghost use Rattle.std.specs.Prelude.{◌<◌, length, IfOk};
ghost use Rattle.std.specs.Bool.{OnTrue};
ghost use Rattle.std.specs.List.{All};
ghost use Rattle.indexmap.specs.IndexMap.{values};
ghost use Rattle.pl_scope.specs.Scope.{objects, IsAccepted, IsReference, IsSymbol};

use crate::samples::{by_name, object_of};
use indexmap::IndexMap;
use pl_base::Text;
use pl_cases::{numbers32, parts};
use pl_object::Object;
use pl_scope::{Found, Kept, MAX_MEMBERS, Member, Reference, Scope, find, find_in_lists, walk};
use std::alloc::{AllocError, Global};
use std::test::Fail;

// A member and one of its symbols, which in a recipe count from 1 on, the undefined ones first; the kind of a relocation; the member and the symbol that this finds, if it finds one; and the samples of the scope.

/// The first definer, also where it is weak; none; a local and undefined symbol; hidden, protected and default ones; libraries that search themselves first, and a COPY; a canonical address; a library without version words.
const CASES: &str = "\
2 1 6 1 1: program; ref g global func | library; data 8; def f global func 0 8 | library; ref f global func; ref g global func | library; data 8; def f weak func 0 8\n\
2 2 6: program; ref g global func | library; data 8; def f global func 0 8 | library; ref f global func; ref g global func | library; data 8; def f weak func 0 8\n\
0 1 7 1 1: library; ref f global func; ref g global func | library; data 8; def f weak func 0 8 | library; data 8; def f global func 0 8\n\
1 1 5 1 1: library; data 8; def f global func 0 8 | library; ref f global func; ref g global func @ 434 1 2\n\
1 1 6 1 1: library; data 8; def f global func 0 8 | library; data 8; def f global func 0 8 hidden\n\
1 1 6 1 1: library; data 8; def f global func 0 8 | library; data 8; def f global func 0 8 protected\n\
1 1 6 0 1: library; data 8; def f global func 0 8 | library; ref f global func; ref g global func @ 435 1 2\n\
1 1 6 0 1: library; data 8; def f global func 0 8 | library; data 8; def f global func 0 8\n\
1 2 6 0 1: program; data 8; def f global func 0 8 | library; data 8; ref g global func; def f global func 0 8 | library; data 8; def g global func 0 8\n\
0 1 5 1 2: program; data 8; def f global func 0 8 | library; data 8; ref g global func; def f global func 0 8 | library; data 8; def g global func 0 8\n\
1 2 6 1 2: program; symbolic; data 8; def f global func 0 8 | library; symbolic; data 8; ref g global func; def f global func 0 8 | library; data 8; def g global func 0 8\n\
1 1 6 2 1: program; symbolic; data 8; def f global func 0 8 | library; symbolic; data 8; ref g global func; def f global func 0 8 | library; data 8; def g global func 0 8\n\
0 1 5 1 2: program; symbolic; data 8; def f global func 0 8 | library; symbolic; data 8; ref g global func; def f global func 0 8 | library; data 8; def g global func 0 8\n\
0 1 6 0 1: program; data 8; ref f global func at 0 | library; data 8; def f global func 0 8\n\
0 1 7 1 1: program; data 8; ref f global func at 0 | library; data 8; def f global func 0 8\n\
1 1 6 0 1: program; data 8; ref f global func at 0 | library; data 8; def f global func 0 8\n\
1 1 7 1 1: program; data 8; ref f global func at 0 | library; data 8; def f global func 0 8\n\
0 1 6 1 1: program; ref s@V1 global func from lib | library; data 8; def s global func 0 8";

/// A library with the versions base and V1 to V4, whose indices are 1 to 5, and with three definers of one name, whose version words are put at 0x498, the last one first.
const VERSIONS: &str = "\
0 1 6 1 1: program; ref s@V1 global func from lib | library; version V1; version V2; version V3; version V4; data 8; def s@V1 global func 0 8; def s@V2 global func 0 8; def s@V3 global func 0 8 @ 498 8 4000380020001\n\
0 1 6 1 2: program; ref s@V1 global func from lib | library; version V1; version V2; version V3; version V4; data 8; def s@V1 global func 0 8; def s@V2 global func 0 8; def s@V3 global func 0 8 @ 498 8 1800200030001\n\
0 1 6 1 2: program; ref s@V1 global func from lib | library; version V1; version V2; version V3; version V4; data 8; def s@V1 global func 0 8; def s@V2 global func 0 8; def s@V3 global func 0 8 @ 498 8 4000100030001\n\
0 1 6: program; ref s@V1 global func from lib | library; version V1; version V2; version V3; version V4; data 8; def s@V1 global func 0 8; def s@V2 global func 0 8; def s@V3 global func 0 8 @ 498 8 4800100030001\n\
0 1 6: program; ref s@V1 global func from lib | library; version V1; version V2; version V3; version V4; data 8; def s@V1 global func 0 8; def s@V2 global func 0 8; def s@V3 global func 0 8 @ 498 8 4000000030001\n\
0 1 6 1 3: program; ref s@base global func from lib | library; version V1; version V2; version V3; version V4; data 8; def s@V1 global func 0 8; def s@V2 global func 0 8; def s@V3 global func 0 8 @ 498 8 8001000300020001\n\
0 1 6: program; ref s@V9 global func from lib | library; version V1; version V2; version V3; version V4; data 8; def s@V1 global func 0 8; def s@V2 global func 0 8; def s@V3 global func 0 8 @ 498 8 4000300020001\n\
0 1 6 1 2: program; ref s global func | library; version V1; version V2; version V3; version V4; data 8; def s@V1 global func 0 8; def s@V2 global func 0 8; def s@V3 global func 0 8 @ 498 8 3000000020001\n\
0 1 6 1 2: program; ref s global func | library; version V1; version V2; version V3; version V4; data 8; def s@V1 global func 0 8; def s@V2 global func 0 8; def s@V3 global func 0 8 @ 498 8 3800000020001\n\
0 1 6 1 2: program; ref s global func | library; version V1; version V2; version V3; version V4; data 8; def s@V1 global func 0 8; def s@V2 global func 0 8; def s@V3 global func 0 8 @ 498 8 3800100020001\n\
0 1 6 1 1: program; ref s global func | library; version V1; version V2; version V3; version V4; data 8; def s@V1 global func 0 8; def s@V2 global func 0 8; def s@V3 global func 0 8 @ 498 8 4000380020001\n\
0 1 6 1 2: program; ref s global func | library; version V1; version V2; version V3; version V4; data 8; def s@V1 global func 0 8; def s@V2 global func 0 8; def s@V3 global func 0 8 @ 498 8 8005000480030001\n\
0 1 6: program; ref s global func | library; version V1; version V2; version V3; version V4; data 8; def s@V1 global func 0 8; def s@V2 global func 0 8; def s@V3 global func 0 8 @ 498 8 5000480030001\n\
0 1 6: program; ref s global func | library; version V1; version V2; version V3; version V4; data 8; def s@V1 global func 0 8; def s@V2 global func 0 8; def s@V3 global func 0 8 @ 498 8 8005800480030001";

/// The scope of these objects.
pub fn scope_of<'a>(alloc: Global, objects: &'a [Object]) -> Result<Scope<'a>, Fail>
    requires { All IsAccepted objects.now }
{
    if objects.len() > MAX_MEMBERS {
        return Err("few objects".into());
    }
    let mut members = Vec::new(alloc);
    for object in objects {
        let name = Text::copy_of(alloc, "name")?;
        members.push(Member { name, object })?;
    }
    Ok(Scope::new(members))
}

// The objects of samples.
fn objects_of(alloc: Global, samples: &str) -> Result<Vec<Object>, Fail>
    ensures { IfOk result (λ objects. All IsAccepted objects.items) }
{
    let mut objects = Vec::new(alloc);
    for sample in samples.split(" | ") {
        objects.push(object_of(alloc, sample)?)?;
    }
    Ok(objects)
}

/// Whether a reference's symbol is one of a member's.
pub fn is_symbol(scope: &Scope<'_>, reference: Reference) -> bool
    ensures { OnTrue result (IsSymbol (objects scope.now) reference.member reference.symbol) }
{
    if reference.member >= scope.count() {
        return false;
    }
    (reference.symbol as usize) < scope.object(reference.member).symbols.len()
}

// Whether answers that are kept, the first and the second time, are what a reference finds, after the searches of a member's references were looked ahead.
fn keeps(
    alloc: Global,
    scope: &Scope<'_>,
    reference: Reference,
    found: Option<Found>,
    member: u32,
) -> Result<bool, Fail>
    requires reference { IsReference scope.now reference }
    requires member { member < length scope.now }
{
    let mut kept = Kept::new(alloc, scope)?;
    kept.look_ahead(alloc, member)?;
    let first = kept.find(reference);
    let second = kept.find(reference);
    Ok(first == found && second == found)
}

// What a reference finds. A search through lists and kept answers, with searches that were looked ahead for its own member and for the first, find the same.
fn search(alloc: Global, scope: &Scope<'_>, reference: Reference) -> Result<Option<Found>, Fail> {
    if !is_symbol(scope, reference) {
        return Err("no such symbol".into());
    }
    let found = find(scope, reference);
    let own = keeps(alloc, scope, reference, found, reference.member)?;
    let other = keeps(alloc, scope, reference, found, 0)?;
    if find_in_lists(scope, reference) != found || !own || !other {
        return Err("the same answer".into());
    }
    Ok(found)
}

// What is to be found, by the numbers of a line behind the reference.
fn wanted(numbers: &[u32]) -> Option<Found> {
    match numbers {
        [member, symbol] => Some(Found {
            member: *member,
            symbol: *symbol,
        }),
        _ => None,
    }
}

// Whether the reference of a line finds what it says.
fn finds(alloc: Global, line: &str) -> Result<bool, Fail> {
    let (row, samples) = parts(line)?;
    let row = numbers32(alloc, row)?;
    let [member, symbol, kind, found @ ..] = row.as_slice() else {
        return Err("a reference".into());
    };
    let objects = objects_of(alloc, samples)?;
    let scope = scope_of(alloc, &objects)?;
    let reference = Reference {
        member: *member,
        symbol: *symbol,
        kind: *kind,
    };
    Ok(search(alloc, &scope, reference)? == wanted(found))
}

#[test]
fn finds_definers(rt: HostRuntime) -> Result<(), Fail> {
    for line in CASES.lines() {
        if !finds(rt.alloc(), line)? {
            return Err(line.into());
        }
    }
    Ok(())
}

#[test]
fn goes_by_versions(rt: HostRuntime) -> Result<(), Fail> {
    for line in VERSIONS.lines() {
        if !finds(rt.alloc(), line)? {
            return Err(line.into());
        }
    }
    Ok(())
}

// Names and their recipes.
const OBJECTS: &str = "\
q: program; needs libx; needs libz\n\
libx: library\n\
liby: library\n\
libz: library; needs liby; needs libx\n\
c: program; needs libm; needs c\n\
libm: library; needs libn; needs libm\n\
libn: library; needs libm; needs libn\n\
st: static\n\
p: program; needs libx; needs libp\n\
libp: library; needs p; needs gone\n\
libs: library; needs st\n\
libg: library; needs gone; needs libp";

// A name, and the names of its walk, each with a blank behind it, or why there is none.
const WALKS: &str = "\
q: q libx libz liby \n\
libz: libz liby libx \n\
c: c libm libn \n\
libn: libn libm \n\
st: st \n\
p: NeededIsProgram p\n\
libp: NeededIsProgram p\n\
libs: NeededIsProgram st\n\
libg: NotThere gone\n\
gone: NotThere gone";

// The names of a scope, each with a blank behind it.
fn names_of(alloc: Global, scope: &Scope<'_>) -> Result<String, AllocError> {
    let mut text = String::new(alloc);
    for member in scope.members() {
        text.push_str(member.name.as_str())?;
        text.push_str(" ")?;
    }
    Ok(text)
}

// The names of a walk, or why there is none.
fn text_of_walk(
    alloc: Global,
    name: &str,
    objects: &IndexMap<String, Object>,
) -> Result<String, AllocError>
    requires { All IsAccepted (values objects.now) }
{
    match walk(alloc, name, objects) {
        Ok(scope) => names_of(alloc, &scope),
        Err(fault) => format!(in alloc; "{fault:?}"),
    }
}

#[test]
fn walks(rt: HostRuntime) -> Result<(), Fail> {
    let objects = by_name(rt.alloc(), OBJECTS)?;
    for line in WALKS.lines() {
        let (name, wanted) = line.split_once(": ").ok_or("a name and a text")?;
        if text_of_walk(rt.alloc(), name, &objects)?.as_str() != wanted {
            return Err(line.into());
        }
    }
    Ok(())
}
