ghost use Rattle.std.specs.Prelude.{◌≡◌, IfOk, IfErr, Ok, Err};
ghost use Rattle.std.specs.List.{All, IsAmong};
ghost use Rattle.indexmap.specs.IndexMap.{get_by_text, values};
ghost use Rattle.pl_base.specs.Answers.{Answers};
ghost use Rattle.pl_scope.specs.Scope.{IsAccepted};
ghost use Rattle.pl_scope.specs.Walk as spec;

use crate::{MAX_MEMBERS, Member, Order, Scope, WalkFault};
use indexmap::IndexMap;
use pl_base::Text;
use pl_object::Object;
use std::alloc::Global;

fn member_of<'a>(
    alloc: Global,
    name: &str,
    objects: &'a IndexMap<String, Object>,
) -> Result<Member<'a>, WalkFault>
    ensures ok { IfOk result (λ m. spec.object_of (get_by_text objects.now) name.now
        ≡ Ok m.object.now) }
    ensures err { IfErr result (λ fault. Answers spec.is_memory (Err fault)
        (spec.object_of (get_by_text objects.now) name.now)) }
    ensures name { IfOk result (λ m. m.name ≡ name.now) }
    ensures among { IfOk result (λ m. IsAmong (values objects.now) m.object.now) }
{
    let Some(object) = objects.get(name) else {
        return Err(WalkFault::NotThere(Text::copy_of(alloc, name)?));
    };
    Ok(Member {
        name: Text::copy_of(alloc, name)?,
        object,
    })
}

/// The scope of a name: the walk of the name over the objects (gABI chapter 5, "Shared Object Dependencies"). It begins with the name; each object in turn appends the names that it needs, in their order, each name once.
///
/// The first refusal counts: `NotThere` where a name has no object; `NeededIsProgram` where an object after the first is no library, with its name, or needs the first, which is a program, with the first's name; `TooMany` where a name would be appended to `MAX_MEMBERS` names. The walk of a static program is itself alone. Each object is one that `accept` gave.
pub fn walk<'a>(
    alloc: Global,
    name: &str,
    objects: &'a IndexMap<String, Object>,
) -> Result<Scope<'a>, WalkFault>
    requires { All IsAccepted (values objects.now) }
    ensures ok { IfOk result (λ scope. spec.walk_over (get_by_text objects.now) name.now
        ≡ Ok scope) }
    ensures err { IfErr result (λ fault. Answers spec.is_memory (Err fault)
        (spec.walk_over (get_by_text objects.now) name.now)) }
{
    let mut order = Order::new(alloc, name)?;
    let mut members = Vec::new(alloc);
    for _count in 0..MAX_MEMBERS {
        let Some(wanted) = order.wants() else {
            return Ok(Scope::new(members));
        };
        let member = member_of(alloc, wanted, objects)?;
        order.give(alloc, member.object)?;
        members.push(member)?;
    }
    Ok(Scope::new(members))
}
