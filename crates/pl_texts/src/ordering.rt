// The order in which the objects of a walk are initialised.
ghost use Rattle.std.specs.Prelude.{◌≡◌, IfOk};
ghost use Rattle.pl_texts.specs.Finds.{HasOrdered};
ghost use Rattle.pl_texts.specs.Files.{Unasked};
ghost use Rattle.pl_texts.specs.Order as spec;

use crate::detail::Detail;
use crate::named_object::NamedObject;
use crate::stop::Stop;
use crate::walk::walk;
use pl_base::Text;
use pl_folder::Folder;
use pl_init::{full_text, short_text};
use pl_io::NoMemory;
use pl_scope::{Member, Scope};
use std::alloc::{AllocError, Global};

/// The scope of a walk's members.
fn scope_of<'a>(alloc: Global, members: &'a [NamedObject]) -> Result<Scope<'a>, AllocError>
    requires { spec.AreMembers members.now }
    ensures { IfOk result (λ scope. scope ≡ spec.members_of members.now) }
{
    let mut scope = Vec::new(alloc);
    for member in members {
        scope.push(Member {
            name: Text::copy_of(alloc, member.name.as_str())?,
            object: &member.object,
        })?;
    }
    Ok(Scope::new(scope))
}

/// The text of the order of a walk's members.
fn order_text(alloc: Global, members: &[NamedObject], detail: Detail) -> Result<Vec<u8>, NoMemory>
    requires members { spec.AreMembers members.now }
    ensures { IfOk result (λ text.
        text.items ≡ spec.order_text detail (spec.members_of members.now)) }
{
    let scope = scope_of(alloc, members)?;
    match detail {
        Detail::Short => short_text(alloc, &scope),
        Detail::Full => full_text(alloc, &scope),
    }
}

/// The text of the order in which the objects of the walk of a name are initialised, or the first cause why there is no such walk. For a name that is not valid the folder is not asked.
pub fn order<D: Folder>(
    alloc: Global,
    folder: &mut D,
    name: &str,
    detail: Detail,
) -> Result<Vec<u8>, Stop>
    ensures ordered { HasOrdered name.now detail result
        (D.seen folder.old) (D.seen folder.new) }
    ensures unasked { Unasked name.now folder.old folder.new }
{
    let members = walk(alloc, folder, name)?;
    Ok(order_text(alloc, &members, detail)?)
}
