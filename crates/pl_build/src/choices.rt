// Rows of a table that may be there.
ghost use Rattle.std.specs.Prelude.{◌≡◌, ◌∷◌, ◌++◌, [], OnOk};
ghost use Rattle.pl_build.specs.Choices as spec;

use std::alloc::AllocError;

/// Adds a row, if it is there.
#[tactic(auto, unfolding(crate::specs::Choices::chosen))]
fn push_one<T: Copy>(out: &mut Vec<T>, choice: &(bool, T)) -> Result<(), AllocError>
    ensures { OnOk result (out.new.items ≡ out.old.items ++ spec.chosen (choice.now ∷ [])) }
{
    if choice.0 {
        out.push(choice.1)?;
    }
    Ok(())
}

/// Adds the rows that are there, in their order.
pub fn push_chosen<T: Copy>(out: &mut Vec<T>, choices: &[(bool, T)]) -> Result<(), AllocError>
    ensures { OnOk result (out.new.items ≡ out.old.items ++ spec.chosen choices.now) }
{
    for choice in choices {
        push_one(out, choice)?;
    }
    Ok(())
}
