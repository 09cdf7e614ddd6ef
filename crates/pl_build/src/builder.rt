// A recipe's file.
ghost use Rattle.std.specs.Prelude.{◌≡◌, ◌<◌, ◌^◌, ◌∷◌, ◌++◌, [], IfOk, IfSome, OnOk, length};
ghost use Rattle.pl_build.specs.Checks.{first_fault};
ghost use Rattle.pl_build.specs.Build as spec;
ghost use Rattle.pl_build.specs.Grammar as grammar;

use crate::checks::first_fault;
use crate::fault::RecipeFault;
use crate::file::made;
use crate::grammar::line;
use crate::layout_plan::plan_of;
use crate::line::Line;
use crate::recipe::gather;
use bstr::ByteSlice;
use pl_base::Rows;
use std::alloc::{AllocError, Global};

fn push_line(alloc: Global, lines: &mut Vec<Line>, text: &[u8]) -> Result<(), AllocError>
    ensures { OnOk result (lines.new.items ≡ lines.old.items ++ grammar.line text.now ∷ []) }
{
    lines.push(line(alloc, text)?)?;
    Ok(())
}

#[tactic(auto, unfolding(crate::specs::Build::lines, crate::specs::Words::pieces))]
fn lines(alloc: Global, recipe: &[u8]) -> Result<Vec<Line>, AllocError>
    ensures { IfOk result (λ v. v.items ≡ spec.lines recipe.now) }
{
    let mut lines = Vec::new(alloc);
    for text in recipe.split_str(b"\n") {
        push_line(alloc, &mut lines, text)?;
    }
    Ok(lines)
}

#[tactic(auto, unfolding(crate::specs::Build::made_of))]
fn made_of(alloc: Global, lines: Vec<Line>) -> Result<Rows<u8>, RecipeFault>
    requires { IfSome (first_fault lines.items) (λ fault. fault.line < 2 ^ 32) }
    ensures { spec.Builds result (spec.made_of lines.items) }
{
    if let Some(fault) = first_fault(alloc, lines.as_slice())? {
        return Err(RecipeFault::Bad {
            line: fault.line as u32,
            kind: fault.kind,
        });
    }
    let recipe = gather(alloc, lines)?;
    let plan = plan_of(alloc, recipe)?;
    let file = made(alloc, &plan);
    drop(plan);
    file
}

/// The file that a recipe describes.
///
/// A recipe is lines of text, with words parted by one space; an empty line says nothing. `Bad` names the first line with a
/// fault and the lowest kind of its faults, or line 0 where the tables or the file would be too large. A recipe has fewer
/// than 2^32 bytes, so that the number of that line has 32 bits.
#[tactic(auto, using(crate::proofs::LineLaws::fault_numbered), unfolding(crate::specs::Build::build))]
pub fn build(alloc: Global, recipe: &[u8]) -> Result<Rows<u8>, RecipeFault>
    requires { length recipe.now < 2 ^ 32 }
    ensures { spec.Builds result (spec.build recipe.now) }
{
    let lines = lines(alloc, recipe)?;
    made_of(alloc, lines)
}
