// Recipes, and the files that they build.
use crate::words::lines_of;
use pl_build::build;
use pl_build::recipes::{EXAMPLES, Example};
use std::alloc::{AllocError, Global};
use std::test::Fail;

/// Recipes that have a name.
pub fn examples() -> &'static [Example] {
    &EXAMPLES
}

/// The lines of a recipe: those of the example of this name, or the text's own, which semicolons part.
pub fn recipe_of(alloc: Global, text: &str) -> Result<String, AllocError> {
    for (name, recipe) in examples() {
        if *name == text {
            return String::from_str(alloc, recipe);
        }
    }
    lines_of(alloc, text)
}

/// The file that a recipe builds.
pub fn built(alloc: Global, text: &str) -> Result<Vec<u8>, Fail> {
    let recipe = recipe_of(alloc, text)?;
    if recipe.len() > 0x1000 {
        return Err("a short recipe".into());
    }
    Ok(build(alloc, recipe.as_bytes())?.into_vec())
}
