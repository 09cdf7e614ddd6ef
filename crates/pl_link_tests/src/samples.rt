// Files and objects of recipes, with changed bytes.
ghost use Rattle.std.specs.Prelude.{IfOk, OnOk};
ghost use Rattle.std.specs.List.{All};
ghost use Rattle.indexmap.specs.IndexMap.{values};
ghost use Rattle.pl_scope.specs.Scope.{IsAccepted};

use indexmap::IndexMap;
use pl_build::build;
use pl_cases::{numbers, parts};
use pl_object::{ORIGINAL, Object, accept};
use std::alloc::{AllocError, Global};
use std::test::Fail;

/// Puts a number of so many bytes at an offset of a file, where it fits.
fn put(file: &mut [u8], at: usize, size: usize, number: u64) {
    let bytes = number.to_le_bytes();
    if size <= 8 && at < file.len() && size <= file.len() - at {
        file[at..at + size].copy_from_slice(&bytes[..size]);
    }
}

/// Puts numbers into a file, each behind its offset and its size.
fn put_fields(file: &mut [u8], fields: &[u64]) -> Result<(), Fail> {
    for field in fields.chunks(3) {
        let [at, size, number] = field else {
            return Err("an offset, a size and a number".into());
        };
        put(file, *at as usize, *size as usize, *number);
    }
    Ok(())
}

/// The file of a recipe, whose lines semicolons part, with numbers put into it, each behind its offset and its size, in hexadecimal.
pub fn changed_file(alloc: Global, recipe: &str, fields: &str) -> Result<Vec<u8>, Fail> {
    let recipe = recipe.replace(alloc, "; ", "\n")?;
    if recipe.len() > 0x1000 {
        return Err("a short recipe".into());
    }
    let mut file = build(alloc, recipe.as_bytes())?.into_vec();
    put_fields(file.as_mut_slice(), &numbers(alloc, fields)?)?;
    Ok(file)
}

/// The file of a sample: a recipe, and behind an `@` the numbers that are put into its file, if there are any.
pub fn file_of(alloc: Global, sample: &str) -> Result<Vec<u8>, Fail> {
    let (recipe, fields) = sample.split_once(" @ ").unwrap_or((sample, ""));
    changed_file(alloc, recipe, fields)
}

/// The lines of so many needed names, from `lib0` on.
pub fn needs(alloc: Global, count: usize) -> Result<String, AllocError> {
    let mut lines = String::new(alloc);
    for library in 0..count {
        lines.push_str(format!(in alloc; "needs lib{library}\n")?.as_str())?;
    }
    Ok(lines)
}

/// The object of a file.
pub fn accepted(alloc: Global, file: &[u8]) -> Result<Object, Fail>
    ensures { IfOk result (λ object. IsAccepted object) }
{
    if file.len() > ORIGINAL {
        return Err("a short file".into());
    }
    Ok(accept(alloc, file)?)
}

/// The object of a sample's file.
pub fn object_of(alloc: Global, sample: &str) -> Result<Object, Fail>
    ensures { IfOk result (λ object. IsAccepted object) }
{
    let file = file_of(alloc, sample)?;
    accepted(alloc, &file)
}

/// Gives a name the object of a recipe's file.
pub fn insert(
    alloc: Global,
    objects: &mut IndexMap<String, Object>,
    name: &str,
    recipe: &str,
) -> Result<(), Fail>
    requires { All IsAccepted (values objects.old) }
    ensures { OnOk result (All IsAccepted (values objects.new)) }
{
    let object = object_of(alloc, recipe)?;
    objects.insert(String::from_str(alloc, name)?, object)?;
    Ok(())
}

/// The objects of recipes by their names, a line for each.
pub fn by_name(alloc: Global, samples: &str) -> Result<IndexMap<String, Object>, Fail>
    ensures { IfOk result (λ objects. All IsAccepted (values objects)) }
{
    let mut objects = IndexMap::new(alloc);
    for line in samples.lines() {
        let (name, recipe) = parts(line)?;
        insert(alloc, &mut objects, name, recipe)?;
    }
    Ok(objects)
}
