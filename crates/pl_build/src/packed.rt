// Words that the packed table relocates.
ghost use Rattle.std.specs.Prelude.{◌≡◌, ◌++◌, IfOk, OnOk, map};
ghost use Rattle.pl_build.specs.Packed as spec;
ghost use Rattle.pl_build.specs.LayoutPlan as plan;
ghost use Rattle.pl_build.specs.Recipe as gathering;

use crate::layout_plan::{LayoutPlan, data_address};
use crate::line::{Addend, DataWord, PackedWord};
use crate::recipe::{Recipe, Settings};
use pl_base::Rows;
use pl_relr::{is_packable, pack};
use std::alloc::{AllocError, Global};

/// An addend as a number of 64 bits.
#[tactic(auto, unfolding(crate::specs::LayoutPlan::addend_of))]
pub fn addend_of(addend: Addend) -> u64
    ensures { result ≡ plan.addend_of addend }
{
    if addend.negative {
        0u64.wrapping_sub(addend.magnitude)
    } else {
        addend.magnitude
    }
}

/// Words in the order of their offsets, those of one offset in their order. The time grows as `n log n`.
pub fn in_order(words: Rows<PackedWord>) -> Result<Rows<PackedWord>, AllocError>
    ensures { IfOk result (λ rows. rows ≡ gathering.in_order words) }
{
    let mut sorted = words.into_vec();
    sorted.sort_by_key(|word| word.offset)?;
    Ok(Rows::from_vec(sorted))
}

/// What the data holds at a packed word: an address.
#[tactic(auto, unfolding(crate::specs::LayoutPlan::data_word))]
fn data_word(settings: &Settings, word: PackedWord) -> DataWord
    ensures { result ≡ plan.data_word settings.now word }
{
    DataWord {
        offset: word.offset,
        value: data_address(settings).wrapping_add(addend_of(word.addend)),
    }
}

fn push_packed_words(words: &mut Vec<DataWord>, recipe: &Recipe) -> Result<(), AllocError>
    ensures { OnOk result (words.new.items ≡ words.old.items
        ++ map (plan.data_word recipe.now.settings) recipe.now.packed) }
{
    let packed = recipe.packed.as_slice();
    for word in packed {
        words.push(data_word(&recipe.settings, *word))?;
    }
    Ok(())
}

/// All words of the data: those of the lines `word`, then the packed ones.
#[tactic(auto, unfolding(crate::specs::LayoutPlan::data_words))]
pub fn data_words(alloc: Global, recipe: &Recipe) -> Result<Rows<DataWord>, AllocError>
    ensures { IfOk result (λ words. words ≡ plan.data_words recipe.now) }
{
    let mut words = Vec::from_slice(alloc, recipe.words.as_slice())?;
    push_packed_words(&mut words, recipe)?;
    Ok(Rows::from_vec(words))
}

fn packed_places(alloc: Global, plan: &LayoutPlan) -> Result<Vec<u64>, AllocError>
    ensures { IfOk result (λ v. v.items
        ≡ map (spec.packed_place plan.now.settings) plan.now.packed) }
{
    let mut places = Vec::new(alloc);
    let packed = plan.packed.as_slice();
    for word in packed {
        places.push(data_address(&plan.settings).wrapping_add(word.offset))?;
    }
    Ok(places)
}

/// The bytes of `.relr.dyn`: the table of the packed places.
#[tactic(auto, unfolding(crate::specs::Packed::packed_table))]
pub fn packed_table(alloc: Global, plan: &LayoutPlan) -> Result<Vec<u8>, AllocError>
    ensures { IfOk result (λ v. v.items ≡ spec.packed_table plan.now) }
{
    let places = packed_places(alloc, plan)?;
    if !is_packable(places.as_slice()) {
        return Ok(Vec::new(alloc));
    }
    let table = pack(alloc, places.as_slice())?;
    Ok(table.into_vec())
}
