// The tables of symbol versions.
ghost use Rattle.std.specs.Prelude.{◌≡◌, ◌++◌, ◌+◌, ◌<◌, ◌≤◌, IfOk, OnOk, length, position};
ghost use Rattle.std.specs.List.{flat_map, list_any, range_with_len};
ghost use Rattle.pl_build.specs.Needed.{is_of, is_need_of};
ghost use Rattle.pl_build.specs.Versions as spec;

use crate::fields::{Field, push_fields};
use crate::indexed_plan::IndexedPlan;
use crate::line::SymbolLine;
use crate::needed::{Need, is_need_of, is_of};
use crate::words::word;
use pl_base::Rows;
use pl_hash::sysv_hash;
use pl_ver::constants::{
    VER_FLG_BASE, VER_NDX_GLOBAL, VERDAUX_SIZE, VERDEF_SIZE, VERNAUX_SIZE, VERNEED_SIZE,
    VERSYM_HIDDEN,
};
use std::alloc::{AllocError, Global};

const FIRST_DEFINED: usize = VER_NDX_GLOBAL as usize + 1;

#[tactic(auto, unfolding(crate::specs::Versions::first_needed))]
fn first_needed(plan: &IndexedPlan<'_>) -> usize
    ensures { result ≡ spec.first_needed plan.now }
{
    FIRST_DEFINED + plan.layout().versions.as_slice().len()
}

#[tactic(auto, unfolding(crate::specs::Versions::defined_index))]
fn defined_index(plan: &IndexedPlan<'_>, symbol: &SymbolLine) -> usize
    ensures { result ≡ spec.defined_index plan.now symbol.now }
{
    let index = plan
        .version_position(symbol.version.as_slice())
        .unwrap_or(0);
    FIRST_DEFINED.wrapping_add(index)
}

fn position_of_need(needs: &[Need], symbol: &SymbolLine) -> Option<usize>
    ensures { result ≡ position (is_need_of symbol.now) needs.now }
{
    needs.iter().position(|need| is_need_of(symbol, need))
}

#[tactic(auto, unfolding(crate::specs::Versions::needed_index))]
fn needed_index(plan: &IndexedPlan<'_>, symbol: &SymbolLine) -> usize
    ensures { result ≡ spec.needed_index plan.now symbol.now }
{
    let index = position_of_need(plan.layout().needs.as_slice(), symbol).unwrap_or(0);
    first_needed(plan).wrapping_add(index)
}

#[tactic(auto, unfolding(crate::specs::Versions::version_word))]
fn version_word(plan: &IndexedPlan<'_>, symbol: &SymbolLine) -> u64
    ensures { result ≡ spec.version_word plan.now symbol.now }
{
    if symbol.version.len() == 0 {
        u64::from(VER_NDX_GLOBAL)
    } else if symbol.file.len() != 0 {
        needed_index(plan, symbol) as u64
    } else if symbol.default_version {
        defined_index(plan, symbol) as u64
    } else {
        u64::from(VERSYM_HIDDEN).wrapping_add(defined_index(plan, symbol) as u64)
    }
}

/// The bytes of `.gnu.version`: the version word of each symbol.
#[tactic(auto, unfolding(crate::specs::Versions::version_words, crate::specs::Fields::fields))]
pub fn version_words(alloc: Global, plan: &IndexedPlan<'_>) -> Result<Vec<u8>, AllocError>
    ensures { IfOk result (λ v. v.items ≡ spec.version_words plan.now) }
{
    let mut out = Vec::new(alloc);
    push_fields(&mut out, &[Field::Half(u64::from(VER_NDX_GLOBAL))])?;
    let symbols = plan.layout().symbols.as_slice();
    for symbol in symbols {
        push_fields(&mut out, &[Field::Half(version_word(plan, symbol))])?;
    }
    Ok(out)
}

#[tactic(auto, unfolding(crate::specs::Versions::verdef_bytes))]
fn push_verdef(
    out: &mut Vec<u8>,
    plan: &IndexedPlan<'_>,
    flags: u64,
    index: u64,
    name: &[u8],
    next: u64,
) -> Result<(), AllocError>
    ensures { OnOk result (out.new.items ≡ out.old.items
        ++ spec.verdef_bytes plan.now flags index name.now next) }
{
    push_fields(
        out,
        &[
            Field::Half(1),
            Field::Half(flags),
            Field::Half(index),
            Field::Half(1),
            Field::Word(u64::from(sysv_hash(name))),
            Field::Word(VERDEF_SIZE as u64),
            Field::Word(next),
        ],
    )?;
    let name_at = plan.text_at(name);
    push_fields(out, &[Field::Word(name_at), Field::Word(0)])
}

#[tactic(auto, unfolding(crate::specs::Versions::next_verdef))]
fn next_verdef(plan: &IndexedPlan<'_>, index: usize) -> u64
    requires { index < length plan.now.versions }
    ensures { result ≡ spec.next_verdef plan.now index }
{
    let count = plan.layout().versions.as_slice().len();
    if index + 1 == count {
        0
    } else {
        (VERDEF_SIZE + VERDAUX_SIZE) as u64
    }
}

#[tactic(auto, unfolding(crate::specs::Versions::verdef_at))]
fn push_verdef_at(out: &mut Vec<u8>, plan: &IndexedPlan<'_>, index: usize) -> Result<(), AllocError>
    requires { index < length plan.now.versions }
    ensures { OnOk result (out.new.items ≡ out.old.items ++ spec.verdef_at plan.now index) }
{
    let name = word(plan.layout().versions.as_slice(), index);
    let next = next_verdef(plan, index);
    push_verdef(out, plan, 0, (FIRST_DEFINED + index) as u64, name, next)
}

fn push_verdefs(out: &mut Vec<u8>, plan: &IndexedPlan<'_>) -> Result<(), AllocError>
    ensures { OnOk result (out.new.items ≡ out.old.items
        ++ flat_map (spec.verdef_at plan.now) (range_with_len 0 (length plan.now.versions))) }
{
    let count = plan.layout().versions.len();
    for index in 0..count {
        push_verdef_at(out, plan, index)?;
    }
    Ok(())
}

/// The bytes of `.gnu.version_d`: the versions that are defined.
#[tactic(auto, unfolding(crate::specs::Versions::verdefs))]
pub fn verdefs(alloc: Global, plan: &IndexedPlan<'_>) -> Result<Vec<u8>, AllocError>
    ensures { IfOk result (λ v. v.items ≡ spec.verdefs plan.now) }
{
    let mut out = Vec::new(alloc);
    push_verdef(
        &mut out,
        plan,
        u64::from(VER_FLG_BASE),
        u64::from(VER_NDX_GLOBAL),
        b"base",
        (VERDEF_SIZE + VERDAUX_SIZE) as u64,
    )?;
    push_verdefs(&mut out, plan)?;
    Ok(out)
}

fn has_of(needs: &[Need], file: &[u8]) -> bool
    ensures { result ≡ list_any (is_of file.now) needs.now }
{
    needs.iter().any(|need| is_of(file, need))
}

#[tactic(auto, unfolding(crate::specs::Versions::next_vernaux))]
fn next_vernaux(later: &[Need], need: &Need) -> u64
    ensures { result ≡ spec.next_vernaux later.now need.now }
{
    if has_of(later, need.file.as_slice()) {
        VERNAUX_SIZE as u64
    } else {
        0
    }
}

#[tactic(auto, unfolding(crate::specs::Versions::vernaux_bytes))]
fn push_vernaux(
    out: &mut Vec<u8>,
    plan: &IndexedPlan<'_>,
    index: usize,
    need: &Need,
) -> Result<(), AllocError>
    requires { index < length plan.now.needs }
    ensures { OnOk result (out.new.items ≡ out.old.items
        ++ spec.vernaux_bytes plan.now index need.now) }
{
    let version = need.version.as_slice();
    let later = &plan.layout().needs.as_slice()[index + 1..];
    push_fields(
        out,
        &[
            Field::Word(u64::from(sysv_hash(version))),
            Field::Half(0),
            Field::Half(first_needed(plan).wrapping_add(index) as u64),
            Field::Word(plan.text_at(version)),
            Field::Word(next_vernaux(later, need)),
        ],
    )
}

#[tactic(auto, using(crate::proofs::LoopLaws::with_none), unfolding(crate::specs::Versions::vernaux_of))]
fn push_vernaux_of(
    out: &mut Vec<u8>,
    plan: &IndexedPlan<'_>,
    file: &[u8],
    index: usize,
    need: &Need,
) -> Result<(), AllocError>
    requires { index < length plan.now.needs }
    ensures { OnOk result (out.new.items ≡ out.old.items
        ++ spec.vernaux_of plan.now file.now index need.now) }
{
    if !is_of(file, need) {
        return Ok(());
    }
    push_vernaux(out, plan, index, need)
}

#[tactic(auto, using(crate::proofs::LoopLaws::with_none), unfolding(crate::specs::Versions::vernaux_at))]
fn push_vernaux_at(
    out: &mut Vec<u8>,
    plan: &IndexedPlan<'_>,
    file: &[u8],
    index: usize,
) -> Result<(), AllocError>
    requires { index < length plan.now.needs }
    ensures { OnOk result (out.new.items ≡ out.old.items
        ++ spec.vernaux_at plan.now file.now index) }
{
    match plan.layout().needs.as_slice().get(index) {
        Some(need) => push_vernaux_of(out, plan, file, index, need),
        None => Ok(()),
    }
}

fn push_vernauxes(out: &mut Vec<u8>, plan: &IndexedPlan<'_>, file: &[u8]) -> Result<(), AllocError>
    ensures { OnOk result (out.new.items ≡ out.old.items
        ++ flat_map (spec.vernaux_at plan.now file.now)
        (range_with_len 0 (length plan.now.needs))) }
{
    let count = plan.layout().needs.len();
    for index in 0..count {
        push_vernaux_at(out, plan, file, index)?;
    }
    Ok(())
}

#[tactic(auto, unfolding(crate::specs::Versions::count_of))]
fn count_of(plan: &IndexedPlan<'_>, file: &[u8]) -> usize
    ensures value { result ≡ spec.count_of plan.now file.now }
    ensures within { result ≤ length plan.now.needs }
{
    plan.layout()
        .needs
        .as_slice()
        .iter()
        .filter(|need| is_of(file, need))
        .count()
}

#[tactic(auto, unfolding(crate::specs::Versions::rows_end))]
fn rows_end(count: u64) -> u64
    ensures { result ≡ spec.rows_end count }
{
    (VERNAUX_SIZE as u64)
        .wrapping_mul(count)
        .wrapping_add(VERNEED_SIZE as u64)
}

#[tactic(auto, unfolding(crate::specs::Versions::next_verneed))]
fn next_verneed(plan: &IndexedPlan<'_>, index: usize) -> u64
    requires { index < length plan.now.files }
    ensures { result ≡ spec.next_verneed plan.now index }
{
    let files = plan.layout().files.as_slice().len();
    if index + 1 == files {
        0
    } else {
        let count = count_of(plan, word(plan.layout().files.as_slice(), index));
        rows_end(count as u64)
    }
}

#[tactic(auto, unfolding(crate::specs::Versions::verneed_bytes))]
fn push_verneed(out: &mut Vec<u8>, plan: &IndexedPlan<'_>, index: usize) -> Result<(), AllocError>
    requires { index < length plan.now.files }
    ensures { OnOk result (out.new.items ≡ out.old.items ++ spec.verneed_bytes plan.now index) }
{
    let file = word(plan.layout().files.as_slice(), index);
    push_fields(
        out,
        &[
            Field::Half(1),
            Field::Half(count_of(plan, file) as u64),
            Field::Word(plan.text_at(file)),
            Field::Word(VERNEED_SIZE as u64),
            Field::Word(next_verneed(plan, index)),
        ],
    )
}

#[tactic(auto, unfolding(crate::specs::Versions::verneed_at))]
fn push_verneed_at(
    out: &mut Vec<u8>,
    plan: &IndexedPlan<'_>,
    index: usize,
) -> Result<(), AllocError>
    requires { index < length plan.now.files }
    ensures { OnOk result (out.new.items ≡ out.old.items ++ spec.verneed_at plan.now index) }
{
    push_verneed(out, plan, index)?;
    push_vernauxes(out, plan, word(plan.layout().files.as_slice(), index))
}

fn push_verneeds(out: &mut Vec<u8>, plan: &IndexedPlan<'_>) -> Result<(), AllocError>
    ensures { OnOk result (out.new.items ≡ out.old.items
        ++ flat_map (spec.verneed_at plan.now) (range_with_len 0 (length plan.now.files))) }
{
    let count = plan.layout().files.len();
    for index in 0..count {
        push_verneed_at(out, plan, index)?;
    }
    Ok(())
}

/// The bytes of `.gnu.version_r`: the versions that are needed.
#[tactic(auto, unfolding(crate::specs::Versions::verneeds))]
pub fn verneeds(alloc: Global, plan: &IndexedPlan<'_>) -> Result<Vec<u8>, AllocError>
    ensures { IfOk result (λ v. v.items ≡ spec.verneeds plan.now) }
{
    let mut out = Vec::new(alloc);
    push_verneeds(&mut out, plan)?;
    Ok(out)
}
