// What follows from a recipe before anything is laid out.
ghost use Rattle.std.specs.Prelude.{◌≡◌, ◌<◌, ◌^◌, ◌++◌, IfOk, OnOk};
ghost use Rattle.std.specs.List.{list_any};
ghost use Rattle.pl_build.specs.Derived as parts;
ghost use Rattle.pl_build.specs.LayoutPlan as spec;

use crate::choices::push_chosen;
use crate::constants::{BASE, DATA_DISTANCE};
use crate::line::{DataWord, PackedWord, Relocation, SymbolLine};
use crate::needed::{Need, files_of, needs_of};
use crate::packed::data_words;
use crate::recipe::{Recipe, Settings};
use crate::roles::Role;
use crate::string_table::{StringTable, add_files, add_symbols, add_texts, add_versions, start};
use crate::symbols::ordered;
use pl_base::Rows;
use pl_elf::constants::R_X86_64_JUMP_SLOT;
use std::alloc::{AllocError, Global};

/// What is to be laid out.
#[derive(Drop)]
pub struct LayoutPlan {
    pub settings: Settings,

    /// The names of needed libraries.
    pub needed: Rows<Rows<u8>>,
    pub words: Rows<DataWord>,

    /// The versions that are defined.
    pub versions: Rows<Rows<u8>>,

    /// All symbols but the null one, in the order of the symbol table.
    pub symbols: Rows<SymbolLine>,
    pub relocations: Rows<Relocation>,

    /// In the order of their offsets.
    pub packed: Rows<PackedWord>,

    /// The versions that are needed, and the files that they are needed of.
    pub needs: Rows<Need>,
    pub files: Rows<Rows<u8>>,
    pub strings: StringTable,

    /// The sections.
    pub roles: Rows<Role>,
}

/// What is worked out of a recipe for its layout: what the plan has and the recipe has not as it is.
#[derive(Drop)]
pub struct Derived {
    pub words: Rows<DataWord>,
    pub needs: Rows<Need>,
    pub roles: Rows<Role>,
    pub symbols: Rows<SymbolLine>,
    pub files: Rows<Rows<u8>>,
    pub strings: StringTable,
}

/// The address of the file's first byte.
#[tactic(auto, unfolding(crate::specs::LayoutPlan::base_of))]
pub fn base_of(settings: &Settings) -> u64
    ensures value { result ≡ spec.base_of settings.now }
    ensures small { result < 2 ^ 32 }
{
    if settings.kind.is_position_independent() {
        0
    } else {
        BASE
    }
}

/// The address of the data.
#[tactic(auto, unfolding(crate::specs::LayoutPlan::data_address))]
pub fn data_address(settings: &Settings) -> u64
    ensures { result ≡ spec.data_address settings.now }
{
    base_of(settings) + DATA_DISTANCE
}

/// Whether the file names an interpreter.
#[tactic(auto, unfolding(crate::specs::LayoutPlan::has_interp))]
pub fn has_interp(settings: &Settings) -> bool
    ensures { result ≡ spec.has_interp settings.now }
{
    settings.usual && settings.kind.is_program()
}

/// Whether a relocation is that of a jump slot.
pub fn is_jump_slot(relocation: &Relocation) -> bool
    ensures { result ≡ spec.is_jump_slot relocation.now }
{
    relocation.kind == R_X86_64_JUMP_SLOT
}

/// Whether a relocation is another one.
pub fn is_other(relocation: &Relocation) -> bool
    ensures { result ≡ spec.is_other relocation.now }
{
    !is_jump_slot(relocation)
}

fn has_jump_slots(relocations: &[Relocation]) -> bool
    ensures { result ≡ list_any spec.is_jump_slot relocations.now }
{
    relocations.iter().any(|r| is_jump_slot(r))
}

fn has_others(relocations: &[Relocation]) -> bool
    ensures { result ≡ list_any spec.is_other relocations.now }
{
    relocations.iter().any(|r| is_other(r))
}

fn has_versioned(symbols: &[SymbolLine]) -> bool
    ensures { result ≡ list_any spec.is_versioned symbols.now }
{
    symbols.iter().any(|symbol| symbol.version.len() != 0)
}

#[tactic(auto, unfolding(crate::specs::LayoutPlan::has_versions))]
fn has_versions(recipe: &Recipe) -> bool
    ensures { result ≡ spec.has_versions recipe.now }
{
    recipe.versions.len() != 0 || has_versioned(recipe.symbols.as_slice())
}

#[tactic(auto, unfolding(crate::specs::LayoutPlan::first_roles))]
fn push_first_roles(roles: &mut Vec<Role>, settings: &Settings) -> Result<(), AllocError>
    ensures { OnOk result (roles.new.items ≡ roles.old.items ++ spec.first_roles settings.now) }
{
    let linked = !settings.kind.is_static();
    push_chosen(
        roles,
        &[
            (true, Role::Null),
            (has_interp(settings), Role::Interp),
            (linked && settings.hashes.sysv, Role::Hash),
            (linked && settings.hashes.gnu, Role::GnuHash),
            (linked, Role::Dynsym),
            (linked, Role::Dynstr),
        ],
    )
}

#[tactic(auto, unfolding(crate::specs::LayoutPlan::next_roles))]
fn push_next_roles(roles: &mut Vec<Role>, recipe: &Recipe, needs: &[Need]) -> Result<(), AllocError>
    ensures { OnOk result (roles.new.items ≡ roles.old.items
        ++ spec.next_roles recipe.now needs.now) }
{
    let relocations = recipe.relocations.as_slice();
    push_chosen(
        roles,
        &[
            (has_versions(recipe), Role::Versym),
            (recipe.versions.len() != 0, Role::Verdef),
            (needs.len() != 0, Role::Verneed),
            (has_others(relocations), Role::RelaDyn),
            (has_jump_slots(relocations), Role::RelaPlt),
            (recipe.packed.len() != 0, Role::RelrDyn),
        ],
    )
}

#[tactic(auto, unfolding(crate::specs::LayoutPlan::last_roles))]
fn push_last_roles(roles: &mut Vec<Role>, settings: &Settings) -> Result<(), AllocError>
    ensures { OnOk result (roles.new.items ≡ roles.old.items ++ spec.last_roles settings.now) }
{
    push_chosen(
        roles,
        &[
            (!settings.kind.is_static(), Role::Dynamic),
            (true, Role::Data),
            (true, Role::Bss),
            (true, Role::Shstrtab),
        ],
    )
}

#[tactic(auto, unfolding(crate::specs::LayoutPlan::roles_of))]
fn roles_of(alloc: Global, recipe: &Recipe, needs: &[Need]) -> Result<Rows<Role>, AllocError>
    ensures { IfOk result (λ v. v ≡ spec.roles_of recipe.now needs.now) }
{
    let mut roles = Vec::new(alloc);
    push_first_roles(&mut roles, &recipe.settings)?;
    push_next_roles(&mut roles, recipe, needs)?;
    push_last_roles(&mut roles, &recipe.settings)?;
    Ok(Rows::from_vec(roles))
}

#[tactic(auto, unfolding(crate::specs::LayoutPlan::strings_of))]
fn strings_of(
    alloc: Global,
    recipe: &Recipe,
    symbols: &[SymbolLine],
    needs: &[Need],
    files: &[Rows<u8>],
) -> Result<StringTable, AllocError>
    ensures { IfOk result (λ s. s ≡ spec.strings_of recipe.now symbols.now needs.now files.now) }
{
    let strings = add_texts(alloc, start(alloc)?, recipe.needs.as_slice())?;
    let strings = add_symbols(alloc, strings, symbols)?;
    let strings = add_versions(alloc, strings, recipe.versions.as_slice())?;
    Ok(add_files(alloc, strings, needs, files)?.into_table())
}

#[tactic(auto, unfolding(crate::specs::Derived::derived_of))]
fn derived_of(alloc: Global, recipe: &Recipe) -> Result<Derived, AllocError>
    ensures { IfOk result (λ d. d ≡ parts.derived_of recipe.now) }
{
    let words = data_words(alloc, recipe)?;
    let needs = needs_of(alloc, recipe.symbols.as_slice())?;
    let roles = roles_of(alloc, recipe, needs.as_slice())?;
    let symbols = ordered(alloc, &recipe.settings, recipe.symbols.as_slice())?;
    let files = files_of(alloc, needs.as_slice())?;
    let strings = strings_of(
        alloc,
        recipe,
        symbols.as_slice(),
        needs.as_slice(),
        files.as_slice(),
    )?;
    Ok(Derived {
        words,
        needs,
        roles,
        symbols,
        files,
        strings,
    })
}

fn assembled(recipe: Recipe, derived: Derived) -> LayoutPlan
    ensures { result ≡ parts.assembled recipe derived }
{
    let Recipe {
        settings,
        needs: needed,
        words: _,
        versions,
        symbols: _,
        relocations,
        packed,
    } = recipe;
    let Derived {
        words,
        needs,
        roles,
        symbols,
        files,
        strings,
    } = derived;
    LayoutPlan {
        settings,
        needed,
        words,
        versions,
        symbols,
        relocations,
        packed,
        needs,
        files,
        strings,
        roles,
    }
}

/// What is to be laid out for a recipe.
pub fn plan_of(alloc: Global, recipe: Recipe) -> Result<LayoutPlan, AllocError>
    ensures { IfOk result (λ p. p ≡ spec.plan_of recipe) }
{
    let derived = derived_of(alloc, &recipe)?;
    Ok(assembled(recipe, derived))
}
