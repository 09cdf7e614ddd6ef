ghost use Rattle.std.specs.Prelude.{◌≡◌, IfOk, OnOk};
ghost use Rattle.pl_build.specs.Recipe as spec;

use crate::constants::{BUCKETS, SPARE};
use crate::kind::FileKind;
use crate::line::{DataWord, Hashes, Line, PackedWord, Relocation, SymbolLine, TlsBlock};
use crate::packed::in_order;
use pl_base::Rows;
use std::alloc::{AllocError, Global};

/// The lines of a recipe that stand once.
#[derive(Clone, Copy)]
pub struct Settings {
    pub kind: FileKind,
    pub usual: bool,
    pub hashes: Hashes,
    pub buckets: u64,
    pub spare: u64,
    pub symbolic: bool,
    pub entry: Option<u64>,
    pub data_size: u64,
    pub bss: u64,
    pub tls: Option<TlsBlock>,
}

/// What all lines of a recipe say, each list but the last in their order.
#[derive(Drop)]
pub struct Recipe {
    pub settings: Settings,
    pub needs: Rows<Rows<u8>>,
    pub words: Rows<DataWord>,
    pub versions: Rows<Rows<u8>>,
    pub symbols: Rows<SymbolLine>,
    pub relocations: Rows<Relocation>,

    /// In the order of their offsets.
    pub packed: Rows<PackedWord>,
}

fn defaults() -> Settings
    ensures { result ≡ spec.defaults }
{
    Settings {
        kind: FileKind::Program,
        usual: false,
        hashes: Hashes {
            sysv: true,
            gnu: false,
        },
        buckets: BUCKETS,
        spare: SPARE,
        symbolic: false,
        entry: None,
        data_size: 0,
        bss: 0,
        tls: None,
    }
}

fn empty(alloc: Global) -> Recipe
    ensures { result ≡ spec.empty }
{
    Recipe {
        settings: defaults(),
        needs: Rows::new(alloc),
        words: Rows::new(alloc),
        versions: Rows::new(alloc),
        symbols: Rows::new(alloc),
        relocations: Rows::new(alloc),
        packed: Rows::new(alloc),
    }
}

fn set(settings: &mut Settings, line: &Line)
    ensures { settings.new ≡ spec.set settings.old line.now }
{
    match line {
        Line::First(kind) => settings.kind = *kind,
        Line::Usual => settings.usual = true,
        Line::Hash(hashes) => settings.hashes = *hashes,
        Line::Buckets(buckets) => settings.buckets = *buckets,
        Line::Spare(spare) => settings.spare = *spare,
        Line::Symbolic => settings.symbolic = true,
        Line::Entry(offset) => settings.entry = Some(*offset),
        Line::Data(size) => settings.data_size = *size,
        Line::Bss(bss) => settings.bss = *bss,
        Line::Tls(tls) => settings.tls = Some(*tls),
        _ => {}
    }
}

/// The packed words in the order of their offsets.
fn sorted_recipe(recipe: Recipe) -> Result<Recipe, AllocError>
    ensures { IfOk result (λ r. r ≡ spec.sorted_recipe recipe) }
{
    let Recipe {
        settings,
        needs,
        words,
        versions,
        symbols,
        relocations,
        packed,
    } = recipe;
    Ok(Recipe {
        settings,
        needs,
        words,
        versions,
        symbols,
        relocations,
        packed: in_order(packed)?,
    })
}

/// One line more; a packed word stands behind all others.
fn add(recipe: &mut Recipe, line: Line) -> Result<(), AllocError>
    ensures { OnOk result (recipe.new ≡ spec.pushed recipe.old line) }
{
    match line {
        Line::Needs(name) => recipe.needs.push(name),
        Line::Put(word) => recipe.words.push(word),
        Line::Version(name) => recipe.versions.push(name),
        Line::Names(symbol) => recipe.symbols.push(symbol),
        Line::Relocates(relocation) => recipe.relocations.push(relocation),
        Line::Packs(word) => recipe.packed.push(word),
        other => {
            set(&mut recipe.settings, &other);
            drop(other);
            Ok(())
        }
    }
}

/// All lines together. The time grows as `n log n`. The lines are taken over, so that no name is there twice.
pub fn gather(alloc: Global, lines: Vec<Line>) -> Result<Recipe, AllocError>
    ensures { IfOk result (λ r. r ≡ spec.gathered lines.items) }
{
    let mut recipe = empty(alloc);
    for line in lines {
        add(&mut recipe, line)?;
    }
    let whole = sorted_recipe(recipe)?;
    Ok(whole)
}
