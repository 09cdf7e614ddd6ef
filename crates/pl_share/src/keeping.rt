// The rows that wants keep where no two slots may overlap.
ghost use Rattle.std.specs.Prelude.{◌≡◌, ◌<◌, true, All, IfOk, OnOk};
ghost use Rattle.std.specs.List.{list_all};
ghost use Rattle.pl_slots.specs.Apart.{is_beside, are_apart};
ghost use Rattle.pl_slots.specs.Plan.{kept_row};
ghost use Rattle.pl_share.specs.Disjoint as spec;

use pl_base::Rows;
use pl_elf::Range;
use pl_io::NoMemory;
use pl_slots::{Slot, Want, is_beside, kept_row};
use std::alloc::{AllocError, Global};

fn is_beside_all(row: &Slot, kept: &[Slot]) -> bool
    ensures { result ≡ list_all (is_beside row.now) kept.now }
{
    kept.iter().all(|slot| is_beside(row, slot))
}

/// Keeps a want's row, where it meets none that was kept before.
fn keep(
    alloc: Global,
    kept: &mut Rows<Slot>,
    rows: &[Slot],
    region: Range,
    want: &Want,
) -> Result<(), AllocError>
    requires { 0 < want.now.align }
    ensures { OnOk result (kept.new
        ≡ spec.with_disjoint_row kept.old (kept_row rows.now region want.now)) }
{
    if let Some(row) = kept_row(rows, region, want) {
        if is_beside_all(row, kept.as_slice()) {
            kept.push(row.copy(alloc)?)?;
        }
    }
    Ok(())
}

#[tactic(auto, unfolding(crate::specs::Disjoint::disjoint))]
fn all_kept(
    alloc: Global,
    rows: &[Slot],
    wants: &[Want],
    region: Range,
) -> Result<Rows<Slot>, AllocError>
    requires { All (λ want. 0 < want.align) wants.now }
    ensures { IfOk result (λ kept. kept ≡ spec.disjoint rows.now wants.now region) }
{
    let mut kept = Rows::new(alloc);
    for want in wants {
        keep(alloc, &mut kept, rows, region, want)?;
    }
    Ok(kept)
}

/// The rows of a cache that wants keep where no two slots may overlap: in the order of the wants, a want keeps the row of its name where the row is large enough, aligned as the library wants, in the region, and meets none that was kept before. With these rows `plan` gives slots that are apart. It fails only for want of memory.
#[tactic(auto, using(crate::proofs::DisjointLaws::disjoint_apart))]
pub fn disjoint(
    alloc: Global,
    rows: &[Slot],
    wants: &[Want],
    region: Range,
) -> Result<Rows<Slot>, NoMemory>
    requires { All (λ want. 0 < want.align) wants.now }
    ensures exact { IfOk result (λ kept. kept ≡ spec.disjoint rows.now wants.now region) }
    ensures apart { IfOk result (λ kept. are_apart kept ≡ true) }
{
    Ok(all_kept(alloc, rows, wants, region)?)
}
