// Tests of pl_share.
use crate::slots::{region, slot, want};
use pl_base::Rows;
use pl_share::{Walks, disjoint, plan_shared};
use pl_slots::{PlanFault, Slot, plan};
use std::alloc::{AllocError, Global};
use std::test::Fail;

/// Walks of three wants: `liba` and `libb` stand in one, `libc` stands alone.
fn walks(alloc: Global) -> Result<Walks, AllocError> {
    let together = Rows::from_vec(vec![in alloc; 0, 1]?);
    let alone = Rows::from_vec(vec![in alloc; 2]?);
    Ok(Walks {
        rows: Rows::from_vec(vec![in alloc; together, alone]?),
    })
}

/// The slots of three libraries of one span, in a region up to an address, over rows of a cache.
fn shared(alloc: Global, rows: &[Slot], end: u64) -> Result<Rows<Slot>, PlanFault> {
    let wants = [
        want(alloc, "liba", 0x10_1000)?,
        want(alloc, "libb", 0x10_1000)?,
        want(alloc, "libc", 0x10_1000)?,
    ];
    plan_shared(alloc, rows, &wants, &walks(alloc)?, region(end))
}

#[test]
fn overlaps_where_no_walk_holds_both(rt: HostRuntime) -> Result<(), PlanFault> {
    let slots = shared(rt.alloc(), &[], 0x30_0020_2000)?;
    assert!(rt; slots.len() == 3);
    for (slot, start) in slots.as_slice().iter().zip(&STARTS) {
        assert!(rt; slot.start == *start && slot.span == 0x10_1000);
    }
    Ok(())
}

const STARTS: [u64; 3] = [0x30_0000_0000, 0x30_0010_1000, 0x30_0000_0000];

#[test]
fn has_no_room_for_one_walk(rt: HostRuntime) {
    match shared(rt.alloc(), &[], 0x30_0010_1000) {
        Err(PlanFault::NoSlot { name, span, hole }) => {
            assert!(rt; name.as_str() == "libb");
            assert!(rt; span == 0x10_1000 && hole == 0);
        }
        Err(PlanFault::NoMemory) => panic!(rt; "no memory"),
        Ok(_slots) => panic!(rt; "all have a slot"),
    }
}

/// Rows of a cache for all three, at one address.
fn one_address(alloc: Global) -> Result<[Slot; 3], AllocError> {
    Ok([
        slot(alloc, "liba", 0x30_0010_1000, 0x10_1000)?,
        slot(alloc, "libb", 0x30_0010_1000, 0x10_1000)?,
        slot(alloc, "libc", 0x30_0010_1000, 0x10_1000)?,
    ])
}

#[test]
fn keeps_rows_that_meet_none_of_a_walk(rt: HostRuntime) -> Result<(), PlanFault> {
    let rows = one_address(rt.alloc())?;
    let slots = shared(rt.alloc(), &rows, 0x30_0040_0000)?;
    assert!(rt; slots.len() == 3);
    for (slot, start) in slots.as_slice().iter().zip(&KEPT) {
        assert!(rt; slot.start == *start);
    }
    Ok(())
}

const KEPT: [u64; 3] = [0x30_0010_1000, 0x30_0000_0000, 0x30_0010_1000];

#[test]
fn keeps_the_first_of_rows_that_meet(rt: HostRuntime) -> Result<(), Fail> {
    let alloc = rt.alloc();
    let rows = one_address(alloc)?;
    let wants = [
        want(alloc, "liba", 0x10_1000)?,
        want(alloc, "libc", 0x10_1000)?,
    ];
    let kept = disjoint(alloc, &rows, &wants, region(0x30_0040_0000))?;
    assert!(rt; kept.len() == 1);
    let slots = plan(alloc, kept.as_slice(), &wants, region(0x30_0040_0000))?;
    assert!(rt; slots.len() == 2);
    assert!(rt; slots.as_slice()[0].start == 0x30_0010_1000);
    assert!(rt; slots.as_slice()[1].start == 0x30_0000_0000);
    Ok(())
}
