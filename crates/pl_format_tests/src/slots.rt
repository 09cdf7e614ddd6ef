// Tests of pl_slots.
ghost use Rattle.std.specs.Prelude.{◌<◌, IfOk};

use pl_base::{Rows, Text};
use pl_cases::{number, numbers, parts};
use pl_elf::Range;
use pl_slots::{
    PlanFault, Slot, Want, are_apart, greatest, lowest_place, plan, region_holes, without,
};
use std::alloc::{AllocError, Global};
use std::test::Fail;

/// What a library of a span wants.
pub fn want(alloc: Global, name: &str, span: u64) -> Result<Want, AllocError>
    ensures { IfOk result (λ want. 0 < want.align) }
{
    Ok(Want {
        name: Text::copy_of(alloc, name)?,
        span,
        align: 0x1000,
    })
}

/// A row of a cache.
pub fn slot(alloc: Global, name: &str, start: u64, span: u64) -> Result<Slot, AllocError> {
    Ok(Slot {
        name: Text::copy_of(alloc, name)?,
        start,
        span,
    })
}

/// The addresses from 0x3000000000 up to one.
pub fn region(end: u64) -> Range {
    Range {
        start: 0x30_0000_0000,
        end,
    }
}

/// `liba` and `libb`, where `libb` has a row already, in a region up to an address.
fn two_libraries(alloc: Global, end: u64) -> Result<Rows<Slot>, PlanFault> {
    let kept = [slot(alloc, "libb", 0x30_0010_1000, 0x10_1000)?];
    let wants = [
        want(alloc, "liba", 0x20_2000)?,
        want(alloc, "libb", 0x10_1000)?,
    ];
    plan(alloc, &kept, &wants, region(end))
}

/// Whether a slot is this one.
fn is_slot(slot: &Slot, name: &str, start: u64, span: u64) -> bool {
    slot.name.as_str() == name && slot.start == start && slot.span == span
}

/// Whether slots are those around the row of `libb`.
fn are_planned(slots: &[Slot]) -> bool {
    match slots {
        [first, second] => {
            is_slot(first, "liba", 0x30_0020_2000, 0x20_2000)
                && is_slot(second, "libb", 0x30_0010_1000, 0x10_1000)
        }
        _ => false,
    }
}

#[test]
fn plans_around_a_kept_row(rt: HostRuntime) -> Result<(), PlanFault> {
    let slots = two_libraries(rt.alloc(), 0x30_0050_5000)?;
    assert!(rt; are_planned(slots.as_slice()));
    Ok(())
}

#[test]
fn says_what_has_no_slot(rt: HostRuntime) {
    match two_libraries(rt.alloc(), 0x30_0030_3000) {
        Err(PlanFault::NoSlot { name, span, hole }) => {
            assert!(rt; name.as_str() == "liba");
            assert!(rt; span == 0x20_2000 && hole == 0x10_1000);
        }
        Err(PlanFault::NoMemory) => panic!(rt; "no memory"),
        Ok(_rows) => panic!(rt; "both have a slot"),
    }
}

/// What is left of a region beside a range.
fn beside(alloc: Global, holes: &[Range], start: u64, end: u64) -> Result<Vec<Range>, AllocError> {
    without(alloc, holes, Range { start, end })
}

const TWO_HOLES: [Range; 2] = [
    Range {
        start: 0x30_0000_0000,
        end: 0x30_0030_0000,
    },
    Range {
        start: 0x30_0040_0000,
        end: 0x30_0050_0000,
    },
];

/// What is left of them beside a range over the start of the first.
const LESS: [Range; 2] = [
    Range {
        start: 0x30_0020_1000,
        end: 0x30_0030_0000,
    },
    Range {
        start: 0x30_0040_0000,
        end: 0x30_0050_0000,
    },
];

#[test]
fn cuts_holes(rt: HostRuntime) -> Result<(), AllocError> {
    let alloc = rt.alloc();
    let whole = region_holes(alloc, region(0x30_0050_0000))?;
    assert!(rt; whole.as_slice() == [region(0x30_0050_0000)].as_slice());
    let two = beside(alloc, &whole, 0x30_0030_0000, 0x30_0040_0000)?;
    assert!(rt; two.as_slice() == TWO_HOLES.as_slice());
    let less = beside(alloc, &two, 0x2f_ffff_f000, 0x30_0020_1000)?;
    assert!(rt; less.as_slice() == LESS.as_slice());
    Ok(())
}

/// Holes, and in hexadecimal a span, an alignment, and the lowest place, if there is one.
const PLACES: &str = "\
two 300000 1000: 3000000000\n\
two 300001 1000:\n\
two 100000 800000: 3000000000\n\
two 1000 400000: 3000000000\n\
less ff000 1000: 3000201000\n\
less 1000 200000: 3000400000\n\
none 1000 1000:";

/// The holes of a word.
fn holes_of(word: &str) -> &'static [Range] {
    match word {
        "two" => &TWO_HOLES,
        "less" => &LESS,
        _ => &[],
    }
}

/// The place that a text spells, if any.
fn place_of(text: &str) -> Result<Option<u64>, Fail> {
    if text.is_empty() {
        return Ok(None);
    }
    Ok(Some(number(text)?))
}

/// Whether the lowest place is that of a line.
fn is_lowest(alloc: Global, line: &str) -> Result<bool, Fail> {
    let (asked, place) = parts(line)?;
    let (word, asked) = asked.split_once(' ').ok_or("a blank")?;
    let place = place_of(place)?;
    match numbers(alloc, asked)?.as_slice() {
        [span, align] => Ok(lowest_place(holes_of(word), *span, (*align).max(1)) == place),
        _ => Err("two numbers".into()),
    }
}

#[test]
fn finds_places(rt: HostRuntime) -> Result<(), Fail> {
    for line in PLACES.lines() {
        if !is_lowest(rt.alloc(), line)? {
            return Err(line.into());
        }
    }
    Ok(())
}

#[test]
fn finds_the_greatest_hole(rt: HostRuntime) {
    assert!(rt; greatest(&TWO_HOLES) == 0x30_0000);
    assert!(rt; greatest(&[]) == 0);
}

#[test]
fn tells_slots_apart(rt: HostRuntime) -> Result<(), AllocError> {
    let alloc = rt.alloc();
    let slots = [
        slot(alloc, "liba", 0x30_0000_0000, 0x1000)?,
        slot(alloc, "libb", 0x30_0000_1000, 0x2000)?,
        slot(alloc, "libc", 0x30_0000_2000, 0x1000)?,
    ];
    assert!(rt; are_apart(&slots[..2]));
    assert!(rt; !are_apart(&slots));
    Ok(())
}
