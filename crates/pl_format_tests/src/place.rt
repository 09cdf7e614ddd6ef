// Tests of pl_place.
ghost use Rattle.std.specs.Prelude.{IfOk};
ghost use Rattle.pl_place.specs.Placing.{IsWant};

use pl_base::Text;
use pl_elf::Range;
use pl_place::{Holes, PlaceFault, Placer, highest, lowest, place_all, seeded};
use pl_slots::{Want, region_holes};
use std::alloc::{AllocError, Global};
use std::process::Abort;
use std::test::Fail;

const START: u64 = 0x30_0000_0000;

/// The addresses from `START` up to an end.
fn to(end: u64) -> Range {
    Range { start: START, end }
}

/// The holes of a region beside a range that is taken.
fn left(alloc: Global, region: Range, taken: Range) -> Result<Holes, AllocError> {
    Holes::new(region_holes(alloc, region)?).without_busy(alloc, taken)
}

/// The answers of the three policies, the last one for a number.
fn answers(holes: &Holes, span: u64, align: u64, number: u64) -> [Option<u64>; 3] {
    if span == 0 || !align.is_power_of_two() {
        return [None; 3];
    }
    [
        lowest(holes, span, align),
        highest(holes, span, align),
        seeded(number, holes, span, align),
    ]
}

/// Numbers, and the seeded places of 0x101000 bytes in one hole of 0x202000 bytes: one of 258. The words come from a PCG XSL RR 128/64 that was written apart from this, and that gives the vectors of Rust's rand_pcg.
const IN_ONE: [(u64, u64); 5] = [
    (0, 0x30_0006_3000),
    (1, 0x30_000e_3000),
    (7, 0x30_0000_7000),
    (12345, 0x30_000b_b000),
    (u64::MAX, 0x30_0008_0000),
];

/// The same of 0x2000 bytes in two holes: two places in the first, five in the second.
const IN_TWO: [(u64, u64); 5] = [
    (1, 0x30_0000_1000),
    (2, 0x30_0020_2000),
    (3, 0x30_0020_0000),
    (4, 0x30_0020_4000),
    (5, START),
];

fn expect_places(rt: &impl Abort, holes: &Holes, span: u64, last: u64, seeds: &[(u64, u64)]) {
    for (number, place) in seeds {
        let places = answers(holes, span, 0x1000, *number);
        assert!(rt;
            places == [Some(START), Some(last), Some(*place)],
            "{number}"
        );
    }
}

#[test]
fn chooses_places(rt: HostRuntime) -> Result<(), AllocError> {
    let alloc = rt.alloc();
    let one = left(alloc, to(0x30_0020_2000), to(START))?;
    expect_places(&rt, &one, 0x10_1000, 0x30_0010_1000, &IN_ONE);
    let taken = Range {
        start: 0x30_0000_3000,
        end: 0x30_0020_0000,
    };
    let two = left(alloc, to(0x30_0020_6000), taken)?;
    assert!(rt; two.end() == 0x30_0020_6000);
    expect_places(&rt, &two, 0x2000, 0x30_0020_4000, &IN_TWO);
    Ok(())
}

/// No addresses.
const NOTHING: Range = Range {
    start: START,
    end: START,
};

/// What is between two holes.
const BETWEEN: Range = Range {
    start: 0x30_0030_0000,
    end: 0x30_0040_0000,
};

/// The end of the last hole, what is taken, a span and an alignment with at most one place, and that place.
const ALONE: [(u64, Range, u64, u64, Option<u64>); 3] = [
    (0x30_0010_1000, NOTHING, 0x10_1000, 0x1000, Some(START)),
    (0x30_0010_0000, NOTHING, 0x10_1000, 0x1000, None),
    (0x30_0050_0000, BETWEEN, 0x10_1000, 0x20_0000, Some(START)),
];

#[test]
fn chooses_the_only_place(rt: HostRuntime) -> Result<(), Fail> {
    for (end, taken, span, align, place) in &ALONE {
        let holes = left(rt.alloc(), to(*end), *taken)?;
        if answers(&holes, *span, *align, 7) != [*place; 3] {
            return Err((*end).into());
        }
    }
    Ok(())
}

fn want(alloc: Global, name: &str, span: u64) -> Result<Want, PlaceFault>
    ensures { IfOk result IsWant }
{
    let align: u64 = 0x1000;
    if span == 0 || !align.is_power_of_two() {
        return Err(PlaceFault::NoMemory);
    }
    Ok(Want {
        name: Text::copy_of(alloc, name)?,
        span,
        align,
    })
}

#[test]
fn places_at_the_lowest(rt: HostRuntime) -> Result<(), PlaceFault> {
    let alloc = rt.alloc();
    let wants = [
        want(alloc, "liba", 0x10_1000)?,
        want(alloc, "libb", 0x1000)?,
    ];
    let busy = [to(0x30_0000_1000), to(START)];
    let low = Placer::new(|holes: &Holes, span: u64, align: u64| lowest(holes, span, align));
    let starts = place_all(alloc, &low, &wants, &busy, to(0x40_0000_0000))?;
    assert!(rt; starts.as_slice() == [0x30_0000_1000, 0x30_0010_2000].as_slice());
    Ok(())
}

/// The highest places of `liba` and `libb` in a region up to an end, whose first 0x1000 bytes are busy.
fn placed_high(alloc: Global, end: u64) -> Result<Vec<u64>, PlaceFault> {
    let wants = [
        want(alloc, "liba", 0x10_1000)?,
        want(alloc, "libb", 0x1000)?,
    ];
    let high = Placer::new(|holes: &Holes, span: u64, align: u64| highest(holes, span, align));
    place_all(alloc, &high, &wants, &[to(0x30_0000_1000)], to(end))
}

/// Whether the fault says that a library has no place.
fn has_no_place(fault: &PlaceFault, library: &str) -> bool {
    match fault {
        PlaceFault::NoPlace { name } => name.as_str() == library,
        PlaceFault::NoMemory => false,
    }
}

#[test]
fn places_in_turn(rt: HostRuntime) -> Result<(), PlaceFault> {
    let alloc = rt.alloc();
    let starts = placed_high(alloc, 0x40_0000_0000)?;
    assert!(rt; starts.as_slice() == [0x3f_ffef_f000, 0x3f_ffef_e000].as_slice());
    for (end, first) in [(0x30_0010_1000, "liba"), (0x30_0010_2000, "libb")] {
        match placed_high(alloc, end) {
            Ok(_starts) => panic!(rt; "{first} has a place"),
            Err(fault) => assert!(rt; has_no_place(&fault, first), "{first}"),
        }
    }
    Ok(())
}
