// Tests of pl_tls.
use pl_tls::{Block, Module, TlsFault, offsets};
use std::test::Fail;

const BLOCKS: [Option<Block>; 4] = [
    Some(Block { size: 8, align: 8 }),
    None,
    Some(Block {
        size: 8,
        align: 0x40,
    }),
    Some(Block { size: 5, align: 1 }),
];

const MODULES: [Module; 3] = [
    Module {
        member: 0,
        number: 1,
        offset: 8,
    },
    Module {
        member: 2,
        number: 2,
        offset: 0x40,
    },
    Module {
        member: 3,
        number: 3,
        offset: 0x45,
    },
];

#[test]
fn gives_numbers_and_offsets(rt: HostRuntime) -> Result<(), TlsFault> {
    let modules = offsets(rt.alloc(), &BLOCKS)?;
    assert!(rt; modules.as_slice() == MODULES.as_slice());
    Ok(())
}

/// The size and the alignment of a block alone, and whether its offset is at most 2^30.
const LARGE: [(u64, u64, bool); 6] = [
    (0x4000_0000, 1, true),
    (0x4000_0001, 1, false),
    (1, 0x4000_0000, true),
    (0x3fff_ffff, 0, true),
    (1, 0x4000_0001, false),
    (u64::MAX, u64::MAX, false),
];

#[test]
fn knows_the_greatest_offset(rt: HostRuntime) -> Result<(), Fail> {
    for (size, align, fits) in &LARGE {
        let block = Block {
            size: *size,
            align: *align,
        };
        let fault = offsets(rt.alloc(), &[Some(block)]).err();
        let wanted = if *fits {
            None
        } else {
            Some(TlsFault::TooLarge)
        };
        if fault != wanted {
            return Err((*size).into());
        }
    }
    Ok(())
}
