ghost use Rattle.std.specs.Prelude.{◌≡◌, ◌<◌, ◌^◌, length};
ghost use Rattle.pl_base.specs.Answers.{Answers};
ghost use Rattle.pl_tls.specs.Layout as spec;

use crate::{Block, Module, OFFSET_LIMIT, TlsFault};
use pl_base::{Rows, end, round_up_wide};
use std::alloc::Global;

/// The offset of the next block. It may be greater than 64 bits hold.
#[tactic(auto, unfolding(crate::specs::Layout::offset_after))]
fn offset_after(reached: u64, block: &Block) -> u128
    ensures { result ≡ spec.offset_after reached block.now }
{
    round_up_wide(end(reached, block.size), block.align.max(1))
}

/// The modules of objects in scope order: those with a block are numbered from 1, and each offset is the least one that is aligned and leaves the block its room. An alignment may be any number.
///
/// `TooLarge` comes exactly where an offset is greater than `OFFSET_LIMIT`.
pub fn offsets(alloc: Global, blocks: &[Option<Block>]) -> Result<Rows<Module>, TlsFault>
    requires { length blocks.now < 2 ^ 32 }
    ensures { Answers spec.is_memory result (spec.offsets blocks.now) }
{
    let mut modules = Rows::new(alloc);
    let mut number = 1;
    let mut reached = 0;
    for (member, block) in blocks.iter().enumerate() {
        let Some(block) = block else {
            continue;
        };
        let offset = offset_after(reached, block);
        if offset > u128::from(OFFSET_LIMIT) {
            return Err(TlsFault::TooLarge);
        }
        reached = offset as u64;
        modules.push(Module {
            member: member as u32,
            number,
            offset: reached,
        })?;
        number += 1;
    }
    Ok(modules)
}
