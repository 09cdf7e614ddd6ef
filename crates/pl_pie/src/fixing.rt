// A position-independent program fixed at an address.
ghost use Rattle.std.specs.Prelude.{◌≡◌, ◌+◌, ◌-◌, ◌%◌, ◌<◌, ◌≤◌, ◌^◌, length, Some, IfOk};
ghost use Rattle.pl_base.specs.Windows.{AllIn};
ghost use Rattle.pl_elf.specs.declared.constants.TheConstants.{ADDRESS_LIMIT};
ghost use Rattle.pl_move.specs.Moves.{add8};
ghost use Rattle.pl_pie.specs.Pie.{pie};
ghost use Rattle.pl_pie.specs.Fix as spec;

use crate::constants::WORD_SIZE;
use crate::pie::as_program;
use crate::words::other_words;
use pl_base::{put64, word64};
use pl_io::NoMemory;
use pl_move::move_by;
use pl_object::Object;
use std::alloc::{AllocError, Global};

#[tactic(auto, unfolding(pl_move::specs::Moves::add8))]
fn add_word(bytes: &mut [u8], at: u128, more: u64)
    requires { at + WORD_SIZE ≤ length bytes.old }
    ensures { bytes.new ≡ add8 at more bytes.old }
{
    let at = at as usize;
    let word = word64(bytes, at);
    put64(bytes, at, word.wrapping_add(more));
}

/// Subtracts a number modulo 2^64 from a word.
fn take_word(bytes: &mut [u8], at: u128, less: u64)
    requires { at + WORD_SIZE ≤ length bytes.old }
    ensures { bytes.new ≡ add8 at (2 ^ 64 - less) bytes.old }
{
    add_word(bytes, at, less.wrapping_neg());
}

/// Adds a number modulo 2^64 to the word at each offset in turn.
pub fn add_words(bytes: &mut [u8], words: &[u128], more: u64)
    requires { AllIn (length bytes.old) (spec.word_windows words.now) }
    ensures { bytes.new ≡ spec.added more words.now bytes.old }
{
    for at in words {
        add_word(bytes, *at, more);
    }
}

/// Subtracts a number modulo 2^64 from the word at each offset, the last one first.
pub fn take_words(bytes: &mut [u8], words: &[u128], less: u64)
    requires { AllIn (length bytes.old) (spec.word_windows words.now) }
    ensures { bytes.new ≡ spec.taken less words.now bytes.old }
{
    for index in (0..words.len()).rev() {
        take_word(bytes, words[index], less);
    }
}

/// A program's bytes at an address, where its words lie in its file.
#[tactic(auto, using(crate::proofs::CallLaws::pie_long, crate::proofs::CallLaws::pie_small, crate::proofs::CallLaws::pie_lies, crate::proofs::CallLaws::pie_words, crate::proofs::CallLaws::program_size), unfolding(crate::specs::Fix::fixed_bytes))]
pub fn fixed(
    alloc: Global,
    bytes: &[u8],
    object: &Object,
    address: u64,
) -> Result<Vec<u8>, AllocError>
    requires object { pie bytes.now ≡ Some object.now }
    requires even { address % 2 ≡ 0 }
    requires few { length bytes.now < 2 ^ 32 }
    ensures { IfOk result (λ v. v.items ≡ spec.fixed_bytes address object.now bytes.now) }
{
    let words = other_words(alloc, object)?;
    let mut file = as_program(alloc, bytes)?;
    move_by(&mut file, object, address);
    add_words(&mut file, &words, address);
    Ok(file)
}

/// The program that a position-independent program becomes at an address: its type is ET_EXEC, and the address is added modulo 2^64 to its entry, where that is not 0, to the addresses of its segments, address tags, symbols with a section that are not thread-local, relocations and addends of RELATIVE ones, as `move_by` does, to the addresses of the sections that have one, to the values of its undefined symbols that are not local, not 0 and not thread-local, and to the word at each packed place. Nothing else changes. It fails only for want of memory.
///
/// The object is the one that `is_pie` gives for the bytes. The address is a multiple of its alignment, and the program ends there at or below 2^47.
#[tactic(auto, using(crate::proofs::CallLaws::pie_even))]
pub fn fix(alloc: Global, bytes: &[u8], object: &Object, address: u64) -> Result<Vec<u8>, NoMemory>
    requires object { pie bytes.now ≡ Some object.now }
    requires few { length bytes.now < 2 ^ 32 }
    requires aligned { address % object.now.align ≡ 0 }
    requires ends { address + object.now.span ≤ ADDRESS_LIMIT }
    ensures { IfOk result (λ v. v.items ≡ spec.fixed_bytes address object.now bytes.now) }
{
    Ok(fixed(alloc, bytes, object, address)?)
}
