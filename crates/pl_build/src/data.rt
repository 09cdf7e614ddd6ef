// The data.
ghost use Rattle.std.specs.Prelude.{◌≡◌, IfOk, fold};
ghost use Rattle.pl_build.specs.Data as spec;

use crate::line::DataWord;
use pl_base::{end, put64};
use pl_elf::constants::WORD64_SIZE;
use std::alloc::{AllocError, Global};

#[tactic(auto, unfolding(crate::specs::Data::word_put))]
fn put_word(bytes: &mut [u8], word: DataWord)
    ensures { bytes.new ≡ spec.word_put bytes.old word }
{
    if end(word.offset, WORD64_SIZE) <= bytes.len() as u128 {
        put64(bytes, word.offset as usize, word.value);
    }
}

fn put_words(bytes: &mut [u8], words: &[DataWord])
    ensures { bytes.new ≡ fold spec.word_put bytes.old words.now }
{
    for word in words {
        put_word(bytes, *word);
    }
}

/// So many zeros, and words over them.
#[tactic(auto, unfolding(crate::specs::Data::data_bytes))]
pub fn data_bytes(alloc: Global, size: u64, words: &[DataWord]) -> Result<Vec<u8>, AllocError>
    ensures { IfOk result (λ v. v.items ≡ spec.data_bytes size words.now) }
{
    let mut bytes = vec![in alloc; 0; size as usize]?;
    put_words(&mut bytes, words);
    Ok(bytes)
}
