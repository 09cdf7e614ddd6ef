// The words that a generator draws.
ghost use Rattle.std.specs.Prelude.{◌≡◌, ◌≢◌, ◌%◌, length, map, IfOk, OnOk};
ghost use Rattle.pl_gen.specs.Draws as spec;

use rand_core::SeedableRng;
use rand_core::utils::NextWord;
use rand_pcg::Lcg128Xsl64;
use std::alloc::{AllocError, Global};

/// The generator of a number.
pub fn seeded(number: u64) -> Lcg128Xsl64
    ensures { result ≡ spec.seeded number }
{
    Lcg128Xsl64::seed_from_u64(number)
}

/// The next words, so many.
pub fn draw(
    alloc: Global,
    generator: &mut Lcg128Xsl64,
    count: usize,
) -> Result<Vec<u64>, AllocError>
    ensures words { IfOk result (λ words. words.items ≡ spec.words count generator.old) }
    ensures count { IfOk result (λ words. length words.items ≡ count) }
    ensures after { OnOk result (generator.new ≡ spec.after count generator.old) }
{
    let mut words = Vec::new(alloc);
    for _turn in 0..count {
        let word = generator.next_word();
        words.push(word)?;
    }
    Ok(words)
}

/// What words leave over multiples of a number.
pub fn remainders(alloc: Global, words: &[u64], number: u64) -> Result<Vec<u64>, AllocError>
    requires { number ≢ 0 }
    ensures { IfOk result (λ all. all.items ≡ map (λ word. word % number) words.now) }
{
    let mut all = Vec::new(alloc);
    for word in words {
        all.push(*word % number)?;
    }
    Ok(all)
}
