// The own words of a library, kept until its file is made.
ghost use Rattle.std.specs.Prelude.{◌≡◌, [], IfOk};
ghost use Rattle.pl_rewrite.specs.Words as spec;

use pl_base::Rows;
use std::alloc::{AllocError, Global};
use std::marker::Model;

/// The own words of a library's relocations, in their order; a relocation may have none. They take nine bytes each, since a run keeps those of all stale libraries at once. Contracts see them as a list of words that may be there.
#[derive(Drop)]
pub struct OwnWords {
    /// The words; 0 where there is none.
    words: Rows<u64>,

    /// Whether there is one.
    given: Rows<bool>,
}

impl Model for OwnWords {
    ghost use Rattle.std.specs.Prelude.{List, Option, ℕ};
    ghost use Rattle.pl_rewrite.specs.Words.{words_by};

    ghost Value = { List (Option ℕ) };

    ghost view = { λ w. words_by w.words w.given };
}

fn word_by(word: u64, given: bool) -> Option<u64>
    ensures { result ≡ spec.word_by word given }
{
    if given { Some(word) } else { None }
}

fn numbers_of(alloc: Global, rows: &[Option<u64>]) -> Result<Vec<u64>, AllocError>
    ensures { IfOk result (λ v. v.items ≡ spec.numbers_of rows.now) }
{
    rows.iter().map(|row| row.unwrap_or(0)).collect(alloc)
}

fn givens_of(alloc: Global, rows: &[Option<u64>]) -> Result<Vec<bool>, AllocError>
    ensures { IfOk result (λ v. v.items ≡ spec.givens_of rows.now) }
{
    rows.iter().map(|row| row.is_some()).collect(alloc)
}

fn words_from(alloc: Global, words: &[u64], given: &[bool]) -> Result<Vec<Option<u64>>, AllocError>
    ensures { IfOk result (λ v. v.items ≡ spec.words_by words.now given.now) }
{
    let count = words.len().min(given.len());
    let mut rows = Vec::with_capacity(alloc, count)?;
    for index in 0..count {
        rows.push(word_by(words[index], given[index]))?;
    }
    Ok(rows)
}

impl OwnWords {
    /// No words.
    pub fn none(alloc: Global) -> OwnWords
        ensures { result ≡ [] }
    {
        OwnWords {
            words: Rows::new(alloc),
            given: Rows::new(alloc),
        }
    }

    /// These words.
    pub fn of(alloc: Global, rows: &[Option<u64>]) -> Result<OwnWords, AllocError>
        ensures { IfOk result (λ w. w ≡ rows.now) }
    {
        let words = numbers_of(alloc, rows)?;
        let given = givens_of(alloc, rows)?;
        Ok(OwnWords {
            words: Rows::from_vec(words),
            given: Rows::from_vec(given),
        })
    }

    /// The words as rows.
    pub fn rows(&self, alloc: Global) -> Result<Rows<Option<u64>>, AllocError>
        ensures { IfOk result (λ rows. rows ≡ self.now) }
    {
        let rows = words_from(alloc, self.words.as_slice(), self.given.as_slice())?;
        Ok(Rows::from_vec(rows))
    }
}
