use memchr::memchr;
use std::alloc::{AllocError, Global};

/// How many bytes strings may have before it is asked whether there is memory for them.
const MANY: usize = 1 << 30;

/// Strings of a table that are going to be copied, as a number of bytes. Where many of them share the end of a long string, they have many times the file's bytes: this shows before any is copied that there is no memory for them.
#[derive(Drop)]
pub struct Demand<'a> {
    strings: &'a [u8],
    size: usize,

    /// The number from which on it asks for all of them.
    most: usize,
}

impl<'a> Demand<'a> {
    /// None of the strings in a table's bytes.
    pub fn new(strings: &'a [u8]) -> Demand<'a> {
        Demand {
            strings,
            size: 0,
            most: MANY,
        }
    }

    /// Counts the string that begins at an offset, as no bytes where it has no end. Each time that the number has doubled, from 1 GiB on, it asks for so many bytes and gives them back. It fails only for want of memory.
    pub fn add(&mut self, alloc: Global, at: u32) -> Result<(), AllocError> {
        self.size = self.size.saturating_add(size_at(self.strings, at));
        if self.size > self.most {
            ask(alloc, self.size)?;
            self.most = self.size.saturating_mul(2);
        }
        Ok(())
    }

    /// Asks for the bytes of all that were counted, where they are more than 1 GiB, and gives them back. It fails only for want of memory.
    pub fn ask(&self, alloc: Global) -> Result<(), AllocError> {
        if self.size > MANY {
            ask(alloc, self.size)?;
        }
        Ok(())
    }
}

fn size_at(strings: &[u8], at: u32) -> usize {
    let begin = strings.len().min(at as usize);
    memchr(0, &strings[begin..]).unwrap_or(0)
}

fn ask(alloc: Global, size: usize) -> Result<(), AllocError> {
    let _bytes: Vec<u8> = Vec::with_capacity(alloc, size)?;
    Ok(())
}
