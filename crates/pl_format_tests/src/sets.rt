// Tests of pl_gen: whole sets, against those of another generator.
use pl_cases::{bytes_of, numbers, parts};
use pl_gen::demo_set;
use sha2::{Digest, Sha256};
use std::alloc::Global;
use std::test::Fail;

/// A number, how many files its set has, and the SHA-256 of all names, each with a newline, and recipes, in hexadecimal.
const SETS: &str = "\
0 1d: d8 89 49 7 a5 d6 6a 32 35 5e 3f 67 85 d2 b6 e1 3e a2 e5 1 9c 9e da c7 4 af 75 47 a2 35 da 65\n\
1 36: 3d 33 81 24 7c fa 39 48 e9 dd c 48 9d 55 b4 dd 9c 97 7b 82 f5 b3 c9 10 37 18 75 9e a9 8e a0 a2\n\
2 29: b1 8d fe 6a db 6a 62 b2 1d 7c 13 d5 40 5e fc f4 c9 cd 3b 33 3e 2 e2 87 db 7f d0 59 8e 49 91 72\n\
14 46: 34 4e 5f 90 dd 26 1b e 5b 3e 8a 9 cf 9e 26 94 25 75 9 14 21 99 e5 b2 8e e0 ae 13 c5 7 e0 a0\n\
ffffffffffffffff 24: e0 74 75 28 54 20 de 22 c2 fd 97 56 8f b6 d9 cf 5 bc 50 19 d5 c2 d0 2b de 5e 4a 42 a6 85 b2 7c";

/// How many files the set of a number has, and the digest of their names and recipes.
fn digest_of(alloc: Global, number: u64) -> Result<(usize, [u8; 32]), Fail> {
    let files = demo_set(alloc, number)?;
    let mut hasher = Sha256::new();
    for file in &files {
        hasher.update(file.name.as_bytes());
        hasher.update(b"\n");
        hasher.update(file.recipe.as_bytes());
    }
    Ok((files.len(), hasher.finalize()))
}

/// Whether the set of a number has so many files, and a digest.
fn has_digest(alloc: Global, number: u64, count: u64, digest: &[u8]) -> Result<bool, Fail> {
    let (found, found_digest) = digest_of(alloc, number)?;
    Ok(found as u64 == count && found_digest.as_slice() == digest)
}

/// Whether the set of a line is as it says.
fn is_drawn(alloc: Global, line: &str) -> Result<bool, Fail> {
    let (set, digest) = parts(line)?;
    let set = numbers(alloc, set)?;
    let [number, count] = set.as_slice() else {
        return Err("two numbers".into());
    };
    has_digest(alloc, *number, *count, &bytes_of(alloc, digest)?)
}

#[test]
fn draws_the_sets_of_another_generator(rt: HostRuntime) -> Result<(), Fail> {
    for line in SETS.lines() {
        if !is_drawn(rt.alloc(), line)? {
            return Err(line.into());
        }
    }
    Ok(())
}
