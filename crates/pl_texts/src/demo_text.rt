// Lines of the text of `--demo`.
ghost use Rattle.std.specs.Prelude.{◌≡◌, ◌++◌, IfOk, OnOk, string_bytes};
ghost use Rattle.sha2.specs.Sha256.{sha256};
ghost use Rattle.pl_texts.specs.DemoText as spec;

use sha2::{Digest, Sha256};
use std::alloc::{AllocError, Global};

/// Adds the line of a count.
#[tactic(auto, unfolding(crate::specs::DemoText::count_line))]
pub fn push_count(
    alloc: Global,
    out: &mut Vec<u8>,
    word: &str,
    count: usize,
) -> Result<(), AllocError>
    ensures { OnOk result (out.new.items ≡ out.old.items ++ spec.count_line word.now count) }
{
    let line = format!(in alloc; "{word} {count}\n")?;
    out.extend_from_slice(line.as_bytes())?;
    Ok(())
}

/// The SHA-256 of a text.
fn digest_of(text: &[u8]) -> [u8; 32]
    ensures { result ≡ sha256 text.now }
{
    let mut hasher = Sha256::new();
    hasher.update(text);
    hasher.finalize()
}

/// The line of the digest of a text.
#[tactic(auto, unfolding(crate::specs::DemoText::digest_line))]
pub fn digest_line(alloc: Global, text: &[u8]) -> Result<String, AllocError>
    ensures { IfOk result (λ line. string_bytes line ≡ spec.digest_line (sha256 text.now)) }
{
    let digest = digest_of(text);
    let digits = hex::encode(alloc, digest.as_slice())?;
    format!(in alloc; "digest {digits}\n")
}
