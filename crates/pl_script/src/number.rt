// Numbers of a script.
ghost use Rattle.std.specs.Prelude.{◌≡◌};
ghost use Rattle.std.specs.List.{list_all};
ghost use Rattle.pl_script.specs.Grammar as spec;

#[tactic(auto, unfolding(crate::specs::Grammar::is_digit))]
fn is_digit(digit: u8) -> bool
    ensures { result ≡ spec.is_digit digit }
{
    digit.is_ascii_digit()
}

fn has_digits(text: &[u8]) -> bool
    ensures { result ≡ list_all spec.is_digit text.now }
{
    text.iter().all(|digit| is_digit(*digit))
}

#[tactic(auto, unfolding(crate::specs::Grammar::is_number))]
fn is_number(text: &[u8]) -> bool
    ensures { result ≡ spec.is_number text.now }
{
    !text.is_empty() && has_digits(text) && (text.len() == 1 || !text.starts_with(b"0"))
}

/// The number that decimal digits spell, at least one, with no `0` before another digit. It has at most 32 bits.
#[tactic(auto, using(crate::proofs::NumberLaws::parsed), unfolding(crate::specs::Grammar::number))]
pub fn number(text: &str) -> Option<u32>
    ensures { result ≡ spec.number text.now }
{
    if !is_number(text.as_bytes()) {
        return None;
    }
    match text.parse::<u32>() {
        Ok(number) => Some(number),
        Err(_) => None,
    }
}
