// Sums that do not wrap, and rounding.
ghost use Rattle.std.specs.Prelude.{◌≡◌, ◌+◌, ◌<◌, ◌≤◌, ◌^◌};
ghost use Rattle.pl_base.specs.Sums as spec;

/// Where a range ends. The sum of two 64-bit numbers has 65 bits.
pub fn end(start: u64, size: u64) -> u128
    ensures value { result ≡ start + size }
    ensures small { result < 2 ^ 65 }
{
    u128::from(start) + u128::from(size)
}

/// The greatest multiple that is at most the number.
#[tactic(auto, unfolding(crate::specs::Sums::round_down))]
pub fn round_down(number: u64, multiple: u64) -> u64
    requires { 0 < multiple }
    ensures value { result ≡ spec.round_down number multiple }
    ensures below { result ≤ number }
{
    number / multiple * multiple
}

/// The least multiple that is at least the number.
#[tactic(auto, unfolding(crate::specs::Sums::round_up))]
pub fn round_up(number: u64, multiple: u64) -> u64
    requires some { 0 < multiple }
    requires room { number + multiple ≤ 2 ^ 64 }
    ensures { result ≡ spec.round_up number multiple }
{
    (number + (multiple - 1)) / multiple * multiple
}

/// The least multiple that is at least a number of more than 64 bits, such as the end of a range.
#[tactic(auto, unfolding(crate::specs::Sums::round_up))]
pub fn round_up_wide(number: u128, multiple: u64) -> u128
    requires some { 0 < multiple }
    requires room { number + multiple ≤ 2 ^ 128 }
    ensures value { result ≡ spec.round_up number multiple }
    ensures near { result < number + multiple }
{
    let step = u128::from(multiple);
    (number + (step - 1)) / step * step
}

/// Whether the number is a multiple of the alignment.
pub fn is_aligned(number: u64, align: u64) -> bool
    requires { 0 < align }
    ensures { result ≡ spec.is_aligned number align }
{
    number % align == 0
}
