ghost use Rattle.std.specs.Prelude.{◌≡◌, ◌≢◌, ◌↔◌, All, IsNone};
ghost use Rattle.pl_dyn.specs.Read as spec;

use crate::{Dynamic, Tag};

#[tactic(auto, unfolding(crate::specs::Read::first_of))]
fn first_of(number: u64, tags: &[Tag]) -> Option<Tag>
    ensures { result ≡ spec.first_of number tags.now }
{
    tags.iter().copied().find(|tag| tag.number == number)
}

/// The value of the first of tags that has a number; None exactly where none has.
#[tactic(auto, unfolding(crate::specs::Read::value_of))]
pub fn value_of(tags: &[Tag], number: u64) -> Option<u64>
    ensures { result ≡ spec.value_of number tags.now }
{
    match first_of(number, tags) {
        Some(tag) => Some(tag.value),
        None => None,
    }
}

/// The value of the first entry with a tag, of those before the one of tag DT_NULL (System V gABI chapter 5, "Dynamic Section"); None exactly where none of them has it. Of DT_NEEDED, which may stand many times, it is the first alone.
pub fn tag(dynamic: &Dynamic, number: u64) -> Option<u64>
    ensures exact { result ≡ spec.value_of number dynamic.now.tags }
    ensures absent { IsNone result ↔ All (λ tag. tag.number ≢ number) dynamic.now.tags }
{
    value_of(dynamic.tags.as_slice(), number)
}
