// The lists that a tag may stand in.
ghost use Rattle.std.specs.Prelude.{◌≡◌};
ghost use Rattle.pl_dyn.specs.Kinds as spec;

use crate::constants::{
    ADDRESS_TAGS, DT_ADDRRNGHI, DT_ADDRRNGLO, DT_VALRNGHI, DT_VALRNGLO, PRELINK_TAGS, VALUE_TAGS,
};

/// Whether a tag is a listed one whose value is an address, which moves with the file. The prelink tags are none of them.
#[tactic(auto, unfolding(crate::specs::Kinds::is_address_tag))]
pub fn is_address_tag(number: u64) -> bool
    ensures { result ≡ spec.is_address_tag number }
{
    ADDRESS_TAGS.contains(&number)
}

/// Whether a tag is one whose value is no address: a listed one, or any from DT_VALRNGLO to DT_VALRNGHI, so also four of the prelink tags.
#[tactic(auto, unfolding(crate::specs::Kinds::is_value_tag))]
pub fn is_value_tag(number: u64) -> bool
    ensures { result ≡ spec.is_value_tag number }
{
    VALUE_TAGS.contains(&number) || (DT_VALRNGLO..=DT_VALRNGHI).contains(&number)
}

/// Whether a tag is one of the six of a prelinked file.
#[tactic(auto, unfolding(crate::specs::Kinds::is_prelink_tag))]
pub fn is_prelink_tag(number: u64) -> bool
    ensures { result ≡ spec.is_prelink_tag number }
{
    PRELINK_TAGS.contains(&number)
}

/// Whether a tag is one of the three kinds. DT_NULL is none of them.
#[tactic(auto, unfolding(crate::specs::Kinds::is_listed))]
pub fn is_listed(number: u64) -> bool
    ensures { result ≡ spec.is_listed number }
{
    is_address_tag(number) || is_value_tag(number) || is_prelink_tag(number)
}

/// Whether acceptance clause 10 refuses a tag: it is of no kind, or a prelink tag that GNU counts among the addresses.
#[tactic(auto, unfolding(crate::specs::Kinds::is_unknown))]
pub fn is_unknown(number: u64) -> bool
    ensures { result ≡ spec.is_unknown number }
{
    !is_listed(number) || is_prelink_tag(number) && (DT_ADDRRNGLO..=DT_ADDRRNGHI).contains(&number)
}
