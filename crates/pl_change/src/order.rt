//! Whether names ascend.
ghost use Rattle.std.specs.Prelude.{◌≡◌, map, string_bytes};
ghost use Rattle.pl_change.specs.Folder as spec;

fn precedes(a: &str, b: &str) -> bool
    ensures { result ≡ spec.precedes a.now b.now }
{
    a.cmp(b).is_lt()
}

fn is_followed(name: &str, others: &[String]) -> bool
    ensures { result ≡ spec.is_followed name.now (map string_bytes others.now) }
{
    match others {
        [] => true,
        [next, ..] => precedes(name, next.as_str()),
    }
}

/// Whether names ascend strictly, in the order of their bytes.
pub fn ascend(names: &[String]) -> bool
    ensures { result ≡ spec.ascend (map string_bytes names.now) }
{
    let mut left = names;
    while let [name, others @ ..] = left {
        if !is_followed(name.as_str(), others) {
            return false;
        }
        left = others;
    }
    true
}
