ghost use Rattle.pl_base.specs.Names.{IsNameLength};

use pl_base::Text;

/// The name of a file, of 1 to 255 bytes.
#[derive(Drop)]
pub struct FileName {
    pub(crate) text: Text,
    ghost long: { IsNameLength text },
}
