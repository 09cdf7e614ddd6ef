use pl_base::{Rows, Text};
use pl_sym::Symbol;
use pl_ver::Versions;

/// What acceptance clauses 15 to 18 read of a file: the needed names, and the symbols with their versions.
#[derive(Drop)]
pub struct Linking {
    pub needed: Rows<Text>,
    pub symbols: Rows<Symbol>,
    pub versions: Option<Versions>,
}
