/// The symbol that a reference finds.
#[derive(Clone, Copy, Debug, PartialEq, Eq)]
pub struct Found {
    /// The index of its object among the members of the scope.
    pub member: u32,

    /// Its index in the object's symbol table.
    pub symbol: u32,
}
