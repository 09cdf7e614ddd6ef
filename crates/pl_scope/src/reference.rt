/// A symbol that is looked up for a relocation.
#[derive(Clone, Copy, Debug, PartialEq, Eq)]
pub struct Reference {
    /// The index of its object among the members of the scope.
    pub member: u32,

    /// Its index in the object's symbol table.
    pub symbol: u32,

    /// The relocation's kind, one of the `R_X86_64_` numbers.
    pub kind: u32,
}
