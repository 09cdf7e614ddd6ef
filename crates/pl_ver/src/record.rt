/// What is read of a version record with a name: a Verdef with its first Verdaux, or a Vernaux.
#[derive(Clone, Copy)]
pub struct Record {
    pub index: u16,

    /// Where the name begins in the strings.
    pub name: u32,

    /// Whether this is a Verdef.
    pub defined: bool,

    /// Whether this is a Verdef with the flag `VER_FLG_BASE`.
    pub base: bool,
}
