/// What an input is, of which a file is stored.
#[derive(Clone, Copy, Debug, PartialEq, Eq)]
pub enum Content {
    /// The file.
    File,

    /// The file's recipe.
    Recipe,
}
