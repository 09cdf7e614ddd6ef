/// The version of a form's undo section.
#[derive(Clone, Copy, Debug, PartialEq, Eq)]
pub enum Version {
    /// Without a digest.
    One,

    /// With the SHA-256 of the original.
    Two,
}
