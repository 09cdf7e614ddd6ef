use pl_base::Rows;

/// One member of a walk reaches another: a chain of needed names leads from it to the other.
#[derive(Clone, Copy, Debug, PartialEq, Eq)]
pub struct ReachRow {
    /// The number of the member that reaches.
    pub from: u32,

    /// The number of the member that is reached.
    pub to: u32,

    /// The number of the member by which it was found, which needs it: `from` itself, or one that `from` reaches.
    pub via: u32,
}

/// Which member of a walk reaches which.
#[derive(Drop)]
pub struct Reach {
    /// One row for each two members of which the first reaches the second, by ascending `from`.
    pub rows: Rows<ReachRow>,
}
