use pl_elf::Range;

/// What a run that prelinks everything is asked.
#[derive(Clone, Copy, Debug, PartialEq, Eq)]
pub struct Prelinking {
    /// The addresses from which slots are given.
    pub region: Range,

    /// Whether libraries may share addresses that the walk of no name holds together.
    pub share: bool,

    /// When the run is, in seconds since 1970.
    pub moment: u32,
}
