use crate::FixedProgram;

/// What a policy makes of a file.
#[derive(Drop)]
pub enum Placing {
    /// It is no position-independent program.
    NotPie,

    /// No aligned address of the region of such programs holds it.
    NoPlace,

    /// The program that it becomes.
    Fixed {
        /// The address that is added to its own.
        address: u64,

        /// The program.
        program: FixedProgram,
    },
}
