use pl_change::Cause;

/// How far a run of a weave came.
#[derive(Drop)]
pub enum Progress {
    /// It waits for the runs before it.
    Waits,

    /// It was refused.
    Refused(Cause),

    /// So many of its rows are done; with all of them it has finished.
    Does { done: usize, rows: usize },
}
