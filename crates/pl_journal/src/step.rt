use crate::FileName;

/// What does a row of a journal. A row whose file beside is not there asks for nothing.
#[derive(Drop)]
pub enum Step {
    Put { from: FileName, to: FileName },
    Drop { name: FileName },
    Skip,
}
