/// How much is printed.
#[derive(Clone, Copy, Debug, PartialEq, Eq)]
pub enum Detail {
    /// Of an order the objects; of a run over all files how many there are of each kind.
    Short,

    /// Of an order which object reaches which, too; of a run over all files a line for each name, too.
    Full,
}
