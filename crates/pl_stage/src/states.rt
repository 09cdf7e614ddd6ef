use crate::Held;

/// A file that is written and may not be firm. It holds the loan of the folder: nothing else acts on that in between.
pub struct Fresh<'a, D, N> {
    pub(crate) held: &'a mut Held<D>,
    pub(crate) name: N,
}

/// A file that is firm, with the loan of the folder.
pub struct Firm<'a, D, N> {
    pub(crate) held: &'a mut Held<D>,
    pub(crate) name: N,
}
