/// Where the last searches in an image ended, from which the next ones begin: words are asked for in ascending order. Any place gives the same answers.
#[derive(Clone, Copy)]
pub struct Place {
    /// How many of the words that patches touch were passed.
    pub touched: usize,

    /// How many of the masked ranges were passed.
    pub masked: usize,
}
