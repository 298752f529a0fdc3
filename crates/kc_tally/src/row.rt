//! A row of a tally: a word and its count.

/// A word's number, and how often the word occurs.
#[derive(Clone, Copy, PartialEq, Eq, Debug)]
pub struct Row {
    /// The number of the word.
    pub word: u64,
    /// Its count.
    pub count: u64,
}
