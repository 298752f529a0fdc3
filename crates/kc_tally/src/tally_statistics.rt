//! The statistics of a tally.

/// Four numbers about the words of a tally and their counts.
#[derive(Clone, Copy, PartialEq, Eq, Debug)]
pub struct Statistics {
    /// How many words occur once.
    pub unique: u64,
    /// How many words occur.
    pub distinct: u64,
    /// The sum of the counts of all words.
    pub total: u64,
    /// The greatest count of a word, 0 if none occurs.
    pub greatest: u64,
}
