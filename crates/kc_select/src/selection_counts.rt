//! The numbers that a selection counts.
ghost use Rattle.std.specs.Prelude.{◌≡◌, ◌+◌, ◌^◌, ◌<◌};
ghost use Rattle.kc_select.specs.Counts.{no_counts, both_counts};

/// How many reads were judged, how many of them are selected, how many words they have, and how many of these are
/// solid.
#[derive(Clone, Copy, Debug, PartialEq, Eq)]
pub struct SelectionCounts {
    /// The reads.
    pub reads: u64,
    /// Those of them that are selected.
    pub kept: u64,
    /// The words of the reads.
    pub words: u64,
    /// Those of them that are solid.
    pub solid: u64,
}

impl SelectionCounts {
    /// The counts of no reads.
    pub fn none() -> SelectionCounts
        ensures { result ≡ no_counts }
    {
        SelectionCounts {
            reads: 0,
            kept: 0,
            words: 0,
            solid: 0,
        }
    }

    /// The sums of both. Condition: no sum is 2^64 or more.
    pub fn plus(self, other: SelectionCounts) -> SelectionCounts
        requires reads { self.reads + other.reads < 2 ^ 64 }
        requires kept { self.kept + other.kept < 2 ^ 64 }
        requires words { self.words + other.words < 2 ^ 64 }
        requires solid { self.solid + other.solid < 2 ^ 64 }
        ensures { result ≡ both_counts self other }
    {
        SelectionCounts {
            reads: self.reads + other.reads,
            kept: self.kept + other.kept,
            words: self.words + other.words,
            solid: self.solid + other.solid,
        }
    }
}

/// The result of selecting reads of a source.
#[derive(Clone, Copy, Debug, PartialEq, Eq)]
pub struct Selected {
    /// How many bytes the source gave.
    pub bytes: u64,
    /// The numbers of its reads.
    pub counts: SelectionCounts,
}
