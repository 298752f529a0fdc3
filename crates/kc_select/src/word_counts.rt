//! The words of a read, counted.
ghost use Rattle.std.specs.Prelude.{◌≡◌, if◌then◌else◌};
ghost use Rattle.kc_select.specs.Solid.{has_share, keeps};

use crate::selection::Selection;
use crate::selection_counts::SelectionCounts;

// How many words a read has, and how many of these are solid.
#[derive(Clone, Copy)]
pub(crate) struct WordCounts {
    pub(crate) words: u64,
    pub(crate) solid: u64,
}

impl WordCounts {
    // Whether the percentage of solid words is at least the selection's.
    pub(crate) fn has_share(self, selection: Selection) -> bool
        ensures { result ≡ has_share selection self.words self.solid }
    {
        selection.share() as u128 * self.words as u128 <= 100 * self.solid as u128
    }

    // Whether the selection keeps a read with these words.
    pub(crate) fn is_kept(self, selection: Selection) -> bool
        ensures { result ≡ keeps selection (has_share selection self.words self.solid) }
    {
        selection.keeps(self.has_share(selection))
    }

    // The numbers of one read with these words, which is kept or not.
    pub(crate) fn of_one(self, is_kept: bool) -> SelectionCounts
        ensures { result ≡
            record { reads = 1; kept = if is_kept then 1 else 0; words = self.words; solid = self.solid } }
    {
        SelectionCounts {
            reads: 1,
            kept: u64::from(is_kept),
            words: self.words,
            solid: self.solid,
        }
    }
}
