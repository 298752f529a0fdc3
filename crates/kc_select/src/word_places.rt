//! Where the words of a read are searched in a table, some words ahead of their counts.
use crate::base_walk::BaseWalk;
use crate::row_index::{BLOCK, RowIndex};
use kc_fastx::SeqRead;
use kc_kmer::Rule;

/// The places for the words of a read, in their order. They are looked up for several words at once.
#[derive(Drop)]
pub(crate) struct WordPlaces<'a> {
    walk: BaseWalk<'a>,
    places: [usize; BLOCK],
    // how many of the places were taken
    taken: usize,
}

impl<'a> WordPlaces<'a> {
    /// Before the first word.
    pub(crate) fn new(read: &'a SeqRead, rule: Rule) -> WordPlaces<'a> {
        WordPlaces {
            walk: BaseWalk::new(read, rule),
            places: [0; BLOCK],
            taken: BLOCK,
        }
    }

    /// The place for the next word.
    #[inline(always)]
    pub(crate) fn next_place(&mut self, index: &RowIndex<'_>) -> usize {
        if self.taken >= BLOCK {
            self.places = index.places(&next_words(&mut self.walk));
            self.taken = 0;
        }
        let place = self.places[self.taken % BLOCK];
        self.taken = self.taken.saturating_add(1);
        place
    }
}

// The next words, with 0 for those past the end of the read.
fn next_words(walk: &mut BaseWalk<'_>) -> [u64; BLOCK] {
    let mut words = [0; BLOCK];
    for i in 0..BLOCK {
        words[i] = walk.next_word().unwrap_or(0);
    }
    words
}
