//! A selection by a table: whether a read is solid.
ghost use Rattle.std.specs.Prelude.{◌≡◌, ◌<◌, ◌^◌, IfOk, length};
ghost use Rattle.kc_word.specs.Only.{AreListed};
ghost use Rattle.kc_select.specs.Solid.{rule_for, words_for, is_solid_word, solid_in, is_solid, is_selected};
ghost use Rattle.kc_select.specs.SolidWords.{AreExceptions};

use crate::base_walk::BaseWalk;
use crate::row_index::RowIndex;
use crate::selection::Selection;
use crate::word_counts::WordCounts;
use kc_fastx::SeqRead;
use kc_kmer::{K, Rule, Word};
use kc_tally::Tally;
use kc_word::Only;
use std::alloc::{AllocError, Global};
use std::marker::Model;

/// A table and the rule of a selection by it, ready to judge reads. The table's solid words are listed; or, if a word
/// that the table lacks is solid, those that are not. So a word is looked up in one or two places of memory. A listed
/// word takes at most 12 bytes. If profiles are written, the rows of the table have an index, which takes at most a
/// tenth of their memory.
#[derive(Drop)]
pub struct Selector<'a> {
    // the table, with an index of its rows if profiles are written
    index: RowIndex<'a>,
    selection: Selection,
    // the words of the table that are solid if a word that it lacks is not, or that are not if such a word is
    exceptions: Only,
}

impl<'a> Model for Selector<'a> {
    ghost use Rattle.kc_select.specs.Solid.{SelectorSeen};
    ghost use Rattle.kc_select.specs.SolidWords.{ListsExceptions};

    ghost Value = { SelectorSeen };

    ghost view = { λ s. record { tally = s.index; rule = s.selection } };

    ghost invariant = { λ s. ListsExceptions s.index s.selection s.exceptions };
}

impl<'a> Selector<'a> {
    /// The selection by this table.
    pub fn new(
        alloc: Global,
        tally: &'a Tally,
        selection: Selection,
    ) -> Result<Selector<'a>, AllocError>
        ensures { IfOk result (λ selector. selector ≡ record { tally = tally.now; rule = selection }) }
    {
        let words = exceptions(alloc, tally, selection)?;
        let exceptions = Only::of_words(alloc, tally.k(), tally.both(), words)?;
        Ok(Selector {
            index: index_for(alloc, tally, selection)?,
            selection,
            exceptions,
        })
    }

    /// The length of the words.
    pub fn k(&self) -> K
        ensures { result ≡ self.now.tally.k }
    {
        self.tally().k()
    }

    // The table.
    fn tally(&self) -> &'a Tally
        ensures { result.now ≡ self.now.tally }
    {
        self.index.tally()
    }

    // The table, with an index of its rows if profiles are written.
    pub(crate) fn index(&self) -> &RowIndex<'a>
        ensures { result.now ≡ self.now.tally }
    {
        &self.index
    }

    // How the words of a read count.
    pub(crate) fn rule(&self) -> Rule
        ensures { result ≡ rule_for self.now.tally self.now.rule }
    {
        let tally = self.tally();
        Rule::new(tally.k(), tally.both(), self.selection.floor())
    }

    // The rule of the selection.
    pub(crate) fn selection(&self) -> Selection
        ensures { result ≡ self.now.rule }
    {
        self.selection
    }

    /// Whether the selection keeps the read: a solid one or, if the selection is inverted, one that is not. It takes no
    /// memory.
    pub fn is_selected(&self, read: &SeqRead) -> bool
        ensures { result ≡ is_selected self.now.tally self.now.rule read.now }
    {
        self.count_words(read).is_kept(self.selection)
    }

    /// Whether the percentage of the read's words that are solid is at least the selection's. True for a read without
    /// words. It takes no memory.
    pub fn is_solid(&self, read: &SeqRead) -> bool
        ensures { result ≡ is_solid self.now.tally self.now.rule read.now }
    {
        self.count_words(read).has_share(self.selection)
    }

    // Counts the words of the read, and the solid ones among them.
    pub(crate) fn count_words(&self, read: &SeqRead) -> WordCounts
        ensures words { result.words ≡ length (words_for self.now.tally self.now.rule read.now) }
        ensures solid { result.solid ≡ solid_in self.now.tally self.now.rule read.now }
    {
        let mut walk = BaseWalk::new(read, self.rule());
        let mut counted = WordCounts { words: 0, solid: 0 };
        'words: while let Some(word) = walk.next_word() {
            counted.words += 1;
            if self.is_solid_word(Word(word)) {
                counted.solid += 1;
            }
        }
        counted
    }

    // Whether the word is solid. Condition: it is below 4^k.
    #[inline(always)]
    fn is_solid_word(&self, word: Word) -> bool
        requires { word.0 < 4 ^ self.now.tally.k }
        ensures { result ≡ is_solid_word self.now.tally self.now.rule word.0 }
    {
        self.exceptions.holds(word) != self.selection.is_solid(0)
    }
}

// The index of the table's rows, without places if no profile is written.
fn index_for<'a>(
    alloc: Global,
    tally: &'a Tally,
    selection: Selection,
) -> Result<RowIndex<'a>, AllocError>
    ensures { IfOk result (λ index. index ≡ tally.now) }
{
    if selection.is_profiled() {
        RowIndex::of(alloc, tally)
    } else {
        Ok(RowIndex::without_places(alloc, tally))
    }
}

// The words of the table that are solid if a word that it lacks is not, or that are not if such a word is, in ascending
// order.
fn exceptions(alloc: Global, tally: &Tally, selection: Selection) -> Result<Vec<u64>, AllocError>
    ensures are { IfOk result (λ words. AreExceptions tally.now selection words.items) }
    ensures listed { IfOk result (λ words. AreListed tally.now.k words.items) }
{
    let mut words = Vec::new(alloc);
    for row in tally.rows() {
        if selection.is_exception(row.count) {
            words.push(row.word)?;
        }
    }
    words.shrink_to_fit();
    Ok(words)
}
