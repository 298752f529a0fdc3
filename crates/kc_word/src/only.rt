//! A list of words, to which a count may be restricted.
ghost use Rattle.std.specs.Prelude.{◌≡◌, ℕ, ◌-◌, ◌*◌, ◌<◌, ◌≤◌, ◌^◌, ◌↔◌, Some, true, All, filter, IfOk, Contains};
ghost use Rattle.std.specs.Prelude.{length, max, min};
ghost use Rattle.std.specs.List.Sorted.{IsStrictlyIncreasing};
ghost use Rattle.kc_kmer.specs.Rule.{is_listed};
ghost use Rattle.kc_kmer.specs.Occurrences.{words_of};
ghost use Rattle.kc_word.specs.Only.{AreListed, IsListOf};

use crate::list_starts::{BLOCK, Starts};
use crate::piece_words::read_words;
use kc_fastx::SeqRead;
use kc_kmer::{K, Rule, Word};
use std::alloc::{AllocError, Global};
use std::marker::Model;

// The least limit: how many words are collected before repeated ones are removed.
const MIN_LIMIT: usize = 65_536;

/// A list of words, in ascending order, in which a word is looked up quickly: the words to which a count is restricted,
/// or the solid words of a table.
///
/// Its view is the length of the words, whether both strands count, and the numbers of the words in ascending order. It
/// takes at most 12 bytes a word, and 8 if it has 2^32 words or more.
#[derive(Debug, Drop)]
pub struct Only {
    k: K,
    both: bool,
    // in ascending order
    words: Vec<u64>,
    // where the words of each prefix begin
    starts: Starts,
}

impl Model for Only {
    ghost use Rattle.kc_word.specs.Only.{WordList, AreListed};

    ghost Value = { WordList };

    ghost view = { λ o. record { k = o.k; both = o.both; words = o.words.items } };

    ghost invariant = { λ o. AreListed o.k o.words.items };
}

impl Only {
    /// The words that occur in the reads under this rule, including its floor of qualities.
    pub fn of(alloc: Global, reads: &[SeqRead], rule: &Rule) -> Result<Only, AllocError>
        ensures { IfOk result (λ only. IsListOf rule.now reads.now only) }
    {
        let words = words_in_reads(alloc, reads, rule)?;
        Only::of_words(alloc, rule.k(), rule.both(), words)
    }

    /// The list of these words. Condition: they ascend, and each is below 4^k.
    pub fn of_words(alloc: Global, k: K, both: bool, words: Vec<u64>) -> Result<Only, AllocError>
        requires { AreListed k words.items }
        ensures { IfOk result (λ only. only ≡ record { k = k; both = both; words = words.items }) }
    {
        let starts = Starts::of(alloc, &words)?;
        Ok(Only {
            k,
            both,
            words,
            starts,
        })
    }

    /// The length of the words.
    pub fn k(&self) -> K
        ensures { result ≡ self.now.k }
    {
        self.k
    }

    /// Whether the words are in the forms under which they count on both strands.
    pub fn both(&self) -> bool
        ensures { result ≡ self.now.both }
    {
        self.both
    }

    /// The numbers of the words, in ascending order.
    pub fn words(&self) -> &[u64]
        ensures words { result.now ≡ self.now.words }
        ensures listed { AreListed self.now.k self.now.words }
    {
        &self.words
    }

    /// Whether the list has the word. Condition: it is below 4^k.
    #[inline(always)]
    pub fn holds(&self, word: Word) -> bool
        requires { word.0 < 4 ^ self.now.k }
        ensures { result ≡ is_listed (Some self.now.words) word.0 }
    {
        self.starts.has(&self.words, word.0)
    }

    /// Removes the words that are not in the list. Condition: each is below 4^k.
    pub fn keep_listed(&self, words: &mut Vec<u64>)
        requires { All (λ word. word < 4 ^ self.now.k) words.old.items }
        ensures { words.new.items ≡ filter (λ word. is_listed (Some self.now.words) word) words.old.items }
    {
        let mut places = self.starts.places(&self.words, words);
        let mut kept = 0;
        for i in 0..words.len() {
            let word = words[i];
            if self.starts.has_near(&self.words, word, places[i % BLOCK]) {
                words[kept] = word;
                kept += 1;
            }
            if i % BLOCK == BLOCK - 1 {
                places = self.starts.places(&self.words, &words[i + 1..]);
            }
        }
        words.truncate(kept);
    }
}

/// Equal lists have the same words, of the same length and with the same strands.
impl PartialEq for Only {
    ghost use Rattle.kc_word.specs.Only.{is_same_list};
    ghost use Rattle.kc_word.specs.Sameness.{is_same_list-laws};

    ghost eq = { is_same_list };

    ghost laws = { is_same_list-laws };

    fn eq(&self, other: &Only) -> bool {
        (self.k == other.k) && (self.both == other.both) && self.words == other.words
    }
}

impl Eq for Only {
    ghost use Rattle.kc_word.specs.Sameness.{is_same_list-IsEquivalence};

    ghost laws = { is_same_list-IsEquivalence };
}

// The words of the reads, each once, in ascending order.
fn words_in_reads(alloc: Global, reads: &[SeqRead], rule: &Rule) -> Result<Vec<u64>, AllocError>
    ensures rising { IfOk result (λ words. IsStrictlyIncreasing words.items) }
    ensures words { IfOk result (λ words. (n : ℕ)
        → Contains words.items n ↔ Contains (words_of rule.now reads.now) n) }
{
    let mut words = Vec::new(alloc);
    let mut limit = MIN_LIMIT;
    for read in reads {
        let more = read_words(alloc, read, rule)?;
        words.extend_from_slice(&more)?;
        limit = keep_once_at(&mut words, limit);
    }
    keep_once(&mut words);
    words.shrink_to_fit();
    Ok(words)
}

// If there are as many words as the limit, puts them in ascending order, each once, and returns a limit that they reach
// after they have doubled, so that they are rarely sorted. Fewer words are unchanged.
fn keep_once_at(words: &mut Vec<u64>, limit: usize) -> usize
    ensures same { (n : ℕ) → Contains words.new.items n ↔ Contains words.old.items n }
    ensures fewer { length words.old.items < limit → (words.new.items ≡ words.old.items) × (result ≡ limit) }
    ensures next { limit ≤ length words.old.items
        → result ≡ max (min (2 * length words.new.items) (2 ^ 64 - 1)) MIN_LIMIT }
{
    if words.len() < limit {
        return limit;
    }
    keep_once(words);
    words.len().saturating_mul(2).max(MIN_LIMIT)
}

// Puts the words in ascending order, each once.
fn keep_once(words: &mut Vec<u64>)
    ensures rising { IsStrictlyIncreasing words.new.items }
    ensures same { (n : ℕ) → Contains words.new.items n ↔ Contains words.old.items n }
{
    words.sort_unstable();
    words.dedup();
}
