//! Where the words of each prefix begin in a list of words, so that a word is looked up among few.
ghost use Rattle.std.specs.Prelude.{◌≡◌, ◌+◌, ◌*◌, ◌/◌, ◌<◌, ◌≤◌, ◌^◌, true, IfOk, IfSome, Some, length, min};
ghost use Rattle.std.specs.List.Sorted.{IsStrictlyIncreasing};
ghost use Rattle.std.specs.Vec.{vec_capacity};
ghost use Rattle.kc_kmer.specs.Rule.{is_listed};
ghost use Rattle.kc_word.specs.Starts.{AreLesser, AreGreater};

use std::alloc::{AllocError, Global};
use std::marker::Model;

/// How many words are looked up at a time.
pub(crate) const BLOCK: usize = 64;

// A list with this many words or more has places that do not fit into a start.
const TOO_MANY: usize = 1 << 32;

/// Where the words of each prefix begin in an ascending list. A prefix is as many high bits of a word as give a start
/// for one to four words, if the words are spread evenly; if many words have one prefix, they are searched by halving.
///
/// A start has 4 bytes, and there are at most as many as words. A list of 2^32 words or more has none. No result relies
/// on a start alone: it is compared with the words beside it.
#[derive(Debug, Drop)]
pub(crate) struct Starts {
    // how many low bits of a word are outside its prefix
    shift: u32,
    // for each prefix how many words have a lesser one
    starts: Vec<u32>,
}

impl Model for Starts {
    ghost use Rattle.std.specs.Prelude.{◌<◌};
    ghost use Rattle.kc_word.specs.Starts.{PrefixStarts};

    ghost Value = { PrefixStarts };

    ghost view = { λ s. record { shift = s.shift; starts = s.starts.items } };

    ghost invariant = { λ s. s.shift < 64 };
}

impl Starts {
    /// The starts of these words: if they ascend, at least one for four words. The room for them is asked for once.
    pub(crate) fn of(alloc: Global, words: &[u64]) -> Result<Starts, AllocError>
        ensures few { IfOk result (λ s. length s.starts ≤ length words.now) }
        ensures many { IsStrictlyIncreasing words.now → length words.now < 2 ^ 32
            → IfOk result (λ s. length words.now ≤ 4 * length s.starts) }
    {
        let last = words.last().copied().unwrap_or(0);
        let shift = shift_for(words.len(), last);
        let starts = starts_in(alloc, words, shift, prefixes(words.len(), last >> shift))?;
        Ok(Starts { shift, starts })
    }

    /// Whether the word is one of these. Condition: they ascend.
    #[inline(always)]
    pub(crate) fn has(&self, words: &[u64], word: u64) -> bool
        requires { IsStrictlyIncreasing words.now }
        ensures { result ≡ is_listed (Some words.now) word }
    {
        let place = place_past_lesser(words, self.start(word), word);
        self.has_near(words, word, place_past_lesser(words, place, word))
    }

    /// The same, with the search beginning at a place: at best that of the first word that is not less.
    #[inline(always)]
    pub(crate) fn has_near(&self, words: &[u64], word: u64, place: usize) -> bool
        requires { IsStrictlyIncreasing words.now }
        ensures { result ≡ is_listed (Some words.now) word }
    {
        match is_listed_at(words, place, word) {
            Some(is_listed) => is_listed,
            None => self.find(words, word),
        }
    }

    // Whether the word is one of these, if it is not near its start.
    fn find(&self, words: &[u64], word: u64) -> bool
        requires { IsStrictlyIncreasing words.now }
        ensures { result ≡ is_listed (Some words.now) word }
    {
        let end = self.end(words.len(), word);
        match is_listed_at(words, lower_bound(words, self.start(word), end, word), word) {
            Some(is_listed) => is_listed,
            None => words.binary_search(&word).is_ok(),
        }
    }

    // The start of the word's prefix.
    #[inline(always)]
    fn start(&self, word: u64) -> usize {
        let prefix = (word >> self.shift) as usize;
        self.starts.get(prefix).copied().unwrap_or(0) as usize
    }

    // The start of the next prefix, or how many words there are.
    fn end(&self, count: usize, word: u64) -> usize {
        let next = ((word >> self.shift) as usize).saturating_add(1);
        match self.starts.get(next) {
            Some(start) => *start as usize,
            None => count,
        }
    }

    /// For each of the first `BLOCK` words that are asked for, its place in the list, if that is near its start. No
    /// read of a start or of the list waits for another of its kind, so the memory serves several at once.
    #[inline(always)]
    pub(crate) fn places(&self, words: &[u64], asked: &[u64]) -> [usize; BLOCK] {
        let mut places = [0; BLOCK];
        for i in 0..asked.len().min(BLOCK) {
            places[i] = self.start(asked[i]);
        }
        pass_lesser(words, asked, &mut places);
        pass_lesser(words, asked, &mut places);
        places
    }
}

// How many low bits are not of a prefix, in a list of so many words with this last one.
fn shift_for(count: usize, last: u64) -> u32
    ensures below { result < 64 }
    ensures enough { count ≤ last + 1 → count ≤ 4 * (last / 2 ^ result + 1) }
{
    let top = last.max(1).ilog2();
    let high = count.max(1).ilog2();
    if top < high {
        return 0;
    }
    (top - high + 1).min(63)
}

// How many prefixes have a start, in a list of so many words whose last one has this prefix.
fn prefixes(count: usize, last: u64) -> usize
    ensures few { result ≤ count }
    ensures many { 2 ^ 32 ≤ count → result ≡ 0 }
    ensures all { count < 2 ^ 32 → result ≡ min count (last + 1) }
{
    if count >= TOO_MANY {
        return 0;
    }
    count.min((last as usize).saturating_add(1))
}

// The starts of so many prefixes, with room for these alone.
fn starts_in(
    alloc: Global,
    words: &[u64],
    shift: u32,
    prefixes: usize,
) -> Result<Vec<u32>, AllocError>
    requires shift { shift < 64 }
    requires fit { 1 ≤ prefixes → length words.now < 2 ^ 32 }
    ensures long { IfOk result (λ starts. length starts.items ≡ prefixes) }
    ensures bounded { IfOk result (λ starts. vec_capacity starts ≤ prefixes) }
{
    let mut starts = Vec::with_capacity(alloc, prefixes)?;
    let mut start = 0;
    for prefix in 0..prefixes {
        start = first_with_prefix(words, start, prefix as u64, shift);
        starts.push_reserved(start as u32);
    }
    Ok(starts)
}

// The place of the first word from this one on that has at least this prefix, or the end.
fn first_with_prefix(words: &[u64], from: usize, prefix: u64, shift: u32) -> usize
    requires from { from ≤ length words.now }
    requires shift { shift < 64 }
    ensures { result ≤ length words.now }
{
    let mut at = from;
    while at < words.len() && words[at] >> shift < prefix {
        at += 1;
    }
    at
}

// The next place, if the word at this one is less; otherwise this one.
#[inline(always)]
fn place_past_lesser(words: &[u64], place: usize, word: u64) -> usize {
    if place < words.len() && words[place] < word {
        return place + 1;
    }
    place
}

// For each of the first `BLOCK` words that are asked for, the next place, if the word at its place is less.
#[inline(always)]
fn pass_lesser(words: &[u64], asked: &[u64], places: &mut [usize; BLOCK]) {
    for i in 0..asked.len().min(BLOCK) {
        places[i] = place_past_lesser(words, places[i], asked[i]);
    }
}

// The place between two at which the lesser words end, by halving.
fn lower_bound(words: &[u64], low: usize, high: usize, word: u64) -> usize {
    let mut from = low;
    let mut end = high.min(words.len());
    while from < end {
        let middle = from + (end - from) / 2;
        if words[middle] < word {
            from = middle + 1;
        } else {
            end = middle;
        }
    }
    from
}

// Whether the word is one of these, if a place determines it: the word is there, or would have to be. Condition: they
// ascend.
#[inline(always)]
fn is_listed_at(words: &[u64], place: usize, word: u64) -> Option<bool>
    requires { IsStrictlyIncreasing words.now }
    ensures { IfSome result (λ told. told ≡ is_listed (Some words.now) word) }
{
    if place < words.len() && words[place] == word {
        return Some(true);
    }
    if are_lesser(words, place, word) && are_greater(words, place, word) {
        return Some(false);
    }
    None
}

// Whether the words before a place are less. Condition: they ascend.
#[inline(always)]
fn are_lesser(words: &[u64], place: usize, word: u64) -> bool
    requires { IsStrictlyIncreasing words.now }
    ensures { result ≡ true → AreLesser words.now place word }
{
    place == 0 || (place <= words.len() && words[place - 1] < word)
}

// Whether the words from a place on are greater. Condition: they ascend.
#[inline(always)]
fn are_greater(words: &[u64], place: usize, word: u64) -> bool
    requires { IsStrictlyIncreasing words.now }
    ensures { result ≡ true → AreGreater words.now place word }
{
    place >= words.len() || word < words[place]
}
