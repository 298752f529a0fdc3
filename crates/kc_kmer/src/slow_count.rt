//! A plain and slow count, straight from the definitions: a word is looked for at each position of each read. It
//! computes small examples.
ghost use Rattle.std.specs.Prelude.{◌≡◌, ◌+◌, ◌^◌, ◌<◌, ◌≤◌, length, sum_by, Some, None, SomeIff, IfOk, IfSome, IfNone};
ghost use Rattle.kc_fastx.specs.Reads.{base_count};
ghost use Rattle.kc_kmer.specs.Word.{text};
ghost use Rattle.kc_kmer.specs.Occurrences.{is_usable, counted_at, counts_under, occurrences_in, occurrences};

use crate::letter::{NO_BASE, code_of};
use crate::rule::Rule;
use crate::word::{Word, canonical, pack};
use kc_fastx::SeqRead;

/// How many bases the reads have, if they are fewer than 2^64.
pub fn base_count(reads: &[SeqRead]) -> Option<u64>
    ensures { let bases = base_count reads.now in
        SomeIff result (bases < 2 ^ 64) bases }
{
    let mut count = 0u64;
    for read in reads {
        count = count.checked_add(read.bases().len() as u64)?;
    }
    Some(count)
}

/// The occurrences of a word in the reads. Conditions: the word is below 4^k, and the reads have fewer
/// than 2^64 bases.
pub fn occurrences(reads: &[SeqRead], rule: &Rule, word: Word) -> u64
    requires below { word.0 < 4 ^ rule.now.k }
    requires fits { base_count reads.now < 2 ^ 64 }
    ensures { result ≡ occurrences rule.now reads.now (text rule.now.k word.0) }
{
    let mut count = 0u64;
    for read in reads {
        count += occurrences_in(read, rule, word);
    }
    count
}

// at how many positions of the read the word occurs
fn occurrences_in(read: &SeqRead, rule: &Rule, word: Word) -> u64
    requires { word.0 < 4 ^ rule.now.k }
    ensures value { result ≡ occurrences_in rule.now read.now (text rule.now.k word.0) }
    ensures most { result ≤ length read.now.bases }
{
    let k = rule.k().get() as usize;
    let mut count = 0u64;
    for position in 0..(read.bases().len() + 1).saturating_sub(k) {
        if stands_at(read, rule, word, position) {
            count += 1;
        }
    }
    count
}

// whether the position counts under this word
fn stands_at(read: &SeqRead, rule: &Rule, word: Word, position: usize) -> bool
    requires { word.0 < 4 ^ rule.now.k }
    ensures { result ≡ counts_under rule.now read.now (text rule.now.k word.0) position }
{
    match form_at(read, rule, position) {
        Some(found) => found.0 == word.0,
        None => false,
    }
}

// the form under which a position counts, if it counts
fn form_at(read: &SeqRead, rule: &Rule, position: usize) -> Option<Word>
    ensures none { IfNone result (counted_at rule.now read.now position ≡ None) }
    ensures some { IfSome result (λ word. counted_at rule.now read.now position ≡ Some (text rule.now.k word.0)) }
    ensures below { IfSome result (λ word. word.0 < 4 ^ rule.now.k) }
{
    rule.has_no_list();
    let k = rule.k();
    let count = k.get() as usize;
    let bases = read.bases();
    if bases.len() < count || bases.len() - count < position {
        return None;
    }
    let end = position + count;
    for i in position..end {
        if !is_usable(read, rule, i) {
            return None;
        }
    }
    let word = pack(&bases[position..end], k)?;
    let counted = if rule.both() {
        canonical(word, k)
    } else {
        word
    };
    Some(counted)
}

// whether the base is one of ACGTacgt and its quality, if it has one, is at least the floor
fn is_usable(read: &SeqRead, rule: &Rule, i: usize) -> bool
    requires { i < length read.now.bases }
    ensures { result ≡ is_usable rule.now read.now i }
{
    let known = code_of(read.bases()[i]) != NO_BASE;
    match read.quals() {
        None => known,
        Some(quals) => known && quals[i] >= rule.floor(),
    }
}
