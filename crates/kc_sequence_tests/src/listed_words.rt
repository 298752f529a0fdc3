//! Worked rows of lists of words.
use crate::assertions::assert_same;
use crate::sample_reads::{reads_of, rule_of};
use kc_word::{Only, pack};
use std::alloc::{AllocError, Global};
use std::process::Abort;
use std::test::Fail;

// The list of the words of these reads.
fn list_of(alloc: Global, reads: &[u8], k: u32, both: bool) -> Result<Only, Fail> {
    let reads = reads_of(alloc, reads)?;
    Ok(Only::of(alloc, &reads, &rule_of(k, both)?)?)
}

// The list of the words of a list, which is the same.
fn list_of_words(alloc: Global, only: &Only) -> Result<Only, AllocError> {
    let words = Vec::from_slice(alloc, only.words())?;
    Only::of_words(alloc, only.k(), only.both(), words)
}

// Reads, whether both strands count, a word of three bases, and whether the list of the reads has it.
const HELD: &[(&[u8], bool, &[u8], bool)] = &[
    (b">w\nCGT\n", false, b"CGT", true),
    (b">w\nCGT\n", false, b"ACG", false),
    (b">w\nCGT\n", true, b"ACG", true),
    (b">w\nCGT\n", true, b"CGT", false),
    (b">w\nTTT\n>x\ncgtaa\n>y\nGGG\n", false, b"TAA", true),
    (b">w\nTTT\n>x\ncgtaa\n>y\nGGG\n", false, b"AAG", false),
    (b">w\nCGNTA\n>x\nCG\n", false, b"CGT", false),
    (b"@w\nACGT\n+\nI!II\n", false, b"CGT", false),
    (b"", false, b"AAA", false),
];

#[test]
fn words_of_lists(rt: HostRuntime) -> Result<(), Fail> {
    for (reads, both, word, want) in HELD {
        let only = list_of(rt.alloc(), *reads, 3, *both)?;
        assert_held(&rt, &only, *word, *want)?;
        let again = list_of_words(rt.alloc(), &only)?;
        assert_held(&rt, &again, *word, *want)?;
        assert_same(&rt, "lists", &(only == again), &true);
    }
    Ok(())
}

// Asserts whether a list has a word, and keeps it.
fn assert_held<H: AllocGlobal + Abort>(
    rt: &H,
    only: &Only,
    word: &[u8],
    want: bool,
) -> Result<(), Fail> {
    let Some(word) = pack(word, only.k()) else {
        return Err(Fail::from("no word"));
    };
    assert_same(rt, word.0, &only.holds(word), &want);
    let mut words = Vec::new(rt.alloc());
    words.push(word.0)?;
    only.keep_listed(&mut words);
    assert_same(rt, word.0, &words.is_empty(), &!want);
    Ok(())
}
