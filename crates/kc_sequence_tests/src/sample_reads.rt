//! Rules, reads and batches that the tests of words, of batches and of lists are made of.
use kc_fastx::{SeqRead, parse};
use kc_word::{Batch, K, Piece, Rule, clean, words};
use std::alloc::{AllocError, Global};
use std::sync::Arc;
use std::test::Fail;

/// The length of a word.
pub fn k_of(k: u32) -> Result<K, Fail> {
    match K::new(k) {
        Some(k) => Ok(k),
        None => Err(Fail::from("no length of a word")),
    }
}

/// A rule for which a quality is at least `#`.
pub fn rule_of(k: u32, both: bool) -> Result<Rule, Fail> {
    Ok(Rule::new(k_of(k)?, both, b'#'))
}

/// The reads of these bytes.
pub fn reads_of(alloc: Global, bytes: &[u8]) -> Result<Vec<SeqRead>, Fail> {
    match parse(alloc, bytes) {
        Ok(reads) => Ok(reads),
        Err(_) => Err(Fail::from("no reads")),
    }
}

/// The pieces of these reads.
pub fn clean_all(alloc: Global, reads: &[SeqRead], rule: &Rule) -> Result<Vec<Piece>, AllocError> {
    let mut pieces = Vec::new(alloc);
    for read in reads {
        pieces.push(clean(alloc, read, rule)?)?;
    }
    Ok(pieces)
}

/// The words of all batches.
pub fn words_of_all(
    alloc: Global,
    batches: &[Arc<Batch>],
    rule: &Rule,
) -> Result<Vec<u64>, AllocError> {
    let mut found = Vec::new(alloc);
    for batch in batches {
        found.extend_from_slice(words(alloc, batch, rule)?.as_slice())?;
    }
    Ok(found)
}
