//! The cutting of pieces into batches, and the words of these.
use crate::assertions::{assert_items, assert_same};
use crate::sample_reads::{clean_all, k_of, reads_of, rule_of, words_of_all};
use kc_fastx::SeqRead;
use kc_word::{Batch, Cutting, K, Piece, Rule, clean, cut, words};
use std::alloc::{AllocError, Global};
use std::process::Abort;
use std::sync::Arc;
use std::test::Fail;

// The pieces of the reads of these bytes.
fn pieces_of(alloc: Global, bytes: &[u8], rule: &Rule) -> Result<Vec<Piece>, Fail> {
    let reads = reads_of(alloc, bytes)?;
    Ok(clean_all(alloc, &reads, rule)?)
}

// How many batches there are of one position each, of two, and so on, of ten bases A and words of three.
const BATCH_COUNTS: &[usize] = &[8, 4, 3, 2, 2, 2, 2, 1, 1, 1, 1];

#[test]
fn batches_of_each_size(rt: HostRuntime) -> Result<(), Fail> {
    let rule = rule_of(3, false)?;
    for (i, want) in BATCH_COUNTS.iter().enumerate() {
        let pieces = pieces_of(rt.alloc(), b">r\nAAAAAAAAAA\n", &rule)?;
        let batches = cut(rt.alloc(), pieces, rule.k(), i as u64 + 1)?;
        assert_same(&rt, i, &batches.len(), want);
        let found = words_of_all(rt.alloc(), &batches, &rule)?;
        assert_items(&rt, i, found.as_slice(), &[0, 0, 0, 0, 0, 0, 0, 0]);
    }
    Ok(())
}

// Three reads, whose batches of two positions for words of three are ACGT, GTA and NGT, and GTN.
const READS: &[u8] = b">a\nACGTA\n>b\nAC\n>c\nNGTN\n";

// The batches of these reads, cut as they come.
fn cut_as_they_come(
    alloc: Global,
    pieces: &[Piece],
    k: K,
    size: u64,
) -> Result<Vec<Arc<Batch>>, AllocError> {
    let mut cutting = Cutting::new(alloc, k, size.max(1));
    for piece in pieces {
        cutting.push(alloc, piece)?;
    }
    cutting.finish(alloc)
}

#[test]
fn pieces_are_cut_as_they_come(rt: HostRuntime) -> Result<(), Fail> {
    let rule = rule_of(3, true)?;
    let pieces = pieces_of(rt.alloc(), READS, &rule)?;
    let batches = cut_as_they_come(rt.alloc(), &pieces, rule.k(), 2)?;
    assert!(rt; batches.len() == 3);
    let found = words_of_all(rt.alloc(), &batches, &rule)?;
    assert_items(&rt, "words", found.as_slice(), &[6, 6, 44]);
    let others = cut(rt.alloc(), pieces, rule.k(), 2)?;
    assert!(rt; others.len() == 3);
    assert_same(&rt, "equal", &(batches[1] == others[1]), &true);
    assert_batch(&rt, &batches[1])
}

// Asserts what the second batch of the three reads has.
fn assert_batch<H: AllocGlobal + Abort>(rt: &H, batch: &Batch) -> Result<(), Fail> {
    assert_same(rt, "number", &batch.number(), &1);
    assert_same(rt, "positions", &batch.position_count(k_of(3)?), &2);
    let rule = rule_of(2, false)?;
    let found = words(rt.alloc(), batch, &rule)?;
    assert_items(rt, "words", found.as_slice(), &[11, 12, 11]);
    let walked = walked_words(rt.alloc(), batch, &rule)?;
    assert_items(rt, "one by one", walked.as_slice(), &[11, 12, 11]);
    assert_first_piece(rt, batch);
    Ok(())
}

// Asserts that its first piece is GTA.
fn assert_first_piece<H: Abort>(rt: &H, batch: &Batch) {
    let mut pieces = batch.pieces();
    match pieces.next() {
        Some(piece) => {
            assert!(rt; piece.len() == 3);
            let letters = [piece.base(0), piece.base(1), piece.base(2)];
            assert_same(rt, "letters", &letters, b"GTA");
        }
        None => assert!(rt; false),
    }
}

// The words of a batch, taken one by one.
fn walked_words(alloc: Global, batch: &Batch, rule: &Rule) -> Result<Vec<u64>, AllocError> {
    let mut found = Vec::new(alloc);
    for word in batch.walk(rule) {
        found.push(word)?;
    }
    Ok(found)
}

// Run with each allocation refused in turn: `rt try --test --fail-alloc N`.
#[test]
fn memory_or_the_words(rt: HostRuntime) {
    match words_of_batches(rt.alloc()) {
        Ok(found) => assert_items(&rt, "words", found.as_slice(), &[6, 27, 44]),
        Err(AllocError) => {}
    }
}

// The words of the read ACGTANA, cleaned, cut and counted.
fn words_of_batches(alloc: Global) -> Result<Vec<u64>, AllocError> {
    let bases = b"ACGTANA".to_vec(alloc)?;
    match (K::new(3), SeqRead::new(bases, None)) {
        (Some(k), Some(read)) => words_of_read(alloc, &read, &Rule::new(k, false, b'!')),
        _ => Ok(Vec::new(alloc)),
    }
}

fn words_of_read(alloc: Global, read: &SeqRead, rule: &Rule) -> Result<Vec<u64>, AllocError> {
    let mut pieces = Vec::new(alloc);
    pieces.push(clean(alloc, read, rule)?)?;
    let batches = cut(alloc, pieces, rule.k(), 2)?;
    words_of_all(alloc, &batches, rule)
}
