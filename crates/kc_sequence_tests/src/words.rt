//! Worked rows of words, and of reads as pieces and as words.
use crate::assertions::{assert_items, assert_same};
use crate::sample_reads::{k_of, reads_of, rule_of};
use kc_fastx::SeqRead;
use kc_word::{Piece, Rule, clean, pack, read_words, reverse_complement, slow_count, text};
use std::process::Abort;
use std::test::Fail;

#[test]
fn a_word_has_a_text_and_another_strand(rt: HostRuntime) -> Result<(), Fail> {
    let k = k_of(3)?;
    let Some(word) = pack(b"gTA", k) else {
        return Err(Fail::from("no word"));
    };
    let mut letters = [b'-'; 31];
    text(word, k, &mut letters);
    let want = b"GTA----------------------------";
    assert_items(&rt, "text", letters.as_slice(), want);
    assert_same(&rt, "other strand", &reverse_complement(word, k).0, &49);
    Ok(())
}

// The bytes of a read, the length of words, whether both strands count, the letters of the read's piece, and its words.
type Row = (&'static [u8], u32, bool, &'static [u8], &'static [u64]);

const READS: &[Row] = &[
    (b">r\nACGTA\n", 3, false, b"ACGTA", &[6, 27, 44]),
    (b">r\nACGTA\n", 3, true, b"ACGTA", &[6, 6, 44]),
    (b">r\nacngtR-\n", 2, false, b"ACNGTNN", &[1, 11]),
    (b">r\nACNGT\n", 3, false, b"ACNGT", &[]),
    (b"@q\nACGT\n+\nII!I\n", 2, false, b"ACNT", &[1]),
    (b"@q\nACGT\n+\nI#\"~\n", 2, false, b"ACNT", &[1]),
    (b">r\n\n", 5, false, b"", &[]),
    (
        b">r\nTTTTTTTTTTTTTTTTTTTTTTTTTTTTTTTN\n",
        31,
        true,
        b"TTTTTTTTTTTTTTTTTTTTTTTTTTTTTTTN",
        &[0],
    ),
    (
        b">r\nTTTTTTTTTTTTTTTTTTTTTTTTTTTTTTTNT\n",
        31,
        false,
        b"TTTTTTTTTTTTTTTTTTTTTTTTTTTTTTTNT",
        &[4_611_686_018_427_387_903],
    ),
];

// Asserts that a piece has these letters.
fn assert_piece<H: Abort>(rt: &H, piece: &Piece, want: &[u8]) {
    assert_same(rt, "length", &piece.len(), &(want.len() as u64));
    for (i, byte) in want.iter().enumerate() {
        assert!(rt; (i as u64) < piece.len());
        assert_same(rt, i, &piece.base(i as u64), byte);
    }
    assert_same(rt, "emptiness", &piece.is_empty(), &want.is_empty());
}

// Asserts what a read is under a rule.
fn assert_read<H: AllocGlobal + Abort>(
    rt: &H,
    read: &SeqRead,
    rule: &Rule,
    row: &Row,
) -> Result<(), Fail> {
    let (_, _, _, letters, words) = row;
    assert_piece(rt, &clean(rt.alloc(), read, rule)?, *letters);
    let found = read_words(rt.alloc(), read, rule)?;
    assert_items(rt, "words", found.as_slice(), *words);
    Ok(())
}

#[test]
fn reads_as_pieces_and_as_words(rt: HostRuntime) -> Result<(), Fail> {
    for row in READS {
        let rule = rule_of(row.1, row.2)?;
        for read in &reads_of(rt.alloc(), row.0)? {
            assert_read(&rt, read, &rule, row)?;
        }
    }
    Ok(())
}

#[test]
fn occurrences_are_counted_slowly(rt: HostRuntime) -> Result<(), Fail> {
    let rule = rule_of(3, true)?;
    let Some(word) = pack(b"acg", rule.k()) else {
        return Err(Fail::from("no word"));
    };
    let reads = reads_of(rt.alloc(), b">r\nACGTA\n>s\nACNGT\n>t\nacg\n")?;
    match slow_count::base_count(&reads) {
        Some(_) => {
            let count = slow_count::occurrences(&reads, &rule, word);
            assert_same(&rt, "ACG", &count, &3);
        }
        None => assert!(rt; false),
    }
    Ok(())
}
