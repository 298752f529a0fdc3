//! The examples at the front of kc_io, kc_fastx, kc_kmer and kc_word.
use crate::sample_reads::{k_of, reads_of};
use kc_fastx::{Reads, read_all};
use kc_io::{Block, FromBytes, ToVec, write_out};
use kc_word::{Rule, Word, canonical, clean, cut, pack, words};
use std::test::Fail;

#[test]
fn a_block_is_written(rt: HostRuntime) -> Result<(), Fail> {
    let alloc = rt.alloc();
    let mut sink = ToVec::new(Vec::new(alloc));
    let mut block = Block::new();
    block.push(b"ACG ");
    block.push_number(2);
    write_out(&mut sink, block.as_slice())?;
    assert_eq!(rt; sink.as_slice(), b"ACG 2".as_slice());
    Ok(())
}

#[test]
fn reads_are_taken_all_at_once_or_one_by_one(rt: HostRuntime) -> Result<(), Fail> {
    let alloc = rt.alloc();
    let mut source = FromBytes::new(b"@q\nACGT\n+\nII!I\n");
    let (reads, byte_count) = read_all(alloc, &mut source, 1 << 36)?;
    for read in &reads {
        assert_eq!(rt; read.bases(), b"ACGT".as_slice());
    }
    assert_eq!(rt; byte_count, 15);
    let mut reads = Reads::new(alloc, FromBytes::new(b">r\nGT\nA\n"), 1 << 36)?;
    let first = reads.next_read()?.ok_or("a read")?;
    assert_eq!(rt; first.bases(), b"GTA".as_slice());
    Ok(())
}

#[test]
fn a_word_counts_under_its_canonical_form(rt: HostRuntime) -> Result<(), Fail> {
    let k = k_of(3)?;
    let Some(word) = pack(b"cgt", k) else {
        return Err(Fail::from("no word"));
    };
    assert_eq!(rt; word, Word(27));
    assert_eq!(rt; canonical(word, k), Word(6));
    Ok(())
}

#[test]
fn reads_are_cleaned_and_cut(rt: HostRuntime) -> Result<(), Fail> {
    let alloc = rt.alloc();
    let k = k_of(3)?;
    let reads = reads_of(alloc, b">r\nACGTA\n")?;
    let rule = Rule::new(k, true, b'!');
    let mut pieces = Vec::new(alloc);
    for read in &reads {
        pieces.push(clean(alloc, read, &rule)?)?;
    }
    for batch in &cut(alloc, pieces, k, 65_536)? {
        let words = words(alloc, batch, &rule)?;
        assert_eq!(rt; words.as_slice(), [6, 6, 44].as_slice());
    }
    Ok(())
}
