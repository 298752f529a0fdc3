//! Worked rows of a setup and of cuts.
use crate::sample_batches::{cuts_in, made_setup};
use crate::stripe_assertions::{assert_items, assert_same};
use kc_stripe::{Cut, Setup};
use kc_word::Word;
use std::process::Abort;
use std::test::Fail;

#[test]
fn places_of_words(rt: HostRuntime) -> Result<(), Fail> {
    let setup = made_setup(3, 4)?;
    if setup.key_bits() != 4 || setup.stripes() != 4 || setup.rule().k().get() != 3 {
        return Err(Fail::from("another setup"));
    }
    assert_same(&rt, "bits", &setup.hash().bits(), &6);
    assert_same(&rt, "a stripe", &setup.stripe_of(Word(27)), &3);
    assert_same(&rt, "a key", &setup.key_of(Word(27)), &6);
    assert_same(&rt, "a word", &setup.word_of(3, 6).0, &27);
    Ok(())
}

// The keys of each stripe in ACGT.
const KEYS: &[&[u64]] = &[&[], &[], &[1], &[6]];

fn assert_cut(rt: &impl Abort, setup: &Setup, cut: &Cut, stripe: usize, keys: &[u64]) {
    assert_items(rt, "keys", cut.keys(), keys);
    assert_same(rt, "a stripe", &(cut.stripe() as usize), &stripe);
    assert_same(rt, "a batch", &cut.batch().number(), &0);
    assert!(rt; *cut.setup() == *setup);
}

#[test]
fn cuts_of_a_batch(rt: HostRuntime) -> Result<(), Fail> {
    let setup = made_setup(3, 4)?;
    let cuts = cuts_in(rt.alloc(), &setup, b"ACGT")?;
    assert!(rt; cuts.len() == KEYS.len());
    for stripe in 0..KEYS.len() {
        assert_cut(&rt, &setup, &cuts[stripe], stripe, KEYS[stripe]);
    }
    Ok(())
}
