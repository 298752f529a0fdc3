//! Setups, reads, batches, cuts and empty stripes that the tests begin with.
ghost use Rattle.std.specs.Prelude.{◌≡◌, IfOk};
ghost use Rattle.kc_booking.specs.Setup.{key_bits};

use kc_fastx::SeqRead;
use kc_hash::{Hash, Matrix};
use kc_stripe::{Cut, Setup, Stripe, cut_up};
use kc_table::{Counts, PlainCounts};
use kc_word::{Batch, K, Piece, Rule, Word, clean, cut};
use std::alloc::{AllocError, Global};
use std::sync::Arc;
use std::test::Fail;

// Words of k bases, on both strands or on one, in so many stripes, with a hash that leaves them unchanged.
pub(crate) fn setup_with(k: u32, both: bool, stripes: u32) -> Option<Setup> {
    let k = K::new(k)?;
    let hash = Hash::of_matrix(Matrix::identity(2 * k.get())).ok()?;
    Setup::new(Rule::new(k, both, b'!'), hash, stripes)
}

// A setup for words on one strand.
pub(crate) fn setup_of(k: u32, stripes: u32) -> Option<Setup> {
    setup_with(k, false, stripes)
}

// A setup for words on one strand, or a failed test if there is none.
pub(crate) fn made_setup(k: u32, stripes: u32) -> Result<Setup, Fail> {
    match setup_of(k, stripes) {
        Some(setup) => Ok(setup),
        None => Err(Fail::from("no setup")),
    }
}

// How often a stripe of words of three bases counted one of these; none for another word.
pub(crate) fn count_in<C: Counts>(stripe: &Stripe<C>, word: u64) -> Option<u64> {
    if stripe.setup().rule().k().get() != 3 || word >= 64 {
        return None;
    }
    Some(stripe.count_of(Word(word)))
}

// The read of these bases.
pub(crate) fn read_of(alloc: Global, bases: &[u8]) -> Result<SeqRead, Fail>
    ensures { IfOk result (λ read. read.bases ≡ bases.now) }
{
    let bases = Vec::from_slice(alloc, bases)?;
    match SeqRead::new(bases, None) {
        Some(read) => Ok(read),
        None => Err(Fail::from("no read")),
    }
}

pub(crate) fn reads_of(alloc: Global, texts: &[&[u8]]) -> Result<Vec<SeqRead>, Fail> {
    let mut reads = Vec::new(alloc);
    for bases in texts {
        reads.push(read_of(alloc, *bases)?)?;
    }
    Ok(reads)
}

// The pieces of these reads.
fn pieces_of(alloc: Global, rule: &Rule, reads: &[SeqRead]) -> Result<Vec<Piece>, AllocError> {
    let mut pieces = Vec::new(alloc);
    for read in reads {
        pieces.push(clean(alloc, read, rule)?)?;
    }
    Ok(pieces)
}

// The reads as batches of so many positions.
pub(crate) fn batches_of(
    alloc: Global,
    setup: &Setup,
    reads: &[SeqRead],
    size: u64,
) -> Result<Vec<Arc<Batch>>, AllocError> {
    let pieces = pieces_of(alloc, setup.rule(), reads)?;
    cut(alloc, pieces, setup.rule().k(), size.max(1))
}

// The reads of these bases as batches of so many positions.
pub(crate) fn batches_in(
    alloc: Global,
    setup: &Setup,
    texts: &[&[u8]],
    size: u64,
) -> Result<Vec<Arc<Batch>>, Fail> {
    let reads = reads_of(alloc, texts)?;
    Ok(batches_of(alloc, setup, &reads, size)?)
}

// The cut of a batch in a stripe.
pub(crate) fn cut_of(
    alloc: Global,
    setup: &Setup,
    batch: &Arc<Batch>,
    stripe: usize,
) -> Result<Cut, Fail> {
    let mut cuts = cut_up(alloc, setup, batch)?;
    if stripe >= cuts.len() {
        return Err(Fail::from("no such stripe"));
    }
    Ok(cuts.swap_remove(stripe))
}

// The cuts of the one batch of this text.
pub(crate) fn cuts_in(alloc: Global, setup: &Setup, text: &[u8]) -> Result<Vec<Cut>, Fail> {
    let batches = batches_in(alloc, setup, &[text], 8)?;
    match batches.first() {
        Some(batch) => Ok(cut_up(alloc, setup, batch)?),
        None => Err(Fail::from("no batch")),
    }
}

// The cuts of the reads in stripe 0, in batches of so many positions.
pub(crate) fn cuts_of(
    alloc: Global,
    setup: &Setup,
    texts: &[&[u8]],
    size: u64,
) -> Result<Vec<Cut>, Fail> {
    let batches = batches_in(alloc, setup, texts, size)?;
    cuts_of_batches(alloc, setup, &batches)
}

// The cuts of the reads in stripe 0 of so many, of words of three bases.
pub(crate) fn cuts_of_three(
    alloc: Global,
    stripes: u32,
    texts: &[&[u8]],
    size: u64,
) -> Result<Vec<Cut>, Fail> {
    let setup = made_setup(3, stripes)?;
    cuts_of(alloc, &setup, texts, size)
}

// The cuts of the batches in stripe 0.
fn cuts_of_batches(alloc: Global, setup: &Setup, batches: &[Arc<Batch>]) -> Result<Vec<Cut>, Fail> {
    let mut cuts = Vec::new(alloc);
    for batch in batches {
        cuts.push(cut_of(alloc, setup, batch, 0)?)?;
    }
    Ok(cuts)
}

// Books the cut at this index in the stripe.
pub(crate) fn book_at<C: Counts>(
    stripe: &mut Stripe<C>,
    cuts: &[Cut],
    index: usize,
) -> Result<(), Fail> {
    match cuts.get(index) {
        Some(cut) => Ok(stripe.book(cut)?),
        None => Err(Fail::from("no cut")),
    }
}

// An empty stripe over a `BTreeMap`, in a box: a box is let go with no proof of the parts of the stripe.
pub(crate) fn plain_stripe(
    alloc: Global,
    setup: &Setup,
    number: u32,
) -> Result<Box<Stripe<PlainCounts>>, Fail> {
    if number >= setup.stripes() {
        return Err(Fail::from("no such stripe"));
    }
    let table = PlainCounts::new(alloc, setup.key_bits());
    Ok(Box::new(alloc, Stripe::new(alloc, setup, number, table)?)?)
}

// All stripes of the setup, empty, over a `BTreeMap` each.
pub(crate) fn plain_stripes(
    alloc: Global,
    setup: &Setup,
) -> Result<Vec<Stripe<PlainCounts>>, AllocError> {
    let mut stripes = Vec::new(alloc);
    for number in 0..setup.stripes() {
        let table = PlainCounts::new(alloc, setup.key_bits());
        stripes.push(Stripe::new(alloc, setup, number, table)?)?;
    }
    Ok(stripes)
}

// Books the batch in all stripes of the setup.
pub(crate) fn book_batch<C: Counts>(
    alloc: Global,
    setup: &Setup,
    stripes: &mut [Stripe<C>],
    batch: &Arc<Batch>,
) -> Result<(), Fail> {
    let cuts = cut_up(alloc, setup, batch)?;
    for stripe in stripes.iter_mut() {
        let number = stripe.number() as usize;
        book_at(stripe, &cuts, number)?;
    }
    Ok(())
}
