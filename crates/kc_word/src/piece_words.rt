//! The words of pieces, one after another, rolled along their bytes.
ghost use Rattle.std.specs.Prelude.{◌≡◌, ◌^◌, ◌<◌, ◌≤◌, ◌++◌, ◌+◌, ◌∷◌, [], None, length};
ghost use Rattle.std.specs.Prelude.{max, slice_index, slice_range};
ghost use Rattle.std.specs.Prelude.{IfSome, IfNone, IfOk, OnOk, All};
ghost use Rattle.std.specs.Vec.{vec_capacity};
ghost use Rattle.kc_fastx.specs.Reads.{read_of};
ghost use Rattle.kc_kmer.specs.Occurrences.{position_count, words_in, words_of};
ghost use Rattle.kc_word.specs.Cutting.{as_reads, position_total};
ghost use Rattle.kc_word.specs.Walking.{code_of, words_left};

use crate::batch::Batch;
use crate::packed_codes::{BASES, Packed};
use crate::piece::Piece;
use crate::rolled::Rolled;
use crate::runs::Run;
use crate::usable_codes::clean;
use kc_fastx::SeqRead;
use kc_kmer::letter::NO_BASE;
use kc_kmer::{K, Rule};
use std::alloc::{AllocError, Global};
use std::marker::Model;

/// The words of a read as numbers, in the forms under which they count, in the order of their positions.
pub fn read_words(alloc: Global, read: &SeqRead, rule: &Rule) -> Result<Vec<u64>, AllocError>
    ensures words { IfOk result (λ words. words.items ≡ words_in rule.now read.now) }
    ensures below { IfOk result (λ words. All (λ word. word < 4 ^ rule.now.k) words.items) }
    ensures short { IfOk result (λ words. length words.items ≤ length read.now.bases) }
{
    let piece = clean(alloc, read, rule)?;
    let count = piece.len() as usize;
    let mut words = room_for_piece(alloc, &piece, rule.k())?;
    push_words(Roll::new(&piece, 0, count, *rule), &mut words)?;
    Ok(words)
}

/// The words at the positions of the batch, without those that have an N, as numbers, in the forms under which they
/// count, in order.
pub fn words(alloc: Global, batch: &Batch, rule: &Rule) -> Result<Vec<u64>, AllocError>
    ensures words { IfOk result (λ words. words.items ≡ words_of rule.now (as_reads batch.now.pieces)) }
    ensures below { IfOk result (λ words. All (λ word. word < 4 ^ rule.now.k) words.items) }
    ensures short { IfOk result (λ words. length words.items ≤ position_total rule.now.k batch.now.pieces) }
{
    let mut words = Vec::new(alloc);
    put_words(batch, rule, &mut words)?;
    Ok(words)
}

/// Replaces the numbers by what `words` returns. Their capacity is used again.
pub fn put_words(batch: &Batch, rule: &Rule, words: &mut Vec<u64>) -> Result<(), AllocError>
    ensures words { OnOk result (words.new.items ≡ words_of rule.now (as_reads batch.now.pieces)) }
    ensures below { OnOk result (All (λ word. word < 4 ^ rule.now.k) words.new.items) }
    ensures short { OnOk result (length words.new.items ≤ position_total rule.now.k batch.now.pieces) }
{
    let pieces = &batch.pieces;
    clear_for_words(words, batch, rule.k())?;
    let mut start = 0;
    for end in &pieces.ends {
        push_words(Roll::new(&pieces.bytes, start, *end, *rule), words)?;
        start = *end;
    }
    Ok(())
}

// No words yet, with room for as many as the piece has positions.
fn room_for_piece(alloc: Global, piece: &Piece, k: K) -> Result<Vec<u64>, AllocError>
    ensures empty { IfOk result (λ room. room.items ≡ []) }
    ensures bounded { IfOk result (λ room. vec_capacity room ≤ position_count k (length piece.now)) }
{
    Vec::with_capacity(alloc, k.positions(piece.len() as usize))
}

// No words, with room for as many as the batch has positions, and no more unless there was more before.
fn clear_for_words(words: &mut Vec<u64>, batch: &Batch, k: K) -> Result<(), AllocError>
    ensures empty { words.new.items ≡ [] }
    ensures bounded { vec_capacity words.new ≤ max (vec_capacity words.old) (position_total k batch.now.pieces) }
{
    words.clear();
    words.reserve_exact(batch.position_count(k))
}

// Appends the words that are left.
fn push_words(roll: Roll<'_>, words: &mut Vec<u64>) -> Result<(), AllocError>
    ensures { OnOk result (words.new.items ≡ words.old.items ++ words_left roll.entry) }
{
    let mut roll = roll;
    while roll.codes.at < roll.codes.to {
        if let Some(word) = roll.step() {
            words.push(word)?;
        }
        roll = roll.push_stretch(words)?;
    }
    Ok(())
}

// A place in a piece, or in a part of one. Its view is the bytes and how many of them were taken.
#[derive(Drop)]
struct Codes<'a> {
    bases: &'a Packed,
    runs: &'a [Run],
    // The number of the first run that ends at `at` or after it.
    next: usize,
    from: usize,
    at: usize,
    to: usize,
}

impl<'a> Model for Codes<'a> {
    ghost use Rattle.std.specs.Prelude.{◌-◌, slice_range};
    ghost use Rattle.kc_word.specs.PackedPiece.{Reading, bytes_of, IsReading};

    ghost Value = { Reading };

    ghost view = { λ c. record {
      bytes = slice_range (bytes_of c.bases.now c.runs.now) c.from c.to;
      taken = c.at - c.from;
    } };

    ghost invariant = { λ c. IsReading c.bases.now c.runs.now c.next c.from c.at c.to };
}

impl<'a> Codes<'a> {
    // Takes the next byte, and returns its code, or `NO_BASE`. Condition: not all bytes were taken.
    #[inline(always)]
    fn next_code(&mut self) -> u64
        requires { self.old.taken < length self.old.bytes }
        ensures taken { self.new ≡ record { bytes = self.old.bytes; taken = self.old.taken + 1 } }
        ensures code { result ≡ code_of (slice_index self.old.bytes self.old.taken) }
    {
        let bases = self.bases;
        let at = self.at;
        let mut code = (bases.numbers[at / BASES] >> (62 - 2 * (at % BASES))) & 3;
        self.at += 1;
        // the next run has this byte, or ends before it
        if self.next < self.runs.len() && self.runs[self.next].start <= at {
            let run = self.runs[self.next];
            if at - run.start < run.length {
                code = NO_BASE as u64;
            } else {
                self.next += 1;
            }
        }
        code
    }
}

/// A place in a piece whose words are taken.
#[derive(Drop)]
pub(crate) struct Roll<'a> {
    codes: Codes<'a>,
    rolled: Rolled,
}

impl<'a> Model for Roll<'a> {
    ghost use Rattle.kc_word.specs.Walking.{Walking, IsWalking};

    ghost Value = { Walking };

    ghost view = { λ r. record { rule = r.rolled.rule; bytes = r.codes.bytes; taken = r.codes.taken } };

    ghost invariant = { λ r. IsWalking (record { rule = r.rolled.rule; bytes = r.codes.bytes; taken = r.codes.taken })
        r.rolled };
}

impl<'a> Roll<'a> {
    /// At the front of the bytes of the piece from index `from` to before `to`. Conditions: these are in order, and at
    /// most the piece's length.
    #[inline(always)]
    pub(crate) fn new(piece: &'a Piece, from: usize, to: usize, rule: Rule) -> Roll<'a>
        requires ordered { from ≤ to }
        requires within { to ≤ length piece.now }
        ensures place { result ≡ record { rule = rule; bytes = slice_range piece.now from to; taken = 0 } }
        ensures words { words_left result ≡ words_in rule (read_of (slice_range piece.now from to) None) }
        ensures some { 1 ≤ rule.k }
    {
        let rolled = Rolled::new(rule);
        let _count = piece.len();
        let runs = piece.runs.as_slice();
        let codes = Codes {
            bases: &piece.bases,
            runs,
            next: runs.partition_point(|run| run.ends_by(from)),
            from,
            at: from,
            to,
        };
        Roll { codes, rolled }
    }

    /// The rule of the count: the length of its words, and whether both strands count.
    pub(crate) fn rule(&self) -> Rule
        ensures { result ≡ self.now.rule }
    {
        self.rolled.rule
    }

    /// Takes the next byte, and returns the word that ends with it, if there is one. Condition: not all bytes were
    /// taken.
    #[inline(always)]
    pub(crate) fn step(&mut self) -> Option<u64>
        requires { self.old.taken < length self.old.bytes }
        ensures taken { self.new ≡ record { rule = self.old.rule; bytes = self.old.bytes; taken = self.old.taken + 1 } }
        ensures word { IfSome result (λ word. words_left self.old ≡ word ∷ words_left self.new) }
        ensures none { IfNone result (words_left self.new ≡ words_left self.old) }
    {
        let code = self.codes.next_code();
        self.rolled.push(code)
    }

    // Takes the next bases, at most 32 and up to an N, and appends the words that end with them.
    #[inline(always)]
    fn push_stretch(self, words: &mut Vec<u64>) -> Result<Roll<'a>, AllocError>
        ensures rule { IfOk result (λ next. next.rule ≡ self.entry.rule) }
        ensures bytes { IfOk result (λ next. next.bytes ≡ self.entry.bytes) }
        ensures taken { IfOk result (λ next. self.entry.taken ≤ next.taken) }
        ensures words { IfOk result (λ next.
            words.new.items ++ words_left next ≡ words.old.items ++ words_left self.entry) }
    {
        let mut rolled = self.rolled;
        let mut codes = self.codes;
        let at = codes.at;
        let mut count = (codes.to - at).min(BASES);
        // none if all are taken, or the next run has begun
        if codes.next < codes.runs.len() {
            count = count.min(codes.runs[codes.next].start.saturating_sub(at));
        }
        let number = if count > 0 { codes.bases.window(at) } else { 0 };
        codes.at = at + count;
        for i in 0..count {
            if let Some(word) = rolled.push((number >> (62 - 2 * i)) & 3) {
                words.push(word)?;
            }
        }
        Ok(Roll { codes, rolled })
    }

    /// Takes bytes up to the end of the next word, or all that are left if no word ends in them.
    #[inline(always)]
    pub(crate) fn next_word(&mut self) -> Option<u64>
        ensures rule { self.new.rule ≡ self.old.rule }
        ensures word { IfSome result (λ word. words_left self.old ≡ word ∷ words_left self.new) }
        ensures none { IfNone result ((words_left self.old ≡ []) × (words_left self.new ≡ [])) }
    {
        while self.codes.at < self.codes.to {
            if let Some(word) = self.step() {
                return Some(word);
            }
        }
        None
    }
}
