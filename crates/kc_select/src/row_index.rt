//! An index of a table's rows: with it, the count of a word is found among few of them.
ghost use Rattle.std.specs.Prelude.{◌≡◌, ◌+◌, ◌/◌, ◌<◌, ◌≤◌, All, IfOk, IfSome, length, map};
ghost use Rattle.std.specs.List.Sorted.{IsStrictlyIncreasing};
ghost use Rattle.std.specs.Vec.{vec_capacity};
ghost use Rattle.kc_tally.specs.Tally.{count_of};
ghost use Rattle.kc_select.specs.LastRows.{AreLast};

use kc_kmer::K;
use kc_tally::{Rows, Tally};
use std::alloc::{AllocError, Global};
use std::array::from_fn;
use std::marker::Model;

/// How many words are looked up at a time.
pub(crate) const BLOCK: usize = 32;

// A walk over the rows is kept for each multiple of this many places.
const STRIDE: usize = 1024;

// There is a start for this many rows, or for up to twice as many.
const ROWS_A_START: usize = 8;

// The distances between a place and the row that is looked at next.
const LEAPS: [usize; 2] = [8, 4];

// This many rows are compared with a word before it is searched in all rows by halving.
const MAX_STEPS: usize = 64;

/// Where the words of each prefix begin among the rows of a table; its view is the table. A prefix is so many high bits
/// of a word that 8 to 16 rows have the same one, if the words are spread evenly.
///
/// A row's place is its number, if the parts of the table have a multiple of 1,024 rows. A start takes 4 bytes and a
/// walk 64, so the index takes at most a tenth of the memory of the packed rows. No result relies on a place alone: the
/// rows from there on confirm it, or all of them are searched.
#[derive(Drop)]
pub(crate) struct RowIndex<'a> {
    tally: &'a Tally,
    // how many low bits of a word are outside its prefix
    shift: u32,
    // for each prefix the place of the last row with a lesser one
    starts: Vec<u32>,
    // the rows from each `STRIDE`th place on
    walks: Vec<Rows<'a>>,
}

impl<'a> Model for RowIndex<'a> {
    ghost use Rattle.std.specs.Prelude.{◌<◌, All};
    ghost use Rattle.kc_tally.specs.Tally.{TallySeen};
    ghost use Rattle.kc_select.specs.LastRows.{AreLast};

    ghost Value = { TallySeen };

    ghost view = { λ s. s.tally.now };

    ghost invariant = { λ s. (s.shift < 64) × All (λ rows. AreLast s.tally.now.rows rows) s.walks.items };
}

impl<'a> RowIndex<'a> {
    /// The index of the rows of this table.
    pub(crate) fn of(alloc: Global, tally: &'a Tally) -> Result<RowIndex<'a>, AllocError>
        ensures { IfOk result (λ index. index ≡ tally.now) }
    {
        let shift = shift_for(tally.row_count() as usize, tally.k());
        let walks = walks_of(alloc, tally)?;
        let starts = starts_of(alloc, tally, shift)?;
        Ok(RowIndex {
            tally,
            shift,
            starts,
            walks,
        })
    }

    /// An index without places, which takes no memory: each word is searched in all rows.
    pub(crate) fn without_places(alloc: Global, tally: &'a Tally) -> RowIndex<'a>
        ensures { result ≡ tally.now }
    {
        RowIndex {
            tally,
            shift: 0,
            starts: Vec::new(alloc),
            walks: Vec::new(alloc),
        }
    }

    /// The table.
    pub(crate) fn tally(&self) -> &'a Tally
        ensures { result.now ≡ self.now }
    {
        self.tally
    }

    /// The count of a word, 0 if it has no row. The search begins at a place: at best a little before the word's.
    #[inline(always)]
    pub(crate) fn count_of(&self, word: u64, place: usize) -> u64
        ensures { result ≡ count_of self.now.rows word }
    {
        match self.count_near(word, place) {
            Some(count) => count,
            None => self.tally.count_of(word),
        }
    }

    // The count of the word, if a few rows from the place on determine it: a row has the word, or is the first with a
    // greater one, and not the first of these rows.
    #[inline(always)]
    fn count_near(&self, word: u64, place: usize) -> Option<u64>
        ensures { IfSome result (λ count. count ≡ count_of self.now.rows word) }
    {
        let mut rows = self.rows_from(place);
        let mut is_behind = false;
        for _ in 0..MAX_STEPS {
            let Some(row) = rows.next() else {
                return None;
            };
            if row.word == word {
                return Some(row.count);
            }
            if row.word > word {
                return if is_behind { Some(0) } else { None };
            }
            is_behind = true;
        }
        None
    }

    // The rows from the place on.
    #[inline(always)]
    fn rows_from(&self, place: usize) -> Rows<'a>
        ensures last { AreLast self.now.rows result }
        ensures rising { IsStrictlyIncreasing (map (λ row. row.word) self.now.rows) }
    {
        rows_behind(self.walk_to(place), place % STRIDE)
    }

    // The rows from the last kept walk on that is not after the place.
    #[inline(always)]
    fn walk_to(&self, place: usize) -> Rows<'a>
        ensures last { AreLast self.now.rows result }
        ensures rising { IsStrictlyIncreasing (map (λ row. row.word) self.now.rows) }
    {
        let all = self.tally.rows();
        let number = place / STRIDE;
        if number < self.walks.len() {
            return self.walks[number].second_walk();
        }
        all
    }

    /// For each of the words, a place from which to search it. No read of a start or of a row waits for another of its
    /// kind, so the memory serves several at once.
    pub(crate) fn places(&self, words: &[u64; BLOCK]) -> [usize; BLOCK] {
        let mut places = [0; BLOCK];
        for i in 0..BLOCK {
            places[i] = self.start(words[i]);
        }
        for leap in LEAPS {
            self.leap(words, &mut places, leap);
        }
        places
    }

    // The start of the word's prefix.
    #[inline(always)]
    fn start(&self, word: u64) -> usize {
        let prefix = (word >> self.shift) as usize;
        self.starts.get(prefix).copied().unwrap_or(0) as usize
    }

    // Moves each place on by a leap if the row there is less than the word, too. Each loop waits for memory once a word
    // and is short, so the memory serves several words at once. Whether a row is less can't be predicted, so how far a
    // place moves is computed.
    #[inline(always)]
    fn leap(&self, words: &[u64; BLOCK], places: &mut [usize; BLOCK], leap: usize) {
        let mut ahead: [Rows<'a>; BLOCK] = from_fn(|i| self.walk_to(places[i].saturating_add(
            leap,
        )));
        pass_to(&mut ahead, places, leap);
        for i in 0..BLOCK {
            let moves = is_less(&mut ahead[i], words[i]);
            places[i] = places[i].saturating_add(leap.saturating_mul(moves as usize));
        }
    }
}

// Skips the rows of each walk before the one that is a leap after its place.
#[inline(always)]
fn pass_to(walks: &mut [Rows<'_>; BLOCK], places: &[usize; BLOCK], leap: usize) {
    for i in 0..BLOCK {
        let ahead = places[i].saturating_add(leap) % STRIDE;
        walks[i] = rows_behind(walks[i].second_walk(), ahead);
    }
}

// Whether the first row has a lesser word.
#[inline(always)]
fn is_less(rows: &mut Rows<'_>, word: u64) -> bool {
    match rows.next() {
        Some(row) => row.word < word,
        None => false,
    }
}

// The rows after so many of these, or after fewer if there are fewer.
#[inline(always)]
fn rows_behind(mut rows: Rows<'_>, count: usize) -> Rows<'_>
    ensures { AreLast rows.entry result }
{
    if count == 0 {
        return rows;
    }
    match rows.take_front(count) {
        Some(_front) => rows,
        None => rows,
    }
}

// How many low bits of a word of k bases are outside its prefix, in a table of so many rows.
fn shift_for(rows: usize, k: K) -> u32
    ensures { result < 64 }
{
    let bits = 2 * k.get();
    bits.saturating_sub((rows / ROWS_A_START).max(1).ilog2())
}

// The walks over the rows of the table, in room for one for each so many rows.
fn walks_of<'a>(alloc: Global, tally: &'a Tally) -> Result<Vec<Rows<'a>>, AllocError>
    ensures last { IfOk result (λ walks. All (λ rows. AreLast tally.now.rows rows) walks.items) }
    ensures bounded { IfOk result (λ walks. vec_capacity walks ≤ length tally.now.rows / 1024 + 1) }
{
    let room = tally.row_count() as usize / STRIDE + 1;
    let mut walks = Vec::with_capacity(alloc, room)?;
    let mut rest = tally.rows();
    for _ in 0..room {
        walks.push_reserved(rest.second_walk());
        rest = rows_behind(rest, STRIDE);
    }
    Ok(walks)
}

// For each prefix the place of the last row with a lesser one, in room for one for each so many rows.
fn starts_of(alloc: Global, tally: &Tally, shift: u32) -> Result<Vec<u32>, AllocError>
    requires { shift < 64 }
    ensures { IfOk result (λ starts. vec_capacity starts ≤ length tally.now.rows / 8) }
{
    let mut starts = Vec::with_capacity(alloc, tally.row_count() as usize / ROWS_A_START)?;
    let mut rest = tally.rows();
    let mut place = 0usize;
    'fronts: while let Some(front) = rest.take_front(STRIDE) {
        put_starts(&mut starts, front, shift, place);
        place = place.saturating_add(STRIDE);
    }
    Ok(starts)
}

// Appends the places of the prefixes that begin in these rows to the others, as far as there is room. `place` is the
// place of the first row.
fn put_starts(starts: &mut Vec<u32>, rows: Rows<'_>, shift: u32, place: usize)
    requires { shift < 64 }
    ensures { vec_capacity starts.new ≡ vec_capacity starts.old }
{
    let mut before = place.saturating_sub(1);
    for row in rows {
        put_start(starts, (row.word >> shift) as usize, before);
        before = before.saturating_add(1);
    }
}

// Sets the start of each prefix up to this one that has none yet, as far as there is room.
#[inline(always)]
fn put_start(starts: &mut Vec<u32>, prefix: usize, start: usize)
    ensures { vec_capacity starts.new ≡ vec_capacity starts.old }
{
    while starts.len() <= prefix && starts.len() < starts.capacity() {
        starts.push_reserved(start.min(u32::MAX as usize) as u32);
    }
}
