//! What is kept of the header and the rows of a table text that were read, and the row that comes next.
ghost use Rattle.std.specs.Prelude.{◌≡◌, ◌↔◌, ◌+◌, ◌<◌, ◌≤◌, ◌^◌, true, false, length, take, None};
ghost use Rattle.std.specs.Prelude.{IsTrue, IfSome, IfNone};
ghost use Rattle.kc_tally.specs.declared.row.Row.{Row};
ghost use Rattle.kc_kmer.specs.Word.{text, form};
ghost use Rattle.kc_report.specs.Dumping.{row_in_columns};
ghost use Rattle.kc_report.specs.RowByRow.{BeginsWithNoRow, ComesNext, with_row};
ghost use Rattle.kc_report.specs.Table.{end_line, ended};
ghost use Rattle.kc_report.specs.TableReading.{BeginsWith};

use crate::dump::MAX_COUNT;
use crate::fields::{count_of, word_of};
use crate::letters::reverse_complement_of_four;
use crate::table::push_end;
use kc_io::Block;
use kc_kmer::{K, Word, canonical};
use kc_tally::Row;
use std::marker::Model;

// What is kept of the header and the rows: only numbers.
#[derive(Drop)]
pub(crate) struct TableRows {
    k: K,
    both: bool,
    last: Option<u64>,
    count: u64,
    total: u64,
}

impl Model for TableRows {
    ghost use Rattle.std.specs.Prelude.{◌≡◌, ◌≤◌, ◌^◌};
    ghost use Rattle.kc_report.specs.RowByRow.{RowsRead};

    ghost Value = { RowsRead };

    ghost view = { λ t. record { k = t.k; both = t.both; last = t.last; count = t.count; total = t.total } };

    // each row has a count of at least 1
    ghost invariant = { λ t. (t.count ≤ t.total) × (t.total ≤ 2 ^ 62) };
}

impl TableRows {
    // No rows yet.
    pub(crate) fn new(k: K, both: bool) -> TableRows
        ensures { result ≡ record { k = k; both = both; last = None; count = 0; total = 0 } }
    {
        TableRows {
            k,
            both,
            last: None,
            count: 0,
            total: 0,
        }
    }

    // The length of the words.
    pub(crate) fn k(&self) -> K
        ensures { result ≡ self.now.k }
    {
        self.k
    }

    // Whether both strands were counted.
    pub(crate) fn both(&self) -> bool
        ensures { result ≡ self.now.both }
    {
        self.both
    }

    // The number of the line that comes next: the header is line 1.
    pub(crate) fn next_line_number(&self) -> u64
        ensures { result ≡ self.now.count + 2 }
    {
        self.count + 2
    }

    // The row at the front of the bytes, if it may come next, and how many bytes it has.
    #[inline(always)]
    pub(crate) fn next_row(&self, bytes: &[u8]) -> Option<(Row, usize)>
        ensures within { IfSome result (λ found. found.1 ≤ length bytes.now) }
        ensures some { IfSome result (λ found. take found.1 bytes.now ≡ row_in_columns self.now.k false found.0) }
        ensures follows { IfSome result (λ found. ComesNext self.now found.0) }
        ensures none { IfNone result (BeginsWithNoRow self.now bytes.now) }
    {
        let Some((row, size)) = row_of(bytes, self.k) else {
            return None;
        };
        if !self.may_follow(row) {
            return None;
        }
        Some((row, size))
    }

    // Whether the row may come next.
    fn may_follow(&self, row: Row) -> bool
        requires below { row.word < 4 ^ self.now.k }
        ensures { IsTrue result ↔ ComesNext self.now row }
    {
        if !self.rises_to(row.word) {
            return false;
        }
        if row.count < 1 || row.count > MAX_COUNT - self.total {
            return false;
        }
        is_form(Word(row.word), self.k, self.both)
    }

    // Whether the word is above that of the last row.
    fn rises_to(&self, word: u64) -> bool
        ensures { IsTrue result ↔ IfSome self.now.last (λ last. last < word) }
    {
        match self.last {
            Some(last) => last < word,
            None => true,
        }
    }

    // Appends the row to the others. Condition: it may come next.
    #[inline(always)]
    pub(crate) fn push(&mut self, row: Row)
        requires { ComesNext self.old row }
        ensures { self.new ≡ with_row self.old row }
    {
        self.last = Some(row.word);
        self.count += 1;
        self.total += row.count;
    }

    // Whether the bytes are the end line of these rows.
    pub(crate) fn is_end(&self, bytes: &[u8]) -> bool
        ensures { IsTrue result ↔ (bytes.now ≡ ended (end_line self.now.count self.now.total)) }
    {
        let mut block = Block::new();
        push_end(&mut block, self.count, self.total);
        is_same(&block, bytes)
    }
}

// Whether a word is in the form under which it counts.
#[inline(always)]
fn is_form(word: Word, k: K, both: bool) -> bool
    requires { word.0 < 4 ^ k }
    ensures { IsTrue result ↔ (form both (text k word.0) ≡ text k word.0) }
{
    if both { is_lesser(word, k) } else { true }
}

// Whether a word is at most its reverse complement. The first four letters nearly always decide that.
#[inline(always)]
fn is_lesser(word: Word, k: K) -> bool
    requires { word.0 < 4 ^ k }
    ensures { IsTrue result ↔ (form true (text k word.0) ≡ text k word.0) }
{
    let bases = k.get();
    if bases < 4 {
        return is_canonical(word, k);
    }
    let first = word.0 >> (2 * bases - 8);
    let opposite = reverse_complement_of_four((word.0 & 255) as usize) as u64;
    if first == opposite {
        return is_canonical(word, k);
    }
    first < opposite
}

// Whether a word is its canonical form.
fn is_canonical(word: Word, k: K) -> bool
    requires { word.0 < 4 ^ k }
    ensures { IsTrue result ↔ (form true (text k word.0) ≡ text k word.0) }
{
    canonical(word, k).0 == word.0
}

// The row at the front of the bytes, and how many bytes it has.
#[inline(always)]
fn row_of(bytes: &[u8], k: K) -> Option<(Row, usize)>
    ensures within { IfSome result (λ found. found.1 ≤ length bytes.now) }
    ensures below { IfSome result (λ found. found.0.word < 4 ^ k) }
    ensures small { IfSome result (λ found. found.0.count < 2 ^ 64) }
    ensures some { IfSome result (λ found. take found.1 bytes.now ≡ row_in_columns k false found.0) }
    ensures none { IfNone result ((row : Row) → row.word < 4 ^ k → 1 ≤ row.count → row.count ≤ 2 ^ 62
        → ¬ BeginsWith bytes.now (row_in_columns k false row)) }
{
    let (letters, fields) = bytes.split_at_checked(k.get() as usize)?;
    let word = word_of(letters, k)?;
    let (count, size) = count_of(fields)?;
    Some((Row { word, count }, letters.len() + size))
}

// Whether the bytes are those in the block.
pub(crate) fn is_same(block: &Block, bytes: &[u8]) -> bool
    ensures { IsTrue result ↔ (bytes.now ≡ block.now) }
{
    bytes == block.as_slice()
}
