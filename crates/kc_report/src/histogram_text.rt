//! The histogram of a tally: how many words have which count.
ghost use Rattle.std.specs.Prelude.{◌≡◌, ℕ, ◌≤◌, ◌<◌, ◌+◌, ◌^◌, ◌++◌, List, [], length, sum, IfOk, IfErr, OnOk, OnErr};
ghost use Rattle.std.specs.Vec.{vec_capacity};
ghost use Rattle.kc_io.specs.Sinks.{Writes, HasBegun, Drains};
ghost use Rattle.kc_tally.specs.declared.row.Row.{Row};
ghost use Rattle.kc_tally.specs.Histogram.{last_bin, bins_of, counts_of};
ghost use Rattle.kc_report.specs.declared.report_faults.ReportFault.TheVariants.{Write};
ghost use Rattle.kc_report.specs.Histo.{histo_text, lines_from, words_by_count, count_line};
ghost use Rattle.kc_report.specs.Histo.{WritesUnlessMemory};

use crate::report_faults::ReportFault;
use kc_io::{BLOCK_SIZE, Block, Failed, NUMBER_SIZE, Sink, write_out};
use kc_lemmas::zeros;
use kc_tally::{Histogram, Tally};
use std::alloc::{AllocError, Global};

/// The greatest count that can have a line of its own in a histogram.
pub const MAX_HIGH: u64 = 10_000_000;

/// Writes the histogram of a tally: a line for each count from 1 to `high` that words have, and one for all greater
/// counts. Condition: `high` is 1 to 10,000,000.
///
/// # Errors
/// `Write` if the writer failed or took no byte. It took a beginning of the text. `Memory` if a growth was refused; the
/// writer was not called.
pub fn write_histo<W: Sink>(
    alloc: Global,
    writer: &mut W,
    tally: &Tally,
    high: u64,
) -> Result<(), ReportFault>
    requires some { 1 ≤ high }
    requires most { high ≤ MAX_HIGH }
    ensures { WritesUnlessMemory (W.seen writer.old) (W.seen writer.new) result (histo_text high tally.now.rows) }
{
    let rows = tally.row_count();
    if high < LAST_BIN {
        return write_histo_of_bins(writer, tally.histogram(), high);
    }
    let words = words_of_rows(alloc, tally, high)?;
    let above = rows - sum_of(&words);
    Ok(histo_by_blocks(writer, &words, above)?)
}

/// Writes the histogram of a tally from its bins, without its rows. It takes no memory. Conditions: the bins are those
/// of fewer than 2^64 rows, and `high` is 1 to 10,000.
///
/// # Errors
/// `Write` if the writer failed or took no byte. It took a beginning of the text.
pub fn write_histo_of_bins<W: Sink>(
    writer: &mut W,
    bins: &Histogram,
    high: u64,
) -> Result<(), ReportFault>
    requires some { 1 ≤ high }
    requires most { high < last_bin }
    requires few { (rows : List Row) × (bins.now ≡ bins_of (counts_of rows)) × (length rows < 2 ^ 64) }
    ensures written { (rows : List Row) → bins.now ≡ bins_of (counts_of rows)
        → Writes (W.seen writer.old) (W.seen writer.new) result (histo_text high rows) }
    ensures fault { IfErr result (λ fault. fault ≡ Write) }
{
    let (words, greater) = bins.sizes().split_at(high as usize);
    let above = sum_of(greater);
    Ok(histo_by_blocks(writer, words, above)?)
}

// The number of a tally's last bin. Each bin before it has one count.
const LAST_BIN: u64 = 10_001;

// The sum of these numbers. Condition: it fits.
pub(crate) fn sum_of(numbers: &[u64]) -> u64
    requires { sum numbers.now < 2 ^ 64 }
    ensures { result ≡ sum numbers.now }
{
    let mut total = 0;
    for number in numbers {
        total += *number;
    }
    total
}

// How many words have each count from 1 to `high`, if the bins don't have all of these: row by row.
fn words_of_rows(alloc: Global, tally: &Tally, high: u64) -> Result<Vec<u64>, AllocError>
    requires { high ≤ MAX_HIGH }
    ensures words { IfOk result (λ words. words.items ≡ words_by_count high tally.now.rows) }
    ensures bounded { IfOk result (λ words. vec_capacity words ≤ high) }
{
    let mut words = zeros(alloc, high as usize)?;
    count_rows(words.as_mut_slice(), tally);
    Ok(words)
}

// Counts the rows that have one of the counts.
fn count_rows(words: &mut [u64], tally: &Tally)
    requires { words.old ≡ words_by_count (length words.old) [] }
    ensures { words.new ≡ words_by_count (length words.old) tally.now.rows }
{
    for row in tally.rows() {
        if row.count <= words.len() as u64 {
            words[row.count as usize - 1] += 1;
        }
    }
}

// Writes the lines of the counts from 1 on, given how many words have each, and that of all greater counts, a block at
// a time.
pub(crate) fn histo_by_blocks<W: Sink>(
    writer: &mut W,
    words: &[u64],
    above: u64,
) -> Result<(), Failed>
    requires { length words.now < 2 ^ 63 }
    ensures { Writes (W.seen writer.old) (W.seen writer.new) result (lines_from 1 words.now above) }
{
    let mut block = Block::new();
    for i in 0..words.len() {
        put_line(writer, &mut block, i as u64 + 1, words[i])?;
    }
    put_line(writer, &mut block, words.len() as u64 + 1, above)?;
    write_out(writer, block.as_slice())
}

// The most bytes of a line: two numbers, the blank between them and the end.
const LINE_SIZE: usize = 2 * NUMBER_SIZE + 2;

// Appends the line of a count to the block, if words have it. A block without room goes to the writer first.
fn put_line<W: Sink>(
    writer: &mut W,
    block: &mut Block,
    count: u64,
    words: u64,
) -> Result<(), Failed>
    ensures ok { OnOk result (Drains (W.seen writer.old) (W.seen writer.new)
        (block.old ++ count_line count words) block.new) }
    ensures err { OnErr result (HasBegun (W.seen writer.old) (W.seen writer.new) block.old) }
{
    if words > 0 {
        block.make_room(writer, LINE_SIZE)?;
        push_line(block, count, words);
    }
    Ok(())
}

// Appends a line of the histogram to the block: a count and how many words have it; no line if none has.
fn push_line(block: &mut Block, count: u64, words: u64)
    requires room { length block.old + LINE_SIZE ≤ BLOCK_SIZE }
    requires some { 0 < words }
    ensures { block.new ≡ block.old ++ count_line count words }
{
    block.push_number(count);
    block.push(b" ");
    block.push_number(words);
    block.push(b"\n");
}
