//! What the reports that list no rows need of a table: numbers that are counted while it is read.
ghost use Rattle.std.specs.Prelude.{◌≡◌, ℕ, ◌+◌, ◌≤◌, ◌^◌, ◌++◌, ◌∷◌, [], List, IfOk, IfErr};
ghost use Rattle.std.specs.Vec.{vec_capacity};
ghost use Rattle.kc_io.specs.Sinks.{Writes};
ghost use Rattle.kc_tally.specs.declared.row.Row.{Row};
ghost use Rattle.kc_report.specs.declared.report_faults.ReportFault.TheVariants.{Write};
ghost use Rattle.kc_report.specs.Histo.{histo_text};
ghost use Rattle.kc_report.specs.Numbers.{GivesNumbers, IsCountOf};
ghost use Rattle.kc_report.specs.TableReading.{RefusesTable};

use crate::histogram_text::{MAX_HIGH, histo_by_blocks, sum_of};
use crate::report_faults::ReportFault;
use crate::table_reading::TableReading;
use kc_io::{Sink, Source};
use kc_lemmas::zeros;
use kc_tally::{Row, Statistics};
use std::alloc::{AllocError, Global};
use std::marker::Model;

/// The numbers that are counted of a table's rows: how many words have each count from 1 up to a greatest one, and the
/// statistics.
///
/// ```ignore
/// let numbers = read_numbers(alloc, source, limit, high)?;
/// numbers.write_histo(writer)?;
/// ```
#[derive(Drop)]
pub struct TableNumbers {
    // how many words have each count from 1 on
    words: Vec<u64>,
    statistics: Statistics,
}

impl Model for TableNumbers {
    ghost use Rattle.std.specs.Vec.{vec_capacity};
    ghost use Rattle.kc_report.specs.Numbers.{AreNumbers, NumbersSeen};

    ghost Value = { NumbersSeen };

    ghost view = { λ n. record { words = n.words.items; room = vec_capacity n.words; statistics = n.statistics } };

    ghost invariant = { λ n. AreNumbers
        (record { words = n.words.items; room = vec_capacity n.words; statistics = n.statistics }) };
}

impl TableNumbers {
    // The numbers of no rows, with a place for each count from 1 to `high`.
    fn none(alloc: Global, high: u64) -> Result<TableNumbers, AllocError>
        requires { high ≤ MAX_HIGH }
        ensures { IfOk result (IsCountOf high []) }
    {
        Ok(TableNumbers {
            words: zeros(alloc, high as usize)?,
            statistics: Statistics {
                unique: 0,
                distinct: 0,
                total: 0,
                greatest: 0,
            },
        })
    }

    // Counts one more row. Conditions: its count is at least 1, and with it the counts add up to at most 2^62.
    #[inline(always)]
    fn count(&mut self, row: Row)
        requires present { 1 ≤ row.count }
        requires small { self.old.statistics.total + row.count ≤ 2 ^ 62 }
        ensures { (high : ℕ) (rows : List Row) → IsCountOf high rows self.old
            → IsCountOf high (rows ++ row ∷ []) self.new }
    {
        let Row { word: _, count } = row;
        let statistics = &mut self.statistics;
        statistics.unique += u64::from(count == 1);
        statistics.distinct += 1;
        statistics.total += count;
        statistics.greatest = statistics.greatest.max(count);
        if count <= self.words.len() as u64 {
            self.words[count as usize - 1] += 1;
        }
    }

    /// The statistics.
    pub fn statistics(&self) -> &Statistics
        ensures { result.now ≡ self.now.statistics }
    {
        &self.statistics
    }

    /// Writes the histogram, as `write_histo` writes that of a tally. It takes no memory.
    ///
    /// # Errors
    /// `Write` if the writer failed or took no byte. It took a beginning of the text.
    pub fn write_histo<W: Sink>(&self, writer: &mut W) -> Result<(), ReportFault>
        ensures written { (high : ℕ) (rows : List Row) → IsCountOf high rows self.now
            → Writes (W.seen writer.old) (W.seen writer.new) result (histo_text high rows) }
        ensures fault { IfErr result (λ fault. fault ≡ Write) }
    {
        let above = self.statistics.distinct - sum_of(&self.words);
        Ok(histo_by_blocks(writer, &self.words, above)?)
    }
}

/// Takes all bytes of the source, a table text, and returns the numbers of its table: how many words have each count
/// from 1 to `high`, and the statistics. It keeps these numbers, one block and one line of the text, and what the
/// decompression of gzip keeps. Condition: `high` is at most 10,000,000.
///
/// # Errors
/// Those of `read_table`.
pub fn read_numbers<R: Source>(
    alloc: Global,
    reader: &mut R,
    limit: u64,
    high: u64,
) -> Result<TableNumbers, ReportFault>
    requires { high ≤ MAX_HIGH }
    ensures numbers { IfOk result (GivesNumbers (R.seen reader.old) (R.seen reader.new) limit high) }
    ensures bounded { IfOk result (λ numbers. numbers.room ≤ high) }
    ensures fault { IfErr result (RefusesTable (R.seen reader.old) (R.seen reader.new) limit) }
{
    let mut reading = TableReading::open(alloc, reader, limit)?;
    let mut numbers = TableNumbers::none(alloc, high)?;
    'rows: while let Some(row) = reading.next_row(reader)? {
        numbers.count(row);
    }
    Ok(numbers)
}
