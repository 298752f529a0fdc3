//! Reports on a table that list none of its rows: a histogram, and statistics.
ghost use Rattle.std.specs.Prelude.{◌≡◌, ◌≤◌};
ghost use Rattle.kc_report.specs.Numbers.{IsCountOf};
ghost use Rattle.kc_tool.specs.Reports.{HasLines, WritesText, high_of, numbers_text};
ghost use Rattle.kc_tool.specs.Tallies.{TableSeen};

use crate::tool_faults::ToolFault;
use kc_io::Sink;
use kc_report::{TableNumbers, write_stats_of};

/// A report on a table that lists none of its rows.
#[derive(Clone, Copy, Debug, PartialEq, Eq)]
pub(crate) enum TableReport {
    /// How many words have each count up to this, and how many a greater one.
    Histogram(u64),
    /// Four numbers about all words.
    Statistics,
}

impl TableReport {
    /// The greatest count whose words are counted by themselves.
    pub(crate) fn high(self) -> u64
        requires { HasLines self }
        ensures value { result ≡ high_of self }
        ensures most { result ≤ 10000000 }
    {
        match self {
            TableReport::Histogram(high) => high,
            TableReport::Statistics => 0,
        }
    }

    /// Writes the report on a table with these numbers.
    ///
    /// # Errors
    /// `Write` if the writer failed or took no byte; a beginning of the text was written.
    pub(crate) fn write<W: Sink>(
        self,
        numbers: &TableNumbers,
        writer: &mut W,
    ) -> Result<(), ToolFault>
        ensures { (table : TableSeen) → IsCountOf (high_of self) table.0.rows numbers.now
            → WritesText (numbers_text self table) (W.seen writer.old) (W.seen writer.new) result }
    {
        match self {
            TableReport::Histogram(_) => numbers.write_histo(writer)?,
            TableReport::Statistics => write_stats_of(writer, numbers.statistics())?,
        }
        Ok(())
    }
}
