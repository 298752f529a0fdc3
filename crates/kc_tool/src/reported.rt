//! `Reported`, what a report is written from: a tally or, if the report needs no more of it, its histogram or its
//! statistics.
ghost use Rattle.std.specs.Prelude.{◌≡◌, List, ⊤, refl};
ghost use Rattle.kc_fastx.specs.Reads.{Read};
ghost use Rattle.kc_kmer.specs.Rule.{CountingRule};
ghost use Rattle.kc_tally.specs.Tally.{IsTallyOf, TallySeen};
ghost use Rattle.kc_report.specs.Table.{MaySay};
ghost use Rattle.kc_tool.specs.CountedTallies.{KnowNumbers, KnowsOne, WantsNumbers};
ghost use Rattle.kc_tool.specs.Reports.{IsWritable, WritesOrGives, WritesText, report_text};
ghost use Rattle.kc_tool.specs.Tallies.{TableSeen};
ghost use Rattle.kc_tool.specs.Told.{counted_with};

use crate::reports::{Crew, Report, write_report};
use crate::told::CountedWords;
use crate::tool_faults::ToolFault;
use kc_command::Print;
use kc_gather::{Numbers, Summary};
use kc_io::Sink;
use kc_report::{Origin, write_histo_of_bins, write_stats_of};
use kc_tally::Tally;
use std::alloc::Global;
use std::thread::Threads;

/// The result of a count from which a report on its tally is written.
pub(crate) trait Reported: Summary {
    ghost use Rattle.kc_tool.specs.declared.reports.Report.{Report};

    // Whether this is known of the tally.
    ghost knows: { Self → TallySeen → Type 0 };

    // Whether that is enough for the report.
    ghost suits: { Report → Type 0 };

    /// Writes a report on the tally, if that needs none of its rows. Otherwise it writes nothing, and returns the
    /// tally. Conditions: those of `write`, which calls it.
    ///
    /// # Errors
    /// `Write` if the writer failed or took no byte; a beginning of the text was written.
    fn write_or_rows<W: Sink>(
        &self,
        writer: &mut W,
        report: Report,
    ) -> Result<Option<&Tally>, ToolFault>
        requires writable { IsWritable report }
        requires known { (tally : TallySeen) × knows self.now tally }
        requires enough { suits report }
        ensures { (table : TableSeen) → knows self.now table.0
            → WritesOrGives (λ tally. tally.now) table report (W.seen writer.old) (W.seen writer.new) result };

    /// How many words the tally has, with the number of reads.
    fn words(&self, reads: Option<u64>) -> CountedWords
        requires { (tally : TallySeen) × knows self.now tally }
        ensures { (tally : TallySeen) → knows self.now tally → result ≡ counted_with reads tally };

    /// Writes a report on the tally, as `write_report` does. Additional condition: what is known is enough for it.
    ///
    /// # Errors
    /// Those of `write_report`.
    // It is final, since the checker accepts no function of an impl that hands a bounded type to another thread.
    final fn write<H: Threads + Sync, W: Sink>(
        &self,
        crew: &Crew<'_, H>,
        alloc: Global,
        writer: &mut W,
        origin: Option<Origin>,
        report: Report,
    ) -> Result<(), ToolFault>
        requires writable { IsWritable report }
        requires origin { MaySay origin }
        requires known { (tally : TallySeen) × knows self.now tally }
        requires enough { suits report }
        ensures { (tally : TallySeen) → knows self.now tally
            → WritesText (report_text report (tally, origin)) (W.seen writer.old) (W.seen writer.new) result }
    {
        match self.write_or_rows(writer, report) {
            Ok(Some(tally)) => write_report(crew, alloc, writer, tally, origin, report),
            Ok(None) => Ok(()),
            Err(fault) => Err(fault),
        }
    }

    ghost tells: { (rule : CountingRule) (reads : List Read) (summary : Self) → Self.is_of rule reads summary
        → KnowsOne knows summary (IsTallyOf rule reads) };
}

impl Reported for Tally {
    ghost knows = { λ known tally. known ≡ tally };

    ghost suits = { λ report. ⊤ };

    ghost tells = { λ rule reads known is. record { tally = known; knows = refl; holds = is } };

    fn write_or_rows<W: Sink>(
        &self,
        _writer: &mut W,
        _report: Report,
    ) -> Result<Option<&Tally>, ToolFault> {
        Ok(Some(self))
    }

    fn words(&self, reads: Option<u64>) -> CountedWords {
        CountedWords::of(self, reads)
    }
}

impl Reported for Numbers {
    ghost knows = { KnowNumbers };

    ghost suits = { WantsNumbers };

    ghost tells = { λ rule reads numbers are. record {
      tally = are.tally;
      knows = record { bins_are = are.bins_are; few = are.few; statistics_are = are.statistics_are };
      holds = are.is_tally;
    } };

    fn write_or_rows<W: Sink>(
        &self,
        writer: &mut W,
        report: Report,
    ) -> Result<Option<&Tally>, ToolFault> {
        match report.print {
            Print::Histo => write_histo_of_bins(writer, &self.histogram, report.high)?,
            _ => write_stats_of(writer, &self.statistics)?,
        }
        Ok(None)
    }

    fn words(&self, reads: Option<u64>) -> CountedWords {
        CountedWords {
            reads,
            total: self.statistics.total,
            distinct: self.statistics.distinct,
        }
    }
}
