//! What is derived from tables in memory.
ghost use Rattle.std.specs.Prelude.{◌≡◌, ◌≤◌, All, IfErr, IfOk, length, map};
ghost use Rattle.kc_report.specs.Table.{MaySay};
ghost use Rattle.kc_combine.specs.Derivations.{DerivesNoTables, DerivesTables, HasHigh, TakesTables};
ghost use Rattle.kc_combine.specs.LoadedTables.{table_seen};

use crate::comparison::Comparing;
use crate::comparison_text::write_comparison;
use crate::copy_spectrum::{CopySpectrum, write_spectrum};
use crate::derived::{Derived, written};
use crate::loaded_tables::{LoadedTable, combine_tables};
use crate::placed_fault::PlacedFault;
use crate::visited_tables::visit_tables;
use crate::written_tables::{CombineFault, Totals};
use kc_io::Sink;
use kc_report::{Dump, write_dump};
use std::alloc::Global;

/// Writes what is derived from these tables. It returns the totals of a table, and none for another text. Conditions:
/// there are as many tables as are needed (two for a comparison and a spectrum, one for a dump, at least one for a
/// table), each origin is one that a header can have, and the highest count of a spectrum is 1 to 10,000,000.
///
/// # Errors
/// Those of `combine_tables`. For a comparison and a spectrum, `Unlike` if the words of the tables differ in length or
/// one counts both strands and the other does not, and `Memory` if a growth was refused; nothing was written then.
/// `Write` if the writer failed or took no byte; it took a beginning.
pub fn derive_from_tables<W: Sink>(
    alloc: Global,
    derived: Derived,
    tables: &[LoadedTable],
    writer: &mut W,
) -> Result<Option<Totals>, CombineFault<PlacedFault>>
    requires count { TakesTables derived (length tables.now) }
    requires high { HasHigh derived }
    requires said { All (λ table. MaySay table.origin) tables.now }
    ensures derived { IfOk result (DerivesTables derived (map table_seen tables.now) (W.seen writer.old)
        (W.seen writer.new)) }
    ensures fault { IfErr result (DerivesNoTables derived (map table_seen tables.now) (W.seen writer.old)
        (W.seen writer.new)) }
{
    match derived {
        Derived::Table(combining) => match combine_tables(alloc, combining, tables, writer) {
            Ok(totals) => Ok(Some(totals)),
            Err(fault) => Err(fault),
        },
        Derived::Comparison(solid) => compare_tables(alloc, solid, tables, writer),
        Derived::Spectrum(high) => spectrum_of_tables(alloc, high, tables, writer),
        Derived::Dump(dump) => dump_table(&dump, tables, writer),
    }
}

// Writes the numbers of two compared tables.
fn compare_tables<W: Sink>(
    alloc: Global,
    solid: u64,
    tables: &[LoadedTable],
    writer: &mut W,
) -> Result<Option<Totals>, CombineFault<PlacedFault>>
    requires two { length tables.now ≡ 2 }
    requires said { All (λ table. MaySay table.origin) tables.now }
    ensures derived { IfOk result (DerivesTables (Derived.Comparison solid) (map table_seen tables.now)
        (W.seen writer.old) (W.seen writer.new)) }
    ensures fault { IfErr result (DerivesNoTables (Derived.Comparison solid) (map table_seen tables.now)
        (W.seen writer.old) (W.seen writer.new)) }
{
    // for the proof: the rows of both are lawful, and their words have at most 31 bases
    let (_reads, _assembly) = (tables[0].tally.row_count(), tables[1].tally.row_count());
    let _bases = tables[0].tally.k().get();
    let mut comparing = Comparing::new(solid);
    match visit_tables(alloc, tables, &mut comparing) {
        Ok(()) => written(write_comparison(writer, comparing.comparison())),
        Err(fault) => Err(fault),
    }
}

// Writes the spectrum of copy numbers of two tables.
fn spectrum_of_tables<W: Sink>(
    alloc: Global,
    high: u64,
    tables: &[LoadedTable],
    writer: &mut W,
) -> Result<Option<Totals>, CombineFault<PlacedFault>>
    requires two { length tables.now ≡ 2 }
    requires most { high ≤ 10000000 }
    requires said { All (λ table. MaySay table.origin) tables.now }
    ensures derived { IfOk result (DerivesTables (Derived.Spectrum high) (map table_seen tables.now)
        (W.seen writer.old) (W.seen writer.new)) }
    ensures fault { IfErr result (DerivesNoTables (Derived.Spectrum high) (map table_seen tables.now)
        (W.seen writer.old) (W.seen writer.new)) }
{
    // for the proof: words of k bases are at most 2^62
    let _bases = tables[0].tally.k().get();
    let Ok(mut spectrum) = CopySpectrum::new(alloc, high) else {
        return Err(CombineFault::Memory);
    };
    match visit_tables(alloc, tables, &mut spectrum) {
        Ok(()) => written(write_spectrum(writer, &spectrum)),
        Err(fault) => Err(fault),
    }
}

// Writes the dump of the only table.
fn dump_table<W: Sink>(
    dump: &Dump,
    tables: &[LoadedTable],
    writer: &mut W,
) -> Result<Option<Totals>, CombineFault<PlacedFault>>
    requires { length tables.now ≡ 1 }
    ensures derived { IfOk result (DerivesTables (Derived.Dump dump.now) (map table_seen tables.now)
        (W.seen writer.old) (W.seen writer.new)) }
    ensures fault { IfErr result (DerivesNoTables (Derived.Dump dump.now) (map table_seen tables.now)
        (W.seen writer.old) (W.seen writer.new)) }
{
    match write_dump(writer, &tables[0].tally, dump) {
        Ok(()) => Ok(None),
        Err(_) => Err(CombineFault::Write),
    }
}
