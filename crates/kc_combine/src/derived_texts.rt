//! What is derived from table texts, each read from its source.
ghost use Rattle.std.specs.Prelude.{◌≡◌, ◌^◌, ◌≤◌, IfErr, IfOk, length, map};
ghost use Rattle.kc_combine.specs.Derivations.{DerivesNoTexts, DerivesTexts, HasHigh, TakesTables, dump_fault};

use crate::combined_texts::combine_texts;
use crate::comparison::Comparing;
use crate::comparison_text::write_comparison;
use crate::copy_spectrum::{CopySpectrum, write_spectrum};
use crate::derived::{Derived, written};
use crate::placed_fault::PlacedFault;
use crate::visited_texts::visit_texts;
use crate::written_tables::{CombineFault, Totals};
use kc_io::{Sink, Source};
use kc_report::{Dump, ReportFault, write_dump_of_text};
use std::alloc::Global;

/// Reads the table texts of these sources, at most `limit` bytes of each, and writes what is derived from them. Tables
/// are read side by side, and of each only the next row is kept; the sources keep their order. It returns the totals of
/// a table, and none for another text. Conditions: there are as many sources as are needed (two for a comparison and a
/// spectrum, one for a dump, at least one for a table), and the highest count of a spectrum is 1 to 10,000,000.
///
/// # Errors
/// Those of `combine_texts` and of `write_dump_of_text`. For a comparison and a spectrum, `Table` with the fault of a
/// table, `Unlike` if their words differ in length or one counts both strands and the other does not, and `Memory` if a
/// growth was refused; nothing was written then. `Write` if the writer failed or took no byte; it took a beginning.
pub fn derive_from_texts<S: Source + Drop, W: Sink>(
    alloc: Global,
    derived: Derived,
    sources: &mut Vec<S>,
    limit: u64,
    writer: &mut W,
) -> Result<Option<Totals>, CombineFault<PlacedFault>>
    requires count { TakesTables derived (length sources.old.items) }
    requires high { HasHigh derived }
    ensures derived { IfOk result (DerivesTexts derived limit (map S.seen sources.old.items)
        (map S.seen sources.new.items) (W.seen writer.old) (W.seen writer.new)) }
    ensures fault { IfErr result (DerivesNoTexts derived limit (map S.seen sources.old.items)
        (map S.seen sources.new.items) (W.seen writer.old) (W.seen writer.new)) }
    ensures long { length sources.new.items ≡ length sources.old.items }
{
    match derived {
        Derived::Table(combining) => {
            match combine_texts(alloc, combining, sources, limit, writer) {
                Ok(totals) => Ok(Some(totals)),
                Err(fault) => Err(fault),
            }
        }
        Derived::Comparison(solid) => compare_texts(alloc, solid, sources, limit, writer),
        Derived::Spectrum(high) => spectrum_of_texts(alloc, high, sources, limit, writer),
        Derived::Dump(dump) => dump_text(alloc, &dump, sources, limit, writer),
    }
}

// Writes the numbers of two compared tables.
fn compare_texts<S: Source + Drop, W: Sink>(
    alloc: Global,
    solid: u64,
    sources: &mut Vec<S>,
    limit: u64,
    writer: &mut W,
) -> Result<Option<Totals>, CombineFault<PlacedFault>>
    requires { length sources.old.items ≡ 2 }
    ensures derived { IfOk result (DerivesTexts (Derived.Comparison solid) limit (map S.seen sources.old.items)
        (map S.seen sources.new.items) (W.seen writer.old) (W.seen writer.new)) }
    ensures fault { IfErr result (DerivesNoTexts (Derived.Comparison solid) limit (map S.seen sources.old.items)
        (map S.seen sources.new.items) (W.seen writer.old) (W.seen writer.new)) }
    ensures long { length sources.new.items ≡ length sources.old.items }
{
    let mut comparing = Comparing::new(solid);
    match visit_texts(alloc, sources, limit, &mut comparing) {
        Ok(()) => written(write_comparison(writer, comparing.comparison())),
        Err(fault) => Err(fault),
    }
}

// Writes the spectrum of copy numbers of two tables.
fn spectrum_of_texts<S: Source + Drop, W: Sink>(
    alloc: Global,
    high: u64,
    sources: &mut Vec<S>,
    limit: u64,
    writer: &mut W,
) -> Result<Option<Totals>, CombineFault<PlacedFault>>
    requires two { length sources.old.items ≡ 2 }
    requires most { high ≤ 10000000 }
    ensures derived { IfOk result (DerivesTexts (Derived.Spectrum high) limit (map S.seen sources.old.items)
        (map S.seen sources.new.items) (W.seen writer.old) (W.seen writer.new)) }
    ensures fault { IfErr result (DerivesNoTexts (Derived.Spectrum high) limit (map S.seen sources.old.items)
        (map S.seen sources.new.items) (W.seen writer.old) (W.seen writer.new)) }
    ensures long { length sources.new.items ≡ length sources.old.items }
{
    let Ok(mut spectrum) = CopySpectrum::new(alloc, high) else {
        return Err(CombineFault::Memory);
    };
    match visit_texts(alloc, sources, limit, &mut spectrum) {
        Ok(()) => written(write_spectrum(writer, &spectrum)),
        Err(fault) => Err(fault),
    }
}

// Writes the dump of the table of the only source.
fn dump_text<S: Source, W: Sink>(
    alloc: Global,
    dump: &Dump,
    sources: &mut [S],
    limit: u64,
    writer: &mut W,
) -> Result<Option<Totals>, CombineFault<PlacedFault>>
    requires { length sources.old ≡ 1 }
    ensures derived { IfOk result (DerivesTexts (Derived.Dump dump.now) limit (map S.seen sources.old)
        (map S.seen sources.new) (W.seen writer.old) (W.seen writer.new)) }
    ensures fault { IfErr result (DerivesNoTexts (Derived.Dump dump.now) limit (map S.seen sources.old)
        (map S.seen sources.new) (W.seen writer.old) (W.seen writer.new)) }
    ensures long { length sources.new ≡ length sources.old }
{
    match write_dump_of_text(alloc, &mut sources[0], limit, dump, writer) {
        Ok(()) => Ok(None),
        Err(why) => Err(dump_fault(why)),
    }
}

// The fault of a dump.
fn dump_fault(fault: ReportFault) -> CombineFault<PlacedFault>
    ensures { result ≡ dump_fault fault }
{
    match fault {
        ReportFault::Write => CombineFault::Write,
        fault => CombineFault::Table(PlacedFault { place: 1, fault }),
    }
}
