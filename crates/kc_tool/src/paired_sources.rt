//! The pairs of reads of two files that a table selects.
ghost use Rattle.std.specs.Prelude.{◌≡◌, ◌≤◌, ◌+◌, ◌++◌, [], ◌∷◌, Some, length};
ghost use Rattle.std.specs.Vec.{vec_capacity, vec_len};
ghost use Rattle.kc_io.specs.Sources.{Seen};
ghost use Rattle.kc_tool.specs.Commands.{SelectsPairsBy, given_listed};
ghost use Rattle.kc_tool.specs.NamedSources.{names_of, seen_of};
ghost use Rattle.kc_tool.specs.PairSelections.{counts_of_pairs, pair_fault};
ghost use Rattle.kc_tool.specs.Tallies.{given};

use crate::count_progress::{Progress, Stage};
use crate::counted_sources::{MAX_BYTES, Means};
use crate::named_sources::NamedSource;
use crate::pairs_writers::WritesPairs;
use crate::task_tallies::table_from;
use crate::tool_faults::ToolFault;
use kc_io::Source;
use kc_select::{
    PairFault, PairRule, PairSelection, Selected, Selection, SelectionCounts, Selector, Side,
};
use std::thread::Threads;

/// Which pairs are selected.
#[derive(Clone, Copy, Debug)]
pub(crate) struct Pairing {
    /// Which reads are solid, and whether the selection is inverted.
    pub selection: Selection,
    /// How many reads of a pair have to be solid.
    pub asked: PairRule,
    /// Whether `--stats` asks for the counts.
    pub tells: bool,
}

// The files of a selection of pairs.
#[derive(Drop)]
struct PairFiles<'n, F: Source> {
    // That of the table.
    table: NamedSource<'n, F>,
    // Those of the reads.
    first: NamedSource<'n, F>,
    second: NamedSource<'n, F>,
}

/// Reads the table of the first file, and writes the pairs of reads of the two after it that are selected. It counts
/// both reads of each pair. Condition: there are three files.
///
/// # Errors
/// The fault of the table: no pair was read. `Memory` also if the selection got no memory. `Fastx` with the fault of
/// the second file, as source 1, or of the third one, as source 2. `Unpaired` with the number of a record that has no
/// mate. The selected pairs before it were written. `Write` if a writer failed or took no byte.
pub(crate) fn select_pairs<H: Threads, F: Source, W, V: WritesPairs<W>, P: Progress>(
    means: &Means<'_, H, P>,
    how: &V,
    pairing: &Pairing,
    files: &mut Vec<NamedSource<'_, F>>,
    output: &mut W,
) -> Result<SelectionCounts, ToolFault>
    requires { length files.old.items ≡ 3 }
    ensures done { (input : Seen) → SelectsPairsBy
        (λ task before after answer. V.writes how.now output.old output.new task before after answer)
        (output.new ≡ output.old) pairing.now (given_listed input (seen_of F.seen files.old.items))
        (given_listed input (seen_of F.seen files.new.items)) result }
    ensures names { names_of files.new.items ≡ names_of files.old.items }
{
    let Some(second) = files.pop() else {
        unreachable!()
    };
    let Some(first) = files.pop() else {
        unreachable!()
    };
    let Some(table) = files.pop() else {
        unreachable!()
    };
    let mut three = PairFiles {
        table,
        first,
        second,
    };
    let selected = select_from(means, how, pairing, &mut three, output);
    put_back(files, three);
    selected
}

// Appends three files to the others. Condition: there is room for them.
fn put_back<'n, F: Source>(files: &mut Vec<NamedSource<'n, F>>, three: PairFiles<'n, F>)
    requires { vec_len files.old + 3 ≤ vec_capacity files.old }
    ensures { files.new.items ≡ files.old.items ++ three.entry.table ∷ three.entry.first ∷ three.entry.second ∷ [] }
{
    let PairFiles {
        table,
        first,
        second,
    } = three;
    files.push_reserved(table);
    files.push_reserved(first);
    files.push_reserved(second);
}

// The same with the three files, which keep their names.
fn select_from<H: Threads, F: Source, W, V: WritesPairs<W>, P: Progress>(
    means: &Means<'_, H, P>,
    how: &V,
    pairing: &Pairing,
    files: &mut PairFiles<'_, F>,
    output: &mut W,
) -> Result<SelectionCounts, ToolFault>
    ensures done { SelectsPairsBy
        (λ task before after answer. V.writes how.now output.old output.new task before after answer)
        (output.new ≡ output.old) pairing.now
        (given (Some (F.seen files.old.table.source))
        (F.seen files.old.first.source ∷ F.seen files.old.second.source ∷ []))
        (given (Some (F.seen files.new.table.source))
        (F.seen files.new.first.source ∷ F.seen files.new.second.source ∷ [])) result }
    ensures table { files.new.table.name.now ≡ files.old.table.name.now }
    ensures first { files.new.first.name.now ≡ files.old.first.name.now }
    ensures second { files.new.second.name.now ≡ files.old.second.name.now }
{
    means.progress.begins(Stage::Tables);
    let (tally, _origin) = table_from(means.alloc, &mut files.table.source, 1)?;
    means.progress.begins(Stage::Selection);
    let selector = Selector::new(means.alloc, &tally, pairing.selection)?;
    let selection = PairSelection::new(&selector, pairing.asked, MAX_BYTES);
    let (first, second) = (&mut files.first.source, &mut files.second.source);
    counts_of_pairs(how.select(means.alloc, first, second, output, &selection))
}

// The numbers of the reads of pairs, or why they were not selected, as the program reports it.
fn counts_of_pairs(selected: Result<Selected, PairFault>) -> Result<SelectionCounts, ToolFault>
    ensures { result ≡ counts_of_pairs selected }
{
    match selected {
        Ok(selected) => Ok(selected.counts),
        Err(fault) => Err(pair_fault(fault)),
    }
}

// The fault of two sources, as a fault of the program: they are sources 1 and 2.
fn pair_fault(fault: PairFault) -> ToolFault
    ensures { result ≡ pair_fault fault }
{
    match fault {
        PairFault::Reads(Side::First, fault) => ToolFault::Fastx { source: 1, fault },
        PairFault::Reads(Side::Second, fault) => ToolFault::Fastx { source: 2, fault },
        PairFault::Unpaired(number) => ToolFault::Unpaired(number),
        PairFault::Write => ToolFault::Write,
    }
}
