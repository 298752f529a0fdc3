//! The reads of several sources that a table selects.
ghost use Rattle.std.specs.Prelude.{◌≡◌, ◌≤◌, ◌∷◌, [], length};
ghost use Rattle.kc_fastx.specs.Parsing.{most_bytes};
ghost use Rattle.kc_select.specs.Selecting.{task_of};
ghost use Rattle.kc_tool.specs.GivenSources.{Keeps, seen_in};
ghost use Rattle.kc_tool.specs.Selections.{SelectsFrom, SelectsNext};

use crate::counted_sources::MAX_BYTES;
use crate::given_sources::{GivenSources, ReadsSource};
use crate::tool_faults::ToolFault;
use kc_fastx::Source;
use kc_io::Sink;
use kc_select::{SelectFault, Selected, Selection, SelectionCounts, Selector, select};
use kc_tally::Tally;
use std::alloc::Global;

/// Writes the reads of all sources that the selection keeps, in order, and counts all reads.
///
/// # Errors
/// `Memory` if the selection got no memory: nothing was read or written. `Fastx` with the fault of the first source
/// that has one, and its number from 1. The selected reads before it were written. `Write` if the writer failed or took
/// no byte.
pub(crate) fn select_given<R: Source, F: Source, W: Sink>(
    alloc: Global,
    sources: &mut GivenSources<'_, '_, '_, R, F>,
    tally: &Tally,
    selection: Selection,
    writer: &mut W,
) -> Result<SelectionCounts, ToolFault>
    ensures selects { let Selects = SelectsFrom selection tally.now (seen_in R.seen F.seen sources.old) in
        Selects (seen_in R.seen F.seen sources.new) (W.seen writer.old) (W.seen writer.new) result }
    ensures kept { Keeps R.seen F.seen sources.old sources.new }
{
    let selector = Selector::new(alloc, tally, selection)?;
    select_all(alloc, sources, &selector, writer)
}

// Writes the reads of all sources that the selector keeps, in order, and counts all reads.
fn select_all<R: Source, F: Source, W: Sink>(
    alloc: Global,
    sources: &mut GivenSources<'_, '_, '_, R, F>,
    selector: &Selector<'_>,
    writer: &mut W,
) -> Result<SelectionCounts, ToolFault>
    ensures selects { let Selects = SelectsFrom selector.now.rule selector.now.tally
        (seen_in R.seen F.seen sources.old) in
        Selects (seen_in R.seen F.seen sources.new) (W.seen writer.old) (W.seen writer.new) result }
    ensures kept { Keeps R.seen F.seen sources.old sources.new }
{
    // for the proof: facts about a length
    let _bases = selector.k().get();
    let mut counts = SelectionCounts::none();
    let mut left = MAX_BYTES;
    for i in 0..sources.count() {
        let choice = Choice {
            alloc,
            selector,
            number: i as u64 + 1,
            limit: left,
        };
        let selected = sources.read(i, &choice, writer)?;
        left -= selected.bytes;
        counts = counts.plus(selected.counts);
    }
    Ok(counts)
}

// The selection from the source with this number, which may give so many bytes.
#[derive(Drop)]
struct Choice<'a, 't> {
    alloc: Global,
    selector: &'a Selector<'t>,
    number: u64,
    limit: u64,
}

impl<W: Sink> ReadsSource<W> for Choice<'_, '_> {
    type Gives = Selected;

    ghost use Rattle.std.specs.Prelude.{◌≤◌};
    ghost use Rattle.kc_fastx.specs.Parsing.{most_bytes};
    ghost use Rattle.kc_select.specs.Selecting.{task_of};
    ghost use Rattle.kc_tool.specs.Selections.{SelectsNext};

    ghost can_read = { λ choice sink. choice.limit ≤ most_bytes };

    ghost reads = { λ choice old new sink after result.
        SelectsNext (task_of choice.selector.now choice.limit) choice.number
        (record { source = old; sink = W.seen sink }) (record { source = new; sink = W.seen after }) result };

    fn read_source<R: Source>(&self, source: &mut R, state: &mut W) -> Result<Selected, ToolFault> {
        select_next(
            self.alloc,
            source,
            self.number,
            self.limit,
            self.selector,
            state,
        )
    }
}

// Writes the reads of the source with this number that the selection keeps. It counts all reads, and returns how many
// bytes the source gave. Condition: the limit is at most 2^36.
fn select_next<R: Source, W: Sink>(
    alloc: Global,
    source: &mut R,
    number: u64,
    limit: u64,
    selector: &Selector<'_>,
    writer: &mut W,
) -> Result<Selected, ToolFault>
    requires { limit ≤ most_bytes }
    ensures { SelectsNext (task_of selector.now limit) number
        (record { source = R.seen source.old; sink = W.seen writer.old })
        (record { source = R.seen source.new; sink = W.seen writer.new }) result }
{
    match select(alloc, source, limit, writer, selector) {
        Ok(selected) => Ok(selected),
        Err(SelectFault::Reads(fault)) => Err(ToolFault::Fastx {
            source: number,
            fault,
        }),
        Err(SelectFault::Write) => Err(ToolFault::Write),
    }
}
