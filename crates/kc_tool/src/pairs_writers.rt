//! Where selected pairs of reads are written.
use kc_io::{Sink, Source};
use kc_select::{PairFault, PairSelection, Selected, Sides, select_into_one, select_into_two};
use std::alloc::Global;

/// How selected pairs are written to a writer of type `W`.
pub(crate) trait WritesPairs<W> {
    ghost use Rattle.std.specs.Prelude.{Result, ◌≤◌};
    ghost use Rattle.kc_fastx.specs.Parsing.{most_bytes};
    ghost use Rattle.kc_io.specs.Sources.{Seen};
    ghost use Rattle.kc_select.specs.SelectingPairs.{PairsTask};
    ghost use Rattle.kc_select.specs.declared.pair_fault.PairFault.{PairFault};
    ghost use Rattle.kc_select.specs.declared.selection_counts.Selected.{Selected};
    ghost use Rattle.kc_select.specs.declared.sides.Sides.{Sides};

    // its effect: the sources and the writer before it, and after it
    ghost writes: { Self → W → W → PairsTask → Sides Seen → Sides Seen → Result Selected PairFault → Type 0 };

    /// Selects the pairs of two sources. Condition: each may give at most 2^36 bytes.
    fn select<S: Source, T: Source>(
        &self,
        alloc: Global,
        first: &mut S,
        second: &mut T,
        writer: &mut W,
        selection: &PairSelection<'_, '_>,
    ) -> Result<Selected, PairFault>
        requires { selection.now.limit ≤ most_bytes }
        ensures { writes self.now writer.old writer.new selection.now
            (record { first = S.seen first.old; second = T.seen second.old })
            (record { first = S.seen first.new; second = T.seen second.new }) result };
}

/// Both reads of each pair, one after the other.
#[derive(Clone, Copy, Debug)]
pub(crate) struct Interleaved;

impl<W: Sink> WritesPairs<W> for Interleaved {
    ghost use Rattle.kc_select.specs.SelectingPairs.{SelectsInterleaved};

    ghost writes = { λ _ old new task before after result.
        SelectsInterleaved task before after (W.seen old) (W.seen new) result };

    fn select<S: Source, T: Source>(
        &self,
        alloc: Global,
        first: &mut S,
        second: &mut T,
        writer: &mut W,
        selection: &PairSelection<'_, '_>,
    ) -> Result<Selected, PairFault> {
        select_into_one(alloc, first, second, writer, selection)
    }
}

/// The first read of each pair to one output, and the second one to another.
#[derive(Clone, Copy, Debug)]
pub(crate) struct Apart;

impl<W: Sink> WritesPairs<Sides<W>> for Apart {
    ghost use Rattle.kc_select.specs.Pairs.{each};
    ghost use Rattle.kc_select.specs.SelectingPairs.{SelectsApart};

    ghost writes = { λ _ old new task before after result.
        SelectsApart task before after (each W.seen old) (each W.seen new) result };

    fn select<S: Source, T: Source>(
        &self,
        alloc: Global,
        first: &mut S,
        second: &mut T,
        writers: &mut Sides<W>,
        selection: &PairSelection<'_, '_>,
    ) -> Result<Selected, PairFault> {
        select_into_two(alloc, first, second, writers, selection)
    }
}
