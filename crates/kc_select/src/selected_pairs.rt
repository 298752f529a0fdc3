//! From the reads of two sources to the texts of the selected pairs.
ghost use Rattle.std.specs.Prelude.{◌≡◌, ◌≤◌, ◌++◌, IfOk, OnOk, OnErr};
ghost use Rattle.kc_io.specs.Sinks.{HasBegun, Drains};
ghost use Rattle.kc_fastx.specs.Parsing.{most_bytes};
ghost use Rattle.kc_select.specs.Pairs.{each, pair_of, keeps_pair, counts_of_read, text_of_both};
ghost use Rattle.kc_select.specs.SelectingPairs.{SelectsInterleaved};
ghost use Rattle.kc_select.specs.PairReaders.{answer_after, text_where_kept};

use crate::pair_fault::PairFault;
use crate::pair_reading::PairReading;
use crate::pair_selection::PairSelection;
use crate::selected_text::put_kept;
use crate::selection_counts::{Selected, SelectionCounts};
use crate::sides::{Side, Sides};
use kc_fastx::{FastxFault, SeqRead, Source};
use kc_io::{Block, Failed, Sink, write_out};
use std::alloc::Global;

/// Writes the pairs of reads that the selection keeps to one sink, whole and in order: each read of the first source,
/// followed by its mate of the second one, as `select` writes them. Record n of the first source and record n of the
/// second are a pair. At most as many bytes of each source are taken as the selection's limit. Returns how many bytes
/// were taken of both, and the numbers of both reads of each pair. Condition: the limit is at most 2^36.
///
/// # Errors
/// `Reads` with the side whose reads met a fault, the first one if both meet one at the same record. `Unpaired` with
/// the number of a record that has no mate. The selected pairs before it were written and flushed. `Write` if the
/// writer failed or took no byte. It took a beginning of the text of the selected ones.
pub fn select_into_one<S: Source, T: Source, W: Sink>(
    alloc: Global,
    first: &mut S,
    second: &mut T,
    writer: &mut W,
    selection: &PairSelection<'_, '_>,
) -> Result<Selected, PairFault>
    requires { selection.now.limit ≤ most_bytes }
    ensures { SelectsInterleaved selection.now
        (record { first = S.seen first.old; second = T.seen second.old })
        (record { first = S.seen first.new; second = T.seen second.new })
        (W.seen writer.old) (W.seen writer.new) result }
{
    // for the proof: facts about a length
    let _bases = selection.selector().k().get();
    let mut block = Block::new();
    let mut counts = SelectionCounts::none();
    let Ok(mut reading) = PairReading::new(alloc, selection.limit()) else {
        let refused = PairFault::Reads(Side::First, FastxFault::Memory);
        return answer_after(write_out(writer, block.as_slice()), Err(refused));
    };
    'pairs: loop {
        match reading.next_pair(first, second, counts.reads / 2 + 1) {
            Ok(Some(reads)) => {
                let judged = put_in_one(writer, &mut block, selection, &reading, &reads)?;
                counts = counts.plus(judged.first).plus(judged.second);
            }
            Ok(None) => {
                let bytes = reading.byte_count();
                let selected = Selected { bytes, counts };
                return answer_after(write_out(writer, block.as_slice()), Ok(selected));
            }
            Err(fault) => return answer_after(write_out(writer, block.as_slice()), Err(fault)),
        }
    }
}

// Appends the text of the pair to the block, if the selection keeps it, and returns the numbers of its reads.
fn put_in_one<W: Sink>(
    writer: &mut W,
    block: &mut Block,
    selection: &PairSelection<'_, '_>,
    reading: &PairReading,
    reads: &Sides<SeqRead>,
) -> Result<Sides<SelectionCounts>, Failed>
    ensures ok { OnOk result (Drains (W.seen writer.old) (W.seen writer.new) (block.old
        ++ text_where_kept selection.now.selector (λ p. text_of_both selection.now.selector p)
        (pair_of reading.now.titles reads.now)) block.new) }
    ensures counts { IfOk result (λ counts. counts ≡ each (λ read. counts_of_read selection.now.selector.by
        (keeps_pair selection.now.selector reads.now.first reads.now.second) read) reads.now) }
    ensures err { OnErr result (HasBegun (W.seen writer.old) (W.seen writer.new) (block.old
        ++ text_where_kept selection.now.selector (λ p. text_of_both selection.now.selector p)
        (pair_of reading.now.titles reads.now))) }
{
    let judged = selection.judge(reads);
    if judged.is_kept {
        put_mates(writer, block, selection, reading, reads)?;
    }
    Ok(judged.counts)
}

// Appends the texts of both records of a pair that is kept to the block.
fn put_mates<W: Sink>(
    writer: &mut W,
    block: &mut Block,
    selection: &PairSelection<'_, '_>,
    reading: &PairReading,
    reads: &Sides<SeqRead>,
) -> Result<(), Failed>
    ensures ok { OnOk result (Drains (W.seen writer.old) (W.seen writer.new)
        (block.old ++ text_of_both selection.now.selector (pair_of reading.now.titles reads.now)) block.new) }
    ensures err { OnErr result (HasBegun (W.seen writer.old) (W.seen writer.new)
        (block.old ++ text_of_both selection.now.selector (pair_of reading.now.titles reads.now))) }
{
    let selector = selection.selector();
    put_kept(writer, block, selector, reading.first_title(), &reads.first)?;
    let title = reading.second_title();
    put_kept(writer, block, selector, title, &reads.second)
}

// The result if the contents of the blocks were written, otherwise that a writer failed.
pub(crate) fn answer_after(
    written: Result<(), Failed>,
    answer: Result<Selected, PairFault>,
) -> Result<Selected, PairFault>
    ensures { result ≡ answer_after written answer }
{
    match written {
        Ok(()) => answer,
        Err(Failed) => Err(PairFault::Write),
    }
}
