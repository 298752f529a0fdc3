//! From the reads of two sources to two texts: that of the first reads of the selected pairs, and that of their mates.
ghost use Rattle.std.specs.Prelude.{◌≡◌, ◌≤◌, ◌++◌, IfOk, OnOk, OnErr};
ghost use Rattle.kc_fastx.specs.Parsing.{most_bytes};
ghost use Rattle.kc_select.specs.Pairs.{each, pair_of, keeps_pair, counts_of_read, text_by};
ghost use Rattle.kc_select.specs.SelectingPairs.{SelectsApart, HaveWritten, HaveBegun};
ghost use Rattle.kc_select.specs.PairReaders.{Drain, text_where_kept};

use crate::pair_fault::PairFault;
use crate::pair_reading::PairReading;
use crate::pair_selection::PairSelection;
use crate::selected_pairs::answer_after;
use crate::selected_text::put_kept;
use crate::selection_counts::{Selected, SelectionCounts};
use crate::sides::{Side, Sides};
use kc_fastx::{FastxFault, SeqRead, Source};
use kc_io::{Block, Failed, Sink, write_out};
use std::alloc::Global;

/// Writes the pairs of reads that the selection keeps as `select_into_one` does, but to two sinks: the reads of the
/// first source to the first sink, and their mates to the second. Condition: the limit is at most 2^36.
///
/// # Errors
/// Those of `select_into_one`. If one writer failed, it took a beginning of its text, and the other one a prefix of its
/// own.
pub fn select_into_two<S: Source, T: Source, W: Sink>(
    alloc: Global,
    first: &mut S,
    second: &mut T,
    writers: &mut Sides<W>,
    selection: &PairSelection<'_, '_>,
) -> Result<Selected, PairFault>
    requires { selection.now.limit ≤ most_bytes }
    ensures { SelectsApart selection.now
        (record { first = S.seen first.old; second = T.seen second.old })
        (record { first = S.seen first.new; second = T.seen second.new })
        (each W.seen writers.old) (each W.seen writers.new) result }
{
    // for the proof: facts about a length
    let _bases = selection.selector().k().get();
    let first_block = Block::new();
    let second_block = Block::new();
    let mut blocks = Sides {
        first: first_block,
        second: second_block,
    };
    let mut counts = SelectionCounts::none();
    let Ok(mut reading) = PairReading::new(alloc, selection.limit()) else {
        let refused = PairFault::Reads(Side::First, FastxFault::Memory);
        return answer_after(write_both(writers, &blocks), Err(refused));
    };
    'pairs: loop {
        match reading.next_pair(first, second, counts.reads / 2 + 1) {
            Ok(Some(reads)) => {
                let judged = put_in_two(writers, &mut blocks, selection, &reading, &reads)?;
                counts = counts.plus(judged.first).plus(judged.second);
            }
            Ok(None) => {
                let bytes = reading.byte_count();
                let selected = Selected { bytes, counts };
                return answer_after(write_both(writers, &blocks), Ok(selected));
            }
            Err(fault) => return answer_after(write_both(writers, &blocks), Err(fault)),
        }
    }
}

// Appends the texts of the pair to the blocks, if the selection keeps it, and returns the numbers of its reads.
fn put_in_two<W: Sink>(
    writers: &mut Sides<W>,
    blocks: &mut Sides<Block>,
    selection: &PairSelection<'_, '_>,
    reading: &PairReading,
    reads: &Sides<SeqRead>,
) -> Result<Sides<SelectionCounts>, Failed>
    ensures ok { OnOk result (Drain (each W.seen writers.old) (each W.seen writers.new) (blocks.old.first
        ++ text_where_kept selection.now.selector (λ p. text_by selection.now.selector p.first)
        (pair_of reading.now.titles reads.now)) (blocks.old.second
        ++ text_where_kept selection.now.selector (λ p. text_by selection.now.selector p.second)
        (pair_of reading.now.titles reads.now)) blocks.new) }
    ensures counts { IfOk result (λ counts. counts ≡ each (λ read. counts_of_read selection.now.selector.by
        (keeps_pair selection.now.selector reads.now.first reads.now.second) read) reads.now) }
    ensures err { OnErr result (HaveBegun (each W.seen writers.old) (each W.seen writers.new) (blocks.old.first
        ++ text_where_kept selection.now.selector (λ p. text_by selection.now.selector p.first)
        (pair_of reading.now.titles reads.now)) (blocks.old.second
        ++ text_where_kept selection.now.selector (λ p. text_by selection.now.selector p.second)
        (pair_of reading.now.titles reads.now))) }
{
    let judged = selection.judge(reads);
    if judged.is_kept {
        put_apart(writers, blocks, selection, reading, reads)?;
    }
    Ok(judged.counts)
}

// Appends the texts of both records of a pair that is kept to the blocks.
fn put_apart<W: Sink>(
    writers: &mut Sides<W>,
    blocks: &mut Sides<Block>,
    selection: &PairSelection<'_, '_>,
    reading: &PairReading,
    reads: &Sides<SeqRead>,
) -> Result<(), Failed>
    ensures ok { OnOk result (Drain (each W.seen writers.old) (each W.seen writers.new)
        (blocks.old.first ++ text_by selection.now.selector (pair_of reading.now.titles reads.now).first)
        (blocks.old.second ++ text_by selection.now.selector (pair_of reading.now.titles reads.now).second)
        blocks.new) }
    ensures err { OnErr result (HaveBegun (each W.seen writers.old) (each W.seen writers.new)
        (blocks.old.first ++ text_by selection.now.selector (pair_of reading.now.titles reads.now).first)
        (blocks.old.second ++ text_by selection.now.selector (pair_of reading.now.titles reads.now).second)) }
{
    let selector = selection.selector();
    put_kept(
        &mut writers.first,
        &mut blocks.first,
        selector,
        reading.first_title(),
        &reads.first,
    )?;
    put_kept(
        &mut writers.second,
        &mut blocks.second,
        selector,
        reading.second_title(),
        &reads.second,
    )
}

// Writes both blocks.
fn write_both<W: Sink>(writers: &mut Sides<W>, blocks: &Sides<Block>) -> Result<(), Failed>
    ensures ok { OnOk result (HaveWritten (each W.seen writers.old) (each W.seen writers.new)
        blocks.now.first blocks.now.second) }
    ensures err { OnErr result (HaveBegun (each W.seen writers.old) (each W.seen writers.new)
        blocks.now.first blocks.now.second) }
{
    write_out(&mut writers.first, blocks.first.as_slice())?;
    write_out(&mut writers.second, blocks.second.as_slice())
}
