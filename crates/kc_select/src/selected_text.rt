//! From the reads of a source to the text of the selected ones.
ghost use Rattle.std.specs.Prelude.{◌≡◌, ◌≤◌, ◌++◌, ◌∷◌, [], IfOk, IfErr, OnOk, OnErr};
ghost use Rattle.kc_io.specs.Sinks.{HasBegun, Drains, Writes};
ghost use Rattle.kc_fastx.specs.Parsing.{most_bytes};
ghost use Rattle.kc_fastx.specs.Titles.{record_of};
ghost use Rattle.kc_select.specs.Counts.{counts_of};
ghost use Rattle.kc_select.specs.Texts.{text_of_kept, text_of_selected};
ghost use Rattle.kc_select.specs.Selecting.{Selects, EndsWith, task_of};
ghost use Rattle.kc_select.specs.declared.select_fault.SelectFault.TheVariants.{Write};

use crate::count_walk::CountWalk;
use crate::profile_text::put_profile;
use crate::record_texts::put_record;
use crate::select_fault::SelectFault;
use crate::selection_counts::{Selected, SelectionCounts};
use crate::selector::Selector;
use kc_fastx::{FastxFault, Reading, SeqRead, Source};
use kc_io::{Block, Failed, Sink, write_out};
use std::alloc::Global;

/// Writes the reads of the source that the selection keeps, whole and in order, each with its title: FASTA as FASTA,
/// and FASTQ as FASTQ, with sequence and quality in one line each; or the profile of each instead. No byte of a read is
/// written before the read was judged. At most `limit` bytes are taken of the source. Returns how many bytes were
/// taken, and the numbers of the reads. Condition: the limit is at most 2^36.
///
/// # Errors
/// `Reads` with the fault that the reads met. The selected ones before it were written and flushed. `Write` if the
/// writer failed or took no byte. It took a beginning of the text of the selected ones.
pub fn select<S: Source, W: Sink>(
    alloc: Global,
    source: &mut S,
    limit: u64,
    writer: &mut W,
    selector: &Selector<'_>,
) -> Result<Selected, SelectFault>
    requires { limit ≤ most_bytes }
    ensures { Selects (task_of selector.now limit)
        (record { source = S.seen source.old; sink = W.seen writer.old })
        (record { source = S.seen source.new; sink = W.seen writer.new }) result }
{
    // for the proof: facts about a length
    let _bases = selector.k().get();
    let mut block = Block::new();
    let mut counts = SelectionCounts::none();
    let Ok(mut reading) = Reading::new(alloc, limit) else {
        return Err(end_with(writer, &block, FastxFault::Memory));
    };
    let mut title = Vec::new(alloc);
    'reads: loop {
        match reading.next_titled(alloc, source, &mut title) {
            Ok(Some(read)) => {
                let judged = put_selected(writer, &mut block, selector, &title, &read)?;
                counts = counts.plus(judged);
            }
            Ok(None) => {
                let bytes = reading.byte_count();
                return finish(writer, &block, bytes, counts);
            }
            Err(fault) => return Err(end_with(writer, &block, fault)),
        }
    }
}

// Appends the text of the record to the block, if the selection keeps its read, and returns the numbers of the read.
fn put_selected<W: Sink>(
    writer: &mut W,
    block: &mut Block,
    selector: &Selector<'_>,
    title: &[u8],
    read: &SeqRead,
) -> Result<SelectionCounts, Failed>
    ensures ok { OnOk result (Drains (W.seen writer.old) (W.seen writer.new)
        (block.old ++ text_of_selected selector.now.tally selector.now.rule (record_of title.now read.now)) block.new) }
    ensures counts { IfOk result (λ counts. counts ≡ counts_of selector.now.tally selector.now.rule (read.now ∷ [])) }
    ensures err { OnErr result (HasBegun (W.seen writer.old) (W.seen writer.new)
        (block.old ++ text_of_selected selector.now.tally selector.now.rule (record_of title.now read.now))) }
{
    let counted = selector.count_words(read);
    let is_kept = counted.is_kept(selector.selection());
    if is_kept {
        put_kept(writer, block, selector, title, read)?;
    }
    Ok(counted.of_one(is_kept))
}

// Appends the text of a record whose read is kept to the block: the record itself, or its profile.
pub(crate) fn put_kept<W: Sink>(
    writer: &mut W,
    block: &mut Block,
    selector: &Selector<'_>,
    title: &[u8],
    read: &SeqRead,
) -> Result<(), Failed>
    ensures ok { OnOk result (Drains (W.seen writer.old) (W.seen writer.new)
        (block.old ++ text_of_kept selector.now.tally selector.now.rule (record_of title.now read.now)) block.new) }
    ensures err { OnErr result (HasBegun (W.seen writer.old) (W.seen writer.new)
        (block.old ++ text_of_kept selector.now.tally selector.now.rule (record_of title.now read.now))) }
{
    if !selector.selection().is_profiled() {
        return put_record(writer, block, title, read);
    }
    let mut walk = CountWalk::new(selector.index(), read, selector.rule());
    put_profile(writer, block, &mut walk, title)
}

// Writes the block, and returns how many bytes came and what was counted, or that the writer failed.
fn finish<W: Sink>(
    writer: &mut W,
    block: &Block,
    bytes: u64,
    counts: SelectionCounts,
) -> Result<Selected, SelectFault>
    ensures written { Writes (W.seen writer.old) (W.seen writer.new) result block.now }
    ensures told { IfOk result (λ selected. selected ≡ record { bytes = bytes; counts = counts }) }
    ensures fault { IfErr result (λ fault. fault ≡ Write) }
{
    write_out(writer, block.as_slice())?;
    Ok(Selected { bytes, counts })
}

// Writes the block, and returns this fault of the reads, or that the writer failed.
fn end_with<W: Sink>(writer: &mut W, block: &Block, fault: FastxFault) -> SelectFault
    ensures { EndsWith (W.seen writer.old) (W.seen writer.new) block.now fault result }
{
    match write_out(writer, block.as_slice()) {
        Ok(()) => SelectFault::Reads(fault),
        Err(Failed) => SelectFault::Write,
    }
}
