//! Queries: the counts of asked words.
ghost use Rattle.std.specs.Prelude.{◌≡◌, ◌+◌, ◌≤◌, ◌<◌, ◌^◌, ◌++◌, length, map, All, IfErr, IfOk, MatchOption};
ghost use Rattle.std.specs.Prelude.{string_bytes};
ghost use Rattle.kc_io.specs.Sinks.{Writes};
ghost use Rattle.kc_kmer.specs.Word.{text, form};
ghost use Rattle.kc_report.specs.AskedWords.{GivesCountsOf};
ghost use Rattle.kc_report.specs.TableReading.{RefusesTable};
ghost use Rattle.kc_report.specs.Querying.{IsAskable, IsFirstBadWord, query_line, query_text, Answers};

use crate::asked_words::AskedWords;
use crate::dump::{ROW_SIZE, push_columns};
use crate::report_faults::ReportFault;
use crate::table_reading::TableReading;
use kc_io::{BLOCK_SIZE, Block, Failed, Sink, Source, write_out};
use kc_kmer::{K, Word, canonical, pack};
use kc_tally::{GrowingRows, Row, Tally};
use std::alloc::Global;

/// Writes the counts of the asked words, a line `WORD COUNT` for each, in the order asked: the word in upper case, in
/// its canonical form if both strands were counted, and 0 if it does not occur. It takes no memory.
///
/// # Errors
/// `BadWord` with the number of the first word, from 1, that doesn't have k bases of `ACGTacgt`; then nothing was
/// written. `Write` if the writer failed or took no byte. It took a beginning of the text.
pub fn query<W: Sink>(writer: &mut W, tally: &Tally, words: &[String]) -> Result<(), ReportFault>
    ensures { Answers (W.seen writer.old) (W.seen writer.new) tally.now (map string_bytes words.now) result }
{
    if let Some(number) = first_bad_word(words, tally.k()) {
        return Err(ReportFault::BadWord(number));
    }
    Ok(counts_by_blocks(writer, tally, words)?)
}

// The number of the first word, from 1, that doesn't have k bases.
fn first_bad_word(words: &[String], k: K) -> Option<u64>
    ensures { MatchOption result (All (IsAskable k) (map string_bytes words.now)) (IsFirstBadWord k
        (map string_bytes words.now)) }
{
    for (i, word) in words.iter().enumerate() {
        if pack(word.as_bytes(), k).is_none() {
            return Some(i as u64 + 1);
        }
    }
    None
}

// Writes the lines of the words, a block at a time.
fn counts_by_blocks<W: Sink>(writer: &mut W, tally: &Tally, words: &[String]) -> Result<(), Failed>
    requires { All (IsAskable tally.now.k) (map string_bytes words.now) }
    ensures { Writes (W.seen writer.old) (W.seen writer.new) result (query_text tally.now
        (map string_bytes words.now)) }
{
    let mut block = Block::new();
    for word in words {
        block.make_room(writer, ROW_SIZE)?;
        push_answer(&mut block, tally, word.as_bytes());
    }
    write_out(writer, block.as_slice())
}

// Appends an asked word, in the form under which it counts, and its count to the block.
fn push_answer(block: &mut Block, tally: &Tally, asked: &[u8])
    requires room { length block.old + ROW_SIZE ≤ BLOCK_SIZE }
    requires askable { IsAskable tally.now.k asked.now }
    ensures { block.new ≡ block.old ++ query_line tally.now asked.now }
{
    let k = tally.k();
    if let Some(word) = pack(asked, k) {
        let word = counted_form(word, k, tally.both());
        let count = tally.count_of(word.0);
        push_columns(
            block,
            k,
            false,
            Row {
                word: word.0,
                count,
            },
        );
    }
}

// The form under which a word counts.
pub(crate) fn counted_form(word: Word, k: K, both: bool) -> Word
    requires { word.0 < 4 ^ k }
    ensures below { result.0 < 4 ^ k }
    ensures formed { text k result.0 ≡ form both (text k word.0) }
{
    if both { canonical(word, k) } else { word }
}

/// Takes all bytes of the source, a table text, and returns the rows of those asked words that have k bases, as a
/// tally. It keeps these rows, the words, one block and one line of the text, and what the decompression of gzip keeps.
/// `query` writes the same for it as for the whole tally.
///
/// # Errors
/// Those of `read_table`.
pub fn read_asked<R: Source>(
    alloc: Global,
    reader: &mut R,
    limit: u64,
    words: &[String],
) -> Result<Tally, ReportFault>
    ensures counts { IfOk result (GivesCountsOf (R.seen reader.old) (R.seen reader.new) limit
        (map string_bytes words.now)) }
    ensures fault { IfErr result (RefusesTable (R.seen reader.old) (R.seen reader.new) limit) }
{
    let mut reading = TableReading::open(alloc, reader, limit)?;
    let mut asked = AskedWords::of(alloc, words, reading.k(), reading.both())?;
    let mut rows = GrowingRows::new(alloc);
    'rows: while let Some(row) = reading.next_row(reader)? {
        if asked.has(row.word) {
            rows.push(row)?;
        }
    }
    Ok(rows.into_tally(reading.k(), reading.both())?)
}
