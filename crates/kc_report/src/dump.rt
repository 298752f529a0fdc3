//! The dump: the words of a tally with their counts.
ghost use Rattle.std.specs.Prelude.{◌≡◌, ◌≤◌, ◌<◌, ◌+◌, ◌^◌, ◌++◌, length, OnOk, OnErr, IfErr, All, true, false};
ghost use Rattle.kc_kmer.specs.Word.{text};
ghost use Rattle.kc_io.specs.Sinks.{Writes, HandsOver, HasBegun, Drains};
ghost use Rattle.kc_report.specs.declared.report_faults.ReportFault.TheVariants.{Write};
ghost use Rattle.kc_report.specs.Dumping.{dump_text, row_text, row_in_columns, row_in_lines, is_shown, shown_text};

use crate::letters::{LETTERS_SIZE, letters_of};
use crate::report_faults::ReportFault;
use crate::row_pieces::hand_over_in_parallel;
use kc_io::{BLOCK_SIZE, Block, Failed, NUMBER_SIZE, Sink, write_all};
use kc_kmer::{K, Word};
use kc_tally::{Row, Rows, Tally};
use std::alloc::Global;
use std::thread::Threads;

/// The greatest bound of a dump; no count is greater.
pub const MAX_COUNT: u64 = 1 << 62;

/// The form of a dump, and which rows it prints.
#[derive(Clone, Copy, Debug, PartialEq, Eq)]
pub struct Dump {
    /// A row is one line, `WORD COUNT`; otherwise it is two, `>COUNT` and `WORD`.
    pub column: bool,
    /// In columns, a tab replaces the blank.
    pub tab: bool,
    /// The least count that is printed.
    pub lower: u64,
    /// The greatest count that is printed.
    pub upper: u64,
}

impl Dump {
    /// A dump of all rows, in two lines each.
    pub fn in_lines() -> Dump
        ensures { result ≡ record { column = false; tab = false; lower = 0; upper = 2 ^ 62 } }
    {
        Dump {
            column: false,
            tab: false,
            lower: 0,
            upper: MAX_COUNT,
        }
    }

    /// A dump of all rows, in columns with a blank between them.
    pub fn in_columns() -> Dump
        ensures { result ≡ record { column = true; tab = false; lower = 0; upper = 2 ^ 62 } }
    {
        Dump {
            column: true,
            ..Dump::in_lines()
        }
    }

    /// This dump, of the rows with a count from `lower` to `upper`, inclusive.
    pub fn with_bounds(self, lower: u64, upper: u64) -> Dump
        ensures { result ≡ record self { lower = lower; upper = upper } }
    {
        Dump {
            lower,
            upper,
            ..self
        }
    }
}

/// Writes the dump of a tally. It takes no memory.
///
/// # Errors
/// `Write` if the writer failed or took no byte. It took a beginning of the dump.
pub fn write_dump<W: Sink>(writer: &mut W, tally: &Tally, dump: &Dump) -> Result<(), ReportFault>
    ensures written { Writes (W.seen writer.old) (W.seen writer.new) result
        (dump_text tally.now.k dump.now tally.now.rows) }
    ensures fault { IfErr result (λ fault. fault ≡ Write) }
{
    Ok(dump_by_blocks(writer, tally, dump)?)
}

/// Writes the dump of a tally as `write_dump` does. So many threads make the texts of neighbouring rows in parallel,
/// each at most 8 MB at a time, while this thread writes the texts that they made before. If memory for that is
/// refused, the text is made without it.
///
/// # Errors
/// `Write` if the writer failed or took no byte. It took a beginning of the dump.
pub fn write_dump_in_parallel<W: Sink, H: Threads + Sync>(
    rt: &H,
    alloc: Global,
    threads: u32,
    writer: &mut W,
    tally: &Tally,
    dump: &Dump,
) -> Result<(), ReportFault>
    ensures written { Writes (W.seen writer.old) (W.seen writer.new) result
        (dump_text tally.now.k dump.now tally.now.rows) }
    ensures fault { IfErr result (λ fault. fault ≡ Write) }
{
    if threads < 2 {
        return write_dump(writer, tally, dump);
    }
    Ok(dump_by_pieces(rt, alloc, threads, writer, tally, dump)?)
}

// Writes the dump of a tally, a block at a time.
fn dump_by_blocks<W: Sink>(writer: &mut W, tally: &Tally, dump: &Dump) -> Result<(), Failed>
    ensures { Writes (W.seen writer.old) (W.seen writer.new) result (dump_text tally.now.k dump.now tally.now.rows) }
{
    hand_over_rows(writer, tally.rows(), tally.k(), dump)?;
    writer.flush()
}

// Writes the dump of a tally with the text of its rows made by so many threads. Condition: at least one.
fn dump_by_pieces<W: Sink, H: Threads + Sync>(
    rt: &H,
    alloc: Global,
    threads: u32,
    writer: &mut W,
    tally: &Tally,
    dump: &Dump,
) -> Result<(), Failed>
    requires { 1 ≤ threads }
    ensures { Writes (W.seen writer.old) (W.seen writer.new) result (dump_text tally.now.k dump.now tally.now.rows) }
{
    hand_over_in_parallel(rt, alloc, threads, writer, tally, dump)?;
    writer.flush()
}

/// Hands over the dump of the rows, a block at a time. Condition: their words have k bases.
pub(crate) fn hand_over_rows<W: Sink>(
    writer: &mut W,
    rows: Rows<'_>,
    k: K,
    dump: &Dump,
) -> Result<(), Failed>
    requires below { All (λ row. row.word < 4 ^ k) rows }
    ensures { HandsOver (W.seen writer.old) (W.seen writer.new) result (dump_text k dump.now rows.entry) }
{
    let mut block = Block::new();
    for row in rows {
        put_row(writer, &mut block, k, dump, row)?;
    }
    write_all(writer, block.as_slice())
}

// Appends the row to the block, if it is printed. A block without room goes to the writer first.
#[inline(always)]
pub(crate) fn put_row<W: Sink>(
    writer: &mut W,
    block: &mut Block,
    k: K,
    dump: &Dump,
    row: Row,
) -> Result<(), Failed>
    requires below { row.word < 4 ^ k }
    ensures ok { OnOk result (Drains (W.seen writer.old) (W.seen writer.new)
        (block.old ++ shown_text k dump.now row) block.new) }
    ensures few { OnOk result (length block.old ≤ BLOCK_SIZE → length block.new ≤ BLOCK_SIZE) }
    ensures err { OnErr result (HasBegun (W.seen writer.old) (W.seen writer.new) block.old) }
{
    if is_shown(dump, row) {
        block.make_room(writer, ROW_SIZE)?;
        push_row(block, k, dump, row);
    }
    Ok(())
}

// Whether the row's count is within the bounds.
#[inline(always)]
fn is_shown(dump: &Dump, row: Row) -> bool
    ensures { result ≡ is_shown dump.now row }
{
    dump.lower <= row.count && row.count <= dump.upper
}

// The most letters of a word: the greatest length that a `K` can be.
pub(crate) const WORD_SIZE: usize = 31;

// The most bytes of a row: the word, the count, and at most three bytes of the form.
pub(crate) const ROW_SIZE: usize = WORD_SIZE + NUMBER_SIZE + 3;

// Appends a row of the dump to the block, in the form that was asked for.
#[inline(always)]
fn push_row(block: &mut Block, k: K, dump: &Dump, row: Row)
    requires room { length block.old + ROW_SIZE ≤ BLOCK_SIZE }
    requires below { row.word < 4 ^ k }
    ensures pushed { block.new ≡ block.old ++ row_text k dump.now row }
    ensures few { length block.new ≤ BLOCK_SIZE }
{
    if dump.column {
        push_columns(block, k, dump.tab, row);
    } else {
        push_lines(block, k, row);
    }
}

// Appends a word and its count to the block, in one line.
#[inline(always)]
pub(crate) fn push_columns(block: &mut Block, k: K, tab: bool, row: Row)
    requires room { length block.old + ROW_SIZE ≤ BLOCK_SIZE }
    requires below { row.word < 4 ^ k }
    ensures pushed { block.new ≡ block.old ++ row_in_columns k tab row }
    ensures few { length block.new ≤ BLOCK_SIZE }
{
    push_word(block, k, Word(row.word));
    if tab {
        block.push(b"\t");
    } else {
        block.push(b" ");
    }
    block.push_number(row.count);
    block.push(b"\n");
}

// Appends `>COUNT` and then the word to the block, in two lines.
#[inline(always)]
fn push_lines(block: &mut Block, k: K, row: Row)
    requires room { length block.old + ROW_SIZE ≤ BLOCK_SIZE }
    requires below { row.word < 4 ^ k }
    ensures pushed { block.new ≡ block.old ++ row_in_lines k row }
    ensures few { length block.new ≤ BLOCK_SIZE }
{
    block.push(b">");
    block.push_number(row.count);
    block.push(b"\n");
    push_word(block, k, Word(row.word));
    block.push(b"\n");
}

// Appends the letters of a word to the block.
#[inline(always)]
pub(crate) fn push_word(block: &mut Block, k: K, word: Word)
    requires room { length block.old + LETTERS_SIZE ≤ BLOCK_SIZE }
    requires below { word.0 < 4 ^ k }
    ensures pushed { block.new ≡ block.old ++ text k word.0 }
    ensures short { length block.new ≤ length block.old + WORD_SIZE }
{
    let bases = k.get();
    // the codes of the word in the highest bits, so its letters come first
    let letters = letters_of(word.0 << (64 - 2 * bases));
    block.push_front(&letters, bases as usize);
}
