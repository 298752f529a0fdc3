//! The lines of a spectrum of copy numbers, written from its cells.
ghost use Rattle.std.specs.Prelude.{◌≡◌, ◌+◌, ◌*◌, ◌≤◌, ◌<◌, ◌++◌, length, OnOk, OnErr};
ghost use Rattle.kc_io.specs.Sinks.{Writes, HasBegun, Drains};
ghost use Rattle.kc_combine.specs.Compared.{copies_line};
ghost use Rattle.kc_combine.specs.CopySpectra.{row_text, rows_text};

use kc_io::{BLOCK_SIZE, Block, Failed, NUMBER_SIZE, Sink, write_out};

// Writes the lines of 0 to 5 copies, given so many cells for each, a block at a time.
pub(crate) fn write_rows<W: Sink>(writer: &mut W, cells: &[u64], width: usize) -> Result<(), Failed>
    requires { length cells.now ≡ 6 * width }
    ensures { Writes (W.seen writer.old) (W.seen writer.new) result (rows_text width cells.now) }
{
    let mut block = Block::new();
    for copies in 0..6 {
        let start = copies * width;
        put_row(
            writer,
            &mut block,
            copies as u64,
            &cells[start..start + width],
        )?;
    }
    write_out(writer, block.as_slice())
}

// Appends the lines of these copies to the block, given how many words have each count from 0 on. A block without room
// goes to the writer first.
fn put_row<W: Sink>(
    writer: &mut W,
    block: &mut Block,
    copies: u64,
    words: &[u64],
) -> Result<(), Failed>
    ensures ok { OnOk result (Drains (W.seen writer.old) (W.seen writer.new)
        (block.old ++ row_text copies words.now) block.new) }
    ensures err { OnErr result (HasBegun (W.seen writer.old) (W.seen writer.new)
        (block.old ++ row_text copies words.now)) }
{
    for count in 0..words.len() {
        put_line(writer, block, copies, count as u64, words[count])?;
    }
    Ok(())
}

// The most bytes of a line: three numbers, two tabs and the end.
const LINE_SIZE: usize = 3 * NUMBER_SIZE + 3;

// Appends the line of these copies and this count to the block, if words have both. A block without room goes to the
// writer first.
fn put_line<W: Sink>(
    writer: &mut W,
    block: &mut Block,
    copies: u64,
    count: u64,
    words: u64,
) -> Result<(), Failed>
    ensures ok { OnOk result (Drains (W.seen writer.old) (W.seen writer.new)
        (block.old ++ copies_line copies count words) block.new) }
    ensures err { OnErr result (HasBegun (W.seen writer.old) (W.seen writer.new) block.old) }
{
    if words > 0 {
        block.make_room(writer, LINE_SIZE)?;
        push_line(block, copies, count, words);
    }
    Ok(())
}

// Appends a line to the block: copies, a count, and how many words have both.
fn push_line(block: &mut Block, copies: u64, count: u64, words: u64)
    requires room { length block.old + LINE_SIZE ≤ BLOCK_SIZE }
    requires some { 0 < words }
    ensures { block.new ≡ block.old ++ copies_line copies count words }
{
    block.push_number(copies);
    block.push(b"\t");
    block.push_number(count);
    block.push(b"\t");
    block.push_number(words);
    block.push(b"\n");
}
