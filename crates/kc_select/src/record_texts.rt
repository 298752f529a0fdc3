//! The text of a record, written by way of a block.
ghost use Rattle.std.specs.Prelude.{◌≡◌, ◌++◌, OnOk, OnErr};
ghost use Rattle.kc_io.specs.Sinks.{HasBegun, Drains};
ghost use Rattle.kc_fastx.specs.Titles.{record_of};
ghost use Rattle.kc_select.specs.Texts.{line_of, fasta_text, fastq_text, record_text};

use kc_fastx::SeqRead;
use kc_io::{BLOCK_SIZE, Block, Failed, Sink, write_all};

// Appends the text of a record to the block. A block without room goes to the writer first.
pub(crate) fn put_record<W: Sink>(
    writer: &mut W,
    block: &mut Block,
    title: &[u8],
    read: &SeqRead,
) -> Result<(), Failed>
    ensures ok { OnOk result (Drains (W.seen writer.old) (W.seen writer.new)
        (block.old ++ record_text (record_of title.now read.now)) block.new) }
    ensures err { OnErr result (HasBegun (W.seen writer.old) (W.seen writer.new)
        (block.old ++ record_text (record_of title.now read.now))) }
{
    match read.quals() {
        None => put_fasta(writer, block, title, read.bases()),
        Some(quals) => put_fastq(writer, block, title, read.bases(), quals),
    }
}

// Appends a record of FASTA to the block: a line with its title, and one with its bases.
fn put_fasta<W: Sink>(
    writer: &mut W,
    block: &mut Block,
    title: &[u8],
    bases: &[u8],
) -> Result<(), Failed>
    ensures ok { OnOk result (Drains (W.seen writer.old) (W.seen writer.new)
        (block.old ++ fasta_text title.now bases.now) block.new) }
    ensures err { OnErr result (HasBegun (W.seen writer.old) (W.seen writer.new)
        (block.old ++ fasta_text title.now bases.now)) }
{
    put_line(writer, block, b">", title)?;
    put_line(writer, block, b"", bases)
}

// Appends a record of FASTQ to the block, in four lines.
fn put_fastq<W: Sink>(
    writer: &mut W,
    block: &mut Block,
    title: &[u8],
    bases: &[u8],
    quals: &[u8],
) -> Result<(), Failed>
    ensures ok { OnOk result (Drains (W.seen writer.old) (W.seen writer.new)
        (block.old ++ fastq_text title.now bases.now quals.now) block.new) }
    ensures err { OnErr result (HasBegun (W.seen writer.old) (W.seen writer.new)
        (block.old ++ fastq_text title.now bases.now quals.now)) }
{
    put_line(writer, block, b"@", title)?;
    put_line(writer, block, b"", bases)?;
    put_line(writer, block, b"+", b"")?;
    put_line(writer, block, b"", quals)
}

// Appends a line and its end to the block: the mark, and then the text.
fn put_line<W: Sink>(
    writer: &mut W,
    block: &mut Block,
    mark: &[u8],
    text: &[u8],
) -> Result<(), Failed>
    ensures ok { OnOk result (Drains (W.seen writer.old) (W.seen writer.new)
        (block.old ++ line_of (mark.now ++ text.now)) block.new) }
    ensures err { OnErr result (HasBegun (W.seen writer.old) (W.seen writer.new)
        (block.old ++ line_of (mark.now ++ text.now))) }
{
    put(writer, block, mark)?;
    put(writer, block, text)?;
    put(writer, block, b"\n")
}

// Appends bytes to the block, however many they are.
pub(crate) fn put<W: Sink>(writer: &mut W, block: &mut Block, bytes: &[u8]) -> Result<(), Failed>
    ensures ok { OnOk result (Drains (W.seen writer.old) (W.seen writer.new) (block.old ++ bytes.now) block.new) }
    ensures err { OnErr result (HasBegun (W.seen writer.old) (W.seen writer.new) (block.old ++ bytes.now)) }
{
    if bytes.len() > BLOCK_SIZE {
        return put_long(writer, block, bytes);
    }
    block.make_room(writer, bytes.len())?;
    block.push(bytes);
    Ok(())
}

// Writes the block and then bytes for which a block has no room.
fn put_long<W: Sink>(writer: &mut W, block: &mut Block, bytes: &[u8]) -> Result<(), Failed>
    ensures ok { OnOk result (Drains (W.seen writer.old) (W.seen writer.new) (block.old ++ bytes.now) block.new) }
    ensures err { OnErr result (HasBegun (W.seen writer.old) (W.seen writer.new) (block.old ++ bytes.now)) }
{
    write_all(writer, block.as_slice())?;
    block.clear();
    write_all(writer, bytes)
}
