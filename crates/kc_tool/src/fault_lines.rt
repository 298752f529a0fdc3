//! The line of a fault.
ghost use Rattle.std.specs.Prelude.{◌≡◌, ◌≤◌, ◌<◌, ◌+◌, ◌++◌, decimal, length, IfErr, OnOk, OnErr};
ghost use Rattle.kc_io.specs.Sinks.{Writes, Drains, HasBegun};
ghost use Rattle.kc_tool.specs.declared.tool_faults.ToolFault.TheVariants.{Write};
ghost use Rattle.kc_tool.specs.FaultLines.{fault_line, fault_front, fault_name, reader_text, run_text};
ghost use Rattle.kc_tool.specs.FaultLines.{in_source, at_line};

use crate::tool_faults::ToolFault;
use kc_fastx::FastxFault;
use kc_io::{Failed, Sink, write_all, write_out};
use kc_report::{BLOCK_SIZE, Block};
use kc_run::RunFault;

/// Writes the line of a fault. It takes no memory.
///
/// # Errors
/// `Write` if the writer failed or took no byte. A beginning of the line was written.
pub fn write_fault<W: Sink>(writer: &mut W, fault: &ToolFault) -> Result<(), ToolFault>
    ensures written { Writes (W.seen writer.old) (W.seen writer.new) result (fault_line fault.now) }
    ensures fault { IfErr result (λ fault. fault ≡ Write) }
{
    Ok(write_line(writer, fault)?)
}

// Writes the line of a fault.
fn write_line<W: Sink>(writer: &mut W, fault: &ToolFault) -> Result<(), Failed>
    ensures { Writes (W.seen writer.old) (W.seen writer.new) result (fault_line fault.now) }
{
    let mut line = Block::new();
    line.push(b"kcount: ");
    push_front(&mut line, fault);
    put_text(writer, &mut line, name_of(fault).as_bytes())?;
    line.push(b"\n");
    write_out(writer, line.as_slice())
}

// Appends a text of any length to the block, and leaves room for a byte. If it doesn't fit, the block and then the text
// go to the writer.
fn put_text<W: Sink>(writer: &mut W, block: &mut Block, text: &[u8]) -> Result<(), Failed>
    requires { length block.old < BLOCK_SIZE }
    ensures ok { OnOk result (Drains (W.seen writer.old) (W.seen writer.new) (block.old ++ text.now) block.new) }
    ensures room { OnOk result (length block.new < BLOCK_SIZE) }
    ensures err { OnErr result (HasBegun (W.seen writer.old) (W.seen writer.new) (block.old ++ text.now)) }
{
    if text.len() < BLOCK_SIZE - block.len() {
        block.push(text);
        return Ok(());
    }
    write_all(writer, block.as_slice())?;
    block.clear();
    write_all(writer, text)
}

// The name of the file at the end of the fault's line.
fn name_of(fault: &ToolFault) -> &str
    ensures { result.now ≡ fault_name fault.now }
{
    match fault {
        ToolFault::OpenFailed(name) => name.as_str(),
        _ => "",
    }
}

// Appends the fault's number and text to the line, without the name of a file.
fn push_front(line: &mut Block, fault: &ToolFault)
    requires room { length line.old ≤ 100 }
    ensures pushed { line.new ≡ line.old ++ fault_front fault.now }
    ensures short { length line.new ≤ length line.old + 200 }
{
    match fault {
        ToolFault::Fastx { source, fault } => push_reader_fault(line, *source, *fault),
        ToolFault::BadHeader => line.push(b"41: bad header"),
        ToolFault::BadRow(at) => push_numbered(line, b"42: bad row, line ", *at),
        ToolFault::BadEnd => line.push(b"43: bad end"),
        ToolFault::TableTooLong => line.push(b"44: table too long"),
        ToolFault::TableRead => line.push(b"45: table read failed"),
        ToolFault::Memory => line.push(b"46: no memory"),
        ToolFault::BadOption(name) => {
            line.push(b"51: bad option --");
            line.push(name.name().as_bytes());
        }
        ToolFault::BadWord(number) => push_numbered(line, b"52: bad word ", *number),
        ToolFault::Write => line.push(b"53: write failed"),
        ToolFault::Run(fault) => push_run_fault(line, *fault),
        ToolFault::OpenFailed(_) => line.push(b"54: cannot open "),
        ToolFault::Unlike => line.push(b"61: tables do not match"),
        ToolFault::TooLarge => line.push(b"62: sums too large"),
        ToolFault::BrokenTable(table) => push_source(line, b"71: broken gzip", *table),
        ToolFault::ShortTable(table) => push_source(line, b"72: gzip cut short", *table),
        ToolFault::Unpaired(number) => {
            push_numbered(line, b"81: reads are no pair, record ", *number);
        }
    }
}

// Appends the number and the text of a run's fault to the line.
fn push_run_fault(line: &mut Block, fault: RunFault)
    requires room { length line.old ≤ 100 }
    ensures pushed { line.new ≡ line.old ++ run_text fault }
    ensures short { length line.new ≤ length line.old + 200 }
{
    match fault {
        RunFault::Foreign(at) => push_numbered(line, b"31: foreign stripe ", u64::from(at)),
        RunFault::NoThread(at) => push_numbered(line, b"33: no thread for worker ", u64::from(at)),
        RunFault::Memory => line.push(b"34: no memory"),
        RunFault::Full(at) => {
            push_numbered(line, b"35: stripe ", u64::from(at));
            line.push(b" is full");
        }
    }
}

// Appends the text of a fault that ends with a number, and the number, to the line.
fn push_numbered(line: &mut Block, what: &[u8], number: u64)
    requires room { length line.old ≤ 100 }
    requires brief { length what.now ≤ 30 }
    ensures pushed { line.new ≡ line.old ++ (what.now ++ decimal number) }
    ensures short { length line.new ≤ length line.old + 100 }
{
    line.push(what);
    line.push_number(number);
}

// Appends the number and the text of a reader's fault to the line.
fn push_reader_fault(line: &mut Block, source: u64, fault: FastxFault)
    requires room { length line.old ≤ 100 }
    ensures pushed { line.new ≡ line.old ++ reader_text source fault }
    ensures short { length line.new ≤ length line.old + 200 }
{
    match fault {
        FastxFault::BadStart(at) => push_at_line(line, b"1: bad start", source, at),
        FastxFault::BadBase(at) => push_at_line(line, b"2: bad base", source, at),
        FastxFault::BadQuality(at) => push_at_line(line, b"3: bad quality", source, at),
        FastxFault::LongQuality(at) => push_at_line(line, b"4: long quality", source, at),
        FastxFault::Truncated(at) => push_at_line(line, b"5: truncated", source, at),
        FastxFault::TooLong => push_source(line, b"6: too long", source),
        FastxFault::Read => push_source(line, b"7: read failed", source),
        FastxFault::Memory => line.push(b"8: no memory"),
        FastxFault::BrokenGzip => push_source(line, b"71: broken gzip", source),
        FastxFault::ShortGzip => push_source(line, b"72: gzip cut short", source),
    }
}

// Appends the text of a fault and the number of its source to the line.
fn push_source(line: &mut Block, what: &[u8], source: u64)
    requires room { length line.old ≤ 100 }
    requires brief { length what.now ≤ 20 }
    ensures pushed { line.new ≡ line.old ++ in_source what.now source }
    ensures short { length line.new ≤ length line.old + 100 }
{
    line.push(what);
    line.push(b", source ");
    line.push_number(source);
}

// Appends the text of a fault, the number of its source and its line to the line.
fn push_at_line(line: &mut Block, what: &[u8], source: u64, at: u64)
    requires room { length line.old ≤ 100 }
    requires brief { length what.now ≤ 20 }
    ensures pushed { line.new ≡ line.old ++ at_line what.now source at }
    ensures short { length line.new ≤ length line.old + 200 }
{
    push_source(line, what, source);
    line.push(b", line ");
    line.push_number(at);
}
