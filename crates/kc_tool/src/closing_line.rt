//! The line at the end of a command: what was counted, selected or profiled, and how long it took.
ghost use Rattle.std.specs.Prelude.{◌≡◌, ◌++◌, ◌+◌, ◌*◌, ◌<◌, ◌≤◌, codes, length};
ghost use Rattle.kc_tool.specs.Told.{closing_line, grouped, in_groups, many, none_text, reads_text};
ghost use Rattle.kc_tool.specs.Told.{three_digits, time_text};
ghost use Rattle.kc_tool.specs.Told.{zeros_before};

use crate::told::{CountedWords, Told};
use kc_report::Block;
use kc_select::SelectionCounts;

/// The closing line of a command, with the time in tenths of a second. It takes no memory.
pub(crate) fn closing_line(told: &Told, tenths: Option<u64>) -> Block
    ensures { result ≡ closing_line told.now tenths }
{
    let mut text = Block::new();
    match told {
        Told::Nothing => {}
        Told::Counted(words) => push_counted(&mut text, words, tenths),
        Told::Selected(counts, _) => push_selected(&mut text, counts, tenths),
        Told::Profiled(counts) => push_profiled(&mut text, counts, tenths),
    }
    text
}

// Appends the line of a count to the text.
fn push_counted(text: &mut Block, words: &CountedWords, tenths: Option<u64>)
    requires room { length text.old ≤ 100 }
    ensures { text.new ≡ text.old ++ reads_text words.now.reads ++ many words.now.total (codes "k-mer") ++ codes ", "
        ++ grouped words.now.distinct ++ codes " distinct" ++ time_text tenths ++ none_text words.now.total }
{
    push_reads(text, words.reads);
    push_many(text, words.total, b"k-mer");
    text.push(b", ");
    push_grouped(text, words.distinct);
    text.push(b" distinct");
    push_time(text, tenths);
    push_none(text, words.total);
}

// Appends how many reads there were to the text, if the line has that.
fn push_reads(text: &mut Block, reads: Option<u64>)
    requires room { length text.old ≤ 100 }
    ensures pushed { text.new ≡ text.old ++ reads_text reads }
    ensures short { length text.new ≤ length text.old + 300 }
{
    let Some(reads) = reads else {
        return;
    };
    push_many(text, reads, b"read");
    text.push(b", ");
}

// What is printed if no k-mer was counted.
const NONE: &[u8] =
    b"  no k-mer was counted: one is k letters A, C, G or T in a row, and with --only of the list\n";

// Appends that to the text if none was counted.
fn push_none(text: &mut Block, total: u64)
    requires room { length text.old ≤ 2000 }
    ensures { text.new ≡ text.old ++ none_text total }
{
    if total == 0 {
        text.push(NONE);
    }
}

// Appends the line of a selection to the text.
fn push_selected(text: &mut Block, counts: &SelectionCounts, tenths: Option<u64>)
    requires room { length text.old ≤ 100 }
    ensures { text.new ≡ text.old ++ grouped counts.now.kept ++ codes " of " ++ many counts.now.reads (codes "read")
        ++ codes " kept" ++ time_text tenths }
{
    push_grouped(text, counts.kept);
    text.push(b" of ");
    push_many(text, counts.reads, b"read");
    text.push(b" kept");
    push_time(text, tenths);
}

// Appends the line of profiles to the text.
fn push_profiled(text: &mut Block, counts: &SelectionCounts, tenths: Option<u64>)
    requires room { length text.old ≤ 100 }
    ensures { text.new ≡ text.old ++ many counts.now.reads (codes "read") ++ codes ", "
        ++ many counts.now.words (codes "k-mer") ++ time_text tenths }
{
    push_many(text, counts.reads, b"read");
    text.push(b", ");
    push_many(text, counts.words, b"k-mer");
    push_time(text, tenths);
}

// Appends the time that has passed, if it is known, and the end of the line to the text.
fn push_time(text: &mut Block, tenths: Option<u64>)
    requires room { length text.old ≤ 1500 }
    ensures pushed { text.new ≡ text.old ++ time_text tenths }
    ensures short { length text.new ≤ length text.old + 50 }
{
    let Some(tenths) = tenths else {
        text.push(b"\n");
        return;
    };
    text.push(b", ");
    text.push_number(tenths / 10);
    text.push(b".");
    text.push_number(tenths % 10);
    text.push(b" s\n");
}

// Appends a number of things to the text.
fn push_many(text: &mut Block, number: u64, thing: &[u8])
    requires room { length text.old ≤ 1000 }
    requires thing { length thing.now ≤ 20 }
    ensures pushed { text.new ≡ text.old ++ many number thing.now }
    ensures short { length text.new ≤ length text.old + 200 }
{
    push_grouped(text, number);
    text.push(b" ");
    text.push(thing);
    if number != 1 {
        text.push(b"s");
    }
}

// Appends a number in groups of three digits to the text.
fn push_grouped(text: &mut Block, number: u64)
    requires room { length text.old ≤ 1000 }
    ensures pushed { text.new ≡ text.old ++ grouped number }
    ensures short { length text.new ≤ length text.old + 158 }
{
    push_groups(text, number, 6);
}

// The same with at most so many groups after the first.
fn push_groups(text: &mut Block, number: u64, more: u32)
    requires room { length text.old ≤ 1000 }
    requires few { more ≤ 6 }
    ensures pushed { text.new ≡ text.old ++ in_groups more number }
    ensures short { length text.new ≤ length text.old + (20 + 23 * more) }
{
    if more == 0 || number < 1_000 {
        text.push_number(number);
        return;
    }
    push_groups(text, number / 1_000, more - 1);
    text.push(b",");
    push_three_digits(text, number % 1_000);
}

// Appends a number below 1,000 with three digits to the text.
fn push_three_digits(text: &mut Block, number: u64)
    requires room { length text.old ≤ 2000 }
    ensures pushed { text.new ≡ text.old ++ three_digits number }
    ensures short { length text.new ≤ length text.old + 22 }
{
    text.push(zeros_before(number));
    text.push_number(number);
}

// The zeros before a number that should have three digits.
fn zeros_before(number: u64) -> &'static [u8]
    ensures zeros { result.now ≡ zeros_before number }
    ensures few { length result.now ≤ 2 }
{
    match number {
        0..=9 => b"00",
        10..=99 => b"0",
        _ => b"",
    }
}
