//! Dumps of table texts, each written while its text is read.
use crate::count_assertions::{assert_items, assert_same};
use kc_io::{FromBytes, ToVec};
use kc_report::{Dump, ReportFault, write_dump_of_text};
use std::process::Abort;

const TABLE: &[u8] = b"KCT 1 3 c\nACG 2\nCAA 70000\nGTA 1\nEND 3 70003\n";

// Asserts that the dump of a table text of at most so many bytes has this result, and wrote this.
fn assert_dumped<H: Abort + AllocGlobal>(
    rt: &H,
    text: &[u8],
    dump: &Dump,
    outcome: Result<(), ReportFault>,
    want: &[u8],
) {
    let mut sink = ToVec::new(Vec::new(rt.alloc()));
    let mut source = FromBytes::new(text);
    let found = write_dump_of_text(rt.alloc(), &mut source, 100, dump, &mut sink);
    assert_same(rt, text.len(), &found, &outcome);
    assert_items(rt, text.len(), sink.as_slice(), want);
    assert_items(rt, text.len(), source.as_slice(), b"");
}

#[test]
fn dumps_of_a_text(rt: HostRuntime) {
    let (lines, columns) = (Dump::in_lines(), Dump::in_columns());
    let shown = b">2\nACG\n>70000\nCAA\n>1\nGTA\n";
    assert_dumped(&rt, TABLE, &lines, Ok(()), shown);
    let shown = b"ACG 2\nCAA 70000\n";
    assert_dumped(&rt, TABLE, &columns.with_bounds(2, 70_000), Ok(()), shown);
    assert_dumped(&rt, TABLE, &columns.with_bounds(3, 2), Ok(()), b"");
    assert_dumped(&rt, b"KCT 1 3 c\nEND 0 0\n", &columns, Ok(()), b"");
}

// A few rows fit into the block, which is not written after a fault.
#[test]
fn no_dump_of_a_text(rt: HostRuntime) {
    let dump = Dump::in_columns();
    let bad = Err(ReportFault::BadRow(3));
    assert_dumped(&rt, b"KCT 1 3 c\nACG 2\nACG 2\nEND 2 4\n", &dump, bad, b"");
    let bad = Err(ReportFault::BadEnd);
    assert_dumped(&rt, b"KCT 1 3 c\nACG 2\n", &dump, bad, b"");
    let bad = Err(ReportFault::BadHeader);
    assert_dumped(&rt, b"KCT 3 3 c\nEND 0 0\n", &dump, bad, b"");
}
