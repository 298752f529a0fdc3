//! The sums of tables.
ghost use Rattle.std.specs.Prelude.{IfSome};
ghost use Rattle.kc_report.specs.Table.{IsOrigin, MaySay};

use crate::count_assertions::{assert_items, assert_same};
use kc_io::{FromBytes, ToVec};
use kc_report::{Origin, ReportFault, merge, read_table, write_table};
use kc_tally::Tally;
use std::alloc::Global;
use std::process::Abort;

// The text of the sum of both tables, each of which has at most 100 bytes.
fn merged_text(alloc: Global, first: &[u8], second: &[u8]) -> Result<Vec<u8>, ReportFault> {
    let one = read_table(alloc, &mut FromBytes::new(first), 100)?;
    let two = read_table(alloc, &mut FromBytes::new(second), 100)?;
    text_of_both(alloc, &one, &two)
}

// The text of their sum.
fn text_of_both(alloc: Global, one: &Read, two: &Read) -> Result<Vec<u8>, ReportFault>
    requires one { MaySay one.now.1 }
    requires two { MaySay two.now.1 }
{
    let (one, origin) = one;
    let (two, other) = two;
    let (sum, told) = merge(alloc, one, origin.as_ref(), two, other.as_ref())?;
    text_of(alloc, &sum, told.as_ref())
}

// What is written of a tally.
pub(crate) fn text_of(
    alloc: Global,
    tally: &Tally,
    origin: Option<&Origin>,
) -> Result<Vec<u8>, ReportFault>
    requires { IfSome origin (λ origin. IsOrigin origin.now) }
{
    let mut sink = ToVec::new(Vec::new(alloc));
    write_table(&mut sink, tally, origin)?;
    Ok(sink.into_inner())
}

// What is read of a table.
type Read = (Tally, Option<Origin>);

const ACGTA: &[u8] = b"KCT 2 3 s a 33 1\nACG 1\nCGT 1\nGTA 1\nEND 3 3\n";

const ACG: &[u8] = b"KCT 2 3 s a 33 1\nACG 1\nEND 1 1\n";

const OLD: &[u8] = b"KCT 1 3 s\nACG 1\nEND 1 1\n";

const NONE: &[u8] = b"KCT 2 3 s a 33 0\nEND 0 0\n";

const BOTH: &[u8] = b"KCT 1 3 s\nACG 2\nCGT 1\nGTA 1\nEND 3 4\n";

const WITH_MAX_COUNT: &[u8] = b"KCT 1 3 s\nACG 4611686018427387904\nEND 1 4611686018427387904\n";

// Two tables, and their sum.
const MERGED: &[(&[u8], &[u8], &[u8])] = &[
    (
        ACGTA,
        ACG,
        b"KCT 2 3 s a 33 2\nACG 2\nCGT 1\nGTA 1\nEND 3 4\n",
    ),
    (ACGTA, OLD, BOTH),
    (OLD, ACGTA, BOTH),
    (ACGTA, NONE, ACGTA),
    (NONE, ACGTA, ACGTA),
    (
        ACGTA,
        ACGTA,
        b"KCT 2 3 s a 33 2\nACG 2\nCGT 2\nGTA 2\nEND 3 6\n",
    ),
    (
        b"KCT 1 3 c\nACG 2\nGTA 1\nEND 2 3\n",
        b"KCT 1 3 c\nAAA 1\nCCC 5\nEND 2 6\n",
        b"KCT 1 3 c\nAAA 1\nACG 2\nCCC 5\nGTA 1\nEND 4 9\n",
    ),
    (
        b"KCT 1 3 s\nACG 4611686018427387903\nEND 1 4611686018427387903\n",
        OLD,
        WITH_MAX_COUNT,
    ),
    (
        b"KCT 2 3 s a 33 4611686018427387903\nEND 0 0\n",
        ACG,
        b"KCT 2 3 s a 33 4611686018427387904\nACG 1\nEND 1 1\n",
    ),
    (b"KCT 2 3 s a 33 4611686018427387904\nEND 0 0\n", OLD, OLD),
];

#[test]
fn tables_together(rt: HostRuntime) -> Result<(), ReportFault> {
    for (first, second, want) in MERGED {
        let text = merged_text(rt.alloc(), *first, *second)?;
        assert_items(&rt, "a sum", text.as_slice(), *want);
    }
    Ok(())
}

// Two tables, and why they can't be added.
const REFUSED: &[(&[u8], &[u8], ReportFault)] = &[
    (
        ACG,
        b"KCT 2 3 s a 35 1\nACG 1\nEND 1 1\n",
        ReportFault::Unlike,
    ),
    (
        ACG,
        b"KCT 2 3 c a 33 1\nACG 1\nEND 1 1\n",
        ReportFault::Unlike,
    ),
    (
        b"KCT 2 3 s o 33 1\nACG 1\nEND 1 1\n",
        ACG,
        ReportFault::Unlike,
    ),
    (
        OLD,
        b"KCT 2 3 s o 33 1\nACG 1\nEND 1 1\n",
        ReportFault::Unlike,
    ),
    (OLD, b"KCT 1 4 s\nACGT 1\nEND 1 1\n", ReportFault::Unlike),
    (WITH_MAX_COUNT, WITH_MAX_COUNT, ReportFault::TooLarge),
    (WITH_MAX_COUNT, OLD, ReportFault::TooLarge),
    (
        WITH_MAX_COUNT,
        b"KCT 1 3 c\nACG 1\nEND 1 1\n",
        ReportFault::Unlike,
    ),
    (
        b"KCT 2 3 s a 33 4611686018427387904\nEND 0 0\n",
        ACG,
        ReportFault::TooLarge,
    ),
];

// Asserts that the tables can't be added, and why.
fn assert_refused<H: Abort + AllocGlobal>(rt: &H, first: &[u8], second: &[u8], want: ReportFault) {
    let fault = merged_text(rt.alloc(), first, second).err();
    assert_same(rt, "a fault", &fault, &Some(want));
}

#[test]
fn tables_that_do_not_match(rt: HostRuntime) {
    for (first, second, want) in REFUSED {
        assert_refused(&rt, *first, *second, *want);
    }
}
