//! Worked rows of lists that are packed in any order and sorted together.
ghost use Rattle.std.specs.Prelude.{◌<◌, ◌≤◌, IfOk};
ghost use Rattle.kc_tally.specs.Packing.{IsInRange};

use crate::count_assertions::assert_same;
use kc_tally::{LooseLists, LooseRows, PackedRows, Row};
use std::alloc::{AllocError, Global};
use std::process::Abort;

// A list of two rows. Its words are 64 to 127, so that 58 bits are left for a count.
fn two_rows(alloc: Global, first: Row, second: Row) -> Result<LooseRows, AllocError>
    requires first_least { 64 ≤ first.word }
    requires first_below { first.word < 128 }
    requires first_present { 1 ≤ first.count }
    requires second_least { 64 ≤ second.word }
    requires second_below { second.word < 128 }
    requires second_present { 1 ≤ second.count }
    ensures { IfOk result (IsInRange 64 6) }
{
    let mut loose = LooseRows::with_room(alloc, 64, 6, 1)?;
    loose.push(first)?;
    loose.push(second)?;
    Ok(loose)
}

// Two lists of two rows, of which each has one with a count that does not fit beside its word.
fn two_lists(alloc: Global) -> Result<LooseLists, AllocError> {
    let low = Row { word: 65, count: 3 };
    let lowest = Row {
        word: 64,
        count: 1 << 60,
    };
    let middle = Row {
        word: 70,
        count: (1 << 58) - 1,
    };
    let last = Row {
        word: 127,
        count: 1 << 58,
    };
    let mut lists = LooseLists::new(alloc, 64, 6);
    lists.push(two_rows(alloc, last, low)?)?;
    lists.push(two_rows(alloc, middle, lowest)?)?;
    Ok(lists)
}

// The rows of both lists by their words.
const SORTED: &[(u64, u64)] = &[(64, 1 << 60), (65, 3), (70, (1 << 58) - 1), (127, 1 << 58)];

// Asserts that the packed rows are these words with these counts.
fn assert_packed<H: Abort>(rt: &H, packed: &PackedRows, want: &[(u64, u64)]) {
    let mut rows = packed.rows();
    for (word, count) in want {
        let (word, count) = (*word, *count);
        assert_same(rt, word, &rows.take(), &Some(Row { word, count }));
    }
    assert_same(rt, "end", &rows.take(), &None);
    assert_same(rt, "end", &rows.take(), &None);
}

#[test]
fn rows_of_two_lists(rt: HostRuntime) -> Result<(), AllocError> {
    let lists = two_lists(rt.alloc())?;
    assert_same(&rt, "rows", &lists.len(), &4);
    let packed = lists.into_sorted(rt.alloc())?;
    assert_packed(&rt, &packed, SORTED);
    Ok(())
}
