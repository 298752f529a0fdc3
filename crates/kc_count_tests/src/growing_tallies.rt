//! A worked tally that grows row by row.
ghost use Rattle.std.specs.Prelude.{◌≡◌, [], ◌∷◌, IfOk};
ghost use Rattle.kc_tally.specs.Tally.{row_of};

use crate::count_assertions::assert_same;
use crate::tally_rows::{assert_parted, k_of};
use kc_kmer::K;
use kc_tally::{GrowingRows, Row, Tally};
use std::alloc::{AllocError, Global};
use std::test::Fail;

// The rows of the parted tally, which come one by one.
fn parted_rows(alloc: Global) -> Result<GrowingRows, AllocError>
    ensures { IfOk result (λ rows. rows ≡ row_of 1 2 ∷ row_of 6 1 ∷ row_of 11 70_000 ∷ row_of 15 1 ∷ []) }
{
    let mut rows = GrowingRows::new(alloc);
    rows.push(Row { word: 1, count: 2 })?;
    rows.push(Row { word: 6, count: 1 })?;
    rows.push(Row {
        word: 11,
        count: 70_000,
    })?;
    rows.push(Row { word: 15, count: 1 })?;
    Ok(rows)
}

// The tally of these rows, with the number that they have before.
fn counted_tally(alloc: Global, k: K) -> Result<(u64, Tally), AllocError>
    requires { k ≡ 2 }
{
    let rows = parted_rows(alloc)?;
    let count = rows.len();
    Ok((count, rows.into_tally(k, false)?))
}

#[test]
fn a_tally_row_by_row(rt: HostRuntime) -> Result<(), Fail> {
    let last = Row { word: 15, count: 1 };
    let rows = parted_rows(rt.alloc())?;
    assert_same(&rt, "last", &rows.last(), &Some(last));
    let (count, tally) = counted_tally(rt.alloc(), k_of(2)?)?;
    assert_same(&rt, "rows", &count, &4);
    assert_parted(&rt, &tally);
    Ok(())
}
