//! Histograms that are written only from the bins of a tally.
use crate::count_assertions::{assert_items, assert_same};
use crate::report_rows::{HISTOGRAMS, tally_of_three};
use kc_io::ToVec;
use kc_report::write_histo_of_bins;
use kc_tally::Tally;
use std::process::Abort;
use std::test::Fail;

// Asserts that the histogram up to this count, from the tally's bins alone, is this text.
fn assert_histogram<H: Abort + AllocGlobal>(rt: &H, tally: &Tally, high: u64, want: &[u8]) {
    assert!(rt; 1 <= high && high <= 10_000);
    // for the proof: facts about the number of rows
    let _rows = tally.row_count();
    let mut sink = ToVec::new(Vec::new(rt.alloc()));
    let outcome = write_histo_of_bins(&mut sink, tally.histogram(), high);
    assert_same(rt, high, &outcome, &Ok(()));
    assert_items(rt, high, sink.as_slice(), want);
}

#[test]
fn histograms_up_to_10_000(rt: HostRuntime) -> Result<(), Fail> {
    let tally = tally_of_three(rt.alloc())?;
    for (high, want) in &HISTOGRAMS[..3] {
        assert_histogram(&rt, &tally, *high, *want);
    }
    Ok(())
}

#[test]
fn the_sizes_of_the_bins(rt: HostRuntime) -> Result<(), Fail> {
    let tally = tally_of_three(rt.alloc())?;
    let sizes = tally.histogram().sizes();
    assert_same(&rt, "bins", &sizes.len(), &10_001);
    assert_items(&rt, "the first bins", &sizes[..3], &[1, 1, 0]);
    assert_same(&rt, "the last bin", &sizes.last(), &Some(&1));
    Ok(())
}
