//! The result of a rule for the count of a word.
use crate::count_assertions::assert_same;
use kc_combine::{Combines, Within};

// A count, and what is kept of it from 2 to 4.
const KEPT: &[(u64, u64)] = &[(0, 0), (1, 0), (2, 2), (3, 3), (4, 4), (5, 0)];

#[test]
fn counts_within_bounds(rt: HostRuntime) {
    for (count, want) in KEPT {
        let rule = Within { least: 2, most: 4 };
        let kept = rule.count(&[*count]);
        assert_same(&rt, *count, &kept, &Some(*want));
    }
}
