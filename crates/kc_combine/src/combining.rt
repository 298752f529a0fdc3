//! How a command combines tables.
ghost use Rattle.std.specs.Prelude.{◌≡◌, ◌^◌, ◌<◌, ◌≤◌, IfSome, IfNone};

use crate::combines::Combines;
use crate::combining_rules::{CountDifference, Difference, Intersection, Sum, Within};

/// How a command combines tables.
#[derive(Clone, Copy, Debug, PartialEq, Eq)]
pub enum Combining {
    /// All words, with the sums of their counts.
    Merge,
    /// The words that each table has.
    Intersect(Intersection),
    /// The words that only the first table has.
    Subtract,
    /// The counts of the first table less those of the others.
    SubtractCounts,
    /// The words of one table whose counts are within bounds.
    Filter(Within),
}

impl Combines for Combining {
    ghost use Rattle.kc_combine.specs.Combinings.{nothing_of, rule_of};

    ghost rule = { rule_of };

    ghost nothing = { nothing_of };

    fn count(&self, counts: &[u64]) -> Option<u64> {
        match self {
            Combining::Merge => Sum.count(counts),
            Combining::Intersect(rule) => rule.count(counts),
            Combining::Subtract => Difference.count(counts),
            Combining::SubtractCounts => CountDifference.count(counts),
            Combining::Filter(rule) => rule.count(counts),
        }
    }
}
