//! The rules by which commands combine tables.
ghost use Rattle.std.specs.Prelude.{◌≡◌, ◌^◌, ◌<◌, ◌≤◌, IfSome, IfNone};
ghost use Rattle.kc_combine.specs.Taking.{taken_by};

use crate::combines::Combines;
use crate::counts_of_word::{
    are_positive, are_zero, checked_count, first_count, greatest_count, least_count,
    remaining_count, total_of_counts,
};

/// The sum of the counts.
#[derive(Clone, Copy, Debug, PartialEq, Eq)]
pub struct Sum;

impl Combines for Sum {
    ghost use Rattle.kc_combine.specs.Combined.{sum_of};
    ghost use Rattle.kc_combine.specs.CombiningLaws.{sum_of_none};

    ghost rule = { λ _. sum_of };

    ghost nothing = { λ _. sum_of_none };

    fn count(&self, counts: &[u64]) -> Option<u64> {
        total_of_counts(counts)
    }
}

/// Which count an intersection gives a word that every table has.
#[derive(Clone, Copy, Debug, PartialEq, Eq)]
pub enum Take {
    /// The least one.
    Least,
    /// The greatest one.
    Greatest,
    /// The sum of all.
    Sum,
    /// That of the first table.
    First,
}

impl Take {
    // The result for these counts, or none if it is above 2^62.
    fn of(self, counts: &[u64]) -> Option<u64>
        ensures some { IfSome result (λ count. count ≡ taken_by self counts.now) }
        ensures most { IfSome result (λ count. count ≤ 2 ^ 62) }
        ensures none { IfNone result (2 ^ 62 < taken_by self counts.now) }
    {
        match self {
            Take::Least => checked_count(least_count(counts)),
            Take::Greatest => checked_count(greatest_count(counts)),
            Take::Sum => total_of_counts(counts),
            Take::First => checked_count(first_count(counts)),
        }
    }
}

/// The words that every table has.
#[derive(Clone, Copy, Debug, PartialEq, Eq)]
pub struct Intersection {
    /// The count that such a word gets.
    pub take: Take,
}

impl Combines for Intersection {
    ghost use Rattle.kc_combine.specs.Combined.{intersection};
    ghost use Rattle.kc_combine.specs.CombiningLaws.{none_in_common};
    ghost use Rattle.kc_combine.specs.Taking.{taken_by};

    ghost rule = { λ rule. intersection (taken_by rule.take) };

    ghost nothing = { λ rule. none_in_common (taken_by rule.take) };

    fn count(&self, counts: &[u64]) -> Option<u64> {
        if !are_positive(counts) {
            return Some(0);
        }
        self.take.of(counts)
    }
}

/// The words that only the first table has, with their counts.
#[derive(Clone, Copy, Debug, PartialEq, Eq)]
pub struct Difference;

impl Combines for Difference {
    ghost use Rattle.kc_combine.specs.Combined.{difference};
    ghost use Rattle.kc_combine.specs.CombiningLaws.{none_left};

    ghost rule = { λ _. difference };

    ghost nothing = { λ _. none_left };

    fn count(&self, counts: &[u64]) -> Option<u64> {
        let Some((first, others)) = counts.split_first() else {
            return Some(0);
        };
        if !are_zero(others) {
            return Some(0);
        }
        checked_count(*first)
    }
}

/// The counts of the first table minus those of the others.
#[derive(Clone, Copy, Debug, PartialEq, Eq)]
pub struct CountDifference;

impl Combines for CountDifference {
    ghost use Rattle.kc_combine.specs.Combined.{difference_of_counts};
    ghost use Rattle.kc_combine.specs.CombiningLaws.{none_remains};

    ghost rule = { λ _. difference_of_counts };

    ghost nothing = { λ _. none_remains };

    fn count(&self, counts: &[u64]) -> Option<u64> {
        let Some((first, others)) = counts.split_first() else {
            return Some(0);
        };
        checked_count(remaining_count(*first, others))
    }
}

/// The words of the first table with counts within the bounds, inclusive.
#[derive(Clone, Copy, Debug, PartialEq, Eq)]
pub struct Within {
    /// The lower bound.
    pub least: u64,
    /// The upper bound.
    pub most: u64,
}

impl Combines for Within {
    ghost use Rattle.kc_combine.specs.Combined.{within};
    ghost use Rattle.kc_combine.specs.CombiningLaws.{none_within};

    ghost rule = { λ rule. within rule.least rule.most };

    ghost nothing = { λ rule. none_within rule.least rule.most };

    fn count(&self, counts: &[u64]) -> Option<u64> {
        let count = first_count(counts);
        if count < self.least || self.most < count {
            return Some(0);
        }
        checked_count(count)
    }
}
