//! What rules compute from the counts of one word.
ghost use Rattle.std.specs.Prelude.{◌≡◌, ◌^◌, ◌<◌, ◌≤◌, ◌-◌, IfSome, IfNone};
ghost use Rattle.kc_combine.specs.Combined.{all_have, first_of, greatest_of, least_of, none_has, sum_of};
ghost use Rattle.kc_combine.specs.Compared.{in_assembly};

/// The greatest count.
pub(crate) const MAX_COUNT: u64 = 1 << 62;

// The count, or none if it is above 2^62.
pub(crate) fn checked_count(count: u64) -> Option<u64>
    ensures some { IfSome result (λ same. same ≡ count) }
    ensures most { IfSome result (λ same. same ≤ 2 ^ 62) }
    ensures none { IfNone result (2 ^ 62 < count) }
{
    if count <= MAX_COUNT {
        return Some(count);
    }
    None
}

// The sum of these counts, or none if it is above 2^62.
pub(crate) fn total_of_counts(counts: &[u64]) -> Option<u64>
    ensures some { IfSome result (λ sum. sum ≡ sum_of counts.now) }
    ensures most { IfSome result (λ sum. sum ≤ 2 ^ 62) }
    ensures none { IfNone result (2 ^ 62 < sum_of counts.now) }
{
    let mut sum = 0;
    'counts: for count in counts {
        if *count > MAX_COUNT - sum {
            return None;
        }
        sum += *count;
    }
    Some(sum)
}

// The first of these counts, or 0 if there is none.
pub(crate) fn first_count(counts: &[u64]) -> u64
    ensures { result ≡ first_of counts.now }
{
    match counts.first() {
        Some(count) => *count,
        None => 0,
    }
}

// The second of these counts, or 0 if there are fewer.
pub(crate) fn second_count(counts: &[u64]) -> u64
    ensures { result ≡ in_assembly counts.now }
{
    let Some((_, others)) = counts.split_first() else {
        return 0;
    };
    first_count(others)
}

// The least of these counts, or 0 if there is none.
pub(crate) fn least_count(counts: &[u64]) -> u64
    ensures { result ≡ least_of counts.now }
{
    let Some((first, others)) = counts.split_first() else {
        return 0;
    };
    let mut least = *first;
    'others: for count in others {
        least = least.min(*count);
    }
    least
}

// The greatest of these counts, or 0 if there is none.
pub(crate) fn greatest_count(counts: &[u64]) -> u64
    ensures { result ≡ greatest_of counts.now }
{
    let mut greatest = 0;
    'counts: for count in counts {
        greatest = greatest.max(*count);
    }
    greatest
}

// Whether each count is above 0.
pub(crate) fn are_positive(counts: &[u64]) -> bool
    ensures { result ≡ all_have counts.now }
{
    'counts: for count in counts {
        if *count == 0 {
            return false;
        }
    }
    true
}

// Whether each count is 0.
pub(crate) fn are_zero(counts: &[u64]) -> bool
    ensures { result ≡ none_has counts.now }
{
    'counts: for count in counts {
        if *count > 0 {
            return false;
        }
    }
    true
}

// What is left of a count after these are subtracted.
pub(crate) fn remaining_count(count: u64, others: &[u64]) -> u64
    ensures { result ≡ count - sum_of others.now }
{
    let mut left = count;
    'others: for other in others {
        left = left.saturating_sub(*other);
    }
    left
}
