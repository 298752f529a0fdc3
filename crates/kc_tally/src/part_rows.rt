//! The rows of one part of a tally, one after another, without memory.
ghost use Rattle.std.specs.Prelude.{◌≡◌, ◌≤◌, [], ◌∷◌, ◌++◌, length, IfSome, IfNone, if◌then◌else◌, drop, count_by};
ghost use Rattle.kc_tally.specs.Packing.{rows_of, is_apart};

use crate::layout::Layout;
use crate::row::Row;
use std::marker::Model;

/// The rows of a part that are still to come. Their view is the list of them.
#[derive(Drop)]
pub struct PartRows<'a> {
    layout: Layout,
    packed: &'a [u64],
    large: &'a [Row],
}

impl<'a> Model for PartRows<'a> {
    ghost use Rattle.std.specs.Prelude.{List};
    ghost use Rattle.kc_tally.specs.Packing.{rows_of};
    ghost use Rattle.kc_tally.specs.declared.row.Row.{Row};

    ghost Value = { List Row };

    ghost view = { λ r. rows_of r.layout r.packed.now r.large.now };
}

impl<'a> PartRows<'a> {
    /// No rows.
    pub(crate) fn none() -> PartRows<'a>
        ensures { result ≡ [] }
    {
        PartRows {
            layout: Layout::between(0, 0),
            packed: &[],
            large: &[],
        }
    }

    /// The rows in these numbers, and the large ones among them.
    #[inline(always)]
    pub(crate) fn new(layout: Layout, packed: &'a [u64], large: &'a [Row]) -> PartRows<'a>
        ensures { result ≡ rows_of layout packed.now large.now }
    {
        PartRows {
            layout,
            packed,
            large,
        }
    }

    /// A second walk over these rows, to look ahead.
    #[inline(always)]
    pub(crate) fn second_walk(&self) -> PartRows<'a>
        ensures { result ≡ self.now }
    {
        PartRows {
            layout: self.layout,
            packed: self.packed,
            large: self.large,
        }
    }

    /// How many rows there are.
    pub(crate) fn len(&self) -> usize
        ensures { result ≡ length self.now }
    {
        self.packed.len()
    }

    /// The first `count` rows, which are used up. Condition: there are so many.
    pub(crate) fn take_front(&mut self, count: usize) -> PartRows<'a>
        requires { count ≤ length self.old }
        ensures rows { result ++ self.new ≡ self.old }
        ensures count { length result ≡ count }
    {
        let (front, rest) = self.packed.split_at(count);
        let taken = PartRows::new(self.layout, front, self.large);
        self.large = large_behind(self.layout, front, self.large);
        self.packed = rest;
        taken
    }

    /// The first row, which is not used up.
    #[inline(always)]
    pub(crate) fn first(&self) -> Option<Row>
        ensures some { IfSome result (λ row. self.now ≡ row ∷ drop 1 self.now) }
        ensures none { IfNone result (self.now ≡ []) }
    {
        let Some((first, _)) = self.packed.split_first() else {
            return None;
        };
        Some(self.layout.row(*first, self.large))
    }

    /// The first row, which is used up.
    #[inline(always)]
    pub fn take(&mut self) -> Option<Row>
        ensures some { IfSome result (λ row. self.old ≡ row ∷ self.new) }
        ensures none { IfNone result ((self.old ≡ []) × (self.new ≡ [])) }
    {
        let Some((first, rest)) = self.packed.split_first() else {
            return None;
        };
        let row = self.layout.row(*first, self.large);
        self.large = without_first(self.large, self.layout.is_apart(*first));
        self.packed = rest;
        Some(row)
    }

    /// Skips the first row, if that is asked for: how many are skipped is computed, so no branch depends on it.
    #[inline(always)]
    pub(crate) fn skip_first_if(&mut self, passed: bool)
        ensures { self.new ≡ (if passed then drop 1 self.old else self.old) }
    {
        let Some((first, _)) = self.packed.split_first() else {
            return;
        };
        let apart = self.layout.is_apart(*first);
        self.large = without_first(self.large, passed & apart);
        self.packed = without_first(self.packed, passed);
    }
}

// The items after the first, if that is asked for and there is one.
#[inline(always)]
fn without_first<T>(items: &[T], asked: bool) -> &[T]
    ensures { result.now ≡ (if asked then drop 1 items.now else items.now) }
{
    let skipped = (asked as usize).min(items.len());
    &items[skipped..]
}

// The large rows among those after the packed ones; `large` are the large rows from the first packed one on.
fn large_behind<'a>(layout: Layout, packed: &[u64], large: &'a [Row]) -> &'a [Row]
    ensures { result.now ≡ drop (count_by (is_apart layout) packed.now) large.now }
{
    if large.is_empty() {
        return large;
    }
    let passed = apart_count(layout, packed).min(large.len());
    &large[passed..]
}

// How many of the packed rows have a count in the list of large ones.
fn apart_count(layout: Layout, packed: &[u64]) -> usize
    ensures { result ≡ count_by (is_apart layout) packed.now }
{
    let mut count = 0;
    for packed in packed {
        if layout.is_apart(*packed) {
            count += 1;
        }
    }
    count
}
