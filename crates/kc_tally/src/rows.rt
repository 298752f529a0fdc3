//! The rows of a tally, one after another, without memory.
ghost use Rattle.std.specs.Prelude.{◌≡◌, ◌+◌, ◌<◌, ◌≤◌, ◌^◌, ◌++◌, [], length, take, IfSome, IfNone};
ghost use Rattle.std.specs.List.{flat_map};
ghost use Rattle.kc_tally.specs.Tally.{row_of, total_of};
ghost use Rattle.kc_tally.specs.Sum.{TakesSum};

use crate::packed_rows::PackedRows;
use crate::part_rows::PartRows;
use crate::row::Row;
use std::marker::Model;

/// An iterator over the rows of a tally. Its view is the list of those still to come.
#[derive(Drop)]
pub struct Rows<'a> {
    part: PartRows<'a>,
    later: &'a [PackedRows],
}

impl<'a> Model for Rows<'a> {
    ghost use Rattle.std.specs.Prelude.{List, ◌++◌};
    ghost use Rattle.std.specs.List.{flat_map};
    ghost use Rattle.kc_tally.specs.declared.row.Row.{Row};

    ghost Value = { List Row };

    ghost view = { λ r. r.part ++ flat_map (λ part. part) r.later.now };
}

impl<'a> Rows<'a> {
    /// The rows of all parts, part after part.
    pub(crate) fn new(parts: &'a [PackedRows]) -> Rows<'a>
        ensures { result ≡ flat_map (λ part. part) parts.now }
    {
        Rows {
            part: PartRows::none(),
            later: parts,
        }
    }

    /// A second walk over these rows, to look ahead.
    #[inline(always)]
    pub fn second_walk(&self) -> Rows<'a>
        ensures { result ≡ self.now }
    {
        Rows {
            part: self.part.second_walk(),
            later: self.later,
        }
    }

    /// The next rows, at most so many of them, which are used up; None if there are no rows. If they belong to several
    /// parts, they are all that is left of the first and the whole of the others, so there may be fewer than `most`.
    /// Condition: `most` is at least one.
    pub fn take_front(&mut self, most: usize) -> Option<Rows<'a>>
        requires { 1 ≤ most }
        ensures rows { IfSome result (λ front. front ++ self.new ≡ self.old) }
        ensures some { IfSome result (λ front. 1 ≤ length front) }
        ensures few { IfSome result (λ front. length front ≤ most) }
        ensures none { IfNone result ((self.old ≡ []) × (self.new ≡ [])) }
    {
        let (mut part, later) = skip_empty_parts(self.part.second_walk(), self.later);
        let len = part.len();
        if len == 0 {
            return None;
        }
        if len > most {
            let front = part.take_front(most);
            *self = Rows { part, later };
            return Some(Rows {
                part: front,
                later: &[],
            });
        }
        let (whole, later) = later.split_at(whole_parts(later, most - len));
        *self = Rows {
            part: PartRows::none(),
            later,
        };
        Some(Rows { part, later: whole })
    }

    /// The sum of the next rows of both; the one with the lesser word is used up, or both if the words are equal. None
    /// if a part has to be begun first. Which word is the lesser one can't be predicted, so how far each side moves is
    /// computed, with few branches.
    #[inline(always)]
    pub(crate) fn take_sum(&mut self, other: &mut Rows<'_>) -> Option<Row>
        requires { total_of self.old + total_of other.old ≤ 2 ^ 62 }
        ensures some { IfSome result (TakesSum self.old self.new other.old other.new) }
        ensures none { IfNone result ((self.new ≡ self.old) × (other.new ≡ other.old)) }
    {
        let Some(first) = self.part.first() else {
            return None;
        };
        let Some(second) = other.part.first() else {
            return None;
        };
        let row = joined_row(first, second);
        let (takes_first, takes_second) = (first.word <= second.word, second.word <= first.word);
        self.part.skip_first_if(takes_first);
        other.part.skip_first_if(takes_second);
        Some(row)
    }
}

// The rows of the part and those of the parts after it; a part without rows gives way to the next one.
fn skip_empty_parts<'a>(
    mut part: PartRows<'a>,
    mut later: &'a [PackedRows],
) -> (PartRows<'a>, &'a [PackedRows])
    ensures same { result.0 ++ flat_map (λ part. part) result.1.now
        ≡ part.entry ++ flat_map (λ part. part) later.entry.now }
    ensures some { result.0 ≡ [] → result.1.now ≡ [] }
{
    while part.len() == 0 {
        match later.split_first() {
            None => return (part, later),
            Some((next, behind)) => {
                part = next.rows();
                later = behind;
            }
        }
    }
    (part, later)
}

// How many of the parts, from the first one on, have at most so many rows together.
fn whole_parts(parts: &[PackedRows], most: usize) -> usize
    ensures within { result ≤ length parts.now }
    ensures few { length (flat_map (λ part. part) (take result parts.now)) ≤ most }
{
    let mut left = most;
    for i in 0..parts.len() {
        let len = parts[i].len();
        if len > left {
            return i;
        }
        left -= len;
    }
    parts.len()
}

// The row with the lesser word, or the sum of both if the words are equal.
#[inline(always)]
fn joined_row(first: Row, second: Row) -> Row
    requires { first.count + second.count < 2 ^ 64 }
    ensures lesser { first.word < second.word → result ≡ first }
    ensures greater { second.word < first.word → result ≡ second }
    ensures same { first.word ≡ second.word → result ≡ row_of first.word (first.count + second.count) }
{
    let count = first.count + second.count;
    if first.word < second.word {
        first
    } else if second.word < first.word {
        second
    } else {
        Row {
            word: first.word,
            count,
        }
    }
}

impl<'a> Iterator for Rows<'a> {
    type Item = Row;

    ghost use Rattle.std.specs.Iterator.{YieldsFirst, item_count};

    ghost next_gives = { YieldsFirst (λ r. r) };

    ghost remaining = { item_count (λ r. r) };

    #[inline(always)]
    fn next(&mut self) -> Option<Row> {
        loop {
            if let Some(row) = self.part.take() {
                return Some(row);
            }
            match self.later.split_first() {
                None => return None,
                Some((part, later)) => {
                    self.part = part.rows();
                    self.later = later;
                }
            }
        }
    }
}
