//! Reading the records of two sources in step.
ghost use Rattle.std.specs.Prelude.{◌≡◌, ◌≤◌, ◌<◌, ◌+◌, ◌^◌, ℕ, List, None, IfOk, IfSome, length};
ghost use Rattle.kc_io.specs.Sources.{Seen};
ghost use Rattle.kc_fastx.specs.Parsing.{most_bytes};
ghost use Rattle.kc_fastx.specs.Reading.{first_stand};
ghost use Rattle.kc_select.specs.declared.sides.Sides.{Sides};
ghost use Rattle.kc_select.specs.Pairs.{Pair};
ghost use Rattle.kc_select.specs.SelectingPairs.{HaveGivenPairs};
ghost use Rattle.kc_select.specs.PairReaders.{GivesPair, pair_at};

use crate::pair_fault::PairFault;
use crate::pair_names::are_mates;
use crate::sides::{Side, Sides};
use kc_fastx::{Reading, SeqRead, Source};
use std::alloc::{AllocError, Global};
use std::marker::Model;

// A reader of the records of two sources, which it leaves with its caller: record n of one with record n of the other.
// It has the titles of the pair that it gave.
#[derive(Drop)]
pub(crate) struct PairReading {
    alloc: Global,
    first: Reading,
    first_title: Vec<u8>,
    second: Reading,
    second_title: Vec<u8>,
}

impl Model for PairReading {
    ghost use Rattle.kc_select.specs.PairReaders.{PairReader};

    ghost Value = { PairReader };

    ghost view = { λ r. record {
      stands = record { first = r.first; second = r.second };
      titles = record { first = r.first_title.items; second = r.second_title.items };
    } };
}

impl PairReading {
    // A reader that takes at most `limit` bytes of each source. Nothing is taken yet.
    pub(crate) fn new(alloc: Global, limit: u64) -> Result<PairReading, AllocError>
        requires { limit ≤ most_bytes }
        ensures { IfOk result (λ reading.
            reading.stands ≡ record { first = first_stand limit; second = first_stand limit }) }
    {
        let first = Reading::new(alloc, limit)?;
        let second = Reading::new(alloc, limit)?;
        Ok(PairReading {
            alloc,
            first,
            first_title: Vec::new(alloc),
            second,
            second_title: Vec::new(alloc),
        })
    }

    // The title of the first read of the pair that was given.
    pub(crate) fn first_title(&self) -> &[u8]
        ensures { result.now ≡ self.now.titles.first }
    {
        self.first_title.as_slice()
    }

    // The title of its mate.
    pub(crate) fn second_title(&self) -> &[u8]
        ensures { result.now ≡ self.now.titles.second }
    {
        self.second_title.as_slice()
    }

    // How many bytes were taken of both sources. Condition: neither reader keeps a fault, and there are fewer than
    // 2^64.
    pub(crate) fn byte_count(&self) -> u64
        requires first { self.now.stands.first.failed ≡ None }
        requires second { self.now.stands.second.failed ≡ None }
        requires few { self.now.stands.first.used + length self.now.stands.first.unread.bytes
            + (self.now.stands.second.used + length self.now.stands.second.unread.bytes) < 2 ^ 64 }
        ensures { result ≡ self.now.stands.first.used + length self.now.stands.first.unread.bytes
            + (self.now.stands.second.used + length self.now.stands.second.unread.bytes) }
    {
        self.first.byte_count() + self.second.byte_count()
    }

    // The next pair, which has this number from 1, or none if both sources are at their ends.
    pub(crate) fn next_pair<S: Source, T: Source>(
        &mut self,
        first: &mut S,
        second: &mut T,
        number: u64,
    ) -> Result<Option<Sides<SeqRead>>, PairFault>
        ensures given { (start : Sides Seen) (limit : ℕ) (these : List Pair) → HaveGivenPairs start
            (record { first = S.seen first.old; second = T.seen second.old }) limit these self.old.stands
            → GivesPair start (record { first = S.seen first.new; second = T.seen second.new }) limit these self.new
            number result }
        ensures used { IfOk result (λ next.
            IfSome next (λ reads. self.old.stands.first.used < self.new.stands.first.used)) }
    {
        let one = match self
            .first
            .next_titled(self.alloc, first, &mut self.first_title)
        {
            Ok(one) => one,
            Err(fault) => return Err(PairFault::Reads(Side::First, fault)),
        };
        let other = match self
            .second
            .next_titled(self.alloc, second, &mut self.second_title)
        {
            Ok(other) => other,
            Err(fault) => return Err(PairFault::Reads(Side::Second, fault)),
        };
        pair_at(&self.first_title, &self.second_title, number, one, other)
    }
}

// The pair of the records with this number and these titles; a source at its end has none.
fn pair_at(
    first_title: &[u8],
    second_title: &[u8],
    number: u64,
    one: Option<SeqRead>,
    other: Option<SeqRead>,
) -> Result<Option<Sides<SeqRead>>, PairFault>
    ensures { result
        ≡ pair_at (record { first = first_title.now; second = second_title.now }) number one other }
{
    match one {
        Some(first) => match other {
            Some(second) => {
                if are_mates(first_title, second_title) {
                    Ok(Some(Sides { first, second }))
                } else {
                    Err(PairFault::Unpaired(number))
                }
            }
            None => Err(PairFault::Unpaired(number)),
        },
        None => match other {
            Some(_) => Err(PairFault::Unpaired(number)),
            None => Ok(None),
        },
    }
}
