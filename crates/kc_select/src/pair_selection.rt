//! A selection of pairs of reads.
ghost use Rattle.std.specs.Prelude.{◌≡◌, ◌≤◌};
ghost use Rattle.kc_select.specs.Pairs.{each, keeps_pair, counts_of_read};

use crate::pair_rule::PairRule;
use crate::selection_counts::SelectionCounts;
use crate::selector::Selector;
use crate::sides::Sides;
use kc_fastx::SeqRead;
use std::marker::Model;

/// How pairs of reads are selected: the selector, how many reads of a pair have to be solid, and how many bytes each of
/// the two sources may give.
#[derive(Drop)]
pub struct PairSelection<'a, 't> {
    selector: &'a Selector<'t>,
    asked: PairRule,
    limit: u64,
}

impl<'a, 't> Model for PairSelection<'a, 't> {
    ghost use Rattle.kc_select.specs.SelectingPairs.{PairsTask};

    ghost Value = { PairsTask };

    ghost view = { λ s. record {
      selector = record { by = s.selector.now; asked = s.asked };
      limit = s.limit;
    } };
}

// The judgement of a pair: whether it is kept, and the numbers of its reads.
#[derive(Drop)]
pub(crate) struct Judged {
    pub(crate) is_kept: bool,
    pub(crate) counts: Sides<SelectionCounts>,
}

impl<'a, 't> PairSelection<'a, 't> {
    /// The selection of the pairs with both reads solid, or any of them, by this selector; at most `limit` bytes of
    /// each source are taken. An inverted selector keeps all other pairs.
    pub fn new(selector: &'a Selector<'t>, asked: PairRule, limit: u64) -> PairSelection<'a, 't>
        ensures { result ≡ record { selector = record { by = selector.now; asked = asked }; limit = limit } }
    {
        PairSelection {
            selector,
            asked,
            limit,
        }
    }

    // The selector.
    pub(crate) fn selector(&self) -> &'a Selector<'t>
        ensures { result.now ≡ self.now.selector.by }
    {
        self.selector
    }

    // How many bytes each source may give.
    pub(crate) fn limit(&self) -> u64
        ensures { result ≡ self.now.limit }
    {
        self.limit
    }

    // Whether the pair of these reads is kept, and the numbers of both.
    pub(crate) fn judge(&self, reads: &Sides<SeqRead>) -> Judged
        ensures kept { result.is_kept ≡ keeps_pair self.now.selector reads.now.first reads.now.second }
        ensures counts { result.counts
            ≡ each (λ read. counts_of_read self.now.selector.by result.is_kept read) reads.now }
    {
        let selection = self.selector.selection();
        let first = self.selector.count_words(&reads.first);
        let second = self.selector.count_words(&reads.second);
        let is_solid = self
            .asked
            .is_met(first.has_share(selection), second.has_share(selection));
        let is_kept = selection.keeps(is_solid);
        let counts = Sides {
            first: first.of_one(is_kept),
            second: second.of_one(is_kept),
        };
        Judged { is_kept, counts }
    }
}
