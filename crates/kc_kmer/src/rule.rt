//! The rule of a count: the length of its words, whether both strands count, and the floor of qualities.
ghost use Rattle.std.specs.Prelude.{◌≡◌, ◌≤◌, None};
ghost use Rattle.kc_kmer.specs.Rule.{unlisted_rule};

use crate::k::K;
use std::marker::Model;

/// The rule of a count: the length of the words, whether both strands count (each word then counts under its canonical
/// form), and the least quality byte of a usable base, from 33 to 126.
#[derive(Clone, Copy, PartialEq, Eq, Debug)]
pub struct Rule {
    k: K,
    both: bool,
    floor: u8,
}

impl Model for Rule {
    ghost use Rattle.std.specs.Prelude.{◌≤◌};
    ghost use Rattle.kc_kmer.specs.Rule.{CountingRule, unlisted_rule};

    ghost Value = { CountingRule };

    ghost view = { λ r. unlisted_rule r.k r.both r.floor };

    ghost invariant = { λ r. (33 ≤ r.floor) × (r.floor ≤ 126) };

    ghost inverse = { λ v. record { k = v.k; both = v.both; floor = v.floor } };
}

impl Rule {
    /// Words of k bases, on one strand or on both, of bases whose quality byte is at least `floor`.
    /// Condition: the floor is 33 to 126. At 33 every quality passes.
    pub fn new(k: K, both: bool, floor: u8) -> Rule
        requires low { 33 ≤ floor }
        requires high { floor ≤ 126 }
        ensures { result ≡ unlisted_rule k both floor }
    {
        Rule { k, both, floor }
    }

    /// A law: a rule has no list of words, so each word counts.
    #[inline(always)]
    pub fn has_no_list(self)
        ensures { self.only ≡ None }
    {
        let _k = self.k;
    }

    /// The length of the words.
    pub fn k(self) -> K
        ensures { result ≡ self.k }
    {
        self.k
    }

    /// Whether both strands count.
    pub fn both(self) -> bool
        ensures { result ≡ self.both }
    {
        self.both
    }

    /// The least quality byte of a usable base.
    pub fn floor(self) -> u8
        ensures value { result ≡ self.floor }
        ensures low { 33 ≤ result }
        ensures high { result ≤ 126 }
    {
        self.floor
    }
}
