//! How many reads of a pair have to be solid.
ghost use Rattle.std.specs.Prelude.{◌≡◌};
ghost use Rattle.kc_select.specs.Pairs.{is_solid_pair};

/// How many reads of a pair have to be solid.
#[derive(Clone, Copy, PartialEq, Eq, Debug)]
pub enum PairRule {
    /// Both reads.
    All,
    /// At least one read.
    Any,
}

impl PairRule {
    // Whether a pair meets the rule, given which of its reads are solid.
    pub(crate) fn is_met(self, first: bool, second: bool) -> bool
        ensures { result ≡ is_solid_pair self first second }
    {
        match self {
            PairRule::All => first && second,
            PairRule::Any => first || second,
        }
    }
}
