//! A share: what one worker has booked, and how much of the whole that is.
ghost use Rattle.std.specs.Prelude.{◌≡◌, ◌<◌};
ghost use Rattle.kc_share.specs.Share.{word_total_in, entry_total_in};

use crate::books::Books;
use crate::sheet_rule::Token;
use std::marker::{Model, PhantomData};

/// The greatest number of stripes.
pub(crate) const MAX_STRIPES: usize = 64;

/// A share of the sheet: how much one worker has booked in each stripe, and how many of the sheet's parts it has. Its
/// view is a `ShareSeen`: the plan of its sheet, its parts, and the list of all that it booked. That list takes no
/// bytes.
#[derive(Drop)]
pub struct Share<N: Books> {
    pub(crate) token: Token,
    pub(crate) parts: u64,
    pub(crate) words: [u64; 64],
    pub(crate) entries: [u64; 64],
    pub(crate) name: PhantomData<N>,
}

impl<N: Books> Model for Share<N> {
    ghost use Rattle.std.specs.Prelude.{◌≡◌, ◌<◌, ◌≤◌, []};
    ghost use Rattle.kc_share.specs.Share.{ShareSeen, share_of, word_total_in, entry_total_in, AreNumbersOf};

    ghost Value = { ShareSeen };

    ghost view = { λ s. share_of s.token.me.0.plan s.token.me.0.parts s.token.me.0.booked };

    ghost invariant = { λ s.
        (s.token.table_id ≡ N.table)
        × (s.token.me.1 ≡ [])
        × (s.token.me.0.kept ≡ [])
        × (s.parts ≡ s.token.me.0.parts)
        × (0 < s.parts)
        × (s.token.me.0.plan.stripes ≤ 64)
        × AreNumbersOf (λ stripe. word_total_in stripe s.token.me.0.booked) s.words
        × AreNumbersOf (λ stripe. entry_total_in stripe s.token.me.0.booked) s.entries };
}

impl<N: Books> Share<N> {
    /// How many of the parts it has.
    pub fn parts(&self) -> u64
        ensures { result ≡ self.now.parts }
    {
        self.parts
    }

    /// How many words it booked into a stripe. Condition: the stripe's number is below the number of stripes.
    pub fn words(&self, stripe: u32) -> u64
        requires { stripe < self.now.plan.stripes }
        ensures { result ≡ word_total_in stripe self.now.booked }
    {
        self.words[stripe as usize]
    }

    /// How many batches it booked into a stripe. Condition: the stripe's number is below the number of stripes.
    pub fn entries(&self, stripe: u32) -> u64
        requires { stripe < self.now.plan.stripes }
        ensures { result ≡ entry_total_in stripe self.now.booked }
    {
        self.entries[stripe as usize]
    }
}
