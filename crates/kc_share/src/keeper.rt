//! A keeper: behind a stripe's lock, it has what the sheet knows of the stripe's journal.

use crate::books::Books;
use crate::sheet_rule::Token;
use std::marker::{Model, PhantomData};

/// A stripe's keeper: what the sheet knows of the stripe's journal. It belongs behind the stripe's lock. Its view is
/// the stripe's number, and the journal: all that was ever booked into the stripe. The journal takes no bytes.
#[derive(Drop)]
pub struct Keeper<N: Books> {
    pub(crate) token: Token,
    pub(crate) stripe: u32,
    pub(crate) name: PhantomData<N>,
}

impl<N: Books> Model for Keeper<N> {
    ghost use Rattle.std.specs.Prelude.{◌≡◌, ◌<◌, []};
    ghost use Rattle.kc_share.specs.declared.entry.KeptStripe.{KeptStripe};
    ghost use Rattle.kc_share.specs.Share.{first_kept};
    ghost use Rattle.kc_share.specs.Rule.{keeper_view};

    ghost Value = { KeptStripe };

    ghost view = { λ k. first_kept k.token.me.0.kept };

    ghost invariant = { λ k.
        (k.token.table_id ≡ N.table)
        × (k.token.me ≡ (keeper_view (first_kept k.token.me.0.kept), []))
        × (k.stripe ≡ (first_kept k.token.me.0.kept).stripe)
        × (k.stripe < 64) };
}
