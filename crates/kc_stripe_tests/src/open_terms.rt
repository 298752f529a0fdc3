//! Sheets with stripes that allow everything.

use kc_share::Books;
use kc_stripe::Terms;
use std::marker::PhantomData;

// The name of a sheet, by which every batch may be booked, and every table may be full.
pub(crate) struct Open<N> {
    of: PhantomData<N>,
}

impl<N: Books> Books for Open<N> {
    ghost table = { N.table };
}

impl<N: Books> Terms for Open<N> {
    ghost use Rattle.std.specs.Prelude.{⊤};

    ghost may_be_booked = { λ _. ⊤ };

    ghost may_be_full = { λ _ _. ⊤ };
}
