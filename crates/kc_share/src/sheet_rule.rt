//! The rule that a sheet keeps between any two atomic steps, and how each step changes a view.
ghost use Rattle.std.specs.Prelude.{ℕ};

use crate::entry::{Entry, Plan, View};
use atomic_table::{Join, Play, Split, Table, TableRule};
use std::alloc::Global;
use std::marker::{Brand, PhantomData};

/// The rule of the cell and of all views.
pub(crate) struct SheetRule;

impl TableRule<(), View, Plan> for SheetRule {
    ghost use Rattle.kc_share.specs.Rule.{IsState, first_view};

    ghost holds = { IsState };

    ghost first = { first_view };
}

/// The split by which a share gives one part to a new share.
pub(crate) struct OnePart;

impl Split<View> for OnePart {
    ghost use Rattle.kc_share.specs.Rule.{view_less_part, part_view};

    ghost left = { view_less_part };

    ghost right = { part_view };
}

/// The split by which the first kept journal goes to a new keeper.
pub(crate) struct FirstKept;

impl Split<View> for FirstKept {
    ghost use Rattle.kc_share.specs.Rule.{view_without_first, first_kept_view};

    ghost left = { view_without_first };

    ghost right = { first_kept_view };
}

/// The split by which a view is given up whole, for one step.
pub(crate) struct Whole;

impl Split<View> for Whole {
    ghost use Rattle.kc_share.specs.Rule.{blank_view};

    ghost left = { λ view. blank_view };

    ghost right = { λ view. view };
}

/// The join of two views: one gets what both had.
pub(crate) struct Together;

impl Join<View> for Together {
    ghost use Rattle.kc_share.specs.Rule.{joined_view, blank_view};

    ghost both = { joined_view };

    ghost spent = { blank_view };
}

/// A step that changes nothing and gives what follows from the rule.
pub(crate) struct Look;

impl Play<(), View> for Look {
    ghost use Rattle.kc_share.specs.Rule.{IsLook};

    ghost then = { IsLook };
}

/// The entry of one booking.
pub(crate) trait Event {
    ghost use Rattle.kc_share.specs.declared.entry.Entry.{Entry};

    ghost entry: { Entry };
}

impl Event for Brand {
    ghost use Rattle.std.specs.Prelude.{[]};

    ghost entry = { record { batch = record { number = 0; pieces = [] }; words = 0 } };
}

/// A step that notes one booking on both sides.
pub(crate) struct Book<E: Event>(PhantomData<E>);

impl<E: Event> Play<(), View> for Book<E> {
    ghost use Rattle.kc_share.specs.Rule.{IsBooking};

    ghost then = { IsBooking E.entry };
}

/// The right to take steps, with a view.
pub(crate) type Token = atomic_table::Seat<(), View>;

pub(crate) type SheetTable = Table<(), View, Plan, SheetRule, Global>;
