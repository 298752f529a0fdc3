//! Sheets, and how their keepers and their first share are made.
ghost use Rattle.std.specs.Prelude.{◌≡◌, ◌+◌, ◌<◌, ◌≤◌, [], IfOk};
ghost use Rattle.kc_share.specs.Share.{share_of, kept_stripe};
ghost use Rattle.kc_share.specs.Sheet.{plan_of, opening_of};

use crate::books::Books;
use crate::entry::Plan;
use crate::keeper::Keeper;
use crate::share::Share;
use crate::sheet_rule::{FirstKept, SheetTable, Token};
use std::alloc::{AllocError, Global};
use std::marker::{Model, PhantomData};

/// The sheet of a run, the account that all shares keep together, before it has a name. Its view is its atomic table,
/// and its plan.
#[derive(Drop)]
pub struct Sheet {
    table: SheetTable,
    first: Token,
    plan: Plan,
}

impl Model for Sheet {
    ghost use Rattle.std.specs.Prelude.{◌≡◌, ◌<◌, ◌≤◌, []};
    ghost use Rattle.kc_share.specs.Sheet.{SheetSeen, sheet_of};
    ghost use Rattle.kc_share.specs.Rule.{first_view};

    ghost Value = { SheetSeen };

    ghost view = { λ s. sheet_of s.table.shared.table_id s.table.shared.key };

    ghost invariant = { λ s.
        (s.table.shared.table_id.words ≡ 1)
        × (s.first.table_id ≡ s.table.shared.table_id)
        × (s.first.me ≡ (first_view s.table.shared.key, []))
        × (s.plan ≡ s.table.shared.key)
        × (s.plan.stripes ≤ 64)
        × (0 < s.plan.parts) };
}

impl Sheet {
    /// Makes a sheet for so many stripes, with a first share of so many parts.
    ///
    /// Conditions: there are 1 to 64 stripes, and at least one part. Fails only if there is no memory.
    pub fn new(alloc: Global, stripes: u32, parts: u64) -> Result<Sheet, AllocError>
        requires stripes { (1 ≤ stripes) × (stripes ≤ 64) }
        requires parts { 1 ≤ parts }
        ensures { IfOk result (λ sheet. sheet.plan ≡ plan_of stripes parts) }
    {
        let plan = Plan {
            stripes: u64::from(stripes),
            parts,
        };
        let (table, first) = SheetTable::of_words(alloc, &[plan.parts], &plan)?;
        Ok(Sheet { table, first, plan })
    }

    /// Opens the sheet under its name.
    pub fn open<N: Books>(self) -> (OpenSheet<N>, Opening<N>)
        requires { self.table ≡ N.table }
        ensures sheet { result.0 ≡ self.plan }
        ensures opening { result.1 ≡ opening_of self.plan 0 }
    {
        let Sheet { table, first, plan } = self;
        let sheet = OpenSheet {
            table,
            name: PhantomData,
        };
        let opening = Opening {
            token: first,
            plan,
            next: 0,
            name: PhantomData,
        };
        (sheet, opening)
    }
}

/// A sheet while its keepers are made, one for each stripe in order. Its view is its plan, and the number of the stripe
/// whose keeper is made next.
#[derive(Drop)]
pub struct Opening<N: Books> {
    token: Token,
    plan: Plan,
    next: u32,
    name: PhantomData<N>,
}

impl<N: Books> Model for Opening<N> {
    ghost use Rattle.std.specs.Prelude.{◌≡◌, ◌-◌, ◌<◌, ◌≤◌, []};
    ghost use Rattle.kc_share.specs.Sheet.{OpeningSeen, opening_of};
    ghost use Rattle.kc_share.specs.Rule.{view_of, empty_stripes};

    ghost Value = { OpeningSeen };

    ghost view = { λ o. opening_of o.plan o.next };

    ghost invariant = { λ o.
        (o.token.table_id ≡ N.table)
        × (o.token.me ≡ (view_of o.plan o.plan.parts [] (empty_stripes o.next (o.plan.stripes - o.next)), []))
        × (o.next ≤ o.plan.stripes)
        × (o.plan.stripes ≤ 64)
        × (0 < o.plan.parts) };
}

/// A sheet under its name, which its shares and keepers use for their steps. Threads share it by reference. Its view is
/// its plan.
#[derive(Drop)]
pub struct OpenSheet<N: Books> {
    pub(crate) table: SheetTable,
    name: PhantomData<N>,
}

impl<N: Books> Model for OpenSheet<N> {
    ghost use Rattle.std.specs.Prelude.{◌≡◌};
    ghost use Rattle.kc_share.specs.declared.entry.Plan.{Plan};

    ghost Value = { Plan };

    ghost view = { λ s. s.table.shared.key };

    ghost invariant = { λ s. (s.table.shared.table_id ≡ N.table) × (s.table.shared.table_id.words ≡ 1) };
}

impl<N: Books> OpenSheet<N> {
    /// Makes the next stripe's keeper, with an empty journal. Condition: there is a stripe left.
    pub fn next_keeper(&self, opening: &mut Opening<N>) -> Keeper<N>
        requires { opening.old.next < opening.old.plan.stripes }
        ensures keeper { result ≡ kept_stripe opening.old.next [] }
        ensures opening { opening.new ≡ opening_of opening.old.plan (opening.old.next + 1) }
    {
        let shared = &self.table.shared;
        let token = shared.split_seat::<FirstKept>(&mut opening.token);
        let stripe = opening.next;
        opening.next += 1;
        Keeper {
            token,
            stripe,
            name: PhantomData,
        }
    }

    /// Makes the first share, which has all parts, after each stripe has its keeper.
    pub fn first_share(&self, opening: Opening<N>) -> Share<N>
        requires { opening.next ≡ opening.plan.stripes }
        ensures { result ≡ share_of opening.plan opening.plan.parts [] }
    {
        let Opening {
            token,
            plan,
            next: _,
            name: _,
        } = opening;
        Share {
            token,
            parts: plan.parts,
            words: [0; 64],
            entries: [0; 64],
            name: PhantomData,
        }
    }
}
