//! Two stripes that are booked at the same time, each under its own lock, by one batch and by a round.
ghost use Rattle.std.specs.Prelude.{◌≡◌, All, IfOk, vec_len};
ghost use Rattle.std.specs.FinMap.{empty};
ghost use Rattle.kc_booking.specs.Setup.{stripe_count, key_bits};

use crate::open_terms::Open;
use crate::rounds::round_in;
use crate::sample_batches::{cuts_in, made_setup};
use kc_share::{Books, Share, Sheet};
use kc_stripe::{BookFault, Cut, Cuts, Ordered, Setup, Stripes};
use kc_table::{Counts, PlainCounts, TableFault};
use std::alloc::{AllocError, Global};
use std::marker::Brand;
use std::process::Abort;
use std::sync::Wait;
use std::sync::atomic::{AtomicBool, Ordering};
use std::test::Fail;
use std::thread::{Threads, join};

// What two tables exchange: that a key is stored in them, and that they saw the other's flag meanwhile.
#[derive(Drop)]
struct Flags {
    raised: (AtomicBool, AtomicBool),
    met: (AtomicBool, AtomicBool),
}

// A table that raises its flag if a key is stored or counted, and looks for the flag of another one.
#[derive(Drop)]
struct MeetingCounts<'a> {
    plain: PlainCounts,
    own: &'a AtomicBool,
    other: &'a AtomicBool,
    met: &'a AtomicBool,
}

// Whether the flag is raised before it was looked at 10^9 times.
fn is_raised_in_time(flag: &AtomicBool) -> bool {
    for _ in 0..1_000_000_000 {
        if flag.load(Ordering::SeqCst) {
            return true;
        }
    }
    false
}

// Raises a flag, and looks for the other one.
fn look_for(other: &AtomicBool, own: &AtomicBool, met: &AtomicBool) {
    own.store(true, Ordering::SeqCst);
    met.store(is_raised_in_time(other), Ordering::SeqCst);
}

impl Counts for MeetingCounts<'_> {
    ghost bits = { λ t. t.plain.bits };

    ghost counts = { λ t. t.plain.counts };

    ghost may_be_full = { λ _ _ _. ⊥ };

    ghost slots = { λ _. 0 };

    ghost part = { λ _ _. 0 };

    fn key_bits(&self) -> u32 {
        self.plain.key_bits()
    }

    fn ready(&mut self, key: u64) -> Result<(), TableFault> {
        look_for(self.other, self.own, self.met);
        self.plain.ready(key)
    }

    fn count(&mut self, key: u64) -> Result<u64, TableFault> {
        look_for(self.other, self.own, self.met);
        self.plain.count(key)
    }

    fn uncount(&mut self, key: u64) {
        self.plain.uncount(key);
    }

    fn slots(&self) -> u64 {
        self.plain.slots()
    }

    fn add(&mut self, key: u64) {
        self.plain.add(key);
    }

    fn get(&self, key: u64) -> u64 {
        self.plain.get(key)
    }

    fn part_of(&self, key: u64) -> u32 {
        self.plain.part_of(key)
    }

    fn rows(&self, alloc: Global) -> Result<Vec<(u64, u64)>, AllocError> {
        self.plain.rows(alloc)
    }

    fn greatest(&self) -> u64 {
        self.plain.greatest()
    }
}

// What is booked in one stripe: the words of one batch, or those of a round.
#[derive(Clone, Copy)]
enum Booking<'a> {
    Batch(&'a Cut),
    Round(&'a Cuts<'a>),
}

// Books it with a share that is given up then.
fn book_once<C: Counts, N: Books, R: Wait>(
    rt: &R,
    alloc: Global,
    stripes: &Stripes<C, Open<N>>,
    mut share: Share<Open<N>>,
    booking: Booking<'_>,
) -> Result<(), BookFault> {
    match booking {
        Booking::Batch(cut) => {
            if cut.stripe() >= stripes.setup().stripes() {
                return Err(BookFault::Stranger);
            }
            match stripes.book(rt, &mut share, cut) {
                Ok(()) => Ok(()),
                Err(fault) => Err(fault),
            }
        }
        Booking::Round(cuts) => {
            if cuts.stripe() >= stripes.setup().stripes() {
                return Err(BookFault::Stranger);
            }
            let mut ordered = Ordered::new(alloc)?;
            match stripes.book_all(rt, &mut share, cuts, &mut ordered) {
                Ok(_) => Ok(()),
                Err(fault) => Err(fault),
            }
        }
    }
}

// Two empty tables that look for one another.
fn meeting_tables<'a>(
    alloc: Global,
    setup: &Setup,
    flags: &'a Flags,
) -> Result<Vec<MeetingCounts<'a>>, AllocError>
    ensures count { IfOk result (λ tables. vec_len tables ≡ 2) }
    ensures tables { IfOk result (λ tables.
        All (λ table. (table.plain.counts ≡ empty) × (table.plain.bits ≡ key_bits setup.now)) tables.items) }
{
    let mut tables = Vec::new(alloc);
    tables.push(MeetingCounts {
        plain: PlainCounts::new(alloc, setup.key_bits()),
        own: &flags.raised.0,
        other: &flags.raised.1,
        met: &flags.met.0,
    })?;
    tables.push(MeetingCounts {
        plain: PlainCounts::new(alloc, setup.key_bits()),
        own: &flags.raised.1,
        other: &flags.raised.0,
        met: &flags.met.1,
    })?;
    Ok(tables)
}

// Two bookings over two tables that look for one another, each by a thread of its own.
fn book_at_once<N: Books + Send + Sync, R: Threads + Wait + Sync>(
    rt: &R,
    alloc: Global,
    setup: &Setup,
    sheet: Sheet,
    bookings: (Booking<'_>, Booking<'_>),
    flags: &Flags,
) -> Result<[Result<(), BookFault>; 2], AllocError>
    requires name { sheet.table ≡ N.table }
    requires plan { (sheet.plan.stripes ≡ 2) × (sheet.plan.parts ≡ 2) × (stripe_count setup.now ≡ 2) }
{
    let tables = meeting_tables(alloc, setup, flags)?;
    let (stripes, one) = Stripes::<MeetingCounts<'_>, Open<N>>::new(alloc, setup, tables, sheet)?;
    Ok(book_by_two(rt, alloc, &stripes, one, bookings))
}

// Splits the share in two, and books with each of them, by a thread of its own.
fn book_by_two<N: Books + Send + Sync, R: Threads + Wait + Sync>(
    rt: &R,
    alloc: Global,
    stripes: &Stripes<MeetingCounts<'_>, Open<N>>,
    mut one: Share<Open<N>>,
    bookings: (Booking<'_>, Booking<'_>),
) -> [Result<(), BookFault>; 2]
    requires { one.parts ≡ 2 }
{
    let other = stripes.split(&mut one);
    let (first, second) = bookings;
    let (one, other) = join(
        rt,
        move || book_once(rt, alloc, stripes, one, first),
        move || book_once(rt, alloc, stripes, other, second),
    );
    [one, other]
}

impl Flags {
    fn all_lowered() -> Flags {
        Flags {
            raised: (AtomicBool::new(false), AtomicBool::new(false)),
            met: (AtomicBool::new(false), AtomicBool::new(false)),
        }
    }
}

// Both bookings were taken, and each met the other one.
fn assert_met(rt: &impl Abort, booked: &[Result<(), BookFault>; 2], flags: &Flags) {
    assert!(rt; *booked == [Ok(()), Ok(())]);
    assert!(rt; flags.met.0.load(Ordering::SeqCst));
    assert!(rt; flags.met.1.load(Ordering::SeqCst));
}

// Two stripes are booked at once: each booking met the other one.
fn meet<R: Threads + Wait + Abort + Sync>(
    rt: &R,
    alloc: Global,
    setup: &Setup,
    bookings: (Booking<'_>, Booking<'_>),
) -> Result<(), Fail> {
    if setup.stripes() != 2 {
        return Err(Fail::from("another setup"));
    }
    let flags = Flags::all_lowered();
    let sheet = Sheet::new(alloc, 2, 2)?;
    let booked = book_at_once::<Brand, _>(rt, alloc, setup, sheet, bookings, &flags)?;
    assert_met(rt, &booked, &flags);
    Ok(())
}

#[test]
fn two_stripes_are_booked_at_once(rt: HostRuntime) -> Result<(), Fail> {
    let setup = made_setup(3, 2)?;
    let cuts = cuts_in(rt.alloc(), &setup, b"AAAC")?;
    let [first, second] = cuts.as_slice() else {
        return Err(Fail::from("other cuts"));
    };
    let bookings = (Booking::Batch(first), Booking::Batch(second));
    meet(&rt, rt.alloc(), &setup, bookings)
}

#[test]
fn a_round_is_booked_into_two_stripes_at_once(rt: HostRuntime) -> Result<(), Fail> {
    let round = round_in(rt.alloc(), 2, &[b"AAAC"], 8, &[0])?;
    if round.setup().stripes() != 2 {
        return Err(Fail::from("another setup"));
    }
    let (first, second) = (round.cuts(0), round.cuts(1));
    let bookings = (Booking::Round(&first), Booking::Round(&second));
    meet(&rt, rt.alloc(), round.setup(), bookings)
}
