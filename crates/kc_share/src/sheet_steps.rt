//! The steps by which shares and keepers change: a share is split or joined, a batch is noted, a journal is looked at.
ghost use Rattle.std.specs.Prelude.{◌≡◌, ℕ, ◌+◌, ◌^◌, ◌<◌, ◌≤◌, length, slice_index};
ghost use Rattle.kc_share.specs.Entries.{entry_of, entries_in, word_total, AreSame, AreAmong};
ghost use Rattle.kc_share.specs.Share.{with_entry, with_booking, with_one_part_less, new_share, joined_shares};

use crate::books::Books;
use crate::keeper::Keeper;
use crate::share::{MAX_STRIPES, Share};
use crate::sheet::OpenSheet;
use crate::sheet_rule::{Book, Event, FirstKept, Look, OnePart, Together, Whole};
use kc_word::Batch;
use std::marker::{Brand, PhantomData};

/// The cell: how many parts there are.
const PARTS: usize = 0;

impl<N: Books> OpenSheet<N> {
    /// Splits one part off a share that has two or more. Returns a share with that part, which has booked nothing.
    /// Takes no memory.
    pub fn split(&self, share: &mut Share<N>) -> Share<N>
        requires { 2 ≤ share.old.parts }
        ensures share { share.new ≡ with_one_part_less share.old }
        ensures new { result ≡ new_share share.old }
    {
        let token = self.table.shared.split_seat::<OnePart>(&mut share.token);
        share.parts -= 1;
        Share {
            token,
            parts: 1,
            words: [0; 64],
            entries: [0; 64],
            name: PhantomData,
        }
    }

    /// Joins two shares: their parts and numbers are added up, and the bookings of one follow those of the other. Takes
    /// no memory.
    pub fn join(&self, share: &mut Share<N>, other: Share<N>)
        ensures { share.new ≡ joined_shares share.old other }
    {
        let Share {
            token,
            parts,
            words,
            entries,
            name: _,
        } = other;
        let shared = &self.table.shared;
        shared.join_seat::<Together>(&mut share.token, token);
        shared.load::<Look>(&mut share.token, PARTS);
        share.parts += parts;
        add_each(&mut share.words, &words);
        add_each(&mut share.entries, &entries);
    }

    /// Notes that a batch was booked into the stripe of a keeper: records it in the keeper's journal and in the share,
    /// with the number of its words there. Takes no memory.
    ///
    /// Condition: the words and the entries of the journal stay below 2^64.
    pub fn note(&self, share: &mut Share<N>, keeper: &mut Keeper<N>, batch: &Batch, words: u64)
        requires words { word_total keeper.old.journal + words < 2 ^ 64 }
        requires entries { length keeper.old.journal + 1 < 2 ^ 64 }
        ensures share { share.new ≡ with_booking share.old keeper.old.stripe (entry_of batch.now words) }
        ensures keeper { keeper.new ≡ with_entry keeper.old (entry_of batch.now words) }
    {
        self.note_as::<Brand>(share, keeper, batch, words);
    }

    // Notes a booking. Its entry is a type, since the statement of an atomic step can't take a value.
    fn note_as<E: Event>(
        &self,
        share: &mut Share<N>,
        keeper: &mut Keeper<N>,
        batch: &Batch,
        words: u64,
    )
        requires entry { E.entry ≡ entry_of batch.now words }
        requires words { word_total keeper.old.journal + words < 2 ^ 64 }
        requires entries { length keeper.old.journal + 1 < 2 ^ 64 }
        ensures share { share.new ≡ with_booking share.old keeper.old.stripe (entry_of batch.now words) }
        ensures keeper { keeper.new ≡ with_entry keeper.old (entry_of batch.now words) }
    {
        let stripe = keeper.stripe as usize;
        let shared = &self.table.shared;
        // The share takes the keeper's view, so that one atomic step is about both, and gives it back.
        let all = shared.split_seat::<Whole>(&mut keeper.token);
        shared.join_seat::<Together>(&mut share.token, all);
        shared.load::<Book<E>>(&mut share.token, PARTS);
        keeper.token = shared.split_seat::<FirstKept>(&mut share.token);
        share.words[stripe] += words;
        share.entries[stripe] += 1;
    }

    /// Relates a keeper's journal to a share: what the share booked into the keeper's stripe is among the journal's
    /// entries, each as often; and if the share has all parts, it is all of them.
    pub fn look(&self, share: &mut Share<N>, keeper: &mut Keeper<N>)
        ensures share { share.new ≡ share.old }
        ensures keeper { keeper.new ≡ keeper.old }
        ensures among { AreAmong (entries_in keeper.old.stripe share.old.booked) keeper.old.journal }
        ensures whole { share.old.parts ≡ share.old.plan.parts
            → AreSame (entries_in keeper.old.stripe share.old.booked) keeper.old.journal }
    {
        let shared = &self.table.shared;
        // As in a booking, the share takes the keeper's view, and gives it back.
        let all = shared.split_seat::<Whole>(&mut keeper.token);
        shared.join_seat::<Together>(&mut share.token, all);
        shared.load::<Look>(&mut share.token, PARTS);
        keeper.token = shared.split_seat::<FirstKept>(&mut share.token);
    }
}

// Adds up two lists of numbers, one for each stripe.
fn add_each(numbers: &mut [u64; 64], others: &[u64; 64])
    requires { (stripe : ℕ) → stripe < 64
        → slice_index numbers.old stripe + slice_index others.now stripe < 2 ^ 64 }
    ensures { (stripe : ℕ) → stripe < 64
        → slice_index numbers.new stripe ≡ slice_index numbers.old stripe + slice_index others.now stripe }
{
    for stripe in 0..MAX_STRIPES {
        numbers[stripe] += others[stripe];
    }
}
