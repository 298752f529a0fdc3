//! A stripe, which always has exactly the counts of the batches in its journal.
ghost use Rattle.std.specs.Prelude.{◌≡◌, ◌+◌, ◌<◌, ◌≤◌, ◌^◌, ◌≢◌, ◌==◌, ◌↔◌, ◌⊎◌, [], ◌∷◌, ◌++◌, length, sum_by};
ghost use Rattle.std.specs.Prelude.{map, count_by, max, ◌*◌, ℕ, IfOk, IfErr, IsOk, OnOk, OnErr, MatchBool, nat_eq};
ghost use Rattle.std.specs.List.Sorted.{IsPermutation};
ghost use Rattle.std.specs.HashSet.{contains, spare};
ghost use Rattle.std.specs.Vec.{vec_capacity};
ghost use Rattle.std.specs.FinMap.{empty};
ghost use Rattle.kc_word.specs.Shared.{values};
ghost use Rattle.kc_tally.specs.Histogram.{last_bin, bin_of, bin_at};
ghost use Rattle.kc_tally.specs.Statistics.{greatest_of};
ghost use Rattle.kc_booking.specs.Setup.{word_count, stripe_count, key_bits, stripe_of, stripe_words};
ghost use Rattle.kc_booking.specs.Cut.{keys_of};
ghost use Rattle.kc_booking.specs.Cuts.{all_keys_of, round_at, IsOwnRound, FirstIsBooked, FirstIsNew};
ghost use Rattle.kc_booking.specs.Counted.{KeepsLimits, SomeMayBeFull, SomeMayBeFullInSomeOrder};
ghost use Rattle.kc_booking.specs.Stripe.{StripeState, IsLawful, IsBooked, IsOwnCut, IsUnchanged, AreStripeRows};
ghost use Rattle.kc_booking.specs.Stripe.{word_occurrences, stripe_occurrences, NumbersDiffer, KnowsNumbers};
ghost use Rattle.kc_booking.specs.Stripe.{row_of_pair};

use crate::at_least::AtLeast;
use crate::booking_fault::BookFault;
use crate::counted::CountedTable;
use crate::cut::Cut;
use crate::cuts::{Cuts, clones_of};
use crate::part_order::Ordered;
use crate::setup::Setup;
use kc_table::Counts;
use kc_tally::Histogram;
use kc_word::{Batch, Word};
use std::alloc::{AllocError, Global};
use std::collections::HashSet;
use std::marker::Model;
use std::sync::Arc;

/// One stripe of a count: the batches that were booked into it, and the counts of their words that belong to it.
#[derive(Drop)]
pub struct Stripe<C: Counts> {
    setup: Setup,
    number: u32,
    counted: CountedTable<C>,
    journal: Vec<Arc<Batch>>,
    // the numbers in the journal
    booked: HashSet<u64>,
}

impl<C: Counts> Model for Stripe<C> {
    ghost use Rattle.std.specs.Prelude.{nat_eq};
    ghost use Rattle.std.specs.HashSet.{contains};
    ghost use Rattle.kc_word.specs.Shared.{values};
    ghost use Rattle.kc_booking.specs.Stripe.{StripeState, IsLawful, IsKept};

    ghost Value = { StripeState C };

    ghost view = { λ s. record {
      setup = s.setup;
      number = s.number;
      journal = values s.journal.items;
      table = s.counted.table;
      bins = s.counted.bins;
      total = s.counted.total;
    } };

    ghost invariant = { λ s.
        IsLawful s.setup s.number (values s.journal.items)
        (C.counts s.counted.table) s.counted.bins s.counted.total
        × IsKept s.setup s.number (values s.journal.items) (C.bits s.counted.table) (contains nat_eq s.booked) };
}

impl<C: Counts + Drop> Stripe<C> {
    /// The stripe with this number, without batches. Conditions: the number is below the number of stripes; nothing is
    /// stored in the table, and its keys have the setup's `key_bits`.
    pub fn new(alloc: Global, setup: &Setup, number: u32, table: C) -> Result<Stripe<C>, AllocError>
        requires number { number < stripe_count setup.now }
        requires empty { C.counts table ≡ empty }
        requires key_bits { C.bits table ≡ key_bits setup.now }
        ensures setup { IfOk result (λ stripe. stripe.setup ≡ setup.now) }
        ensures number { IfOk result (λ stripe. stripe.number ≡ number) }
        ensures total { IfOk result (λ stripe. stripe.total ≡ 0) }
        ensures journal { IfOk result (λ stripe. stripe.journal ≡ []) }
        ensures table { IfOk result (λ stripe. stripe.table ≡ table) }
    {
        // for the proof: facts about the words and their keys
        setup.hash.is_permutation();
        let setup = setup.clone()?;
        let at_least = AtLeast::new(alloc)?;
        let counted = CountedTable {
            table,
            at_least,
            total: 0,
        };
        Ok(Stripe {
            setup,
            number,
            counted,
            journal: Vec::new(alloc),
            booked: HashSet::new(alloc),
        })
    }
}

impl<C: Counts> Stripe<C> {
    /// A law: the stripe has exactly the counts of the batches in its journal.
    pub fn is_lawful(&self)
        ensures { IsLawful self.now.setup self.now.number self.now.journal
            (C.counts self.now.table) self.now.bins self.now.total }
    {
        // Reading it makes the stripe's invariant known.
        let _number = self.number;
    }

    /// How the words are divided.
    pub fn setup(&self) -> &Setup
        ensures { result.now ≡ self.now.setup }
    {
        &self.setup
    }

    /// The number of the stripe.
    pub fn number(&self) -> u32
        ensures value { result ≡ self.now.number }
        ensures own { result < stripe_count self.now.setup }
    {
        self.number
    }

    /// The batches that were booked, in order.
    pub fn journal(&self) -> &[Arc<Batch>]
        ensures { values result.now ≡ self.now.journal }
    {
        &self.journal
    }

    /// The sum of the occurrences of the stripe's words in the journal's batches.
    pub fn total(&self) -> u64
        ensures value { result ≡ self.now.total }
        ensures words { result ≡ sum_by (word_occurrences self.now.setup self.now.journal)
            (stripe_words self.now.setup self.now.number) }
        ensures at_most { result ≤ 2 ^ 62 }
    {
        self.counted.total
    }

    /// How many slots the stripe's table has. It matters only for speed.
    pub fn slots(&self) -> u64
        ensures { result ≡ C.slots self.now.table }
    {
        self.counted.table.slots()
    }

    /// How many words of the stripe have this count in the journal's batches; those with a count above 10,000 are in
    /// bin 10,001. Condition: the bin is 1 to 10,001.
    pub fn bin(&self, bin: u64) -> u64
        requires some { 1 ≤ bin }
        requires within { bin ≤ last_bin }
        ensures value { result ≡ bin_at self.now.bins bin }
        ensures words { result ≡ count_by
            (λ word. bin_of (word_occurrences self.now.setup self.now.journal word) == bin)
            (stripe_words self.now.setup self.now.number) }
    {
        self.counted.bin(bin)
    }

    /// How many words of the stripe have which count in the journal's batches.
    pub fn histogram(&self, alloc: Global) -> Result<Histogram, AllocError>
        ensures { IfOk result (λ bins. bins ≡ self.now.bins) }
    {
        self.counted.histogram(alloc)
    }

    /// The greatest count of a word of the stripe in the journal's batches, 0 if none occurs. It looks at each key once
    /// and takes no memory.
    pub fn greatest(&self) -> u64
        ensures { result ≡ greatest_of (stripe_occurrences self.now.setup self.now.number self.now.journal) }
    {
        // for the proof: facts about the keys
        let _bits = self.counted.table.key_bits();
        self.counted.table.greatest()
    }

    /// How often a word of the stripe occurs in the journal's batches; 0 for a word of another stripe. Condition: the
    /// word is below 4^k.
    pub fn count_of(&self, word: Word) -> u64
        requires { word.0 < word_count self.now.setup }
        ensures own { stripe_of self.now.setup word.0 ≡ self.now.number
            → result ≡ word_occurrences self.now.setup self.now.journal word.0 }
        ensures other { stripe_of self.now.setup word.0 ≢ self.now.number → result ≡ 0 }
    {
        if self.setup.stripe_of(word) != self.number {
            return 0;
        }
        self.counted.table.get(self.setup.key_of(word))
    }

    /// The words of the stripe that occur in the journal's batches, each once, with its occurrences, in any order.
    pub fn rows(&self, alloc: Global) -> Result<Vec<(u64, u64)>, AllocError>
        ensures { IfOk result (λ rows.
            AreStripeRows self.now.setup self.now.number self.now.journal (map row_of_pair rows.items)) }
    {
        let setup = &self.setup;
        // for the proof: facts about the words and their keys
        let _bits = setup.stripe_bits;
        let mut rows = self.counted.table.rows(alloc)?;
        let tables = setup.hash.back_tables();
        // in place, since a second list would double the memory
        for row in rows.iter_mut() {
            let hash_value = setup.hash_value_at(self.number, row.0);
            row.0 = tables.apply(hash_value);
        }
        Ok(rows)
    }

    /// Books a batch: its words that belong to this stripe are counted, and the journal gets it.
    pub fn book(&mut self, cut: &Cut) -> Result<(), BookFault>
        ensures setup { self.new.setup ≡ self.old.setup }
        ensures number { self.new.number ≡ self.old.number }
        ensures journal { OnOk result (self.new.journal ≡ self.old.journal ++ cut.now.batch ∷ []) }
        ensures total { OnOk result (self.new.total ≡ self.old.total + length (keys_of cut.now)) }
        ensures small { OnOk result ((self.new.total ≤ 2 ^ 62) × (length self.new.journal < 2 ^ 64)) }
        ensures own { OnOk result (IsOwnCut self.old cut.now) }
        ensures unchanged { OnErr result (IsUnchanged C.counts self.old self.new) }
        ensures twice { result ≡ Err BookFault.Twice ↔ IsBooked self.old.journal cut.now.batch.number }
        ensures stranger { result ≡ Err BookFault.Stranger
            ↔ (¬ IsBooked self.old.journal cut.now.batch.number × ¬ IsOwnCut self.old cut.now) }
        ensures full { result ≡ Err BookFault.Full → (2 ^ 62 < self.old.total + length (keys_of cut.now))
            ⊎ SomeMayBeFull (C.may_be_full self.old.table) (C.counts self.old.table) (keys_of cut.now) }
        ensures memory { result ≡ Err BookFault.Memory → self.old.total + length (keys_of cut.now) ≤ 2 ^ 62 }
        ensures limits { KeepsLimits C.bits C.may_be_full self.old.table self.new.table }
    {
        // for the proof: facts about the journal, whose batches have different numbers
        let _number = self.number;
        let size = cut.keys.len();
        let cuts = cut.as_round(&size);
        self.check_all(&cuts)?;
        self.count_and_enter(cuts.batches, cuts.keys)
    }

    /// Books several batches, all or none: their words that belong to this stripe are counted, and the journal gets
    /// them in order. If there are no batches, nothing changes.
    ///
    /// The fault is that of the first cut that `book` would refuse, cut by cut; but a number that occurs twice is
    /// reported before a full stripe. The keys are counted in the order of the table's parts, so a full table may
    /// refuse another key than the first that `book` would meet. `ordered` loses what it had, and its buffers are used
    /// again.
    pub fn book_all(&mut self, cuts: &Cuts, ordered: &mut Ordered) -> Result<(), BookFault>
        ensures setup { self.new.setup ≡ self.old.setup }
        ensures number { self.new.number ≡ self.old.number }
        ensures journal { OnOk result (self.new.journal ≡ self.old.journal ++ cuts.now.batches) }
        ensures total { OnOk result (self.new.total ≡ self.old.total + length (all_keys_of cuts.now)) }
        ensures small { OnOk result ((self.new.total ≤ 2 ^ 62) × (length self.new.journal < 2 ^ 64)) }
        ensures own { OnOk result ((cuts.now.batches ≡ []) ⊎ IsOwnRound self.old cuts.now) }
        ensures unchanged { OnErr result (IsUnchanged C.counts self.old self.new) }
        ensures twice { result ≡ Err BookFault.Twice ↔ (FirstIsBooked self.old.journal cuts.now.batches
            ⊎ (IsOwnRound self.old cuts.now × ¬ NumbersDiffer (self.old.journal ++ cuts.now.batches))) }
        ensures stranger { result ≡ Err BookFault.Stranger
            ↔ (FirstIsNew self.old.journal cuts.now.batches × ¬ IsOwnRound self.old cuts.now) }
        ensures full { result ≡ Err BookFault.Full → (2 ^ 62 < self.old.total + length (all_keys_of cuts.now))
            ⊎ SomeMayBeFullInSomeOrder (C.may_be_full self.old.table) (C.counts self.old.table)
            (all_keys_of cuts.now) }
        ensures memory { result ≡ Err BookFault.Memory
            → self.old.total + length (all_keys_of cuts.now) ≤ 2 ^ 62 }
        ensures limits { KeepsLimits C.bits C.may_be_full self.old.table self.new.table }
        ensures empty { cuts.now.batches ≡ [] → IsOk result }
    {
        if cuts.batches.is_empty() {
            // For the proof: facts about the journal, whose batches have different numbers.
            let _number = self.number;
            return Ok(());
        }
        self.check_all(cuts)?;
        ordered.order(&self.counted.table, cuts.keys)?;
        self.count_and_enter(cuts.batches, &ordered.keys)
    }

    // Whether the batches are new ones of this stripe, and the total stays within its limit. Condition: there is at
    // least one.
    fn check_all(&self, cuts: &Cuts) -> Result<(), BookFault>
        requires { 1 ≤ length cuts.now.batches }
        ensures new { OnOk result (NumbersDiffer (self.now.journal ++ cuts.now.batches)) }
        ensures own { OnOk result (IsOwnRound self.now cuts.now) }
        ensures room { OnOk result (self.now.total + length (all_keys_of cuts.now) ≤ 2 ^ 62) }
        ensures twice { result ≡ Err BookFault.Twice ↔ (FirstIsBooked self.now.journal cuts.now.batches
            ⊎ (IsOwnRound self.now cuts.now × ¬ NumbersDiffer (self.now.journal ++ cuts.now.batches))) }
        ensures stranger { result ≡ Err BookFault.Stranger
            ↔ (FirstIsNew self.now.journal cuts.now.batches × ¬ IsOwnRound self.now cuts.now) }
        ensures full { result ≡ Err BookFault.Full → 2 ^ 62 < self.now.total + length (all_keys_of cuts.now) }
        ensures memory { ¬ (result ≡ Err BookFault.Memory) }
    {
        if self.has_booked(&cuts.batches[0]) {
            return Err(BookFault::Twice);
        }
        if *cuts.setup != self.setup || cuts.stripe != self.number {
            return Err(BookFault::Stranger);
        }
        if !cuts.numbers_differ {
            return Err(BookFault::Twice);
        }
        for batch in cuts.batches {
            if self.has_booked(batch) {
                return Err(BookFault::Twice);
            }
        }
        if cuts.keys.len() as u64 > MAX_WORDS - self.counted.total {
            return Err(BookFault::Full);
        }
        Ok(())
    }

    // Whether a batch with this number was booked.
    fn has_booked(&self, batch: &Arc<Batch>) -> bool
        ensures { MatchBool result (IsBooked self.now.journal batch.now.value.number)
            (¬ IsBooked self.now.journal batch.now.value.number) }
    {
        self.booked.contains(&batch.number())
    }

    // Counts the keys and enters the batches in the journal, or neither. Conditions: the batches are new ones, the keys
    // are those of their words in this stripe, in any order, and the total stays within its limit.
    fn count_and_enter(&mut self, batches: &[Arc<Batch>], keys: &[u64]) -> Result<(), BookFault>
        requires new { NumbersDiffer (self.old.journal ++ values batches.now) }
        requires keys { IsPermutation
            (all_keys_of (round_at self.old.setup (values batches.now) self.old.number)) keys.now }
        requires room { self.old.total + length keys.now ≤ 2 ^ 62 }
        ensures setup { self.new.setup ≡ self.old.setup }
        ensures number { self.new.number ≡ self.old.number }
        ensures journal { OnOk result (self.new.journal ≡ self.old.journal ++ values batches.now) }
        ensures total { OnOk result (self.new.total ≡ self.old.total + length keys.now) }
        ensures small { OnOk result ((self.new.total ≤ 2 ^ 62) × (length self.new.journal < 2 ^ 64)) }
        ensures unchanged { OnErr result (IsUnchanged C.counts self.old self.new) }
        ensures refused { IfErr result (λ fault. (fault ≡ BookFault.Full) ⊎ (fault ≡ BookFault.Memory)) }
        ensures full { result ≡ Err BookFault.Full
            → SomeMayBeFull (C.may_be_full self.old.table) (C.counts self.old.table) keys.now }
        ensures limits { KeepsLimits C.bits C.may_be_full self.old.table self.new.table }
    {
        // what can fail comes first; if it fails, no count and no entry of the journal has changed
        let clones = clones_of(*self.journal.allocator(), batches)?;
        make_room(&mut self.journal, &mut self.booked, batches.len())?;
        self.counted.count_all(keys)?;
        enter_all(&mut self.journal, &mut self.booked, clones);
        Ok(())
    }
}

// Makes room for so many more batches in the journal, and for their numbers among the booked ones. A journal with too
// little room gets room for twice its batches and so many more.
fn make_room(
    journal: &mut Vec<Arc<Batch>>,
    booked: &mut HashSet<u64>,
    more: usize,
) -> Result<(), AllocError>
    ensures room { OnOk result (length journal.new.items + more ≤ vec_capacity journal.new) }
    ensures spare { OnOk result (more ≤ spare booked.new) }
    ensures same_journal { journal.new.items ≡ journal.old.items }
    ensures same_numbers { (n : ℕ) → contains nat_eq booked.new n ≡ contains nat_eq booked.old n }
    ensures bounded { vec_capacity journal.new
        ≤ max (vec_capacity journal.old) (2 * length journal.old.items + more) }
    ensures doubled { OnOk result ((vec_capacity journal.new ≡ vec_capacity journal.old)
        ⊎ (2 * length journal.old.items + more ≤ vec_capacity journal.new)) }
{
    if journal.capacity() - journal.len() < more {
        journal.reserve_exact(journal.len().saturating_add(more))?;
    }
    booked.reserve(more)
}

// Appends several batches to the journal, in order, and adds their numbers to the booked ones. Conditions: there is
// room for them, and the booked numbers are those in the journal.
fn enter_all(journal: &mut Vec<Arc<Batch>>, booked: &mut HashSet<u64>, mut batches: Vec<Arc<Batch>>)
    requires room { length journal.old.items + length batches.items ≤ vec_capacity journal.old }
    requires spare { length batches.items ≤ spare booked.old }
    requires known { KnowsNumbers (contains nat_eq booked.old) (values journal.old.items) }
    ensures entered { values journal.new.items ≡ values journal.old.items ++ values batches.items }
    ensures known { KnowsNumbers (contains nat_eq booked.new) (values journal.new.items) }
{
    for batch in &batches {
        let Ok(_) = booked.insert(batch.number()) else {
            // There is room for it.
            return;
        };
    }
    let Ok(()) = journal.append(&mut batches) else {
        // And for all of them.
        return;
    };
}

// The greatest total.
const MAX_WORDS: u64 = 1 << 62;
