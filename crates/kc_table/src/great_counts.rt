//! The counts that are too large for their slots.
ghost use Rattle.std.specs.Prelude.{◌≡◌, ◌≢◌, ℕ, ◌+◌, ◌*◌, ◌<◌, ◌≤◌, [], ◌∷◌, ◌++◌, length, replicate};
ghost use Rattle.std.specs.Prelude.{IfOk, IfSome, IfNone, vec_capacity};
ghost use Rattle.kc_table.specs.GreatCounts.{counts_in, great_count, place_at, bucket_of, IsLinked, IsChained};

use std::alloc::{AllocError, Global};
use std::marker::Model;

/// A count, under the index of its slot. The entries of a bucket are linked, from the last one to the first: `next` is
/// one more than the index of the one before, or 0 if there is none.
#[derive(Clone, Copy)]
struct Entry {
    place: usize,
    count: u64,
    next: usize,
}

/// Counts by the indices of their slots. Each has an entry, and `heads` links to the last entry of each bucket. The
/// capacity for all entries is reserved at once, and becomes memory only as they come; no later call reserves any.
#[derive(Drop)]
pub(crate) struct GreatCounts {
    entries: Vec<Entry>,
    heads: Vec<usize>,
}

impl Model for GreatCounts {
    ghost use Rattle.std.specs.Prelude.{vec_capacity};
    ghost use Rattle.kc_table.specs.GreatCounts.{Greats, counts_in, IsGreatCounts};

    ghost Value = { Greats };

    ghost view = { λ g. record {
      places = vec_capacity g.entries;
      counts = counts_in g.entries.items;
    } };

    ghost invariant = { λ g.
        IsGreatCounts (vec_capacity g.entries) (vec_capacity g.heads) g.heads.items g.entries.items };
}

impl GreatCounts {
    /// No counts yet, with room for one at each of the places.
    pub fn new(alloc: Global, places: usize) -> Result<GreatCounts, AllocError>
        ensures places { IfOk result (λ g. g.places ≡ places) }
        ensures none { IfOk result (λ g. (place : ℕ) → great_count g.counts place ≡ 0) }
    {
        let entries = Vec::with_capacity(alloc, places)?;
        let mut heads = Vec::with_capacity(alloc, (places / 8).max(1))?;
        heads.push_reserved(0);
        Ok(GreatCounts { entries, heads })
    }

    /// The count of a place, 0 if there is none.
    pub fn count(&self, place: usize) -> u64
        ensures { result ≡ great_count self.now.counts place }
    {
        match entry_of(&self.heads, &self.entries, place) {
            Some(index) => self.entries[index].count,
            None => 0,
        }
    }

    /// Sets the count of a place, whether it has one or not.
    #[cold]
    pub fn set(&mut self, place: usize, count: u64)
        requires { place < self.old.places }
        ensures places { self.new.places ≡ self.old.places }
        ensures here { great_count self.new.counts place ≡ count }
        ensures others { (other : ℕ) → other ≢ place
            → great_count self.new.counts other ≡ great_count self.old.counts other }
    {
        match entry_of(&self.heads, &self.entries, place) {
            Some(index) => self.entries[index].count = count,
            None => add_entry(&mut self.heads, &mut self.entries, place, count),
        }
    }
}

// The index of the entry of a place.
fn entry_of(heads: &[usize], entries: &[Entry], place: usize) -> Option<usize>
    requires { IsChained heads.now entries.now }
    ensures in_range { IfSome result (λ i. i < length entries.now) }
    ensures here { IfSome result (λ i. place_at entries.now i ≡ place) }
    ensures none { IfNone result ((i : ℕ) → i < length entries.now → place_at entries.now i ≢ place) }
{
    let mut link = heads[bucket_of(heads.len(), place)];
    while link > 0 {
        let entry = entries[link - 1];
        if entry.place == place {
            return Some(link - 1);
        }
        link = entry.next;
    }
    None
}

// The bucket of a place.
#[inline]
fn bucket_of(buckets: usize, place: usize) -> usize
    requires { 0 < buckets }
    ensures bucket { result ≡ bucket_of buckets place }
    ensures in_range { result < buckets }
{
    place & (buckets - 1)
}

// Adds an entry after the others. If there are then more entries than heads, the heads are doubled, if there is room.
fn add_entry(heads: &mut Vec<usize>, entries: &mut Vec<Entry>, place: usize, count: u64)
    requires chained { IsChained heads.old.items entries.old.items }
    requires room { length entries.old.items < vec_capacity entries.old }
    ensures chained { IsChained heads.new.items entries.new.items }
    ensures added { counts_in entries.new.items ≡ counts_in entries.old.items ++ (place, count) ∷ [] }
    ensures room { vec_capacity entries.new ≡ vec_capacity entries.old }
    ensures heads_room { vec_capacity heads.new ≡ vec_capacity heads.old }
{
    entries.push_reserved(Entry {
        place,
        count,
        next: 0,
    });
    let last = entries.len() - 1;
    link(heads, entries, last);
    if entries.len() > heads.len() && heads.len() <= heads.capacity() / 2 {
        double(heads);
        link_all(heads, entries);
    }
}

// Links an entry; all before it are linked, and none after it.
fn link(heads: &mut Vec<usize>, entries: &mut Vec<Entry>, index: usize)
    requires in_range { index < length entries.old.items }
    requires some { 0 < length heads.old.items }
    requires linked { IsLinked heads.old.items entries.old.items index }
    ensures linked { IsLinked heads.new.items entries.new.items (index + 1) }
    ensures same { counts_in entries.new.items ≡ counts_in entries.old.items }
    ensures as_many { length heads.new.items ≡ length heads.old.items }
    ensures room { vec_capacity entries.new ≡ vec_capacity entries.old }
    ensures heads_room { vec_capacity heads.new ≡ vec_capacity heads.old }
{
    let bucket = bucket_of(heads.len(), entries[index].place);
    entries[index].next = heads[bucket];
    heads[bucket] = index + 1;
}

// Doubles the heads; none of them links to an entry.
fn double(heads: &mut Vec<usize>)
    requires { length heads.old.items * 2 ≤ vec_capacity heads.old }
    ensures none { heads.new.items ≡ replicate (length heads.old.items * 2) 0 }
    ensures room { vec_capacity heads.new ≡ vec_capacity heads.old }
{
    let count = heads.len() * 2;
    heads.clear();
    for _ in 0..count {
        heads.push_reserved(0);
    }
}

// Links all entries, none of which is linked.
fn link_all(heads: &mut Vec<usize>, entries: &mut Vec<Entry>)
    requires some { 0 < length heads.old.items }
    requires none { heads.old.items ≡ replicate (length heads.old.items) 0 }
    ensures chained { IsChained heads.new.items entries.new.items }
    ensures same { counts_in entries.new.items ≡ counts_in entries.old.items }
    ensures room { vec_capacity entries.new ≡ vec_capacity entries.old }
    ensures heads_room { vec_capacity heads.new ≡ vec_capacity heads.old }
{
    for index in 0..entries.len() {
        link(heads, entries, index);
    }
}
