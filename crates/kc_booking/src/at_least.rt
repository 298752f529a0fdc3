//! How many counts are at least c, for each c from 1 to 10,001. A count that rises or falls by one changes only one of
//! these numbers, but two bins of a histogram.
ghost use Rattle.std.specs.Prelude.{◌≡◌, ℕ, ◌+◌, ◌<◌, ◌≤◌, ◌^◌, [], IfOk};
ghost use Rattle.kc_tally.specs.Histogram.{last_bin};
ghost use Rattle.kc_booking.specs.AtLeast.{at_least_of, number_at, difference_at, bins_from, risen, fallen};

use kc_lemmas::zeros;
use kc_tally::Histogram;
use std::alloc::{AllocError, Global};
use std::marker::Model;

// The number of the last bin of a histogram.
const LAST_BIN: u64 = 10_001;

/// For each c from 1 to 10,001, how many counts are at least c.
#[derive(Drop)]
pub(crate) struct AtLeast {
    numbers: Vec<u64>,
}

impl Model for AtLeast {
    ghost use Rattle.std.specs.Prelude.{◌≡◌, List, ℕ, length};
    ghost use Rattle.kc_tally.specs.Histogram.{last_bin};

    ghost Value = { List ℕ };

    ghost view = { λ a. a.numbers.items };

    ghost invariant = { λ a. length a.numbers.items ≡ last_bin };
}

impl AtLeast {
    /// The numbers of no counts. This takes their memory.
    pub fn new(alloc: Global) -> Result<AtLeast, AllocError>
        ensures { IfOk result (λ numbers. numbers ≡ at_least_of []) }
    {
        let numbers = zeros(alloc, LAST_BIN as usize)?;
        Ok(AtLeast { numbers })
    }

    /// A count rose by one and is `count` now. Conditions: it is at least 1, and its number fits with one more.
    pub fn raise(&mut self, count: u64)
        requires some { 1 ≤ count }
        requires fits { number_at self.old count + 1 < 2 ^ 64 }
        ensures { self.new ≡ risen self.old count }
    {
        if count > LAST_BIN {
            return;
        }
        self.numbers[count as usize - 1] += 1;
    }

    /// A count was `count` and fell by one. Conditions: it was at least 1, and is one of those that are counted here.
    pub fn lower(&mut self, count: u64)
        requires some { 1 ≤ count }
        requires there { count ≤ last_bin → 1 ≤ number_at self.old count }
        ensures { self.new ≡ fallen self.old count }
    {
        if count > LAST_BIN {
            return;
        }
        self.numbers[count as usize - 1] -= 1;
    }

    /// How many counts are in the bin. Conditions: the bin is 1 to 10,001, and its number isn't below the next one.
    pub fn bin(&self, bin: u64) -> u64
        requires some { 1 ≤ bin }
        requires within { bin ≤ last_bin }
        requires falling { number_at self.now (bin + 1) ≤ number_at self.now bin }
        ensures { result ≡ difference_at self.now bin }
    {
        let number = self.numbers[bin as usize - 1];
        if bin == LAST_BIN {
            return number;
        }
        number - self.numbers[bin as usize]
    }

    /// The histogram of the counts. Condition: no number is above the one before it.
    pub fn histogram(&self, alloc: Global) -> Result<Histogram, AllocError>
        requires { (c : ℕ) → 1 ≤ c → number_at self.now (c + 1) ≤ number_at self.now c }
        ensures { IfOk result (λ bins. bins ≡ bins_from self.now) }
    {
        let mut sizes = Vec::with_capacity(alloc, LAST_BIN as usize)?;
        for i in 0..LAST_BIN {
            sizes.push_reserved(self.bin(i + 1));
        }
        Ok(Histogram::of_sizes(sizes))
    }
}
