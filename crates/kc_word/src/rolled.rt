//! The words of bases, rolled along them code by code, in the form under which they count: if both strands count, that
//! is the lesser of a word and its reverse complement.
ghost use Rattle.std.specs.Prelude.{◌≡◌, ◌^◌, ◌<◌, ◌≤◌, ℕ, List, length};
ghost use Rattle.kc_word.specs.Walking.{Walking, IsWalking, IsNext, IsTaken, at_front};

use kc_kmer::Rule;
use kc_kmer::letter::NO_BASE;

/// The last `k` bases that were taken as a number, their reverse complement as another, and how many bases came since
/// the last byte that is no base.
#[derive(Drop)]
pub struct Rolled {
    /// How words count.
    pub rule: Rule,
    forward: u64,
    backward: u64,
    run: usize,
}

impl Rolled {
    /// Before the first byte.
    #[inline(always)]
    pub fn new(rule: Rule) -> Rolled
        ensures rule { result.rule ≡ rule }
        ensures some { 1 ≤ rule.k }
        ensures front { (bytes : List ℕ) → length bytes < 2 ^ 64 → IsWalking (at_front rule bytes) result }
    {
        rule.has_no_list();
        let k = rule.k().get();
        Rolled {
            rule,
            forward: 0,
            backward: (1u64 << (2 * k)) - 1,
            run: 0,
        }
    }

    /// Takes the code of the next byte, or `NO_BASE`, and returns the word that ends there, in the form under which it
    /// counts, if there is one. Condition: it is the code of the next byte of a place.
    #[inline(always)]
    pub fn push(&mut self, code: u64) -> Option<u64>
        requires { (walking : Walking) × IsNext walking self.old code }
        ensures rule { self.new.rule ≡ self.old.rule }
        ensures taken { (walking : Walking) → IsNext walking self.old code → IsTaken walking self.new result }
    {
        let k = self.rule.k().get();
        let digit = code & 3;
        self.forward = (self.forward * 4 + digit) & ((1u64 << (2 * k)) - 1);
        self.backward = (self.backward >> 2) + ((3 - digit) << (2 * (k - 1)));
        self.run = if code < NO_BASE as u64 {
            self.run + 1
        } else {
            0
        };
        if self.run < k as usize {
            return None;
        }
        if self.rule.both() {
            return Some(self.backward.min(self.forward));
        }
        Some(self.forward)
    }
}
