//! Codes of bases packed into numbers of 64 bits, 32 in each.
ghost use Rattle.std.specs.Prelude.{◌≡◌, ℕ, ◌+◌, ◌-◌, ◌%◌, ◌^◌, ◌<◌, ◌≤◌, ◌++◌, OnOk, length};
ghost use Rattle.std.specs.Prelude.{slice_index, slice_range};
ghost use Rattle.kc_word.specs.Packed.{code_in, codes_in};

use std::alloc::AllocError;
use std::marker::Model;

/// How many bases a number of 64 bits has.
pub(crate) const BASES: usize = 32;

/// Codes of bases, with two bits each, the first one in the highest bits of its number. Their view is the list of them.
/// The bits after the last one are 0, so equal lists have equal numbers.
#[derive(Debug, Drop)]
pub(crate) struct Packed {
    pub(crate) numbers: Vec<u64>,
    pub(crate) len: usize,
}

impl Model for Packed {
    ghost use Rattle.std.specs.Prelude.{ℕ, List};
    ghost use Rattle.kc_word.specs.Packed.{codes_of, ArePacked};

    ghost Value = { List ℕ };

    ghost view = { λ p. codes_of p.numbers.items p.len };

    ghost invariant = { λ p. ArePacked p.numbers.items p.len };
}

impl Packed {
    /// The 32 codes from index `at` on, or all that are left, in one number. Condition: `at` is below the length.
    #[inline(always)]
    pub(crate) fn window(&self, at: usize) -> u64
        requires { at < length self.now }
        ensures { (i : ℕ) → i < 32 → at + i < length self.now → code_in result i ≡ slice_index self.now (at + i) }
    {
        let place = at / BASES;
        let shift = 2 * (at % BASES);
        let high = self.numbers[place] << shift;
        let next = place + 1;
        if shift == 0 || next == self.numbers.len() {
            return high;
        }
        high | (self.numbers[next] >> (64 - shift))
    }

    /// Appends the codes of another list from index `from` to before `to`. Conditions: these are in order, and at most
    /// the other's length, and the length stays below 2^64.
    pub(crate) fn push_part(
        &mut self,
        other: &Packed,
        from: usize,
        to: usize,
    ) -> Result<(), AllocError>
        requires ordered { from ≤ to }
        requires within { to ≤ length other.now }
        requires fits { length self.old + (to - from) < 2 ^ 64 }
        ensures { OnOk result (self.new ≡ self.old ++ slice_range other.now from to) }
    {
        let count = to - from;
        for j in 0..count.div_ceil(BASES) {
            let taken = j * BASES;
            let number = other.window(from + taken);
            let more = (count - taken).min(BASES);
            // as many codes as the last number has room for, and the others in a number of their own
            let used = self.len % BASES;
            let filled = more.min((BASES - used) % BASES);
            if filled > 0 {
                let behind = 64 - 2 * filled;
                let last = self.len / BASES;
                self.numbers[last] |= ((number >> behind) << behind) >> (2 * used);
                self.len += filled;
            }
            if filled < more {
                self.push_number(number << (2 * filled), more - filled)?;
            }
        }
        Ok(())
    }

    /// Appends the first `count` codes of a number, after whole numbers. Conditions: the count is 1 to 32, the length
    /// is a multiple of 32, and it stays below 2^64.
    #[inline(always)]
    pub(crate) fn push_number(&mut self, number: u64, count: usize) -> Result<(), AllocError>
        requires some { 1 ≤ count }
        requires most { count ≤ 32 }
        requires whole { length self.old % 32 ≡ 0 }
        requires fits { length self.old + count < 2 ^ 64 }
        ensures { OnOk result (self.new ≡ self.old ++ codes_in number count) }
    {
        let behind = 64 - 2 * count;
        self.numbers.push((number >> behind) << behind)?;
        self.len += count;
        Ok(())
    }
}

/// Equal lists of codes have equal numbers.
impl PartialEq for Packed {
    ghost use Rattle.std.specs.Str.{bytes_eq};
    ghost use Rattle.std.specs.Cmp.{partial_equiv_from_equiv};
    ghost use Rattle.std.specs.Cmp.Lexicographic.{nat_list_eq_equiv};

    ghost eq = { bytes_eq };

    ghost laws = { partial_equiv_from_equiv nat_list_eq_equiv };

    fn eq(&self, other: &Packed) -> bool {
        let numbers = self.numbers.as_slice();
        let others = other.numbers.as_slice();
        self.len == other.len && numbers == others
    }
}

impl Eq for Packed {
    ghost use Rattle.std.specs.Cmp.Lexicographic.{nat_list_eq_equiv};

    ghost laws = { nat_list_eq_equiv };
}
