//! The rule of a selection of reads.
ghost use Rattle.std.specs.Prelude.{◌≡◌, ◌≤◌, ◌^◌, ◌-◌, false};
ghost use Rattle.kc_select.specs.Solid.{is_solid_count, keeps, profile_rule};
ghost use Rattle.kc_select.specs.SolidWords.{is_exception};

use std::marker::Model;

// The least quality byte, which every quality passes.
const EVERY_QUALITY: u8 = 33;

/// The rule of a selection of reads: the least and the greatest count of a solid word, the percentage of a read's words
/// that have to be solid, the least quality byte of a usable base, from 33 to 126, whether the reads that are not solid
/// are selected instead, and whether their profiles are written instead of their records.
#[derive(Clone, Copy, PartialEq, Eq, Debug)]
pub struct Selection {
    least: u64,
    most: u64,
    share: u64,
    floor: u8,
    inverted: bool,
    profiled: bool,
}

impl Model for Selection {
    ghost use Rattle.std.specs.Prelude.{◌≤◌};
    ghost use Rattle.kc_select.specs.Solid.{SelectionRule};

    ghost Value = { SelectionRule };

    ghost view = { λ s. record {
      least = s.least;
      most = s.most;
      share = s.share;
      floor = s.floor;
      inverted = s.inverted;
      profiled = s.profiled;
    } };

    ghost invariant = { λ s. (s.share ≤ 100) × (33 ≤ s.floor) × (s.floor ≤ 126) };

    ghost inverse = { λ v. record {
      least = v.least;
      most = v.most;
      share = v.share;
      floor = v.floor;
      inverted = v.inverted;
      profiled = v.profiled;
    } };
}

impl Selection {
    /// The selection of solid reads, with this least count and this share, of bases of every quality. There is no
    /// greatest count. Condition: the share is at most 100.
    pub fn new(least: u64, share: u64) -> Selection
        requires { share ≤ 100 }
        ensures { result ≡ record {
          least = least;
          most = 2 ^ 64 - 1;
          share = share;
          floor = 33;
          inverted = false;
          profiled = false;
        } }
    {
        Selection {
            least,
            most: u64::MAX,
            share,
            floor: EVERY_QUALITY,
            inverted: false,
            profiled: false,
        }
    }

    /// The selection of all reads, by bases of every quality, to write their profiles: the counts of the words along
    /// them.
    pub fn profiles() -> Selection
        ensures { result ≡ profile_rule 33 }
    {
        let every = Selection::new(0, 0);
        Selection {
            profiled: true,
            ..every
        }
    }

    /// This selection, with no word solid whose count is above `most`.
    pub fn with_most(self, most: u64) -> Selection
        ensures { result ≡ record self { most = most } }
    {
        let selection = self;
        Selection { most, ..selection }
    }

    /// This selection, by words of bases whose quality byte is at least `floor`. Condition: it is 33 to 126.
    pub fn with_floor(self, floor: u8) -> Selection
        requires low { 33 ≤ floor }
        requires high { floor ≤ 126 }
        ensures { result ≡ record self { floor = floor } }
    {
        let selection = self;
        Selection { floor, ..selection }
    }

    /// This selection; if `inverted`, that of the reads that are not solid.
    pub fn with_inverted(self, inverted: bool) -> Selection
        ensures { result ≡ record self { inverted = inverted } }
    {
        let selection = self;
        Selection {
            inverted,
            ..selection
        }
    }

    /// The least count of a solid word.
    pub fn least(self) -> u64
        ensures { result ≡ self.least }
    {
        self.least
    }

    /// The greatest count of a solid word.
    pub fn most(self) -> u64
        ensures { result ≡ self.most }
    {
        self.most
    }

    /// The percentage of a read's words that have to be solid.
    pub fn share(self) -> u64
        ensures value { result ≡ self.share }
        ensures most { result ≤ 100 }
    {
        self.share
    }

    /// The least quality byte of a usable base.
    pub fn floor(self) -> u8
        ensures value { result ≡ self.floor }
        ensures low { 33 ≤ result }
        ensures high { result ≤ 126 }
    {
        self.floor
    }

    /// Whether the reads that are not solid are selected.
    pub fn is_inverted(self) -> bool
        ensures { result ≡ self.inverted }
    {
        self.inverted
    }

    /// Whether the profiles of the selected reads are written, instead of their records.
    pub fn is_profiled(self) -> bool
        ensures { result ≡ self.profiled }
    {
        self.profiled
    }

    // Whether a read or a pair of reads is kept, given whether it is solid.
    pub(crate) fn keeps(self, is_solid: bool) -> bool
        ensures { result ≡ keeps self is_solid }
    {
        is_solid != self.inverted
    }

    // Whether a word with this count is solid.
    #[inline(always)]
    pub(crate) fn is_solid(self, count: u64) -> bool
        ensures { result ≡ is_solid_count self count }
    {
        count >= self.least && count <= self.most
    }

    // Whether a word with this count is solid and a word that the table lacks is not, or the other way round.
    pub(crate) fn is_exception(self, count: u64) -> bool
        ensures { result ≡ is_exception self count }
    {
        self.is_solid(count) != self.is_solid(0)
    }
}
