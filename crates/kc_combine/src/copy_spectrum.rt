//! The spectrum of copy numbers: how many words have so many copies in an assembly and this count in reads.
ghost use Rattle.std.specs.Prelude.{◌≡◌, ◌+◌, ◌*◌, ◌^◌, ◌<◌, ◌≤◌, List, ℕ, [], length, IfOk};
ghost use Rattle.kc_io.specs.Sinks.{Writes};
ghost use Rattle.kc_combine.specs.Compared.{capped_in_reads, copies_of, spectrum_text};
ghost use Rattle.kc_combine.specs.CopySpectra.{HasSpectrum, place_of};

use crate::counts_of_word::{first_count, second_count};
use crate::spectrum_text::write_rows;
use crate::visits_words::VisitsWords;
use kc_io::{Failed, Sink};
use kc_lemmas::zeros;
use kc_report::MAX_HIGH;
use std::alloc::{AllocError, Global};
use std::marker::Model;

/// How many words of a table of reads and one of an assembly have how many copies in the assembly, from 0 to 4 or more
/// than these, and which count in the reads, from 0 up to a greatest one or more than that. A number that does not fit
/// 64 bits stays at the greatest one that does.
///
/// ```ignore
/// let mut spectrum = CopySpectrum::new(alloc, high)?;
/// spectrum.visit(&[3, 1]);
/// write_spectrum(writer, &spectrum)?;
/// ```
#[derive(Drop)]
pub struct CopySpectrum {
    // the greatest count in the reads that has cells of its own
    high: u64,
    // how many words have each count from 0 to one above `high`: with 0 copies, then with 1, up to 5
    cells: Vec<u64>,
}

impl Model for CopySpectrum {
    ghost use Rattle.std.specs.Prelude.{◌≡◌, ◌+◌, ◌*◌, ◌≤◌, length};
    ghost use Rattle.std.specs.Vec.{vec_capacity};
    ghost use Rattle.kc_combine.specs.CopySpectra.{SpectrumSeen};

    ghost Value = { SpectrumSeen };

    ghost view = { λ s. record { high = s.high; cells = s.cells.items; room = vec_capacity s.cells } };

    ghost invariant = { λ s. (s.high ≤ 10_000_000) × (length s.cells.items ≡ 6 * (s.high + 2)) };
}

impl CopySpectrum {
    /// The spectrum of no words, in which each count from 0 to `high` has cells of its own. Condition: `high` is at
    /// most 10,000,000.
    ///
    /// # Errors
    /// `AllocError` if memory for six times `high + 2` numbers was refused.
    pub fn new(alloc: Global, high: u64) -> Result<CopySpectrum, AllocError>
        requires { high ≤ MAX_HIGH }
        ensures high { IfOk result (λ spectrum. spectrum.high ≡ high) }
        ensures none { IfOk result (λ spectrum. HasSpectrum spectrum []) }
        ensures bounded { IfOk result (λ spectrum. spectrum.room ≤ 6 * (high + 2)) }
    {
        let cells = zeros(alloc, 6 * (high as usize + 2))?;
        Ok(CopySpectrum { high, cells })
    }
}

impl VisitsWords for CopySpectrum {
    ghost use Rattle.kc_combine.specs.CopySpectra.{HasSpectrum};

    ghost setting = { λ s. s.high };

    ghost visited = { HasSpectrum };

    fn visit(&mut self, counts: &[u64]) {
        let place = place_of_word(self.high, counts);
        self.cells[place] = self.cells[place].saturating_add(1);
    }
}

// The greatest number of copies: all above it have its cells.
const MOST_COPIES: u64 = 5;

// The place of the cell of a word.
fn place_of_word(high: u64, counts: &[u64]) -> usize
    requires { high ≤ MAX_HIGH }
    ensures place { result ≡ place_of high (copies_of counts.now) (capped_in_reads high counts.now) }
    ensures within { result < 6 * (high + 2) }
{
    let copies = MOST_COPIES.min(second_count(counts));
    let count = (high + 1).min(first_count(counts));
    (copies * (high + 2) + count) as usize
}

/// Writes the lines of a spectrum: one for each number of copies and each count that words have, rising, with how many
/// words have both. It takes no memory. The contract covers a spectrum of fewer than 2^64 words.
///
/// # Errors
/// `Failed` if the writer failed or took no byte. It took a beginning of the text.
pub fn write_spectrum<W: Sink>(writer: &mut W, spectrum: &CopySpectrum) -> Result<(), Failed>
    ensures { (words : List (List ℕ)) → HasSpectrum spectrum.now words → length words < 2 ^ 64
        → Writes (W.seen writer.old) (W.seen writer.new) result (spectrum_text spectrum.now.high words) }
{
    write_rows(writer, &spectrum.cells, spectrum.high as usize + 2)
}
