//! Asked words, in the order of a table's rows.
ghost use Rattle.std.specs.Prelude.{◌≡◌, ◌<◌, All, IfOk, map, string_bytes, take};
ghost use Rattle.kc_report.specs.AskedWords.{AreAsked, AreNumbersOf, is_in};

use crate::queries::counted_form;
use kc_kmer::{K, pack};
use std::alloc::{AllocError, Global};
use std::marker::Model;

/// Asked words, sorted, in the forms under which they count. Those that are passed are not looked at again, so the
/// words of a table's rows are looked up in one pass over both.
#[derive(Drop)]
pub(crate) struct AskedWords {
    words: Vec<u64>,
    // how many of them are below the word looked up last
    passed: usize,
}

impl Model for AskedWords {
    ghost use Rattle.std.specs.List.Sorted.{IsNonDecreasing};
    ghost use Rattle.kc_report.specs.AskedWords.{WordsAsked};

    ghost Value = { WordsAsked };

    ghost view = { λ a. record { words = a.words.items; passed = a.passed } };

    ghost invariant = { λ a. IsNonDecreasing a.words.items };
}

impl AskedWords {
    /// Those of these words that have k bases; none is passed.
    pub(crate) fn of(
        alloc: Global,
        asked: &[String],
        k: K,
        both: bool,
    ) -> Result<AskedWords, AllocError>
        ensures { IfOk result (AreAsked k both (map string_bytes asked.now)) }
    {
        let mut words = numbers_of(alloc, asked, k, both)?;
        words.sort_unstable();
        Ok(AskedWords { words, passed: 0 })
    }

    /// Whether the word is asked for. Condition: those that are passed are below it.
    #[inline(always)]
    pub(crate) fn has(&mut self, word: u64) -> bool
        requires { All (λ asked. asked < word) (take self.old.passed self.old.words) }
        ensures has { result ≡ is_in self.old.words word }
        ensures passed { All (λ asked. asked < word) (take self.new.passed self.new.words) }
        ensures same { self.new.words ≡ self.old.words }
    {
        'lesser: while let Some(asked) = self.words.get(self.passed) {
            if *asked >= word {
                return *asked == word;
            }
            self.passed += 1;
        }
        false
    }
}

// The numbers of those of these words that have k bases, in the forms under which they count.
fn numbers_of(alloc: Global, asked: &[String], k: K, both: bool) -> Result<Vec<u64>, AllocError>
    ensures { IfOk result (λ numbers. AreNumbersOf k both (map string_bytes asked.now) numbers.items) }
{
    let mut numbers = Vec::new(alloc);
    for word in asked {
        if let Some(word) = pack(word.as_bytes(), k) {
            numbers.push(counted_form(word, k, both).0)?;
        }
    }
    Ok(numbers)
}
