//! Tables in regular files, from which a text is derived in two passes: the first one judges them, and the second one
//! writes. No rows are kept.
ghost use Rattle.std.specs.Prelude.{◌≡◌, ◌+◌, ◌≤◌, ◌++◌, ◌∷◌, [], ℕ, IfOk, length, map, take};
ghost use Rattle.std.specs.Vec.{vec_capacity};
ghost use Rattle.kc_combine.specs.Derivations.{HasHigh, TakesTables};
ghost use Rattle.kc_tool.specs.Commands.{DerivesFiles, DerivesInPasses};
ghost use Rattle.kc_tool.specs.NamedSources.{names_of, seen_of};
ghost use Rattle.kc_tool.specs.TwoPasses.{PutsInHalf};

use crate::count_progress::{Progress, Stage};
use crate::counted_sources::Means;
use crate::named_sources::NamedSource;
use crate::task_tallies::MAX_TABLE_BYTES;
use crate::told::{Told, told_of_totals};
use crate::tool_faults::{ToolFault, combine_fault};
use kc_combine::{Derived, derive_from_texts, judge_texts};
use kc_io::{Sink, Source};
use std::alloc::{AllocError, Global};
use std::mem;
use std::thread::Threads;

/// The files of two passes, taken apart.
#[derive(Drop)]
struct Passes<'n, F: Source + Drop> {
    // The names of all files, in order.
    names: Vec<&'n str>,
    // The sources of the first half of the files, and of the others.
    first: Vec<F>,
    second: Vec<F>,
}

/// Reads the tables of the first half of the files to their ends. Then it reads those of the others, which are the same
/// files opened again, and writes what is derived from them. The files keep their names. Conditions: each file is
/// opened twice, there are as many tables as are needed, and the highest count of a spectrum is 1 to 10,000,000.
///
/// # Errors
/// Those of `judge_texts`: nothing of the second half was read, and nothing was written. Those of `derive_from_texts`.
pub(crate) fn derive_files<H: Threads, F: Source + Drop, W: Sink, P: Progress>(
    means: &Means<'_, H, P>,
    derived: Derived,
    files: &mut Vec<NamedSource<'_, F>>,
    output: &mut W,
) -> Result<Told, ToolFault>
    requires twice { (half : ℕ) × TakesTables derived half × (length files.old.items ≡ half + half) }
    requires high { HasHigh derived }
    ensures done { DerivesFiles derived (seen_of F.seen files.old.items) (seen_of F.seen files.new.items)
        (W.seen output.old) (W.seen output.new) result }
    ensures names { names_of files.new.items ≡ names_of files.old.items }
{
    let room = Passes::with_room(means.alloc, files.len())?;
    let place = Vec::with_capacity(means.alloc, files.len())?;
    let mut passes = room.with_files(mem::replace(files, place));
    let told = passes.derive(means, derived, output);
    passes.put_back(files);
    told
}

impl<'n, F: Source + Drop> Passes<'n, F> {
    // No files, with room for so many.
    fn with_room(alloc: Global, count: usize) -> Result<Passes<'n, F>, AllocError>
        ensures names { IfOk result (λ room. (room.names.items ≡ []) × (count ≤ vec_capacity room.names)) }
        ensures first { IfOk result (λ room. (room.first.items ≡ []) × (count ≤ vec_capacity room.first)) }
        ensures second { IfOk result (λ room. (room.second.items ≡ []) × (count ≤ vec_capacity room.second)) }
    {
        Ok(Passes {
            names: Vec::with_capacity(alloc, count)?,
            first: Vec::with_capacity(alloc, count)?,
            second: Vec::with_capacity(alloc, count)?,
        })
    }

    // These files, taken apart. Conditions: there were none, and there is room for them.
    fn with_files(self, files: Vec<NamedSource<'n, F>>) -> Passes<'n, F>
        requires names { (self.names.items ≡ []) × (length files.items ≤ vec_capacity self.names) }
        requires first { (self.first.items ≡ []) × (length files.items ≤ vec_capacity self.first) }
        requires second { (self.second.items ≡ []) × (length files.items ≤ vec_capacity self.second) }
        requires even { (half : ℕ) × (length files.items ≡ half + half) }
        ensures names { map (λ name. name.now) result.names.items ≡ names_of files.entry.items }
        ensures sources { result.first.items ++ result.second.items ≡ map (λ file. file.source) files.entry.items }
        ensures halves { length result.first.items ≡ length result.second.items }
    {
        let mut passes = self;
        let half = files.len() / 2;
        'files: for file in files {
            passes.push(file, half);
        }
        passes
    }

    // Appends this file: its source to the first ones, if there are fewer than `half` of them. Condition: there is room
    // for it.
    fn push(&mut self, file: NamedSource<'n, F>, half: usize)
        requires names { length self.old.names.items + 1 ≤ vec_capacity self.old.names }
        requires first { length self.old.first.items + 1 ≤ vec_capacity self.old.first }
        requires second { length self.old.second.items + 1 ≤ vec_capacity self.old.second }
        ensures named { self.new.names.items ≡ self.old.names.items ++ file.entry.name ∷ [] }
        ensures put { PutsInHalf half file.entry.source self.old.first.items self.new.first.items
            self.old.second.items self.new.second.items }
        ensures same_room { (vec_capacity self.new.names ≡ vec_capacity self.old.names)
            × (vec_capacity self.new.first ≡ vec_capacity self.old.first)
            × (vec_capacity self.new.second ≡ vec_capacity self.old.second) }
    {
        let NamedSource { name, source } = file;
        self.names.push_reserved(name);
        if self.first.len() < half {
            self.first.push_reserved(source);
        } else {
            self.second.push_reserved(source);
        }
    }

    // Judges the tables of the first sources, and writes what is derived from those of the second ones.
    fn derive<H: Threads, W: Sink, P: Progress>(
        &mut self,
        means: &Means<'_, H, P>,
        derived: Derived,
        output: &mut W,
    ) -> Result<Told, ToolFault>
        requires first { 1 ≤ length self.old.first.items }
        requires second { TakesTables derived (length self.old.second.items) }
        requires high { HasHigh derived }
        ensures done { DerivesInPasses derived (map F.seen self.old.first.items) (map F.seen self.new.first.items)
            (map F.seen self.old.second.items) (map F.seen self.new.second.items)
            (W.seen output.old) (W.seen output.new) result }
        ensures names { self.new.names ≡ self.old.names }
        ensures long { length self.new.first.items ≡ length self.old.first.items }
        ensures long_second { length self.new.second.items ≡ length self.old.second.items }
    {
        let alloc = means.alloc;
        means.progress.begins(Stage::Tables);
        let judged = judge_texts(alloc, derived.combining(), &mut self.first, MAX_TABLE_BYTES);
        if let Err(fault) = judged {
            return Err(combine_fault(fault));
        }
        means.progress.begins(Stage::Text);
        match derive_from_texts(alloc, derived, &mut self.second, MAX_TABLE_BYTES, output) {
            Ok(totals) => Ok(told_of_totals(totals)),
            Err(fault) => Err(combine_fault(fault)),
        }
    }

    // Puts the files back. Conditions: there is a name for each source, and room for all.
    fn put_back(self, files: &mut Vec<NamedSource<'n, F>>)
        requires empty { files.old.items ≡ [] }
        requires long { length self.names.items ≡ length self.first.items + length self.second.items }
        requires room { length self.names.items ≤ vec_capacity files.old }
        ensures names { names_of files.new.items ≡ map (λ name. name.now) self.entry.names.items }
        ensures sources { map (λ file. file.source) files.new.items
            ≡ self.entry.first.items ++ self.entry.second.items }
    {
        let Passes {
            names,
            first,
            second,
        } = self;
        push_all(files, &names, first);
        push_all(files, &names, second);
    }
}

// Appends these sources, with the names that come next. Conditions: each has a name, and there is room for it.
fn push_all<'n, F: Source + Drop>(
    files: &mut Vec<NamedSource<'n, F>>,
    names: &[&'n str],
    sources: Vec<F>,
)
    requires named { names_of files.old.items ≡ take (length files.old.items) (map (λ name. name.now) names.now) }
    requires long { length files.old.items + length sources.items ≤ length names.now }
    requires room { length files.old.items + length sources.items ≤ vec_capacity files.old }
    ensures named { names_of files.new.items ≡ take (length files.new.items) (map (λ name. name.now) names.now) }
    ensures sources { map (λ file. file.source) files.new.items
        ≡ map (λ file. file.source) files.old.items ++ sources.items }
    ensures room { vec_capacity files.new ≡ vec_capacity files.old }
{
    'sources: for source in sources {
        let name = names[files.len()];
        files.push_reserved(NamedSource { name, source });
    }
}
