//! The progress of a command: who is notified of it, as the sources are read and as the workers book, and its text.
ghost use Rattle.std.specs.Prelude.{◌≡◌, ◌≢◌, ◌≤◌, ◌+◌, ◌*◌, ◌/◌, ◌++◌, length, min};
ghost use Rattle.kc_tool.specs.Progress.{batches_text, percent_text, progress_text};

use kc_report::Block;
use kc_run::Gate;

/// A part of a command that is shown only by its name.
#[derive(Clone, Copy, Debug, PartialEq, Eq)]
pub enum Stage {
    /// Tables are read.
    Tables,
    /// Reads are selected and written.
    Selection,
    /// Counts along reads are written.
    Profile,
    /// The text of the command is written.
    Text,
}

/// Whoever is notified of the progress of a command. It is also the gate of the workers, who report each batch before
/// and after they book it, possibly at the same time.
pub trait Progress: Gate {
    ghost use Rattle.std.specs.Prelude.{Bool};

    // whether a person reads what is shown
    ghost watched: { Self → Bool };

    /// Whether a person reads what is shown, so that a fault is explained.
    fn is_watched(&self) -> bool
        ensures { result ≡ watched self.now };

    /// The text goes to a file that is named, and not to standard output.
    fn text_goes_to_file(&self);

    /// Standard input is read from now on.
    fn input_is_read(&self);

    /// The files that are read have so many bytes together; None if that is not known. This is reported before they are
    /// read.
    fn sources_have(&self, bytes: Option<u64>);

    /// So many more bytes of the sources were read.
    fn bytes_read(&self, count: u64);

    /// All sources were read, and so many batches will be counted.
    fn counting_begins(&self, batches: u64);

    /// This part of the command begins. Its name is shown at once. While the text is written, nothing else is shown;
    /// nothing at all, if the text goes to standard output.
    fn begins(&self, stage: Stage);

    /// The command is over. What is shown is cleared, and nothing is shown from now on.
    fn ends(&self);

    /// How many tenths of a second have passed since this was made; None if no clock can be read.
    fn tenths_passed(&self) -> Option<u64>;
}

/// Shows nothing.
#[derive(Clone, Copy, Debug)]
pub struct NoProgress;

impl Gate for NoProgress {
    fn before_book(&self, _worker: u32, _batch: u64) {}

    fn after_book(&self, _worker: u32, _batch: u64) {}
}

impl Progress for NoProgress {
    ghost use Rattle.std.specs.Prelude.{false};

    ghost watched = { λ _. false };

    fn is_watched(&self) -> bool {
        false
    }

    fn text_goes_to_file(&self) {}

    fn input_is_read(&self) {}

    fn sources_have(&self, _bytes: Option<u64>) {}

    fn bytes_read(&self, _count: u64) {}

    fn counting_begins(&self, _batches: u64) {}

    fn begins(&self, _stage: Stage) {}

    fn ends(&self) {}

    fn tenths_passed(&self) -> Option<u64> {
        None
    }
}

// The progress of a count.
#[derive(Clone, Copy, Debug)]
pub(crate) struct Reached {
    pub bytes: u64,
    // how many bytes there are to read; 0 if that is not known
    pub size: u64,
    pub counted: u64,
    // 0 before it is known
    pub batches: u64,
    pub seconds: u64,
}

// Appends the line's text to the block: from the first column, with the rest of the line cleared.
pub(crate) fn push_progress(line: &mut Block, reached: &Reached)
    requires room { length line.old ≤ 100 }
    ensures pushed { line.new ≡ line.old ++ progress_text reached.now }
{
    line.push(b"\rread ");
    line.push_number(reached.bytes / 1_000_000);
    line.push(b" MB");
    push_percent(line, reached);
    push_batches(line, reached);
    line.push(b", ");
    line.push_number(reached.seconds);
    line.push(b" s\x1b[K");
}

// Appends the percentage of the bytes that were read to the line, if their number is known.
fn push_percent(line: &mut Block, reached: &Reached)
    requires room { length line.old ≤ 200 }
    ensures pushed { line.new ≡ line.old ++ percent_text reached.now }
    ensures short { length line.new ≤ length line.old + 100 }
{
    if reached.size == 0 {
        return;
    }
    line.push(b" (");
    line.push_number(percent_of(reached.bytes, reached.size));
    line.push(b"%)");
}

// The percentage of the size that these bytes are, rounded down, and 100 if they are more.
fn percent_of(bytes: u64, size: u64) -> u64
    requires { size ≢ 0 }
    ensures { result ≡ min 100 (bytes * 100 / size) }
{
    let percent = u128::from(bytes) * 100 / u128::from(size);
    percent.min(100) as u64
}

// Appends how many of the batches were counted to the line, once their number is known, and that gathering is under way
// after all were.
fn push_batches(line: &mut Block, reached: &Reached)
    requires room { length line.old ≤ 300 }
    ensures pushed { line.new ≡ line.old ++ batches_text reached.now }
    ensures short { length line.new ≤ length line.old + 100 }
{
    if reached.batches == 0 {
        return;
    }
    line.push(b", counted ");
    line.push_number(reached.counted);
    line.push(b" of ");
    line.push_number(reached.batches);
    line.push(b" batches");
    if reached.counted == reached.batches {
        line.push(b", gathering");
    }
}
