//! The line on a terminal with the progress of a command.
use crate::count_progress::{Progress, Reached, Stage, push_progress};
use kc_report::Block;
use kc_run::Gate;
use std::io::{IsTerminal, Print};
use std::sync::atomic::{AtomicBool, AtomicU64, Ordering};
use std::time::{Clock, Duration, Instant};

// The least time from one line of a count to the next, in milliseconds. It allows for one line that comes before its
// time.
const INTERVAL: u64 = 125;

// The time of the next line if no further one is shown.
const NEVER: u64 = u64::MAX;

// Clears the line, from its first column.
const CLEARED: &[u8] = b"\r\x1b[K";

// A notice that input is typed, and how to end it.
const INPUT_IS_TYPED: &[u8] = b"reading standard input; end it with Ctrl-D\n";

/// A line on a terminal with the progress of a command: the bytes that were read, the batches that were counted, and
/// the time it took; or the name of a part of it. The progress of a count is written over the line at most eight times
/// a second, and not if the clock can't be read; nothing is written of a count that is over sooner. The line is cleared
/// at the end. Nothing is written if there is no terminal.
#[derive(Drop)]
pub struct ProgressLine<'a, C: Clock, T: Print + IsTerminal> {
    clock: &'a C,
    terminal: &'a T,
    is_terminal: bool,
    input_is_terminal: bool,
    text_goes_to_file: AtomicBool,
    // when it was made; None if the clock can't be read
    began: Option<Instant>,
    bytes: AtomicU64,
    // 0 if it is not known
    size: AtomicU64,
    counted: AtomicU64,
    // 0 before it is known
    batches: AtomicU64,
    // when the next line may be written, in milliseconds since `began`
    due: AtomicU64,
    is_shown: AtomicBool,
}

impl<'a, C: Clock, T: Print + IsTerminal> ProgressLine<'a, C, T> {
    /// A line on this terminal, if it is one. Its first text of a count is written an eighth of a second later at the
    /// earliest. `input_is_terminal` is whether standard input is a terminal.
    pub fn new(clock: &'a C, terminal: &'a T, input_is_terminal: bool) -> ProgressLine<'a, C, T> {
        ProgressLine {
            clock,
            terminal,
            is_terminal: terminal.is_terminal(),
            input_is_terminal,
            text_goes_to_file: AtomicBool::new(false),
            began: Instant::now(clock).ok(),
            bytes: AtomicU64::new(0),
            size: AtomicU64::new(0),
            counted: AtomicU64::new(0),
            batches: AtomicU64::new(0),
            due: AtomicU64::new(INTERVAL),
            is_shown: AtomicBool::new(false),
        }
    }

    // Writes to the terminal, if it is one. A failure here is no fault of the command.
    fn write(&self, text: &[u8]) {
        if self.is_terminal {
            let _ = self.terminal.write_all(text);
        }
    }

    // Writes this over the line.
    fn write_over(&self, text: &[u8]) {
        self.is_shown.store(true, Ordering::SeqCst);
        self.write(text);
    }

    // Clears what is shown.
    fn clear(&self) {
        if self.is_shown.swap(false, Ordering::SeqCst) {
            self.write(CLEARED);
        }
    }

    // How long ago it was made; None if the clock can't be read.
    fn elapsed_time(&self) -> Option<Duration> {
        self.began?.elapsed(self.clock).ok()
    }

    // Writes the line if that is due, or if all batches were counted, since what follows is not shown.
    fn show(&self, is_last: bool) {
        if !self.is_terminal {
            return;
        }
        let Some(passed) = self.elapsed_time() else {
            return;
        };
        if !self.takes_turn(passed, is_last) {
            return;
        }
        let reached = Reached {
            bytes: self.bytes.load(Ordering::SeqCst),
            size: self.size.load(Ordering::SeqCst),
            counted: self.counted.load(Ordering::SeqCst),
            batches: self.batches.load(Ordering::SeqCst),
            seconds: passed.as_secs(),
        };
        let mut line = Block::new();
        push_progress(&mut line, &reached);
        self.write_over(line.as_slice());
    }

    // Whether a line is due. Of workers that ask at the same time, only one gets true.
    fn takes_turn(&self, passed: Duration, is_last: bool) -> bool {
        let now = u64::try_from(passed.as_millis()).unwrap_or(u64::MAX);
        let order = Ordering::SeqCst;
        let due = self.due.load(order);
        let next = now.saturating_add(INTERVAL);
        let is_due = due <= now || (is_last && due < NEVER && INTERVAL <= now);
        is_due && self.due.compare_exchange(due, next, order, order).is_ok()
    }

    // Whether nothing more is shown.
    fn is_over(&self) -> bool {
        self.due.load(Ordering::SeqCst) == NEVER
    }

    // Text is written from now on: `said` is shown, and nothing more of a count; if the text goes to no file that is
    // named, nothing at all, since standard output may be on the same terminal.
    fn text_begins(&self, said: &[u8]) {
        self.due.store(NEVER, Ordering::SeqCst);
        if self.text_goes_to_file.load(Ordering::SeqCst) {
            self.write_over(said);
        } else {
            self.clear();
        }
    }
}

impl<C: Clock, T: Print + IsTerminal> Gate for ProgressLine<'_, C, T> {
    fn before_book(&self, _worker: u32, _batch: u64) {
        self.show(false);
    }

    fn after_book(&self, _worker: u32, _batch: u64) {
        let before = self.counted.fetch_add(1, Ordering::SeqCst);
        self.show(before.wrapping_add(1) == self.batches.load(Ordering::SeqCst));
    }
}

impl<C: Clock, T: Print + IsTerminal> Progress for ProgressLine<'_, C, T> {
    ghost watched = { λ p. p.is_terminal };

    fn is_watched(&self) -> bool {
        self.is_terminal
    }

    fn text_goes_to_file(&self) {
        self.text_goes_to_file.store(true, Ordering::SeqCst);
    }

    fn input_is_read(&self) {
        if self.input_is_terminal && !self.is_over() {
            self.clear();
            self.write(INPUT_IS_TYPED);
        }
    }

    fn sources_have(&self, bytes: Option<u64>) {
        self.size.store(bytes.unwrap_or(0), Ordering::SeqCst);
    }

    fn bytes_read(&self, count: u64) {
        self.bytes.fetch_add(count, Ordering::SeqCst);
        self.show(false);
    }

    fn counting_begins(&self, batches: u64) {
        self.batches.store(batches, Ordering::SeqCst);
        self.show(false);
    }

    fn begins(&self, stage: Stage) {
        if self.is_over() {
            return;
        }
        match stage {
            Stage::Tables => self.write_over(b"\rreading tables\x1b[K"),
            Stage::Selection => self.text_begins(b"\rselecting reads\x1b[K"),
            Stage::Profile => self.text_begins(b"\rcounting along reads\x1b[K"),
            Stage::Text => self.text_begins(b"\rwriting\x1b[K"),
        }
    }

    fn ends(&self) {
        self.due.store(NEVER, Ordering::SeqCst);
        self.clear();
    }

    fn tenths_passed(&self) -> Option<u64> {
        let millis = self.elapsed_time()?.as_millis();
        Some(u64::try_from(millis / 100).unwrap_or(u64::MAX))
    }
}
