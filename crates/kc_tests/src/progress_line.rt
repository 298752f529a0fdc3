//! What is reported while a count works, and the line with it.
use crate::command_lines::words_of;
use crate::written_bytes::{assert_bytes, assert_same};
use kc_fastx::FromBytes;
use kc_tool::{Gate, NamedFiles, NoProgress, Progress, ProgressLine, Stage, ToWrite, run};
use std::alloc::{AllocError, Global};
use std::cell::RefCell;
use std::fmt::Display;
use std::io;
use std::io::{IsTerminal, Write};
use std::process::Abort;
use std::rt::Files;
use std::sync::Wait;
use std::sync::atomic::{AtomicU64, Ordering};
use std::test::Fail;
use std::thread::Threads;
use std::time::{Clock, Duration};

// A clock that is set by hand, and can't be read if it is broken.
#[derive(Drop)]
struct SetClock {
    millis: AtomicU64,
    is_broken: bool,
}

impl SetClock {
    fn new(is_broken: bool) -> SetClock {
        SetClock {
            millis: AtomicU64::new(0),
            is_broken,
        }
    }
}

impl Clock for SetClock {
    fn monotonic(&self) -> io::Result<Duration> {
        if self.is_broken {
            return Err(io::Error::from(io::ErrorKind::Other));
        }
        Ok(Duration::from_millis(self.millis.load(Ordering::SeqCst)))
    }

    fn since_1970(&self) -> io::Result<Duration> {
        self.monotonic()
    }
}

// What may be a terminal, and keeps what is written to it.
#[derive(Drop)]
struct Screen {
    is_terminal: bool,
    taken: RefCell<Vec<u8>>,
}

impl Screen {
    fn new<H: AllocGlobal>(rt: &H, is_terminal: bool) -> Screen {
        Screen {
            is_terminal,
            taken: RefCell::new(Vec::new(rt.alloc())),
        }
    }

    // What was written since it was asked before.
    fn take_bytes<H: AllocGlobal>(&self, rt: &H) -> Result<Vec<u8>, Fail> {
        match self.taken.try_replace(Vec::new(rt.alloc())) {
            Ok(taken) => Ok(taken),
            Err(_) => Err(Fail::from("borrowed")),
        }
    }
}

impl IsTerminal for Screen {
    fn is_terminal(&self) -> bool {
        self.is_terminal
    }
}

impl Print for Screen {
    fn print<D: Display + Drop>(&self, _value: D) -> io::Result<()> {
        Err(io::Error::from(io::ErrorKind::Unsupported))
    }

    fn println<D: Display + Drop>(&self, _value: D) -> io::Result<()> {
        Err(io::Error::from(io::ErrorKind::Unsupported))
    }

    fn write_all(&self, bytes: &[u8]) -> io::Result<()> {
        match self.taken.try_borrow_mut() {
            Ok(mut taken) => Ok(taken.extend_from_slice(bytes)?),
            Err(_) => Err(io::Error::from(io::ErrorKind::Other)),
        }
    }
}

// What a command reports.
#[derive(Clone, Copy)]
enum Told {
    ToFile,
    Input,
    Have(Option<u64>),
    Read(u64),
    Batches(u64),
    Turns,
    Counted,
    Begins(Stage),
    Ends,
}

fn tell<P: Progress>(progress: &P, told: Told) {
    match told {
        Told::ToFile => progress.text_goes_to_file(),
        Told::Input => progress.input_is_read(),
        Told::Have(bytes) => progress.sources_have(bytes),
        Told::Read(count) => progress.bytes_read(count),
        Told::Batches(batches) => progress.counting_begins(batches),
        Told::Turns => progress.before_book(0, 0),
        Told::Counted => progress.after_book(0, 0),
        Told::Begins(stage) => progress.begins(stage),
        Told::Ends => progress.ends(),
    }
}

// After how many milliseconds there is a report, and what is then written.
type Line = (u64, Told, &'static str);

const LINES: &[Line] = &[
    (0, Told::Read(1_000_000), ""),
    (124, Told::Read(999_999), ""),
    (125, Told::Read(1), "\rread 2 MB, 0 s\x1b[K"),
    (200, Told::Read(5_900_000), ""),
    (249, Told::Read(0), ""),
    (1_999, Told::Read(0), "\rread 7 MB, 1 s\x1b[K"),
    (2_123, Told::Batches(3), ""),
    (
        2_124,
        Told::Turns,
        "\rread 7 MB, counted 0 of 3 batches, 2 s\x1b[K",
    ),
    (2_125, Told::Counted, ""),
    (
        3_600_000,
        Told::Counted,
        "\rread 7 MB, counted 2 of 3 batches, 3600 s\x1b[K",
    ),
    // the last batch is shown before its time, since nothing may follow for long
    (
        3_600_001,
        Told::Counted,
        "\rread 7 MB, counted 3 of 3 batches, gathering, 3600 s\x1b[K",
    ),
    (3_600_002, Told::Ends, "\r\x1b[K"),
    (3_700_000, Told::Batches(4), ""),
    (3_700_000, Told::Counted, ""),
    (3_700_000, Told::Input, ""),
    (3_700_000, Told::Begins(Stage::Tables), ""),
    (3_700_000, Told::Begins(Stage::Text), ""),
    (3_700_000, Told::Ends, ""),
];

// The reports of a count that is over soon, and the line that is shown then.
const NO_LINES: &[Line] = &[
    (0, Told::Read(1_000_000), ""),
    (100, Told::Batches(1), ""),
    (124, Told::Counted, ""),
    (125, Told::Ends, ""),
];

// The reports if the number of bytes is known, and if it is not.
const PERCENTAGES: &[Line] = &[
    (0, Told::Have(Some(3_000_000)), ""),
    (1_000, Told::Read(0), "\rread 0 MB (0%), 1 s\x1b[K"),
    (2_000, Told::Read(1_999_999), "\rread 1 MB (66%), 2 s\x1b[K"),
    (3_000, Told::Read(1_000_000), "\rread 2 MB (99%), 3 s\x1b[K"),
    (4_000, Told::Read(1), "\rread 3 MB (100%), 4 s\x1b[K"),
    // a file that grows, and a list's bytes
    (
        5_000,
        Told::Read(3_000_000),
        "\rread 6 MB (100%), 5 s\x1b[K",
    ),
    (
        6_000,
        Told::Batches(2),
        "\rread 6 MB (100%), counted 0 of 2 batches, 6 s\x1b[K",
    ),
    (7_000, Told::Have(Some(u64::MAX)), ""),
    (
        7_000,
        Told::Turns,
        "\rread 6 MB (0%), counted 0 of 2 batches, 7 s\x1b[K",
    ),
    (8_000, Told::Have(Some(0)), ""),
    (
        8_000,
        Told::Turns,
        "\rread 6 MB, counted 0 of 2 batches, 8 s\x1b[K",
    ),
    (9_000, Told::Have(Some(1)), ""),
    (9_000, Told::Have(None), ""),
    (
        9_000,
        Told::Turns,
        "\rread 6 MB, counted 0 of 2 batches, 9 s\x1b[K",
    ),
    (10_000, Told::Ends, "\r\x1b[K"),
];

// The reports of a selection with reads that go to a file, and of one with reads that go to standard output.
const SELECTION: &[Line] = &[
    (0, Told::ToFile, ""),
    (0, Told::Begins(Stage::Tables), "\rreading tables\x1b[K"),
    (1, Told::Begins(Stage::Selection), "\rselecting reads\x1b[K"),
    (200, Told::Read(1), ""),
    (9_000, Told::Ends, "\r\x1b[K"),
];

// The same of a profile.
const PROFILE: &[Line] = &[
    (0, Told::ToFile, ""),
    (0, Told::Begins(Stage::Tables), "\rreading tables\x1b[K"),
    (
        1,
        Told::Begins(Stage::Profile),
        "\rcounting along reads\x1b[K",
    ),
    (200, Told::Read(1), ""),
    (9_000, Told::Ends, "\r\x1b[K"),
];

const SELECTION_SHOWN: &[Line] = &[
    (0, Told::Begins(Stage::Tables), "\rreading tables\x1b[K"),
    (1, Told::Begins(Stage::Selection), "\r\x1b[K"),
    (200, Told::Read(1), ""),
    (9_000, Told::Ends, ""),
];

// The reports of a command that reads tables, then reads, and then writes a text that goes to a file.
const STAGES: &[Line] = &[
    (0, Told::ToFile, ""),
    (0, Told::Begins(Stage::Tables), "\rreading tables\x1b[K"),
    (2, Told::Read(1), ""),
    (200, Told::Read(1), "\rread 0 MB, 0 s\x1b[K"),
    (201, Told::Begins(Stage::Text), "\rwriting\x1b[K"),
    (9_000, Told::Read(1), ""),
    (9_000, Told::Batches(1), ""),
    (9_000, Told::Counted, ""),
    (9_000, Told::Begins(Stage::Tables), ""),
    (9_001, Told::Ends, "\r\x1b[K"),
    (9_002, Told::Ends, ""),
];

// The reports if the text goes to standard output.
const TEXT_SHOWN: &[Line] = &[
    (0, Told::Begins(Stage::Tables), "\rreading tables\x1b[K"),
    (1, Told::Begins(Stage::Text), "\r\x1b[K"),
    (9_000, Told::Read(1), ""),
    (9_000, Told::Counted, ""),
    (9_000, Told::Begins(Stage::Selection), ""),
    (9_000, Told::Ends, ""),
];

// The same if nothing was shown before.
const TEXT_ALONE: &[Line] = &[
    (1, Told::Begins(Stage::Text), ""),
    (9_000, Told::Read(1), ""),
    (9_000, Told::Ends, ""),
];

// The reports if the text goes to a file that is named.
const TEXT_FILED: &[Line] = &[
    (0, Told::ToFile, ""),
    (1, Told::Begins(Stage::Text), "\rwriting\x1b[K"),
    (9_000, Told::Read(1), ""),
    (9_000, Told::Ends, "\r\x1b[K"),
];

// The reports if standard input is typed. What was shown is cleared first.
const INPUT_TYPED: &[Line] = &[
    (
        0,
        Told::Input,
        "reading standard input; end it with Ctrl-D\n",
    ),
    (200, Told::Read(1), "\rread 0 MB, 0 s\x1b[K"),
    (
        201,
        Told::Input,
        "\r\x1b[Kreading standard input; end it with Ctrl-D\n",
    ),
    (202, Told::Ends, ""),
];

// The reports if standard input is no terminal.
const INPUT_GIVEN: &[Line] = &[(0, Told::Input, ""), (1, Told::Ends, "")];

// Whether standard input is a terminal, and the reports then.
const TABLES: &[(bool, &[Line])] = &[
    (false, LINES),
    (true, NO_LINES),
    (false, PERCENTAGES),
    (false, SELECTION),
    (false, PROFILE),
    (false, SELECTION_SHOWN),
    (true, STAGES),
    (false, TEXT_SHOWN),
    (false, TEXT_ALONE),
    (false, TEXT_FILED),
    (true, INPUT_TYPED),
    (false, INPUT_GIVEN),
];

// Asserts that a line writes these texts.
fn assert_lines<H: Abort + AllocGlobal>(
    rt: &H,
    is_typed: bool,
    lines: &[Line],
) -> Result<(), Fail> {
    let (clock, screen) = (SetClock::new(false), Screen::new(rt, true));
    let line = ProgressLine::new(&clock, &screen, is_typed);
    for (millis, told, text) in lines {
        clock.millis.store(*millis, Ordering::SeqCst);
        tell(&line, *told);
        assert_taken(rt, &screen, *millis, text.as_bytes())?;
    }
    Ok(())
}

// Asserts that this was written since it was asked before.
fn assert_taken<H: Abort + AllocGlobal>(
    rt: &H,
    screen: &Screen,
    millis: u64,
    text: &[u8],
) -> Result<(), Fail> {
    let taken = screen.take_bytes(rt)?;
    assert_bytes(rt, millis, &taken, text);
    Ok(())
}

#[test]
fn the_line_is_written_over_and_cleared(rt: HostRuntime) -> Result<(), Fail> {
    for (is_typed, lines) in TABLES {
        assert_lines(&rt, *is_typed, lines)?;
    }
    Ok(())
}

// Asserts that a line with this clock and screen writes nothing for these reports.
fn assert_nothing_shown<H: Abort + AllocGlobal>(
    rt: &H,
    is_broken: bool,
    is_terminal: bool,
    is_typed: bool,
    lines: &[Line],
) -> Result<(), Fail> {
    let (clock, screen) = (SetClock::new(is_broken), Screen::new(rt, is_terminal));
    let line = ProgressLine::new(&clock, &screen, is_typed);
    for (millis, told, _) in lines {
        clock.millis.store(*millis, Ordering::SeqCst);
        tell(&line, *told);
    }
    assert_taken(rt, &screen, 0, b"")
}

#[test]
fn nothing_is_shown_without_a_terminal_and_of_a_count_without_a_clock(
    rt: HostRuntime,
) -> Result<(), Fail> {
    for (is_typed, lines) in TABLES {
        assert_nothing_shown(&rt, false, false, *is_typed, lines)?;
    }
    assert_nothing_shown(&rt, true, true, false, LINES)?;
    assert_nothing_shown(&rt, true, true, false, PERCENTAGES)
}

// Milliseconds, and the tenths of a second that have passed then.
const TENTHS: &[(u64, u64)] = &[(0, 0), (99, 0), (100, 1), (3_149, 31), (3_600_000, 36_000)];

#[test]
fn the_tenths_that_passed_are_told(rt: HostRuntime) -> Result<(), Fail> {
    for is_terminal in [false, true] {
        let (clock, screen) = (SetClock::new(false), Screen::new(&rt, is_terminal));
        clock.millis.store(7_050, Ordering::SeqCst);
        let line = ProgressLine::new(&clock, &screen, false);
        for (millis, tenths) in TENTHS {
            clock.millis.store(7_050 + *millis, Ordering::SeqCst);
            assert_same(&rt, *millis, &line.tenths_passed(), &Some(*tenths));
        }
        let broken = SetClock::new(true);
        let line = ProgressLine::new(&broken, &screen, false);
        assert_same(&rt, "no clock", &line.tenths_passed(), &None);
    }
    assert_same(&rt, "no line", &NoProgress.tenths_passed(), &None);
    Ok(())
}

// Keeps the reports.
#[derive(Drop)]
pub(crate) struct Heard {
    bytes: AtomicU64,
    // the greatest number of bytes in one call
    most_bytes: AtomicU64,
    batches: AtomicU64,
    begun: AtomicU64,
    counted: AtomicU64,
    ends: AtomicU64,
    // how many calls came after an end
    late: AtomicU64,
    // how many calls of each came
    filed: AtomicU64,
    inputs: AtomicU64,
    sizes: AtomicU64,
    tables: AtomicU64,
    texts: AtomicU64,
}

impl Heard {
    pub(crate) fn nothing() -> Heard {
        Heard {
            bytes: AtomicU64::new(0),
            most_bytes: AtomicU64::new(0),
            batches: AtomicU64::new(0),
            begun: AtomicU64::new(0),
            counted: AtomicU64::new(0),
            ends: AtomicU64::new(0),
            late: AtomicU64::new(0),
            filed: AtomicU64::new(0),
            inputs: AtomicU64::new(0),
            sizes: AtomicU64::new(0),
            tables: AtomicU64::new(0),
            texts: AtomicU64::new(0),
        }
    }

    // How many bytes were reported, and the most in one call.
    pub(crate) fn bytes(&self) -> (u64, u64) {
        let order = Ordering::SeqCst;
        (self.bytes.load(order), self.most_bytes.load(order))
    }

    // How many bytes, batches, batches that were begun and counted, ends, and calls after an end were reported.
    fn numbers(&self) -> [u64; 6] {
        let order = Ordering::SeqCst;
        [
            self.bytes.load(order),
            self.batches.load(order),
            self.begun.load(order),
            self.counted.load(order),
            self.ends.load(order),
            self.late.load(order),
        ]
    }

    // How many calls came of each of the fields after the late ones.
    fn calls(&self) -> [u64; 5] {
        let order = Ordering::SeqCst;
        [
            self.filed.load(order),
            self.inputs.load(order),
            self.sizes.load(order),
            self.tables.load(order),
            self.texts.load(order),
        ]
    }

    fn hear(&self, what: &AtomicU64, count: u64) {
        if self.ends.load(Ordering::SeqCst) > 0 {
            self.late.fetch_add(1, Ordering::SeqCst);
        }
        what.fetch_add(count, Ordering::SeqCst);
    }
}

impl Gate for Heard {
    fn before_book(&self, _worker: u32, _batch: u64) {
        self.hear(&self.begun, 1);
    }

    fn after_book(&self, _worker: u32, _batch: u64) {
        self.hear(&self.counted, 1);
    }
}

impl Progress for Heard {
    ghost use Rattle.std.specs.Prelude.{false};

    ghost watched = { λ _. false };

    fn is_watched(&self) -> bool {
        false
    }

    fn text_goes_to_file(&self) {
        self.hear(&self.filed, 1);
    }

    fn input_is_read(&self) {
        self.hear(&self.inputs, 1);
    }

    fn sources_have(&self, _bytes: Option<u64>) {
        self.hear(&self.sizes, 1);
    }

    fn bytes_read(&self, count: u64) {
        self.most_bytes.fetch_max(count, Ordering::SeqCst);
        self.hear(&self.bytes, count);
    }

    fn counting_begins(&self, batches: u64) {
        self.hear(&self.batches, batches);
    }

    fn begins(&self, stage: Stage) {
        match stage {
            Stage::Tables => self.hear(&self.tables, 1),
            Stage::Selection | Stage::Profile | Stage::Text => self.hear(&self.texts, 1),
        }
    }

    fn ends(&self) {
        self.hear(&self.ends, 1);
    }

    fn tenths_passed(&self) -> Option<u64> {
        None
    }
}

// A writer that keeps whether this was reported before each of its writes.
#[derive(Drop)]
struct Behind<'a> {
    what: &'a AtomicU64,
    taken: Vec<u8>,
    is_behind: bool,
}

impl Write for Behind<'_> {
    fn write(&mut self, buf: &[u8]) -> io::Result<usize> {
        self.is_behind &= self.what.load(Ordering::SeqCst) > 0;
        self.taken.extend_from_slice(buf)?;
        Ok(buf.len())
    }

    fn flush(&mut self) -> io::Result<()> {
        Ok(())
    }
}

// A command line, its input, and what it writes to the output and to the errors; how many bytes are reported, and how
// many batches; and how many tables and texts begin.
type Run = (
    &'static str,
    &'static str,
    &'static str,
    &'static str,
    (u64, u64),
    (u64, u64),
);

const RUNS: &[Run] = &[
    (
        "count -m 3 --batch 1 --threads 2 --print dump --column",
        ">r\nACGTA\n",
        "ACG 1\nCGT 1\nGTA 1\n",
        "",
        (9, 3),
        (0, 1),
    ),
    (
        "count -m 3 --print dump --column",
        "",
        "",
        "",
        (0, 0),
        (0, 1),
    ),
    (
        "count -m 3 --print dump --column --explain",
        ">r\nACGTA\n",
        "ACG 1\nCGT 1\nGTA 1\n",
        "1 read, 3 k-mers, 3 distinct\n",
        (9, 1),
        (0, 1),
    ),
    (
        "count -m 3",
        ">r\nA@C\n",
        "",
        "kcount: 2: bad base, source 1, line 2\n",
        // bytes are reported with the reads that they have
        (0, 0),
        (0, 0),
    ),
    (
        "dump -c",
        "KCT 2 3 s a 33 1\nACG 1\nEND 1 1\n",
        "ACG 1\n",
        "",
        (0, 0),
        (1, 1),
    ),
];

// A writer of this kind that took nothing.
fn writer_behind(alloc: Global, what: &AtomicU64) -> Behind<'_> {
    Behind {
        what,
        taken: Vec::new(alloc),
        is_behind: true,
    }
}

// Asserts what a run wrote and reported, which reads its input.
fn assert_heard<H: Abort>(
    rt: &H,
    heard: &Heard,
    written: &Behind<'_>,
    told: &Behind<'_>,
    run: &Run,
) {
    let (line, _, output, errors, (bytes, batches), (tables, texts)) = run;
    assert_bytes(rt, *line, &written.taken, output.as_bytes());
    assert_bytes(rt, *line, &told.taken, errors.as_bytes());
    let want = [*bytes, *batches, *batches, *batches, 1, 0];
    assert_same(rt, *line, &heard.numbers(), &want);
    assert_same(rt, *line, &heard.calls(), &[0, 1, 1, *tables, *texts]);
    let is_behind = written.is_behind && told.is_behind;
    assert_same(rt, *line, &is_behind, &true);
}

// Runs the command line, and asserts what it writes and reports.
fn assert_run<H: Files + Threads + Wait + Abort + Sync + AllocGlobal>(
    rt: &H,
    example: &Run,
) -> Result<(), AllocError> {
    let alloc = rt.alloc();
    let words = words_of(alloc, example.0)?;
    let heard = Heard::nothing();
    let mut written = writer_behind(alloc, &heard.texts);
    let mut told = writer_behind(alloc, &heard.ends);
    run(
        rt,
        alloc,
        &Ok(words),
        &mut NamedFiles::new(rt),
        &mut FromBytes::new(example.1.as_bytes()),
        &mut ToWrite::new(&mut written),
        &mut ToWrite::new(&mut told),
        &heard,
    );
    assert_heard(rt, &heard, &written, &told, example);
    Ok(())
}

// The bytes of all sources and each batch are reported, then that the text begins, before any of it is written, and
// then the end, once and before anything goes to the errors.
#[test]
fn a_count_tells_its_bytes_and_batches(rt: HostRuntime) -> Result<(), AllocError> {
    for run in RUNS {
        assert_run(&rt, run)?;
    }
    Ok(())
}
