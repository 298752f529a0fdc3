//! What a person reads about a fault, after its line: what was found, where, and what to do.
use crate::commands::Verb;
use crate::file_refusals::Refusal;
use crate::kinds_by_first_bytes::{FileKind, kind_of};
use crate::looks::{Look, Looks};
use crate::tool_faults::ToolFault;
use clap::ArgMatches;
use itoa::Buffer;
use kc_command::{OptionName, has_flag, text_of};
use kc_fastx::FastxFault;
use kc_run::RunFault;
use std::alloc::{AllocError, Global};

// The name of standard input.
const STANDARD_INPUT: &str = "standard input";

/// What is known of a command that met a fault.
#[derive(Drop)]
pub(crate) struct Known<'a, 'm> {
    /// The command.
    pub verb: Verb,
    /// Its options and files.
    pub matches: &'a ArgMatches<'m>,
    /// What is known of the files that it read.
    pub looks: &'a Looks,
    /// Why the system refused a file, if it did.
    pub refusal: Option<Refusal>,
    /// Why the system refused what was written to the output, if it did.
    pub output_refusal: Option<Refusal>,
}

/// The line that explains a fault.
pub(crate) fn explanation(
    alloc: Global,
    fault: &ToolFault,
    known: &Known<'_, '_>,
) -> Result<String, AllocError> {
    match fault {
        ToolFault::Fastx { source, fault } => explain_reads(alloc, *source, *fault, known),
        ToolFault::BadHeader
        | ToolFault::BadRow(_)
        | ToolFault::BadEnd
        | ToolFault::TableTooLong
        | ToolFault::TableRead
        | ToolFault::BrokenTable(_)
        | ToolFault::ShortTable(_) => explain_table(alloc, fault, known),
        ToolFault::BadOption(name) => explain_option(alloc, *name, known),
        ToolFault::BadWord(number) => explain_word(alloc, *number, known),
        ToolFault::OpenFailed(name) => explain_file(alloc, name.as_str(), known),
        ToolFault::Unlike => explain_unlike(alloc, known),
        ToolFault::Unpaired(number) => explain_pairs(alloc, *number, known),
        ToolFault::Write => explain_output(alloc, known),
        _ => line(alloc, text_of_rest(fault), "", ""),
    }
}

// What may be wrong with a file that opened and can't be read.
const READ_FAILED: &str =
    " can't be read: it may be a folder, or a disk or the network may have failed";

// The faults that need only a text.
fn text_of_rest(fault: &ToolFault) -> &'static str {
    match fault {
        ToolFault::Run(RunFault::NoThread(_)) => {
            "a thread can't be started: give fewer by -t, or raise the limit (ulimit -u)"
        }
        ToolFault::Run(RunFault::Full(_)) => {
            "a hash table can't grow further: count parts of the input, and merge their tables"
        }
        ToolFault::TooLarge => "a count, or the sum of all counts, would be above 2^62",
        _ => "memory ran out: count parts of the input, and merge their tables",
    }
}

// The line of these three texts.
fn line(alloc: Global, first: &str, second: &str, third: &str) -> Result<String, AllocError> {
    let mut text = String::from_str(alloc, "  ")?;
    text.push_str(first)?;
    text.push_str(second)?;
    text.push_str(third)?;
    text.push_str("\n")?;
    Ok(text)
}

// A line about a line of a file.
fn at_line(alloc: Global, name: &str, at: u64, what: &str) -> Result<String, AllocError> {
    let mut text = String::from_str(alloc, name)?;
    text.push_str(", line ")?;
    let mut digits = Buffer::new();
    text.push_str(digits.format(at))?;
    line(alloc, text.as_str(), ": ", what)
}

// The file with this number, from 1, or standard input.
fn file_name<'m>(number: u64, matches: &ArgMatches<'m>) -> &'m str {
    let Some(files) = matches.get_strs("file") else {
        return STANDARD_INPUT;
    };
    let at = usize::try_from(number.saturating_sub(1)).unwrap_or(usize::MAX);
    match files.get(at) {
        Some(name) => *name,
        None => STANDARD_INPUT,
    }
}

// The file that is given for this option or argument.
fn file_argument<'m>(id: &str, matches: &ArgMatches<'m>) -> &'m str {
    match text_of(matches, id) {
        Some(name) => name,
        None => STANDARD_INPUT,
    }
}

// The name of the source with this number: the list is number 0.
fn source_name<'m>(source: u64, matches: &ArgMatches<'m>) -> &'m str {
    if source == 0 {
        file_argument("only", matches)
    } else {
        file_name(source, matches)
    }
}

// The name of the table that a fault is about: of several, the one that was read last.
fn table_name<'m>(known: &Known<'_, 'm>) -> &'m str {
    match known.verb {
        Verb::Merge | Verb::Intersect | Verb::Subtract | Verb::Compare => last_table_name(known),
        Verb::Select | Verb::Profile => file_argument("table", known.matches),
        Verb::Query => queried_name(known),
        _ => file_name(1, known.matches),
    }
}

// The name of a query's list, if nothing was read after it, or of its table.
fn queried_name<'m>(known: &Known<'_, 'm>) -> &'m str {
    match text_of(known.matches, "file") {
        Some(list) if known.looks.count < 2 => list,
        _ => file_argument("table", known.matches),
    }
}

// The name of the last of several tables that was read.
fn last_table_name<'m>(known: &Known<'_, 'm>) -> &'m str {
    let others = known.matches.get_strs("second").unwrap_or(&[]);
    let Some(at) = known.looks.count.checked_sub(2) else {
        return file_argument("first", known.matches);
    };
    match others.get(at) {
        Some(name) => *name,
        None => file_argument("first", known.matches),
    }
}

// The kind of what was read last: standard input, if that is its name, otherwise a file.
fn kind_of_last(name: &str, known: &Known<'_, '_>) -> FileKind {
    let look = if name == STANDARD_INPUT {
        &known.looks.input
    } else if is_first_of_pairs(name, known) {
        &known.looks.before
    } else {
        &known.looks.last
    };
    if look.was_read() {
        kind_of(look.bytes())
    } else {
        FileKind::Unknown
    }
}

// Whether this is the first of two files of pairs, and the second one, which is closed after it, was read as well.
fn is_first_of_pairs(name: &str, known: &Known<'_, '_>) -> bool {
    known.looks.count > 2 && has_flag(known.matches, "pairs") && name == file_name(1, known.matches)
}

// The fault of a source of reads.
fn explain_reads(
    alloc: Global,
    source: u64,
    fault: FastxFault,
    known: &Known<'_, '_>,
) -> Result<String, AllocError> {
    let name = source_name(source, known.matches);
    match fault {
        FastxFault::BadStart(at) => explain_text(alloc, name, at, BAD_START, known),
        FastxFault::BadBase(at) => explain_text(alloc, name, at, BAD_BASE, known),
        FastxFault::BadQuality(at) => at_line(alloc, name, at, BAD_QUALITY),
        FastxFault::LongQuality(at) => at_line(alloc, name, at, LONG_QUALITY),
        FastxFault::Truncated(at) => at_line(alloc, name, at, TRUNCATED),
        FastxFault::TooLong => line(alloc, name, TOO_LONG, ""),
        FastxFault::Read => line(alloc, name, READ_FAILED, ""),
        FastxFault::Memory => line(alloc, "memory ran out while this was read: ", name, ""),
        FastxFault::BrokenGzip => line(alloc, name, BROKEN_GZIP, ""),
        FastxFault::ShortGzip => line(alloc, name, SHORT_GZIP, ""),
    }
}

// A source that is no text of reads: its kind, or what is wrong with this line.
fn explain_text(
    alloc: Global,
    name: &str,
    at: u64,
    what: &str,
    known: &Known<'_, '_>,
) -> Result<String, AllocError> {
    match reads_of_kind(kind_of_last(name, known), at) {
        Some((is, command)) => {
            if name == STANDARD_INPUT {
                return line(alloc, name, is, command.strip_suffix(" ").unwrap_or(""));
            }
            let mut text = String::from_str(alloc, is)?;
            text.push_str(command)?;
            line(alloc, name, text.as_str(), name)
        }
        None => at_line(alloc, name, at, what),
    }
}

const BAD_START: &str = "a record should begin here, with > or @; is the input BAM? Put samtools \
     fastq in front";

const BAD_BASE: &str = "a sequence has a byte that is no letter; are two formats in one input?";

const BAD_QUALITY: &str = "a quality has a byte outside ! to ~, which are ASCII 33 to 126";

const LONG_QUALITY: &str = "the quality is longer than its sequence";

const TRUNCATED: &str = "the input ends inside a record: it was cut off, or its copy is not whole";

const TOO_LONG: &str = " takes the input above 64 GiB: count parts of it, and merge their tables";

const BROKEN_GZIP: &str = " is damaged gzip, or other bytes follow the gzip: get the file again";

const SHORT_GZIP: &str = " is gzip that ends too early: its copy is not whole, get the file again";

// What is printed after the name of a file of this kind that should be one of reads and has a fault in this line,
// before the name is repeated.
fn reads_of_kind(kind: FileKind, at: u64) -> Option<(&'static str, &'static str)> {
    match kind {
        FileKind::Gzip if at == 1 => Some((
            " contains, decompressed, neither FASTA nor FASTQ: look at it by ",
            "zcat ",
        )),
        FileKind::Bgzip if at == 1 => {
            Some((
                " is BAM, or no reads: count the output of ",
                "samtools fastq ",
            ))
        }
        FileKind::Bzip2 => Some((" is compressed with bzip2: count the output of ", "bzcat ")),
        FileKind::Xz => Some((" is compressed with xz: count the output of ", "xzcat ")),
        FileKind::Zstd => Some((" is compressed with zstd: count the output of ", "zstdcat ")),
        FileKind::Cram => Some((" is CRAM: count the output of ", "samtools fastq ")),
        FileKind::Sam => Some((
            " is SAM, or another text of columns: of SAM, count the output of ",
            "samtools fastq ",
        )),
        FileKind::Marked => Some((
            " begins with a byte order mark: count the output of ",
            "tail -c +4 ",
        )),
        FileKind::Table => Some((
            " is a table, and its reads are counted: look at it by ",
            "kcount dump, histo, stats or query ",
        )),
        FileKind::Jellyfish => Some((
            " is a file of Jellyfish, which kcount does not read: look at it by ",
            "jellyfish dump ",
        )),
        _ => None,
    }
}

// The fault of a table.
fn explain_table(
    alloc: Global,
    fault: &ToolFault,
    known: &Known<'_, '_>,
) -> Result<String, AllocError> {
    let name = table_name(known);
    match fault {
        ToolFault::BadRow(at) => at_line(alloc, name, *at, BAD_ROW),
        ToolFault::BadEnd => line(alloc, name, BAD_END, ""),
        ToolFault::TableTooLong => line(alloc, name, " is longer than any table", ""),
        ToolFault::TableRead => line(alloc, name, READ_FAILED, ""),
        ToolFault::BrokenTable(_) => line(alloc, name, BROKEN_GZIP, ""),
        ToolFault::ShortTable(_) => line(alloc, name, SHORT_GZIP, ""),
        _ => line(alloc, name, header_of_kind(kind_of_last(name, known)), ""),
    }
}

const BAD_ROW: &str = "this is no row in its place: a table is read as it was written, and not \
     sorted or edited";

const BAD_END: &str = " lacks its last line, END: it was cut off, or lines were taken out of it";

// What is printed after the name of a file of this kind that should be a table.
fn header_of_kind(kind: FileKind) -> &'static str {
    match kind {
        FileKind::Empty => " is empty: the count that should have written it has failed",
        FileKind::Gzip | FileKind::Bgzip => " contains, decompressed, no table: look at it by zcat",
        FileKind::Jellyfish => {
            " is a file of Jellyfish, which kcount does not read: count the reads by kcount count"
        }
        FileKind::Reads | FileKind::Sam => {
            " is a file of reads, or a dump: count the reads first, by kcount count -m K -o TABLE"
        }
        _ => " is no table: kcount count writes one without --print, and it begins with KCT",
    }
}

// An option has a value outside its limits, or none.
fn explain_option(
    alloc: Global,
    name: OptionName,
    known: &Known<'_, '_>,
) -> Result<String, AllocError> {
    let mut text = String::from_str(alloc, "--")?;
    text.push_str(name.name())?;
    match text_of(known.matches, name.name()) {
        Some(value) => {
            text.push_str(" is ")?;
            text.push_str(value)?;
            line(alloc, text.as_str(), ", and has to be ", name.range())
        }
        None => line(alloc, text.as_str(), " has to be given: ", name.range()),
    }
}

// An asked word is none of the table's.
fn explain_word(alloc: Global, number: u64, known: &Known<'_, '_>) -> Result<String, AllocError> {
    let mut text = String::new(alloc);
    push_asked_word(&mut text, number, known)?;
    let length = header_field(&known.looks.last, 2);
    if length.is_empty() {
        return line(alloc, text.as_str(), " is no k-mer of this table", "");
    }
    text.push_str(" is no k-mer of this table, whose k-mers have a length of ")?;
    line(
        alloc,
        text.as_str(),
        length,
        " and are of A, C, G and T alone",
    )
}

// Appends the asked word with this number, from 1: itself, or its place in the list.
fn push_asked_word(
    text: &mut String,
    number: u64,
    known: &Known<'_, '_>,
) -> Result<(), AllocError> {
    let words = known.matches.get_strs("word").unwrap_or(&[]);
    let at = usize::try_from(number.saturating_sub(1)).unwrap_or(usize::MAX);
    if let Some(word) = words.get(at) {
        return text.push_str(*word);
    }
    let mut digits = Buffer::new();
    text.push_str("k-mer ")?;
    text.push_str(digits.format(number.saturating_sub(words.len() as u64)))?;
    text.push_str(" of ")?;
    text.push_str(file_argument("file", known.matches))
}

// A field of the header of a table with these first bytes.
fn header_field(look: &Look, at: usize) -> &str {
    let Ok(text) = std::str::from_utf8(look.bytes()) else {
        return "";
    };
    match text.split(' ').nth(at) {
        Some(field) => field,
        None => "",
    }
}

// A file can't be opened.
fn explain_file(alloc: Global, name: &str, known: &Known<'_, '_>) -> Result<String, AllocError> {
    let mut text = String::from_str(alloc, name)?;
    text.push_str(" can't be opened: ")?;
    let why = known.refusal.unwrap_or(Refusal::Other);
    line(alloc, text.as_str(), why.text(), tip_of_name(name, known))
}

// What is printed about a name that can't be opened.
fn tip_of_name(name: &str, known: &Known<'_, '_>) -> &'static str {
    if name == "-" {
        return "; standard input is read where no file is named";
    }
    if name.as_bytes().contains(&b',') {
        return "; names of files are divided by blanks, and not by commas";
    }
    if name.as_bytes().contains(&b'*') {
        return "; the shell replaces * only where it is not quoted";
    }
    if text_of(known.matches, "output") == Some(name) {
        return "; the text goes to a new file in the folder of -o first";
    }
    if text_of(known.matches, "output2") == Some(name) {
        return "; the text goes to a new file in the folder of --output2 first";
    }
    ""
}

// The text can't be written.
fn explain_output(alloc: Global, known: &Known<'_, '_>) -> Result<String, AllocError> {
    if text_of(known.matches, "output").is_some() {
        let why = known.refusal.unwrap_or(Refusal::Other);
        let kept = match text_of(known.matches, "output2") {
            None => FILE_IS_KEPT,
            Some(_) => "",
        };
        return line(alloc, "the text can't be written: ", why.text(), kept);
    }
    let why = known.output_refusal.unwrap_or(Refusal::Other);
    line(alloc, "the output can't be written: ", why.text(), "")
}

const FILE_IS_KEPT: &str = "; a regular file of -o is as it was";

// The records with this number are no pair.
fn explain_pairs(alloc: Global, number: u64, known: &Known<'_, '_>) -> Result<String, AllocError> {
    let (first, second) = (file_name(1, known.matches), file_name(2, known.matches));
    let mut text = String::from_str(alloc, first)?;
    text.push_str(" and ")?;
    text.push_str(second)?;
    text.push_str(": the titles of record ")?;
    let mut digits = Buffer::new();
    text.push_str(digits.format(number))?;
    text.push_str(UNPAIRED)?;
    text.push_str(first)?;
    line(alloc, text.as_str(), " -2 ", second)
}

const UNPAIRED: &str = " do not match, or one file has no such record; \
     pair them first: seqkit pair -1 ";

// Tables don't match.
fn explain_unlike(alloc: Global, known: &Known<'_, '_>) -> Result<String, AllocError> {
    let (first, second) = (&known.looks.before, &known.looks.last);
    if known.looks.count > 2 {
        return line(alloc, UNLIKE_TABLES, "", "");
    }
    let mut text = String::from_str(alloc, file_argument("first", known.matches))?;
    text.push_str(" and ")?;
    text.push_str(file_argument("second", known.matches))?;
    if kind_of(first.bytes()) != FileKind::Table || kind_of(second.bytes()) != FileKind::Table {
        return line(alloc, text.as_str(), UNLIKE_HEADERS, "");
    }
    if header_field(first, 2) == header_field(second, 2) {
        let why = match known.verb {
            Verb::Merge => UNLIKE,
            _ => UNLIKE_STRANDS,
        };
        return line(alloc, text.as_str(), why, "");
    }
    text.push_str(" have k-mers of length ")?;
    text.push_str(header_field(first, 2))?;
    line(alloc, text.as_str(), " and ", header_field(second, 2))
}

// What is printed of two tables of which one is compressed.
const UNLIKE_HEADERS: &str =
    " were counted in different ways: compare their first lines, of gzip by zcat";

const UNLIKE: &str = " were counted in different ways: with and without -C or --only, or with \
     another --min-qual-char";

// What is printed of two tables of which one counts both strands.
const UNLIKE_STRANDS: &str = " were counted in different ways: one with -C, and one without";

// What is printed of more than two tables.
const UNLIKE_TABLES: &str =
    "the tables were counted in different ways: compare their first lines, by head -n 1";
