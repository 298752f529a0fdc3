//! Whole command lines, over input, output and errors in memory.
use crate::written_bytes::{assert_bytes, assert_same};
use kc_tool::program;
use std::alloc::{AllocError, Global};
use std::process::Abort;
use std::rt::Files;
use std::sync::Wait;
use std::test::Fail;
use std::thread::Threads;

// What a command line wrote, and its exit status.
#[derive(Drop)]
struct Ran {
    status: u8,
    output: Vec<u8>,
    errors: Vec<u8>,
}

// `kcount`, and the words of a line.
pub(crate) fn words_of(alloc: Global, line: &str) -> Result<Vec<String>, AllocError> {
    let mut words = Vec::new(alloc);
    push_word(alloc, &mut words, "kcount")?;
    for word in line.split(' ') {
        push_word(alloc, &mut words, word)?;
    }
    Ok(words)
}

fn push_word(alloc: Global, words: &mut Vec<String>, word: &str) -> Result<(), AllocError> {
    let word = String::from_str(alloc, word)?;
    Ok(words.push(word)?)
}

// Runs a command line on this input.
fn run<H: Files + Threads + Wait + Sync + AllocGlobal>(
    rt: &H,
    line: &str,
    input: &str,
) -> Result<Ran, AllocError> {
    let alloc = rt.alloc();
    let words = words_of(alloc, line)?;
    let mut output = Vec::new(alloc);
    let mut errors = Vec::new(alloc);
    let input = input.as_bytes();
    let status = program(rt, alloc, words, input, &mut output, &mut errors);
    Ok(Ran {
        status,
        output,
        errors,
    })
}

// Asserts that a count with these options and these others ends with this status, and writes this to the output and to
// the errors.
fn assert_counted<H: Files + Threads + Wait + Abort + Sync + AllocGlobal>(
    rt: &H,
    options: (&str, &str),
    input: &str,
    status: u8,
    output: &str,
    errors: &str,
) -> Result<(), AllocError> {
    let (options, others) = options;
    let line = format!(in rt.alloc(); "count {options}{others}")?;
    let ran = run(rt, line.as_str(), input)?;
    assert_bytes(rt, options, ran.errors.as_slice(), errors.as_bytes());
    assert_bytes(rt, options, ran.output.as_slice(), output.as_bytes());
    assert_same(rt, options, &ran.status, &status);
    Ok(())
}

// To write the dump in columns.
const IN_COLUMNS: &str = " --print dump --column";

// Options of a count, its input, and the dump of its words in columns.
const DUMPS: &[(&str, &str, &str)] = &[
    ("-m 3", ">r1\nACGTA\n", "ACG 1\nCGT 1\nGTA 1\n"),
    ("-m3", ">r1\nACGTA\n", "ACG 1\nCGT 1\nGTA 1\n"),
    ("--mer-len=003", ">r1\nACGTA\n", "ACG 1\nCGT 1\nGTA 1\n"),
    ("-m 3 -C", ">r1\nACGTA\n", "ACG 2\nGTA 1\n"),
    ("-Cm3", ">r1\nACGTA\n", "ACG 2\nGTA 1\n"),
    ("-m 2", ">a\nAC\nGT\r\n>b\n\n>c\nac", "AC 2\nCG 1\nGT 1\n"),
    ("-m 2", ">r\nACNGT\n", "AC 1\nGT 1\n"),
    ("-m 3", ">r\nACNGT\n", ""),
    ("-m 5", "", ""),
    (
        "-m 31",
        ">r\nTTTTTTTTTTTTTTTTTTTTTTTTTTTTTTT\n",
        "TTTTTTTTTTTTTTTTTTTTTTTTTTTTTTT 1\n",
    ),
    (
        "-m 31 -C",
        ">r\nTTTTTTTTTTTTTTTTTTTTTTTTTTTTTTT\n",
        "AAAAAAAAAAAAAAAAAAAAAAAAAAAAAAA 1\n",
    ),
    ("-m 4 -C", ">r\nACGT\n", "ACGT 1\n"),
    ("-m 1 -C", ">r\nAACGT\n", "A 3\nC 2\n"),
    ("-m 2 --min-qual-char #", "@q\nACGT\n+\nII!I\n", "AC 1\n"),
    (
        "-m 2 --min-qual-char !",
        "@q\nACGT\n+\nII!I\n",
        "AC 1\nCG 1\nGT 1\n",
    ),
    ("-m 2 --min-qual-char I", "@q\nACGT\n+\nIIHI\n", "AC 1\n"),
    ("-m 4", "@q\nAC\nGT\n+q\n@I\nII\n", "ACGT 1\n"),
    ("-m 2", "@q\n\n+\n\n@r\nAC\n+\nII\n", "AC 1\n"),
    ("-m 2", "@q\nAC\n+\nI\n\nI\n", "AC 1\n"),
    ("-m 3 --batch 1", ">r\nAAAAAAAAAA\n", "AAA 8\n"),
    ("-m 3 --batch 3", ">r\nAAAAAAAAAA\n", "AAA 8\n"),
    ("-m 3 --batch 7", ">r\nAAAAAAAAAA\n", "AAA 8\n"),
    ("-m 3 --batch 8", ">r\nAAAAAAAAAA\n", "AAA 8\n"),
    ("-m 3 --batch 11", ">r\nAAAAAAAAAA\n", "AAA 8\n"),
    ("-m 3 --batch 68719476736", ">r\nAAAAAAAAAA\n", "AAA 8\n"),
    (
        "-m 3 --batch 2",
        ">a\nACGTA\n>b\nAC\n>c\nNGTN\n",
        "ACG 1\nCGT 1\nGTA 1\n",
    ),
    (
        "-m 3 -C --batch 2",
        ">a\nACGTA\n>b\nAC\n>c\nNGTN\n",
        "ACG 2\nGTA 1\n",
    ),
    // values at their limits
    (
        "-m 3 -s 1 -t 64 --high 10000000",
        ">r\nAAAAAAAAAA\n",
        "AAA 8\n",
    ),
    (
        "-m 3 -s 2k --stripes 64 --lower-count 8",
        ">r\nAAAAAAAAAA\n",
        "AAA 8\n",
    ),
    (
        "-m 3 --min-qual-char ~ --upper-count 8",
        ">r\nAAAAAAAAAA\n",
        "AAA 8\n",
    ),
];

// Options of a count, its input, and what is written. A table has the floor and the number of all reads.
const TABLES: &[(&str, &str, &str)] = &[
    (
        "-m 3",
        ">r1\nACGTA\n",
        "KCT 2 3 s a 33 1\nACG 1\nCGT 1\nGTA 1\nEND 3 3\n",
    ),
    (
        "-m 3 -C",
        ">r1\nACGTA\n",
        "KCT 2 3 c a 33 1\nACG 2\nGTA 1\nEND 2 3\n",
    ),
    (
        "-m 2 --min-qual-char #",
        "@q\nACGT\n+\nII!I\n@r\nAC\n+\nII\n",
        "KCT 2 2 s a 35 2\nAC 2\nEND 1 2\n",
    ),
    // reads without words are reads
    (
        "-m 2 --print table",
        ">a\n\n>b\nA\n>c\nANA\n>d",
        "KCT 2 2 s a 33 4\nEND 0 0\n",
    ),
    (
        "-m 31 --min-qual-char ~",
        "@q\n\n+\n",
        "KCT 2 31 s a 126 1\nEND 0 0\n",
    ),
    ("-m 1", "", "KCT 2 1 s a 33 0\nEND 0 0\n"),
    (
        "-m 3 --print dump",
        ">r1\nACGTA\n",
        ">1\nACG\n>1\nCGT\n>1\nGTA\n",
    ),
];

#[test]
fn counts(rt: HostRuntime) -> Result<(), AllocError> {
    for (options, input, output) in DUMPS {
        assert_counted(&rt, (*options, IN_COLUMNS), *input, 0, *output, "")?;
    }
    for (options, input, output) in TABLES {
        assert_counted(&rt, (*options, ""), *input, 0, *output, "")?;
    }
    Ok(())
}

// Options of a count, its input, and why it is refused.
const REFUSALS: &[(&str, &str, &str)] = &[
    ("-m 3", ">r\nA@C\n", "2: bad base, source 1, line 2"),
    ("-m 3", "ACGT\n", "1: bad start, source 1, line 1"),
    (
        "-m 3",
        "@q\nAC\n+\nIII\n",
        "4: long quality, source 1, line 4",
    ),
    ("-m 3", "@q\nACGT\n+\nII", "5: truncated, source 1, line 4"),
    (
        "-m 3",
        "@q\nAC\n+\nI \n",
        "3: bad quality, source 1, line 4",
    ),
    (
        "-m 3",
        "@q\nAC\n+\n#I\n@r\n",
        "5: truncated, source 1, line 5",
    ),
    (
        "-m 3",
        "@q\nAC\n+\nII\nxx\n",
        "1: bad start, source 1, line 5",
    ),
    (
        "-m 3",
        "@q\nAC\n@x\n+\nIIII\n",
        "2: bad base, source 1, line 3",
    ),
    ("-m 3 -C", ">r\nAC\nG!\n", "2: bad base, source 1, line 3"),
    ("-m 32", ">r\nACGTA\n", "51: bad option --mer-len"),
    ("-m 3 -t 0 -s 0", "ACGT\n", "51: bad option --size"),
    (
        "-m 3 --only missing --high 0",
        "ACGT\n",
        "51: bad option --high",
    ),
];

// A refusal has its line on standard error and its status, and nothing is written.
#[test]
fn refusals(rt: HostRuntime) -> Result<(), AllocError> {
    for (options, input, why) in REFUSALS {
        let status = if why.starts_with("51") { 2 } else { 1 };
        let errors = format!(in rt.alloc(); "kcount: {why}\n")?;
        assert_counted(
            &rt,
            (*options, IN_COLUMNS),
            *input,
            status,
            "",
            errors.as_str(),
        )?;
    }
    Ok(())
}

// Command lines that `clap` refuses, and some that ask for help or for the version.
const OF_CLAP: &[(&str, u8)] = &[
    ("frob", 2),
    ("count -m", 2),
    ("count -m 3 -m 4", 2),
    ("dump first.kct second.kct", 2),
    ("merge first.kct", 2),
    ("subtract --take min first.kct second.kct", 2),
    ("select table --min-share", 2),
    ("help", 0),
    ("count --help", 0),
    ("histo -h", 0),
    ("--version", 0),
];

// What `clap` refuses ends with status 2 and a text on standard error alone; help goes to the output.
#[test]
fn command_lines_that_clap_answers(rt: HostRuntime) -> Result<(), AllocError> {
    for (line, status) in OF_CLAP {
        let ran = run(&rt, *line, "")?;
        assert_same(&rt, *line, &ran.status, status);
        assert_same(&rt, *line, &ran.output.is_empty(), &(*status == 2));
        assert_same(&rt, *line, &ran.errors.is_empty(), &(*status == 0));
    }
    Ok(())
}
