//! Counts that are kept to the words of a list.
use crate::source_lists::{Counted, Slow, assert_counted, counted_of, fault_of, sources_of};
use kc_fastx::{FastxFault, FromBytes, FromRead};
use kc_tool::{Dump, K, Options, Print};
use std::process::Abort;
use std::sync::Wait;
use std::test::Fail;
use std::thread::Threads;

// How to count: the length of the words, whether both strands count, and the least quality that counts.
#[derive(Clone, Copy)]
struct How {
    k: u32,
    both: bool,
    floor: u8,
}

// One strand, and every quality.
const PLAIN: How = How {
    k: 3,
    both: false,
    floor: b'!',
};

const BOTH: How = How {
    k: 3,
    both: true,
    floor: b'!',
};

// Options of a count, and of its report.
fn options_of<H: Abort>(rt: &H, how: How, print: Print) -> Result<Options, Fail> {
    let floor = how.floor;
    assert!(rt; 33 <= floor && floor <= 126);
    let Some(k) = K::new(how.k) else {
        return Err(Fail::from("no length of a word"));
    };
    Ok(
        Options::new(k)
            .with_both(how.both)
            .with_floor(floor)
            .with_print(print)
            .with_dump(Dump::in_columns()),
    )
}

// Counts the words of a list in these inputs.
fn count_listed<H: Threads + Wait + Sync + AllocGlobal>(
    rt: &H,
    list: &str,
    inputs: &[&str],
    options: &Options,
) -> Result<Counted, Fail> {
    let alloc = rt.alloc();
    let sources = sources_of(alloc, inputs)?;
    let only = Some(FromBytes::new(list.as_bytes()));
    Ok(counted_of(rt, alloc, only, sources, options))
}

const ACGTA: &str = ">r1\nACGTA\n";

const WORD_OF_31: &str = ">w\nTTTTTTTTTTTTTTTTTTTTTTTTTTTTTTT\n";

// How to count, a list, the inputs, and the dump of the words of the list.
const LISTED: &[(How, &str, &[&str], &str)] = &[
    (PLAIN, ">w\nCGT\n", &[ACGTA], "CGT 1\n"),
    (BOTH, ">w\nCGT\n", &[ACGTA], "ACG 2\n"),
    (PLAIN, ">w\nCGTA\n", &[ACGTA], "CGT 1\nGTA 1\n"),
    (PLAIN, "", &[ACGTA], ""),
    (PLAIN, ACGTA, &[ACGTA], "ACG 1\nCGT 1\nGTA 1\n"),
    (PLAIN, ACGTA, &[], ""),
    // in lower case, with an N, in several reads, and words that no input has
    (PLAIN, ">w\ncgtNac\n", &[ACGTA], "CGT 1\n"),
    (
        PLAIN,
        ">w\nAC\nG\n>x\nAAA\n>y\nGTA\n",
        &[ACGTA, ">x\nacgNAA\n"],
        "ACG 2\nGTA 1\n",
    ),
    // the word of the other strand is the same word if both count
    (BOTH, ">w\nTAC\n", &[ACGTA], "GTA 1\n"),
    (BOTH, ">w\nACG\n>x\nCGT\n", &[ACGTA], "ACG 2\n"),
    (PLAIN, ">w\nTAC\n", &[ACGTA], ""),
    // no word of the list is as long
    (PLAIN, ">w\nCG\n>x\nTA\n", &[ACGTA], ""),
    // the floor holds for the list
    (
        How {
            k: 3,
            both: false,
            floor: b'"',
        },
        "@w\nCGTA\n+\nIII!\n",
        &[ACGTA],
        "CGT 1\n",
    ),
    (PLAIN, "@w\nCGTA\n+\nIII!\n", &[ACGTA], "CGT 1\nGTA 1\n"),
    (
        How {
            k: 31,
            both: false,
            floor: b'!',
        },
        WORD_OF_31,
        &[">r\nTTTTTTTTTTTTTTTTTTTTTTTTTTTTTTTTC\n"],
        "TTTTTTTTTTTTTTTTTTTTTTTTTTTTTTT 2\n",
    ),
    (
        How {
            k: 31,
            both: true,
            floor: b'!',
        },
        WORD_OF_31,
        &[">r\nAAAAAAAAAAAAAAAAAAAAAAAAAAAAAAA\n"],
        "AAAAAAAAAAAAAAAAAAAAAAAAAAAAAAA 1\n",
    ),
];

// Reports on the words of a list in ACGTA. A table records that a list was given; the reads of the list are not among
// those that it counts.
const REPORTS: &[(&str, Print, &str)] = &[
    (
        "",
        Print::Stats,
        "Unique:    0\nDistinct:  0\nTotal:     0\nMax_count: 0\n",
    ),
    ("", Print::Table, "KCT 2 3 s o 33 1\nEND 0 0\n"),
    (
        ">w\nCGT\n",
        Print::Table,
        "KCT 2 3 s o 33 1\nCGT 1\nEND 1 1\n",
    ),
    (">w\nCGT\n>x\nAAA\n", Print::Histo, "1 1\n"),
];

#[test]
fn listed_words_alone_are_written(rt: HostRuntime) -> Result<(), Fail> {
    for (row, (how, list, inputs, text)) in LISTED.iter().enumerate() {
        let options = options_of(&rt, *how, Print::Dump)?;
        let counted = count_listed(&rt, *list, *inputs, &options)?;
        assert_counted(&rt, row, &counted, &Ok(()), text.as_bytes());
    }
    for (row, (list, print, text)) in REPORTS.iter().enumerate() {
        let options = options_of(&rt, PLAIN, *print)?;
        let counted = count_listed(&rt, *list, &[ACGTA], &options)?;
        assert_counted(&rt, row, &counted, &Ok(()), text.as_bytes());
    }
    Ok(())
}

// A list, the inputs, and the fault that is reported, with the number of its source.
const FAULTY_LISTS: &[(&str, &[&str], u64, FastxFault)] = &[
    ("ACG\n", &[ACGTA], 0, FastxFault::BadStart(1)),
    (">w\nA@C\n", &["ACGT\n"], 0, FastxFault::BadBase(2)),
    (
        "@w\nACG\n+\nII",
        &[">r\nA@C\n"],
        0,
        FastxFault::Truncated(4),
    ),
    (ACGTA, &[">r\nA@C\n"], 1, FastxFault::BadBase(2)),
    ("", &[ACGTA, "ACGT\n"], 2, FastxFault::BadStart(1)),
];

// A fault of the list comes before those of the inputs, under number 0.
#[test]
fn a_faulty_list_is_told_first(rt: HostRuntime) -> Result<(), Fail> {
    let options = options_of(&rt, PLAIN, Print::Table)?;
    for (row, (list, inputs, source, fault)) in FAULTY_LISTS.iter().enumerate() {
        let counted = count_listed(&rt, *list, *inputs, &options)?;
        let told = Err(fault_of(*source, *fault));
        assert_counted(&rt, row, &counted, &told, b"");
    }
    Ok(())
}

// Counts the words of a list that gives one byte at a time and fails at its n-th read.
fn count_with_a_slow_list<H: Threads + Wait + Abort + Sync + AllocGlobal>(
    rt: &H,
    reads_until_failure: usize,
) -> Result<Counted, Fail> {
    let alloc = rt.alloc();
    let options = options_of(rt, PLAIN, Print::Dump)?;
    let only = Some(FromRead::new(Slow {
        left: b">w\nCGT\n",
        reads_until_failure,
    }));
    let mut sources = Vec::new(alloc);
    sources.push(FromBytes::new(ACGTA.as_bytes()))?;
    Ok(counted_of(rt, alloc, only, sources, &options))
}

// If a read of the list fails, that is returned, and nothing is written.
#[test]
fn slow_and_failing_lists(rt: HostRuntime) -> Result<(), Fail> {
    let failed = Err(fault_of(0, FastxFault::Read));
    for n in 0..8 {
        let counted = count_with_a_slow_list(&rt, n)?;
        assert_counted(&rt, n, &counted, &failed, b"");
    }
    let counted = count_with_a_slow_list(&rt, 8)?;
    assert_counted(&rt, 8, &counted, &Ok(()), b"CGT 1\n");
    Ok(())
}
