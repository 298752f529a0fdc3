//! The options of the commands, each described once. `specs/Options.antt` has their names, limits and defaults, too:
//! that is their specification.
use crate::option_kinds::{CheckedOption, FlagOption, NumberOption, TextOption};
use crate::option_name::OptionName;
use kc_report::MAX_HIGH;

/// `-m`, `--mer-len`: the length of the k-mers.
pub(crate) const MER_LEN: CheckedOption = CheckedOption {
    refused_as: OptionName::MerLen,
    name: "mer-len",
    value: "K",
    help: "Length of the k-mers, 1 to 31 (required)",
    range: "the length of the k-mers, a number from 1 to 31",
};

/// `-s`, `--size`: the slots with which the hash tables begin.
pub(crate) const SIZE: NumberOption = NumberOption {
    option: CheckedOption {
        refused_as: OptionName::Size,
        name: "size",
        value: "N",
        help: "Initial slots of the hash tables, one for each{n}\
            distinct k-mer, 1 to 2^40, as 500, 20k or 2G{n}\
            [default: 1M]",
        range: "a number from 1 to 2^40, as 500, 20k or 2G",
    },
    default: 1_000_000,
    least: 1,
    most: 1 << 40,
};

/// `-t`, `--threads`: how many threads count.
pub(crate) const THREADS: NumberOption = NumberOption {
    option: CheckedOption {
        refused_as: OptionName::Threads,
        name: "threads",
        value: "N",
        help: "Threads that count, 1 to 64 [default: 1]",
        range: "a number from 1 to 64",
    },
    default: 1,
    least: 1,
    most: 64,
};

/// `-C`, `--canonical`: whether both strands count.
pub(crate) const CANONICAL: FlagOption = FlagOption {
    name: "canonical",
    help: "Count canonical k-mers: the lesser of a k-mer and its{n}\
        reverse complement",
};

/// `-o`, `--output`: the file to write to.
pub(crate) const OUTPUT: TextOption = TextOption {
    name: "output",
    value: "FILE",
    help: "Write to this file instead of standard output",
};

/// `--min-qual-char`: the least quality of a base that counts.
pub(crate) const MIN_QUAL_CHAR: CheckedOption = CheckedOption {
    refused_as: OptionName::MinQualChar,
    name: "min-qual-char",
    value: "C",
    help: "Least quality character of a base that counts, one of{n}\
        ASCII 33 to 126 [default: !, so that all count]",
    range: "one character from ! to ~, ASCII 33 to 126, as 5 for a quality of 20",
};

/// `--stripes`: the number of hash tables with a lock each.
pub(crate) const STRIPES: NumberOption = NumberOption {
    option: CheckedOption {
        refused_as: OptionName::Stripes,
        name: "stripes",
        value: "N",
        help: "Hash tables, each with a lock of its own: 1, 2, 4, 8,{n}\
            16, 32 or 64, lowered to 4^K where that is less{n}\
            [default: 16]",
        range: "1, 2, 4, 8, 16, 32 or 64",
    },
    default: 16,
    least: 1,
    most: 64,
};

/// `--batch`: the positions that a thread counts at a time.
pub(crate) const BATCH: NumberOption = NumberOption {
    option: CheckedOption {
        refused_as: OptionName::Batch,
        name: "batch",
        value: "N",
        help: "Positions that a thread counts at a time, 1 to 2^36{n}\
            [default: 65536]",
        range: "a number from 1 to 2^36",
    },
    default: 65_536,
    least: 1,
    most: 1 << 36,
};

/// `--print`: which report a count writes.
pub(crate) const PRINT: CheckedOption = CheckedOption {
    refused_as: OptionName::Print,
    name: "print",
    value: "WHAT",
    help: "What to write: table, dump, histo or stats{n}\
        [default: table]",
    range: "table, dump, histo or stats",
};

/// `--column`: a k-mer and its count in one line.
pub(crate) const COLUMN: FlagOption = FlagOption {
    name: "column",
    help: "Dump a k-mer and its count on one line, `KMER COUNT`",
};

/// `--tab`: a tab between a k-mer and its count.
pub(crate) const TAB: FlagOption = FlagOption {
    name: "tab",
    help: "With --column, put a tab between a k-mer and its{n}\
        count",
};

/// `--lower-count`: the least count of a k-mer that is not left out.
pub(crate) const LOWER_COUNT: NumberOption = NumberOption {
    option: CheckedOption {
        refused_as: OptionName::LowerCount,
        name: "lower-count",
        value: "N",
        help: "Leave out k-mers with a count below this one,{n}\
            0 to 2^62 [default: 0]",
        range: "a number from 0 to 2^62",
    },
    default: 0,
    least: 0,
    most: kc_report::MAX_COUNT,
};

/// `--upper-count`: the greatest count of a k-mer that is not left out.
pub(crate) const UPPER_COUNT: NumberOption = NumberOption {
    option: CheckedOption {
        refused_as: OptionName::UpperCount,
        name: "upper-count",
        value: "N",
        help: "Leave out k-mers with a count above this one,{n}\
            0 to 2^62 [default: 2^62]",
        range: "a number from 0 to 2^62",
    },
    default: kc_report::MAX_COUNT,
    least: 0,
    most: kc_report::MAX_COUNT,
};

/// `--high`: the greatest count with a line of its own in a histogram or a spectrum of copy numbers.
pub(crate) const HIGH: NumberOption = NumberOption {
    option: CheckedOption {
        refused_as: OptionName::High,
        name: "high",
        value: "N",
        help: "Greatest count with a line of its own,{n}\
            1 to 10000000 [default: 10000]",
        range: "a number from 1 to 10000000",
    },
    default: 10_000,
    least: 1,
    most: MAX_HIGH,
};

/// `--only`: the file with the only k-mers that are counted.
pub(crate) const ONLY: TextOption = TextOption {
    name: "only",
    value: "FILE",
    help: "Count only k-mers that occur in this FASTA or FASTQ{n}\
        file [default: all k-mers]",
};

/// `--file`: the file with more k-mers that are looked up.
pub(crate) const FILE: TextOption = TextOption {
    name: "file",
    value: "WORDS",
    help: "Also look up the k-mers of this file, one a line, after{n}\
        those of the command line",
};

/// `--take`: the count of a k-mer in an intersection.
pub(crate) const TAKE: CheckedOption = CheckedOption {
    refused_as: OptionName::Take,
    name: "take",
    value: "WHICH",
    help: "Which count a k-mer gets of its counts in the tables:{n}\
        min, max, sum or first [default: min]",
    range: "min, max, sum or first",
};

/// `--counts`: counts are subtracted, and not k-mers.
pub(crate) const COUNTS: FlagOption = FlagOption {
    name: "counts",
    help: "Subtract counts: keep what is left of FIRST's counts",
};

/// `--solid`: the least count of a solid k-mer in a comparison.
pub(crate) const SOLID: NumberOption = NumberOption {
    option: CheckedOption {
        refused_as: OptionName::Solid,
        name: "solid",
        value: "N",
        help: "Least count of a solid k-mer of READS, 0 to 2^62{n}\
            [default: 2]",
        range: "a number from 0 to 2^62",
    },
    default: 2,
    least: 0,
    most: kc_report::MAX_COUNT,
};

/// `--matrix`: the numbers of k-mers for each two counts.
pub(crate) const MATRIX: FlagOption = FlagOption {
    name: "matrix",
    help: "Write the number of k-mers for each count in ASSEMBLY{n}\
        and each count in READS",
};

/// `--min-count`: the least count of a solid k-mer.
pub(crate) const MIN_COUNT: NumberOption = NumberOption {
    option: CheckedOption {
        refused_as: OptionName::MinCount,
        name: "min-count",
        value: "N",
        help: "Least count of a solid k-mer, 0 to 2^62 [default: 2]",
        range: "a number from 0 to 2^62",
    },
    default: 2,
    least: 0,
    most: kc_report::MAX_COUNT,
};

/// `--max-count`: the greatest count of a solid k-mer.
pub(crate) const MAX_COUNT: NumberOption = NumberOption {
    option: CheckedOption {
        refused_as: OptionName::MaxCount,
        name: "max-count",
        value: "N",
        help: "Greatest count of a solid k-mer, 0 to 2^62{n}\
            [default: 2^62]",
        range: "a number from 0 to 2^62",
    },
    default: kc_report::MAX_COUNT,
    least: 0,
    most: kc_report::MAX_COUNT,
};

/// `--min-share`: how many percent of a read's k-mers have to be solid.
pub(crate) const MIN_SHARE: NumberOption = NumberOption {
    option: CheckedOption {
        refused_as: OptionName::MinShare,
        name: "min-share",
        value: "P",
        help: "Least percentage of a read's k-mers that must be{n}\
            solid, 0 to 100 [default: 100]",
        range: "a percentage, a whole number from 0 to 100",
    },
    default: 100,
    least: 0,
    most: 100,
};

/// `--invert`: the other reads instead.
pub(crate) const INVERT: FlagOption = FlagOption {
    name: "invert",
    help: "Write the other reads instead",
};

/// `--pairs`: pairs of reads of two files.
pub(crate) const PAIRS: FlagOption = FlagOption {
    name: "pairs",
    help: "Select pairs of reads of two files, FIRST and SECOND:{n}\
        the first reads, the second reads, and so on",
};

/// `--keep`: how many reads of a pair have to be solid.
pub(crate) const KEEP: CheckedOption = CheckedOption {
    refused_as: OptionName::Keep,
    name: "keep",
    value: "WHICH",
    help: "With --pairs, which reads of a pair must be solid:{n}\
        both, or any of them [default: both]",
    range: "both or any",
};

/// `--output2`: the file for the second reads of pairs.
pub(crate) const OUTPUT2: TextOption = TextOption {
    name: "output2",
    value: "FILE",
    help: "With --pairs and -o, write the reads of SECOND to{n}\
        this file, and those of FIRST to that of -o",
};

/// `--stats`: to print how many reads and k-mers there were.
pub(crate) const STATS: FlagOption = FlagOption {
    name: "stats",
    help: "Print on standard error how many reads and k-mers{n}\
        there were",
};

/// `--explain`: whether a fault is explained.
pub(crate) const EXPLAIN: FlagOption = FlagOption {
    name: "explain",
    help: "Explain an error in a second line, as on a terminal",
};
