//! The texts of help: what each command does, what it reads and writes, and how it ends.

/// At the top of the help of `kcount`.
pub(crate) const KCOUNT: &str = "\
Counts the k-mers (words of length k) in sequence reads. Each count is proved.";

/// At the end of the help of `kcount`.
pub(crate) const AFTER_KCOUNT: &str = "\
`kcount COMMAND --help` describes a command. Exit status: 0 on success, 1 on an
error, 2 for an invalid command line. Errors are printed on standard error.

Examples:
  kcount count -m 21 -C -o reads.kct reads_1.fq reads_2.fq
  kcount count -m 21 -C -o reads.kct reads_1.fq.gz reads_2.fq.gz
  kcount histo reads.kct
  kcount query reads.kct ACGTACGTACGTACGTACGTA
  kcount merge -o both.kct reads.kct more_reads.kct
  kcount compare reads.kct assembly.kct";

/// At the top of the help of `count`.
pub(crate) const COUNT: &str = "\
Counts the k-mers of FASTA or FASTQ files into a table or a report.";

/// At the end of the help of `count`.
pub(crate) const AFTER_COUNT: &str = "\
Each file is FASTA or Sanger FASTQ: its first line decides. Sequences may be
wrapped. Letters other than ACGT and acgt, and bases below --min-qual-char,
break k-mers. K-mers are written in ascending order, after all files have been
read and counted. Gzip is decompressed, whatever the file is called.

The k-mers of the --only file are those of its sequences, with the same
--mer-len, --canonical and --min-qual-char as those of the other files.

Exit status: 0 on success, 1 on an error, 2 for an invalid command line. Errors
are printed on standard error.

Examples:
  kcount count -m 21 -C -t 4 -s 100M -o reads.kct reads_1.fq reads_2.fq
  kcount count -m 21 -C -o reads.kct reads_1.fq.gz reads_2.fq.gz
  kcount count -m 4 --print dump --column < reads.fa
  kcount count -m 21 -C --only genome.fa -o reads.kct reads.fq";

/// At the top of the help of `dump`.
pub(crate) const DUMP: &str = "\
Writes the k-mers of a table with their counts, in ascending order.";

/// At the end of the help of `dump`.
pub(crate) const AFTER_DUMP: &str = "\
A k-mer is written as two lines, `>COUNT` and `KMER`, or with --column as one.

Exit status: 0 on success, 1 on an error, 2 for an invalid command line. Errors
are printed on standard error.

Examples:
  kcount dump -c -L 2 reads.kct
  kcount count -m 21 reads.fq.gz | kcount dump -c -t -o reads.tsv";

/// At the top of the help of `histo`.
pub(crate) const HISTO: &str = "\
Writes how many k-mers of a table have each count.";

/// At the end of the help of `histo`.
pub(crate) const AFTER_HISTO: &str = "\
The lines are `COUNT NUMBER`, in ascending order. Counts that no k-mer has are
left out. All k-mers with a count above --high share the line of --high + 1.

Exit status: 0 on success, 1 on an error, 2 for an invalid command line. Errors
are printed on standard error.

Examples:
  kcount histo -o reads.histo reads.kct
  kcount count -m 21 -C reads.fq.gz | kcount histo --high 1000";

/// At the top of the help of `stats`.
pub(crate) const STATS: &str = "\
Writes four numbers about the k-mers of a table.";

/// At the end of the help of `stats`.
pub(crate) const AFTER_STATS: &str = "\
Unique is the number of k-mers with a count of 1, Distinct the number of
distinct k-mers, Total the sum of all counts, and Max_count the greatest count.

Exit status: 0 on success, 1 on an error, 2 for an invalid command line. Errors
are printed on standard error.

Examples:
  kcount stats reads.kct
  kcount count -m 21 -C reads.fq.gz | kcount stats";

/// At the top of the help of `query`.
pub(crate) const QUERY: &str = "\
Writes the counts of k-mers that are looked up in a table.";

/// At the end of the help of `query`.
pub(crate) const AFTER_QUERY: &str = "\
Writes a line `KMER COUNT` for each WORD, and then for each k-mer of --file, in
the given order; at least one of the two is required. The count of a k-mer that
the table lacks is 0. With a table of canonical k-mers, KMER is the lesser of
the k-mer and its reverse complement. Blank lines of the file are skipped.
Nothing is written if a word is not a k-mer of the table's length.

Exit status: 0 on success, 1 on an error, 2 for an invalid command line. Errors
are printed on standard error.

Examples:
  kcount count -m 5 -C -o reads.kct reads.fq.gz
  kcount query reads.kct ACGTA GATTA
  kcount query --file kmers.txt -o counts.txt reads.kct";

/// At the top of the help of `merge`.
pub(crate) const MERGE: &str = "\
Writes the sum of two or more tables.";

/// At the end of the help of `merge`.
pub(crate) const AFTER_MERGE: &str = "\
The sum has each k-mer of any table, with its counts in all tables added. All
tables must be counted with the same --mer-len, --canonical and --min-qual-char,
and without --only. A table that begins with `KCT 1` does not record the last
two: they are not compared, and the sum does not record them either. A count or
a sum of counts above 2^62 is an error.

Exit status: 0 on success, 1 on an error, 2 for an invalid command line. Errors
are printed on standard error.

Examples:
  kcount count -m 21 -C -o first.kct reads_1.fq
  kcount count -m 21 -C -o second.kct reads_2.fq
  kcount merge -o both.kct first.kct second.kct
  kcount merge -o week.kct monday.kct tuesday.kct wednesday.kct";

/// At the top of the help of `intersect`.
pub(crate) const INTERSECT: &str = "\
Writes the k-mers that all of two or more tables have.";

/// At the end of the help of `intersect`.
pub(crate) const AFTER_INTERSECT: &str = "\
The result has each k-mer that every table has. Its count is the least of its
counts in the tables, or with --take the greatest (max), the sum (sum) or the
count in FIRST (first). All tables must have the same --mer-len and --canonical.
The result begins with `KCT 1`: it does not record what was counted. A count or
a sum of counts above 2^62 is an error.

Exit status: 0 on success, 1 on an error, 2 for an invalid command line. Errors
are printed on standard error.

Examples:
  kcount intersect -o common.kct first.kct second.kct third.kct
  kcount intersect --take first reads.kct genome.kct > genomic.kct";

/// At the top of the help of `subtract`.
pub(crate) const SUBTRACT: &str = "\
Writes the k-mers of a table that other tables do not have.";

/// At the end of the help of `subtract`.
pub(crate) const AFTER_SUBTRACT: &str = "\
The result has each k-mer of FIRST that no other table has, with its count in
FIRST. With --counts it has each k-mer whose count in FIRST is above the sum of
its counts in the other tables, with the difference as its count. All tables
must have the same --mer-len and --canonical. The result begins with `KCT 1`: it
does not record what was counted.

Exit status: 0 on success, 1 on an error, 2 for an invalid command line. Errors
are printed on standard error.

Examples:
  kcount subtract -o clean.kct reads.kct phix.kct adapters.kct
  kcount subtract --counts all.kct monday.kct > others.kct";

/// At the top of the help of `filter`.
pub(crate) const FILTER: &str = "\
Writes the k-mers of a table whose counts are within bounds.";

/// At the end of the help of `filter`.
pub(crate) const AFTER_FILTER: &str = "\
The result is a table with each k-mer whose count is at least --lower-count and
at most --upper-count, with the same count. It begins with `KCT 1`: it does not
record what was counted. Without FILE the table is read from standard input.

Exit status: 0 on success, 1 on an error, 2 for an invalid command line. Errors
are printed on standard error.

Examples:
  kcount filter -L 2 -o solid.kct reads.kct
  kcount count -m 21 -C reads.fq.gz | kcount filter -U 100 -o rare.kct";

/// At the top of the help of `compare`.
pub(crate) const COMPARE: &str = "\
Compares a table of reads with a table of an assembly.";

/// At the end of the help of `compare`.
pub(crate) const AFTER_COMPARE: &str = "\
A k-mer of READS is solid if its count is at least --solid. Writes eight lines:
  Reads_distinct          k-mers that READS has
  Assembly_distinct       k-mers that ASSEMBLY has
  Shared_distinct         k-mers that both have
  Assembly_total          the sum of all counts in ASSEMBLY
  Assembly_only_distinct  k-mers that only ASSEMBLY has
  Assembly_only_total     the sum of their counts
  Solid_distinct          solid k-mers
  Solid_shared            solid k-mers that ASSEMBLY has

With --matrix, writes lines of COPIES, COUNT and NUMBER instead, in ascending
order, with tabs between: NUMBER k-mers have COPIES as their count in ASSEMBLY,
or 5 for five or more, and COUNT as their count in READS. All counts in READS
above --high share the lines of --high + 1. Numbers of 0 are left out.

Both tables must have the same --mer-len and --canonical.

Exit status: 0 on success, 1 on an error, 2 for an invalid command line. Errors
are printed on standard error.

Examples:
  kcount compare reads.kct assembly.kct
  kcount compare --matrix --high 500 -o matrix.tsv reads.kct assembly.kct";

/// At the top of the help of `select`.
pub(crate) const SELECT: &str = "\
Writes the reads whose k-mers a table counts often enough.";

/// At the end of the help of `select`.
pub(crate) const AFTER_SELECT: &str = "\
A k-mer is solid if its count is at least --min-count and at most --max-count. A
k-mer that is not in the table has a count of 0. A read is written if at least
--min-share percent of its k-mers are solid, or if it has no k-mer. Reads are
written whole and in order, FASTA as FASTA and FASTQ as FASTQ, with sequence and
quality on one line each. The reads before an error are written too, but not to
a file given by -o. --stats prints the number of reads, of reads written, of
k-mers, and of solid k-mers.

With --pairs, TABLE is followed by two files, FIRST and SECOND: the n-th read of
each are a pair, whose titles must match. A pair is written if both its reads
are, or with --keep any one of them; --invert writes the other pairs. Pairs are
written one after the other, or with -o and --output2 to two files, which both
get all pairs or are left unchanged.

Exit status: 0 on success, 1 on an error, 2 for an invalid command line. Errors
are printed on standard error.

Examples:
  kcount count -m 21 -C -o reads.kct reads.fq
  kcount select --min-count 3 -o solid.fq reads.kct reads.fq
  kcount select --invert reads.kct reads.fq.gz > others.fq
  kcount select --pairs -o a_1.fq --output2 a_2.fq reads.kct r_1.fq r_2.fq";

/// At the top of the help of `profile`.
pub(crate) const PROFILE: &str = "\
Writes the counts of the k-mers along each record.";

/// At the end of the help of `profile`.
pub(crate) const AFTER_PROFILE: &str = "\
Writes bedGraph: for each run of equal counts a line of NAME, START, END and
COUNT, with tabs between. The k-mers that begin at START to END - 1 have this
COUNT; positions are counted from 0. NAME is the title up to its first blank. A
k-mer that is not in the table has a count of 0. A k-mer with a letter other
than ACGT and acgt, or with a base below --min-qual-char, has no line, and
neither has a record without k-mers. The records before an error are written
too, but not to a file given by -o.

Exit status: 0 on success, 1 on an error, 2 for an invalid command line. Errors
are printed on standard error.

Examples:
  kcount count -m 21 -C -o reads.kct reads.fq.gz
  kcount profile -o assembly.bedgraph reads.kct assembly.fa";
