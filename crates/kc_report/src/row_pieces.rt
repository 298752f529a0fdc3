//! The text of a tally's rows, made by several threads: each makes that of whole pieces, which are neighbouring rows.
//! While the texts of some pieces are handed over, those of the next ones are made.
ghost use Rattle.std.specs.Prelude.{◌≡◌, ◌<◌, ◌≤◌, ◌*◌, ◌^◌, All, IfOk, length, min};
ghost use Rattle.std.specs.List.{flat_map};
ghost use Rattle.std.specs.Thread.{IsSync};
ghost use Rattle.std.specs.Vec.{vec_capacity};
ghost use Rattle.kc_io.specs.Sinks.{HandsOver};
ghost use Rattle.kc_report.specs.Dumping.{dump_text};
ghost use Rattle.kc_report.specs.Pieces.{IsTextOf, AreTextsOf};

use crate::dump::{Dump, ROW_SIZE, hand_over_rows};
use kc_io::{Failed, Sink, ToVec, write_all};
use kc_kmer::K;
use kc_tally::{Rows, Tally};
use std::alloc::{AllocError, Global};
use std::mem::{replace, swap};
use std::thread;
use std::thread::{Threads, join_mut};

// The greatest numbers of rows of a piece, and of bytes of its text.
const PIECE_ROWS: usize = 1 << 13;

const PIECE_SIZE: usize = PIECE_ROWS * ROW_SIZE;

// For how many texts a thread has room. It makes half of them at a time: much more work than starting a thread.
const THREAD_PIECES: usize = 16;

// The text of a piece; less of it, if memory was refused.
#[derive(Drop)]
struct PieceText {
    bytes: Vec<u8>,
    whole: bool,
}

// The pieces whose text is to be made, and room for some of their texts at a time.
#[derive(Drop)]
struct Work<'a> {
    pieces: Vec<Rows<'a>>,
    texts: Vec<PieceText>,
}

// How the texts of rows are made: by at most so many threads, of words of k bases.
#[derive(Drop)]
struct Form<'a, H> {
    rt: &'a H,
    threads: u32,
    k: K,
    dump: &'a Dump,
}

// Pieces whose texts are made.
#[derive(Clone, Copy)]
struct Made<'p, 't> {
    pieces: &'p [Rows<'p>],
    texts: &'t [PieceText],
}

/// Hands over the dump of the tally's rows, with its text made by at most so many threads. If memory for that is
/// refused, the text is made without it. Condition: at least one.
pub(crate) fn hand_over_in_parallel<W: Sink, H: Threads + Sync>(
    rt: &H,
    alloc: Global,
    threads: u32,
    writer: &mut W,
    tally: &Tally,
    dump: &Dump,
) -> Result<(), Failed>
    requires { 1 ≤ threads }
    ensures { HandsOver (W.seen writer.old) (W.seen writer.new) result
        (dump_text tally.now.k dump.now tally.now.rows) }
{
    match work_on(alloc, threads, tally.rows()) {
        Ok(work) => {
            let form = Form {
                rt,
                threads,
                k: tally.k(),
                dump,
            };
            hand_over_pieces(&form, writer, work)
        }
        Err(AllocError) => hand_over_rows(writer, tally.rows(), tally.k(), dump),
    }
}

// The work on these rows for so many threads. Condition: at least one.
fn work_on<'a>(alloc: Global, threads: u32, rows: Rows<'a>) -> Result<Work<'a>, AllocError>
    requires { 1 ≤ threads }
    ensures rows { IfOk result (λ work. flat_map (λ piece. piece) work.pieces.items ≡ rows.entry) }
    ensures room { IfOk result (λ work. min 2 (length work.pieces.items) ≤ length work.texts.items) }
{
    let pieces = cut(alloc, rows)?;
    let texts = room_for_texts(alloc, threads, pieces.len())?;
    Ok(Work { pieces, texts })
}

// The rows in pieces, each of at most as many rows as a piece may have.
fn cut<'a>(alloc: Global, mut rows: Rows<'a>) -> Result<Vec<Rows<'a>>, AllocError>
    ensures all { IfOk result (λ pieces. flat_map (λ piece. piece) pieces.items ≡ rows.entry) }
    ensures some { IfOk result (λ pieces. All (λ piece. 1 ≤ length piece) pieces.items) }
    ensures few { IfOk result (λ pieces. All (λ piece. length piece ≤ PIECE_ROWS) pieces.items) }
{
    let mut pieces = Vec::new(alloc);
    while let Some(piece) = rows.take_front(PIECE_ROWS) {
        pieces.push(piece)?;
    }
    Ok(pieces)
}

// Room for the texts that are made at a time: one for each piece that so many threads take, and no more than there are
// pieces.
fn room_for_texts(alloc: Global, threads: u32, pieces: usize) -> Result<Vec<PieceText>, AllocError>
    requires { 1 ≤ threads }
    ensures some { IfOk result (λ texts. min 2 pieces ≤ length texts.items) }
    ensures few { IfOk result (λ texts. vec_capacity texts ≤ threads * THREAD_PIECES) }
    ensures bounded { IfOk result (λ texts. All (λ text. vec_capacity text.bytes ≤ PIECE_SIZE) texts.items) }
{
    let count = pieces.min(threads as usize * THREAD_PIECES);
    let mut texts = Vec::with_capacity(alloc, count)?;
    for _ in 0..count {
        texts.push_reserved(PieceText {
            bytes: Vec::with_capacity(alloc, PIECE_SIZE)?,
            whole: false,
        });
    }
    Ok(texts)
}

// Hands over the dump of the rows of all pieces; while the texts of some pieces are handed over, those of the next ones
// are made. Conditions: there is at least one thread, the words have k bases, and there is room for the text of one
// piece, and for those of two if there are more pieces.
fn hand_over_pieces<W: Sink, H: Threads + Sync>(
    form: &Form<'_, H>,
    writer: &mut W,
    work: Work<'_>,
) -> Result<(), Failed>
    requires threads { 1 ≤ form.now.threads }
    requires below { All (All (λ row. row.word < 4 ^ form.now.k)) work.pieces.items }
    requires room { min 2 (length work.pieces.items) ≤ length work.texts.items }
    ensures { HandsOver (W.seen writer.old) (W.seen writer.new) result
        (dump_text form.now.k form.now.dump.now (flat_map (λ piece. piece) work.entry.pieces.items)) }
{
    let Work { pieces, mut texts } = work;
    let half = texts.len().div_ceil(2);
    let (mut made, mut spare) = texts.split_at_mut(half);
    let count = made.len().min(pieces.len());
    let (mut ready, mut rest) = pieces.split_at(count);
    make_texts(form, ready, made);
    while !rest.is_empty() {
        let count = spare.len().min(rest.len());
        let (next, later) = rest.split_at(count);
        let before = Made {
            pieces: ready,
            texts: made,
        };
        hand_over_and_make(form, writer, before, next, spare)?;
        ready = next;
        rest = later;
        swap(&mut made, &mut spare);
    }
    let last = Made {
        pieces: ready,
        texts: made,
    };
    last.hand_over(form, writer)
}

// Hands over the texts of these pieces, and makes those of the next ones meanwhile. Conditions: there is at least one
// thread and room for the next texts, and the words have k bases.
fn hand_over_and_make<W: Sink, H: Threads + Sync>(
    form: &Form<'_, H>,
    writer: &mut W,
    made: Made<'_, '_>,
    next: &[Rows<'_>],
    texts: &mut [PieceText],
) -> Result<(), Failed>
    requires threads { 1 ≤ form.now.threads }
    requires below { All (All (λ row. row.word < 4 ^ form.now.k)) made.pieces.now }
    requires made { AreTextsOf form.now.k form.now.dump.now made.pieces.now made.texts.now }
    requires all_made { length made.pieces.now ≤ length made.texts.now }
    requires below_next { All (All (λ row. row.word < 4 ^ form.now.k)) next.now }
    requires room { length next.now ≤ length texts.old }
    ensures made { AreTextsOf form.now.k form.now.dump.now next.now texts.new }
    ensures same { length texts.new ≡ length texts.old }
    ensures handed_over { HandsOver (W.seen writer.old) (W.seen writer.new) result
        (dump_text form.now.k form.now.dump.now (flat_map (λ piece. piece) made.entry.pieces.now)) }
{
    let mut make = ||
        requires { IsSync H.row × (1 ≤ form.now.threads) × All (All (λ row. row.word < 4 ^ form.now.k)) next.now
            × (length next.now ≤ length texts.now) }
        ensures { AreTextsOf form.entry.now.k form.entry.now.dump.now next.entry.now texts.exit.now
            × (length texts.exit.now ≡ length texts.entry.now) }
    { make_texts(form, next, texts) };
    let mut hand_over = || -> Result<(), Failed>
        requires { All (All (λ row. row.word < 4 ^ form.now.k)) made.pieces.now
            × AreTextsOf form.now.k form.now.dump.now made.pieces.now made.texts.now
            × (length made.pieces.now ≤ length made.texts.now) }
        ensures { HandsOver (W.seen writer.entry.now) (W.seen writer.exit.now) result
            (dump_text form.entry.now.k form.entry.now.dump.now (flat_map (λ piece. piece) made.entry.pieces.now)) }
    { made.hand_over(form, writer) };
    let (_, outcome) = join_mut(form.rt, &mut make, &mut hand_over);
    outcome
}

// Makes the texts of the pieces, with at most so many threads. Conditions: there is at least one and room for the
// texts, and the words have k bases.
fn make_texts<H: Threads + Sync>(form: &Form<'_, H>, pieces: &[Rows<'_>], texts: &mut [PieceText])
    requires threads { 1 ≤ form.now.threads }
    requires room { length pieces.now ≤ length texts.old }
    requires below { All (All (λ row. row.word < 4 ^ form.now.k)) pieces.now }
    ensures made { AreTextsOf form.now.k form.now.dump.now pieces.now texts.new }
    ensures same { length texts.new ≡ length texts.old }
{
    let Form {
        rt,
        threads,
        k,
        dump,
    } = *form;
    let (texts, _) = texts.split_at_mut(pieces.len());
    thread::for_each_mut(
        rt,
        texts,
        threads as usize,
        &|i, text: &mut PieceText| text.make(&pieces[i], k, dump),
    );
}

impl PieceText {
    // Makes the text of the rows; less of it, if memory is refused. Condition: the words have k bases.
    fn make(&mut self, rows: &Rows<'_>, k: K, dump: &Dump)
        requires { All (λ row. row.word < 4 ^ k) rows.now }
        ensures { IsTextOf k dump.now rows.now self.new }
    {
        let alloc = *self.bytes.allocator();
        let mut bytes = replace(&mut self.bytes, Vec::new(alloc));
        bytes.clear();
        let mut sink = ToVec::new(bytes);
        self.whole = hand_over_rows(&mut sink, rows.second_walk(), k, dump).is_ok();
        self.bytes = sink.into_inner();
    }
}

impl Made<'_, '_> {
    // Hands over the texts of the pieces. Conditions: all are made, and the words have k bases.
    fn hand_over<W: Sink, H>(&self, form: &Form<'_, H>, writer: &mut W) -> Result<(), Failed>
        requires below { All (All (λ row. row.word < 4 ^ form.now.k)) self.now.pieces.now }
        requires all { length self.now.pieces.now ≤ length self.now.texts.now }
        requires made { AreTextsOf form.now.k form.now.dump.now self.now.pieces.now self.now.texts.now }
        ensures { HandsOver (W.seen writer.old) (W.seen writer.new) result
            (dump_text form.now.k form.now.dump.now (flat_map (λ piece. piece) self.now.pieces.now)) }
    {
        for i in 0..self.pieces.len() {
            hand_over_text(writer, &self.pieces[i], &self.texts[i], form.k, form.dump)?;
        }
        Ok(())
    }
}

// Hands over the text of a piece; if it isn't whole, it is made without memory.
fn hand_over_text<W: Sink>(
    writer: &mut W,
    piece: &Rows<'_>,
    text: &PieceText,
    k: K,
    dump: &Dump,
) -> Result<(), Failed>
    requires below { All (λ row. row.word < 4 ^ k) piece.now }
    requires made { IsTextOf k dump.now piece.now text.now }
    ensures { HandsOver (W.seen writer.old) (W.seen writer.new) result (dump_text k dump.now piece.now) }
{
    if text.whole {
        write_all(writer, text.bytes.as_slice())
    } else {
        hand_over_rows(writer, piece.second_walk(), k, dump)
    }
}
