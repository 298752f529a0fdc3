//! Writing a table text row by row; the writer gets a block at a time.
ghost use Rattle.std.specs.Prelude.{◌≡◌, ◌+◌, ◌^◌, ◌<◌, ◌≤◌, ◌++◌, ◌∷◌, [], List, OnOk, OnErr, IfSome};
ghost use Rattle.kc_io.specs.Sinks.{Written, HasBegun, Writes};
ghost use Rattle.kc_tally.specs.declared.row.Row.{Row};
ghost use Rattle.kc_report.specs.declared.header.Header.{Header};
ghost use Rattle.kc_report.specs.Table.{IsOrigin};
ghost use Rattle.kc_report.specs.RowsWritten.{HasPutRows, front_of, text_of};

use crate::dump::{ROW_SIZE, push_columns};
use crate::header::Header;
use crate::table::{END_SIZE, push_end};
use crate::table_header::push_header;
use kc_io::{Block, Failed, Sink, write_out};
use kc_kmer::K;
use kc_tally::Row;
use std::marker::Model;

/// A table text that is written row by row. It keeps a block of the text, and only numbers of the rows.
///
/// Contracts are about the rows that were put so far: after `begin`, `HasPutRows` holds with none; `put` adds its row;
/// and `end` writes the rest of the table text of these rows. Each call takes the same writer, and nobody else writes
/// to it meanwhile.
///
/// ```ignore
/// let mut writing = TableWriting::begin(&header);
/// for row in rows {
///     writing.put(writer, row)?;
/// }
/// writing.end(writer)
/// ```
#[derive(Drop)]
pub struct TableWriting {
    block: Block,
    k: K,
    distinct: u64,
    total: u64,
}

impl Model for TableWriting {
    ghost use Rattle.std.specs.Prelude.{◌≤◌, ◌^◌};
    ghost use Rattle.kc_report.specs.RowsWritten.{WritingStand};

    ghost Value = { WritingStand };

    ghost view = { λ w. record { waiting = w.block; k = w.k; distinct = w.distinct; total = w.total } };

    ghost invariant = { λ w. (w.distinct ≤ w.total) × (w.total ≤ 2 ^ 62) };
}

impl TableWriting {
    /// Begins with the header, which waits for the writer. Condition: the floor of an origin is 33 to 126, and its
    /// reads are at most 2^62.
    pub fn begin(header: &Header) -> TableWriting
        requires { IfSome header.now.origin IsOrigin }
        ensures put { (seen : Written) → HasPutRows seen seen header.now [] result }
    {
        let mut block = Block::new();
        push_header(&mut block, header.k, header.both, header.origin);
        TableWriting {
            block,
            k: header.k,
            distinct: 0,
            total: 0,
        }
    }

    /// How many rows were put.
    pub fn distinct(&self) -> u64
        ensures { result ≡ self.now.distinct }
    {
        self.distinct
    }

    /// The sum of their counts.
    pub fn total(&self) -> u64
        ensures value { result ≡ self.now.total }
        ensures most { result ≤ 2 ^ 62 }
    {
        self.total
    }

    /// Appends a row to those that were put. Conditions: its word has k bases, its count is at least 1, and with it the
    /// counts add up to at most 2^62.
    ///
    /// # Errors
    /// `Failed` if the writer failed or took no byte. It took a beginning of the header and of the rows before.
    #[inline(always)]
    pub fn put<W: Sink>(&mut self, writer: &mut W, row: Row) -> Result<(), Failed>
        requires below { row.word < 4 ^ self.old.k }
        requires present { 1 ≤ row.count }
        requires small { self.old.total + row.count ≤ 2 ^ 62 }
        ensures put { (start : Written) (header : Header) (rows : List Row)
            → HasPutRows start (W.seen writer.old) header rows self.old
            → OnOk result (HasPutRows start (W.seen writer.new) header (rows ++ row ∷ []) self.new) }
        ensures begun { (start : Written) (header : Header) (rows : List Row)
            → HasPutRows start (W.seen writer.old) header rows self.old
            → OnErr result (HasBegun start (W.seen writer.new) (front_of header rows)) }
    {
        self.block.make_room(writer, ROW_SIZE)?;
        push_columns(&mut self.block, self.k, false, row);
        self.distinct += 1;
        self.total += row.count;
        Ok(())
    }

    /// Writes the end line, with the number of rows and the sum of their counts, and flushes the text.
    ///
    /// # Errors
    /// `Failed` if the writer failed or took no byte. It took a beginning of the text.
    pub fn end<W: Sink>(self, writer: &mut W) -> Result<(), Failed>
        ensures { (start : Written) (header : Header) (rows : List Row)
            → HasPutRows start (W.seen writer.old) header rows self
            → Writes start (W.seen writer.new) result (text_of header rows) }
    {
        let TableWriting {
            mut block,
            k: _,
            distinct,
            total,
        } = self;
        block.make_room(writer, END_SIZE)?;
        push_end(&mut block, distinct, total);
        write_out(writer, block.as_slice())
    }
}
