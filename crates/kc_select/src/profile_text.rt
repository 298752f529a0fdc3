//! The profile of a record, as lines of bedGraph.
ghost use Rattle.std.specs.Prelude.{◌++◌, OnOk, OnErr};
ghost use Rattle.kc_io.specs.Sinks.{HasBegun, Drains};
ghost use Rattle.kc_select.specs.Profiles.{name_of, run_line, run_lines};
ghost use Rattle.kc_select.specs.CountWalks.{runs_left};

use crate::count_walk::CountWalk;
use crate::read_names::name_of;
use crate::record_texts::put;
use crate::run_walk::CountRun;
use kc_io::{Block, Failed, NUMBER_SIZE, Sink};

// The most bytes of a run's line after its name: three numbers, three tabs and the end of the line.
const NUMBERS_SIZE: usize = 3 * NUMBER_SIZE + 4;

// Appends the lines of a record to the block: one for each run of words with equal counts in the table.
pub(crate) fn put_profile<W: Sink>(
    writer: &mut W,
    block: &mut Block,
    walk: &mut CountWalk<'_>,
    title: &[u8],
) -> Result<(), Failed>
    ensures ok { OnOk result (Drains (W.seen writer.old) (W.seen writer.new)
        (block.old ++ run_lines (name_of title.now) (runs_left walk.old)) block.new) }
    ensures err { OnErr result (HasBegun (W.seen writer.old) (W.seen writer.new)
        (block.old ++ run_lines (name_of title.now) (runs_left walk.old))) }
{
    let name = name_of(title);
    'runs: while let Some(run) = walk.next_run() {
        put_run(writer, block, name, run)?;
    }
    Ok(())
}

// Appends the line of a run to the block.
fn put_run<W: Sink>(
    writer: &mut W,
    block: &mut Block,
    name: &[u8],
    run: CountRun,
) -> Result<(), Failed>
    ensures ok { OnOk result (Drains (W.seen writer.old) (W.seen writer.new)
        (block.old ++ run_line name.now run) block.new) }
    ensures err { OnErr result (HasBegun (W.seen writer.old) (W.seen writer.new)
        (block.old ++ run_line name.now run)) }
{
    put(writer, block, name)?;
    block.make_room(writer, NUMBERS_SIZE)?;
    block.push(b"\t");
    block.push_number(run.start);
    block.push(b"\t");
    block.push_number(run.end);
    block.push(b"\t");
    block.push_number(run.count);
    block.push(b"\n");
    Ok(())
}
