//! The program over standard streams, and what is remembered of these to explain a fault.
ghost use Rattle.std.specs.Prelude.{◌≡◌, ◌≤◌, false, map, string_bytes};
ghost use Rattle.kc_tool.specs.Process.{EndsOver, at_first, untouched, unwritten};

use crate::command_line::run;
use crate::count_progress::NoProgress;
use crate::files::NamedFiles;
use crate::input_source::InputSource;
use crate::looks::InputLook;
use crate::output_sink::{OutputSink, RefusalNote};
use kc_io::ToWrite;
use std::alloc::Global;
use std::io;
use std::rt::Files;
use std::sync::Wait;
use std::thread::Threads;

/// What is remembered of standard input and output: the first bytes of the one, and why the other refused a write.
#[derive(Drop)]
pub struct StreamNotes {
    pub(crate) look: InputLook,
    pub(crate) refusal: RefusalNote,
}

impl StreamNotes {
    /// Before the first read or write.
    pub fn none() -> StreamNotes {
        StreamNotes {
            look: InputLook::nothing(),
            refusal: RefusalNote::nothing(),
        }
    }

    /// A source over standard input, whose first bytes are remembered.
    pub fn source_over<R: io::Read>(&self, input: R) -> InputSource<'_, R>
        ensures { result ≡ untouched (R.remaining input) }
    {
        InputSource::new(input, &self.look)
    }

    /// A sink over standard output, which remembers why the last failed write failed.
    pub fn sink_over<W: io::Write>(&self, output: W) -> OutputSink<'_, W>
        ensures { result ≡ unwritten (W.contents output) }
    {
        OutputSink::new(output, &self.refusal)
    }
}

/// Carries out the command line `arguments`, which begins with the program's name, as `run` does, over streams that it
/// takes by value, and returns the exit status: 0; 1 for a fault; 2 for a command line that is refused. Files are
/// opened and created by `rt`. The progress of a count is shown nowhere.
pub fn program<
    H: Files + Threads + Wait + Sync,
    I: io::Read + Drop,
    O: io::Write + Drop,
    E: io::Write + Drop,
>(rt: &H, alloc: Global, arguments: Vec<String>, input: I, output: O, errors: E) -> u8
    ensures within { result ≤ 2 }
    ensures ends { EndsOver false (map string_bytes arguments.items)
        (at_first (I.remaining input) (O.contents output)) (unwritten (E.contents errors)) result }
{
    let notes = StreamNotes::none();
    let mut files = NamedFiles::new(rt).with_notes(&notes);
    let mut input = notes.source_over(input);
    let mut output = notes.sink_over(output);
    let mut errors = ToWrite::new(errors);
    run(
        rt,
        alloc,
        &Ok(arguments),
        &mut files,
        &mut input,
        &mut output,
        &mut errors,
        &NoProgress,
    )
}
