//! `kcount`, a counter of the k-mers (words of length k) in sequence reads.
#![tactic(auto)]

use kc_tool::{NamedFiles, ProgressLine, StreamNotes, ToWrite, run};
use std::io::IsTerminal;
use std::process::ExitCode;
use std::{env, io};

fn main(rt: HostRuntime) -> ExitCode {
    let arguments = match env::args(&rt) {
        Ok(arguments) => arguments.collect(rt.alloc()).map_err(io::Error::from),
        Err(error) => Err(error),
    };
    let terminal = rt.stderr();
    let progress = ProgressLine::new(&rt, &terminal, rt.stdin().is_terminal());
    let notes = StreamNotes::none();
    let mut files = NamedFiles::new(&rt).with_notes(&notes);
    let mut input = notes.source_over(rt.stdin());
    let mut output = notes.sink_over(rt.stdout());
    let mut errors = ToWrite::new(rt.stderr());
    let status = run(
        &rt,
        rt.alloc(),
        &arguments,
        &mut files,
        &mut input,
        &mut output,
        &mut errors,
        &progress,
    );
    ExitCode::from(status)
}
