//! Where a command writes its text: to a new file beside the one that is named, which takes its place once the text is
//! whole.
ghost use Rattle.std.specs.Prelude.{◌≡◌, ◌≤◌, ◌++◌, [], ◌∷◌, List, Ok, Some, IfErr, IfOk, option_map, string_bytes};
ghost use Rattle.kc_io.specs.History.{no_history};
ghost use Rattle.kc_tool.specs.FileEvents.{FileEvent, wrote};
ghost use Rattle.kc_tool.specs.Files.{FailsBeside, HasNoOutput, HasNotBoth};
ghost use Rattle.kc_tool.specs.Outputs.{ClosesBoth, ClosesOutput, Discards, IsPlaced, MakesBeside, OpensBoth};
ghost use Rattle.kc_tool.specs.Outputs.{OpensOutput, beside, is_of_system, target};
ghost use Rattle.kc_tool.specs.PairSelections.{both};

use crate::files::{FileSink, NamedFiles, NamedSink, NotMade, open_fault};
use crate::tool_faults::ToolFault;
use itoa::Buffer;
use kc_select::Sides;
use std::alloc::{AllocError, Global};
use std::fs::Permissions;
use std::io::Write;
use std::rt::Files;

/// How many new files are tried at most: this many may be left by runs that were killed.
const MAX_TRIES: u32 = 1000;

/// The file to which a command writes its text.
#[derive(Drop)]
pub(crate) struct Output<F: Write> {
    /// The file.
    pub file: NamedSink<F>,
    /// The path to which the file is renamed once the text is whole; None if it is the named file itself.
    pub path: Option<String>,
}

/// Opens the file for a text that should go to the file with this name. That file is made, empty, if there is none, and
/// keeps its text. If it is a regular file, a new one is made beside it, with its permissions.
///
/// # Errors
/// `OpenFailed` with the name if the file can't be opened for writing, or the new one can't be made. `Memory` if a
/// growth was refused.
pub(crate) fn open_output<H: Files>(
    alloc: Global,
    files: &mut NamedFiles<'_, H>,
    name: &str,
) -> Result<Output<H::File>, ToolFault>
    ensures opened { IfOk result (λ output. (asked : List FileEvent) × (files.new ≡ files.old ++ asked)
        × OpensOutput name.now (string_bytes output.file.name) (option_map string_bytes output.path) asked) }
    ensures fresh { IfOk result (λ output. output.file.sink.history ≡ no_history) }
    ensures refused { IfErr result (λ fault. (asked : List FileEvent) × (files.new ≡ files.old ++ asked)
        × HasNoOutput name.now asked fault) }
{
    let text = String::from_str(alloc, name)?;
    let opened = match files.create(text) {
        Ok(opened) => opened,
        Err(text) => return Err(ToolFault::OpenFailed(text)),
    };
    match opened.permissions {
        Some(permissions) if !is_of_system(name) => {
            files.take_sink(opened.file);
            let Some(path) = files.follow(alloc, name) else {
                return Err(open_fault(alloc, name));
            };
            open_beside(alloc, files, name, path, &permissions)
        }
        _ => Ok(Output {
            file: opened.file,
            path: None,
        }),
    }
}

// Makes a new file beside the one at this path, with these permissions, for a text that should go to the file `name`.
fn open_beside<H: Files>(
    alloc: Global,
    files: &mut NamedFiles<'_, H>,
    name: &str,
    path: String,
    permissions: &Permissions,
) -> Result<Output<H::File>, ToolFault>
    ensures opened { IfOk result (λ output. (asked : List FileEvent) × (files.new ≡ files.old ++ asked)
        × MakesBeside (string_bytes path) (string_bytes output.file.name) asked) }
    ensures path { IfOk result (λ output. option_map string_bytes output.path ≡ Some (string_bytes path)) }
    ensures fresh { IfOk result (λ output. output.file.sink.history ≡ no_history) }
    ensures refused { IfErr result (λ fault. (asked : List FileEvent) × (files.new ≡ files.old ++ asked)
        × FailsBeside name.now (string_bytes path) asked fault) }
{
    for tries in 0..MAX_TRIES {
        let new = name_beside(alloc, path.as_str(), tries + 1)?;
        match files.make(new, permissions) {
            Ok(file) => {
                return Ok(Output {
                    file,
                    path: Some(path),
                });
            }
            Err(NotMade::Taken) => {}
            Err(NotMade::Refused) => return Err(open_fault(alloc, name)),
        }
    }
    Err(open_fault(alloc, name))
}

/// Closes the file of a text at the end of the work that writes it, with this result. A new file is renamed to its path
/// if the work succeeded, and removed if it did not.
///
/// # Errors
/// The fault of the work. `Write` if the file can't be renamed.
pub(crate) fn close_output<H: Files, T: Drop>(
    files: &mut NamedFiles<'_, H>,
    output: Output<H::File>,
    work: Result<T, ToolFault>,
) -> Result<T, ToolFault>
    ensures { (asked : List FileEvent) × (files.new ≡ files.old ++ asked)
        × ClosesOutput (string_bytes output.file.name) (option_map string_bytes output.path) output.file.sink.history
        work result asked }
{
    let name = files.take_sink(output.file);
    let Some(path) = output.path else {
        return work;
    };
    let fault = match work {
        Ok(done) if files.rename(name.as_str(), path.as_str()) => return Ok(done),
        Ok(_) => ToolFault::Write,
        Err(fault) => fault,
    };
    files.remove(name.as_str());
    Err(fault)
}

/// Where a text goes: the file that it is written to, and the path to which the file is renamed.
#[derive(Drop)]
pub(crate) struct Place {
    /// The file's name.
    pub name: String,
    /// The path to which the file is renamed once the text is whole; None if it is the named file itself.
    pub path: Option<String>,
}

/// The files to which a command writes two texts.
#[derive(Drop)]
pub(crate) struct TwoOutputs<F: Write> {
    /// Where the texts go.
    pub places: Sides<Place>,
    /// The files.
    pub sinks: Sides<FileSink<F>>,
}

/// Opens the files for two texts that should go to the files with these names, the first one first, each as
/// `open_output` does. If there is no file for the second one, that for the first one is given up.
///
/// # Errors
/// Those of `open_output`.
pub(crate) fn open_both<H: Files>(
    alloc: Global,
    files: &mut NamedFiles<'_, H>,
    names: &Sides<&str>,
) -> Result<TwoOutputs<H::File>, ToolFault>
    ensures opened { IfOk result (λ outputs. (asked : List FileEvent) × (files.new ≡ files.old ++ asked)
        × OpensBoth names.now.first.now names.now.second.now
        (string_bytes outputs.places.first.name) (option_map string_bytes outputs.places.first.path)
        (string_bytes outputs.places.second.name) (option_map string_bytes outputs.places.second.path) asked) }
    ensures first_fresh { IfOk result (λ outputs. outputs.sinks.first.history ≡ no_history) }
    ensures second_fresh { IfOk result (λ outputs. outputs.sinks.second.history ≡ no_history) }
    ensures refused { IfErr result (λ fault. (asked : List FileEvent) × (files.new ≡ files.old ++ asked)
        × HasNotBoth names.now.first.now names.now.second.now asked fault) }
{
    let (first, first_sink) = open_output(alloc, files, names.first)?.into_parts();
    match open_output(alloc, files, names.second) {
        Ok(output) => {
            let (second, second_sink) = output.into_parts();
            Ok(TwoOutputs {
                places: Sides { first, second },
                sinks: Sides {
                    first: first_sink,
                    second: second_sink,
                },
            })
        }
        Err(fault) => {
            let first = close_place(files, first, first_sink);
            discard(files, &first);
            Err(fault)
        }
    }
}

impl<F: Write> Output<F> {
    // Where the text goes, and the file.
    fn into_parts(self) -> (Place, FileSink<F>)
        ensures name { string_bytes result.0.name ≡ string_bytes self.file.name }
        ensures path { option_map string_bytes result.0.path ≡ option_map string_bytes self.path }
        ensures sink { result.1 ≡ self.file.sink }
    {
        let Output { file, path } = self;
        let (name, sink) = file.into_parts();
        (Place { name, path }, sink)
    }
}

/// Closes the files of two texts at the end of the work that writes them, with this result, and then puts the first one
/// in place, and the second one, if the work succeeded. New files that are not put in place are removed.
///
/// # Errors
/// The fault of the work. `Write` if a file can't be renamed: if it is the second one, the first one is in place.
pub(crate) fn close_both<H: Files, T: Drop>(
    files: &mut NamedFiles<'_, H>,
    outputs: TwoOutputs<H::File>,
    work: Result<T, ToolFault>,
) -> Result<T, ToolFault>
    ensures { (asked : List FileEvent) × (files.new ≡ files.old ++ asked)
        × ClosesBoth (both (target (string_bytes outputs.places.first.name)
        (option_map string_bytes outputs.places.first.path) outputs.sinks.first.history)
        (target (string_bytes outputs.places.second.name)
        (option_map string_bytes outputs.places.second.path) outputs.sinks.second.history)) work result asked }
{
    let TwoOutputs { places, sinks } = outputs;
    let first = close_place(files, places.first, sinks.first);
    let second = close_place(files, places.second, sinks.second);
    let done = match work {
        Ok(done) => done,
        Err(fault) => {
            discard(files, &first);
            discard(files, &second);
            return Err(fault);
        }
    };
    if !put_in_place(files, &first) {
        discard(files, &second);
        return Err(ToolFault::Write);
    }
    if !put_in_place(files, &second) {
        return Err(ToolFault::Write);
    }
    Ok(done)
}

// Closes the file of a text that goes there, and gives the place back.
fn close_place<H: Files>(
    files: &mut NamedFiles<'_, H>,
    place: Place,
    sink: FileSink<H::File>,
) -> Place
    ensures asked { files.new ≡ files.old ++ wrote (string_bytes place.name) sink.history ∷ [] }
    ensures name { string_bytes result.name ≡ string_bytes place.name }
    ensures path { option_map string_bytes result.path ≡ option_map string_bytes place.path }
{
    let Place { name, path } = place;
    let name = files.take_sink(NamedSink::from_parts(name, sink));
    Place { name, path }
}

// Removes a new file that is not put in place.
fn discard<H: Files>(files: &mut NamedFiles<'_, H>, place: &Place)
    ensures { (asked : List FileEvent) × (files.new ≡ files.old ++ asked)
        × Discards (string_bytes place.now.name) (option_map string_bytes place.now.path) asked }
{
    if place.path.is_some() {
        files.remove(place.name.as_str());
    }
}

// Renames a new file to its path, and returns whether that was done. If it can't be, it is removed.
fn put_in_place<H: Files>(files: &mut NamedFiles<'_, H>, place: &Place) -> bool
    ensures { (asked : List FileEvent) × (files.new ≡ files.old ++ asked)
        × IsPlaced result (string_bytes place.now.name) (option_map string_bytes place.now.path) asked }
{
    let Some(path) = place.path.as_ref() else {
        return true;
    };
    let done = files.rename(place.name.as_str(), path.as_str());
    if !done {
        files.remove(place.name.as_str());
    }
    done
}

// Whether a name is one of the system: a device, or what a process has open. The folder /dev/shm has plain files.
fn is_of_system(name: &str) -> bool
    ensures { result ≡ is_of_system name.now }
{
    let name = name.as_bytes();
    name.starts_with(b"/dev/") && !name.starts_with(b"/dev/shm/") || name.starts_with(b"/proc/")
}

// The name of the new file with this number beside the file at this path.
fn name_beside(alloc: Global, path: &str, number: u32) -> Result<String, AllocError>
    ensures { IfOk result (λ name. string_bytes name ≡ beside path.now number) }
{
    let mut name = String::from_str(alloc, path)?;
    name.push_str(".kcount-")?;
    name.push_str(Buffer::new().format(number))?;
    Ok(name)
}
