//! The files that a command line names.
//!
//! No contract states what a file contains, or what the system does. So the calls to a runtime here have to be reviewed
//! by eye: each method of `NamedFiles` that the log records makes one call, with the name that the log keeps, or also
//! looks up how large the file is or what permissions it has. `are_regular` looks up what the named files are, and
//! nothing else requests anything of files.
ghost use Rattle.std.specs.Prelude.{◌≡◌, ◌≤◌, List, [], ◌∷◌, ◌++◌, length, map, string_bytes, true, if◌then◌else◌};
ghost use Rattle.std.specs.Prelude.{IfErr, IfOk, IfSome, MatchOption};
ghost use Rattle.kc_io.specs.History.{no_history};
ghost use Rattle.kc_tool.specs.FileEvents.{FileEvent, event, followed, made, not_created, not_followed};
ghost use Rattle.kc_tool.specs.FileEvents.{not_made, not_opened, not_removed, not_renamed, opened, opened_to_write};
ghost use Rattle.kc_tool.specs.FileEvents.{read, removed, renamed, wrote};
ghost use Rattle.kc_tool.specs.Files.{FailsToOpen, OpensAll, TellsName, given_back};
ghost use Rattle.kc_tool.specs.Outputs.{KeepsText, MakesAnew};

use crate::file_acts::FileAct;
use crate::file_refusals::{Refusal, refusal_of};
use crate::looks::{Look, Looks};
use crate::named_sources::NamedSource;
use crate::standard_streams::StreamNotes;
use crate::tool_faults::ToolFault;
use kc_io::{Failed, FromRead, Heard, Sink, Source, ToWrite};
use std::alloc::Global;
use std::fs::{OpenFile, OpenOptions, Permissions};
use std::io::{ErrorKind, Read, Write};
use std::marker::Model;
use std::os::unix::fs::{OpenOptionsExt, PermissionsExt};
use std::rt::Files;
use std::{fs, io};

/// A file that is read.
#[derive(Drop)]
pub(crate) struct FileSource<F: Read> {
    stream: FromRead<F>,
    heard: Heard,
    look: Look,
    // how many bytes it has, if it is a regular file
    size: Option<u64>,
}

impl<F: Read> FileSource<F> {
    // A file of this size, before any read.
    fn new(size: Option<u64>, file: F) -> FileSource<F>
        ensures { result.history ≡ no_history }
    {
        FileSource {
            stream: FromRead::new(file),
            heard: Heard::nothing(),
            look: Look::nothing(),
            size,
        }
    }
}

impl<F: Read> Model for FileSource<F> {
    ghost use Rattle.std.specs.Prelude.{◌≡◌};
    ghost use Rattle.kc_io.specs.Sources.{Seen};

    ghost Value = { Seen };

    ghost view = { λ f. f.stream.seen };

    // the log gets what the stream answered
    ghost invariant = { λ f. f.heard.history ≡ f.stream.seen.history };
}

impl<F: Read> Source for FileSource<F> {
    ghost seen = { λ f. f };

    fn read(&mut self, buffer: &mut [u8]) -> Result<usize, Failed> {
        let answer = self.stream.read(buffer);
        self.heard = self.heard.with_answer(&answer, buffer);
        self.look.note(&answer, buffer);
        answer
    }
}

/// A file that is written, with its name.
#[derive(Drop)]
pub(crate) struct NamedSink<F: Write> {
    name: String,
    /// The file.
    pub sink: FileSink<F>,
}

/// A file that was opened for writing, with its contents.
#[derive(Drop)]
pub(crate) struct OpenedSink<F: Write> {
    /// The file, with its name.
    pub file: NamedSink<F>,
    /// Its permissions, if it is a regular file.
    pub permissions: Option<Permissions>,
}

/// Why a new file was not made.
#[derive(Clone, Copy, Debug, PartialEq, Eq)]
pub(crate) enum NotMade {
    /// A file with its name exists.
    Taken,
    /// It could not be made.
    Refused,
}

/// A file that is written.
#[derive(Drop)]
pub(crate) struct FileSink<F: Write> {
    stream: ToWrite<F>,
    heard: Heard,
}

impl<F: Write> Model for FileSink<F> {
    ghost use Rattle.std.specs.Prelude.{◌≡◌};
    ghost use Rattle.kc_io.specs.Sinks.{Written};

    ghost Value = { Written };

    ghost view = { λ f. f.stream.seen };

    // the log gets what the stream answered
    ghost invariant = { λ f. f.heard.history ≡ f.stream.seen.history };
}

impl<F: Write> Sink for FileSink<F> {
    ghost seen = { λ f. f };

    fn write(&mut self, bytes: &[u8]) -> Result<usize, Failed> {
        // it fails if it takes no byte of a text that has bytes
        let answer = match self.stream.write(bytes) {
            Ok(0) if !bytes.is_empty() => Err(Failed),
            Ok(n) => Ok(n),
            Err(Failed) => Err(Failed),
        };
        self.heard = self.heard.with_answer(&answer, bytes);
        answer
    }

    fn flush(&mut self) -> Result<(), Failed> {
        let answer = self.stream.flush();
        self.heard = self.heard.with_flush(&answer);
        answer
    }
}

/// What was requested of the files so far. Only proofs see it, and it takes no bytes.
#[derive(Drop)]
pub struct FileLog {
    pub ghost events: { List FileEvent },
}

impl Model for FileLog {
    ghost use Rattle.std.specs.Borrow.{ftrue};

    ghost also_owns = { λ _. ftrue };
}

impl FileLog {
    /// The log before the first request.
    pub fn nothing() -> FileLog
        ensures { result.events ≡ [] }
    {
        FileLog {}
    }

    /// The log, followed by the request `act` for the file `name`, and for `other` if it is about two paths. `heard` is
    /// what the file has given or taken when it is closed.
    pub fn with_event(&self, act: &FileAct, name: &[u8], other: &[u8], heard: &Heard) -> FileLog
        ensures { result.events ≡ self.now.events ++ event act.now name.now other.now heard.now.history ∷ [] }
    {
        FileLog {}
    }

    /// The log, followed by the request `act` for the file `name` alone.
    fn with_act(&self, act: FileAct, name: &str) -> FileLog
        ensures { result.events ≡ self.now.events ++ event act name.now [] no_history ∷ [] }
    {
        self.with_event(&act, name.as_bytes(), b"", &Heard::nothing())
    }
}

/// Files that are opened and created by their names. Contracts see the requests to them, in order.
#[derive(Drop)]
pub struct NamedFiles<'a, H: Files> {
    rt: &'a H,
    log: FileLog,
    looks: Looks,
    notes: Option<&'a StreamNotes>,
    // the reason of the last file that could not be opened, made, written or renamed
    refusal: Option<Refusal>,
}

impl<'a, H: Files> Model for NamedFiles<'a, H> {
    ghost use Rattle.std.specs.Prelude.{List};
    ghost use Rattle.kc_tool.specs.FileEvents.{FileEvent};

    ghost Value = { List FileEvent };

    ghost view = { λ f. f.log.events };
}

impl<'a, H: Files> NamedFiles<'a, H> {
    /// The files of a runtime, before any request.
    pub fn new(rt: &'a H) -> NamedFiles<'a, H>
        ensures { result ≡ [] }
    {
        NamedFiles {
            rt,
            log: FileLog::nothing(),
            looks: Looks::nothing(),
            notes: None,
            refusal: None,
        }
    }

    /// The same, with what is remembered of standard input and output.
    pub fn with_notes(self, notes: &'a StreamNotes) -> NamedFiles<'a, H>
        ensures { result ≡ self.entry }
    {
        NamedFiles {
            rt: self.rt,
            log: self.log,
            looks: self.looks,
            notes: Some(notes),
            refusal: self.refusal,
        }
    }

    /// What is known of the files that were read, and of standard input.
    pub(crate) fn looks(&self) -> Looks {
        let mut looks = self.looks;
        if let Some(notes) = self.notes {
            looks.input = notes.look.get();
        }
        looks
    }

    /// The reason of the last file that could not be opened, made, written or renamed.
    pub(crate) fn refusal(&self) -> Option<Refusal> {
        self.refusal
    }

    /// Why the output could not be written.
    pub(crate) fn output_refusal(&self) -> Option<Refusal> {
        self.notes?.refusal.get()
    }

    /// Whether there are such names, and each is that of a regular file.
    pub(crate) fn are_regular(&self, names: &[&str]) -> bool
        ensures { result ≡ true → 1 ≤ length names.now }
    {
        !names.is_empty() && names.iter().all(|name| is_regular(self.rt, *name))
    }

    /// Opens the file with this name; None if it can't be opened.
    pub(crate) fn open<'n>(&mut self, name: &'n str) -> Option<NamedSource<'n, FileSource<H::File>>>
        ensures asked { MatchOption result (self.new ≡ self.old ++ not_opened name.entry.now ∷ [])
            (λ file. self.new ≡ self.old ++ opened name.entry.now ∷ []) }
        ensures named { IfSome result (λ file. file.name.now ≡ name.entry.now) }
        ensures fresh { IfSome result (λ file. file.source.history ≡ no_history) }
    {
        match fs::open(self.rt, name) {
            Ok(file) => {
                self.log = self.log.with_act(FileAct::Opened, name);
                let source = FileSource::new(size_of::<H>(&file), file);
                Some(NamedSource { name, source })
            }
            Err(error) => {
                self.refusal = Some(refusal_of(error.kind()));
                self.log = self.log.with_act(FileAct::NotOpened, name);
                None
            }
        }
    }

    /// Opens the file with this name for writing, with its contents, and makes it, empty, if there is none. It gives
    /// the name back if that can't be done.
    pub(crate) fn create(&mut self, name: String) -> Result<OpenedSink<H::File>, String>
        ensures created { IfOk result (λ opened. self.new ≡ self.old
            ++ opened_to_write opened.permissions (string_bytes name) ∷ []) }
        ensures named { IfOk result (λ opened. string_bytes opened.file.name ≡ string_bytes name) }
        ensures fresh { IfOk result (λ opened. opened.file.sink.history ≡ no_history) }
        ensures refused { IfErr result (λ same. self.new ≡ self.old ++ not_created (string_bytes name) ∷ []) }
        ensures back { IfErr result (λ same. string_bytes same ≡ string_bytes name) }
    {
        match open_to_write(self.rt, name.as_str()) {
            Ok((file, permissions)) => {
                let act = match permissions {
                    Some(_) => FileAct::Created,
                    None => FileAct::Reached,
                };
                self.log = self.log.with_act(act, name.as_str());
                let file = NamedSink::new(name, file);
                Ok(OpenedSink { file, permissions })
            }
            Err(error) => {
                self.refusal = Some(refusal_of(error.kind()));
                self.log = self.log.with_act(FileAct::NotCreated, name.as_str());
                Err(name)
            }
        }
    }

    /// Follows the links of this path to that of the file itself; None if that can't be done.
    pub(crate) fn follow(&mut self, alloc: Global, name: &str) -> Option<String>
        ensures { MatchOption result (self.new ≡ self.old ++ not_followed name.now ∷ [])
            (λ path. self.new ≡ self.old ++ followed name.now (string_bytes path) ∷ []) }
    {
        match self.rt.canonicalize(alloc, name) {
            Ok(path) => {
                let path = path.into_string();
                let heard = Heard::nothing();
                let (from, to) = (name.as_bytes(), path.as_bytes());
                self.log = self.log.with_event(&FileAct::Followed, from, to, &heard);
                Some(path)
            }
            Err(error) => {
                self.refusal = Some(refusal_of(error.kind()));
                self.log = self.log.with_act(FileAct::NotFollowed, name);
                None
            }
        }
    }

    /// Makes a new file with this name, empty, with these permissions.
    pub(crate) fn make(
        &mut self,
        name: String,
        permissions: &Permissions,
    ) -> Result<NamedSink<H::File>, NotMade>
        ensures made { IfOk result (λ file. self.new ≡ self.old ++ made (string_bytes name) ∷ []) }
        ensures named { IfOk result (λ file. string_bytes file.name ≡ string_bytes name) }
        ensures fresh { IfOk result (λ file. file.sink.history ≡ no_history) }
        ensures refused { IfErr result (λ why. self.new ≡ self.old ++ not_made why (string_bytes name) ∷ []) }
    {
        match make_new(self.rt, name.as_str(), permissions) {
            Ok(file) => {
                self.log = self.log.with_act(FileAct::Made, name.as_str());
                Ok(NamedSink::new(name, file))
            }
            Err(error) if error.kind() == ErrorKind::AlreadyExists => {
                self.log = self.log.with_act(FileAct::Taken, name.as_str());
                Err(NotMade::Taken)
            }
            Err(error) => {
                self.refusal = Some(refusal_of(error.kind()));
                self.log = self.log.with_act(FileAct::NotMade, name.as_str());
                Err(NotMade::Refused)
            }
        }
    }

    /// Renames the file with this name to the path, where it replaces the file, and returns whether that was done.
    pub(crate) fn rename(&mut self, name: &str, path: &str) -> bool
        ensures { self.new ≡ self.old
            ++ (if result then renamed name.now path.now else not_renamed name.now path.now) ∷ [] }
    {
        let (act, done) = match fs::rename(self.rt, name, path) {
            Ok(()) => (FileAct::Renamed, true),
            Err(error) => {
                self.refusal = Some(refusal_of(error.kind()));
                (FileAct::NotRenamed, false)
            }
        };
        let heard = Heard::nothing();
        self.log = self
            .log
            .with_event(&act, name.as_bytes(), path.as_bytes(), &heard);
        done
    }

    /// Removes the file with this name, and returns whether that was done.
    pub(crate) fn remove(&mut self, name: &str) -> bool
        ensures { self.new ≡ self.old ++ (if result then removed name.now else not_removed name.now) ∷ [] }
    {
        let done = fs::remove_file(self.rt, name).is_ok();
        let act = if done {
            FileAct::Removed
        } else {
            FileAct::NotRemoved
        };
        self.log = self.log.with_act(act, name);
        done
    }

    /// Closes a file that was opened for reading.
    pub(crate) fn take_source(&mut self, file: NamedSource<'_, FileSource<H::File>>)
        ensures { self.new ≡ self.old ++ read file.entry.name.now file.entry.source.history ∷ [] }
    {
        self.looks.add(&file.source.look);
        let name = file.name.as_bytes();
        self.log = self
            .log
            .with_event(&FileAct::Read, name, b"", &file.source.heard);
    }

    /// Closes a file that was opened for writing, or made, and returns its name.
    pub(crate) fn take_sink(&mut self, file: NamedSink<H::File>) -> String
        ensures asked { self.new ≡ self.old ++ wrote (string_bytes file.name) file.sink.history ∷ [] }
        ensures named { string_bytes result ≡ string_bytes file.name }
    {
        let NamedSink { name, sink } = file;
        let heard = &sink.heard;
        self.log = self
            .log
            .with_event(&FileAct::Wrote, name.as_bytes(), b"", heard);
        if let Some(error) = sink.stream.last_error() {
            self.refusal = Some(refusal_of(error));
        }
        name
    }
}

impl<F: Write> NamedSink<F> {
    // The file with this name, before any request.
    fn new(name: String, file: F) -> NamedSink<F>
        ensures named { string_bytes result.name ≡ string_bytes name }
        ensures fresh { result.sink.history ≡ no_history }
    {
        let stream = ToWrite::new(file);
        let heard = Heard::nothing();
        NamedSink {
            name,
            sink: FileSink { stream, heard },
        }
    }

    /// The file with this name.
    pub(crate) fn from_parts(name: String, sink: FileSink<F>) -> NamedSink<F>
        ensures name { string_bytes result.name ≡ string_bytes name }
        ensures sink { result.sink ≡ sink }
    {
        NamedSink { name, sink }
    }

    /// The name, and the file.
    pub(crate) fn into_parts(self) -> (String, FileSink<F>)
        ensures name { string_bytes result.0 ≡ string_bytes self.name }
        ensures sink { result.1 ≡ self.sink }
    {
        let NamedSink { name, sink } = self;
        (name, sink)
    }
}

// Whether a regular file has this name.
fn is_regular<H: Files>(rt: &H, name: &str) -> bool {
    match rt.metadata(name) {
        Ok(metadata) => metadata.is_file(),
        Err(_) => false,
    }
}

// How many bytes a file has, if it is a regular one.
fn size_of<H: Files>(file: &H::File) -> Option<u64> {
    match file.metadata() {
        Ok(metadata) if metadata.is_file() => Some(metadata.len()),
        _ => None,
    }
}

/// How many bytes the files after the first `own` ones have together; None if one is no regular file, or if there is
/// none.
pub(crate) fn size_behind<F: Read>(
    files: &[NamedSource<'_, FileSource<F>>],
    own: usize,
) -> Option<u64> {
    let mut all: Option<u64> = None;
    for file in files.iter().skip(own) {
        let size = file.source.size?;
        all = Some(all.unwrap_or(0).saturating_add(size));
    }
    all
}

// Opens a file for writing, with its contents, and makes it if there is none; with its permissions, if it is a regular
// file.
fn open_to_write<H: Files>(rt: &H, name: &str) -> io::Result<(H::File, Option<Permissions>)> {
    let file = appending_options().open(rt, name)?;
    let metadata = file.metadata()?;
    if metadata.is_file() {
        Ok((file, Some(metadata.permissions())))
    } else {
        Ok((file, None))
    }
}

// How a file is opened so that its text is kept, and bytes are appended.
fn appending_options() -> OpenOptions
    ensures { KeepsText result }
{
    let mut options = OpenOptions::new();
    options.append(true).create(true);
    options
}

// Makes a new file with these permissions. If it can't have them, it is removed.
fn make_new<H: Files>(rt: &H, name: &str, permissions: &Permissions) -> io::Result<H::File> {
    let file = new_file_options(permissions).open(rt, name)?;
    match file.set_permissions(Permissions::from_mode(permissions.mode())) {
        Ok(()) => Ok(file),
        Err(error) => {
            fs::remove_file(rt, name)?;
            Err(error)
        }
    }
}

// How a file is made that must be new. It has no permissions beyond these.
fn new_file_options(permissions: &Permissions) -> OpenOptions
    ensures { MakesAnew result }
{
    let mut options = OpenOptions::new();
    options.mode(permissions.mode());
    options.write(true).create_new(true);
    options
}

/// Opens the files with these names, in order. If one can't be opened, those before it are closed.
///
/// # Errors
/// `OpenFailed` with the first name whose file can't be opened. `Memory` if a growth was refused.
pub(crate) fn open_files<'a, H: Files>(
    alloc: Global,
    files: &mut NamedFiles<'_, H>,
    names: &[&'a str],
) -> Result<Vec<NamedSource<'a, FileSource<H::File>>>, ToolFault>
    ensures opened { IfOk result (λ sources.
        OpensAll (map (λ name. name.now) names.now) files.old files.new sources.items) }
    ensures fault { IfErr result (FailsToOpen (map (λ name. name.now) names.now) files.old files.new) }
{
    let mut sources = Vec::with_capacity(alloc, names.len())?;
    for name in names {
        let Some(source) = files.open(*name) else {
            take_sources(files, sources);
            return Err(open_fault(alloc, *name));
        };
        let Ok(()) = sources.push(source) else {
            unreachable!()
        };
    }
    Ok(sources)
}

/// Takes back files that were opened, in order, and closes them.
pub(crate) fn take_sources<H: Files>(
    files: &mut NamedFiles<'_, H>,
    sources: Vec<NamedSource<'_, FileSource<H::File>>>,
)
    ensures { files.new ≡ files.old ++ given_back sources.entry.items }
{
    for source in sources {
        files.take_source(source);
    }
}

/// The fault that the file with this name can't be opened or created.
pub(crate) fn open_fault(alloc: Global, name: &str) -> ToolFault
    ensures { TellsName name.now result }
{
    match String::from_str(alloc, name) {
        Ok(name) => ToolFault::OpenFailed(name),
        Err(_) => ToolFault::Memory,
    }
}
