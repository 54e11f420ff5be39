//! Hashes files, makes tags and keys, and checks lists of digests.
#![tactic(auto)]

ghost use Rattle.std.specs.Prelude.{◌≡◌, ◌≢◌, Err, IfOk, List, codes, false, map, true};
ghost use Rattle.std.specs.String.{string_bytes};
ghost use Rattle.request.specs.CommandLine.{Text};
ghost use Rattle.request.specs.inside.Reading.{IsRead};
ghost use Rattle.request.specs.declared.request.WordsFault.TheVariants.{OutOfMemory};
ghost use Rattle.command.specs.Run.{Tells};
ghost use Rattle.sums.specs.Asking.{IsAsked};

mod input;
mod progress;
mod watched;

use command::{Fault, tell};
use input::Input;
use program::{run_task, task_of};
use progress::{Erasing, Progress};
use request::{Request, WordsFault, line};
use source::{Device, FixedSink, Sink, write_all};
use std::alloc::{AllocError, Global};
use std::fs::File;
use std::io;
use std::io::{ErrorKind, LineWriter, Write};
use std::os::fd::AsRawFd;
use std::process::ExitCode;
use sumlist::FileTree;
use watched::{Watched, WatchedTree};

// No line of a list or a report is longer than this.
const LINE_ROOM: usize = 131_200;

// No fault that quotes a word is longer than this: Linux takes no word of more than 131,072 bytes, and each
// of them is printed as at most four.
const FAULT_ROOM: usize = 524_800;

// Folders of which some can be opened, whatever the modes of the others.
const FOLDERS: [&str; 4] = ["/", "/proc", "/dev", "."];

fn main(rt: HostRuntime) -> ExitCode {
    match run_lines(&rt) {
        Ok(status) => ExitCode::from(status),
        Err(_) => ExitCode::from(tell_without_memory(&rt)),
    }
}

// Runs with a line buffer before each of the two streams: whole lines go out, each in one write, since several runs may
// write into one file or pipe. Both buffers are made before anything is read, and hold the longest line, some 640 KiB;
// only BLAKE3's long outputs take several writes. Each erases the line of `--progress`.
fn run_lines(rt: &HostRuntime) -> io::Result<u8> {
    let _held = closed_streams(rt)?;
    let progress = Progress::new(*rt);
    let out = Erasing::new(&progress, rt.stdout());
    let err = Erasing::new(&progress, rt.stderr());
    let mut out = Device::new(LineWriter::with_capacity(rt.alloc(), LINE_ROOM, out)?);
    let mut err = Device::new(LineWriter::with_capacity(rt.alloc(), FAULT_ROOM, err)?);
    let status = run_words(rt, &progress, &mut out, &mut err);
    progress.erase();
    let is_flushed = out.into_inner().flush().is_ok();
    let status = end_of(status, is_flushed, &mut err);
    let _ = err.into_inner().flush();
    Ok(status)
}

// Opens a folder in place of each of the three streams that is closed. The system gives a file that it opens the lowest
// free number: if standard input is closed, the first file would be read as standard input too. Like the closed stream, a
// folder can be neither read nor written, not even as /dev/stdin, whereas the null device would be an empty file. The
// first folder of FOLDERS that can be opened serves; only if none can, a closed stream is not held.
fn closed_streams(rt: &HostRuntime) -> io::Result<Vec<File>> {
    let mut held = Vec::new(rt.alloc());
    for _ in 0..3 {
        match any_folder(rt) {
            Some(folder) if folder.as_raw_fd() <= 2 => held.push(folder)?,
            _ => break,
        }
    }
    Ok(held)
}

fn any_folder(rt: &HostRuntime) -> Option<File> {
    for name in FOLDERS {
        if let Ok(folder) = File::open(rt, name) {
            return Some(folder);
        }
    }
    None
}

// The status of a run, given whether standard output took the rest of what was printed. A run with status 3
// has reported why.
fn end_of<E: Sink>(status: u8, is_flushed: bool, err: &mut E) -> u8
    ensures taken { is_flushed ≡ true → (result ≡ status) × (E.shown err.new ≡ E.shown err.old) }
    ensures told { status ≡ 3 → (result ≡ 3) × (E.shown err.new ≡ E.shown err.old) }
    ensures lost { is_flushed ≡ false → status ≢ 3
        → (result ≡ 3) × Tells (E.shown err.old) (E.shown err.new) (codes "sums: cannot write\n") }
{
    if is_flushed || status == 3 {
        status
    } else {
        tell(err, Fault::CannotWrite)
    }
}

// Reports that memory ran out, also in one write, and answers the status.
fn tell_without_memory(rt: &HostRuntime) -> u8 {
    let mut buffer = [0; 64];
    let mut line = FixedSink::new(&mut buffer);
    let status = tell(&mut line, Fault::OutOfMemory);
    let _ = write_all(&mut Device::new(rt.stderr()), line.written());
    status
}

// Runs on the process's own words, standard input and files.
fn run_words<W: Sink, E: Sink>(
    rt: &HostRuntime,
    progress: &Progress,
    out: &mut W,
    err: &mut E,
) -> u8 {
    let alloc = rt.alloc();
    let words = match words_of(rt) {
        Ok(words) => words,
        Err(error) => return tell_words(error.kind(), err),
    };
    match texts_of(alloc, words.as_slice()) {
        Ok(texts) => {
            let read = line(alloc, texts.as_slice());
            let is_shown = asks_for_progress(&read);
            let judged = task_of(alloc, read);
            let (keeps_input, is_shared, most) = match &judged {
                Ok(task) => (task.keeps_input(), task.is_shared(), task.most_read()),
                Err(_) => (false, false, None),
            };
            if is_shown {
                progress.begin(most);
            }
            let files = if keeps_input {
                FileTree::beside(rt, "/dev/stdin")
            } else {
                FileTree::new(rt)
            };
            let files = if is_shared { files.shared() } else { files };
            let stdin = Input::of(rt.stdin(), files.is_lost("/dev/stdin"));
            let mut input = Watched::new(Device::new(stdin), progress.watch_input());
            let mut tree = WatchedTree::new(files, progress);
            run_task(alloc, judged, &mut input, &mut tree, out, err)
        }
        Err(AllocError) => tell(err, Fault::OutOfMemory),
    }
}

// Whether the words that were read make a request with the flag; a file with its name, after `--`, is no
// flag.
fn asks_for_progress(read: &Result<Request<'_>, WordsFault>) -> bool
    ensures { (words : List Text) → IsRead words read.now → (read.now ≢ Err OutOfMemory) → IsAsked result words }
{
    match read {
        Ok(request) => request.has("--progress"),
        Err(_) => false,
    }
}

// Reports why the process's words cannot be had, by the kind of the system's error. Answers the status.
fn tell_words<E: Sink>(kind: ErrorKind, err: &mut E) -> u8
    ensures memory { kind ≡ ErrorKind.OutOfMemory
        → (result ≡ 3) × Tells (E.shown err.old) (E.shown err.new) (codes "sums: out of memory\n") }
    ensures text { kind ≢ ErrorKind.OutOfMemory
        → (result ≡ 2) × Tells (E.shown err.old) (E.shown err.new) (codes "sums: a word is not UTF-8\n") }
{
    if kind == ErrorKind::OutOfMemory {
        return tell(err, Fault::OutOfMemory);
    }
    let _ = write_all(err, b"sums: a word is not UTF-8\n");
    2
}

fn words_of(rt: &HostRuntime) -> io::Result<Vec<String>> {
    Ok(std::env::args(rt)?.collect(rt.alloc())?)
}

// The words as texts, each as it is.
fn texts_of<'a>(alloc: Global, words: &'a [String]) -> Result<Vec<&'a str>, AllocError>
    ensures { IfOk result (λ texts. map (λ t. t.now) texts.items ≡ map string_bytes words.entry.now) }
{
    let mut texts = Vec::new(alloc);
    for word in words {
        texts.push(word.as_str())?;
    }
    Ok(texts)
}
