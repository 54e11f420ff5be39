//! A whole run of `sums`: from the words to the status.
#![tactic(auto)]

ghost use Rattle.std.specs.Prelude.{◌≡◌, [], IfSome, List, map};
ghost use Rattle.request.specs.CommandLine.{Text, kind_of};
ghost use Rattle.request.specs.inside.Reading.{IsRead};
ghost use Rattle.task.specs.inside.Views.{task_shown};
ghost use Rattle.command.specs.Run.{Run, Runs, TellsAll};
ghost use Rattle.command.specs.inside.Seen.{DoesRun, OpensAtMost};
ghost use Rattle.command.specs.inside.Streams.{SameStreams};
ghost use Rattle.program.specs.Program.{ClapRuns, ProgramRuns, TaskRuns, most_opens};
ghost use Rattle.program.specs.inside.Judging.{IsJudged};

pub use memory::run_in_memory;

mod memory;

use command::{Fault, Session, Streams, tell};
use request::{Error, Request, WordsFault, line, text_of};
use source::{Feed, Sink, WriteFailed, write_all};
use std::alloc::Global;
use sumlist::Tree;
use task::{Names, Task, TaskFault};

/// Why words ask for no task.
#[derive(Drop)]
pub enum NoTask<'a> {
    /// They are wrong, or ask for help or the version: `clap`'s error says which.
    Words(Error),
    /// A setting of their request has a fault: its word, or nothing, and what is said of it.
    Usage(&'a str, &'a str),
    /// Memory ran out.
    OutOfMemory,
}

/// One whole run over the words, starting with the program's own name, with the standard streams and the
/// files: it answers the status. If a write to `err` fails, the rest of its line is dropped.
pub fn run<L: Feed, T: Tree, W: Sink, E: Sink>(
    alloc: Global,
    words: &[&str],
    input: &mut L,
    tree: &mut T,
    out: &mut W,
    err: &mut E,
) -> u8
    ensures { IfSome (L.remaining input.old) (λ bytes. IfSome (T.files tree.old) (λ files.
        ProgramRuns (map (λ w. w.now) words.entry.now) bytes files result
        (W.shown out.old) (W.shown out.new) (E.shown err.old) (E.shown err.new)
        (L.failure_count input.old) (L.failure_count input.new)
        (T.failure_count tree.old) (T.failure_count tree.new) (T.opens tree.old) (T.opens tree.new))) }
{
    run_task(
        alloc,
        task_of(alloc, line(alloc, words)),
        input,
        tree,
        out,
        err,
    )
}

/// The task that words ask for, after `line` has read them.
pub fn task_of<'a>(
    alloc: Global,
    read: Result<Request<'a>, WordsFault>,
) -> Result<Task<'a>, NoTask<'a>>
    ensures { (words : List Text) → IsRead words read.entry → IsJudged words result }
{
    match read {
        Ok(request) => match Task::of(alloc, request) {
            Ok(task) => Ok(task),
            Err(TaskFault::Usage(fault)) => Err(NoTask::Usage(fault.word, fault.complaint)),
            Err(TaskFault::OutOfMemory) => Err(NoTask::OutOfMemory),
        },
        Err(WordsFault::Words(error)) => Err(NoTask::Words(error)),
        Err(WordsFault::OutOfMemory) => Err(NoTask::OutOfMemory),
    }
}

/// The run of words with a known task, as `run` does it.
pub fn run_task<L: Feed, T: Tree, W: Sink, E: Sink>(
    alloc: Global,
    judged: Result<Task<'_>, NoTask<'_>>,
    input: &mut L,
    tree: &mut T,
    out: &mut W,
    err: &mut E,
) -> u8
    ensures { (words : List Text) → IsJudged words judged.entry
        → IfSome (L.remaining input.old) (λ bytes. IfSome (T.files tree.old) (λ files.
        ProgramRuns words bytes files result
        (W.shown out.old) (W.shown out.new) (E.shown err.old) (E.shown err.new)
        (L.failure_count input.old) (L.failure_count input.new)
        (T.failure_count tree.old) (T.failure_count tree.new) (T.opens tree.old) (T.opens tree.new))) }
{
    let task = match judged {
        Ok(task) => task,
        Err(NoTask::Usage(word, complaint)) => return tell(err, Fault::Usage(word, complaint)),
        Err(NoTask::OutOfMemory) => return tell(err, Fault::OutOfMemory),
        Err(NoTask::Words(error)) => {
            let Ok(text) = text_of(alloc, &error) else {
                return tell(err, Fault::OutOfMemory);
            };
            return print_clap(&error, text.as_str(), out, err);
        }
    };
    let mut session = Session {
        alloc,
        input,
        tree,
        out,
    };
    match do_task(&mut session, task, err) {
        Ok(status) => status,
        Err(fault) => tell(err, fault),
    }
}

// The task, done over the streams of the session.
fn do_task<'n, 'i, 't, 'o, L: Feed, T: Tree, W: Sink, E: Sink>(
    session: &mut Session<'i, 't, 'o, L, T, W>,
    task: Task<'n>,
    err: &mut E,
) -> Result<u8, Fault<'n>>
    ensures run { DoesRun (λ bytes files run. TaskRuns (task_shown task.entry) files bytes run
        × OpensAtMost (most_opens (task_shown task.entry) files bytes)
        (⟦<Session<'i, 't, 'o, L, T, W> as Streams>⟧.seen session.old)
        (⟦<Session<'i, 't, 'o, L, T, W> as Streams>⟧.seen session.new))
        (λ notes. TellsAll (E.shown err.old) (E.shown err.new) notes) result
        (⟦<Session<'i, 't, 'o, L, T, W> as Streams>⟧.seen session.old)
        (⟦<Session<'i, 't, 'o, L, T, W> as Streams>⟧.seen session.new) }
    ensures same { SameStreams session.old session.new }
{
    match task {
        Task::Lines { sum, names, share } => match names {
            Names::Given(files) => session.print_lines(sum, files.as_slice(), share, err),
            Names::From(list) => session.print_lines_from(sum, list, share, err),
        },
        Task::Line {
            sum,
            wanted,
            name,
            file,
        } => session.print_line(sum, wanted, name, file),
        Task::Part { place, file } => session.print_part(place, file),
        Task::Starts { parts, file } => session.print_starts(parts, file),
        Task::Parts { parts, file } => session.print_parts(parts, file),
        Task::Verify { parts, file } => session.print_verified(parts, file),
        Task::Join {
            joining,
            wanted,
            name,
            lists,
        } => session.print_joined(joining, wanted, name, lists.as_slice()),
        Task::Kdf {
            derivation,
            is_raw,
            material,
        } => session.print_key(&derivation, is_raw, material),
        Task::Check {
            entries,
            reporting,
            verdicts,
            lists,
        } => session.print_reports(entries, reporting, verdicts, lists.as_slice(), err),
    }
}

// Prints the text of help or the version, or reports what is wrong with the words.
fn print_clap<W: Sink, E: Sink>(error: &Error, text: &str, out: &mut W, err: &mut E) -> u8
    ensures { (run : Run) × ClapRuns (kind_of error.now) text.now run × (run.failures ≡ [])
        × Runs run result (W.shown out.old) (W.shown out.new) (E.shown err.old) (E.shown err.new) }
{
    if error.use_stderr() {
        let _ = write_all(err, text.as_bytes());
        return 2;
    }
    match write_all(out, text.as_bytes()) {
        Ok(()) => 0,
        Err(WriteFailed) => tell(err, Fault::CannotWrite),
    }
}
