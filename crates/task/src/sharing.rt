// Which share of a run is asked for.

ghost use Rattle.std.specs.Prelude.{◌≡◌, ◌≤◌, ◌&&◌, IfOk, Ok, codes, false, nat_lt};
ghost use Rattle.std.specs.List.{list_any};
ghost use Rattle.std.specs.Str.{bytes_eq};
ghost use Rattle.request.specs.CommandLine.{given_of, text_of};
ghost use Rattle.task.specs.Settings as spec;
ghost use Rattle.task.specs.Tasks as tasks;
ghost use Rattle.task.specs.inside.Seen.{judged, seen};
ghost use Rattle.task.specs.inside.Steps as steps;

use crate::fault::UsageFault;
use crate::parameters::{file_or_input, number_in, unless};
use hashes::Share;
use request::Request;

/// A file, and which share of its parts is meant. Where there are other shares, it is not standard input, which
/// they would not have.
#[derive(Clone, Copy)]
pub struct SharedFile<'a> {
    pub name: &'a str,
    pub share: Share,
    ghost within: { share.waiting ≤ share.others },
    ghost named: { (nat_lt 0 share.others && bytes_eq name.now (codes "-")) ≡ false },
}

impl<'a> SharedFile<'a> {
    /// The file of a request, and the share of its parts, or all of them.
    pub(crate) fn of(request: &Request<'a>) -> Result<SharedFile<'a>, UsageFault>
        ensures share { seen (λ f. f.share) result ≡ tasks.share_of_parts (given_of request.now) }
        ensures name { IfOk result (λ f. f.name.now ≡ spec.file_or_input (given_of request.now)) }
    {
        let name = file_or_input(request);
        let Some(text) = request.text("--share") else {
            let share = Share::whole();
            return Ok(SharedFile { name, share });
        };
        unless(name == "-", "--share", ": not of standard input\n")?;
        let share = share_in(text)?;
        Ok(SharedFile { name, share })
    }
}

/// The share of the files of which a sum is printed, or all of them.
pub(crate) fn share_of_files(request: &Request<'_>, is_compared: bool) -> Result<Share, UsageFault>
    ensures { judged result ≡ tasks.share_of (steps.allows_share is_compared (given_of request.now))
        (given_of request.now) }
{
    let Some(text) = request.text("--share") else {
        return Ok(Share::whole());
    };
    unless(request.has("--raw"), "--share", ": not with --raw\n")?;
    unless(is_compared, "--share", ": not with --verify\n")?;
    unless(reads_input(request), "--share", ": not of standard input\n")?;
    share_in(text)
}

/// The share of the entries that are checked, or all of them.
pub(crate) fn share_of_entries(request: &Request<'_>) -> Result<Share, UsageFault>
    ensures { judged result ≡ tasks.share_of (Ok tt) (given_of request.now) }
{
    match request.text("--share") {
        Some(text) => share_in(text),
        None => Ok(Share::whole()),
    }
}

// The share that a text tells: a number, a slash, and of how many it is one.
fn share_in(text: &str) -> Result<Share, UsageFault>
    ensures share { judged result ≡ steps.share_in text.now }
    ensures within { IfOk result (λ s. s.waiting ≤ s.others) }
{
    let Some((number, count)) = text.split_once('/') else {
        return Err(UsageFault::out_of_range("--share"));
    };
    let count = number_in("--share", 1, u64::MAX, count)?;
    let number = number_in("--share", 0, count - 1, number)?;
    Ok(Share {
        others: count - 1,
        waiting: number,
    })
}

// Whether one of the files that words name is standard input, which is the file where they name none.
fn reads_input(request: &Request<'_>) -> bool
    ensures { result ≡ steps.reads_input (given_of request.now) }
{
    request.text("--files0-from").is_none() && names_input(request)
}

fn names_input(request: &Request<'_>) -> bool
    ensures { result ≡ list_any (λ name. bytes_eq name (codes "-")) (spec.names_or_input (given_of request.now)) }
{
    match request.texts("file") {
        Some(files) => files.is_empty() || files.contains(&"-"),
        None => true,
    }
}
