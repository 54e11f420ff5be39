// What a run is to do.

ghost use Rattle.std.specs.Prelude.{◌≡◌, ◌≢◌, ◌&&◌, ◌||◌, IfOk, IsErrOf, codes, is_some, length, map, nat_lt, not};
ghost use Rattle.std.specs.Prelude.{ok_or, option_map};
ghost use Rattle.std.specs.Map.{lookup};
ghost use Rattle.std.specs.Option.{option_map_or};
ghost use Rattle.std.specs.Str.{bytes_eq};
ghost use Rattle.hashes.specs.Kinds.{kinds};
ghost use Rattle.request.specs.CommandLine.{given_of, text_of};
ghost use Rattle.task.specs.Hashing as hashing;
ghost use Rattle.task.specs.Settings as settings;
ghost use Rattle.task.specs.Settings.{files};
ghost use Rattle.task.specs.Tasks as spec;
ghost use Rattle.task.specs.Tasks.{asked, in_file, these};
ghost use Rattle.task.specs.inside.Reading as reading;
ghost use Rattle.task.specs.inside.Seen.{IsAsDefined, judged, seen};
ghost use Rattle.task.specs.inside.Steps.{entries, input_name};
ghost use Rattle.task.specs.inside.Views.{entries_shown, names_shown, sum_shown, task_shown, texts_of, verdicts_shown};

use crate::derivation::Derivation;
use crate::fault::{TaskFault, UsageFault};
use crate::hashing::{Form, Hashing, given_digest, names_several, stretch_of, wanted};
use crate::parameters::{
    NOT_FOR, absent, file_count, file_or_input, given_number, needed, number, power_in, unless,
};
use crate::parting::{Joining, PartLength, Place, names_blake3};
use crate::sharing::{SharedFile, share_of_entries, share_of_files};
use crate::tagging::{Key, Mac, ONE_KEY, ShortMac, Tagging};
use b3::MOST_CHUNKS;
use hashes::{BLAKE3_LEN, Kind, Share};
use request::Request;
use std::alloc::{AllocError, Global};

// What is said of names that are given both by words and in a file.
const ONE_SOURCE: &str = "give only one of FILE and --files0-from\n";

// The tags in a list have at most so many bytes.
const LISTED_LEN: u64 = 64;

/// What is printed of a file: a digest, or a tag under a key.
#[derive(Drop)]
pub enum Sum<'a> {
    Digest(Hashing),
    Tag(Tagging, Key<'a>),
}

impl<'a> Sum<'a> {
    // Whether the key is that of a file.
    fn has_key_file(&self) -> bool
        ensures { result ≡ reading.has_key_file (sum_shown self.now) }
    {
        matches!(self, Sum::Tag(_, Key::File(_)))
    }
}

/// Of which files: those that were named, one at least, or those that a file names.
#[derive(Drop)]
pub enum Names<'a> {
    Given(Vec<&'a str>),
    From(&'a str),
}

/// What the entries of the lists are that `check` reads.
#[derive(Drop)]
pub enum Entries<'a> {
    /// Digests, those of untagged lines by this hash, if there is one.
    Digests(Option<Kind>),
    /// Tags under a key.
    Tags(ShortMac, Key<'a>),
}

/// Where `check` has its verdicts from.
#[derive(Drop)]
pub enum Verdicts<'a> {
    /// The files of a share of the entries.
    Files(Share),
    /// The report of this name, of a run that is told again.
    Report(&'a str),
}

/// What is told of each list beside the verdicts.
#[derive(Clone, Copy)]
pub struct Reporting {
    /// Whether how many lines had each outcome is told.
    pub is_summed: bool,
}

/// What a run is to do. A name `-` of a file or a list is standard input; names are judged as they
/// are used.
#[derive(Drop)]
pub enum Task<'a> {
    /// Print this of each file in a share of them.
    Lines {
        sum: Sum<'a>,
        names: Names<'a>,
        share: Share,
    },
    /// Print this of one file under this name, or whether it is what is wanted, of as many bytes.
    Line {
        sum: Sum<'a>,
        wanted: Option<Vec<u8>>,
        name: &'a str,
        file: &'a str,
    },
    /// Print the part of a file's bytes from that chunk on, to their end or so many chunks of them.
    Part {
        place: Place,
        file: &'a str,
    },
    /// Print the first chunk of each part of a file, where each but the last has so many chunks. It is
    /// not standard input.
    Starts {
        parts: PartLength,
        file: &'a str,
    },
    /// Print the parts of a file, where each but the last has so many chunks.
    Parts {
        parts: PartLength,
        file: SharedFile<'a>,
    },
    /// Print of the parts that the lines in a file tell whether they are those of another file. Of the two
    /// only the second may be standard input.
    Verify {
        parts: &'a str,
        file: SharedFile<'a>,
    },
    /// Print these bytes of the output of the parts in the lists, one at least, which have so many
    /// bytes in all where that is asked for, or whether they are the ones that are wanted, of as many;
    /// the line has this name.
    Join {
        joining: Joining,
        wanted: Option<Vec<u8>>,
        name: &'a str,
        lists: Vec<&'a str>,
    },
    /// Print the key that is derived of a file's bytes, in digits or as it is. Here `-` is a file.
    Kdf {
        derivation: Derivation<'a>,
        is_raw: bool,
        material: &'a str,
    },
    /// Report on lists of such entries, one at least, or tell what a report on them does not say.
    Check {
        entries: Entries<'a>,
        reporting: Reporting,
        verdicts: Verdicts<'a>,
        lists: Vec<&'a str>,
    },
}

impl<'a> Task<'a> {
    /// The task that a request asks for, or what is wrong with the first of its settings: each
    /// command has an order in which it judges them.
    pub fn of(alloc: Global, request: Request<'a>) -> Result<Task<'a>, TaskFault>
        ensures { IsAsDefined task_shown (asked (given_of request.entry)) result }
    {
        match request.command() {
            "hash" => hash(alloc, &request),
            "mac" => mac(alloc, &request),
            "kdf" => kdf(alloc, &request),
            "check" => check(alloc, &request),
            "part" => Ok(part(&request)?),
            "join" => join(alloc, &request),
            _ => Err(TaskFault::Usage(UsageFault::out_of_range("COMMAND"))),
        }
    }
}

impl<'a> Task<'a> {
    /// Whether standard input is read beside files that must not take its bytes: as a list of names or of digests,
    /// as the file of which parts are told, or under a key from a file.
    pub fn keeps_input(&self) -> bool
        ensures { result ≡ reading.keeps_input (task_shown self.now) }
    {
        match self {
            Task::Lines { sum, names, .. } => match names {
                Names::Given(files) => sum.has_key_file() && have_input(files.as_slice()),
                Names::From(list) => *list == "-",
            },
            Task::Line { sum, file, .. } => sum.has_key_file() && *file == "-",
            Task::Verify { file, .. } => file.name == "-",
            Task::Check { lists, .. } => have_input(lists.as_slice()),
            _ => false,
        }
    }

    /// How many bytes are read at most of a file from where it is opened, where a number of chunks says so.
    pub fn most_read(&self) -> Option<u64>
        ensures { result ≡ reading.most_read (task_shown self.now) }
    {
        match self {
            Task::Part { place, .. } => place.chunks?.checked_mul(1024),
            Task::Starts { parts, .. } => parts.chunks.checked_mul(1024),
            Task::Parts { parts, file } => {
                if file.share.others > 0 {
                    parts.chunks.checked_mul(1024)
                } else {
                    None
                }
            }
            _ => None,
        }
    }

    /// Whether other runs do the other shares, and read the same files.
    pub fn is_shared(&self) -> bool
        ensures { result ≡ reading.is_shared (task_shown self.now) }
    {
        match self {
            Task::Lines { share, .. } => share.others > 0,
            Task::Check { verdicts, .. } => match verdicts {
                Verdicts::Files(share) => share.others > 0,
                Verdicts::Report(_) => false,
            },
            Task::Parts { file, .. } | Task::Verify { file, .. } => file.share.others > 0,
            _ => false,
        }
    }
}

// Whether standard input is one of these names.
fn have_input(names: &[&str]) -> bool
    ensures { result ≡ reading.have_input (map (λ n. n.now) names.now) }
{
    names.contains(&"-")
}

fn hash<'a>(alloc: Global, request: &Request<'a>) -> Result<Task<'a>, TaskFault>
    ensures { IsAsDefined task_shown (spec.hash (given_of request.now)) result }
{
    let hashing = Hashing::of(alloc, request)?;
    let length = hashing.requested.stretch.length;
    of_files(alloc, request, Sum::Digest(hashing), length)
}

// The files of which a sum is printed, of so many bytes.
fn of_files<'a>(
    alloc: Global,
    request: &Request<'a>,
    sum: Sum<'a>,
    length: u64,
) -> Result<Task<'a>, TaskFault>
    ensures { IsAsDefined task_shown (spec.of_files (sum_shown sum.entry) length (given_of request.now)) result }
{
    let names = Names::of(alloc, request)?;
    let name = input_name(request)?;
    let wanted = wanted(alloc, request, length)?;
    let share = share_of_files(request, wanted.is_some())?;
    if name.is_some() || wanted.is_some() {
        let file = file_or_input(request);
        return Ok(Task::Line {
            sum,
            wanted,
            name: name.unwrap_or(file),
            file,
        });
    }
    Ok(Task::Lines { sum, names, share })
}

// The name that is given to standard input, which then stands alone.
fn input_name<'a>(request: &Request<'a>) -> Result<Option<&'a str>, UsageFault>
    ensures { seen (option_map (λ n. n.now)) result ≡ input_name (given_of request.now) }
{
    let Some(name) = request.text("--name") else {
        return Ok(None);
    };
    let is_other = names_several(request) || file_or_input(request) != "-";
    unless(is_other, "--name", ": standard input only\n")?;
    Ok(Some(name))
}

impl<'a> Names<'a> {
    // The files are named by words, or in a file.
    fn of(alloc: Global, request: &Request<'a>) -> Result<Names<'a>, TaskFault>
        ensures { IsAsDefined names_shown (spec.names_of (given_of request.now)) result }
    {
        let Some(list) = request.text("--files0-from") else {
            return Ok(Names::Given(names_or_input(alloc, request)?));
        };
        unless(file_count(request) > 0, "", ONE_SOURCE)?;
        Ok(Names::From(list))
    }
}

// The files or lists that were named: without one standard input is read.
fn names_or_input<'a>(alloc: Global, request: &Request<'a>) -> Result<Vec<&'a str>, AllocError>
    ensures { IfOk result (λ names. texts_of names ≡ settings.names_or_input (given_of request.now)) }
{
    let mut files = Vec::new(alloc);
    if let Some(named) = request.texts("file") {
        files.extend_from_slice(named)?;
    }
    if files.is_empty() {
        files.push("-")?;
    }
    Ok(files)
}

fn mac<'a>(alloc: Global, request: &Request<'a>) -> Result<Task<'a>, TaskFault>
    ensures { IsAsDefined task_shown (spec.mac (given_of request.now)) result }
{
    Form::of(request)?;
    let mac = Mac::of(request, u64::MAX)?;
    let key = Key::given(alloc, request)?;
    let is_raw = request.has("--raw");
    of_files(
        alloc,
        request,
        Sum::Tag(Tagging { mac, is_raw }, key),
        mac.tag_len(),
    )
}

fn kdf<'a>(alloc: Global, request: &Request<'a>) -> Result<Task<'a>, TaskFault>
    ensures { IsAsDefined task_shown (spec.kdf (given_of request.now)) result }
{
    let derivation = Derivation::of(alloc, request)?;
    let material = needed(request, "--ikm-file")?;
    Ok(Task::Kdf {
        derivation,
        is_raw: request.has("--raw"),
        material,
    })
}

fn check<'a>(alloc: Global, request: &Request<'a>) -> Result<Task<'a>, TaskFault>
    ensures { IsAsDefined task_shown (spec.check (given_of request.now)) result }
{
    let entries = Entries::of(alloc, request)?;
    let verdicts = Verdicts::of(request)?;
    let lists = names_or_input(alloc, request)?;
    let reporting = Reporting {
        is_summed: request.has("--summary"),
    };
    Ok(Task::Check {
        entries,
        reporting,
        verdicts,
        lists,
    })
}

impl<'a> Verdicts<'a> {
    fn of(request: &Request<'a>) -> Result<Verdicts<'a>, UsageFault>
        ensures { seen verdicts_shown result ≡ spec.verdicts (given_of request.now) }
    {
        let Some(report) = request.text("--report") else {
            return Ok(Verdicts::Files(share_of_entries(request)?));
        };
        absent(request, ": not with --report\n", &["--share"])?;
        Ok(Verdicts::Report(report))
    }
}

impl<'a> Entries<'a> {
    // What a request says that the entries are: tags, if it gives a key.
    fn of(alloc: Global, request: &Request<'a>) -> Result<Entries<'a>, TaskFault>
        ensures { IsAsDefined entries_shown (entries (given_of request.now)) result }
    {
        if request.text("--key").is_some() || request.text("--key-file").is_some() {
            let mac = Mac::of(request, LISTED_LEN)?;
            let key = Key::given(alloc, request)?;
            return Ok(Entries::Tags(ShortMac { mac }, key));
        }
        let kind = unkeyed_kind(request)?;
        absent(request, NOT_FOR, &["-l"])?;
        Ok(Entries::Digests(kind))
    }
}

// The hash that a request without a key names, if it names one. Any other name is one of HMAC.
fn unkeyed_kind(request: &Request<'_>) -> Result<Option<Kind>, UsageFault>
    ensures { judged result ≡ settings.given (λ s t. ok_or (lookup (bytes_eq t) kinds) spec.one_key) (codes "-a")
        (given_of request.now) }
{
    match request.text("-a") {
        Some(name) => match Kind::named(name) {
            Some(kind) => Ok(Some(kind)),
            None => Err(UsageFault {
                word: "",
                complaint: ONE_KEY,
            }),
        },
        None => Ok(None),
    }
}

fn part<'a>(request: &Request<'a>) -> Result<Task<'a>, UsageFault>
    ensures { seen task_shown result ≡ spec.part (given_of request.now) }
{
    names_blake3(request)?;
    if request.has("--list") {
        starts(request)
    } else if let Some(parts) = request.text("--verify") {
        verify(request, parts)
    } else if request.text("--each").is_some() {
        each(request)
    } else {
        one_part(request)
    }
}

fn starts<'a>(request: &Request<'a>) -> Result<Task<'a>, UsageFault>
    ensures { seen task_shown result ≡ spec.starts (given_of request.now) }
{
    let chunks = power_in("--chunks", MOST_CHUNKS, needed(request, "--chunks")?)?;
    let others = ["--first", "--each", "--verify", "--share"];
    absent(request, ": not with --list\n", &others)?;
    let file = file_or_input(request);
    unless(file == "-", "--list", ": not of standard input\n")?;
    let parts = PartLength { chunks };
    Ok(Task::Starts { parts, file })
}

fn verify<'a>(request: &Request<'a>, parts: &'a str) -> Result<Task<'a>, UsageFault>
    ensures { seen task_shown result ≡ spec.verify parts.now (given_of request.now) }
{
    let others = ["--first", "--chunks", "--each"];
    absent(request, ": not with --verify\n", &others)?;
    let file = SharedFile::of(request)?;
    Ok(Task::Verify { parts, file })
}

fn each<'a>(request: &Request<'a>) -> Result<Task<'a>, UsageFault>
    ensures { seen task_shown result ≡ spec.each (given_of request.now) }
{
    let chunks = power_in("--each", MOST_CHUNKS, needed(request, "--each")?)?;
    absent(request, ": not with --each\n", &["--first", "--chunks"])?;
    let parts = PartLength { chunks };
    let file = SharedFile::of(request)?;
    Ok(Task::Parts { parts, file })
}

fn one_part<'a>(request: &Request<'a>) -> Result<Task<'a>, UsageFault>
    ensures { seen task_shown result ≡ spec.one_part (given_of request.now) }
{
    absent(request, ": not of one part\n", &["--share"])?;
    let first = number(request, "--first", 0, 0, MOST_CHUNKS - 1)?;
    let chunks = given_number(request, "--chunks", 1, MOST_CHUNKS)?;
    let place = Place::of(first, chunks)?;
    let file = file_or_input(request);
    Ok(Task::Part { place, file })
}

fn join<'a>(alloc: Global, request: &Request<'a>) -> Result<Task<'a>, TaskFault>
    ensures { IsAsDefined task_shown (spec.join (given_of request.now)) result }
{
    names_blake3(request)?;
    let stretch = stretch_of(request, BLAKE3_LEN as u64, 1, u64::MAX)?;
    let bytes = given_number(request, "--bytes", 0, u64::MAX)?;
    let wanted = given_digest(alloc, request, stretch.length)?;
    let name = request.text("--name").unwrap_or("-");
    let lists = names_or_input(alloc, request)?;
    Ok(Task::Join {
        joining: Joining { stretch, bytes },
        wanted,
        name,
        lists,
    })
}
