// What `hash` is to print for a file.

ghost use Rattle.std.specs.Prelude.{◌≡◌, ◌≢◌, ◌+◌, ◌++◌, ◌∷◌, [], ◌≤◌, IfOk, IfSome, MatchOption, codes, map};
ghost use Rattle.std.specs.Prelude.{option_map, unwrap_or};
ghost use Rattle.std.proofs.Props.{props};
ghost use Rattle.hashes.specs.Digest.{IsInRange};
ghost use Rattle.request.specs.CommandLine.{Text, given_of, text_of as request_text};
ghost use Rattle.task.specs.Hashing as spec;
ghost use Rattle.task.specs.Hashing.{alg_of};
ghost use Rattle.task.specs.Settings.{absent, given, not_for, power_in};
ghost use Rattle.task.specs.declared.hashing.Form.{Form};
ghost use Rattle.task.specs.inside.Possible.{HasDigest, IsPartSize, lengths_of};
ghost use Rattle.task.specs.inside.Seen.{IsAsDefined, judged};

use crate::fault::{TaskFault, UsageFault};
use crate::parameters::{
    NOT_FOR, absent, file_count, given_bytes, hexadecimal, needed_kind, number, of_length,
    power_in, sized, unless,
};
use hashes::{Alg, BLAKE2B_LEN, BLAKE2S_LEN, BLAKE3_LEN, Kind};
use request::Request;
use std::alloc::Global;

/// What is printed for a file: which bytes of which digest, and how.
#[derive(Clone, Copy)]
pub struct Requested {
    pub hash: Hash,
    pub stretch: Stretch,
    pub form: Form,
}

/// A hash, and what BLAKE2 takes besides its input: a salt and a personalization.
#[derive(Clone, Copy)]
pub enum Hash {
    /// A hash that takes nothing besides its input, with its longest digests.
    Whole(Kind),
    Blake2b([u8; 16], [u8; 16]),
    Blake2s([u8; 8], [u8; 8]),
    Blake3,
}

/// A stretch of a digest, from a position on: at least one byte. Digests other than BLAKE3's are whole.
#[derive(Clone, Copy)]
pub struct Stretch {
    pub position: u64,
    pub length: u64,
}

/// How a digest is printed.
#[derive(Clone, Copy)]
pub enum Form {
    /// In digits, on a line with the name.
    Plain,
    /// In digits, on a line that names the algorithm.
    Tagged,
    /// As raw bytes, without a line.
    Raw,
}

/// A digest that exists, and the number of chunks in the parts in which files are hashed, if given.
#[derive(Clone, Copy)]
pub struct Hashing {
    pub requested: Requested,
    pub chunks: Option<u64>,
    ghost digest: { HasDigest requested },
    ghost size: { IfSome chunks IsPartSize } by { Prim.hlevel props },
}

impl Requested {
    /// The algorithm of an entry with such a digest.
    pub fn alg(self) -> Alg
        ensures value { result ≡ alg_of self.hash self.stretch.length }
        ensures range { HasDigest self → IsInRange result }
    {
        match self.hash {
            Hash::Whole(kind) => kind.longest(),
            Hash::Blake2b(_, _) => Alg::Blake2b(self.stretch.length as usize),
            Hash::Blake2s(_, _) => Alg::Blake2s(self.stretch.length as usize),
            Hash::Blake3 => Alg::Blake3,
        }
    }
}

impl Hashing {
    /// What a `hash` request prints, or the first fault of its settings.
    pub(crate) fn of(alloc: Global, request: &Request<'_>) -> Result<Hashing, TaskFault>
        ensures { IsAsDefined (λ h. h.requested) (spec.requested (given_of request.now)) result }
    {
        let kind = needed_kind(request)?;
        refused_others(request, kind)?;
        let form = Form::of(request)?;
        let (least, most) = lengths(kind, form);
        let default = default_len(request, kind, least, most);
        let stretch = stretch_of(request, default, least, most)?;
        let hash = Hash::of(alloc, request, kind)?;
        let chunks = chunks_of(request)?;
        let requested = Requested {
            hash,
            stretch,
            form,
        };
        Ok(Hashing { requested, chunks })
    }
}

/// The digest or tag of this length that a request compares with, if given: it is for one file, in the form
/// of digits.
pub(crate) fn wanted(
    alloc: Global,
    request: &Request<'_>,
    length: u64,
) -> Result<Option<Vec<u8>>, TaskFault>
    ensures { IsAsDefined (option_map (λ v. v.items)) (spec.wanted length (given_of request.now)) result }
{
    let Some(text) = request.text("--verify") else {
        return Ok(None);
    };
    unless(request.has("--tag"), "--verify", ": not with --tag\n")?;
    unless(request.has("--raw"), "--verify", ": not with --raw\n")?;
    unless(names_several(request), "--verify", ": one file only\n")?;
    Ok(Some(compared(alloc, request, text, length)?))
}

/// The digest or tag of this length, if given, which may be for several files.
pub(crate) fn given_digest(
    alloc: Global,
    request: &Request<'_>,
    length: u64,
) -> Result<Option<Vec<u8>>, TaskFault>
    ensures { IsAsDefined (option_map (λ v. v.items))
        (given (spec.compared length (given_of request.now)) (codes "--verify") (given_of request.now)) result }
{
    match request.text("--verify") {
        Some(text) => Ok(Some(compared(alloc, request, text, length)?)),
        None => Ok(None),
    }
}

// The digest or tag of this length that the digits of this text spell.
fn compared(
    alloc: Global,
    request: &Request<'_>,
    text: &str,
    length: u64,
) -> Result<Vec<u8>, TaskFault>
    ensures { IsAsDefined (λ v. v.items) (spec.compared length (given_of request.now) (codes "--verify") text.now)
        result }
{
    let bytes = hexadecimal(alloc, "--verify", digits_of(request, text))?;
    Ok(of_length("--verify", length, bytes)?)
}

// The digits in the text of `--verify`, which the name of `-a` and a colon may precede.
fn digits_of<'a>(request: &Request<'_>, text: &'a str) -> &'a [u8]
    ensures { result.now ≡ spec.digits_of (given_of request.now) text.now }
{
    match after_name(text.as_bytes(), algorithm_name(request)) {
        Some(digits) => digits,
        None => text.as_bytes(),
    }
}

// The name that `-a` gives, or an empty text.
fn algorithm_name<'a>(request: &Request<'a>) -> &'a str
    ensures { result.now ≡ unwrap_or (request_text (codes "-a") (given_of request.now)) [] }
{
    request.text("-a").unwrap_or("")
}

// What follows this name and a colon, if a text begins with them.
fn after_name<'a>(text: &'a [u8], name: &str) -> Option<&'a [u8]>
    ensures { MatchOption result ((rest : Text) → text.now ≢ name.now ++ 58 ∷ rest)
        (λ rest. text.now ≡ name.now ++ 58 ∷ rest.now) }
{
    text.strip_prefix(name.as_bytes())?.strip_prefix(b":")
}

// Refuses the settings that the hash does not have.
fn refused_others(request: &Request<'_>, kind: Kind) -> Result<(), UsageFault>
    ensures { judged result ≡ absent not_for (spec.others kind) (given_of request.now) }
{
    match kind {
        Kind::Blake2b | Kind::Blake2s => absent(request, NOT_FOR, &["--seek", "--parts"]),
        Kind::Blake3 => absent(request, NOT_FOR, &["--salt", "--personal"]),
        Kind::Sha256 | Kind::Sha512 => {
            let others = ["-l", "--seek", "--salt", "--personal", "--parts"];
            absent(request, NOT_FOR, &others)
        }
    }
}

impl Form {
    /// How a digest is printed. Refuses `--raw` with `--tag`, and for several files.
    pub(crate) fn of(request: &Request<'_>) -> Result<Form, UsageFault>
        ensures { judged result ≡ spec.form_of (given_of request.now) }
    {
        if request.has("--raw") {
            unless(request.has("--tag"), "--raw", ": not with --tag\n")?;
            unless(names_several(request), "--raw", ": one file only\n")?;
            Ok(Form::Raw)
        } else if request.has("--tag") {
            Ok(Form::Tagged)
        } else {
            Ok(Form::Plain)
        }
    }
}

// The least and the greatest length of a digest: the label of BLAKE3 stands for 32 bytes.
fn lengths(kind: Kind, form: Form) -> (u64, u64)
    ensures { result ≡ spec.lengths kind form }
{
    match kind {
        Kind::Blake2b => (1, BLAKE2B_LEN as u64),
        Kind::Blake2s => (1, BLAKE2S_LEN as u64),
        Kind::Blake3 => match form {
            Form::Tagged => (BLAKE3_LEN as u64, BLAKE3_LEN as u64),
            Form::Plain | Form::Raw => (1, u64::MAX),
        },
        _ => {
            let length = kind.longest().digest_len() as u64;
            (length, length)
        }
    }
}

// The length of a digest without `-l`, at least `least` and at most `most`: for BLAKE2 the digits of
// `--verify` determine it.
fn default_len(request: &Request<'_>, kind: Kind, least: u64, most: u64) -> u64
    ensures value { result ≡ spec.default_len kind (least, most) (given_of request.now) }
    ensures between { (form : Form) → (least, most) ≡ spec.lengths kind form
        → (least ≤ result) × (result ≤ most) }
{
    if kind == Kind::Blake3 {
        return BLAKE3_LEN as u64;
    }
    match request.text("--verify") {
        Some(text) => {
            let digits = digits_of(request, text);
            most.min(digits.len() as u64 / 2).max(least)
        }
        None => most,
    }
}

impl Hash {
    // The hash with this name, and what BLAKE2 takes besides its input.
    fn of(alloc: Global, request: &Request<'_>, kind: Kind) -> Result<Hash, TaskFault>
        ensures value { IsAsDefined (λ h. h) (spec.hash_of kind (given_of request.now)) result }
        ensures lengths { IfOk result (λ h. (form : Form) → lengths_of h form ≡ spec.lengths kind form) }
    {
        match kind {
            Kind::Blake2b => {
                let (salt, personal) = salts(alloc, request)?;
                Ok(Hash::Blake2b(salt, personal))
            }
            Kind::Blake2s => {
                let (salt, personal) = salts(alloc, request)?;
                Ok(Hash::Blake2s(salt, personal))
            }
            Kind::Blake3 => Ok(Hash::Blake3),
            _ => Ok(Hash::Whole(kind)),
        }
    }
}

// The salt and the personalization. The digits of both are checked before the length of either.
fn salts<const N: usize>(
    alloc: Global,
    request: &Request<'_>,
) -> Result<([u8; N], [u8; N]), TaskFault>
    ensures { IsAsDefined (λ s. s) (spec.salts N (given_of request.now)) result }
{
    let salt = given_bytes(alloc, request, "--salt")?;
    let personal = given_bytes(alloc, request, "--personal")?;
    let Some(salt) = sized(salt) else {
        return Err(TaskFault::Usage(UsageFault::wrong_length("--salt")));
    };
    let Some(personal) = sized(personal) else {
        return Err(TaskFault::Usage(UsageFault::wrong_length("--personal")));
    };
    Ok((salt, personal))
}

/// Whether more than one file may be named.
pub(crate) fn names_several(request: &Request<'_>) -> bool
    ensures { result ≡ spec.names_several (given_of request.now) }
{
    file_count(request) > 1 || request.text("--files0-from").is_some()
}

/// The bytes of a digest that `-l` and `--seek` select, none of them after the last one.
pub(crate) fn stretch_of(
    request: &Request<'_>,
    default: u64,
    least: u64,
    most: u64,
) -> Result<Stretch, UsageFault>
    ensures value { judged result ≡ spec.stretch_of default least most (given_of request.now) }
    ensures within { least ≤ default → default ≤ most
        → IfOk result (λ s. (least ≤ s.length) × (s.position + s.length ≤ most)) }
{
    let length = number(request, "-l", default, least, most)?;
    let position = number(request, "--seek", 0, 0, most.saturating_sub(length))?;
    Ok(Stretch { position, length })
}

// The number of chunks in the parts in which files are hashed, if given.
fn chunks_of(request: &Request<'_>) -> Result<Option<u64>, UsageFault>
    ensures value { judged result ≡ given (power_in 1024) (codes "--parts") (given_of request.now) }
    ensures size { IfOk result (λ m. IfSome m IsPartSize) }
{
    match request.text("--parts") {
        Some(text) => Ok(Some(power_in("--parts", 1024, text)?)),
        None => Ok(None),
    }
}
