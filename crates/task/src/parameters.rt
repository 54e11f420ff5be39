// The texts of settings as names, numbers and bytes, and the faults that each can have.

ghost use Rattle.std.specs.Prelude.{◌≡◌, ◌≢◌, ◌≤◌, ◌++◌, ◌&&◌, Bool, Err, IfOk, IfSome, IsSomeAnd, MatchResult, Ok};
ghost use Rattle.std.specs.Prelude.{codes, count_ones, if◌then◌else◌, length, map, nat_le, ok_or};
ghost use Rattle.std.specs.Prelude.{MatchOption, Some, option_map, replicate, unwrap_or};
ghost use Rattle.hashes.specs.Digest.{digest_len};
ghost use Rattle.hashes.specs.Kinds.{kinds};
ghost use Rattle.request.specs.CommandLine.{Text, given_of, text_of};
ghost use Rattle.task.specs.Settings as spec;
ghost use Rattle.task.specs.Settings.{given, named, needed, number_in, out_of_range, power_in};
ghost use Rattle.task.specs.Tasks.{hmac_alg};
ghost use Rattle.task.specs.inside.Seen.{IsAsDefined, fault_text, judged, seen};

use crate::fault::{TaskFault, UsageFault};
use hashes::{Alg, BLAKE2B_LEN, BLAKE2S_LEN, Kind};
use hex::FromHexError;
use request::Request;
use std::alloc::Global;

/// A hash under HMAC: SHA-256, SHA-512, BLAKE2b-512 or BLAKE2s-256.
#[derive(Clone, Copy)]
pub enum HmacHash {
    Sha256,
    Sha512,
    Blake2b,
    Blake2s,
}

impl HmacHash {
    /// The algorithm, with its longest digests.
    pub fn alg(self) -> Alg
        ensures { result ≡ hmac_alg self }
    {
        match self {
            HmacHash::Sha256 => Alg::Sha256,
            HmacHash::Sha512 => Alg::Sha512,
            HmacHash::Blake2b => Alg::Blake2b(BLAKE2B_LEN),
            HmacHash::Blake2s => Alg::Blake2s(BLAKE2S_LEN),
        }
    }

    /// The length of its digest in bytes.
    pub fn digest_len(self) -> u64
        ensures { result ≡ digest_len (hmac_alg self) }
    {
        self.alg().digest_len() as u64
    }
}

/// How many files or lists were named.
pub(crate) fn file_count(request: &Request<'_>) -> usize
    ensures { result ≡ length (spec.files (given_of request.now)) }
{
    match request.texts("file") {
        Some(files) => files.len(),
        None => 0,
    }
}

/// The one file that was named, or standard input.
pub(crate) fn file_or_input<'a>(request: &Request<'a>) -> &'a str
    ensures { result.now ≡ spec.file_or_input (given_of request.now) }
{
    request.text("file").unwrap_or("-")
}

/// The hash that a request names.
pub(crate) fn needed_kind(request: &Request<'_>) -> Result<Kind, UsageFault>
    ensures { judged result ≡ needed (named kinds) (codes "-a") (given_of request.now) }
{
    let name = needed(request, "-a")?;
    Kind::named(name).ok_or(UsageFault::out_of_range("-a"))
}

/// What is said of a setting that the algorithm does not have.
pub(crate) const NOT_FOR: &str = ": not for this algorithm\n";

/// Refuses the first of these settings that was given, with this complaint.
pub(crate) fn absent(
    request: &Request<'_>,
    complaint: &'static str,
    words: &[&'static str],
) -> Result<(), UsageFault>
    ensures { judged result ≡ spec.absent complaint.now (map (λ w. w.now) words.now) (given_of request.now) }
{
    for &word in words {
        unless(request.text(word).is_some(), word, complaint)?;
    }
    Ok(())
}

/// Refuses a setting with this complaint, if that is so.
pub(crate) fn unless(
    is_wrong: bool,
    word: &'static str,
    complaint: &'static str,
) -> Result<(), UsageFault>
    ensures { judged result ≡ spec.unless is_wrong (word.now ++ complaint.now) }
{
    if is_wrong {
        Err(UsageFault { word, complaint })
    } else {
        Ok(())
    }
}

/// The text of a setting that is required.
pub(crate) fn needed<'a>(request: &Request<'a>, word: &'static str) -> Result<&'a str, UsageFault>
    ensures { seen (λ t. t.now) result ≡ ok_or (text_of word.now (given_of request.now))
        (word.now ++ codes ": needed\n") }
{
    let complaint = ": needed\n";
    request.text(word).ok_or(UsageFault { word, complaint })
}

/// The number of a setting, at least `least` and at most `most`, or the default.
pub(crate) fn number(
    request: &Request<'_>,
    word: &'static str,
    default: u64,
    least: u64,
    most: u64,
) -> Result<u64, UsageFault>
    ensures value { judged result ≡ spec.number default least most word.now (given_of request.now) }
    ensures range { least ≤ default → default ≤ most → IfOk result (λ n. (least ≤ n) × (n ≤ most)) }
{
    Ok(given_number(request, word, least, most)?.unwrap_or(default))
}

/// The number of a setting, at least `least` and at most `most`, if it was given.
pub(crate) fn given_number(
    request: &Request<'_>,
    word: &'static str,
    least: u64,
    most: u64,
) -> Result<Option<u64>, UsageFault>
    ensures value { judged result ≡ given (number_in least most) word.now (given_of request.now) }
    ensures range { IfOk result (λ m. IfSome m (λ n. (least ≤ n) × (n ≤ most))) }
{
    match request.text(word) {
        Some(text) => Ok(Some(number_in(word, least, most, text)?)),
        None => Ok(None),
    }
}

/// The number that the text of a setting spells, at least `least` and at most `most`.
pub(crate) fn number_in(
    word: &'static str,
    least: u64,
    most: u64,
    text: &str,
) -> Result<u64, UsageFault>
    ensures value { judged result ≡ number_in least most word.now text.now }
    ensures range { IfOk result (λ n. (least ≤ n) × (n ≤ most)) }
{
    match text.parse::<u64>() {
        Ok(value) => within(word, least, most, value),
        Err(_) => Err(UsageFault::out_of_range(word)),
    }
}

fn within(word: &'static str, least: u64, most: u64, value: u64) -> Result<u64, UsageFault>
    ensures value { judged result ≡ (if nat_le least value && nat_le value most then Ok value
        else Err (out_of_range word.now)) }
    ensures range { IfOk result (λ n. (least ≤ n) × (n ≤ most)) }
{
    if least <= value && value <= most {
        Ok(value)
    } else {
        Err(UsageFault::out_of_range(word))
    }
}

/// The power of two that the text of a setting spells, at most `most`.
pub(crate) fn power_in(word: &'static str, most: u64, text: &str) -> Result<u64, UsageFault>
    ensures value { judged result ≡ power_in most word.now text.now }
    ensures range { IfOk result (λ n. (1 ≤ n) × (n ≤ most)) }
    ensures power { IfOk result (λ n. count_ones n ≡ 1) }
{
    let number = number_in(word, 1, most, text)?;
    if number.is_power_of_two() {
        Ok(number)
    } else {
        Err(UsageFault::out_of_range(word))
    }
}

/// The bytes that a setting's hexadecimal digits spell.
pub(crate) fn hexadecimal(
    alloc: Global,
    word: &'static str,
    digits: &[u8],
) -> Result<Vec<u8>, TaskFault>
    ensures { IsAsDefined (λ v. v.items) (spec.hexadecimal word.now digits.now) result }
{
    match hex::decode(alloc, digits) {
        Ok(bytes) => Ok(bytes),
        Err(FromHexError::OutOfMemory) => Err(TaskFault::OutOfMemory),
        Err(_) => {
            let complaint = ": not hexadecimal\n";
            Err(TaskFault::Usage(UsageFault { word, complaint }))
        }
    }
}

/// The bytes that a setting's hexadecimal digits spell, if it was given.
pub(crate) fn given_bytes(
    alloc: Global,
    request: &Request<'_>,
    word: &'static str,
) -> Result<Option<Vec<u8>>, TaskFault>
    ensures { IsAsDefined (option_map (λ v. v.items))
        (given spec.hexadecimal word.now (given_of request.now)) result }
{
    match request.text(word) {
        Some(text) => Ok(Some(hexadecimal(alloc, word, text.as_bytes())?)),
        None => Ok(None),
    }
}

/// The bytes of a setting, if there are `count` of them.
pub(crate) fn of_length(
    word: &'static str,
    count: u64,
    bytes: Vec<u8>,
) -> Result<Vec<u8>, UsageFault>
    ensures { seen (λ v. v.items) result ≡ spec.sized count word.now (Some bytes.items) }
{
    if bytes.len() as u64 == count {
        Ok(bytes)
    } else {
        Err(UsageFault::wrong_length(word))
    }
}

/// The `N` bytes of a setting, or zeros if it was not given.
pub(crate) fn sized<const N: usize>(bytes: Option<Vec<u8>>) -> Option<[u8; N]>
    ensures { MatchOption result (IsSomeAnd bytes (λ b. length b.items ≢ N))
        (λ a. (length a ≡ N) × (a ≡ unwrap_or (option_map (λ b. b.items) bytes) (replicate N 0))) }
{
    let Some(bytes) = bytes else {
        return Some([0; N]);
    };
    match bytes.as_slice().split_first_chunk::<N>() {
        Some((bytes, [])) => Some(*bytes),
        _ => None,
    }
}
