// What `mac` is to print.

ghost use Rattle.std.specs.Prelude.{◌≡◌, ◌≤◌, IfOk, codes, max, option_map, unwrap_or, []};
ghost use Rattle.std.specs.Option.{option_map_or};
ghost use Rattle.request.specs.CommandLine.{given_of};
ghost use Rattle.task.specs.Settings.{number};
ghost use Rattle.task.specs.Tasks as spec;
ghost use Rattle.task.specs.Tasks.{in_file, these};
ghost use Rattle.task.specs.inside.Possible.{HasTag, mac_len};
ghost use Rattle.task.specs.inside.Seen.{IsAsDefined, judged, seen};
ghost use Rattle.task.specs.inside.Steps.{hmac, key_of, mac_of};

use crate::fault::{TaskFault, UsageFault};
use crate::parameters::{HmacHash, given_bytes, needed, number, unless};
use hashes::{BLAKE2B_LEN, BLAKE2S_LEN, BLAKE3_LEN};
use request::Request;
use std::alloc::Global;

/// What is said of a key that is given in none of two ways, or in both.
pub(crate) const ONE_KEY: &str = "give one of --key and --key-file\n";

/// A keyed function, and the length in bytes of the tags that it prints.
#[derive(Clone, Copy)]
pub enum Mac {
    /// HMAC over a hash, with at least half the length of the hash's digest and at most all of it.
    Hmac(HmacHash, usize),
    /// Keyed BLAKE2b, 1 to 64 bytes.
    Blake2b(usize),
    /// Keyed BLAKE2s, 1 to 32 bytes.
    Blake2s(usize),
    /// Keyed BLAKE3, at least one byte.
    Blake3(u64),
}

/// What is printed for a tag.
#[derive(Clone, Copy)]
pub struct Tagging {
    /// The function, with the length of the tag.
    pub mac: Mac,
    /// Only the bytes of the tag are printed, without a line.
    pub is_raw: bool,
    ghost has: { HasTag mac },
}

/// A keyed function with tags of at most 64 bytes, such as those of a list.
#[derive(Clone, Copy)]
pub struct ShortMac {
    pub mac: Mac,
    ghost has: { HasTag mac },
    ghost few: { mac_len mac ≤ 64 },
}

/// A key.
#[derive(Drop)]
pub enum Key<'a> {
    /// These bytes.
    Given(Vec<u8>),
    /// The bytes of the file with this name.
    File(&'a str),
}

impl Mac {
    /// The keyed function that a request names, or the first fault of its settings. Tags of BLAKE3 have at
    /// most `most` bytes.
    pub(crate) fn of(request: &Request<'_>, most: u64) -> Result<Mac, UsageFault>
        requires { BLAKE3_LEN ≤ most }
        ensures value { seen (λ m. (m, mac_len m)) result ≡ mac_of most (given_of request.now) }
        ensures has { IfOk result HasTag }
        ensures few { IfOk result (λ mac. mac_len mac ≤ max 64 most) }
    {
        match needed(request, "-a")? {
            "hmac-sha256" => hmac(request, HmacHash::Sha256),
            "hmac-sha512" => hmac(request, HmacHash::Sha512),
            "hmac-blake2b" => hmac(request, HmacHash::Blake2b),
            "hmac-blake2s" => hmac(request, HmacHash::Blake2s),
            "blake2b" => Ok(Mac::Blake2b(blake2_len(request, BLAKE2B_LEN as u64)? as usize)),
            "blake2s" => Ok(Mac::Blake2s(blake2_len(request, BLAKE2S_LEN as u64)? as usize)),
            "blake3" => Ok(Mac::Blake3(number(request, "-l", BLAKE3_LEN as u64, 1, most)?)),
            _ => Err(UsageFault::out_of_range("-a")),
        }
    }

    /// The length of the tags in bytes.
    pub fn tag_len(self) -> u64
        ensures { result ≡ mac_len self }
    {
        match self {
            Mac::Hmac(_, length) | Mac::Blake2b(length) | Mac::Blake2s(length) => length as u64,
            Mac::Blake3(length) => length,
        }
    }
}

fn hmac(request: &Request<'_>, hash: HmacHash) -> Result<Mac, UsageFault>
    ensures value { seen (λ m. (m, mac_len m)) result ≡ hmac hash (given_of request.now) }
    ensures has { IfOk result HasTag }
{
    let whole = hash.digest_len();
    let length = number(request, "-l", whole, whole / 2, whole)?;
    Ok(Mac::Hmac(hash, length as usize))
}

fn blake2_len(request: &Request<'_>, most: u64) -> Result<u64, UsageFault>
    ensures value { judged result ≡ number most 1 most (codes "-l") (given_of request.now) }
    ensures range { 1 ≤ most → IfOk result (λ n. (1 ≤ n) × (n ≤ most)) }
{
    number(request, "-l", most, 1, most)
}

impl<'a> Key<'a> {
    ghost use Rattle.task.specs.inside.Views.{key_shown};

    /// The key of a request, which is given in one of two ways.
    pub(crate) fn given(alloc: Global, request: &Request<'a>) -> Result<Key<'a>, TaskFault>
        ensures { IsAsDefined key_shown (key_of (given_of request.now)) result }
    {
        let given = given_bytes(alloc, request, "--key")?;
        let file = request.text("--key-file");
        unless(given.is_some() == file.is_some(), "", ONE_KEY)?;
        Ok(Key::of(alloc, file, given))
    }

    // The key in the file, if one is named, otherwise these bytes.
    fn of(alloc: Global, file: Option<&'a str>, given: Option<Vec<u8>>) -> Key<'a>
        ensures { key_shown result
            ≡ option_map_or (λ f. in_file f.now) file.entry (these (unwrap_or (option_map (λ v. v.items) given) [])) }
    {
        match file {
            Some(name) => Key::File(name),
            None => Key::Given(given.unwrap_or(Vec::new(alloc))),
        }
    }
}
