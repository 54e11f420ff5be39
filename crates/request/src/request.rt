// What the words of the command line ask for.

ghost use Rattle.std.specs.Prelude.{◌≡◌, ◌≢◌, ◌⊎◌, Err, IfOk, map, option_map};
ghost use Rattle.clap.specs.Words.{kind_of};
ghost use Rattle.clap.specs.declared.error.ErrorKind.TheVariants as kind;
ghost use Rattle.request.specs.CommandLine.{AreRead, all_of, given_of, has_flag, text_of};
ghost use Rattle.request.specs.declared.request.WordsFault.TheVariants.{OutOfMemory, Words};

use crate::commands::sums_command;
use clap::error::ErrorKind;
use clap::{ArgMatches, Error};
use hashes::Kind;
use std::alloc::{AllocError, Global};

/// Why the words make no request.
#[derive(Drop)]
pub enum WordsFault {
    /// Memory ran out.
    OutOfMemory,
    /// The words are wrong, or ask for help or the version: `clap`'s error says which.
    Words(Error),
}

impl From<AllocError> for WordsFault {
    ghost from_gives = { λ _ fault. fault ≡ OutOfMemory };

    fn from(_error: AllocError) -> WordsFault {
        WordsFault::OutOfMemory
    }
}

impl From<Error> for WordsFault {
    ghost from_gives = { λ error fault. ((fault ≡ OutOfMemory) × (kind_of error ≡ kind.OutOfMemory))
        ⊎ ((fault ≡ Words error) × (kind_of error ≢ kind.OutOfMemory)) };

    fn from(error: Error) -> WordsFault {
        if error.kind() == ErrorKind::OutOfMemory {
            WordsFault::OutOfMemory
        } else {
            WordsFault::Words(error)
        }
    }
}

/// What the words ask for: a command, and the values of its options and arguments, each under its id.
#[derive(Drop)]
pub struct Request<'a> {
    command: &'a str,
    matches: ArgMatches<'a>,
}

impl<'a> Request<'a> {
    /// The command's name.
    pub fn command(&self) -> &'a str
        ensures { result.now ≡ (given_of self.now).0 }
    {
        self.command
    }

    /// The first text of an option or argument, if it was given.
    pub fn text(&self, id: &str) -> Option<&'a str>
        ensures { option_map (λ t. t.now) result ≡ text_of id.now (given_of self.now) }
    {
        self.matches.get_str(id)
    }

    /// Whether a flag was given.
    pub fn has(&self, id: &str) -> bool
        ensures { result ≡ has_flag id.now (given_of self.now) }
    {
        match self.text(id) {
            Some(text) => text == "true",
            None => false,
        }
    }

    /// All texts of an option or argument, in their order, if it was given.
    pub fn texts<'m>(&'m self, id: &str) -> Option<&'m [&'a str]>
        ensures { option_map (λ s. map (λ t. t.now) s.now) result ≡ all_of id.now (given_of self.now).1 }
    {
        self.matches.get_raw(id)
    }
}

// The names of the keyed functions.
static MACS: [&str; 7] = [
    "hmac-sha256",
    "hmac-sha512",
    "hmac-blake2b",
    "hmac-blake2s",
    "blake2b",
    "blake2s",
    "blake3",
];

// The names of the hashes, and of HMAC over four of them.
static BOTH: [&str; 9] = [
    "sha256",
    "sha512",
    "blake2b",
    "blake2s",
    "blake3",
    "hmac-sha256",
    "hmac-sha512",
    "hmac-blake2b",
    "hmac-blake2s",
];

/// Reads the words of the command line, starting with the program's own name, as `clap` reads them for the
/// program's command. The stack that this takes is given back before anything is hashed.
#[inline(never)]
pub fn line<'a>(alloc: Global, words: &'a [&'a str]) -> Result<Request<'a>, WordsFault>
    ensures request { IfOk result (λ r. AreRead (map (λ w. w.now) words.entry.now) (Ok (given_of r))) }
    ensures fault { (e : _) → result ≡ Err (Words e)
        → AreRead (map (λ w. w.now) words.entry.now) (Err (kind_of e)) }
{
    let names: &'a [&'a str] = Kind::names();
    let macs: &'a [&'a str] = &MACS;
    let both: &'a [&'a str] = &BOTH;
    let command = sums_command(alloc, names, macs, both)?;
    let mut matches = command.try_get_matches_from(words)?;
    let Some((command, matches)) = matches.remove_subcommand() else {
        unreachable!()
    };
    Ok(Request { command, matches })
}
