// A slice as a feed.

ghost use Rattle.std.specs.Prelude.{◌≡◌, ◌≤◌, ◌<◌, ◌↔◌, ◌-◌, Some, None, length, option_map};
ghost use Rattle.std.specs.Prelude.{IsErr, IsTrue, IfOk, OnErr};
ghost use Rattle.source.specs.Read.{IsRead};

use crate::{Feed, ReadFailed};

/// The bytes of a lent slice, at most a chosen number of them per read. There may be a failing place: each
/// read into a nonempty buffer that would begin there fails, and one that begins before it stops there.
#[derive(Drop)]
pub struct Bytes<'a> {
    rest: &'a [u8],
    most: usize,
    place: Option<usize>,
    failures: u64,
    ghost moves: { 1 ≤ most },
}

impl<'a> Bytes<'a> {
    ghost use Rattle.source.specs.inside.Bytes.{bytes_most, bytes_next, bytes_place};

    /// All of `bytes`, at most `most` of them per read.
    pub fn new(bytes: &'a [u8], most: usize) -> Bytes<'a>
        requires { 1 ≤ most }
        ensures told { ⟦<Bytes<'a> as Feed>⟧.remaining result ≡ Some bytes.now }
        ensures fresh { ⟦<Bytes<'a> as Feed>⟧.failure_count result ≡ 0 }
        ensures most { bytes_most result ≡ most }
        ensures place { bytes_place result ≡ None }
    {
        Bytes {
            rest: bytes,
            most,
            place: None,
            failures: 0,
        }
    }

    /// Like `new`, with a failing place after the first `place` bytes. A place beyond the end is never
    /// reached.
    pub fn failing(bytes: &'a [u8], most: usize, place: usize) -> Bytes<'a>
        requires { 1 ≤ most }
        ensures told { ⟦<Bytes<'a> as Feed>⟧.remaining result ≡ Some bytes.now }
        ensures fresh { ⟦<Bytes<'a> as Feed>⟧.failure_count result ≡ 0 }
        ensures most { bytes_most result ≡ most }
        ensures place { bytes_place result ≡ Some place }
    {
        Bytes {
            rest: bytes,
            most,
            place: Some(place),
            failures: 0,
        }
    }

    fn fails_now(&self, room: usize) -> bool
        ensures { IsTrue result ↔ ((bytes_place self.now ≡ Some 0) × (0 < room)) }
    {
        self.place == Some(0) && room > 0
    }

    // How many bytes the next read into `room` bytes gives, if it does not fail.
    fn next_length(&self, room: usize) -> usize
        ensures { result ≡ bytes_next self.now room }
    {
        let most = self.rest.len().min(self.most).min(room);
        match self.place {
            Some(place) => most.min(place),
            None => most,
        }
    }
}

impl<'a> Feed for Bytes<'a> {
    ghost use Rattle.source.specs.inside.Bytes.{bytes_failures, bytes_most, bytes_next, bytes_place, bytes_rest};

    ghost failure_count = { λ s. bytes_failures s };

    ghost remaining = { λ s. Some (bytes_rest s) };

    fn read(&mut self, buf: &mut [u8]) -> Result<usize, ReadFailed>
        ensures read { IsRead result ⟦<Bytes<'a> as Feed>⟧.remaining ⟦<Bytes<'a> as Feed>⟧.failure_count
            self.old self.new buf.new }

        // When it fails, how much it reads, and what stays.
        ensures fails { IsErr result ↔ ((bytes_place self.old ≡ Some 0) × (0 < length buf.old)) }
        ensures reads { IfOk result (λ n. n ≡ bytes_next self.old (length buf.old)) }
        ensures place { IfOk result
            (λ n. bytes_place self.new ≡ option_map (λ place. place - n) (bytes_place self.old)) }
        ensures refused { OnErr result (bytes_place self.new ≡ bytes_place self.old) }
        ensures kept { bytes_most self.new ≡ bytes_most self.old }
    {
        if self.fails_now(buf.len()) {
            self.failures = self.failures.saturating_add(1);
            return Err(ReadFailed);
        }
        let count = self.next_length(buf.len());
        let (piece, rest) = self.rest.split_at(count);
        buf[..count].copy_from_slice(piece);
        self.rest = rest;
        if let Some(place) = &mut self.place {
            *place -= count;
        }
        Ok(count)
    }

    fn failures(&self) -> u64 {
        self.failures
    }
}
