// The command `part`: the line that describes a part of a file; with `--list`, where the parts of a file begin.

ghost use Rattle.std.specs.Prelude.{◌≡◌, ℕ, ◌%◌, ◌*◌, ◌^◌, ◌<◌, ◌≤◌, [], length, true, option_map, vec_len, IfOk};
ghost use Rattle.std.specs.Prelude.{IfSome, IsErrOf, MatchOption, None, OnOk, Some, ◌+◌, false};
ghost use Rattle.std.specs.Option.{SomeIff};
ghost use Rattle.source.specs.Counts.{count_after};
ghost use Rattle.source.specs.Pumped.{Gives, LeavesBehind, up_to};
ghost use Rattle.command.specs.inside.Troubles.{Counted};
ghost use Rattle.command.specs.Cutting.{PartRuns, cut, StartsRuns};
ghost use Rattle.command.specs.Lines.{is_input, opens_of};
ghost use Rattle.command.specs.inside.Cutting.{MakesPart, IsRoom, TakesPart, behind_chunks, first_chunks};
ghost use Rattle.command.specs.inside.Cutting.{CountsParts, TellsByte, start_lines};
ghost use Rattle.command.specs.inside.Reading.{failed};
ghost use Rattle.command.specs.inside.Seen.{OpensAtMost, DoesRun};
ghost use Rattle.command.specs.inside.Streams.{IfContent, SameStreams};
ghost use Rattle.task.specs.inside.Possible.{IsPlace, IsPartLength};
ghost use Rattle.source.specs.Written.{Writes};
ghost use Rattle.command.specs.inside.Cutting as spec;

use crate::digests::part_buffer;
use crate::fault::{Fault, write_number};
use crate::places::Wanted;
use crate::session::{Session, Streams, open_file};
use b3::{CHUNK_LEN, MOST_CHUNKS, Mode, PartValue};
use partlist::write_part;
use source::{Feed, ReadFailed, Sink, SourceFault, WriteFailed, part_of};
use std::alloc::{AllocError, Global};
use sumlist::Tree;
use task::{PartLength, Place};

/// A part is read in runs of at most this many chunks.
pub(crate) const RUN: u64 = 1024;

impl<'i, 't, 'o, L: Feed, T: Tree, W: Sink> Session<'i, 't, 'o, L, T, W> {
    /// Prints the line of a part of the file: its bytes from the first chunk of a place on, in as many chunks
    /// as the place has, or to the end. Answers 0. The faults are `CannotRead`, `NoBytes` if there are none
    /// and the place is not chunk 0, `MoreThanPart` if there are more than one part can have there, or
    /// instead `TooLong` if a part there can reach byte 2^64 - 1, `CannotWrite` and `OutOfMemory`. If the
    /// part is from standard input, no byte after it is read.
    pub fn print_part<'n>(&mut self, place: Place, name: &'n str) -> Result<u8, Fault<'n>>
        ensures run { DoesRun (λ bytes files. PartRuns place.first place.chunks name.entry.now files bytes)
            (λ notes. notes ≡ [])
            result (⟦<Self as Streams>⟧.seen self.old) (⟦<Self as Streams>⟧.seen self.new) }
        ensures left { is_input name.entry.now ≡ true → OnOk result (IfSome (L.remaining self.old.input.now)
            (λ bytes. L.remaining self.new.input.now ≡ Some (behind_chunks place.chunks bytes))) }
        ensures opens { OpensAtMost (opens_of name.entry.now) (⟦<Self as Streams>⟧.seen self.old)
            (⟦<Self as Streams>⟧.seen self.new) }
        ensures same { SameStreams self.old self.new }
    {
        let part = self.part_in(place, name)?;
        write_part(&part, self.out)?;
        Ok(0)
    }

    // The part; memory is taken before the file is opened.
    fn part_in<'n>(&mut self, place: Place, name: &'n str) -> Result<PartValue, Fault<'n>>
        ensures part { IfContent name.entry.now (⟦<Self as Streams>⟧.seen self.old) (λ content.
            MakesPart place.first name.entry.now (option_map (cut place.first place.chunks name.entry.now) content)
            result) }
        ensures counted { IfContent name.entry.now (⟦<Self as Streams>⟧.seen self.old) (λ content.
            Counted (failed (is_input name.entry.now) content result)
            (⟦<Self as Streams>⟧.seen self.old).input_failures (⟦<Self as Streams>⟧.seen self.new).input_failures
            (⟦<Self as Streams>⟧.seen self.old).file_failures (⟦<Self as Streams>⟧.seen self.new).file_failures) }
        ensures left { is_input name.entry.now ≡ true → OnOk result (IfSome (L.remaining self.old.input.now)
            (λ bytes. L.remaining self.new.input.now ≡ Some (behind_chunks place.chunks bytes))) }
        ensures out { (⟦<Self as Streams>⟧.seen self.new).out ≡ (⟦<Self as Streams>⟧.seen self.old).out }
        ensures opens { OpensAtMost (opens_of name.entry.now) (⟦<Self as Streams>⟧.seen self.old)
            (⟦<Self as Streams>⟧.seen self.new) }
        ensures same { SameStreams self.old self.new }
    {
        let room = room_from(place.first, place.chunks);
        let mut run = room_for_run(self.alloc, room)?;
        read_named!(
            self,
            name,
            CHUNK_LEN as u64 * place.first,
            part_of_feed(place, room, run.as_mut_slice(), name)
        )
    }
}

/// Room for a part of this many chunks, or for a run of it.
pub(crate) fn room_for_run(alloc: Global, chunks: u64) -> Result<Vec<u8>, AllocError>
    requires { (e : ℕ) × (chunks ≡ 2 ^ e) }
    ensures power { IfOk result (λ buffer. (e : ℕ) × (vec_len buffer ≡ 1024 * 2 ^ e)) }
    ensures within { IfOk result (λ buffer. vec_len buffer ≤ 1024 * chunks) }
{
    part_buffer(alloc, chunks.min(RUN))
}

// The part of what a feed gives, in this many chunks or in all.
fn part_of_feed<'n, F: Feed>(
    place: Place,
    room: u64,
    run: &mut [u8],
    name: &'n str,
    feed: &mut F,
) -> Result<PartValue, Fault<'n>>
    requires room { IsRoom place.first place.chunks room }
    requires run { (e : ℕ) × (length run.old ≡ 1024 * 2 ^ e) }
    requires within { length run.old ≤ 1024 * room }
    ensures part { IfSome (F.remaining feed.old) (λ bytes.
        MakesPart place.first name.entry.now (Some (first_chunks place.chunks bytes)) result) }
    ensures counted { F.failure_count feed.new
        ≡ count_after (F.failure_count feed.old) (failed true (Some []) result).input }
    ensures left { OnOk result (IfSome (F.remaining feed.old)
        (λ bytes. F.remaining feed.new ≡ Some (behind_chunks place.chunks bytes))) }
    ensures memory { IsErrOf result Fault.OutOfMemory → ⊥ }
{
    let bytes = chunk_bytes(place.chunks);
    match part_of(Mode::Hash, place.first, room, bytes, feed, run) {
        Ok(Some(part)) => Ok(part),
        Ok(None) => Err(Fault::NoBytes(name)),
        Err(fault) => Err(unmade(fault, place.first.saturating_add(room), name)),
    }
}

/// The part that is wanted, whose bytes a feed gives next: `None` if there are none and its first chunk is not 0.
pub(crate) fn next_part<'n, F: Feed>(
    wanted: Wanted,
    run: &mut [u8],
    name: &'n str,
    feed: &mut F,
) -> Result<Option<PartValue>, Fault<'n>>
    requires run { (e : ℕ) × (length run.old ≡ 1024 * 2 ^ e) }
    requires room { (e : ℕ) × (wanted.room ≡ 2 ^ e) }
    requires within { length run.old ≤ 1024 * wanted.room }
    requires aligned { wanted.first % wanted.room ≡ 0 }
    ensures part { IfSome (up_to wanted.bytes (F.remaining feed.old))
        (λ x. TakesPart wanted.first wanted.room name.entry.now x result) }
    ensures first { IfOk result (λ found. IfSome found (λ part. part.first_chunk ≡ wanted.first)) }
    ensures left { OnOk result (LeavesBehind wanted.bytes (F.remaining feed.old) (F.remaining feed.new)) }
    ensures gave { Gives (F.remaining feed.old) (F.remaining feed.new) }
    ensures counted { F.failure_count feed.new
        ≡ count_after (F.failure_count feed.old) (failed true (Some []) result).input }
    ensures memory { IsErrOf result Fault.OutOfMemory → ⊥ }
{
    part_of(
        Mode::Hash,
        wanted.first,
        wanted.room,
        wanted.bytes,
        feed,
        run,
    )
    .map_err(|fault| Fault::of_source(fault, name))
}

// The fault of a part that was not made, with room up to the chunk `end`. If that is the end of the longest
// message, what is too long for the part is too long for any message.
fn unmade(fault: SourceFault, end: u64, name: &str) -> Fault<'_>
    ensures { result ≡ spec.unmade fault end name.entry }
{
    match fault {
        SourceFault::Read => Fault::CannotRead(name),
        SourceFault::TooLong if end < MOST_CHUNKS => Fault::MoreThanPart(name),
        SourceFault::TooLong => Fault::TooLong(name),
    }
}

/// The length of this many chunks in bytes, if it fits a `u64`: what is longer is too long.
pub(crate) fn chunk_bytes(chunks: Option<u64>) -> Option<u64>
    ensures { MatchOption chunks (result ≡ None) (λ n. SomeIff result (1024 * n < 2 ^ 64) (1024 * n)) }
{
    (CHUNK_LEN as u64).checked_mul(chunks?)
}

// The power of two of chunks for which a part from this chunk on has room.
fn room_from(first: u64, chunks: Option<u64>) -> u64
    requires { IsPlace first chunks }
    ensures { IsRoom first chunks result }
{
    match chunks {
        Some(chunks) => chunks.next_power_of_two(),
        None => 1 << first.trailing_zeros().min(54),
    }
}

impl<'i, 't, 'o, L: Feed, T: Tree, W: Sink> Session<'i, 't, 'o, L, T, W> {
    /// Prints the number of the first chunk, of 1,024 bytes, of each part of a file, one per line. Each part
    /// but the last has `parts.chunks` chunks; an empty file has one part. Answers 0; `-` is a file's name
    /// here. The file is not asked for its size: it is opened at a few positions, and a byte is read there.
    /// Nothing is written before that is done. The faults are `CannotRead`, `CannotWrite` and `OutOfMemory`.
    pub fn print_starts<'n>(&mut self, parts: PartLength, name: &'n str) -> Result<u8, Fault<'n>>
        ensures run { DoesRun (λ bytes files. StartsRuns parts.chunks name.entry.now files) (λ notes. notes ≡ [])
            result (⟦<Self as Streams>⟧.seen self.old) (⟦<Self as Streams>⟧.seen self.new) }
        ensures opens { OpensAtMost 55 (⟦<Self as Streams>⟧.seen self.old)
            (⟦<Self as Streams>⟧.seen self.new) }
        ensures same { SameStreams self.old self.new }
        ensures memory { IsErrOf result Fault.OutOfMemory → T.wants_memory ≡ true }
    {
        let count = part_count(parts.chunks, name, self.tree)?;
        write_starts(parts.chunks, count, self.out)?;
        Ok(0)
    }
}

// How many parts of this many chunks the file has. A part begins where the file has a byte, and no part
// begins after a place without one, so the last is found by bisection.
fn part_count<'n, T: Tree>(chunks: u64, name: &'n str, tree: &mut T) -> Result<u64, Fault<'n>>
    requires { IsPartLength chunks }
    ensures count { IfSome (T.files tree.old)
        (λ files. CountsParts chunks name.entry.now (files name.entry.now) result) }
    ensures fits { IfOk result (λ count. chunks * count < 2 ^ 64) }
    ensures counted { IfSome (T.files tree.old) (λ files. T.failure_count tree.new
        ≡ count_after (T.failure_count tree.old) (failed false (files name.entry.now) result).files) }
    ensures opens { T.opens tree.new ≤ T.opens tree.old + 55 }
    ensures memory { IsErrOf result Fault.OutOfMemory → T.wants_memory ≡ true }
{
    let mut least = 0;
    let mut most = (MOST_CHUNKS - 1) / chunks + 1;
    'halves: while least < most {
        let middle = least + (most - least) / 2;
        if has_byte(name, CHUNK_LEN as u64 * (chunks * middle), tree)? {
            least = middle + 1;
        } else {
            most = middle;
        }
    }
    Ok(least.max(1))
}

/// Whether the file has a byte at a position.
pub(crate) fn has_byte<'n, T: Tree>(
    name: &'n str,
    position: u64,
    tree: &mut T,
) -> Result<bool, Fault<'n>>
    ensures byte { IfSome (T.files tree.old)
        (λ files. TellsByte name.entry.now position (files name.entry.now) result) }
    ensures counted { IfSome (T.files tree.old) (λ files. T.failure_count tree.new
        ≡ count_after (T.failure_count tree.old) (failed false (files name.entry.now) result).files) }
    ensures kept { T.files tree.new ≡ T.files tree.old }
    ensures opens { T.opens tree.new ≤ T.opens tree.old + 1 }
    ensures memory { IsErrOf result Fault.OutOfMemory → T.wants_memory ≡ true }
{
    let mut feed = open_file(name, position, tree)?;
    let answer = gives_byte(name, &mut feed);
    tree.close(feed);
    answer
}

/// Whether the feed with this name gives one more byte.
pub(crate) fn gives_byte<'n, F: Feed>(name: &'n str, feed: &mut F) -> Result<bool, Fault<'n>>
    ensures byte { IfSome (F.remaining feed.old) (λ bytes. TellsByte name.entry.now 0 (Some bytes) result) }
    ensures counted { F.failure_count feed.new
        ≡ count_after (F.failure_count feed.old) (failed true (Some []) result).input }
    ensures memory { IsErrOf result Fault.OutOfMemory → ⊥ }
{
    match feed.read(&mut [0]) {
        Ok(count) => Ok(count > 0),
        Err(ReadFailed) => Err(Fault::CannotRead(name)),
    }
}

// Writes the first chunk of each of this many parts, one per line.
fn write_starts<W: Sink>(chunks: u64, count: u64, out: &mut W) -> Result<(), WriteFailed>
    requires { chunks * count < 2 ^ 64 }
    ensures { Writes result (W.shown out.old) (W.shown out.new) (start_lines chunks count) }
{
    for number in 0..count {
        write_number(out, "", chunks * number, "\n")?;
    }
    Ok(())
}
