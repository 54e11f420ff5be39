// BLAKE3 of a feed, in parts that are hashed apart and joined.

ghost use Rattle.std.specs.Prelude.{◌≡◌, ℕ, ◌*◌, ◌-◌, ◌/◌, ◌%◌, ◌^◌, ◌<◌, ◌≤◌, length, take, min};
ghost use Rattle.std.specs.Prelude.{OnOk, IfOk, IfSome, IsErrOf, MatchOption};
ghost use Rattle.std.specs.Io.KnownBytes.{Consumes, IsAtEnd, prepend_known};
ghost use Rattle.b3.specs.Modes.{root_of};
ghost use Rattle.b3.specs.Parts.{mode_parameters};
ghost use Rattle.b3.specs.Values.{IsValueOf};
ghost use Rattle.b3.specs.inside.Output.{output_root, output_position};
ghost use Rattle.source.specs.Faults.{PumpCounts};
ghost use Rattle.source.specs.Pumped.{Gives, IsLongerThan, LeavesBehind, up_to};
ghost use Rattle.source.specs.inside.Front.{Passes, front_failures, front_remaining};
ghost use Rattle.source.specs.inside.Parts.{IsFilled, IsTaken};

use crate::front::Front;
use crate::{Feed, ReadFailed, SourceFault};
use b3::{CHUNK_LEN, MOST_CHUNKS, Misplaced, Mode, Output, Part, PartValue};

/// The BLAKE3 output of all that is still to come, at position 0. It is read in runs that fill `run`, except
/// the last; each run is hashed as a part, and the parts are joined. The fault is `Read` exactly if a read
/// failed; if none did, it is `TooLong` if more than 2^64 - 1 bytes were to come.
pub fn output_in_parts<F: Feed>(
    mode: Mode,
    feed: &mut F,
    run: &mut [u8],
) -> Result<Output, SourceFault>
    requires { (e : ℕ) × (length run.old ≡ 1024 * 2 ^ e) }
    ensures root { IfOk result (λ output. IfSome (F.remaining feed.old)
        (λ xs. output_root output ≡ root_of (mode_parameters mode) xs)) }
    ensures position { IfOk result (λ output. output_position output ≡ 0) }
    ensures end { OnOk result (IsAtEnd (F.remaining feed.new)) }
    ensures fits { OnOk result (IfSome (F.remaining feed.old) (λ xs. length xs ≤ 2 ^ 64 - 1)) }
    ensures too_long { IsErrOf result SourceFault.TooLong
        → IsLongerThan (F.remaining feed.old) (2 ^ 64 - 1) }
    ensures gave { Gives (F.remaining feed.old) (F.remaining feed.new) }
    ensures count { PumpCounts result (F.failure_count feed.old) (F.failure_count feed.new) }
{
    let mut front = Front {
        inner: feed,
        left: None,
    };
    let ahead = fill(&mut front, run)?;
    let (part, _ahead) = take_part(mode, 0, MOST_CHUNKS, &mut front, run, ahead)?;
    Ok(part.root().unwrap())
}

/// The part of all that is still to come, or of its first `most` bytes, as bytes from the chunk `first` on,
/// in at most `chunks` chunks; or `None` exactly if there are no such bytes and `first` is not 0, since no
/// part can be there. It is read in runs that fill `run`, except the last, and no byte after `most` is read.
/// The fault is `Read` exactly if a read failed; if none did, it is `TooLong` if these are more than `chunks`
/// chunks, or end after 2^64 - 1 bytes.
pub fn part_of<F: Feed>(
    mode: Mode,
    first: u64,
    chunks: u64,
    most: Option<u64>,
    feed: &mut F,
    run: &mut [u8],
) -> Result<Option<PartValue>, SourceFault>
    requires run { (e : ℕ) × (length run.old ≡ 1024 * 2 ^ e) }
    requires chunks { (e : ℕ) × (chunks ≡ 2 ^ e) }
    requires room { length run.old ≤ 1024 * chunks }
    requires aligned { first % chunks ≡ 0 }
    ensures part { IfOk result (λ found. MatchOption found
        ((0 < first) × IsAtEnd (up_to most (F.remaining feed.old)))
        (λ part. (part.first_chunk ≡ first)
        × IfSome (up_to most (F.remaining feed.old)) (λ xs. IsValueOf (mode_parameters mode) part xs))) }
    ensures fits { OnOk result (IfSome (up_to most (F.remaining feed.old)) (λ xs. length xs ≤ 1024 * chunks)) }
    ensures end { OnOk result (LeavesBehind most (F.remaining feed.old) (F.remaining feed.new)) }
    ensures too_long { IsErrOf result SourceFault.TooLong
        → IsLongerThan (up_to most (F.remaining feed.old)) (min (1024 * chunks) (2 ^ 64 - 1 - 1024 * first)) }
    ensures gave { Gives (F.remaining feed.old) (F.remaining feed.new) }
    ensures count { PumpCounts result (F.failure_count feed.old) (F.failure_count feed.new) }
{
    let mut front = Front {
        inner: feed,
        left: most,
    };
    part_of_front(mode, first, chunks, &mut front, run)
}

// Like `part_of`, for the front of a feed.
fn part_of_front<F: Feed>(
    mode: Mode,
    first: u64,
    chunks: u64,
    feed: &mut Front<'_, F>,
    run: &mut [u8],
) -> Result<Option<PartValue>, SourceFault>
    requires run { (e : ℕ) × (length run.old ≡ 1024 * 2 ^ e) }
    requires chunks { (e : ℕ) × (chunks ≡ 2 ^ e) }
    requires room { length run.old ≤ 1024 * chunks }
    requires aligned { first % chunks ≡ 0 }
    ensures part { IfOk result (λ found. MatchOption found
        ((0 < first) × IsAtEnd (front_remaining F.remaining feed.old))
        (λ part. (part.first_chunk ≡ first)
        × IfSome (front_remaining F.remaining feed.old) (λ xs. IsValueOf (mode_parameters mode) part xs))) }
    ensures fits { OnOk result (IfSome (front_remaining F.remaining feed.old) (λ xs. length xs ≤ 1024 * chunks)) }
    ensures end { OnOk result (IsAtEnd (front_remaining F.remaining feed.new)) }
    ensures too_long { IsErrOf result SourceFault.TooLong → IsLongerThan (front_remaining F.remaining feed.old)
        (min (1024 * chunks) (2 ^ 64 - 1 - 1024 * first)) }
    ensures passed { Passes F.remaining feed.old feed.new }
    ensures count { PumpCounts result (front_failures F.failure_count feed.old)
        (front_failures F.failure_count feed.new) }
{
    let ahead = fill(feed, run)?;
    if ahead == 0 && first > 0 {
        return Ok(None);
    }
    let (part, ahead) = take_part(mode, first, chunks, feed, run, ahead)?;
    if ahead > 0 {
        return Err(SourceFault::TooLong);
    }
    Ok(Some(part.told()))
}

// Reads until `run` is full or the feed is at its end, and returns how many bytes that is.
fn fill<F: Feed>(feed: &mut Front<'_, F>, run: &mut [u8]) -> Result<usize, SourceFault>
    ensures filled { IfOk result (λ n. IsFilled (front_remaining F.remaining) feed.old feed.new run.new n) }
    ensures length { length run.new ≡ length run.old }
    ensures fault { IsErrOf result SourceFault.TooLong → ⊥ }
    ensures passed { Passes F.remaining feed.old feed.new }
    ensures count { PumpCounts result (front_failures F.failure_count feed.old)
        (front_failures F.failure_count feed.new) }
{
    let mut n = 0;
    'reads: while n < run.len() {
        match feed.read(&mut run[n..]) {
            Ok(0) => return Ok(n),
            Ok(count) => n += count,
            Err(ReadFailed) => return Err(SourceFault::Read),
        }
    }
    Ok(n)
}

// The part from a chunk on of at most `chunks` chunks: its first `ahead` bytes were already read into `run`,
// and the others come from the feed. Also, how many of the bytes after it were then read into `run`.
fn take_part<F: Feed>(
    mode: Mode,
    first: u64,
    chunks: u64,
    feed: &mut Front<'_, F>,
    run: &mut [u8],
    ahead: usize,
) -> Result<(Part, usize), SourceFault>
    requires run { (e : ℕ) × (length run.old ≡ 1024 * 2 ^ e) }
    requires chunks { (e : ℕ) × (chunks ≡ 2 ^ e) }
    requires room { length run.old ≤ 1024 * chunks }
    requires aligned { first % chunks ≡ 0 }
    requires bound { ahead ≤ length run.old }
    requires some { ahead ≡ 0 → first ≡ 0 }
    requires end { ahead < length run.old → IsAtEnd (front_remaining F.remaining feed.old) }
    ensures taken { IfOk result (λ r. IsTaken (front_remaining F.remaining) mode first chunks
        (prepend_known (take ahead run.old) (front_remaining F.remaining feed.old)) feed.new run.new r.0 r.1) }
    ensures length { length run.new ≡ length run.old }
    ensures too_long { IsErrOf result SourceFault.TooLong
        → IsLongerThan (prepend_known (take ahead run.old) (front_remaining F.remaining feed.old))
        (2 ^ 64 - 1 - 1024 * first) }
    ensures passed { Passes F.remaining feed.old feed.new }
    ensures count { PumpCounts result (front_failures F.failure_count feed.old)
        (front_failures F.failure_count feed.new) }
{
    if chunks <= (run.len() / CHUNK_LEN) as u64 {
        return take_run(mode, first, feed, run, ahead);
    }
    let half = chunks / 2;
    let (left, ahead) = take_part(mode, first, half, feed, run, ahead)?;
    if ahead == 0 {
        return Ok((left, 0));
    }
    let (right, ahead) = take_part(mode, first + half, half, feed, run, ahead)?;
    Ok((Part::join(left, right).unwrap(), ahead))
}

// The part of the one run that was read, and how many bytes of the next one were then read.
fn take_run<F: Feed>(
    mode: Mode,
    first: u64,
    feed: &mut Front<'_, F>,
    run: &mut [u8],
    ahead: usize,
) -> Result<(Part, usize), SourceFault>
    requires run { (e : ℕ) × (length run.old ≡ 1024 * 2 ^ e) × (first % 2 ^ e ≡ 0) }
    requires bound { ahead ≤ length run.old }
    requires some { ahead ≡ 0 → first ≡ 0 }
    requires end { ahead < length run.old → IsAtEnd (front_remaining F.remaining feed.old) }
    ensures taken { IfOk result (λ r. IsTaken (front_remaining F.remaining) mode first (length run.old / 1024)
        (prepend_known (take ahead run.old) (front_remaining F.remaining feed.old)) feed.new run.new r.0 r.1) }
    ensures length { length run.new ≡ length run.old }
    ensures too_long { IsErrOf result SourceFault.TooLong
        → IsLongerThan (prepend_known (take ahead run.old) (front_remaining F.remaining feed.old))
        (2 ^ 64 - 1 - 1024 * first) }
    ensures passed { Passes F.remaining feed.old feed.new }
    ensures count { PumpCounts result (front_failures F.failure_count feed.old)
        (front_failures F.failure_count feed.new) }
{
    match Part::of(mode, first, &run[..ahead]) {
        Err(Misplaced) => Err(SourceFault::TooLong),
        Ok(part) => {
            let next = if ahead < run.len() {
                0
            } else {
                fill(feed, run)?
            };
            Ok((part, next))
        }
    }
}
