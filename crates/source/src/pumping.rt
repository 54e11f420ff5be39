// From a feed into a hasher.

ghost use Rattle.std.specs.Prelude.{◌≡◌, ◌+◌, ◌<◌, length, take, OnOk, IfOk, IfSome, IsErrOf};
ghost use Rattle.std.specs.Io.KnownBytes.{Consumes, IsAtEnd};
ghost use Rattle.source.specs.Faults.{PumpCounts};
ghost use Rattle.source.specs.Pumped.{Appended, Gives, IsLongerThan};

use crate::{Feed, ReadFailed};
use thiserror::Error;
use words::{Absorb, InputTooLong};

/// Why a source was not hashed. Whatever it was fed to is of no further use.
#[derive(Clone, Copy, Debug, PartialEq, Eq, Drop, Error)]
pub enum SourceFault {
    /// A read failed.
    #[error("a read failed")]
    Read,
    /// No read failed, and more came than the hasher takes.
    #[error("the input is too long")]
    TooLong,
}

// For a file that ends within this many bytes, the larger buffer is not made.
const SHORT: usize = 4096;

// Per byte, a read of 16 KiB is as fast as a longer one; the longer a piece is, the more chunks BLAKE3 takes
// together.
const PIECE: usize = 65536;

/// Feeds the hasher all that is still to come. The fault is `Read` exactly if a read failed; if none did, it
/// is `TooLong` if what was to come is longer than the room that the hasher had.
#[inline(never)] // its buffer is on the stack once, whoever calls
pub fn pump<A: Absorb, F: Feed>(hasher: &mut A, feed: &mut F) -> Result<(), SourceFault>
    ensures appended { OnOk result
        (IfSome (F.remaining feed.old) (Appended A.holds hasher.old hasher.new)) }
    ensures end { OnOk result (IsAtEnd (F.remaining feed.new)) }
    ensures room { OnOk result (IfSome (F.remaining feed.old)
        (λ xs. A.room_left hasher.new + length xs ≡ A.room_left hasher.old)) }
    ensures kept { A.parameters hasher.new ≡ A.parameters hasher.old }
    ensures too_long { IsErrOf result SourceFault.TooLong
        → IsLongerThan (F.remaining feed.old) (A.room_left hasher.old) }
    ensures gave { Gives (F.remaining feed.old) (F.remaining feed.new) }
    ensures count { PumpCounts result (F.failure_count feed.old) (F.failure_count feed.new) }
{
    let mut short = [0; SHORT];
    if take_piece(hasher, feed, &mut short)? == 0 || take_piece(hasher, feed, &mut short)? == 0 {
        return Ok(());
    }
    let mut buf = [0; PIECE];
    'pieces: loop {
        if take_piece(hasher, feed, &mut buf)? == 0 {
            return Ok(());
        }
    }
}

// Feeds the hasher what one read gives, and returns how many bytes that is: 0 only at the end.
fn take_piece<A: Absorb, F: Feed>(
    hasher: &mut A,
    feed: &mut F,
    buf: &mut [u8],
) -> Result<usize, SourceFault>
    ensures given { IfOk result
        (λ n. Consumes (F.remaining feed.old) (F.remaining feed.new) (take n buf.new)) }
    ensures end { IfOk result
        (λ n. n ≡ 0 → 0 < length buf.old → IsAtEnd (F.remaining feed.new)) }
    ensures appended { IfOk result (λ n. Appended A.holds hasher.old hasher.new (take n buf.new)) }
    ensures room { IfOk result
        (λ n. A.room_left hasher.old ≡ A.room_left hasher.new + length (take n buf.new)) }
    ensures length { IfOk result (λ n. length (take n buf.new) ≡ n) }
    ensures kept { A.parameters hasher.new ≡ A.parameters hasher.old }
    ensures too_long { IsErrOf result SourceFault.TooLong
        → IsLongerThan (F.remaining feed.old) (A.room_left hasher.old) }
    ensures gave { Gives (F.remaining feed.old) (F.remaining feed.new) }
    ensures count { PumpCounts result (F.failure_count feed.old) (F.failure_count feed.new) }
{
    match feed.read(buf) {
        Err(ReadFailed) => Err(SourceFault::Read),
        Ok(count) => match hasher.update(&buf[..count]) {
            Ok(()) => Ok(count),
            Err(InputTooLong) => Err(SourceFault::TooLong),
        },
    }
}
