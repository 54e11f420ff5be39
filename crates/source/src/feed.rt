// Where bytes come from.

ghost use Rattle.std.specs.Prelude.{◌≡◌, ℕ, List, Option};
ghost use Rattle.source.specs.Read.{IsRead};

use thiserror::Error;

/// A read failed.
#[derive(Clone, Copy, Debug, PartialEq, Eq, Drop, Error)]
#[error("a read failed")]
pub struct ReadFailed;

/// Bytes that come piece by piece; any read may fail.
pub trait Feed {
    // How many reads have failed.
    ghost failure_count: { Self → ℕ };

    // The bytes still to come, or `None` if they are not known.
    ghost remaining: { Self → Option (List ℕ) };

    /// Reads the next bytes into the front of `buf` and returns how many they are. If `buf` has room, 0 means
    /// the end. After an `Err` the same bytes are still to come, and the failure is counted.
    fn read(&mut self, buf: &mut [u8]) -> Result<usize, ReadFailed>
        ensures { IsRead result remaining failure_count self.old self.new buf.new };

    /// How many reads have failed, up to `u64::MAX`.
    fn failures(&self) -> u64
        ensures { result ≡ failure_count self.now };
}
