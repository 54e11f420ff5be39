// What HMAC and HKDF require of a hash function.

ghost use Rattle.std.specs.Prelude.{◌≡◌, ◌≤◌, ◌+◌, ◌++◌, ℕ, List, [], length};
ghost use Rattle.mac.specs.Numbers.{AreNumbers};

use words::{Absorb, Tag};

/// A hasher for a hash function that takes its input in blocks: what HMAC (RFC 2104) is built on.
///
/// A block has at most 128 bytes. A digest has at least 1 byte, at most 64, and no more than a block. An
/// input of 2^61 - 1 bytes is accepted.
pub trait BlockHash: Absorb {
    // The three numbers below.
    ghost BLOCK: { ℕ };

    ghost OUT: { ℕ };

    ghost LIMIT: { ℕ };

    // The hash function.
    ghost hash_of: { List ℕ → List ℕ };

    /// The number of bytes in a block.
    const BLOCK: usize;

    /// The number of bytes in a digest.
    const OUT: usize;

    /// The number of bytes in the longest input.
    const LIMIT: u128;

    /// A hasher that has taken nothing.
    fn new() -> Self
        ensures empty { Self.holds result [] }
        ensures room { Self.room_left result ≡ LIMIT };

    /// The digest of all that was taken, of `OUT` bytes.
    fn finish(self) -> Tag
        ensures length { length result ≡ OUT }
        ensures digest { (m : List ℕ) → Self.holds self m → result ≡ hash_of m };

    // What holds for the three numbers above.
    ghost numbers: { AreNumbers BLOCK OUT LIMIT };

    // A digest of an input within the limit has OUT bytes.
    ghost digest_length: { (m : List ℕ) → length m ≤ LIMIT → length (hash_of m) ≡ OUT };

    // The longest input has LIMIT bytes, whatever the hasher was made with.
    ghost limit_is: { (s : Self) (m : List ℕ) → Self.holds s m
        → Self.limit (Self.parameters s) ≡ LIMIT };
}

/// The digest of two pieces, one after the other.
pub fn hash_both<H: BlockHash>(first: &[u8], second: &[u8]) -> Tag
    requires { length first.now + length second.now ≤ H.LIMIT }
    ensures length { length result ≡ H.OUT }
    ensures digest { result ≡ H.hash_of (first.now ++ second.now) }
{
    let mut hasher = H::new();
    hasher.update(first).unwrap();
    hasher.update(second).unwrap();
    hasher.finish()
}
