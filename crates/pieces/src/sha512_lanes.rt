// The SHA-512 digests of pieces, four side by side.

ghost use Rattle.std.specs.Prelude.{◌≡◌, ◌<◌, ◌≤◌, ◌+◌, ◌*◌, ◌/◌, [], ℕ, length, take, drop};
ghost use Rattle.std.specs.Prelude.{None, Some, MatchResult, slice_index, slice_index_or};
ghost use Rattle.std.specs.Prelude.{◌^◌};
ghost use Rattle.std.specs.Int.{to_be_bytes, w128};
ghost use Rattle.std.proofs.Common.{rules};
ghost use Rattle.sha2.specs.Sha512;
ghost use Rattle.pieces.specs.Pieces.{digests};
ghost use Rattle.pieces.specs.Faults.{piece_fault};

use crate::digests::write_digests;
use crate::fault::Fault;
use crate::lanes2::words64::{lane_rows, same_lanes};
use crate::piece_hash::PieceHash;
use crate::rows::write_rows;
use crate::sha_lanes::final_values;
use sha_blocks::{Value512, digest512};
use std::simd::prelude::*;
use words::{IV64, level};

// The bytes of a hash value.
#[inline(always)]
fn bytes_of(h: [u64; 8]) -> [u8; 64]
    ensures { result ≡ Sha512.digest_bytes h 8 }
{
    Value512 { h }.bytes()
}

// The count of bits that ends the padding of a message of `len` bytes.
#[inline(always)]
fn bit_count(len: usize) -> [u8; 16]
    ensures value { result ≡ to_be_bytes w128 (8 * len) }
    ensures whole { length result ≡ 16 }
{
    (8 * len as u128).to_be_bytes()
}

// Those of four messages.
#[inline(always)]
fn bit_counts(lens: &[usize; 4]) -> [[u8; 16]; 4]
    ensures value { (i : ℕ) → i < 4 → slice_index_or result i [] ≡ to_be_bytes w128 (8 * slice_index lens.now i) }
    ensures whole { (i : ℕ) → i < 4 → length (slice_index_or result i []) ≡ 16 }
{
    let mut counts = [[0; 16]; 4];
    'lanes: for i in 0..4 {
        counts[i] = bit_count(lens[i]);
    }
    counts
}

/// The SHA-512 digests (FIPS 180-4, section 6.4) of the four messages of `lens` bytes that begin at `starts`.
pub fn sha512_rows(bytes: &[u8], starts: &[usize; 4], lens: &[usize; 4]) -> [[u8; 64]; 4]
    requires fits { (i : ℕ) → i < 4 → slice_index starts.now i + slice_index lens.now i ≤ length bytes.now }
    ensures value { (i : ℕ) → i < 4 → slice_index_or result i []
        ≡ Sha512.sha512 (take (slice_index lens.now i) (drop (slice_index starts.now i) bytes.now)) }
    ensures whole { (i : ℕ) → i < 4 → length (slice_index_or result i []) ≡ 64 }
{
    let counts = bit_counts(lens);
    let first = same_lanes(&IV64);
    let values = final_values::<Value512, [u64x4; 8], 4, 128, 256, 16>(
        first, bytes, starts, lens, &counts,
    );
    let [h0, h1, h2, h3] = lane_rows(values);
    [bytes_of(h0), bytes_of(h1), bytes_of(h2), bytes_of(h3)]
}

// SHA-512, four pieces side by side.
struct Lanes512;

impl PieceHash<4, 64> for Lanes512 {
    ghost size = { λ _. 64 };

    ghost digest = { λ _. Sha512.sha512 };

    #[inline(always)]
    fn digest_len(&self) -> usize {
        64
    }

    // Below x86-64-v3, one after the other is faster.
    #[inline(always)]
    fn fewest(&self, _piece_len: usize) -> usize {
        if level() < 3 { usize::MAX } else { 3 }
    }

    fn rows(&self, bytes: &[u8], starts: &[usize; 4], lens: &[usize; 4]) -> [[u8; 64]; 4] {
        sha512_rows(bytes, starts, lens)
    }

    fn one(&self, piece: &[u8]) -> [u8; 64] {
        digest512(piece)
    }

    ghost two_lanes = { Prim.search rules };

    ghost few_lanes = { Prim.search rules };

    ghost small = { Prim.search rules };
}

/// Fills `out` with the SHA-512 digests (FIPS 180-4, section 6.4) of the pieces of `piece_len` bytes that
/// `bytes` is cut into, one after the other. The last piece may be shorter, and an empty input has no pieces.
/// Refuses with `Fault::PieceLength` if `piece_len` is 0, and otherwise with `Fault::OutputLength` if `out`
/// does not have exactly 64 bytes for each piece; nothing is written then.
pub fn sha512(bytes: &[u8], piece_len: usize, out: &mut [u8]) -> Result<(), Fault>
    ensures { MatchResult result
        (λ _. (piece_fault 64 piece_len (length bytes.now) (length out.old) ≡ None)
        × (out.new ≡ digests Sha512.sha512 piece_len bytes.now))
        (λ e. (piece_fault 64 piece_len (length bytes.now) (length out.old) ≡ Some e) × (out.new ≡ out.old)) }
{
    write_digests(&Lanes512, bytes, piece_len, out)
}

/// Fills `out` with the SHA-512 digests (FIPS 180-4, section 6.4) of the messages of `lens` bytes that begin at
/// `starts`, one after the other.
pub fn sha512_messages(bytes: &[u8], starts: &[usize], lens: &[usize], out: &mut [u8])
    requires same { length lens.now ≡ length starts.now }
    requires fits { (i : ℕ) → i < length starts.now
        → slice_index starts.now i + slice_index lens.now i ≤ length bytes.now }
    requires room { length out.old ≡ 64 * length starts.now }
    ensures value { (i : ℕ) → i < length starts.now → take 64 (drop (64 * i) out.new)
        ≡ Sha512.sha512 (take (slice_index lens.now i) (drop (slice_index starts.now i) bytes.now)) }
    ensures length { length out.new ≡ length out.old }
{
    write_rows(&Lanes512, bytes, starts, lens, out);
}
