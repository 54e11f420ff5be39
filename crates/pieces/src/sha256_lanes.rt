// The SHA-256 digests of pieces, eight side by side.

ghost use Rattle.std.specs.Prelude.{◌≡◌, ◌<◌, ◌≤◌, ◌+◌, ◌*◌, ◌/◌, ◌%◌, ◌++◌, [], ℕ, List, length, take, drop};
ghost use Rattle.std.specs.Prelude.{None, Some, MatchResult, slice_index, slice_index_or};
ghost use Rattle.std.specs.Prelude.{◌^◌};
ghost use Rattle.std.specs.Int.{to_be_bytes, w64};
ghost use Rattle.std.proofs.Common.{rules};
ghost use Rattle.sha2.specs.Sha256;
ghost use Rattle.pieces.specs.Pieces.{digests};
ghost use Rattle.pieces.specs.Faults.{piece_fault};

use crate::digests::write_digests;
use crate::fault::Fault;
use crate::piece_hash::PieceHash;
use crate::rows::write_rows;
use crate::sha_lanes::final_values;
use sha_blocks::{Value256, digest256};
use std::simd::prelude::*;
use words::IV32;
use words::lanes::{lane_rows, same_lanes};

// The bytes of a hash value.
#[inline(always)]
fn bytes_of(h: [u32; 8]) -> [u8; 32]
    ensures { result ≡ Sha256.digest_bytes h 8 }
{
    Value256 { h }.bytes()
}

// The count of bits that ends the padding of a message of `len` bytes.
#[inline(always)]
fn bit_count(len: usize) -> [u8; 8]
    ensures value { result ≡ to_be_bytes w64 (len * 8 % 2 ^ 64) }
    ensures whole { length result ≡ 8 }
{
    (len as u64).wrapping_mul(8).to_be_bytes()
}

// Those of eight messages.
#[inline(always)]
fn bit_counts(lens: &[usize; 8]) -> [[u8; 8]; 8]
    ensures value { (i : ℕ) → i < 8
        → slice_index_or result i [] ≡ to_be_bytes w64 (slice_index lens.now i * 8 % 2 ^ 64) }
    ensures whole { (i : ℕ) → i < 8 → length (slice_index_or result i []) ≡ 8 }
{
    let mut counts = [[0; 8]; 8];
    'lanes: for i in 0..8 {
        counts[i] = bit_count(lens[i]);
    }
    counts
}

/// The SHA-256 digests (FIPS 180-4, section 6.2) of the eight messages of `lens` bytes that begin at `starts`.
pub fn sha256_rows(bytes: &[u8], starts: &[usize; 8], lens: &[usize; 8]) -> [[u8; 32]; 8]
    requires fits { (i : ℕ) → i < 8 → slice_index starts.now i + slice_index lens.now i ≤ length bytes.now }
    ensures value { (i : ℕ) → i < 8 → slice_index_or result i []
        ≡ Sha256.sha256 (take (slice_index lens.now i) (drop (slice_index starts.now i) bytes.now)) }
    ensures whole { (i : ℕ) → i < 8 → length (slice_index_or result i []) ≡ 32 }
{
    let counts = bit_counts(lens);
    let first = same_lanes(&IV32);
    let values = final_values::<Value256, [u32x8; 8], 8, 64, 128, 8>(
        first, bytes, starts, lens, &counts,
    );
    let [h0, h1, h2, h3, h4, h5, h6, h7] = lane_rows(values);
    [
        bytes_of(h0),
        bytes_of(h1),
        bytes_of(h2),
        bytes_of(h3),
        bytes_of(h4),
        bytes_of(h5),
        bytes_of(h6),
        bytes_of(h7),
    ]
}

// SHA-256, eight pieces side by side.
struct Lanes256;

impl PieceHash<8, 32> for Lanes256 {
    ghost size = { λ _. 32 };

    ghost digest = { λ _. Sha256.sha256 };

    #[inline(always)]
    fn digest_len(&self) -> usize {
        32
    }

    #[inline(always)]
    fn fewest(&self, _piece_len: usize) -> usize {
        5
    }

    fn rows(&self, bytes: &[u8], starts: &[usize; 8], lens: &[usize; 8]) -> [[u8; 32]; 8] {
        sha256_rows(bytes, starts, lens)
    }

    fn one(&self, piece: &[u8]) -> [u8; 32] {
        digest256(piece)
    }

    ghost two_lanes = { Prim.search rules };

    ghost few_lanes = { Prim.search rules };

    ghost small = { Prim.search rules };
}

/// Fills `out` with the SHA-256 digests (FIPS 180-4, section 6.2) of the pieces of `piece_len` bytes that
/// `bytes` is cut into, one after the other. The last piece may be shorter, and an empty input has no pieces.
/// Refuses with `Fault::PieceLength` if `piece_len` is 0, and otherwise with `Fault::OutputLength` if `out`
/// does not have exactly 32 bytes for each piece; nothing is written then.
pub fn sha256(bytes: &[u8], piece_len: usize, out: &mut [u8]) -> Result<(), Fault>
    ensures { MatchResult result
        (λ _. (piece_fault 32 piece_len (length bytes.now) (length out.old) ≡ None)
        × (out.new ≡ digests Sha256.sha256 piece_len bytes.now))
        (λ e. (piece_fault 32 piece_len (length bytes.now) (length out.old) ≡ Some e) × (out.new ≡ out.old)) }
{
    write_digests(&Lanes256, bytes, piece_len, out)
}

/// Fills `out` with the SHA-256 digests (FIPS 180-4, section 6.2) of the messages of `lens` bytes that begin at
/// `starts`, one after the other.
pub fn sha256_messages(bytes: &[u8], starts: &[usize], lens: &[usize], out: &mut [u8])
    requires same { length lens.now ≡ length starts.now }
    requires fits { (i : ℕ) → i < length starts.now
        → slice_index starts.now i + slice_index lens.now i ≤ length bytes.now }
    requires room { length out.old ≡ 32 * length starts.now }
    ensures value { (i : ℕ) → i < length starts.now → take 32 (drop (32 * i) out.new)
        ≡ Sha256.sha256 (take (slice_index lens.now i) (drop (slice_index starts.now i) bytes.now)) }
    ensures length { length out.new ≡ length out.old }
{
    write_rows(&Lanes256, bytes, starts, lens, out);
}
