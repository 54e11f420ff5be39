// What the lanes of BLAKE2 and BLAKE3 share: the last bytes of pieces.

ghost use Rattle.std.specs.Prelude.{◌≡◌, ◌<◌, ◌≤◌, ◌+◌, ◌-◌, ◌*◌, ◌/◌, [], ℕ};
ghost use Rattle.std.specs.Prelude.{length, take, drop, slice_index, slice_index_or};
ghost use Rattle.words.specs.Words.{padded, words};
ghost use Rattle.words.specs.inside.Lanes.{lane};

use std::simd::prelude::*;
use words::lanes::message_lanes;
use words::write_at;

// The `len` bytes at `at`, padded with zeros to a block of `N` bytes.
fn padded_tail<const N: usize>(bytes: &[u8], at: usize, len: usize) -> [u8; N]
    requires fits { at + len ≤ length bytes.now }
    requires short { len ≤ N }
    ensures value { result ≡ padded N (take len (drop at bytes.now)) }
    ensures whole { length result ≡ N }
{
    let mut block = [0; N];
    write_at(&mut block, 0, &bytes[at..at + len]);
    block
}

/// The last `len` bytes of each piece, which begin `at` bytes after its start, padded with zeros to a block
/// of `N` bytes.
pub(crate) fn padded_tails<const N: usize, const LANES: usize>(
    bytes: &[u8],
    starts: &[usize; LANES],
    at: usize,
    len: usize,
) -> [[u8; N]; LANES]
    requires fits { (i : ℕ) → i < LANES → slice_index starts.now i + at + len ≤ length bytes.now }
    requires short { len ≤ N }
    ensures value { (i : ℕ) → i < LANES → slice_index_or result i []
        ≡ padded N (take len (drop (slice_index starts.now i + at) bytes.now)) }
    ensures whole { (i : ℕ) → i < LANES → length (slice_index_or result i []) ≡ N }
{
    let mut tails = [[0; N]; LANES];
    'lanes: for i in 0..LANES {
        tails[i] = padded_tail(bytes, starts[i] + at, len);
    }
    tails
}

/// How many blocks of `N` bytes each message has before its last.
#[inline(always)]
pub(crate) fn blocks_before<const N: usize, const LANES: usize>(
    lens: &[usize; LANES],
) -> [usize; LANES]
    requires { 0 < N }
    ensures { (i : ℕ) → i < LANES → slice_index result i ≡ (slice_index lens.now i - 1) / N }
{
    let mut counts = [0; LANES];
    'lanes: for i in 0..LANES {
        counts[i] = lens[i].saturating_sub(1) / N;
    }
    counts
}

/// The last block of each message, padded with zeros. Before it are `counts` blocks.
#[inline(always)]
pub(crate) fn last_blocks<const N: usize, const LANES: usize>(
    bytes: &[u8],
    starts: &[usize; LANES],
    lens: &[usize; LANES],
    counts: &[usize; LANES],
) -> [[u8; N]; LANES]
    requires fits { (i : ℕ) → i < LANES → slice_index starts.now i + slice_index lens.now i ≤ length bytes.now }
    requires below { (i : ℕ) → i < LANES → N * slice_index counts.now i ≤ slice_index lens.now i }
    requires short { (i : ℕ) → i < LANES → slice_index lens.now i ≤ N * slice_index counts.now i + N }
    ensures value { (i : ℕ) → i < LANES → let done = N * slice_index counts.now i in slice_index_or result i []
        ≡ padded N (take (slice_index lens.now i - done) (drop (slice_index starts.now i + done) bytes.now)) }
    ensures whole { (i : ℕ) → i < LANES → length (slice_index_or result i []) ≡ N }
{
    let mut blocks = [[0; N]; LANES];
    'lanes: for i in 0..LANES {
        let done = N * counts[i];
        blocks[i] = padded_tail(bytes, starts[i] + done, lens[i] - done);
    }
    blocks
}

/// The words of eight blocks, by lanes.
#[inline(always)]
pub(crate) fn block_words(blocks: &[[u8; 64]; 8]) -> [u32x8; 16]
    requires { (i : ℕ) → i < 8 → length (slice_index_or blocks.now i []) ≡ 64 }
    ensures { (i : ℕ) → i < 8 → lane i result ≡ words 4 16 (slice_index_or blocks.now i []) }
{
    message_lanes(
        blocks.as_flattened(),
        &[0, 64, 128, 192, 256, 320, 384, 448],
        0,
    )
}

/// The words of the last blocks of eight pieces, by lanes; each of these blocks has `len` bytes of its piece.
#[inline(always)]
pub(crate) fn last_lanes(bytes: &[u8], starts: &[usize; 8], at: usize, len: usize) -> [u32x8; 16]
    requires fits { (i : ℕ) → i < 8 → slice_index starts.now i + at + len ≤ length bytes.now }
    requires short { len ≤ 64 }
    ensures { (i : ℕ) → i < 8 → lane i result
        ≡ words 4 16 (padded 64 (take len (drop (slice_index starts.now i + at) bytes.now))) }
{
    if len == 64 {
        return message_lanes(bytes, starts, at);
    }
    block_words(&padded_tails::<64, 8>(bytes, starts, at, len))
}
