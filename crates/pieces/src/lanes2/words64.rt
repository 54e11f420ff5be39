// F of BLAKE2b on four inputs side by side.

ghost use Rattle.std.specs.Prelude.{◌≡◌, ◌<◌, ◌≤◌, ◌+◌, ◌*◌, ◌%◌, [], ◌∷◌, ℕ};
ghost use Rattle.std.specs.Prelude.{bit_xor, slice_index, slice_index_or, take, drop, length};
ghost use Rattle.words.specs.Tables.{iv64};
ghost use Rattle.byteorder.specs.Endian.{little_number};
ghost use Rattle.words.specs.Blake2.{blake2b, compress, working_words};
ghost use Rattle.words.specs.Words.{words};
ghost use Rattle.words.specs.inside.Lanes.{lane, lane4, lane8};

use std::simd::prelude::*;
use words::IV64;
use words::lanes::long::words_of;
use words::lanes::mixing::{folded, twelve_rounds};

// The word that the low halves of the counts change. Their high halves are 0.
#[inline(always)]
fn low_words(t: &[usize; 4]) -> u64x4
    ensures { (i : ℕ) → i < 4 → slice_index result i ≡ bit_xor (slice_index iv64 4) (slice_index t.now i) }
{
    u64x4::from_array([
        IV64[4] ^ t[0] as u64,
        IV64[4] ^ t[1] as u64,
        IV64[4] ^ t[2] as u64,
        IV64[4] ^ t[3] as u64,
    ])
}

#[inline(always)]
#[tactic(auto, unfolding(words::specs::inside::Lanes::lane))]
fn working_lanes(h: [u64x4; 8], t: &[usize; 4], last: bool) -> [u64x4; 16]
    ensures { (i : ℕ) → i < 4 → lane i result ≡ working_words blake2b (lane8 i h) (slice_index t.now i) last }
{
    let marked = if last { !IV64[6] } else { IV64[6] };
    [
        h[0],
        h[1],
        h[2],
        h[3],
        h[4],
        h[5],
        h[6],
        h[7],
        u64x4::splat(IV64[0]),
        u64x4::splat(IV64[1]),
        u64x4::splat(IV64[2]),
        u64x4::splat(IV64[3]),
        low_words(t),
        u64x4::splat(IV64[5]),
        u64x4::splat(marked),
        u64x4::splat(IV64[7]),
    ]
}

/// F in each of four lanes: takes the blocks `m` into the chaining values `h`. `t` are the numbers of input bytes up
/// to and including these blocks, and `last` marks the last ones (RFC 7693, section 3.2).
#[tactic(auto, unfolding(words::specs::Blake2::compress))]
pub(crate) fn next_lanes(h: [u64x4; 8], m: &[u64x4; 16], t: &[usize; 4], last: bool) -> [u64x4; 8]
    ensures { (i : ℕ) → i < 4
        → lane8 i result ≡ compress blake2b (lane8 i h) (lane i m.now) (slice_index t.now i) last }
{
    let v = working_lanes(h, t, last);
    let v = twelve_rounds((), &v, m);
    folded(&h, &v)
}

/// The same words in each lane.
#[inline(always)]
pub(crate) fn same_lanes(h: &[u64; 8]) -> [u64x4; 8]
    ensures { (i : ℕ) → i < 4 → lane8 i result ≡ h.now }
{
    [
        u64x4::splat(h[0]),
        u64x4::splat(h[1]),
        u64x4::splat(h[2]),
        u64x4::splat(h[3]),
        u64x4::splat(h[4]),
        u64x4::splat(h[5]),
        u64x4::splat(h[6]),
        u64x4::splat(h[7]),
    ]
}

#[inline(always)]
fn unpack_low(a: u64x4, b: u64x4) -> u64x4
    ensures { result ≡ slice_index a 0 ∷ slice_index b 0 ∷ slice_index a 2 ∷ slice_index b 2 ∷ [] }
{
    a.shuffle(b, [0, 4, 2, 6])
}

#[inline(always)]
fn unpack_high(a: u64x4, b: u64x4) -> u64x4
    ensures { result ≡ slice_index a 1 ∷ slice_index b 1 ∷ slice_index a 3 ∷ slice_index b 3 ∷ [] }
{
    a.shuffle(b, [1, 5, 3, 7])
}

#[inline(always)]
fn halves_low(a: u64x4, b: u64x4) -> u64x4
    ensures { result ≡ slice_index a 0 ∷ slice_index a 1 ∷ slice_index b 0 ∷ slice_index b 1 ∷ [] }
{
    a.shuffle(b, [0, 1, 4, 5])
}

#[inline(always)]
fn halves_high(a: u64x4, b: u64x4) -> u64x4
    ensures { result ≡ slice_index a 2 ∷ slice_index a 3 ∷ slice_index b 2 ∷ slice_index b 3 ∷ [] }
{
    a.shuffle(b, [2, 3, 6, 7])
}

// Turns rows into columns.
#[inline(always)]
fn transpose(r: [u64x4; 4]) -> [u64x4; 4]
    ensures { result ≡ lane4 0 r ∷ lane4 1 r ∷ lane4 2 r ∷ lane4 3 r ∷ [] }
{
    let [r0, r1, r2, r3] = r;
    let x = unpack_low(r0, r1);
    let y = unpack_high(r0, r1);
    let z = unpack_low(r2, r3);
    let w = unpack_high(r2, r3);
    [
        halves_low(x, z),
        halves_low(y, w),
        halves_high(x, z),
        halves_high(y, w),
    ]
}

// The 32 bytes at `at`.
#[inline(always)]
fn load(bytes: &[u8], at: usize) -> u8x32
    requires { at + 32 ≤ length bytes.now }
    ensures bytes { (n : ℕ) → n < 32 → slice_index result n ≡ slice_index bytes.now (at + n) }
    ensures whole { length result ≡ 32 }
{
    u8x32::from_slice(&bytes[at..at + 32])
}

// Four words of a block, from byte `at` on.
#[inline(always)]
fn row(block: &[u8], at: usize) -> u64x4
    requires { at + 32 ≤ length block.now }
    ensures { (n : ℕ) → n < 4 → slice_index result n ≡ little_number 8 (drop (at + 8 * n) block.now) }
{
    words_of(load(block, at))
}

// The block at `at`.
#[inline(always)]
fn block_at(bytes: &[u8], at: usize) -> &[u8]
    requires { at + 128 ≤ length bytes.now }
    ensures block { result.now ≡ take 128 (drop at bytes.now) }
    ensures whole { length result.now ≡ 128 }
{
    &bytes[at..at + 128]
}

/// The words of four blocks, by lanes: lane i has the block that begins `at` bytes after `starts[i]`.
#[inline(always)]
#[tactic(auto, unfolding(words::specs::inside::Lanes::lane))]
pub(crate) fn message_lanes(bytes: &[u8], starts: &[usize; 4], at: usize) -> [u64x4; 16]
    requires { (i : ℕ) → i < 4 → slice_index starts.now i + at + 128 ≤ length bytes.now }
    ensures { (i : ℕ) → i < 4
        → lane i result ≡ words 8 16 (take 128 (drop (slice_index starts.now i + at) bytes.now)) }
{
    let b0 = block_at(bytes, starts[0] + at);
    let b1 = block_at(bytes, starts[1] + at);
    let b2 = block_at(bytes, starts[2] + at);
    let b3 = block_at(bytes, starts[3] + at);
    let [m0, m1, m2, m3] = transpose([row(b0, 0), row(b1, 0), row(b2, 0), row(b3, 0)]);
    let [m4, m5, m6, m7] = transpose([row(b0, 32), row(b1, 32), row(b2, 32), row(b3, 32)]);
    let [m8, m9, m10, m11] = transpose([row(b0, 64), row(b1, 64), row(b2, 64), row(b3, 64)]);
    let [m12, m13, m14, m15] = transpose([row(b0, 96), row(b1, 96), row(b2, 96), row(b3, 96)]);
    [
        m0, m1, m2, m3, m4, m5, m6, m7, m8, m9, m10, m11, m12, m13, m14, m15,
    ]
}

// Two vectors of four words as eight words.
#[inline(always)]
fn joined(x: u64x4, y: u64x4) -> [u64; 8]
    ensures { result ≡ slice_index x 0 ∷ slice_index x 1 ∷ slice_index x 2 ∷ slice_index x 3
        ∷ slice_index y 0 ∷ slice_index y 1 ∷ slice_index y 2 ∷ slice_index y 3 ∷ [] }
{
    x.shuffle(y, [0, 1, 2, 3, 4, 5, 6, 7]).to_array()
}

/// The words in each lane, as a row.
#[inline(always)]
pub(crate) fn lane_rows(h: [u64x4; 8]) -> [[u64; 8]; 4]
    ensures { (i : ℕ) → i < 4 → slice_index_or result i [] ≡ lane8 i h }
{
    let [a0, a1, a2, a3] = transpose([h[0], h[1], h[2], h[3]]);
    let [b0, b1, b2, b3] = transpose([h[4], h[5], h[6], h[7]]);
    [
        joined(a0, b0),
        joined(a1, b1),
        joined(a2, b2),
        joined(a3, b3),
    ]
}
