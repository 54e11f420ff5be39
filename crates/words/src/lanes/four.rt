//! The compression function of BLAKE3 on four inputs side by side, for the few chunks of a short message.

ghost use Rattle.std.specs.Prelude.{◌≡◌, ℕ, ◌<◌, ◌+◌, ◌*◌, ◌/◌, ◌%◌, ◌^◌, slice_index, slice_index_or, [], ◌∷◌};
ghost use Rattle.std.specs.Prelude.{drop, length, take, ◌≤◌};
ghost use Rattle.std.specs.Simd.Lanes.{number_l, chunk};
ghost use Rattle.words.specs.Blake2.{blake2s};
ghost use Rattle.words.specs.Blake3.{working_words3, compress3};
ghost use Rattle.words.specs.Words.{words};
ghost use Rattle.words.specs.inside.Lanes.{lane, lane4, lane8, word_at};

use crate::lanes::mixing::{WordLanes, folded3, seven_rounds};
use crate::lanes::{PARENTS, Turns, block_at, high, load, low};
use crate::levels::level;
use crate::rows::rotated_xor32;
use crate::tables::IV32;
use std::simd::prelude::*;

// The places for four words, from those for eight.
#[inline(always)]
fn half(places: u8x32) -> u8x16
    ensures { result ≡ take 16 places }
{
    places.swizzle([0, 1, 2, 3, 4, 5, 6, 7, 8, 9, 10, 11, 12, 13, 14, 15])
}

// The bytes of four words.
#[inline(always)]
fn bytes_of(x: u32x4) -> u8x16
    ensures { (i j : ℕ) → i < 4 → j < 4 → slice_index result (4 * i + j) ≡ slice_index x i / 256 ^ j % 256 }
{
    x.to_le_bytes()
}

// The words of these bytes.
#[inline(always)]
fn words_of(x: u8x16) -> u32x4
    ensures { (i : ℕ) → i < 4 → slice_index result i ≡ number_l 256 (chunk (4 * i) 4 x) }
{
    u32x4::from_le_bytes(x)
}

impl WordLanes for u32x4 {
    type Turns = Turns;

    ghost variant = { blake2s };

    ghost count = { 4 };

    ghost words = { λ x. x };

    #[inline(always)]
    fn sum(self, y: u32x4) -> u32x4 {
        self + y
    }

    #[inline(always)]
    fn xor(self, y: u32x4) -> u32x4 {
        self ^ y
    }

    #[inline(always)]
    fn turn1(self, y: u32x4, turns: Turns) -> u32x4 {
        if level() < 2 {
            return rotated_xor32(self, y, 16);
        }
        words_of(bytes_of(self.xor(y)).swizzle_dyn_within::<16>(half(turns.by_16)))
    }

    #[inline(always)]
    fn turn2(self, y: u32x4, _turns: Turns) -> u32x4 {
        rotated_xor32(self, y, 12)
    }

    #[inline(always)]
    fn turn3(self, y: u32x4, turns: Turns) -> u32x4 {
        if level() < 2 {
            return rotated_xor32(self, y, 8);
        }
        words_of(bytes_of(self.xor(y)).swizzle_dyn_within::<16>(half(turns.by_8)))
    }

    #[inline(always)]
    fn turn4(self, y: u32x4, _turns: Turns) -> u32x4 {
        rotated_xor32(self, y, 7)
    }
}

// The working words before the first round.
#[inline(always)]
#[tactic(auto, unfolding(crate::specs::inside::Lanes::lane))]
fn working_lanes(h: [u32x4; 8], t: &[u64; 4], b: u32, d: u32) -> [u32x4; 16]
    ensures { (i : ℕ) → i < 4 → lane i result ≡ working_words3 (lane8 i h) (slice_index t.now i) b d }
{
    [
        h[0],
        h[1],
        h[2],
        h[3],
        h[4],
        h[5],
        h[6],
        h[7],
        u32x4::splat(IV32[0]),
        u32x4::splat(IV32[1]),
        u32x4::splat(IV32[2]),
        u32x4::splat(IV32[3]),
        u32x4::from_array([low(t[0]), low(t[1]), low(t[2]), low(t[3])]),
        u32x4::from_array([high(t[0]), high(t[1]), high(t[2]), high(t[3])]),
        u32x4::splat(b),
        u32x4::splat(d),
    ]
}

/// The first eight words of `compress_3` in each of four lanes. `USE` is as for eight lanes.
#[inline(always)]
#[tactic(auto, unfolding(crate::specs::Blake3::compress3))]
pub fn next_lanes<const USE: usize>(
    turns: Turns,
    h: [u32x4; 8],
    m: [u32x4; 16],
    t: &[u64; 4],
    b: u32,
    d: u32,
) -> [u32x4; 8]
    ensures { (i : ℕ) → i < 4 → lane8 i result ≡ take 8 (compress3 (lane8 i h) (lane i m) (slice_index t.now i) b d) }
{
    let v = working_lanes(h, t, b, d);
    let v = seven_rounds::<u32x4, USE>(turns, &v, &m);
    folded3(&v)
}

/// The same words in each lane.
#[inline(always)]
pub fn same_lanes(h: &[u32; 8]) -> [u32x4; 8]
    ensures { (i : ℕ) → i < 4 → lane8 i result ≡ h.now }
{
    each!(u32x4::splat, [0, 1, 2, 3, 4, 5, 6, 7], h)
}

#[inline(always)]
fn unpack_low(a: u32x4, b: u32x4) -> u32x4
    ensures { result ≡ slice_index a 0 ∷ slice_index b 0 ∷ slice_index a 1 ∷ slice_index b 1 ∷ [] }
{
    a.shuffle(b, [0, 4, 1, 5])
}

#[inline(always)]
fn unpack_high(a: u32x4, b: u32x4) -> u32x4
    ensures { result ≡ slice_index a 2 ∷ slice_index b 2 ∷ slice_index a 3 ∷ slice_index b 3 ∷ [] }
{
    a.shuffle(b, [2, 6, 3, 7])
}

#[inline(always)]
fn pairs_low(a: u32x4, b: u32x4) -> u32x4
    ensures { result ≡ slice_index a 0 ∷ slice_index a 1 ∷ slice_index b 0 ∷ slice_index b 1 ∷ [] }
{
    a.shuffle(b, [0, 1, 4, 5])
}

#[inline(always)]
fn pairs_high(a: u32x4, b: u32x4) -> u32x4
    ensures { result ≡ slice_index a 2 ∷ slice_index a 3 ∷ slice_index b 2 ∷ slice_index b 3 ∷ [] }
{
    a.shuffle(b, [2, 3, 6, 7])
}

// Turns rows into columns.
#[inline(always)]
fn transpose(r: [u32x4; 4]) -> [u32x4; 4]
    ensures { result ≡ lane4 0 r ∷ lane4 1 r ∷ lane4 2 r ∷ lane4 3 r ∷ [] }
{
    let [r0, r1, r2, r3] = r;
    let x = unpack_low(r0, r1);
    let y = unpack_high(r0, r1);
    let z = unpack_low(r2, r3);
    let w = unpack_high(r2, r3);
    [
        pairs_low(x, z),
        pairs_high(x, z),
        pairs_low(y, w),
        pairs_high(y, w),
    ]
}

// Four words of a block, from byte `at` on.
#[inline(always)]
pub(crate) fn row(block: &[u8], at: usize) -> u32x4
    requires { at + 16 ≤ length block.now }
    ensures { (n : ℕ) → n < 4 → slice_index result n ≡ word_at block.now (at + 4 * n) }
{
    words_of(load(block, at))
}

/// The words of four blocks, by lanes: lane i has the block that begins `at` bytes after `starts[i]`.
#[inline(always)]
#[tactic(auto, unfolding(crate::specs::inside::Lanes::lane))]
pub fn message_lanes(bytes: &[u8], starts: &[usize; 4], at: usize) -> [u32x4; 16]
    requires { (i : ℕ) → i < 4 → slice_index starts.now i + at + 64 ≤ length bytes.now }
    ensures { (i : ℕ) → i < 4
        → lane i result ≡ words 4 16 (take 64 (drop (slice_index starts.now i + at) bytes.now)) }
{
    let b0 = block_at(bytes, starts[0] + at);
    let b1 = block_at(bytes, starts[1] + at);
    let b2 = block_at(bytes, starts[2] + at);
    let b3 = block_at(bytes, starts[3] + at);
    let [m0, m1, m2, m3] = transpose([row(b0, 0), row(b1, 0), row(b2, 0), row(b3, 0)]);
    let [m4, m5, m6, m7] = transpose([row(b0, 16), row(b1, 16), row(b2, 16), row(b3, 16)]);
    let [m8, m9, m10, m11] = transpose([row(b0, 32), row(b1, 32), row(b2, 32), row(b3, 32)]);
    let [m12, m13, m14, m15] = transpose([row(b0, 48), row(b1, 48), row(b2, 48), row(b3, 48)]);
    [
        m0, m1, m2, m3, m4, m5, m6, m7, m8, m9, m10, m11, m12, m13, m14, m15,
    ]
}

// Two vectors of four words as one of eight.
#[inline(always)]
pub(crate) fn joined(x: u32x4, y: u32x4) -> u32x8
    ensures { result ≡ slice_index x 0 ∷ slice_index x 1 ∷ slice_index x 2 ∷ slice_index x 3
        ∷ slice_index y 0 ∷ slice_index y 1 ∷ slice_index y 2 ∷ slice_index y 3 ∷ [] }
{
    x.shuffle(y, [0, 1, 2, 3, 4, 5, 6, 7])
}

/// Writes the words in each lane into its row.
#[inline(always)]
pub fn lane_rows(h: [u32x4; 8], rows: &mut [[u32; 8]; 8])
    ensures { (i : ℕ) → i < 4 → slice_index_or rows.new i [] ≡ lane8 i h }
{
    let [a0, a1, a2, a3] = transpose([h[0], h[1], h[2], h[3]]);
    let [b0, b1, b2, b3] = transpose([h[4], h[5], h[6], h[7]]);
    *rows = [
        joined(a0, b0).to_array(),
        joined(a1, b1).to_array(),
        joined(a2, b2).to_array(),
        joined(a3, b3).to_array(),
        rows[4],
        rows[5],
        rows[6],
        rows[7],
    ];
}

// The first four of eight words.
#[inline(always)]
fn left(x: u32x8) -> u32x4
    ensures { result ≡ slice_index x 0 ∷ slice_index x 1 ∷ slice_index x 2 ∷ slice_index x 3 ∷ [] }
{
    x.swizzle([0, 1, 2, 3])
}

// The last four of eight words.
#[inline(always)]
fn right(x: u32x8) -> u32x4
    ensures { result ≡ slice_index x 4 ∷ slice_index x 5 ∷ slice_index x 6 ∷ slice_index x 7 ∷ [] }
{
    x.swizzle([4, 5, 6, 7])
}

// The first four of eight lanes.
#[inline(always)]
fn left_values(h: [u32x8; 8]) -> [u32x4; 8]
    ensures { (i : ℕ) → i < 4 → lane8 i result ≡ lane8 i h }
{
    each!(left, [0, 1, 2, 3, 4, 5, 6, 7], h)
}

// The last four of eight lanes.
#[inline(always)]
fn right_values(h: [u32x8; 8]) -> [u32x4; 8]
    ensures { (i : ℕ) → i < 4 → lane8 i result ≡ lane8 (4 + i) h }
{
    each!(right, [0, 1, 2, 3, 4, 5, 6, 7], h)
}

// The first four of eight lanes of message words.
#[inline(always)]
#[tactic(auto, unfolding(crate::specs::inside::Lanes::lane))]
fn left_words(m: [u32x8; 16]) -> [u32x4; 16]
    ensures { (i : ℕ) → i < 4 → lane i result ≡ lane i m }
{
    each!(
        left,
        [0, 1, 2, 3, 4, 5, 6, 7, 8, 9, 10, 11, 12, 13, 14, 15],
        m
    )
}

#[inline(always)]
#[tactic(auto, unfolding(crate::specs::inside::Lanes::lane))]
fn right_words(m: [u32x8; 16]) -> [u32x4; 16]
    ensures { (i : ℕ) → i < 4 → lane i result ≡ lane (4 + i) m }
{
    each!(
        right,
        [0, 1, 2, 3, 4, 5, 6, 7, 8, 9, 10, 11, 12, 13, 14, 15],
        m
    )
}

/// Four lanes followed by four others.
#[inline(always)]
pub fn joined_lanes(l: [u32x4; 8], r: [u32x4; 8]) -> [u32x8; 8]
    ensures left { (i : ℕ) → i < 4 → lane8 i result ≡ lane8 i l }
    ensures right { (i : ℕ) → i < 4 → lane8 (4 + i) result ≡ lane8 i r }
{
    each!(joined, [0, 1, 2, 3, 4, 5, 6, 7], l, r)
}

/// The first eight words of `compress_3` in each of eight lanes: in four of them, and then in the others.
/// This is faster if a vector of eight words takes two registers.
#[inline(always)]
pub(crate) fn next_fours(
    turns: Turns,
    h: [u32x8; 8],
    m: [u32x8; 16],
    t: &[u64; 8],
    b: u32,
    d: u32,
) -> [u32x8; 8]
    ensures { (i : ℕ) → i < 8 → lane8 i result ≡ take 8 (compress3 (lane8 i h) (lane i m) (slice_index t.now i) b d) }
{
    let [t0, t1, t2, t3, t4, t5, t6, t7] = *t;
    let left = next_lanes::<PARENTS>(
        turns,
        left_values(h),
        left_words(m),
        &[t0, t1, t2, t3],
        b,
        d,
    );
    let right = next_lanes::<PARENTS>(
        turns,
        right_values(h),
        right_words(m),
        &[t4, t5, t6, t7],
        b,
        d,
    );
    joined_lanes(left, right)
}
