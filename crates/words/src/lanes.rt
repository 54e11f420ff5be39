// The compression function of BLAKE3 on eight inputs side by side, in vectors of eight words: each input has
// one lane.

ghost use Rattle.std.specs.Prelude.{◌≡◌, ℕ, ◌<◌, ◌+◌, ◌*◌, ◌/◌, ◌%◌, ◌^◌, slice_index, slice_index_or, [], ◌∷◌};
ghost use Rattle.std.specs.Prelude.{take, drop, length, bit_xor, ◌≤◌, ◌++◌};
ghost use Rattle.words.specs.Blake3.{working_words3, compress3};
ghost use Rattle.words.specs.Blake2.{blake2s};
ghost use Rattle.std.specs.Int.{rotate_right, w32};
ghost use Rattle.std.specs.Simd.Lanes.{number_l, chunk};
ghost use Rattle.words.specs.inside.Lanes.{lane, lane8, transposed8, places_16, places_8};
ghost use Rattle.words.specs.inside.Lanes.{word_at};
ghost use Rattle.words.specs.Words.{words};

use crate::lanes::mixing::{WordLanes, folded3, seven_rounds};
use crate::levels::level;
use crate::tables::IV32;
use std::simd::prelude::*;

// f of the words at each of these places in one list or in two.
macro_rules! each {
    ($f:path, [$($k:literal),*], $x:ident) => {
        [$($f($x[$k])),*]
    };
    ($f:path, [$($k:literal),*], $x:ident, $y:ident) => {
        [$($f($x[$k], $y[$k])),*]
    };
}

// f of the words at each of these places in two lists, followed by g of those in two others.
macro_rules! both {
    ([$($k:literal),*], $f:path, $x:ident, $y:ident, $g:path, $v:ident, $w:ident) => {
        [$($f($x[$k], $y[$k])),*, $($g($v[$k], $w[$k])),*]
    };
}

pub mod four;
pub mod long;
pub mod mixing;
pub mod two;

// What `next_lanes` is used for, here and in `four`, and what stands for it in `two`. All uses compute the
// same, but each has its own copy of the code: the function is too large for `inline(always)`, and the
// compiler inlines a copy that has only one caller.

/// The use of `next_lanes` on the blocks of whole chunks.
pub const CHUNKS: usize = 0;

/// Its use on parents, and on any eight inputs.
pub const PARENTS: usize = 1;

/// Its use on the blocks of messages of one chunk, except the last block.
pub const BLOCKS: usize = 2;

/// Its use on the last block of such messages.
pub const LAST_BLOCKS: usize = 3;

/// Where the bytes of eight words come from when the words are rotated by 16 and by 8 bits.
#[derive(Clone, Copy)]
pub struct Turns {
    by_16: u8x32,
    by_8: u8x32,
    ghost sixteen: { by_16 ≡ places_16 },
    ghost eight: { by_8 ≡ places_8 },
}

impl Turns {
    /// The places. Not inlined, so that the compiler does not know them and keeps each rotation as one
    /// shuffle.
    #[inline(never)]
    pub fn new() -> Turns {
        Turns::known()
    }

    /// The same places, known to the compiler, which rotates with what the processor level offers.
    #[inline(always)]
    pub fn known() -> Turns {
        Turns {
            by_16: u8x32::from_array([
                2, 3, 0, 1, 6, 7, 4, 5, 10, 11, 8, 9, 14, 15, 12, 13, 2, 3, 0, 1, 6, 7, 4, 5, 10,
                11, 8, 9, 14, 15, 12, 13,
            ]),
            by_8: u8x32::from_array([
                1, 2, 3, 0, 5, 6, 7, 4, 9, 10, 11, 8, 13, 14, 15, 12, 1, 2, 3, 0, 5, 6, 7, 4, 9,
                10, 11, 8, 13, 14, 15, 12,
            ]),
        }
    }
}

// Each word of x xor y, rotated right.
#[inline(always)]
fn rotated(x: u32x8, y: u32x8, r: u32) -> u32x8
    requires { (0 < r) × (r < 32) }
    ensures { (i : ℕ) → i < 8
        → slice_index result i ≡ rotate_right w32 (bit_xor (slice_index x i) (slice_index y i)) r }
{
    let z = x ^ y;
    (z >> u32x8::splat(r)) | (z << u32x8::splat(32 - r))
}

/// The bytes of eight words.
#[inline(always)]
pub fn bytes_of(x: u32x8) -> u8x32
    ensures { (i j : ℕ) → i < 8 → j < 4 → slice_index result (4 * i + j) ≡ slice_index x i / 256 ^ j % 256 }
{
    x.to_le_bytes()
}

/// The words of these bytes.
#[inline(always)]
pub fn words_of(x: u8x32) -> u32x8
    ensures { (i : ℕ) → i < 8 → slice_index result i ≡ number_l 256 (chunk (4 * i) 4 x) }
{
    u32x8::from_le_bytes(x)
}

impl WordLanes for u32x8 {
    type Turns = Turns;

    ghost variant = { blake2s };

    ghost count = { 8 };

    ghost words = { λ x. x };

    #[inline(always)]
    fn sum(self, y: u32x8) -> u32x8 {
        self + y
    }

    #[inline(always)]
    fn xor(self, y: u32x8) -> u32x8 {
        self ^ y
    }

    #[inline(always)]
    fn turn1(self, y: u32x8, turns: Turns) -> u32x8 {
        if level() < 2 {
            return rotated(self, y, 16);
        }
        words_of(bytes_of(self.xor(y)).swizzle_dyn_within::<16>(turns.by_16))
    }

    #[inline(always)]
    fn turn2(self, y: u32x8, _turns: Turns) -> u32x8 {
        rotated(self, y, 12)
    }

    #[inline(always)]
    fn turn3(self, y: u32x8, turns: Turns) -> u32x8 {
        if level() < 2 {
            return rotated(self, y, 8);
        }
        words_of(bytes_of(self.xor(y)).swizzle_dyn_within::<16>(turns.by_8))
    }

    #[inline(always)]
    fn turn4(self, y: u32x8, _turns: Turns) -> u32x8 {
        rotated(self, y, 7)
    }
}

#[inline(always)]
fn unpack_low(a: u32x8, b: u32x8) -> u32x8
    ensures { result ≡ slice_index a 0 ∷ slice_index b 0 ∷ slice_index a 1 ∷ slice_index b 1 ∷ slice_index a 4
        ∷ slice_index b 4 ∷ slice_index a 5 ∷ slice_index b 5 ∷ [] }
{
    a.shuffle(b, [0, 8, 1, 9, 4, 12, 5, 13])
}

#[inline(always)]
fn unpack_high(a: u32x8, b: u32x8) -> u32x8
    ensures { result ≡ slice_index a 2 ∷ slice_index b 2 ∷ slice_index a 3 ∷ slice_index b 3 ∷ slice_index a 6
        ∷ slice_index b 6 ∷ slice_index a 7 ∷ slice_index b 7 ∷ [] }
{
    a.shuffle(b, [2, 10, 3, 11, 6, 14, 7, 15])
}

#[inline(always)]
fn pairs_low(a: u32x8, b: u32x8) -> u32x8
    ensures { result ≡ slice_index a 0 ∷ slice_index a 1 ∷ slice_index b 0 ∷ slice_index b 1 ∷ slice_index a 4
        ∷ slice_index a 5 ∷ slice_index b 4 ∷ slice_index b 5 ∷ [] }
{
    a.shuffle(b, [0, 1, 8, 9, 4, 5, 12, 13])
}

#[inline(always)]
fn pairs_high(a: u32x8, b: u32x8) -> u32x8
    ensures { result ≡ slice_index a 2 ∷ slice_index a 3 ∷ slice_index b 2 ∷ slice_index b 3 ∷ slice_index a 6
        ∷ slice_index a 7 ∷ slice_index b 6 ∷ slice_index b 7 ∷ [] }
{
    a.shuffle(b, [2, 3, 10, 11, 6, 7, 14, 15])
}

#[inline(always)]
fn halves_low(a: u32x8, b: u32x8) -> u32x8
    ensures { result ≡ slice_index a 0 ∷ slice_index a 1 ∷ slice_index a 2 ∷ slice_index a 3 ∷ slice_index b 0
        ∷ slice_index b 1 ∷ slice_index b 2 ∷ slice_index b 3 ∷ [] }
{
    a.shuffle(b, [0, 1, 2, 3, 8, 9, 10, 11])
}

#[inline(always)]
fn halves_high(a: u32x8, b: u32x8) -> u32x8
    ensures { result ≡ slice_index a 4 ∷ slice_index a 5 ∷ slice_index a 6 ∷ slice_index a 7 ∷ slice_index b 4
        ∷ slice_index b 5 ∷ slice_index b 6 ∷ slice_index b 7 ∷ [] }
{
    a.shuffle(b, [4, 5, 6, 7, 12, 13, 14, 15])
}

// Turns rows into columns.
#[inline(always)]
fn transpose(r: [u32x8; 8]) -> [u32x8; 8]
    ensures { result ≡ transposed8 r }
{
    let [r0, r1, r2, r3, r4, r5, r6, r7] = r;
    let [low04, low15, low26, low37] = quads(r0, r1, r2, r3);
    let [high04, high15, high26, high37] = quads(r4, r5, r6, r7);
    [
        halves_low(low04, high04),
        halves_low(low15, high15),
        halves_low(low26, high26),
        halves_low(low37, high37),
        halves_high(low04, high04),
        halves_high(low15, high15),
        halves_high(low26, high26),
        halves_high(low37, high37),
    ]
}

// The sixteen bytes at `at`.
#[inline(always)]
pub(crate) fn load(bytes: &[u8], at: usize) -> u8x16
    requires { at + 16 ≤ length bytes.now }
    ensures bytes { (n : ℕ) → n < 16 → slice_index result n ≡ slice_index bytes.now (at + n) }
    ensures whole { length result ≡ 16 }
{
    u8x16::from_slice(&bytes[at..at + 16])
}

// Four words of one block and four of another, from byte `at` on.
#[inline(always)]
fn quad(x: &[u8], y: &[u8], at: usize) -> u32x8
    requires first { at + 16 ≤ length x.now }
    requires second { at + 16 ≤ length y.now }
    ensures low { (n : ℕ) → n < 4 → slice_index result n ≡ word_at x.now (at + 4 * n) }
    ensures high { (n : ℕ) → n < 4 → slice_index result (4 + n) ≡ word_at y.now (at + 4 * n) }
    ensures whole { length result ≡ 8 }
{
    four::joined(four::row(x, at), four::row(y, at))
}

// Four message words, from the quads of lanes 0 and 4, 1 and 5, 2 and 6, and 3 and 7.
#[inline(always)]
fn quads(a: u32x8, b: u32x8, c: u32x8, d: u32x8) -> [u32x8; 4]
    ensures { result ≡ (slice_index a 0 ∷ slice_index b 0 ∷ slice_index c 0 ∷ slice_index d 0 ∷ slice_index a 4
        ∷ slice_index b 4 ∷ slice_index c 4 ∷ slice_index d 4 ∷ []) ∷
        (slice_index a 1 ∷ slice_index b 1 ∷ slice_index c 1 ∷ slice_index d 1 ∷ slice_index a 5 ∷ slice_index b 5
        ∷ slice_index c 5 ∷ slice_index d 5 ∷ []) ∷
        (slice_index a 2 ∷ slice_index b 2 ∷ slice_index c 2 ∷ slice_index d 2 ∷ slice_index a 6 ∷ slice_index b 6
        ∷ slice_index c 6 ∷ slice_index d 6 ∷ []) ∷
        (slice_index a 3 ∷ slice_index b 3 ∷ slice_index c 3 ∷ slice_index d 3 ∷ slice_index a 7 ∷ slice_index b 7
        ∷ slice_index c 7 ∷ slice_index d 7 ∷ []) ∷ [] }
{
    let x = unpack_low(a, b);
    let y = unpack_high(a, b);
    let z = unpack_low(c, d);
    let w = unpack_high(c, d);
    [
        pairs_low(x, z),
        pairs_high(x, z),
        pairs_low(y, w),
        pairs_high(y, w),
    ]
}

// The block at `at`.
#[inline(always)]
pub(crate) fn block_at(bytes: &[u8], at: usize) -> &[u8]
    requires { at + 64 ≤ length bytes.now }
    ensures block { result.now ≡ take 64 (drop at bytes.now) }
    ensures whole { length result.now ≡ 64 }
{
    &bytes[at..at + 64]
}

// Four message words of eight blocks, from byte `at` on; each quad takes two of the blocks.
macro_rules! quads_at {
    ($at:literal, $($low:ident, $high:ident);*) => {
        quads($(quad($low, $high, $at)),*)
    };
}

/// The words of eight blocks, by lanes: lane i has the block that begins `at` bytes after `starts[i]`.
#[inline(always)]
#[tactic(auto, unfolding(crate::specs::inside::Lanes::lane))]
pub fn message_lanes(bytes: &[u8], starts: &[usize; 8], at: usize) -> [u32x8; 16]
    requires { (i : ℕ) → i < 8 → slice_index starts.now i + at + 64 ≤ length bytes.now }
    ensures { (i : ℕ) → i < 8 → lane i result ≡ words 4 16 (take 64 (drop (slice_index starts.now i + at) bytes.now)) }
{
    let b0 = block_at(bytes, starts[0] + at);
    let b1 = block_at(bytes, starts[1] + at);
    let b2 = block_at(bytes, starts[2] + at);
    let b3 = block_at(bytes, starts[3] + at);
    let b4 = block_at(bytes, starts[4] + at);
    let b5 = block_at(bytes, starts[5] + at);
    let b6 = block_at(bytes, starts[6] + at);
    let b7 = block_at(bytes, starts[7] + at);
    let [m0, m1, m2, m3] = quads_at!(0, b0, b4; b1, b5; b2, b6; b3, b7);
    let [m4, m5, m6, m7] = quads_at!(16, b0, b4; b1, b5; b2, b6; b3, b7);
    let [m8, m9, m10, m11] = quads_at!(32, b0, b4; b1, b5; b2, b6; b3, b7);
    let [m12, m13, m14, m15] = quads_at!(48, b0, b4; b1, b5; b2, b6; b3, b7);
    [
        m0, m1, m2, m3, m4, m5, m6, m7, m8, m9, m10, m11, m12, m13, m14, m15,
    ]
}

// A row of eight words.
#[inline(always)]
fn row(r: [u32; 8]) -> u32x8
    ensures words { result ≡ r }
    ensures whole { length r ≡ 8 }
{
    u32x8::from_array(r)
}

// The first half of a row of sixteen words.
#[inline(always)]
fn first_half(r: [u32; 16]) -> u32x8
    ensures words { result ≡ slice_index r 0 ∷ slice_index r 1 ∷ slice_index r 2 ∷ slice_index r 3 ∷ slice_index r 4
        ∷ slice_index r 5 ∷ slice_index r 6 ∷ slice_index r 7 ∷ [] }
    ensures whole { length r ≡ 16 }
{
    u32x8::from_array([r[0], r[1], r[2], r[3], r[4], r[5], r[6], r[7]])
}

// The second half of a row of sixteen words.
#[inline(always)]
fn second_half(r: [u32; 16]) -> u32x8
    ensures { result ≡ slice_index r 8 ∷ slice_index r 9 ∷ slice_index r 10 ∷ slice_index r 11 ∷ slice_index r 12
        ∷ slice_index r 13 ∷ slice_index r 14 ∷ slice_index r 15 ∷ [] }
{
    u32x8::from_array([r[8], r[9], r[10], r[11], r[12], r[13], r[14], r[15]])
}

// The lanes of eight rows.
#[inline(always)]
fn value_lanes(h: &[[u32; 8]; 8]) -> [u32x8; 8]
    ensures { (i : ℕ) → i < 8 → lane8 i result ≡ slice_index_or h.now i [] }
{
    transpose(each!(row, [0, 1, 2, 3, 4, 5, 6, 7], h))
}

// The lanes of rows of sixteen words.
#[inline(always)]
#[tactic(auto, unfolding(crate::specs::inside::Lanes::lane))]
fn row_lanes(m: &[[u32; 16]; 8]) -> [u32x8; 16]
    ensures { (i : ℕ) → i < 8 → lane i result ≡ slice_index_or m.now i [] }
{
    let first = transpose(each!(first_half, [0, 1, 2, 3, 4, 5, 6, 7], m));
    let second = transpose(each!(second_half, [0, 1, 2, 3, 4, 5, 6, 7], m));
    let [m0, m1, m2, m3, m4, m5, m6, m7] = first;
    let [m8, m9, m10, m11, m12, m13, m14, m15] = second;
    [
        m0, m1, m2, m3, m4, m5, m6, m7, m8, m9, m10, m11, m12, m13, m14, m15,
    ]
}

#[inline(always)]
pub(crate) fn low(x: u64) -> u32
    ensures { result ≡ x % 2 ^ 32 }
{
    (x % 0x1_0000_0000) as u32
}

#[inline(always)]
pub(crate) fn high(x: u64) -> u32
    ensures { result ≡ x / 2 ^ 32 }
{
    (x >> 32) as u32
}

// The working words before the first round.
#[inline(always)]
#[tactic(auto, unfolding(crate::specs::inside::Lanes::lane))]
fn working_lanes(h: [u32x8; 8], t: &[u64; 8], b: u32, d: u32) -> [u32x8; 16]
    ensures { (i : ℕ) → i < 8 → lane i result ≡ working_words3 (lane8 i h) (slice_index t.now i) b d }
{
    [
        h[0],
        h[1],
        h[2],
        h[3],
        h[4],
        h[5],
        h[6],
        h[7],
        u32x8::splat(IV32[0]),
        u32x8::splat(IV32[1]),
        u32x8::splat(IV32[2]),
        u32x8::splat(IV32[3]),
        u32x8::from_array(each!(low, [0, 1, 2, 3, 4, 5, 6, 7], t)),
        u32x8::from_array(each!(high, [0, 1, 2, 3, 4, 5, 6, 7], t)),
        u32x8::splat(b),
        u32x8::splat(d),
    ]
}

/// The first eight words of `compress_3` in each of eight lanes. `USE` is one of the constants above.
#[inline(always)]
#[tactic(auto, unfolding(crate::specs::Blake3::compress3))]
pub fn next_lanes<const USE: usize>(
    turns: Turns,
    h: [u32x8; 8],
    m: [u32x8; 16],
    t: &[u64; 8],
    b: u32,
    d: u32,
) -> [u32x8; 8]
    ensures { (i : ℕ) → i < 8 → lane8 i result ≡ take 8 (compress3 (lane8 i h) (lane i m) (slice_index t.now i) b d) }
{
    if level() < 3 {
        return four::next_fours(turns, h, m, t, b, d);
    }
    let v = working_lanes(h, t, b, d);
    let v = seven_rounds::<u32x8, USE>(turns, &v, &m);
    folded3(&v)
}

/// The same words in each lane.
#[inline(always)]
pub fn same_lanes(h: &[u32; 8]) -> [u32x8; 8]
    ensures { (i : ℕ) → i < 8 → lane8 i result ≡ h.now }
{
    each!(u32x8::splat, [0, 1, 2, 3, 4, 5, 6, 7], h)
}

/// The words in each lane, as a row.
#[inline(always)]
pub fn lane_rows(h: [u32x8; 8]) -> [[u32; 8]; 8]
    ensures { (i : ℕ) → i < 8 → slice_index_or result i [] ≡ lane8 i h }
{
    let rows = transpose(h);
    each!(u32x8::to_array, [0, 1, 2, 3, 4, 5, 6, 7], rows)
}

#[inline(always)]
fn even(a: u32x8, b: u32x8) -> u32x8
    ensures { result ≡ slice_index a 0 ∷ slice_index a 2 ∷ slice_index a 4 ∷ slice_index a 6 ∷ slice_index b 0
        ∷ slice_index b 2 ∷ slice_index b 4 ∷ slice_index b 6 ∷ [] }
{
    a.shuffle(b, [0, 2, 4, 6, 8, 10, 12, 14])
}

#[inline(always)]
fn odd(a: u32x8, b: u32x8) -> u32x8
    ensures { result ≡ slice_index a 1 ∷ slice_index a 3 ∷ slice_index a 5 ∷ slice_index a 7 ∷ slice_index b 1
        ∷ slice_index b 3 ∷ slice_index b 5 ∷ slice_index b 7 ∷ [] }
{
    a.shuffle(b, [1, 3, 5, 7, 9, 11, 13, 15])
}

/// The words of neighbours one after the other: the neighbours in `left` in the first four lanes, and those
/// in `right` in the others.
#[inline(always)]
#[tactic(auto, unfolding(crate::specs::inside::Lanes::lane))]
pub fn pair_lanes(left: [u32x8; 8], right: [u32x8; 8]) -> [u32x8; 16]
    ensures left { (i : ℕ) → i < 4 → lane i result ≡ lane8 (2 * i) left ++ lane8 (2 * i + 1) left }
    ensures right { (i : ℕ) → i < 4 → lane (4 + i) result ≡ lane8 (2 * i) right ++ lane8 (2 * i + 1) right }
{
    both!(
        [0, 1, 2, 3, 4, 5, 6, 7],
        even,
        left,
        right,
        odd,
        left,
        right
    )
}

/// The first eight words of `compress_3` on each of eight rows.
pub fn compress_3x8(
    h: &[[u32; 8]; 8],
    m: &[[u32; 16]; 8],
    t: &[u64; 8],
    b: u32,
    d: u32,
) -> [[u32; 8]; 8]
    ensures { (i : ℕ) → i < 8 → slice_index_or result i []
        ≡ take 8 (compress3 (slice_index_or h.now i []) (slice_index_or m.now i []) (slice_index t.now i) b d) }
{
    lane_rows(next_lanes::<PARENTS>(Turns::new(), value_lanes(h), row_lanes(m), t, b, d))
}
