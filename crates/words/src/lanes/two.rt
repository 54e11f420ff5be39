//! The compression function of BLAKE3 on two inputs, in the halves of rows of eight words, for short messages
//! of two chunks, which would leave two of four lanes idle; and on two such pairs.

ghost use Rattle.std.specs.Prelude.{◌≡◌, ℕ, ◌<◌, ◌+◌, ◌*◌, slice_index, slice_index_or, [], ◌∷◌, take, drop, length, ◌≤◌};
ghost use Rattle.words.specs.Blake2.{schedule, blake2s};
ghost use Rattle.words.specs.Blake3.{words_in_order, working_words3, rounds3, compress3};
ghost use Rattle.words.specs.Mix.{round};
ghost use Rattle.words.specs.Tables.{permutation};
ghost use Rattle.words.specs.Words.{words};
ghost use Rattle.words.specs.inside.Halves.{half8, half16, half_message};

use crate::lanes::mixing::{WordLanes, mix};
use crate::lanes::{Turns, block_at, halves_high, halves_low, high, low, quad};
use crate::tables::IV32;
use std::simd::prelude::*;

// The seven rounds, each on the message words in the order of that round.
macro_rules! seven_rounds {
    ($round:ident, $permute:ident, $turns:ident, $v:ident, $m:ident) => {{
        let v = $round($turns, $v, $m);
        let m1 = $permute($m);
        let v = $round($turns, v, m1);
        let m2 = $permute(m1);
        let v = $round($turns, v, m2);
        let m3 = $permute(m2);
        let v = $round($turns, v, m3);
        let m4 = $permute(m3);
        let v = $round($turns, v, m4);
        let m5 = $permute(m4);
        let v = $round($turns, v, m5);
        let m6 = $permute(m5);
        $round($turns, v, m6)
    }};
}

// Each half turned left by one word.
#[inline(always)]
fn turned_by_1(x: u32x8) -> u32x8
    ensures { result ≡ slice_index x 1 ∷ slice_index x 2 ∷ slice_index x 3 ∷ slice_index x 0 ∷ slice_index x 5
        ∷ slice_index x 6 ∷ slice_index x 7 ∷ slice_index x 4 ∷ [] }
{
    x.swizzle([1, 2, 3, 0, 5, 6, 7, 4])
}

#[inline(always)]
fn turned_by_2(x: u32x8) -> u32x8
    ensures { result ≡ slice_index x 2 ∷ slice_index x 3 ∷ slice_index x 0 ∷ slice_index x 1 ∷ slice_index x 6
        ∷ slice_index x 7 ∷ slice_index x 4 ∷ slice_index x 5 ∷ [] }
{
    x.swizzle([2, 3, 0, 1, 6, 7, 4, 5])
}

#[inline(always)]
fn turned_by_3(x: u32x8) -> u32x8
    ensures { result ≡ slice_index x 3 ∷ slice_index x 0 ∷ slice_index x 1 ∷ slice_index x 2 ∷ slice_index x 7
        ∷ slice_index x 4 ∷ slice_index x 5 ∷ slice_index x 6 ∷ [] }
{
    x.swizzle([3, 0, 1, 2, 7, 4, 5, 6])
}

// One round: G down the columns, and then down the diagonals, which are columns of turned rows. The second
// row is not turned: G makes it last, so that turning it would cost time.
#[inline(always)]
fn round_halves(turns: Turns, rows: [u32x8; 4], m: [u32x8; 4]) -> [u32x8; 4]
    ensures { (i : ℕ) → i < 2 → half16 i result ≡ round blake2s (half16 i rows) (half_message i m) (schedule 0) }
{
    let [a, b, c, d] = rows;
    let (a, b, c, d) = mix(turns, (a, b, c, d), m[0], m[1]);
    let turned = (turned_by_3(a), b, turned_by_1(c), turned_by_2(d));
    let (a, b, c, d) = mix(turns, turned, m[2], m[3]);
    [turned_by_1(a), b, turned_by_3(c), turned_by_2(d)]
}

// The message words in the order of the next round, as four rows: seven shuffles, of which the first three
// gather what no single shuffle of two rows can.
#[inline(always)]
fn permuted(x: u32x8, y: u32x8, z: u32x8, w: u32x8) -> [u32x8; 4]
    ensures { (i : ℕ) → i < 2
        → half_message i result ≡ words_in_order (half_message i (x ∷ y ∷ z ∷ w ∷ [])) permutation }
{
    let of_zw = z.shuffle(w, [0, 2, 0, 11, 4, 6, 4, 15]);
    let of_yz = y.shuffle(z, [0, 0, 11, 0, 4, 4, 15, 4]);
    let of_wy = w.shuffle(y, [0, 2, 10, 0, 4, 6, 14, 4]);
    [
        x.shuffle(y, [1, 9, 11, 2, 5, 13, 15, 6]),
        x.shuffle(of_zw, [3, 9, 0, 11, 7, 13, 4, 15]),
        w.shuffle(of_yz, [0, 9, 10, 1, 4, 13, 14, 5]),
        z.shuffle(of_wy, [1, 9, 10, 0, 5, 13, 14, 4]),
    ]
}

// The message words in the order of the next round.
#[inline(always)]
#[tactic(auto, unfolding(crate::specs::inside::Halves::half_message))]
fn permute_halves(m: [u32x8; 4]) -> [u32x8; 4]
    ensures { (i : ℕ) → i < 2 → half_message i result ≡ words_in_order (half_message i m) permutation }
{
    permuted(m[0], m[1], m[2], m[3])
}

// The seven rounds. `USE` is that of `next_lanes`, here and below.
#[inline(always)]
#[tactic(auto, unfolding(crate::specs::Blake3::rounds3, crate::specs::Blake3::permuted_words))]
fn rounds_halves<const USE: usize>(turns: Turns, rows: [u32x8; 4], m: [u32x8; 4]) -> [u32x8; 4]
    ensures { (i : ℕ) → i < 2 → half16 i result ≡ rounds3 (half16 i rows) (half_message i m) 7 }
{
    seven_rounds!(round_halves, permute_halves, turns, rows, m)
}

// The working words before the first round.
#[inline(always)]
#[tactic(auto, unfolding(crate::specs::inside::Halves::half16))]
fn working_halves(h: [u32x8; 2], t: &[u64; 2], b: u32, d: u32) -> [u32x8; 4]
    ensures { (i : ℕ) → i < 2 → half16 i result ≡ working_words3 (half8 i h) (slice_index t.now i) b d }
{
    let [i0, i1, i2, i3, _, _, _, _] = IV32;
    [
        h[0],
        h[1],
        u32x8::from_array([i0, i1, i2, i3, i0, i1, i2, i3]),
        u32x8::from_array([low(t[0]), high(t[0]), b, d, low(t[1]), high(t[1]), b, d]),
    ]
}

/// The first eight words of `compress_3` in each half. `USE` is that of `next_lanes`.
#[inline(always)]
#[tactic(auto, unfolding(crate::specs::Blake3::compress3))]
pub fn next_halves<const USE: usize>(
    turns: Turns,
    h: [u32x8; 2],
    m: [u32x8; 4],
    t: &[u64; 2],
    b: u32,
    d: u32,
) -> [u32x8; 2]
    ensures { (i : ℕ) → i < 2
        → half8 i result ≡ take 8 (compress3 (half8 i h) (half_message i m) (slice_index t.now i) b d) }
{
    let [a, b, c, d] = rounds_halves::<USE>(turns, working_halves(h, t, b, d), m);
    [a.xor(c), b.xor(d)]
}

// A round on each of two pairs in turn, since each step on one pair has to wait for the step before it.
#[inline(always)]
fn round_pairs(turns: Turns, rows: [[u32x8; 4]; 2], m: [[u32x8; 4]; 2]) -> [[u32x8; 4]; 2]
    ensures { (k : ℕ) → k < 2 → (i : ℕ) → i < 2 → half16 i (slice_index_or result k [])
        ≡ round blake2s (half16 i (slice_index_or rows k [])) (half_message i (slice_index_or m k [])) (schedule 0) }
{
    [
        round_halves(turns, rows[0], m[0]),
        round_halves(turns, rows[1], m[1]),
    ]
}

#[inline(always)]
fn permute_pairs(m: [[u32x8; 4]; 2]) -> [[u32x8; 4]; 2]
    ensures { (k : ℕ) → k < 2 → (i : ℕ) → i < 2 → half_message i (slice_index_or result k [])
        ≡ words_in_order (half_message i (slice_index_or m k [])) permutation }
{
    [permute_halves(m[0]), permute_halves(m[1])]
}

#[inline(always)]
#[tactic(auto, unfolding(crate::specs::Blake3::rounds3, crate::specs::Blake3::permuted_words))]
fn rounds_pairs<const USE: usize>(
    turns: Turns,
    rows: [[u32x8; 4]; 2],
    m: [[u32x8; 4]; 2],
) -> [[u32x8; 4]; 2]
    ensures { (k : ℕ) → k < 2 → (i : ℕ) → i < 2 → half16 i (slice_index_or result k [])
        ≡ rounds3 (half16 i (slice_index_or rows k [])) (half_message i (slice_index_or m k [])) 7 }
{
    seven_rounds!(round_pairs, permute_pairs, turns, rows, m)
}

/// The first eight words of `compress_3` in each half of two pairs. `USE` is that of `next_lanes`.
#[inline(always)]
#[tactic(auto, unfolding(crate::specs::Blake3::compress3))]
pub fn next_pairs<const USE: usize>(
    turns: Turns,
    h: [[u32x8; 2]; 2],
    m: [[u32x8; 4]; 2],
    t: &[u64; 4],
    b: u32,
    d: u32,
) -> [[u32x8; 2]; 2]
    ensures { (k : ℕ) → k < 2 → (i : ℕ) → i < 2 → half8 i (slice_index_or result k [])
        ≡ take 8 (compress3 (half8 i (slice_index_or h k [])) (half_message i (slice_index_or m k []))
        (slice_index t.now (2 * k + i)) b d) }
{
    let rows = [
        working_halves(h[0], &[t[0], t[1]], b, d),
        working_halves(h[1], &[t[2], t[3]], b, d),
    ];
    let [v, w] = rounds_pairs::<USE>(turns, rows, m);
    [
        [v[0].xor(v[2]), v[1].xor(v[3])],
        [w[0].xor(w[2]), w[1].xor(w[3])],
    ]
}

/// The same words in both halves.
#[inline(always)]
pub fn same_halves(h: &[u32; 8]) -> [u32x8; 2]
    ensures { (i : ℕ) → i < 2 → half8 i result ≡ h.now }
{
    let [a, b, c, d, e, f, g, h] = *h;
    [
        u32x8::from_array([a, b, c, d, a, b, c, d]),
        u32x8::from_array([e, f, g, h, e, f, g, h]),
    ]
}

/// The words of two blocks, by halves: half i has the block that begins `at` bytes after `starts[i]`.
#[inline(always)]
pub fn message_halves(bytes: &[u8], starts: &[usize; 2], at: usize) -> [u32x8; 4]
    requires { (i : ℕ) → i < 2 → slice_index starts.now i + at + 64 ≤ length bytes.now }
    ensures { (i : ℕ) → i < 2
        → half_message i result ≡ words 4 16 (take 64 (drop (slice_index starts.now i + at) bytes.now)) }
{
    let b0 = block_at(bytes, starts[0] + at);
    let b1 = block_at(bytes, starts[1] + at);
    let x = quad(b0, b1, 0);
    let y = quad(b0, b1, 16);
    let z = quad(b0, b1, 32);
    let w = quad(b0, b1, 48);
    [
        x.shuffle(y, [0, 2, 8, 10, 4, 6, 12, 14]),
        x.shuffle(y, [1, 3, 9, 11, 5, 7, 13, 15]),
        z.shuffle(w, [10, 0, 2, 8, 14, 4, 6, 12]),
        z.shuffle(w, [11, 1, 3, 9, 15, 5, 7, 13]),
    ]
}

/// Writes the words in each half into a row, the first into row `at`.
#[inline(always)]
pub fn half_rows(h: [u32x8; 2], at: usize, rows: &mut [[u32; 8]; 8])
    requires { at < 7 }
    ensures written { (i : ℕ) → i < 2 → slice_index_or rows.new (at + i) [] ≡ half8 i h }
    ensures kept { (i : ℕ) → i < at → slice_index_or rows.new i [] ≡ slice_index_or rows.old i [] }
{
    rows[at] = halves_low(h[0], h[1]).to_array();
    rows[at + 1] = halves_high(h[0], h[1]).to_array();
}
