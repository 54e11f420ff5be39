// The rounds of BLAKE2 and BLAKE3 on the four rows of the state: G on four columns at a time.

ghost use Rattle.std.specs.Prelude.{◌≡◌, ℕ, ◌<◌, slice_index};
ghost use Rattle.std.specs.Int.{rotate_right, w32, w64};
ghost use Rattle.std.specs.Int.Bits.{bit_xor};
ghost use Rattle.words.specs.Blake2.{blake2b, blake2s};
ghost use Rattle.words.specs.Mix.{round, word_sum};
ghost use Rattle.words.specs.inside.Rows.{MixesColumns, picked_words};

use std::simd::{u32x4, u64x4};

// The steps of G on each column of four rows.
macro_rules! mixed_columns {
    ($sum:ident, $rotated:ident, $rows:ident, $x:ident, $y:ident,
     [$r1:literal, $r2:literal, $r3:literal, $r4:literal]) => {{
        let [a, b, c, d] = $rows;
        let a1 = $sum($sum(a, b), $x);
        let d1 = $rotated(d, a1, $r1);
        let c1 = $sum(c, d1);
        let b1 = $rotated(b, c1, $r2);
        let a2 = $sum($sum(a1, b1), $y);
        let d2 = $rotated(d1, a2, $r3);
        let c2 = $sum(c1, d2);
        let b2 = $rotated(b1, c2, $r4);
        [a2, b2, c2, d2]
    }};
}

// G down the columns, and then down the diagonals. For the diagonals, all rows but the second are turned, so
// that each diagonal is a column. The second is not turned: G makes it last, so that turning it would cost
// time.
macro_rules! mixed_rows {
    ($row:ident, $mix:ident, $picked:ident, $v:ident, $m:ident, $s:ident) => {{
        let rows = [
            $row::from_array([$v[0], $v[1], $v[2], $v[3]]),
            $row::from_array([$v[4], $v[5], $v[6], $v[7]]),
            $row::from_array([$v[8], $v[9], $v[10], $v[11]]),
            $row::from_array([$v[12], $v[13], $v[14], $v[15]]),
        ];
        let x = $picked($m, $s, [0, 2, 4, 6]);
        let y = $picked($m, $s, [1, 3, 5, 7]);
        let [a, b, c, d] = $mix(rows, x, y);
        let [a0, a1, a2, a3] = a.to_array();
        let [c0, c1, c2, c3] = c.to_array();
        let [d0, d1, d2, d3] = d.to_array();
        let turned = [
            $row::from_array([a3, a0, a1, a2]),
            b,
            $row::from_array([c1, c2, c3, c0]),
            $row::from_array([d2, d3, d0, d1]),
        ];
        let x = $picked($m, $s, [14, 8, 10, 12]);
        let y = $picked($m, $s, [15, 9, 11, 13]);
        let [a, b, c, d] = $mix(turned, x, y);
        let [a3, a0, a1, a2] = a.to_array();
        let [b0, b1, b2, b3] = b.to_array();
        let [c1, c2, c3, c0] = c.to_array();
        let [d2, d3, d0, d1] = d.to_array();
        [
            a0, a1, a2, a3, b0, b1, b2, b3, c0, c1, c2, c3, d0, d1, d2, d3,
        ]
    }};
}

#[inline(always)]
pub(crate) fn sum32(x: u32x4, y: u32x4) -> u32x4
    ensures { (j : ℕ) → j < 4
        → slice_index result j ≡ word_sum blake2s (slice_index x j) (slice_index y j) }
{
    x + y
}

// Each word of x xor y, rotated right.
#[inline(always)]
pub(crate) fn rotated_xor32(x: u32x4, y: u32x4, r: u32) -> u32x4
    requires { (0 < r) × (r < 32) }
    ensures { (j : ℕ) → j < 4
        → slice_index result j ≡ rotate_right w32 (bit_xor (slice_index x j) (slice_index y j)) r }
{
    let z = x ^ y;
    (z >> u32x4::splat(r)) | (z << u32x4::splat(32 - r))
}

// A word of m, taken out of its row of four, so that the compiler makes picked words by shuffling rows.
// Otherwise it would insert each word separately, for which many processors have only one unit.
#[inline(always)]
fn word32(m: &[u32; 16], i: usize) -> u32
    requires { i < 16 }
    ensures { result ≡ slice_index m.now i }
{
    let first = i / 4 * 4;
    u32x4::from_slice(&m[first..first + 4])[i % 4]
}

// The words of m at four places of the schedule `s`.
#[inline(always)]
fn picked32(m: &[u32; 16], s: &[usize; 16], places: [usize; 4]) -> u32x4
    requires schedule { (i : ℕ) → i < 16 → slice_index s.now i < 16 }
    requires places { (i : ℕ) → i < 4 → slice_index places i < 16 }
    ensures { result ≡ picked_words m.now s.now places }
{
    let [i, j, k, l] = places;
    u32x4::from_array([
        word32(m, s[i]),
        word32(m, s[j]),
        word32(m, s[k]),
        word32(m, s[l]),
    ])
}

#[inline(always)]
fn mix_columns32(rows: [u32x4; 4], x: u32x4, y: u32x4) -> [u32x4; 4]
    ensures { MixesColumns blake2s x y rows result }
{
    mixed_columns!(sum32, rotated_xor32, rows, x, y, [16, 12, 8, 7])
}

/// A round of BLAKE2s and BLAKE3 under the schedule `s` (RFC 7693, section 3.2).
#[inline(always)]
pub(crate) fn round32(v: &mut [u32; 16], m: &[u32; 16], s: &[usize; 16])
    requires { (i : ℕ) → i < 16 → slice_index s.now i < 16 }
    ensures { v.new ≡ round blake2s v.old m.now s.now }
{
    *v = mixed_rows!(u32x4, mix_columns32, picked32, v, m, s);
}

#[inline(always)]
fn sum64(x: u64x4, y: u64x4) -> u64x4
    ensures { (j : ℕ) → j < 4
        → slice_index result j ≡ word_sum blake2b (slice_index x j) (slice_index y j) }
{
    x + y
}

// Each word of x xor y, rotated right.
#[inline(always)]
fn rotated_xor64(x: u64x4, y: u64x4, r: u64) -> u64x4
    requires { (0 < r) × (r < 64) }
    ensures { (j : ℕ) → j < 4
        → slice_index result j ≡ rotate_right w64 (bit_xor (slice_index x j) (slice_index y j)) r }
{
    let z = x ^ y;
    (z >> u64x4::splat(r)) | (z << u64x4::splat(64 - r))
}

// A word of m, taken out of its row of four, so that the compiler makes picked words by shuffling rows.
// Otherwise it would insert each word separately, for which many processors have only one unit.
#[inline(always)]
fn word64(m: &[u64; 16], i: usize) -> u64
    requires { i < 16 }
    ensures { result ≡ slice_index m.now i }
{
    let first = i / 4 * 4;
    u64x4::from_slice(&m[first..first + 4])[i % 4]
}

// The words of m at four places of the schedule `s`.
#[inline(always)]
fn picked64(m: &[u64; 16], s: &[usize; 16], places: [usize; 4]) -> u64x4
    requires schedule { (i : ℕ) → i < 16 → slice_index s.now i < 16 }
    requires places { (i : ℕ) → i < 4 → slice_index places i < 16 }
    ensures { result ≡ picked_words m.now s.now places }
{
    let [i, j, k, l] = places;
    u64x4::from_array([
        word64(m, s[i]),
        word64(m, s[j]),
        word64(m, s[k]),
        word64(m, s[l]),
    ])
}

#[inline(always)]
fn mix_columns64(rows: [u64x4; 4], x: u64x4, y: u64x4) -> [u64x4; 4]
    ensures { MixesColumns blake2b x y rows result }
{
    mixed_columns!(sum64, rotated_xor64, rows, x, y, [32, 24, 16, 63])
}

/// A round of BLAKE2b under the schedule `s` (RFC 7693, section 3.2).
#[inline(always)]
pub(crate) fn round64(v: &mut [u64; 16], m: &[u64; 16], s: &[usize; 16])
    requires { (i : ℕ) → i < 16 → slice_index s.now i < 16 }
    ensures { v.new ≡ round blake2b v.old m.now s.now }
{
    *v = mixed_rows!(u64x4, mix_columns64, picked64, v, m, s);
}
