// F of BLAKE2s on eight inputs side by side. Their words are loaded, and their chaining values read, as for
// BLAKE3.

ghost use Rattle.std.specs.Prelude.{◌≡◌, ℕ, ◌<◌, ◌/◌, ◌%◌, ◌^◌, bit_xor, slice_index};
ghost use Rattle.words.specs.Tables.{iv32};
ghost use Rattle.words.specs.Blake2.{blake2s, compress, working_words};
ghost use Rattle.words.specs.inside.Lanes.{lane, lane8};

use std::simd::prelude::*;
use words::IV32;
use words::lanes::Turns;
use words::lanes::mixing::{folded, ten_rounds};

// A word, xored with a half of each count.
macro_rules! counted {
    ($word:expr, $half:path, $t:ident, [$($k:literal),*]) => {
        u32x8::from_array([$($word ^ $half($t[$k])),*])
    };
}

#[inline(always)]
fn low(x: usize) -> u32
    ensures { result ≡ x % 2 ^ 32 }
{
    (x % 0x1_0000_0000) as u32
}

#[inline(always)]
fn high(x: usize) -> u32
    ensures { result ≡ x / 2 ^ 32 }
{
    (x >> 32) as u32
}

// The word that the low halves of the counts change.
#[inline(always)]
fn low_words(t: &[usize; 8]) -> u32x8
    ensures { (i : ℕ) → i < 8 → slice_index result i ≡ bit_xor (slice_index iv32 4) (slice_index t.now i % 2 ^ 32) }
{
    counted!(IV32[4], low, t, [0, 1, 2, 3, 4, 5, 6, 7])
}

// The word that the high halves change.
#[inline(always)]
fn high_words(t: &[usize; 8]) -> u32x8
    ensures { (i : ℕ) → i < 8 → slice_index result i ≡ bit_xor (slice_index iv32 5) (slice_index t.now i / 2 ^ 32) }
{
    counted!(IV32[5], high, t, [0, 1, 2, 3, 4, 5, 6, 7])
}

#[inline(always)]
#[tactic(auto, unfolding(words::specs::inside::Lanes::lane))]
fn working_lanes(h: [u32x8; 8], t: &[usize; 8], last: bool) -> [u32x8; 16]
    ensures { (i : ℕ) → i < 8 → lane i result ≡ working_words blake2s (lane8 i h) (slice_index t.now i) last }
{
    let marked = if last { !IV32[6] } else { IV32[6] };
    [
        h[0],
        h[1],
        h[2],
        h[3],
        h[4],
        h[5],
        h[6],
        h[7],
        u32x8::splat(IV32[0]),
        u32x8::splat(IV32[1]),
        u32x8::splat(IV32[2]),
        u32x8::splat(IV32[3]),
        low_words(t),
        high_words(t),
        u32x8::splat(marked),
        u32x8::splat(IV32[7]),
    ]
}

/// F in each of eight lanes: takes the blocks `m` into the chaining values `h`. `t` are the numbers of input bytes up
/// to and including these blocks, and `last` marks the last ones (RFC 7693, section 3.2).
#[tactic(auto, unfolding(words::specs::Blake2::compress))]
pub(crate) fn next_lanes(h: [u32x8; 8], m: &[u32x8; 16], t: &[usize; 8], last: bool) -> [u32x8; 8]
    ensures { (i : ℕ) → i < 8
        → lane8 i result ≡ compress blake2s (lane8 i h) (lane i m.now) (slice_index t.now i) last }
{
    let v = working_lanes(h, t, last);
    let v = ten_rounds(Turns::known(), &v, m);
    folded(&h, &v)
}
