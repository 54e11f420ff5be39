// SHA-256 on one block (FIPS 180-4, section 6.2.2): the schedule is made on the way, four words at a time.

ghost use Rattle.std.specs.Prelude.{◌≡◌, ◌<◌, ◌≤◌, ◌+◌, ◌*◌, ◌^◌, ◌/◌, ℕ, List, [], ◌∷◌, bit_xor, slice_index};
ghost use Rattle.std.specs.Int.{w32, rotate_right};
ghost use Rattle.sha2.specs.Sha256;
ghost use Rattle.sha_blocks.specs.inside.Quads.{AreQuads, IsAtRound, IsQuad};

use crate::functions::{choice, majority, sums, word};
use crate::one_round;
use crate::table::K;
use std::simd::prelude::*;
use words::level;

// Below x86-64-v3 the two functions below nest their rotations. That takes fewer copies of `x` if a rotation
// overwrites what it rotates.
#[inline(always)]
fn big_sigma0(x: u32) -> u32
    ensures { result ≡ Sha256.big_sigma0 x }
{
    if level() < 3 {
        return (x ^ (x ^ x.rotate_right(9)).rotate_right(11)).rotate_right(2);
    }
    x.rotate_right(2) ^ x.rotate_right(13) ^ x.rotate_right(22)
}

#[inline(always)]
fn big_sigma1(x: u32) -> u32
    ensures { result ≡ Sha256.big_sigma1 x }
{
    if level() < 3 {
        return (x ^ (x ^ x.rotate_right(14)).rotate_right(5)).rotate_right(6);
    }
    x.rotate_right(6) ^ x.rotate_right(11) ^ x.rotate_right(25)
}

// The sums of words.
#[inline(always)]
fn add(x: u32x4, y: u32x4) -> u32x4
    ensures { (i : ℕ) → i < 4 → slice_index result i ≡ Sha256.add32 (slice_index x i) (slice_index y i) }
{
    x + y
}

// The xor of three words.
#[inline(always)]
fn xor(x: u32x4, y: u32x4, z: u32x4) -> u32x4
    ensures { (i : ℕ) → i < 4
        → slice_index result i ≡ bit_xor (bit_xor (slice_index x i) (slice_index y i)) (slice_index z i) }
{
    x ^ y ^ z
}

// Each word rotated right by r.
#[inline(always)]
fn rotated(x: u32x4, r: u32) -> u32x4
    requires low { 0 < r }
    requires high { r < 32 }
    ensures { (i : ℕ) → i < 4 → slice_index result i ≡ rotate_right w32 (slice_index x i) r }
{
    (x >> u32x4::splat(r)) | (x << u32x4::splat(32 - r))
}

// Each word rotated right by r and by s, and shifted right by n.
#[inline(always)]
fn small_sigma(x: u32x4, r: u32, s: u32, n: u32) -> u32x4
    requires r { (0 < r) × (r < 32) }
    requires s { (0 < s) × (s < 32) }
    requires n { n < 32 }
    ensures { (i : ℕ) → i < 4 → slice_index result i ≡ bit_xor (bit_xor (rotate_right w32 (slice_index x i) r)
        (rotate_right w32 (slice_index x i) s)) (slice_index x i / 2 ^ n) }
{
    xor(rotated(x, r), rotated(x, s), x >> u32x4::splat(n))
}

// The word after sixteen others in each lane, given the first, the second, the tenth and the fifteenth of
// these.
#[inline(always)]
fn next_words(first: u32x4, second: u32x4, tenth: u32x4, fifteenth: u32x4) -> u32x4
    ensures { (i : ℕ) → i < 4 → slice_index result i ≡ Sha256.add32 (Sha256.add32 (Sha256.add32
        (Sha256.small_sigma1 (slice_index fifteenth i)) (slice_index tenth i))
        (Sha256.small_sigma0 (slice_index second i))) (slice_index first i) }
{
    let known = add(add(first, tenth), small_sigma(second, 7, 18, 3));
    add(known, small_sigma(fifteenth, 17, 19, 10))
}

// The last three words of four, and the first of the next four.
#[inline(always)]
fn one_on(x: u32x4, y: u32x4) -> u32x4
    ensures { result ≡ slice_index x 1 ∷ slice_index x 2 ∷ slice_index x 3 ∷ slice_index y 0 ∷ [] }
{
    x.shuffle(y, [1, 2, 3, 4])
}

// The first two of four words, twice.
#[inline(always)]
fn first_two(x: u32x4) -> u32x4
    ensures { result ≡ slice_index x 0 ∷ slice_index x 1 ∷ slice_index x 0 ∷ slice_index x 1 ∷ [] }
{
    x.swizzle([0, 1, 0, 1])
}

// The last two of four words, twice.
#[inline(always)]
fn last_two(x: u32x4) -> u32x4
    ensures { result ≡ slice_index x 2 ∷ slice_index x 3 ∷ slice_index x 2 ∷ slice_index x 3 ∷ [] }
{
    x.swizzle([2, 3, 2, 3])
}

// The first two of four words, and the last two of four others.
#[inline(always)]
fn two_of_each(x: u32x4, y: u32x4) -> u32x4
    ensures { result ≡ slice_index x 0 ∷ slice_index x 1 ∷ slice_index y 2 ∷ slice_index y 3 ∷ [] }
{
    x.shuffle(y, [0, 1, 6, 7])
}

// The four words after sixteen others. The last two stand on the first two, which are made before them.
#[inline(always)]
fn next_quad(w: [u32x4; 4]) -> u32x4
    ensures { (b : List ℕ) (t : ℕ) → t + 20 ≤ 64 → AreQuads b t w → IsQuad b (t + 16) result }
{
    let second = one_on(w[0], w[1]);
    let tenth = one_on(w[2], w[3]);
    let front = next_words(w[0], second, tenth, last_two(w[3]));
    let back = next_words(w[0], second, tenth, first_two(front));
    two_of_each(front, back)
}

// Four words of a block.
#[inline(always)]
fn block_quad(block: &[u8; 64], t: usize) -> u32x4
    requires { t + 4 ≤ 16 }
    ensures { IsQuad block.now t result }
{
    u32x4::from_array([
        word(block, t),
        word(block, t + 1),
        word(block, t + 2),
        word(block, t + 3),
    ])
}

// One round, with the sum of its constant and its word.
#[inline(always)]
fn round(v: [u32; 8], keyed: u32) -> [u32; 8]
    ensures { (k w : ℕ) → keyed ≡ Sha256.add32 k w → result ≡ Sha256.round v k w }
{
    one_round!(u32::wrapping_add, v, keyed)
}

// The rounds of four words.
#[inline(always)]
fn four_rounds(v: [u32; 8], x: u32x4, t: usize) -> [u32; 8]
    requires { t + 4 ≤ 64 }
    ensures { (h b : List ℕ) → v ≡ Sha256.rounds h (Sha256.schedule b 48) t → IsQuad b t x
        → result ≡ Sha256.rounds h (Sha256.schedule b 48) (t + 4) }
{
    let keys = add(u32x4::from_array([K[t], K[t + 1], K[t + 2], K[t + 3]]), x).to_array();
    let v = round(v, keys[0]);
    let v = round(v, keys[1]);
    let v = round(v, keys[2]);
    round(v, keys[3])
}

// Four rounds, with the four words of the schedule that they make room for.
#[inline(always)]
fn step(v: &mut [u32; 8], w: &mut [u32x4; 4], t: usize)
    requires { t + 20 ≤ 64 }
    ensures { (h b : List ℕ) → IsAtRound h b t v.old w.old → IsAtRound h b (t + 4) v.new w.new }
{
    let next = next_quad(*w);
    *v = four_rounds(*v, w[0], t);
    *w = [w[1], w[2], w[3], next];
}

/// Takes a block into the hash value.
pub(crate) fn compress_block(h: &mut [u32; 8], block: &[u8; 64])
    ensures { h.new ≡ Sha256.compress h.old block.now }
{
    let mut v = *h;
    let mut w = [
        block_quad(block, 0),
        block_quad(block, 4),
        block_quad(block, 8),
        block_quad(block, 12),
    ];
    'turns: for turn in 0..3 {
        step(&mut v, &mut w, 16 * turn);
        step(&mut v, &mut w, 16 * turn + 4);
        step(&mut v, &mut w, 16 * turn + 8);
        step(&mut v, &mut w, 16 * turn + 12);
    }
    let v = four_rounds(v, w[0], 48);
    let v = four_rounds(v, w[1], 52);
    let v = four_rounds(v, w[2], 56);
    let v = four_rounds(v, w[3], 60);
    *h = sums(*h, v);
}
