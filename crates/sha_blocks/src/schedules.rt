//! The schedules of eight blocks at once (FIPS 180-4, section 6.2.2): a vector has one word of each.

ghost use Rattle.std.specs.Prelude.{◌≡◌, ◌<◌, ◌≤◌, ◌+◌, ◌*◌, ◌^◌, ◌/◌, ℕ, List, [], slice_index, slice_index_or};
ghost use Rattle.std.specs.Prelude.{bit_xor, length};
ghost use Rattle.std.specs.Int.{w32, rotate_right};
ghost use Rattle.sha2.specs.Sha256;
ghost use Rattle.sha_blocks.specs.inside.Schedules.{AreKeyed, IsAhead, IsKeyedTo, IsWindowAt, IsWrittenTo};

use crate::functions::word;
use crate::table::K;
use std::simd::prelude::*;

/// Room for the words of eight schedules, each with the constant of its round added: word t of block i is at
/// t and i.
pub(crate) type Schedules = [[u32; 8]; 64];

/// Room for the words without the constants.
pub(crate) type Words = [u32x8; 64];

/// The sums of words.
#[inline(always)]
pub fn add(x: u32x8, y: u32x8) -> u32x8
    ensures { (i : ℕ) → i < 8 → slice_index result i ≡ Sha256.add32 (slice_index x i) (slice_index y i) }
{
    x + y
}

/// The xor of three words of each schedule.
#[inline(always)]
pub fn xor(x: u32x8, y: u32x8, z: u32x8) -> u32x8
    ensures { (i : ℕ) → i < 8
        → slice_index result i ≡ bit_xor (bit_xor (slice_index x i) (slice_index y i)) (slice_index z i) }
{
    x ^ y ^ z
}

/// Each word rotated right by r.
#[inline(always)]
pub fn rotated(x: u32x8, r: u32) -> u32x8
    requires low { 0 < r }
    requires high { r < 32 }
    ensures { (i : ℕ) → i < 8 → slice_index result i ≡ rotate_right w32 (slice_index x i) r }
{
    (x >> u32x8::splat(r)) | (x << u32x8::splat(32 - r))
}

// Each word shifted right by r.
#[inline(always)]
fn shifted(x: u32x8, r: u32) -> u32x8
    requires { r < 32 }
    ensures { (i : ℕ) → i < 8 → slice_index result i ≡ slice_index x i / 2 ^ r }
{
    x >> u32x8::splat(r)
}

#[inline(always)]
fn small_sigma0(x: u32x8) -> u32x8
    ensures { (i : ℕ) → i < 8 → slice_index result i ≡ Sha256.small_sigma0 (slice_index x i) }
{
    xor(rotated(x, 7), rotated(x, 18), shifted(x, 3))
}

#[inline(always)]
fn small_sigma1(x: u32x8) -> u32x8
    ensures { (i : ℕ) → i < 8 → slice_index result i ≡ Sha256.small_sigma1 (slice_index x i) }
{
    xor(rotated(x, 17), rotated(x, 19), shifted(x, 10))
}

/// The words after sixteen others, given the first, the second, the tenth and the fifteenth of these.
#[inline(always)]
pub fn next_word(first: u32x8, second: u32x8, tenth: u32x8, fifteenth: u32x8) -> u32x8
    ensures { (i : ℕ) → i < 8 → slice_index result i ≡ Sha256.add32 (Sha256.add32 (Sha256.add32
        (Sha256.small_sigma1 (slice_index fifteenth i)) (slice_index tenth i))
        (Sha256.small_sigma0 (slice_index second i))) (slice_index first i) }
{
    let known = add(add(first, tenth), small_sigma0(second));
    add(known, small_sigma1(fifteenth))
}

// The next sixteen words of each schedule.
#[inline(always)]
fn next_sixteen(w: [u32x8; 16]) -> [u32x8; 16]
    ensures { (i : ℕ) → i < 8 → (b : List ℕ) (t : ℕ) → t + 32 ≤ 64 → IsWindowAt b t i w
        → IsWindowAt b (t + 16) i result }
{
    let a0 = next_word(w[0], w[1], w[9], w[14]);
    let a1 = next_word(w[1], w[2], w[10], w[15]);
    let a2 = next_word(w[2], w[3], w[11], a0);
    let a3 = next_word(w[3], w[4], w[12], a1);
    let a4 = next_word(w[4], w[5], w[13], a2);
    let a5 = next_word(w[5], w[6], w[14], a3);
    let a6 = next_word(w[6], w[7], w[15], a4);
    let a7 = next_word(w[7], w[8], a0, a5);
    let a8 = next_word(w[8], w[9], a1, a6);
    let a9 = next_word(w[9], w[10], a2, a7);
    let a10 = next_word(w[10], w[11], a3, a8);
    let a11 = next_word(w[11], w[12], a4, a9);
    let a12 = next_word(w[12], w[13], a5, a10);
    let a13 = next_word(w[13], w[14], a6, a11);
    let a14 = next_word(w[14], w[15], a7, a12);
    let a15 = next_word(w[15], a0, a8, a13);
    [
        a0, a1, a2, a3, a4, a5, a6, a7, a8, a9, a10, a11, a12, a13, a14, a15,
    ]
}

// Moves on by sixteen words.
#[inline(always)]
fn advance(w: &mut [u32x8; 16])
    ensures { (i : ℕ) → i < 8 → (b : List ℕ) (t : ℕ) → t + 32 ≤ 64 → IsWindowAt b t i w.old
        → IsWindowAt b (t + 16) i w.new }
{
    *w = next_sixteen(*w);
}

/// The words with the constant of round t added.
#[inline(always)]
pub fn keyed(w: u32x8, t: usize) -> [u32; 8]
    requires { t < 64 }
    ensures { (i : ℕ) → i < 8
        → slice_index result i ≡ Sha256.add32 (slice_index Sha256.round_constants t) (slice_index w i) }
{
    add(u32x8::splat(K[t]), w).to_array()
}

// Puts word t + k of each schedule; `w` has the words from t on.
#[inline(always)]
fn put_one(out: &mut Schedules, w: &[u32x8; 16], t: usize, k: usize)
    requires place { k < 16 }
    requires words { t + 16 ≤ 64 }
    ensures keyed { (i : ℕ) → i < 8 → (b : List ℕ) → IsWindowAt b t i w.now → IsKeyedTo b (t + k) i out.old
        → IsKeyedTo b (t + (k + 1)) i out.new }
    ensures length { length out.new ≡ 64 }
{
    out[t + k] = keyed(w[k], t + k);
}

// Puts the four words from t + k on.
#[inline(always)]
fn put_four(out: &mut Schedules, w: &[u32x8; 16], t: usize, k: usize)
    requires places { k + 4 ≤ 16 }
    requires words { t + 16 ≤ 64 }
    ensures keyed { (i : ℕ) → i < 8 → (b : List ℕ) → IsWindowAt b t i w.now → IsKeyedTo b (t + k) i out.old
        → IsKeyedTo b (t + (k + 4)) i out.new }
    ensures length { length out.new ≡ 64 }
{
    put_one(out, w, t, k);
    put_one(out, w, t, k + 1);
    put_one(out, w, t, k + 2);
    put_one(out, w, t, k + 3);
}

// Puts all sixteen. The calls are written out, which is faster than a loop.
#[inline(always)]
fn put_keyed(out: &mut Schedules, w: &[u32x8; 16], t: usize)
    requires { t + 16 ≤ 64 }
    ensures keyed { (i : ℕ) → i < 8 → (b : List ℕ) → IsWindowAt b t i w.now → IsKeyedTo b t i out.old
        → IsKeyedTo b (t + 16) i out.new }
    ensures length { length out.new ≡ 64 }
{
    put_four(out, w, t, 0);
    put_four(out, w, t, 4);
    put_four(out, w, t, 8);
    put_four(out, w, t, 12);
}

// Word t of each block.
#[inline(always)]
fn block_words(blocks: &[[u8; 64]; 8], t: usize) -> u32x8
    requires { t < 16 }
    ensures { (i : ℕ) → i < 8
        → slice_index result i ≡ Sha256.word_at (slice_index_or blocks.now i []) (4 * t) }
{
    u32x8::from_array([
        word(&blocks[0], t),
        word(&blocks[1], t),
        word(&blocks[2], t),
        word(&blocks[3], t),
        word(&blocks[4], t),
        word(&blocks[5], t),
        word(&blocks[6], t),
        word(&blocks[7], t),
    ])
}

// The words of eight blocks.
#[inline(always)]
fn first_sixteen(blocks: &[[u8; 64]; 8]) -> [u32x8; 16]
    ensures { (i : ℕ) → i < 8 → IsWindowAt (slice_index_or blocks.now i []) 0 i result }
{
    [
        block_words(blocks, 0),
        block_words(blocks, 1),
        block_words(blocks, 2),
        block_words(blocks, 3),
        block_words(blocks, 4),
        block_words(blocks, 5),
        block_words(blocks, 6),
        block_words(blocks, 7),
        block_words(blocks, 8),
        block_words(blocks, 9),
        block_words(blocks, 10),
        block_words(blocks, 11),
        block_words(blocks, 12),
        block_words(blocks, 13),
        block_words(blocks, 14),
        block_words(blocks, 15),
    ]
}

/// Puts the schedules of eight blocks into `out`.
#[inline(never)]
pub(crate) fn put_schedules(blocks: &[[u8; 64]; 8], out: &mut Schedules)
    ensures keyed { AreKeyed blocks.now out.new }
    ensures length { length out.new ≡ 64 }
{
    let mut w = first_sixteen(blocks);
    'turns: for turn in 0..3 {
        put_keyed(out, &w, 16 * turn);
        advance(&mut w);
    }
    put_keyed(out, &w, 48);
}

// Word t of each schedule; the words before it are in `words`.
#[inline(always)]
fn schedule_words(blocks: &[[u8; 64]; 8], words: &Words, t: usize) -> u32x8
    requires { t < 64 }
    ensures { (i : ℕ) → i < 8 → IsWrittenTo (slice_index_or blocks.now i []) t i words.now
        → slice_index result i ≡ slice_index (Sha256.schedule (slice_index_or blocks.now i []) 48) t }
{
    if t < 16 {
        return block_words(blocks, t);
    }
    next_word(words[t - 16], words[t - 15], words[t - 7], words[t - 2])
}

/// Puts word t of each schedule, after all those before it.
#[inline(always)]
pub(crate) fn put_words(blocks: &[[u8; 64]; 8], words: &mut Words, out: &mut Schedules, t: usize)
    requires { t < 64 }
    ensures ahead { (i : ℕ) → i < 8 → IsAhead (slice_index_or blocks.now i []) t i words.old out.old
        → IsAhead (slice_index_or blocks.now i []) (t + 1) i words.new out.new }
    ensures words { length words.new ≡ 64 }
    ensures out { length out.new ≡ 64 }
{
    let word = schedule_words(blocks, words, t);
    words[t] = word;
    out[t] = keyed(word, t);
}
