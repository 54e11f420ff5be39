//! The schedules of four blocks at once (FIPS 180-4, section 6.4.2): a vector has one word of each.

ghost use Rattle.std.specs.Prelude.{◌≡◌, ◌<◌, ◌≤◌, ◌+◌, ◌*◌, ◌^◌, ◌/◌, ℕ, List, [], slice_index, slice_index_or};
ghost use Rattle.std.specs.Prelude.{bit_xor, length};
ghost use Rattle.std.specs.Int.{w64, rotate_right};
ghost use Rattle.sha2.specs.Sha512;
ghost use Rattle.sha_blocks.specs.inside.Schedules512.{AreKeyed, IsAhead, IsWrittenTo};

use super::functions::word;
use super::table::K;
use std::simd::prelude::*;

/// Room for the words of four schedules, each with the constant of its round added: word t of block i is at t
/// and i.
pub(crate) type Schedules = [[u64; 4]; 80];

/// Room for the words without the constants.
pub type Words = [u64x4; 80];

/// The sums of words.
#[inline(always)]
pub fn add(x: u64x4, y: u64x4) -> u64x4
    ensures { (i : ℕ) → i < 4 → slice_index result i ≡ Sha512.add64 (slice_index x i) (slice_index y i) }
{
    x + y
}

/// The xor of three words of each schedule.
#[inline(always)]
pub fn xor(x: u64x4, y: u64x4, z: u64x4) -> u64x4
    ensures { (i : ℕ) → i < 4
        → slice_index result i ≡ bit_xor (bit_xor (slice_index x i) (slice_index y i)) (slice_index z i) }
{
    x ^ y ^ z
}

/// Each word rotated right by r.
#[inline(always)]
pub fn rotated(x: u64x4, r: u64) -> u64x4
    requires low { 0 < r }
    requires high { r < 64 }
    ensures { (i : ℕ) → i < 4 → slice_index result i ≡ rotate_right w64 (slice_index x i) r }
{
    (x >> u64x4::splat(r)) | (x << u64x4::splat(64 - r))
}

// Each word shifted right by r.
#[inline(always)]
fn shifted(x: u64x4, r: u64) -> u64x4
    requires { r < 64 }
    ensures { (i : ℕ) → i < 4 → slice_index result i ≡ slice_index x i / 2 ^ r }
{
    x >> u64x4::splat(r)
}

#[inline(always)]
fn small_sigma0(x: u64x4) -> u64x4
    ensures { (i : ℕ) → i < 4 → slice_index result i ≡ Sha512.small_sigma0 (slice_index x i) }
{
    xor(rotated(x, 1), rotated(x, 8), shifted(x, 7))
}

#[inline(always)]
fn small_sigma1(x: u64x4) -> u64x4
    ensures { (i : ℕ) → i < 4 → slice_index result i ≡ Sha512.small_sigma1 (slice_index x i) }
{
    xor(rotated(x, 19), rotated(x, 61), shifted(x, 6))
}

// The words after sixteen others, given the first, the second, the tenth and the fifteenth of these.
#[inline(always)]
fn next_word(first: u64x4, second: u64x4, tenth: u64x4, fifteenth: u64x4) -> u64x4
    ensures { (i : ℕ) → i < 4 → slice_index result i ≡ Sha512.add64 (Sha512.add64 (Sha512.add64
        (Sha512.small_sigma1 (slice_index fifteenth i)) (slice_index tenth i))
        (Sha512.small_sigma0 (slice_index second i))) (slice_index first i) }
{
    let known = add(add(first, tenth), small_sigma0(second));
    add(known, small_sigma1(fifteenth))
}

/// The words with the constant of round t added.
#[inline(always)]
pub fn keyed(w: u64x4, t: usize) -> [u64; 4]
    requires { t < 80 }
    ensures { (i : ℕ) → i < 4
        → slice_index result i ≡ Sha512.add64 (slice_index Sha512.round_constants t) (slice_index w i) }
{
    add(u64x4::splat(K[t]), w).to_array()
}

// Word t of each block.
#[inline(always)]
fn block_words(blocks: &[[u8; 128]; 4], t: usize) -> u64x4
    requires { t < 16 }
    ensures { (i : ℕ) → i < 4
        → slice_index result i ≡ Sha512.word_at (slice_index_or blocks.now i []) (8 * t) }
{
    u64x4::from_array([
        word(&blocks[0], t),
        word(&blocks[1], t),
        word(&blocks[2], t),
        word(&blocks[3], t),
    ])
}

/// The first sixteen words of each schedule.
#[inline(always)]
pub(crate) fn load(blocks: &[[u8; 128]; 4], words: &mut Words, out: &mut Schedules)
    ensures ahead { (i : ℕ) → i < 4 → IsAhead (slice_index_or blocks.now i []) 16 i words.new out.new }
    ensures words { length words.new ≡ 80 }
    ensures out { length out.new ≡ 80 }
{
    'first: for t in 0..16 {
        let word = block_words(blocks, t);
        words[t] = word;
        out[t] = keyed(word, t);
    }
}

/// Puts word t + 16 of each schedule after those before it.
#[inline(always)]
pub fn extend(words: &mut Words, t: usize)
    requires { t + 16 < 80 }
    ensures written { (i : ℕ) → i < 4 → (b : List ℕ) → IsWrittenTo b (t + 16) i words.old
        → IsWrittenTo b (t + 17) i words.new }
    ensures words { length words.new ≡ 80 }
{
    words[t + 16] = next_word(words[t], words[t + 1], words[t + 9], words[t + 14]);
}

/// Puts word t + 16 of each schedule, and then that word with the constant of its round added.
#[inline(always)]
pub(crate) fn step(words: &mut Words, out: &mut Schedules, t: usize)
    requires { t + 16 < 80 }
    ensures ahead { (i : ℕ) → i < 4 → (b : List ℕ) → IsAhead b (t + 16) i words.old out.old
        → IsAhead b (t + 17) i words.new out.new }
    ensures words { length words.new ≡ 80 }
    ensures out { length out.new ≡ 80 }
{
    extend(words, t);
    out[t + 16] = keyed(words[t + 16], t + 16);
}

#[inline(always)]
fn four_steps(words: &mut Words, out: &mut Schedules, t: usize)
    requires { t + 20 ≤ 80 }
    ensures ahead { (i : ℕ) → i < 4 → (b : List ℕ) → IsAhead b (t + 16) i words.old out.old
        → IsAhead b (t + 20) i words.new out.new }
    ensures words { length words.new ≡ 80 }
    ensures out { length out.new ≡ 80 }
{
    step(words, out, t);
    step(words, out, t + 1);
    step(words, out, t + 2);
    step(words, out, t + 3);
}

/// Puts the schedules of four blocks into `out`.
#[inline(never)]
pub(crate) fn put_schedules(blocks: &[[u8; 128]; 4], words: &mut Words, out: &mut Schedules)
    ensures keyed { AreKeyed blocks.now out.new }
    ensures words { length words.new ≡ 80 }
    ensures out { length out.new ≡ 80 }
{
    load(blocks, words, out);
    'turns: for turn in 0..16 {
        four_steps(words, out, 4 * turn);
    }
}
