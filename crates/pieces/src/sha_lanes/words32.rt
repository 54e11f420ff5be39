// SHA-256 on a block in each of eight lanes (FIPS 180-4, section 6.2.2): a vector has one word of each. The words of
// the schedules are made between the rounds.

ghost use Rattle.std.specs.Prelude.{◌≡◌, ◌<◌, ◌≤◌, ◌+◌, ◌*◌, ℕ, List, length, take, drop, slice_index, [], ◌∷◌};
ghost use Rattle.std.proofs.Common.{rules};
ghost use Rattle.sha2.specs.Sha256;
ghost use Rattle.words.specs.inside.Lanes.{lane_at, lane8};
ghost use Rattle.pieces.specs.inside.Rounds.{HasWords, IsAfterRounds};
ghost use Rattle.pieces.specs.inside.Words.{reversed};

use crate::block_lanes::{HashValues, choose32};
use sha_blocks::schedules::{add, keyed, next_word, rotated, xor};
use sha_blocks::{Value256, added, one_round};
use std::simd::prelude::*;
use words::lanes::{bytes_of, message_lanes, words_of};

// Room for the words of eight schedules: word t of block i is at t and i.
type Words = [u32x8; 64];

#[inline(always)]
fn big_sigma0(x: u32x8) -> u32x8
    ensures { (i : ℕ) → i < 8 → slice_index result i ≡ Sha256.big_sigma0 (slice_index x i) }
{
    xor(rotated(x, 2), rotated(x, 13), rotated(x, 22))
}

#[inline(always)]
fn big_sigma1(x: u32x8) -> u32x8
    ensures { (i : ℕ) → i < 8 → slice_index result i ≡ Sha256.big_sigma1 (slice_index x i) }
{
    xor(rotated(x, 6), rotated(x, 11), rotated(x, 25))
}

// Ch, with one operation fewer.
#[inline(always)]
fn choice(x: u32x8, y: u32x8, z: u32x8) -> u32x8
    ensures { (i : ℕ) → i < 8
        → slice_index result i ≡ Sha256.ch (slice_index x i) (slice_index y i) (slice_index z i) }
{
    z ^ (x & (y ^ z))
}

// Maj: the `x ^ y` of a round is the `y ^ z` of the next, so it is computed once.
#[inline(always)]
fn majority(x: u32x8, y: u32x8, z: u32x8) -> u32x8
    ensures { (i : ℕ) → i < 8
        → slice_index result i ≡ Sha256.maj (slice_index x i) (slice_index y i) (slice_index z i) }
{
    y ^ ((x ^ y) & (y ^ z))
}

// One round, with the sum of its constant and its word.
#[inline(always)]
fn round(v: [u32x8; 8], keyed: u32x8) -> [u32x8; 8]
    ensures { (i : ℕ) → i < 8 → (k w : ℕ) → slice_index keyed i ≡ Sha256.add32 k w
        → lane8 i result ≡ Sha256.round (lane8 i v) k w }
{
    one_round!(add, v, keyed)
}

// Round t.
#[inline(always)]
fn step(v: [u32x8; 8], words: &Words, t: usize) -> [u32x8; 8]
    requires { t < 64 }
    ensures { (i : ℕ) → i < 8 → (h b : List ℕ) → lane8 i v ≡ Sha256.rounds h (Sha256.schedule b 48) t
        → lane_at words.now t i ≡ slice_index (Sha256.schedule b 48) t
        → lane8 i result ≡ Sha256.rounds h (Sha256.schedule b 48) (t + 1) }
{
    round(v, u32x8::from_array(keyed(words[t], t)))
}

// Eight rounds, from t on.
#[inline(always)]
fn eight_steps(v: [u32x8; 8], words: &Words, t: usize) -> [u32x8; 8]
    requires { t + 8 ≤ 64 }
    ensures { (i : ℕ) → i < 8 → (h b : List ℕ) → lane8 i v ≡ Sha256.rounds h (Sha256.schedule b 48) t
        → HasWords (Sha256.schedule b 48) (t + 8) i words.now
        → lane8 i result ≡ Sha256.rounds h (Sha256.schedule b 48) (t + 8) }
{
    eight!(step, v, words, t)
}

// Puts word t + 16 of each schedule after those before it.
#[inline(always)]
fn extend(words: &mut Words, t: usize)
    requires { t + 16 < 64 }
    ensures written { (i : ℕ) → i < 8 → (b : List ℕ) → HasWords (Sha256.schedule b 48) (t + 16) i words.old
        → HasWords (Sha256.schedule b 48) (t + 17) i words.new }
    ensures words { length words.new ≡ 64 }
{
    words[t + 16] = next_word(words[t], words[t + 1], words[t + 9], words[t + 14]);
}

// Round t, and then the word sixteen after its own.
#[inline(always)]
fn step_ahead(v: [u32x8; 8], words: &mut Words, t: usize) -> [u32x8; 8]
    requires { t + 16 < 64 }
    ensures rounds { (i : ℕ) → i < 8 → (h b : List ℕ) → let ws = Sha256.schedule b 48 in
        IsAfterRounds (Sha256.rounds h ws) ws t i v words.old
        → IsAfterRounds (Sha256.rounds h ws) ws (t + 1) i result words.new }
    ensures words { length words.new ≡ 64 }
{
    let next = step(v, words, t);
    extend(words, t);
    next
}

// Eight such steps, from t on.
#[inline(always)]
fn eight_steps_ahead(v: [u32x8; 8], words: &mut Words, t: usize) -> [u32x8; 8]
    requires { t + 24 ≤ 64 }
    ensures rounds { (i : ℕ) → i < 8 → (h b : List ℕ) → let ws = Sha256.schedule b 48 in
        IsAfterRounds (Sha256.rounds h ws) ws t i v words.old
        → IsAfterRounds (Sha256.rounds h ws) ws (t + 8) i result words.new }
    ensures words { length words.new ≡ 64 }
{
    eight!(step_ahead, v, words, t)
}

// All rounds, and all words after the sixteen that are the blocks'.
#[inline(always)]
fn all_steps(v: &mut [u32x8; 8], words: &mut Words)
    ensures value { (i : ℕ) → i < 8 → (b : List ℕ) → HasWords (Sha256.schedule b 48) 16 i words.old
        → lane8 i v.new ≡ Sha256.rounds (lane8 i v.old) (Sha256.schedule b 48) 64 }
    ensures words { length words.new ≡ 64 }
{
    'turns: for turn in 0..6 {
        *v = eight_steps_ahead(*v, words, 8 * turn);
    }
    *v = eight_steps(*v, words, 48);
    *v = eight_steps(*v, words, 56);
}

// The bytes of words, with the four bytes of each word reversed.
#[inline(always)]
fn turned_round(x: u8x32) -> u8x32
    ensures { result ≡ slice_index x 3 ∷ slice_index x 2 ∷ slice_index x 1 ∷ slice_index x 0 ∷
        slice_index x 7 ∷ slice_index x 6 ∷ slice_index x 5 ∷ slice_index x 4 ∷ slice_index x 11 ∷
        slice_index x 10 ∷ slice_index x 9 ∷ slice_index x 8 ∷ slice_index x 15 ∷ slice_index x 14 ∷
        slice_index x 13 ∷ slice_index x 12 ∷ slice_index x 19 ∷ slice_index x 18 ∷ slice_index x 17 ∷
        slice_index x 16 ∷ slice_index x 23 ∷ slice_index x 22 ∷ slice_index x 21 ∷ slice_index x 20 ∷
        slice_index x 27 ∷ slice_index x 26 ∷ slice_index x 25 ∷ slice_index x 24 ∷ slice_index x 31 ∷
        slice_index x 30 ∷ slice_index x 29 ∷ slice_index x 28 ∷ [] }
{
    x.swizzle([
        3, 2, 1, 0, 7, 6, 5, 4, 11, 10, 9, 8, 15, 14, 13, 12, 19, 18, 17, 16, 23, 22, 21, 20, 27,
        26, 25, 24, 31, 30, 29, 28,
    ])
}

// Words, with the bytes of each reversed.
#[inline(always)]
fn reverse(x: u32x8) -> u32x8
    ensures { (i : ℕ) → i < 8 → slice_index result i ≡ reversed (slice_index x i) }
{
    words_of(turned_round(bytes_of(x)))
}

// Puts the words of the blocks that begin `at` bytes after the starts at the front of the schedules.
#[inline(always)]
fn load(words: &mut Words, bytes: &[u8], starts: &[usize; 8], at: usize)
    requires { (i : ℕ) → i < 8 → slice_index starts.now i + at + 64 ≤ length bytes.now }
    ensures written { (i : ℕ) → i < 8
        → HasWords (Sha256.schedule (take 64 (drop (slice_index starts.now i + at) bytes.now)) 48) 16 i words.new }
    ensures words { length words.new ≡ 64 }
{
    let message = message_lanes(bytes, starts, at);
    'first: for t in 0..16 {
        words[t] = reverse(message[t]);
    }
}

impl HashValues<Value256, 8, 64> for [u32x8; 8] {
    type Room = Words;

    ghost lane = { λ i s. lane8 i s };

    ghost made = { λ k h b. Sha256.compress h b };

    #[inline(always)]
    fn room() -> Words {
        [u32x8::splat(0); 64]
    }

    fn take_blocks(
        &mut self,
        words: &mut Words,
        bytes: &[u8],
        starts: &[usize; 8],
        at: usize,
        _block: usize,
    ) {
        load(words, bytes, starts, at);
        let h = *self;
        let mut v = h;
        all_steps(&mut v, words);
        *self = added!(add, h, v);
    }

    #[inline(always)]
    fn choose(&mut self, next: &[u32x8; 8], done: usize, counts: &[usize; 8]) {
        choose32(self, next, done, counts);
    }

    ghost some_lanes = { Prim.search rules };

    ghost few_lanes = { Prim.search rules };

    ghost positive = { Prim.search rules };
}
