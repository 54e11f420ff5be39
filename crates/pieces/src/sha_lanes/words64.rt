// SHA-512 on a block in each of four lanes (FIPS 180-4, section 6.4.2): a vector has one word of each. The words of the
// schedules are made between the rounds.

ghost use Rattle.std.specs.Prelude.{◌≡◌, ◌<◌, ◌≤◌, ◌+◌, ◌*◌, ℕ, List, length, take, drop, slice_index, [], ◌∷◌};
ghost use Rattle.std.proofs.Common.{rules};
ghost use Rattle.sha2.specs.Sha512;
ghost use Rattle.words.specs.inside.Lanes.{lane_at, lane8};
ghost use Rattle.pieces.specs.inside.Rounds.{HasWords, IsAfterRounds};
ghost use Rattle.pieces.specs.inside.Words.{reversed_long};

use crate::block_lanes::{HashValues, choose64};
use crate::lanes2::words64::message_lanes;
use sha_blocks::sha512::schedules::{Words, add, extend, keyed, rotated, xor};
use sha_blocks::{Value512, added, one_round};
use std::simd::prelude::*;
use words::lanes::long::{bytes_of, words_of};

#[inline(always)]
fn big_sigma0(x: u64x4) -> u64x4
    ensures { (i : ℕ) → i < 4 → slice_index result i ≡ Sha512.big_sigma0 (slice_index x i) }
{
    xor(rotated(x, 28), rotated(x, 34), rotated(x, 39))
}

#[inline(always)]
fn big_sigma1(x: u64x4) -> u64x4
    ensures { (i : ℕ) → i < 4 → slice_index result i ≡ Sha512.big_sigma1 (slice_index x i) }
{
    xor(rotated(x, 14), rotated(x, 18), rotated(x, 41))
}

// Ch, with one operation fewer.
#[inline(always)]
fn choice(x: u64x4, y: u64x4, z: u64x4) -> u64x4
    ensures { (i : ℕ) → i < 4
        → slice_index result i ≡ Sha512.ch (slice_index x i) (slice_index y i) (slice_index z i) }
{
    z ^ (x & (y ^ z))
}

// Maj: the `x ^ y` of a round is the `y ^ z` of the next, so it is computed once.
#[inline(always)]
fn majority(x: u64x4, y: u64x4, z: u64x4) -> u64x4
    ensures { (i : ℕ) → i < 4
        → slice_index result i ≡ Sha512.maj (slice_index x i) (slice_index y i) (slice_index z i) }
{
    y ^ ((x ^ y) & (y ^ z))
}

// One round, with the sum of its constant and its word.
#[inline(always)]
fn round(v: [u64x4; 8], keyed: u64x4) -> [u64x4; 8]
    ensures { (i : ℕ) → i < 4 → (k w : ℕ) → slice_index keyed i ≡ Sha512.add64 k w
        → lane8 i result ≡ Sha512.round (lane8 i v) k w }
{
    one_round!(add, v, keyed)
}

// Round t.
#[inline(always)]
fn step(v: [u64x4; 8], words: &Words, t: usize) -> [u64x4; 8]
    requires { t < 80 }
    ensures { (i : ℕ) → i < 4 → (h b : List ℕ) → lane8 i v ≡ Sha512.rounds h (Sha512.schedule b 64) t
        → lane_at words.now t i ≡ slice_index (Sha512.schedule b 64) t
        → lane8 i result ≡ Sha512.rounds h (Sha512.schedule b 64) (t + 1) }
{
    round(v, u64x4::from_array(keyed(words[t], t)))
}

// Eight rounds, from t on.
#[inline(always)]
fn eight_steps(v: [u64x4; 8], words: &Words, t: usize) -> [u64x4; 8]
    requires { t + 8 ≤ 80 }
    ensures { (i : ℕ) → i < 4 → (h b : List ℕ) → lane8 i v ≡ Sha512.rounds h (Sha512.schedule b 64) t
        → HasWords (Sha512.schedule b 64) (t + 8) i words.now
        → lane8 i result ≡ Sha512.rounds h (Sha512.schedule b 64) (t + 8) }
{
    eight!(step, v, words, t)
}

// Round t, and then the word sixteen after its own.
#[inline(always)]
fn step_ahead(v: [u64x4; 8], words: &mut Words, t: usize) -> [u64x4; 8]
    requires { t + 16 < 80 }
    ensures rounds { (i : ℕ) → i < 4 → (h b : List ℕ) → let ws = Sha512.schedule b 64 in
        IsAfterRounds (Sha512.rounds h ws) ws t i v words.old
        → IsAfterRounds (Sha512.rounds h ws) ws (t + 1) i result words.new }
    ensures words { length words.new ≡ 80 }
{
    let next = step(v, words, t);
    extend(words, t);
    next
}

// Eight such steps, from t on.
#[inline(always)]
fn eight_steps_ahead(v: [u64x4; 8], words: &mut Words, t: usize) -> [u64x4; 8]
    requires { t + 24 ≤ 80 }
    ensures rounds { (i : ℕ) → i < 4 → (h b : List ℕ) → let ws = Sha512.schedule b 64 in
        IsAfterRounds (Sha512.rounds h ws) ws t i v words.old
        → IsAfterRounds (Sha512.rounds h ws) ws (t + 8) i result words.new }
    ensures words { length words.new ≡ 80 }
{
    eight!(step_ahead, v, words, t)
}

// All rounds, and all words after the sixteen that are the blocks'.
#[inline(always)]
fn all_steps(v: &mut [u64x4; 8], words: &mut Words)
    ensures value { (i : ℕ) → i < 4 → (b : List ℕ) → HasWords (Sha512.schedule b 64) 16 i words.old
        → lane8 i v.new ≡ Sha512.rounds (lane8 i v.old) (Sha512.schedule b 64) 80 }
    ensures words { length words.new ≡ 80 }
{
    'turns: for turn in 0..8 {
        *v = eight_steps_ahead(*v, words, 8 * turn);
    }
    *v = eight_steps(*v, words, 64);
    *v = eight_steps(*v, words, 72);
}

// The bytes of words, with the eight bytes of each word reversed.
#[inline(always)]
fn turned_round(x: u8x32) -> u8x32
    ensures { result ≡ slice_index x 7 ∷ slice_index x 6 ∷ slice_index x 5 ∷ slice_index x 4 ∷
        slice_index x 3 ∷ slice_index x 2 ∷ slice_index x 1 ∷ slice_index x 0 ∷ slice_index x 15 ∷
        slice_index x 14 ∷ slice_index x 13 ∷ slice_index x 12 ∷ slice_index x 11 ∷ slice_index x 10 ∷
        slice_index x 9 ∷ slice_index x 8 ∷ slice_index x 23 ∷ slice_index x 22 ∷ slice_index x 21 ∷
        slice_index x 20 ∷ slice_index x 19 ∷ slice_index x 18 ∷ slice_index x 17 ∷ slice_index x 16 ∷
        slice_index x 31 ∷ slice_index x 30 ∷ slice_index x 29 ∷ slice_index x 28 ∷ slice_index x 27 ∷
        slice_index x 26 ∷ slice_index x 25 ∷ slice_index x 24 ∷ [] }
{
    x.swizzle([
        7, 6, 5, 4, 3, 2, 1, 0, 15, 14, 13, 12, 11, 10, 9, 8, 23, 22, 21, 20, 19, 18, 17, 16, 31,
        30, 29, 28, 27, 26, 25, 24,
    ])
}

// Words, with the bytes of each reversed.
#[inline(always)]
fn reverse(x: u64x4) -> u64x4
    ensures { (i : ℕ) → i < 4 → slice_index result i ≡ reversed_long (slice_index x i) }
{
    words_of(turned_round(bytes_of(x)))
}

// Puts the words of the blocks that begin `at` bytes after the starts at the front of the schedules.
#[inline(always)]
fn load(words: &mut Words, bytes: &[u8], starts: &[usize; 4], at: usize)
    requires { (i : ℕ) → i < 4 → slice_index starts.now i + at + 128 ≤ length bytes.now }
    ensures written { (i : ℕ) → i < 4
        → HasWords (Sha512.schedule (take 128 (drop (slice_index starts.now i + at) bytes.now)) 64) 16 i words.new }
    ensures words { length words.new ≡ 80 }
{
    let message = message_lanes(bytes, starts, at);
    'first: for t in 0..16 {
        words[t] = reverse(message[t]);
    }
}

impl HashValues<Value512, 4, 128> for [u64x4; 8] {
    type Room = Words;

    ghost lane = { λ i s. lane8 i s };

    ghost made = { λ k h b. Sha512.compress h b };

    #[inline(always)]
    fn room() -> Words {
        [u64x4::splat(0); 80]
    }

    fn take_blocks(
        &mut self,
        words: &mut Words,
        bytes: &[u8],
        starts: &[usize; 4],
        at: usize,
        _block: usize,
    ) {
        load(words, bytes, starts, at);
        let h = *self;
        let mut v = h;
        all_steps(&mut v, words);
        *self = added!(add, h, v);
    }

    #[inline(always)]
    fn choose(&mut self, next: &[u64x4; 8], done: usize, counts: &[usize; 4]) {
        choose64(self, next, done, counts);
    }

    ghost some_lanes = { Prim.search rules };

    ghost few_lanes = { Prim.search rules };

    ghost positive = { Prim.search rules };
}
