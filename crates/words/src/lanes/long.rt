//! Vectors of four words of 64 bits.

ghost use Rattle.std.specs.Prelude.{◌≡◌, ℕ, ◌<◌, ◌+◌, ◌*◌, ◌/◌, ◌%◌, ◌^◌, slice_index};
ghost use Rattle.std.specs.Simd.Lanes.{number_l, chunk};
ghost use Rattle.words.specs.Blake2.{blake2b};
ghost use Rattle.words.specs.inside.Lanes.{turned_bytes};

use crate::lanes::mixing::WordLanes;
use std::simd::prelude::*;

/// The bytes of four words.
#[inline(always)]
pub fn bytes_of(x: u64x4) -> u8x32
    ensures { (i j : ℕ) → i < 4 → j < 8 → slice_index result (8 * i + j) ≡ slice_index x i / 256 ^ j % 256 }
{
    x.to_le_bytes()
}

/// The words of these bytes.
#[inline(always)]
pub fn words_of(x: u8x32) -> u64x4
    ensures { (i : ℕ) → i < 4 → slice_index result i ≡ number_l 256 (chunk (8 * i) 8 x) }
{
    u64x4::from_le_bytes(x)
}

// The bytes of words, each word turned by 32 bits.
#[inline(always)]
fn move32(x: u8x32) -> u8x32
    ensures { result ≡ turned_bytes 8 4 x }
{
    x.swizzle([
        4, 5, 6, 7, 0, 1, 2, 3, 12, 13, 14, 15, 8, 9, 10, 11, 20, 21, 22, 23, 16, 17, 18, 19, 28,
        29, 30, 31, 24, 25, 26, 27,
    ])
}

// The bytes of words, each word turned by 24 bits.
#[inline(always)]
fn move24(x: u8x32) -> u8x32
    ensures { result ≡ turned_bytes 8 3 x }
{
    x.swizzle([
        3, 4, 5, 6, 7, 0, 1, 2, 11, 12, 13, 14, 15, 8, 9, 10, 19, 20, 21, 22, 23, 16, 17, 18, 27,
        28, 29, 30, 31, 24, 25, 26,
    ])
}

// The bytes of words, each word turned by 16 bits.
#[inline(always)]
fn move16(x: u8x32) -> u8x32
    ensures { result ≡ turned_bytes 8 2 x }
{
    x.swizzle([
        2, 3, 4, 5, 6, 7, 0, 1, 10, 11, 12, 13, 14, 15, 8, 9, 18, 19, 20, 21, 22, 23, 16, 17, 26,
        27, 28, 29, 30, 31, 24, 25,
    ])
}

impl WordLanes for u64x4 {
    type Turns = ();

    ghost variant = { blake2b };

    ghost count = { 4 };

    ghost words = { λ x. x };

    #[inline(always)]
    fn sum(self, y: u64x4) -> u64x4 {
        self + y
    }

    #[inline(always)]
    fn xor(self, y: u64x4) -> u64x4 {
        self ^ y
    }

    #[inline(always)]
    fn turn1(self, y: u64x4, _turns: ()) -> u64x4 {
        words_of(move32(bytes_of(self.xor(y))))
    }

    #[inline(always)]
    fn turn2(self, y: u64x4, _turns: ()) -> u64x4 {
        words_of(move24(bytes_of(self.xor(y))))
    }

    #[inline(always)]
    fn turn3(self, y: u64x4, _turns: ()) -> u64x4 {
        words_of(move16(bytes_of(self.xor(y))))
    }

    #[inline(always)]
    fn turn4(self, y: u64x4, _turns: ()) -> u64x4 {
        let z = self ^ y;
        (z >> u64x4::splat(63)) | (z << u64x4::splat(1))
    }
}
