// What both ways of taking a block share (FIPS 180-4, sections 4.1.3, 5.2.2 and 6.4.2).

ghost use Rattle.std.specs.Prelude.{◌≡◌, ◌<◌, ◌*◌, ℕ};
ghost use Rattle.sha2.specs.Sha512;

use crate::{added, one_round};
use words::level;

// Ch, with one operation fewer.
#[inline(always)]
pub(crate) fn choice(x: u64, y: u64, z: u64) -> u64
    ensures { result ≡ Sha512.ch x y z }
{
    z ^ (x & (y ^ z))
}

// Maj: the `x ^ y` of a round is the `y ^ z` of the next, so it is computed once.
#[inline(always)]
pub(crate) fn majority(x: u64, y: u64, z: u64) -> u64
    ensures { result ≡ Sha512.maj x y z }
{
    y ^ ((x ^ y) & (y ^ z))
}

// The two functions below nest their rotations below x86-64-v3, where a rotation overwrites what it rotates: that takes
// fewer copies of `x`.
#[inline(always)]
pub(crate) fn big_sigma0(x: u64) -> u64
    ensures { result ≡ Sha512.big_sigma0 x }
{
    if level() < 3 {
        return (x ^ (x ^ x.rotate_right(5)).rotate_right(6)).rotate_right(28);
    }
    x.rotate_right(28) ^ x.rotate_right(34) ^ x.rotate_right(39)
}

#[inline(always)]
pub(crate) fn big_sigma1(x: u64) -> u64
    ensures { result ≡ Sha512.big_sigma1 x }
{
    if level() < 3 {
        return (x ^ (x ^ x.rotate_right(23)).rotate_right(4)).rotate_right(14);
    }
    x.rotate_right(14) ^ x.rotate_right(18) ^ x.rotate_right(41)
}

/// One round, with the sum of its constant and its word.
#[inline(always)]
pub(crate) fn round(v: [u64; 8], keyed: u64) -> [u64; 8]
    ensures { (k w : ℕ) → keyed ≡ Sha512.add64 k w → result ≡ Sha512.round v k w }
{
    one_round!(u64::wrapping_add, v, keyed)
}

/// The sums of eight words and eight others.
#[inline(always)]
pub(crate) fn sums(h: [u64; 8], v: [u64; 8]) -> [u64; 8]
    ensures { result ≡ Sha512.add_state h v }
{
    added!(u64::wrapping_add, h, v)
}

/// A word of a block.
#[inline(always)]
pub(crate) fn word(block: &[u8; 128], t: usize) -> u64
    requires { t < 16 }
    ensures { result ≡ Sha512.word_at block.now (8 * t) }
{
    let i = 8 * t;
    u64::from_be_bytes([
        block[i],
        block[i + 1],
        block[i + 2],
        block[i + 3],
        block[i + 4],
        block[i + 5],
        block[i + 6],
        block[i + 7],
    ])
}
