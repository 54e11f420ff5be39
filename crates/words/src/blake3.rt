// The compression function of BLAKE3 (the BLAKE3 paper, section 2.2).

ghost use Rattle.std.specs.Prelude.{◌≡◌};
ghost use Rattle.words.specs.Blake3.{compress3, permuted_words, rounds3, working_words3};

use crate::rows::round32;
use crate::tables::{IV32, PERMUTED};

#[inline(always)]
pub(crate) fn working(h: &[u32; 8], t: u64, b: u32, d: u32) -> [u32; 16]
    ensures { result ≡ working_words3 h.now t b d }
{
    let low = (t % 0x1_0000_0000) as u32;
    let high = (t >> 32) as u32;
    [
        h[0], h[1], h[2], h[3], h[4], h[5], h[6], h[7], IV32[0], IV32[1], IV32[2], IV32[3], low,
        high, b, d,
    ]
}

/// All sixteen words of BLAKE3's compression function, for the chaining value `h`, the block `m`, the counter
/// `t`, the block's length `b` in bytes and the flags `d` (the BLAKE3 paper, section 2.2). The first eight
/// words are a chaining value.
#[tactic(auto, unfolding(crate::specs::Blake3::compress3, crate::specs::Blake3::rounds3, crate::specs::Blake3::permuted_words, crate::specs::Mix::round))]
pub fn compress_3(h: &[u32; 8], m: &[u32; 16], t: u64, b: u32, d: u32) -> [u32; 16]
    ensures { result ≡ compress3 h.now m.now t b d }
{
    let mut v = working(h, t, b, d);
    // The rounds are written out here: in a function of their own, the compiler would read each word of the
    // block separately.
    round32(&mut v, m, &PERMUTED[0]);
    round32(&mut v, m, &PERMUTED[1]);
    round32(&mut v, m, &PERMUTED[2]);
    round32(&mut v, m, &PERMUTED[3]);
    round32(&mut v, m, &PERMUTED[4]);
    round32(&mut v, m, &PERMUTED[5]);
    round32(&mut v, m, &PERMUTED[6]);
    [
        v[0] ^ v[8],
        v[1] ^ v[9],
        v[2] ^ v[10],
        v[3] ^ v[11],
        v[4] ^ v[12],
        v[5] ^ v[13],
        v[6] ^ v[14],
        v[7] ^ v[15],
        v[8] ^ h[0],
        v[9] ^ h[1],
        v[10] ^ h[2],
        v[11] ^ h[3],
        v[12] ^ h[4],
        v[13] ^ h[5],
        v[14] ^ h[6],
        v[15] ^ h[7],
    ]
}
