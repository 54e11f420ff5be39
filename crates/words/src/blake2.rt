// The compression functions of BLAKE2s and BLAKE2b (RFC 7693, section 3.2).

ghost use Rattle.std.specs.Prelude.{◌≡◌};
ghost use Rattle.words.specs.Blake2.{blake2b, blake2s, compress, rounds, working_words};

use crate::rows::{round32, round64};
use crate::tables::{IV32, IV64, SIGMA};
use std::simd::{u32x4, u64x4};

/// The working words before the first round: the chaining value, and the initial value combined with the
/// count and the last block's mark (RFC 7693, section 3.2). For words in lanes, `$splat` puts a word into
/// each lane.
#[macro_export]
macro_rules! working {
    ($h:ident, $iv:ident, $low:ident, $high:ident, $last:ident $(, $splat:path)?) => {{
        let marked = if $last { !$iv[6] } else { $iv[6] };
        [
            $h[0],
            $h[1],
            $h[2],
            $h[3],
            $h[4],
            $h[5],
            $h[6],
            $h[7],
            $($splat)?($iv[0]),
            $($splat)?($iv[1]),
            $($splat)?($iv[2]),
            $($splat)?($iv[3]),
            $($splat)?($iv[4] ^ $low),
            $($splat)?($iv[5] ^ $high),
            $($splat)?(marked),
            $($splat)?($iv[7]),
        ]
    }};
}

// Ten rounds, one for each row of the schedule.
macro_rules! ten_rounds {
    ($round:ident, $v:ident, $m:ident) => {
        $round($v, $m, &SIGMA[0]);
        $round($v, $m, &SIGMA[1]);
        $round($v, $m, &SIGMA[2]);
        $round($v, $m, &SIGMA[3]);
        $round($v, $m, &SIGMA[4]);
        $round($v, $m, &SIGMA[5]);
        $round($v, $m, &SIGMA[6]);
        $round($v, $m, &SIGMA[7]);
        $round($v, $m, &SIGMA[8]);
        $round($v, $m, &SIGMA[9]);
    };
}

// The eight words of two rows.
macro_rules! joined {
    ($low:ident, $high:ident) => {{
        let [h0, h1, h2, h3] = $low.to_array();
        let [h4, h5, h6, h7] = $high.to_array();
        [h0, h1, h2, h3, h4, h5, h6, h7]
    }};
}

// A row of the chaining value, xored with the rows of the state that begin at the two places.
macro_rules! folded {
    ($row:ident, $h:ident, $v:ident, $i:literal, $j:literal) => {
        $h ^ $row::from_array([$v[$i], $v[$i + 1], $v[$i + 2], $v[$i + 3]])
            ^ $row::from_array([$v[$j], $v[$j + 1], $v[$j + 2], $v[$j + 3]])
    };
}

#[inline(always)]
fn working32(h: &[u32; 8], t: u64, last: bool) -> [u32; 16]
    ensures { result ≡ working_words blake2s h.now t last }
{
    let low = (t % 0x1_0000_0000) as u32;
    let high = (t >> 32) as u32;
    working!(h, IV32, low, high, last)
}

#[inline(always)]
fn working64(h: &[u64; 8], t: u128, last: bool) -> [u64; 16]
    ensures { result ≡ working_words blake2b h.now t last }
{
    let low = (t % 0x1_0000_0000_0000_0000) as u64;
    let high = (t >> 64) as u64;
    working!(h, IV64, low, high, last)
}

#[inline(always)]
#[tactic(auto, unfolding(crate::specs::Blake2::rounds))]
fn rounds32(v: &mut [u32; 16], m: &[u32; 16])
    ensures { v.new ≡ rounds blake2s v.old m.now 10 }
{
    ten_rounds!(round32, v, m);
}

#[inline(always)]
#[tactic(auto, unfolding(crate::specs::Blake2::rounds))]
fn rounds64(v: &mut [u64; 16], m: &[u64; 16])
    ensures { v.new ≡ rounds blake2b v.old m.now 12 }
{
    ten_rounds!(round64, v, m);
    round64(v, m, &SIGMA[0]);
    round64(v, m, &SIGMA[1]);
}

/// F of BLAKE2s: takes the block `m` into the chaining value `h`. `t` is the number of input bytes up to
/// and including this block, and `last` marks the last block (RFC 7693, section 3.2).
#[tactic(auto, unfolding(crate::specs::Blake2::compress))]
pub fn compress_2s(h: &mut [u32; 8], m: &[u32; 16], t: u64, last: bool)
    ensures { h.new ≡ compress blake2s h.old m.now t last }
{
    // The chaining value is read and written by rows, so that it stays in registers from block to block.
    let low = u32x4::from_slice(&h[..4]);
    let high = u32x4::from_slice(&h[4..]);
    let mut v = working32(&joined!(low, high), t, last);
    rounds32(&mut v, m);
    let low = folded!(u32x4, low, v, 0, 8);
    let high = folded!(u32x4, high, v, 4, 12);
    low.copy_to_slice(&mut h[..4]);
    high.copy_to_slice(&mut h[4..]);
}

/// F of BLAKE2b: takes the block `m` into the chaining value `h`. `t` is the number of input bytes up to
/// and including this block, and `last` marks the last block (RFC 7693, section 3.2).
#[tactic(auto, unfolding(crate::specs::Blake2::compress))]
pub fn compress_2b(h: &mut [u64; 8], m: &[u64; 16], t: u128, last: bool)
    ensures { h.new ≡ compress blake2b h.old m.now t last }
{
    // The chaining value is read and written by rows, so that it stays in registers from block to block.
    let low = u64x4::from_slice(&h[..4]);
    let high = u64x4::from_slice(&h[4..]);
    let mut v = working64(&joined!(low, high), t, last);
    rounds64(&mut v, m);
    let low = folded!(u64x4, low, v, 0, 8);
    let high = folded!(u64x4, high, v, 4, 12);
    low.copy_to_slice(&mut h[..4]);
    high.copy_to_slice(&mut h[4..]);
}
