// SHA-256 on any number of blocks (FIPS 180-4, section 6.2.2): the schedules of a run of eight are made at
// once, and the rounds of its blocks follow one another. If there are many runs, the schedules of each are
// made during the rounds of the run before it.

ghost use Rattle.std.specs.Prelude.{◌≡◌, ◌<◌, ◌≤◌, ◌+◌, ◌-◌, ◌*◌, ℕ, List, [], length, slice_index, slice_index_or};
ghost use Rattle.std.specs.Simd.Lanes.{fold_l};
ghost use Rattle.sha2.specs.Sha256;
ghost use Rattle.sha_blocks.specs.inside.Schedules.{AreKeyed, IsAhead, IsKeyedTo};

use crate::functions::{choice, majority, sums};
use crate::one_round;
use crate::schedules::{Schedules, Words, put_schedules, put_words};
use crate::single::compress_block;
use std::simd::prelude::*;
use words::level;

// The two functions below compute their rotations side by side, which makes a shorter chain: with the
// schedule made beforehand, each round waits for the previous one.
#[inline(always)]
fn big_sigma0(x: u32) -> u32
    ensures { result ≡ Sha256.big_sigma0 x }
{
    x.rotate_right(2) ^ x.rotate_right(13) ^ x.rotate_right(22)
}

#[inline(always)]
fn big_sigma1(x: u32) -> u32
    ensures { result ≡ Sha256.big_sigma1 x }
{
    x.rotate_right(6) ^ x.rotate_right(11) ^ x.rotate_right(25)
}

// One round, with the sum of its constant and its word.
#[inline(always)]
fn round(v: [u32; 8], keyed: u32) -> [u32; 8]
    ensures { (k w : ℕ) → keyed ≡ Sha256.add32 k w → result ≡ Sha256.round v k w }
{
    one_round!(u32::wrapping_add, v, keyed)
}

// Four rounds of block i.
#[inline(always)]
fn four_rounds(v: &mut [u32; 8], schedules: &Schedules, t: usize, i: usize)
    requires block { i < 8 }
    requires rounds { t + 4 ≤ 64 }
    ensures { (h b : List ℕ) → v.old ≡ Sha256.rounds h (Sha256.schedule b 48) t → IsKeyedTo b 64 i schedules.now
        → v.new ≡ Sha256.rounds h (Sha256.schedule b 48) (t + 4) }
{
    let x = round(*v, schedules[t][i]);
    let x = round(x, schedules[t + 1][i]);
    let x = round(x, schedules[t + 2][i]);
    *v = round(x, schedules[t + 3][i]);
}

// Sixteen rounds of block i.
#[inline(always)]
fn sixteen_rounds(v: &mut [u32; 8], schedules: &Schedules, t: usize, i: usize)
    requires block { i < 8 }
    requires rounds { t + 16 ≤ 64 }
    ensures { (h b : List ℕ) → v.old ≡ Sha256.rounds h (Sha256.schedule b 48) t → IsKeyedTo b 64 i schedules.now
        → v.new ≡ Sha256.rounds h (Sha256.schedule b 48) (t + 16) }
{
    four_rounds(v, schedules, t, i);
    four_rounds(v, schedules, t + 4, i);
    four_rounds(v, schedules, t + 8, i);
    four_rounds(v, schedules, t + 12, i);
}

// The rounds of block i, written out; below x86-64-v3 they are in a loop, which is faster there.
#[inline(always)]
fn all_rounds(v: &mut [u32; 8], schedules: &Schedules, i: usize)
    requires { i < 8 }
    ensures { (b : List ℕ) → IsKeyedTo b 64 i schedules.now → v.new ≡ Sha256.rounds v.old (Sha256.schedule b 48) 64 }
{
    if level() < 3 {
        'quarters: for quarter in 0..4 {
            sixteen_rounds(v, schedules, 16 * quarter, i);
        }
        return;
    }
    sixteen_rounds(v, schedules, 0, i);
    sixteen_rounds(v, schedules, 16, i);
    sixteen_rounds(v, schedules, 32, i);
    sixteen_rounds(v, schedules, 48, i);
}

// Takes block i into a hash value.
#[inline(always)]
fn compress_block_of_run(h: &mut [u32; 8], schedules: &Schedules, i: usize)
    requires { i < 8 }
    ensures { (b : List ℕ) → IsKeyedTo b 64 i schedules.now → h.new ≡ Sha256.compress h.old b }
{
    let mut v = *h;
    all_rounds(&mut v, schedules, i);
    *h = sums(*h, v);
}

// Takes block i into a hash value, and puts eight words of each schedule of another run, from word 8 * i on.
// One word of each comes in the middle of every eight rounds, so that the processor works on both side by
// side.
#[inline(always)]
fn compress_block_making_next(
    h: &mut [u32; 8],
    schedules: &Schedules,
    i: usize,
    other: &[[u8; 64]; 8],
    words: &mut Words,
    next: &mut Schedules,
)
    requires { i < 8 }
    ensures value { (b : List ℕ) → IsKeyedTo b 64 i schedules.now → h.new ≡ Sha256.compress h.old b }
    ensures ahead { (j : ℕ) → j < 8 → IsAhead (slice_index_or other.now j []) (8 * i) j words.old next.old
        → IsAhead (slice_index_or other.now j []) (8 * (i + 1)) j words.new next.new }
    ensures words { length words.new ≡ 64 }
    ensures next { length next.new ≡ 64 }
{
    let mut v = *h;
    'turns: for turn in 0..8 {
        four_rounds(&mut v, schedules, 8 * turn, i);
        put_words(other, words, next, 8 * i + turn);
        four_rounds(&mut v, schedules, 8 * turn + 4, i);
    }
    *h = sums(*h, v);
}

// Takes a run of eight blocks into a hash value.
#[inline(never)]
fn compress_run(h: &mut [u32; 8], schedules: &Schedules)
    ensures { (run : List (List ℕ)) → AreKeyed run schedules.now → h.new ≡ fold_l Sha256.compress h.old run }
{
    let mut value = *h;
    'blocks: for i in 0..8 {
        compress_block_of_run(&mut value, schedules, i);
    }
    *h = value;
}

// Takes a run of eight blocks into a hash value, and puts the schedules of another into `next`. The first
// sixteen words of a schedule are those of its block: they come with the first two blocks, in a loop of their
// own, so that neither loop asks where a word comes from.
#[inline(never)]
fn compress_run_making_next(
    h: &mut [u32; 8],
    schedules: &Schedules,
    other: &[[u8; 64]; 8],
    words: &mut Words,
    next: &mut Schedules,
)
    ensures value { (run : List (List ℕ)) → AreKeyed run schedules.now
        → h.new ≡ fold_l Sha256.compress h.old run }
    ensures next { AreKeyed other.now next.new }
    ensures words { length words.new ≡ 64 }
    ensures length { length next.new ≡ 64 }
{
    let mut value = *h;
    'first: for i in 0..2 {
        compress_block_making_next(&mut value, schedules, i, other, words, next);
    }
    'others: for i in 2..8 {
        compress_block_making_next(&mut value, schedules, i, other, words, next);
    }
    *h = value;
}

// Takes runs of eight blocks into a hash value, making the schedules of each before its rounds.
#[inline(never)]
fn compress_runs_one_by_one(h: &mut [u32; 8], runs: &[[[u8; 64]; 8]])
    ensures { h.new ≡ fold_l (λ v run. fold_l Sha256.compress v run) h.old runs.now }
{
    let mut schedules = [[0; 8]; 64];
    'runs: for run in runs {
        put_schedules(run, &mut schedules);
        compress_run(h, &schedules);
    }
}

// Takes runs of eight blocks into a hash value, making the schedules of each run during the rounds of the run
// before it: two buffers for schedules take turns.
#[inline(never)]
fn compress_runs_interleaved(h: &mut [u32; 8], runs: &[[[u8; 64]; 8]])
    requires { 0 < length runs.now }
    ensures { h.new ≡ fold_l (λ v run. fold_l Sha256.compress v run) h.old runs.now }
{
    let mut words = [u32x8::splat(0); 64];
    let mut first = [[0; 8]; 64];
    let mut second = [[0; 8]; 64];
    let mut made = &mut first;
    let mut room = &mut second;
    put_schedules(&runs[0], made);
    'runs: for k in 1..runs.len() {
        compress_run_making_next(h, made, &runs[k], &mut words, room);
        (made, room) = (room, made);
    }
    compress_run(h, made);
}

// The number of runs from which on their schedules are made ahead: a single one would pay for buffers that it
// does not need, and below x86-64-v3 two gain less than the buffers cost.
#[inline(always)]
fn fewest() -> usize
    ensures { 0 < result }
{
    if level() < 3 { 3 } else { 2 }
}

// Takes runs of eight blocks into a hash value.
#[inline(always)]
fn compress_runs(h: &mut [u32; 8], runs: &[[[u8; 64]; 8]])
    ensures { h.new ≡ fold_l (λ v run. fold_l Sha256.compress v run) h.old runs.now }
{
    if runs.len() < fewest() {
        compress_runs_one_by_one(h, runs);
    } else {
        compress_runs_interleaved(h, runs);
    }
}

// Takes blocks into a hash value, one by one.
fn compress_each(h: &mut [u32; 8], blocks: &[[u8; 64]])
    ensures { h.new ≡ fold_l Sha256.compress h.old blocks.now }
{
    'blocks: for block in blocks {
        compress_block(h, block);
    }
}

// Takes blocks into a hash value by runs of eight. Not inlined, like the two ways to take runs, so that none
// of them pays for the stack buffers of another.
#[inline(never)]
fn compress_by_runs(h: &mut [u32; 8], blocks: &[[u8; 64]])
    ensures { h.new ≡ fold_l Sha256.compress h.old blocks.now }
{
    let (runs, rest) = blocks.as_chunks::<8>();
    compress_runs(h, runs);
    compress_each(h, rest);
}

/// Takes blocks into the hash value of SHA-256, one after the other (FIPS 180-4, section 6.2.2).
pub fn compress_blocks256(h: &mut [u32; 8], blocks: &[[u8; 64]])
    ensures { h.new ≡ fold_l Sha256.compress h.old blocks.now }
{
    if blocks.len() < 8 {
        compress_each(h, blocks);
    } else {
        compress_by_runs(h, blocks);
    }
}
