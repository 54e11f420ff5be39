// SHA-512 on any number of blocks (FIPS 180-4, section 6.4.2): the schedules of a run of four are made at
// once, during the rounds of the run before it, and the rounds of its blocks follow one another.

ghost use Rattle.std.specs.Prelude.{◌≡◌, ◌<◌, ◌≤◌, ◌+◌, ◌-◌, ◌*◌, ℕ, List, [], length, slice_index, slice_index_or};
ghost use Rattle.std.specs.Simd.Lanes.{fold_l};
ghost use Rattle.sha2.specs.Sha512;
ghost use Rattle.sha_blocks.specs.inside.Schedules512.{AreKeyed, IsAhead, IsKeyedTo};

use super::functions::{round, sums};
use super::ring::compress_block;
use super::schedules::{Schedules, Words, load, put_schedules, step};
use std::simd::prelude::*;
use words::level;

// Four rounds of block i.
#[inline(always)]
fn four_rounds(v: &mut [u64; 8], schedules: &Schedules, t: usize, i: usize)
    requires block { i < 4 }
    requires rounds { t + 4 ≤ 80 }
    ensures { (h b : List ℕ) → v.old ≡ Sha512.rounds h (Sha512.schedule b 64) t → IsKeyedTo b 80 i schedules.now
        → v.new ≡ Sha512.rounds h (Sha512.schedule b 64) (t + 4) }
{
    let x = round(*v, schedules[t][i]);
    let x = round(x, schedules[t + 1][i]);
    let x = round(x, schedules[t + 2][i]);
    *v = round(x, schedules[t + 3][i]);
}

// Takes block i into a hash value.
#[inline(always)]
fn compress_block_of_run(h: &mut [u64; 8], schedules: &Schedules, i: usize)
    requires { i < 4 }
    ensures { (b : List ℕ) → IsKeyedTo b 80 i schedules.now → h.new ≡ Sha512.compress h.old b }
{
    let mut v = *h;
    'turns: for turn in 0..10 {
        four_rounds(&mut v, schedules, 8 * turn, i);
        four_rounds(&mut v, schedules, 8 * turn + 4, i);
    }
    *h = sums(*h, v);
}

// Takes block i into a hash value, and makes sixteen words, from 16 * i + 16 on, of each of the other
// schedules. The words come between the rounds, so that the processor works on both side by side.
#[inline(always)]
fn compress_block_making_next(
    h: &mut [u64; 8],
    schedules: &Schedules,
    i: usize,
    words: &mut Words,
    next: &mut Schedules,
)
    requires { i < 4 }
    ensures value { (b : List ℕ) → IsKeyedTo b 80 i schedules.now → h.new ≡ Sha512.compress h.old b }
    ensures ahead { (j : ℕ) → j < 4 → (b : List ℕ) → IsAhead b (16 * i + 16) j words.old next.old
        → IsAhead b (16 * i + 32) j words.new next.new }
    ensures words { length words.new ≡ 80 }
    ensures next { length next.new ≡ 80 }
{
    let mut v = *h;
    'turns: for turn in 0..8 {
        four_rounds(&mut v, schedules, 8 * turn, i);
        step(words, next, 16 * i + 2 * turn);
        four_rounds(&mut v, schedules, 8 * turn + 4, i);
        step(words, next, 16 * i + 2 * turn + 1);
    }
    four_rounds(&mut v, schedules, 64, i);
    four_rounds(&mut v, schedules, 68, i);
    four_rounds(&mut v, schedules, 72, i);
    four_rounds(&mut v, schedules, 76, i);
    *h = sums(*h, v);
}

// Takes a run of four blocks into a hash value.
#[inline(never)]
fn compress_run(h: &mut [u64; 8], schedules: &Schedules)
    ensures { (run : List (List ℕ)) → AreKeyed run schedules.now → h.new ≡ fold_l Sha512.compress h.old run }
{
    let mut value = *h;
    'blocks: for i in 0..4 {
        compress_block_of_run(&mut value, schedules, i);
    }
    *h = value;
}

// Takes a run of four blocks into a hash value, and puts the schedules of another into `next`.
#[inline(never)]
fn compress_run_making_next(
    h: &mut [u64; 8],
    schedules: &Schedules,
    other: &[[u8; 128]; 4],
    words: &mut Words,
    next: &mut Schedules,
)
    ensures value { (run : List (List ℕ)) → AreKeyed run schedules.now
        → h.new ≡ fold_l Sha512.compress h.old run }
    ensures next { AreKeyed other.now next.new }
    ensures words { length words.new ≡ 80 }
    ensures length { length next.new ≡ 80 }
{
    load(other, words, next);
    let mut value = *h;
    'blocks: for i in 0..4 {
        compress_block_making_next(&mut value, schedules, i, words, next);
    }
    *h = value;
}

// Takes runs of four blocks into a hash value, making the schedules of each run during the rounds of the run
// before it: two buffers for schedules take turns.
fn compress_runs_interleaved(h: &mut [u64; 8], runs: &[[[u8; 128]; 4]])
    requires { 0 < length runs.now }
    ensures { h.new ≡ fold_l (λ v run. fold_l Sha512.compress v run) h.old runs.now }
{
    let mut words = [u64x4::splat(0); 80];
    let mut first = [[0; 4]; 80];
    let mut second = [[0; 4]; 80];
    let mut made = &mut first;
    let mut room = &mut second;
    put_schedules(&runs[0], &mut words, made);
    'runs: for k in 1..runs.len() {
        compress_run_making_next(h, made, &runs[k], &mut words, room);
        (made, room) = (room, made);
    }
    compress_run(h, made);
}

// Takes blocks into a hash value, one by one.
fn compress_each(h: &mut [u64; 8], blocks: &[[u8; 128]])
    ensures { h.new ≡ fold_l Sha512.compress h.old blocks.now }
{
    'blocks: for block in blocks {
        compress_block(h, block);
    }
}

// Takes blocks into a hash value by runs of four. Not inlined, so that fewer blocks need no buffers for
// schedules.
#[inline(never)]
fn compress_by_runs(h: &mut [u64; 8], blocks: &[[u8; 128]])
    requires { 4 ≤ length blocks.now }
    ensures { h.new ≡ fold_l Sha512.compress h.old blocks.now }
{
    let (runs, rest) = blocks.as_chunks::<4>();
    compress_runs_interleaved(h, runs);
    compress_each(h, rest);
}

// The number of blocks from which on they are taken by runs: below x86-64-v3, taking fewer by runs would be
// slower.
#[inline(always)]
fn fewest() -> usize
    ensures { 4 ≤ result }
{
    if level() < 3 { 16 } else { 4 }
}

/// Takes blocks into the hash value of SHA-512, one after the other (FIPS 180-4, section 6.4.2).
pub fn compress_blocks512(h: &mut [u64; 8], blocks: &[[u8; 128]])
    ensures { h.new ≡ fold_l Sha512.compress h.old blocks.now }
{
    if blocks.len() < fewest() {
        compress_each(h, blocks);
    } else {
        compress_by_runs(h, blocks);
    }
}
