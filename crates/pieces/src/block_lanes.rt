// Messages of different lengths side by side, block by block. A lane whose message has no more blocks keeps its value
// while the others go on.

ghost use Rattle.std.specs.Prelude.{◌≡◌, ◌<◌, ◌≤◌, ◌+◌, ◌*◌, ◌/◌, ℕ, List, length, drop, slice_index, take};
ghost use Rattle.words.specs.inside.Lanes.{lane8};
ghost use Rattle.pieces.specs.inside.Blocks.{taken};

use std::simd::prelude::*;

/// The hash values of `LANES` messages, one in each lane. `V` says of which hash function.
pub(crate) trait HashValues<V, const LANES: usize, const N: usize>: Copy {
    // Room for the work on a block in each lane.
    type Room: Copy;

    // The words in a lane.
    ghost lane: { ℕ → Self → List ℕ };

    // What a block makes of the words of a hash value, by its place among the blocks.
    ghost made: { ℕ → List ℕ → List ℕ → List ℕ };

    /// Room with nothing in it.
    fn room() -> Self::Room;

    /// Takes block `block` in each lane: it begins `at` bytes after the lane's start.
    fn take_blocks(
        &mut self,
        room: &mut Self::Room,
        bytes: &[u8],
        starts: &[usize; LANES],
        at: usize,
        block: usize,
    )
        requires counted { N * (block + 1) ≤ length bytes.now }
        requires fits { (i : ℕ) → i < LANES → slice_index starts.now i + at + N ≤ length bytes.now }
        ensures { (i : ℕ) → i < LANES → lane i self.new
            ≡ made block (lane i self.old) (take N (drop (slice_index starts.now i + at) bytes.now)) };

    /// Takes the hash value of `next` in each lane whose count is above `done`. The others keep theirs.
    fn choose(&mut self, next: &Self, done: usize, counts: &[usize; LANES])
        ensures next { (i : ℕ) → i < LANES → done < slice_index counts.now i → lane i self.new ≡ lane i next.now }
        ensures kept { (i : ℕ) → i < LANES → slice_index counts.now i ≤ done → lane i self.new ≡ lane i self.old };

    ghost some_lanes: { 0 < LANES };

    ghost few_lanes: { LANES ≤ 8 };

    ghost positive: { 0 < N };
}

/// The greatest count.
#[inline(always)]
pub(crate) fn most_of<const LANES: usize>(counts: &[usize; LANES]) -> usize
    ensures bound { (i : ℕ) → i < LANES → slice_index counts.now i ≤ result }
    ensures least { (n : ℕ) → ((i : ℕ) → i < LANES → slice_index counts.now i ≤ n) → result ≤ n }
{
    let mut most = 0;
    'lanes: for i in 0..LANES {
        if counts[i] > most {
            most = counts[i];
        }
    }
    most
}

/// The least count.
#[inline(always)]
pub(crate) fn least_of<const LANES: usize>(counts: &[usize; LANES]) -> usize
    requires { 0 < LANES }
    ensures { (i : ℕ) → i < LANES → result ≤ slice_index counts.now i }
{
    let mut least = counts[0];
    'lanes: for i in 1..LANES {
        least = least.min(counts[i]);
    }
    least
}

// The place of block `block` of a message that begins at `start`, if it has that block; else the front of the buffer.
#[inline(always)]
fn place_of(start: usize, count: usize, size: usize, block: usize, len: usize) -> usize
    requires counted { size * (block + 1) ≤ len }
    requires fits { start + size * count ≤ len }
    ensures fits { result + size ≤ len }
    ensures place { block < count → result ≡ start + size * block }
{
    if block < count {
        start + size * block
    } else {
        0
    }
}

// Those of the messages in the lanes.
#[inline(always)]
fn places_of<const LANES: usize>(
    starts: &[usize; LANES],
    counts: &[usize; LANES],
    size: usize,
    block: usize,
    len: usize,
) -> [usize; LANES]
    requires counted { size * (block + 1) ≤ len }
    requires fits { (i : ℕ) → i < LANES → slice_index starts.now i + size * slice_index counts.now i ≤ len }
    ensures fits { (i : ℕ) → i < LANES → slice_index result i + size ≤ len }
    ensures place { (i : ℕ) → i < LANES → block < slice_index counts.now i
        → slice_index result i ≡ slice_index starts.now i + size * block }
{
    let mut places = [0; LANES];
    'lanes: for i in 0..LANES {
        places[i] = place_of(starts[i], counts[i], size, block, len);
    }
    places
}

// Takes block `block` of each message that has one. From block `least` on there are some that have none.
#[inline(always)]
fn take_next<V, H: HashValues<V, LANES, N>, const LANES: usize, const N: usize>(
    values: &mut H,
    room: &mut H::Room,
    bytes: &[u8],
    starts: &[usize; LANES],
    counts: &[usize; LANES],
    least: usize,
    block: usize,
)
    requires counted { N * (block + 1) ≤ length bytes.now }
    requires least { (i : ℕ) → i < LANES → least ≤ slice_index counts.now i }
    requires fits { (i : ℕ) → i < LANES → slice_index starts.now i + N * slice_index counts.now i ≤ length bytes.now }
    ensures next { (i : ℕ) → i < LANES → block < slice_index counts.now i → H.lane i values.new
        ≡ H.made block (H.lane i values.old) (take N (drop (slice_index starts.now i + N * block) bytes.now)) }
    ensures kept { (i : ℕ) → i < LANES → slice_index counts.now i ≤ block → H.lane i values.new ≡ H.lane i values.old }
{
    if block < least {
        values.take_blocks(room, bytes, starts, N * block, block);
        return;
    }
    let places = places_of(starts, counts, N, block, bytes.len());
    let mut next = *values;
    next.take_blocks(room, bytes, &places, 0, block);
    values.choose(&next, block, counts);
}

/// Takes the first blocks of each message, as many as its count says.
#[inline(always)]
pub(crate) fn take_each<V, H: HashValues<V, LANES, N>, const LANES: usize, const N: usize>(
    values: &mut H,
    room: &mut H::Room,
    bytes: &[u8],
    starts: &[usize; LANES],
    counts: &[usize; LANES],
)
    requires { (i : ℕ) → i < LANES → slice_index starts.now i + N * slice_index counts.now i ≤ length bytes.now }
    ensures { (i : ℕ) → i < LANES → H.lane i values.new
        ≡ taken H.made N (H.lane i values.old) bytes.now (slice_index starts.now i) (slice_index counts.now i) }
{
    let least = least_of(counts);
    'each: for block in 0..most_of(counts) {
        take_next::<V, H, LANES, N>(values, room, bytes, starts, counts, least, block);
    }
}

// The word of `next` if its count is above `done`, else the old one.
#[inline(always)]
fn picked<W: Copy>(old: W, next: W, done: usize, count: usize) -> W
    ensures next { done < count → result ≡ next }
    ensures kept { count ≤ done → result ≡ old }
{
    if done < count { next } else { old }
}

// The word of `next` in each lane whose count is above `done`, and the old one in the others.
macro_rules! picked_lanes {
    ($vector:ident, $old:ident, $next:ident, $done:ident, $counts:ident, [$($k:literal),*]) => {{
        let old = $old.to_array();
        let next = $next.to_array();
        $vector::from_array([$(picked(old[$k], next[$k], $done, $counts[$k])),*])
    }};
}

#[inline(always)]
fn chosen32(old: u32x8, next: u32x8, done: usize, counts: &[usize; 8]) -> u32x8
    ensures next { (i : ℕ) → i < 8 → done < slice_index counts.now i → slice_index result i ≡ slice_index next i }
    ensures kept { (i : ℕ) → i < 8 → slice_index counts.now i ≤ done → slice_index result i ≡ slice_index old i }
{
    picked_lanes!(u32x8, old, next, done, counts, [0, 1, 2, 3, 4, 5, 6, 7])
}

#[inline(always)]
fn chosen64(old: u64x4, next: u64x4, done: usize, counts: &[usize; 4]) -> u64x4
    ensures next { (i : ℕ) → i < 4 → done < slice_index counts.now i → slice_index result i ≡ slice_index next i }
    ensures kept { (i : ℕ) → i < 4 → slice_index counts.now i ≤ done → slice_index result i ≡ slice_index old i }
{
    picked_lanes!(u64x4, old, next, done, counts, [0, 1, 2, 3])
}

// Each of eight vectors, chosen so.
macro_rules! chosen {
    ($chosen:ident, $old:ident, $next:ident, $done:ident, $counts:ident, [$($k:literal),*]) => {
        [$($chosen($old[$k], $next[$k], $done, $counts)),*]
    };
}

/// `HashValues::choose` of eight words of 32 bits in each lane.
#[inline(always)]
pub(crate) fn choose32(values: &mut [u32x8; 8], next: &[u32x8; 8], done: usize, counts: &[usize; 8])
    ensures next { (i : ℕ) → i < 8 → done < slice_index counts.now i → lane8 i values.new ≡ lane8 i next.now }
    ensures kept { (i : ℕ) → i < 8 → slice_index counts.now i ≤ done → lane8 i values.new ≡ lane8 i values.old }
{
    *values = chosen!(
        chosen32,
        values,
        next,
        done,
        counts,
        [0, 1, 2, 3, 4, 5, 6, 7]
    );
}

/// `HashValues::choose` of eight words of 64 bits in each lane.
#[inline(always)]
pub(crate) fn choose64(values: &mut [u64x4; 8], next: &[u64x4; 8], done: usize, counts: &[usize; 4])
    ensures next { (i : ℕ) → i < 4 → done < slice_index counts.now i → lane8 i values.new ≡ lane8 i next.now }
    ensures kept { (i : ℕ) → i < 4 → slice_index counts.now i ≤ done → lane8 i values.new ≡ lane8 i values.old }
{
    *values = chosen!(
        chosen64,
        values,
        next,
        done,
        counts,
        [0, 1, 2, 3, 4, 5, 6, 7]
    );
}
