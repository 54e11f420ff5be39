// Eight chunks at once, and the subtrees over them (the BLAKE3 paper, section 5.3).
//
// One chunk at a time has a fifth of the speed of the C library with AVX2. So eight whole chunks go side by
// side in eight lanes, three or four as two pairs or in four lanes, and two in the halves of rows, each way
// with its proof. The chunk that may be the last stays open, so outputs are those of the plain rule.

ghost use Rattle.std.specs.Prelude.{◌≡◌, ℕ, ◌+◌, ◌-◌, ◌*◌, ◌<◌, ◌≤◌, ◌^◌, ◌++◌, [], length, slice_index};
ghost use Rattle.std.specs.Prelude.{slice_index_or};
ghost use Rattle.b3.specs.inside.Stack.{joined_cv};
ghost use Rattle.b3.specs.inside.Runs.{run_cv, value_before_last};
ghost use Rattle.words.specs.inside.Halves.{half8, half_message, of_pairs};
ghost use Rattle.words.specs.inside.Lanes.{lane8};

use crate::chunk::CHUNK_LEN;
use crate::mode::Parameters;
use crate::node::{BLOCK_LEN, CHUNK_END, CHUNK_START, Node, PARENT, pair};
use std::array::from_fn;
use std::simd::prelude::*;
use words::lanes::{
    CHUNKS, PARENTS, Turns, four, lane_rows, message_lanes, next_lanes, pair_lanes, same_lanes, two,
};
use words::{compress_3x8, level};

// Where each lane begins to read: at its own chunk, or at the last one, which begins at `last`.
#[inline(always)]
fn lane_starts<const N: usize>(last: usize) -> [usize; N]
    requires { N ≤ 8 }
    ensures own { (i : ℕ) → i < N → 1024 * i ≤ last → slice_index result i ≡ 1024 * i }
    ensures bound { (i : ℕ) → i < N → slice_index result i ≤ last }
{
    from_fn(|i| last.min(CHUNK_LEN * i))
}

// The flags of block `j` of a whole chunk.
#[inline(always)]
fn block_flags(flags: u8, j: usize) -> u32
    requires { j < 16 }
    ensures first { j ≡ 0 → result ≡ flags + 1 }
    ensures later { 0 < j → j < 15 → result ≡ flags }
    ensures last { j ≡ 15 → result ≡ flags + 2 }
{
    let start = if j == 0 { CHUNK_START } else { 0 };
    let end = if j == 15 { CHUNK_END } else { 0 };
    u32::from(flags) + u32::from(start) + u32::from(end)
}

// The numbers of the chunks of the lanes.
#[inline(always)]
fn numbers<const N: usize>(first: u64) -> [u64; N]
    requires { first + N < 2 ^ 64 }
    ensures { (i : ℕ) → i < N → slice_index result i ≡ first + i }
{
    from_fn(|i| first + i as u64)
}

// The chaining values of the first four of some whole chunks, by lanes; `before` receives the values before
// the last block of each. Lanes beyond the last chunk read that chunk again.
fn few_chunk_lanes(
    parameters: &Parameters,
    first: u64,
    bytes: &[u8],
    before: &mut [u32x4; 8],
) -> [u32x4; 8]
    requires some { 1024 ≤ length bytes.now }
    requires numbers { first + 4 < 2 ^ 64 }
    ensures values { (i : ℕ) → i < 4 → 1024 * i + 1024 ≤ length bytes.now
        → lane8 i result ≡ run_cv parameters.now.key parameters.now.flags first bytes.now 0 i }
    ensures before { (i : ℕ) → i < 4 → 1024 * i + 1024 ≤ length bytes.now
        → lane8 i before.new ≡ value_before_last parameters.now.key parameters.now.flags first bytes.now i }
{
    let counters = numbers(first);
    let starts = lane_starts(bytes.len() - CHUNK_LEN);
    let turns = Turns::new();
    let mut values = four::same_lanes(&parameters.key);
    'each_block: for j in 0..16 {
        let message = four::message_lanes(bytes, &starts, BLOCK_LEN * j);
        let d = block_flags(parameters.flags, j);
        let next = four::next_lanes::<CHUNKS>(turns, values, message, &counters, 64, d);
        *before = values;
        values = next;
    }
    values
}

// Writes the words in each half of two pairs into the first four rows.
#[inline(always)]
fn pair_rows(h: [[u32x8; 2]; 2], rows: &mut [[u32; 8]; 8])
    ensures { (i : ℕ) → i < 4 → slice_index_or rows.new i [] ≡ of_pairs half8 h i }
{
    two::half_rows(h[0], 0, rows);
    two::half_rows(h[1], 2, rows);
}

// Writes the chaining values of two whole chunks, and those before the last block of each, into the first two
// rows.
fn two_chunk_values(
    parameters: &Parameters,
    first: u64,
    bytes: &[u8],
    values: &mut [[u32; 8]; 8],
    before: &mut [[u32; 8]; 8],
)
    requires length { length bytes.now ≡ 2048 }
    requires numbers { first + 2 < 2 ^ 64 }
    ensures values { (i : ℕ) → i < 2 → slice_index_or values.new i []
        ≡ run_cv parameters.now.key parameters.now.flags first bytes.now 0 i }
    ensures before { (i : ℕ) → i < 2
        → slice_index_or before.new i [] ≡ value_before_last parameters.now.key parameters.now.flags first bytes.now i }
{
    let counters = numbers(first);
    let starts = lane_starts(CHUNK_LEN);
    let turns = Turns::known();
    let mut next = two::same_halves(&parameters.key);
    let mut last = next;
    'each_block: for j in 0..16 {
        let message = two::message_halves(bytes, &starts, BLOCK_LEN * j);
        let d = block_flags(parameters.flags, j);
        last = next;
        next = two::next_halves::<CHUNKS>(turns, last, message, &counters, 64, d);
    }
    two::half_rows(next, 0, values);
    two::half_rows(last, 0, before);
}

// Writes the chaining values of the first four of some whole chunks, by two pairs side by side, and those
// before the last block of each. Not inlined, so that other numbers of chunks do not pay for its stack space.
#[inline(never)]
fn two_pair_values(
    parameters: &Parameters,
    first: u64,
    bytes: &[u8],
    values: &mut [[u32; 8]; 8],
    before: &mut [[u32; 8]; 8],
)
    requires some { 1024 ≤ length bytes.now }
    requires numbers { first + 4 < 2 ^ 64 }
    ensures values { (i : ℕ) → i < 4 → 1024 * i + 1024 ≤ length bytes.now
        → slice_index_or values.new i [] ≡ run_cv parameters.now.key parameters.now.flags first bytes.now 0 i }
    ensures before { (i : ℕ) → i < 4 → 1024 * i + 1024 ≤ length bytes.now
        → slice_index_or before.new i [] ≡ value_before_last parameters.now.key parameters.now.flags first bytes.now i }
{
    let counters = numbers(first);
    let [s0, s1, s2, s3] = lane_starts::<4>(bytes.len() - CHUNK_LEN);
    let turns = Turns::known();
    let start = two::same_halves(&parameters.key);
    let mut next = [start, start];
    let mut last = next;
    'each_block: for j in 0..16 {
        let left = two::message_halves(bytes, &[s0, s1], BLOCK_LEN * j);
        let right = two::message_halves(bytes, &[s2, s3], BLOCK_LEN * j);
        let d = block_flags(parameters.flags, j);
        last = next;
        next = two::next_pairs::<CHUNKS>(turns, last, [left, right], &counters, 64, d);
    }
    pair_rows(next, values);
    pair_rows(last, before);
}

// The chaining values of five to eight whole chunks, and those before their last blocks, in four lanes and
// then in four others.
fn chunk_fours(
    parameters: &Parameters,
    first: u64,
    bytes: &[u8],
    before: &mut [u32x8; 8],
) -> [u32x8; 8]
    requires some { 5120 ≤ length bytes.now }
    requires numbers { first + 8 < 2 ^ 64 }
    ensures values { (i : ℕ) → i < 8 → 1024 * i + 1024 ≤ length bytes.now
        → lane8 i result ≡ run_cv parameters.now.key parameters.now.flags first bytes.now 0 i }
    ensures before { (i : ℕ) → i < 8 → 1024 * i + 1024 ≤ length bytes.now
        → lane8 i before.new ≡ value_before_last parameters.now.key parameters.now.flags first bytes.now i }
{
    let mut left_before = four::same_lanes(&parameters.key);
    let left = few_chunk_lanes(parameters, first, bytes, &mut left_before);
    let mut right_before = left_before;
    let rest = &bytes[4 * CHUNK_LEN..];
    let right = few_chunk_lanes(parameters, first + 4, rest, &mut right_before);
    *before = four::joined_lanes(left_before, right_before);
    four::joined_lanes(left, right)
}

// The chaining values of five to eight whole chunks, and those before their last blocks, by lanes. Lanes
// beyond the last chunk read that chunk again.
fn chunk_lanes(
    parameters: &Parameters,
    first: u64,
    bytes: &[u8],
    before: &mut [u32x8; 8],
) -> [u32x8; 8]
    requires some { 5120 ≤ length bytes.now }
    requires numbers { first + 8 < 2 ^ 64 }
    ensures values { (i : ℕ) → i < 8 → 1024 * i + 1024 ≤ length bytes.now
        → lane8 i result ≡ run_cv parameters.now.key parameters.now.flags first bytes.now 0 i }
    ensures before { (i : ℕ) → i < 8 → 1024 * i + 1024 ≤ length bytes.now
        → lane8 i before.new ≡ value_before_last parameters.now.key parameters.now.flags first bytes.now i }
{
    if level() < 3 {
        return chunk_fours(parameters, first, bytes, before);
    }
    let counters = numbers(first);
    let starts = lane_starts(bytes.len() - CHUNK_LEN);
    let turns = Turns::new();
    let mut values = same_lanes(&parameters.key);
    'each_block: for j in 0..16 {
        let message = message_lanes(bytes, &starts, BLOCK_LEN * j);
        let d = block_flags(parameters.flags, j);
        let next = next_lanes::<CHUNKS>(turns, values, message, &counters, 64, d);
        *before = values;
        values = next;
    }
    values
}

/// Writes the chaining values of at most eight whole chunks, and those before the last block of each, into
/// the first rows. The rows after them have no meaning.
pub(crate) fn chunk_values(
    parameters: &Parameters,
    first: u64,
    bytes: &[u8],
    values: &mut [[u32; 8]; 8],
    before: &mut [[u32; 8]; 8],
)
    requires some { 1024 ≤ length bytes.now }
    requires numbers { first + 8 < 2 ^ 64 }
    ensures values { (i : ℕ) → i < 8 → 1024 * i + 1024 ≤ length bytes.now
        → slice_index_or values.new i [] ≡ run_cv parameters.now.key parameters.now.flags first bytes.now 0 i }
    ensures before { (i : ℕ) → i < 8 → 1024 * i + 1024 ≤ length bytes.now
        → slice_index_or before.new i [] ≡ value_before_last parameters.now.key parameters.now.flags first bytes.now i }
{
    if bytes.len() == 2 * CHUNK_LEN {
        two_chunk_values(parameters, first, bytes, values, before);
    } else if bytes.len() >= 5 * CHUNK_LEN {
        let mut last = same_lanes(&parameters.key);
        *values = lane_rows(chunk_lanes(parameters, first, bytes, &mut last));
        *before = lane_rows(last);
    } else if level() == 3 {
        two_pair_values(parameters, first, bytes, values, before);
    } else {
        let mut last = four::same_lanes(&parameters.key);
        four::lane_rows(few_chunk_lanes(parameters, first, bytes, &mut last), values);
        four::lane_rows(last, before);
    }
}

// The chaining value of the parent of two.
fn join(parameters: &Parameters, left: &[u32; 8], right: &[u32; 8]) -> [u32; 8]
    ensures { result ≡ joined_cv parameters.now.key parameters.now.flags left.now right.now }
{
    Node::parent(parameters, left, right).chaining_value()
}

// The words of two parents, by halves: that over `a` and `b`, and that over `c` and `d`.
#[inline(always)]
#[tactic(auto, unfolding(words::specs::inside::Halves::half_message))]
fn parent_halves(a: u32x8, b: u32x8, c: u32x8, d: u32x8) -> [u32x8; 4]
    ensures first { half_message 0 result ≡ a ++ b }
    ensures second { half_message 1 result ≡ c ++ d }
{
    [
        a.shuffle(c, [0, 2, 4, 6, 8, 10, 12, 14]),
        a.shuffle(c, [1, 3, 5, 7, 9, 11, 13, 15]),
        b.shuffle(d, [6, 0, 2, 4, 14, 8, 10, 12]),
        b.shuffle(d, [7, 1, 3, 5, 15, 9, 11, 13]),
    ]
}

// The flags of a parent.
#[inline(always)]
fn parent_flags(parameters: &Parameters) -> u32
    ensures { result ≡ parameters.now.flags + 4 }
{
    u32::from(parameters.flags) + u32::from(PARENT)
}

// The chaining values of the parents of neighbours among four.
fn two_parents(parameters: &Parameters, values: &[[u32; 8]; 4]) -> [[u32; 8]; 2]
    ensures { (i : ℕ) → i < 2 → slice_index_or result i []
        ≡ joined_cv parameters.now.key parameters.now.flags (slice_index_or values.now (2 * i) [])
        (slice_index_or values.now (2 * i + 1) []) }
{
    let message = parent_halves(
        u32x8::from_array(values[0]),
        u32x8::from_array(values[1]),
        u32x8::from_array(values[2]),
        u32x8::from_array(values[3]),
    );
    let h = two::same_halves(&parameters.key);
    let d = parent_flags(parameters);
    let over = two::next_halves::<PARENTS>(Turns::known(), h, message, &[0; 2], 64, d);
    let mut rows = [[0; 8]; 8];
    two::half_rows(over, 0, &mut rows);
    [rows[0], rows[1]]
}

// The chaining values of the parents of neighbours among eight, by two pairs side by side.
fn parents_by_pairs(parameters: &Parameters, values: &[[u32; 8]; 8]) -> [[u32; 8]; 4]
    ensures { (i : ℕ) → i < 4 → slice_index_or result i []
        ≡ joined_cv parameters.now.key parameters.now.flags (slice_index_or values.now (2 * i) [])
        (slice_index_or values.now (2 * i + 1) []) }
{
    let left = parent_halves(
        u32x8::from_array(values[0]),
        u32x8::from_array(values[1]),
        u32x8::from_array(values[2]),
        u32x8::from_array(values[3]),
    );
    let right = parent_halves(
        u32x8::from_array(values[4]),
        u32x8::from_array(values[5]),
        u32x8::from_array(values[6]),
        u32x8::from_array(values[7]),
    );
    let h = two::same_halves(&parameters.key);
    let d = parent_flags(parameters);
    let over = two::next_pairs::<PARENTS>(Turns::known(), [h, h], [left, right], &[0; 4], 64, d);
    let mut rows = [[0; 8]; 8];
    pair_rows(over, &mut rows);
    [rows[0], rows[1], rows[2], rows[3]]
}

// The chaining values of the parents of neighbours among eight.
fn parents(parameters: &Parameters, values: &[[u32; 8]; 8]) -> [[u32; 8]; 4]
    ensures { (i : ℕ) → i < 4 → slice_index_or result i []
        ≡ joined_cv parameters.now.key parameters.now.flags (slice_index_or values.now (2 * i) [])
        (slice_index_or values.now (2 * i + 1) []) }
{
    if level() == 3 {
        return parents_by_pairs(parameters, values);
    }
    let blocks = [
        pair(&values[0], &values[1]),
        pair(&values[2], &values[3]),
        pair(&values[4], &values[5]),
        pair(&values[6], &values[7]),
        [0; 16],
        [0; 16],
        [0; 16],
        [0; 16],
    ];
    let d = u32::from(parameters.flags) + u32::from(PARENT);
    let [first, second, third, fourth, _, _, _, _] = compress_3x8(
        &[parameters.key; 8],
        &blocks,
        &[0; 8],
        64,
        d,
    );
    [first, second, third, fourth]
}

// The chaining values of the parents of neighbours in two times eight lanes.
fn parent_lanes(parameters: &Parameters, left: [u32x8; 8], right: [u32x8; 8]) -> [u32x8; 8]
    ensures left { (i : ℕ) → i < 4
        → lane8 i result ≡ joined_cv parameters.now.key parameters.now.flags (lane8 (2 * i) left)
        (lane8 (2 * i + 1) left) }
    ensures right { (i : ℕ) → i < 4
        → lane8 (4 + i) result
        ≡ joined_cv parameters.now.key parameters.now.flags (lane8 (2 * i) right) (lane8 (2 * i + 1) right) }
{
    let d = u32::from(parameters.flags) + u32::from(PARENT);
    next_lanes::<PARENTS>(
        Turns::new(),
        same_lanes(&parameters.key),
        pair_lanes(left, right),
        &[0; 8],
        64,
        d,
    )
}

// The chaining values of eight subtrees of 2 ^ level chunks, one after the other, by lanes.
fn subtree_lanes(parameters: &Parameters, first: u64, level: u32, bytes: &[u8]) -> [u32x8; 8]
    requires length { length bytes.now ≡ 8192 * 2 ^ level }
    requires numbers { first + 8 * 2 ^ level < 2 ^ 64 }
    ensures { (i : ℕ) → i < 8 → lane8 i result
        ≡ run_cv parameters.now.key parameters.now.flags first bytes.now level (2 ^ level * i) }
{
    if level == 0 {
        let mut before = same_lanes(&parameters.key);
        return chunk_lanes(parameters, first, bytes, &mut before);
    }
    let half = bytes.len() / 2;
    let middle = first + (half / CHUNK_LEN) as u64;
    let left = subtree_lanes(parameters, first, level - 1, &bytes[..half]);
    let right = subtree_lanes(parameters, middle, level - 1, &bytes[half..]);
    parent_lanes(parameters, left, right)
}

/// The chaining values of the two halves of a subtree of 8 * 2 ^ level chunks.
pub(crate) fn subtree_halves(
    parameters: &Parameters,
    first: u64,
    level: u32,
    bytes: &[u8],
) -> [[u32; 8]; 2]
    requires length { length bytes.now ≡ 8192 * 2 ^ level }
    requires numbers { first + 8 * 2 ^ level < 2 ^ 64 }
    ensures left { slice_index_or result 0 []
        ≡ run_cv parameters.now.key parameters.now.flags first bytes.now (level + 2) 0 }
    ensures right { slice_index_or result 1 []
        ≡ run_cv parameters.now.key parameters.now.flags first bytes.now (level + 2) (4 * 2 ^ level) }
{
    let values = lane_rows(subtree_lanes(parameters, first, level, bytes));
    two_parents(parameters, &parents(parameters, &values))
}

/// The chaining value of a subtree of 8 * 2 ^ level chunks.
pub(crate) fn subtree_of(parameters: &Parameters, first: u64, level: u32, bytes: &[u8]) -> [u32; 8]
    requires length { length bytes.now ≡ 8192 * 2 ^ level }
    requires numbers { first + 8 * 2 ^ level < 2 ^ 64 }
    ensures { result ≡ run_cv parameters.now.key parameters.now.flags first bytes.now (level + 3) 0 }
{
    let [left, right] = subtree_halves(parameters, first, level, bytes);
    join(parameters, &left, &right)
}

// The chaining values of eight subtrees of 2 ^ level chunks, by lanes, when the last chunk may be the last of
// the message. `lefts` receives those of the left subtrees between the last of the eight and the last chunk,
// the smallest first, and the last lane of `before` the value before the last block of that chunk.
fn open_lanes(
    parameters: &Parameters,
    first: u64,
    level: u32,
    bytes: &[u8],
    lefts: &mut [[u32; 8]; 10],
    before: &mut [u32x8; 8],
) -> [u32x8; 8]
    requires length { length bytes.now ≡ 8192 * 2 ^ level }
    requires numbers { first + 8 * 2 ^ level < 2 ^ 64 }
    requires bound { level ≤ 7 }
    ensures values { (i : ℕ) → i < 8
        → lane8 i result ≡ run_cv parameters.now.key parameters.now.flags first bytes.now level (2 ^ level * i) }
    ensures lefts { (j : ℕ) → j < level
        → slice_index_or lefts.new j []
        ≡ run_cv parameters.now.key parameters.now.flags first bytes.now j (8 * 2 ^ level - 2 * 2 ^ j) }
    ensures before { lane8 7 before.new
        ≡ value_before_last parameters.now.key parameters.now.flags first bytes.now (8 * 2 ^ level - 1) }
{
    if level == 0 {
        return chunk_lanes(parameters, first, bytes, before);
    }
    let half = bytes.len() / 2;
    let middle = first + (half / CHUNK_LEN) as u64;
    let left = subtree_lanes(parameters, first, level - 1, &bytes[..half]);
    let right = open_lanes(parameters, middle, level - 1, &bytes[half..], lefts, before);
    lefts[(level - 1) as usize] = lane_rows(right)[6];
    parent_lanes(parameters, left, right)
}

/// For a run of 8 * 2 ^ level chunks, the last of which may be the last of the message: the chaining values
/// of the left subtrees above the last chunk, the smallest first, and the value before that chunk's last
/// block.
pub(crate) fn open_lefts(
    parameters: &Parameters,
    first: u64,
    level: u32,
    bytes: &[u8],
) -> ([[u32; 8]; 10], [u32; 8])
    requires length { length bytes.now ≡ 8192 * 2 ^ level }
    requires numbers { first + 8 * 2 ^ level < 2 ^ 64 }
    requires bound { level ≤ 7 }
    ensures lefts { (j : ℕ) → j < level + 3
        → slice_index_or result.0 j []
        ≡ run_cv parameters.now.key parameters.now.flags first bytes.now j (8 * 2 ^ level - 2 * 2 ^ j) }
    ensures before { result.1
        ≡ value_before_last parameters.now.key parameters.now.flags first bytes.now (8 * 2 ^ level - 1) }
{
    let mut lefts = [[0; 8]; 10];
    let mut before = same_lanes(&parameters.key);
    let values = lane_rows(open_lanes(parameters, first, level, bytes, &mut lefts, &mut before));
    let over = parents(parameters, &values);
    let at = level as usize;
    lefts[at] = values[6];
    lefts[at + 1] = over[2];
    lefts[at + 2] = join(parameters, &over[0], &over[1]);
    (lefts, lane_rows(before)[7])
}
