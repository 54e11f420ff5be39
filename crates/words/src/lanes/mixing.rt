//! The rounds of BLAKE2 and BLAKE3 on several inputs side by side: each word is a vector with one lane for
//! each input.
//!
//! The toolchain takes no number of lanes as a parameter, its macros write no clauses, and its gate refuses an
//! `impl` that a macro wrote. So a trait, `WordLanes`, says what sums, xors and turns do in each lane, and the
//! rounds are written once over it. BLAKE3 puts halves of four G's side by side; BLAKE2 takes one G after
//! another, which is faster below x86-64-v3. Loads, transposes and first working words are still written once
//! for each vector.

ghost use Rattle.std.specs.Prelude.{◌≡◌, ℕ, ◌<◌, ◌^◌, [], List, bit_xor, map, slice_index, take};
ghost use Rattle.words.specs.Blake2.{blake2s, folded_halves, rounds};
ghost use Rattle.words.specs.Blake3.{folded_halves3, rounds3};
ghost use Rattle.words.specs.Mix.{Variant, g, rotated_xor, round, word_bits, word_sum};
ghost use Rattle.words.specs.inside.Lanes.{OnLanes, column_at, lane, lane8};
ghost use Rattle.words.specs.inside.Rows.{half_g};

use crate::tables::{PERMUTED, SIGMA};

/// A vector of words, one in each lane.
pub trait WordLanes: Copy {
    /// What the rotations need besides the words.
    type Turns: Copy;

    // The hash that the words belong to, the number of lanes, and the words in them.
    ghost variant: { Variant };

    ghost count: { ℕ };

    ghost words: { Self → List ℕ };

    /// The sum of the words in each lane.
    fn sum(self, y: Self) -> Self
        ensures { OnLanes count (word_sum variant) (words self) (words y) (words result) };

    /// The words in each lane, xored.
    fn xor(self, y: Self) -> Self
        ensures lanes { OnLanes count bit_xor (words self) (words y) (words result) }
        ensures fit { (i : ℕ) → i < count → slice_index (words result) i < 2 ^ word_bits variant };

    /// The words in each lane, xored and rotated right by the first rotation number of the hash.
    fn turn1(self, y: Self, turns: Self::Turns) -> Self
        ensures { OnLanes count (rotated_xor variant 0) (words self) (words y) (words result) };

    /// The words in each lane, xored and rotated right by the second rotation number.
    fn turn2(self, y: Self, turns: Self::Turns) -> Self
        ensures { OnLanes count (rotated_xor variant 1) (words self) (words y) (words result) };

    /// The words in each lane, xored and rotated right by the third rotation number.
    fn turn3(self, y: Self, turns: Self::Turns) -> Self
        ensures { OnLanes count (rotated_xor variant 2) (words self) (words y) (words result) };

    /// The words in each lane, xored and rotated right by the fourth rotation number.
    fn turn4(self, y: Self, turns: Self::Turns) -> Self
        ensures { OnLanes count (rotated_xor variant 3) (words self) (words y) (words result) };
}

// The first half of G on four words in each lane.
#[inline(always)]
fn begin_mix<V: WordLanes>(turns: V::Turns, column: (V, V, V, V), x: V) -> (V, V, V, V)
    ensures { (i : ℕ) → i < V.count → column_at V.words i result
        ≡ half_g V.variant 0 (column_at V.words i column) (slice_index (V.words x) i) }
{
    let (a, b, c, d) = column;
    let a = a.sum(b).sum(x);
    let d = d.turn1(a, turns);
    let c = c.sum(d);
    let b = b.turn2(c, turns);
    (a, b, c, d)
}

// The second half of G, on a column that the first half made from `v`.
#[inline(always)]
fn end_mix<V: WordLanes>(turns: V::Turns, column: (V, V, V, V), y: V) -> (V, V, V, V)
    ensures { (i : ℕ) → i < V.count → (v : List ℕ) (x : ℕ)
        → column_at V.words i column ≡ half_g V.variant 0 v x
        → column_at V.words i result ≡ g V.variant v x (slice_index (V.words y) i) }
{
    let (a, b, c, d) = column;
    let a = a.sum(b).sum(y);
    let d = d.turn3(a, turns);
    let c = c.sum(d);
    let b = b.turn4(c, turns);
    (a, b, c, d)
}

/// G on four words in each lane (RFC 7693, section 3.1).
#[inline(always)]
pub(crate) fn mix<V: WordLanes>(turns: V::Turns, column: (V, V, V, V), x: V, y: V) -> (V, V, V, V)
    ensures { (i : ℕ) → i < V.count → column_at V.words i result
        ≡ g V.variant (column_at V.words i column) (slice_index (V.words x) i) (slice_index (V.words y) i) }
{
    end_mix(turns, begin_mix(turns, column, x), y)
}

// A round under the schedule `s`: G down the columns, and then down the diagonals (RFC 7693, section 3.2).
// Four halves of G are computed side by side, since each step of one has to wait for the step before it.
#[inline(always)]
#[tactic(auto, unfolding(crate::specs::inside::Lanes::lane))]
fn round_by_halves<V: WordLanes>(
    turns: V::Turns,
    v: &[V; 16],
    m: &[V; 16],
    s: &[usize; 16],
) -> [V; 16]
    requires { (i : ℕ) → i < 16 → slice_index s.now i < 16 }
    ensures { (i : ℕ) → i < V.count → lane i (map V.words result)
        ≡ round V.variant (lane i (map V.words v.now)) (lane i (map V.words m.now)) s.now }
{
    let p0 = begin_mix(turns, (v[0], v[4], v[8], v[12]), m[s[0]]);
    let p1 = begin_mix(turns, (v[1], v[5], v[9], v[13]), m[s[2]]);
    let p2 = begin_mix(turns, (v[2], v[6], v[10], v[14]), m[s[4]]);
    let p3 = begin_mix(turns, (v[3], v[7], v[11], v[15]), m[s[6]]);
    let (a0, b0, c0, d0) = end_mix(turns, p0, m[s[1]]);
    let (a1, b1, c1, d1) = end_mix(turns, p1, m[s[3]]);
    let (a2, b2, c2, d2) = end_mix(turns, p2, m[s[5]]);
    let (a3, b3, c3, d3) = end_mix(turns, p3, m[s[7]]);
    let q0 = begin_mix(turns, (a0, b1, c2, d3), m[s[8]]);
    let q1 = begin_mix(turns, (a1, b2, c3, d0), m[s[10]]);
    let q2 = begin_mix(turns, (a2, b3, c0, d1), m[s[12]]);
    let q3 = begin_mix(turns, (a3, b0, c1, d2), m[s[14]]);
    let (a0, b1, c2, d3) = end_mix(turns, q0, m[s[9]]);
    let (a1, b2, c3, d0) = end_mix(turns, q1, m[s[11]]);
    let (a2, b3, c0, d1) = end_mix(turns, q2, m[s[13]]);
    let (a3, b0, c1, d2) = end_mix(turns, q3, m[s[15]]);
    [
        a0, a1, a2, a3, b0, b1, b2, b3, c0, c1, c2, c3, d0, d1, d2, d3,
    ]
}

// A round under the schedule `s`: G down the columns, and then down the diagonals (RFC 7693, section 3.2).
// The calls of G follow one another, so that fewer vectors are in use at a time.
#[inline(always)]
#[tactic(auto, unfolding(crate::specs::inside::Lanes::lane))]
fn round_in_turn<V: WordLanes>(
    turns: V::Turns,
    v: &[V; 16],
    m: &[V; 16],
    s: &[usize; 16],
) -> [V; 16]
    requires { (i : ℕ) → i < 16 → slice_index s.now i < 16 }
    ensures { (i : ℕ) → i < V.count → lane i (map V.words result)
        ≡ round V.variant (lane i (map V.words v.now)) (lane i (map V.words m.now)) s.now }
{
    let (a0, b0, c0, d0) = mix(turns, (v[0], v[4], v[8], v[12]), m[s[0]], m[s[1]]);
    let (a1, b1, c1, d1) = mix(turns, (v[1], v[5], v[9], v[13]), m[s[2]], m[s[3]]);
    let (a2, b2, c2, d2) = mix(turns, (v[2], v[6], v[10], v[14]), m[s[4]], m[s[5]]);
    let (a3, b3, c3, d3) = mix(turns, (v[3], v[7], v[11], v[15]), m[s[6]], m[s[7]]);
    let (a0, b1, c2, d3) = mix(turns, (a0, b1, c2, d3), m[s[8]], m[s[9]]);
    let (a1, b2, c3, d0) = mix(turns, (a1, b2, c3, d0), m[s[10]], m[s[11]]);
    let (a2, b3, c0, d1) = mix(turns, (a2, b3, c0, d1), m[s[12]], m[s[13]]);
    let (a3, b0, c1, d2) = mix(turns, (a3, b0, c1, d2), m[s[14]], m[s[15]]);
    [
        a0, a1, a2, a3, b0, b1, b2, b3, c0, c1, c2, c3, d0, d1, d2, d3,
    ]
}

/// The ten rounds of BLAKE2s, and the first ten of BLAKE2b: one for each row of the schedule.
#[inline(always)]
#[tactic(auto, unfolding(crate::specs::Blake2::rounds))]
pub fn ten_rounds<V: WordLanes>(turns: V::Turns, v: &[V; 16], m: &[V; 16]) -> [V; 16]
    ensures { (i : ℕ) → i < V.count → lane i (map V.words result)
        ≡ rounds V.variant (lane i (map V.words v.now)) (lane i (map V.words m.now)) 10 }
{
    let v = round_in_turn(turns, v, m, &SIGMA[0]);
    let v = round_in_turn(turns, &v, m, &SIGMA[1]);
    let v = round_in_turn(turns, &v, m, &SIGMA[2]);
    let v = round_in_turn(turns, &v, m, &SIGMA[3]);
    let v = round_in_turn(turns, &v, m, &SIGMA[4]);
    let v = round_in_turn(turns, &v, m, &SIGMA[5]);
    let v = round_in_turn(turns, &v, m, &SIGMA[6]);
    let v = round_in_turn(turns, &v, m, &SIGMA[7]);
    let v = round_in_turn(turns, &v, m, &SIGMA[8]);
    round_in_turn(turns, &v, m, &SIGMA[9])
}

/// The twelve rounds of BLAKE2b.
#[inline(always)]
#[tactic(auto, unfolding(crate::specs::Blake2::rounds))]
pub fn twelve_rounds<V: WordLanes>(turns: V::Turns, v: &[V; 16], m: &[V; 16]) -> [V; 16]
    ensures { (i : ℕ) → i < V.count → lane i (map V.words result)
        ≡ rounds V.variant (lane i (map V.words v.now)) (lane i (map V.words m.now)) 12 }
{
    let v = ten_rounds(turns, v, m);
    let v = round_in_turn(turns, &v, m, &SIGMA[0]);
    round_in_turn(turns, &v, m, &SIGMA[1])
}

/// The seven rounds of BLAKE3. `USE` is that of `next_lanes`.
#[inline(always)]
#[tactic(auto, unfolding(crate::specs::Blake3::rounds3, crate::specs::Blake3::permuted_words, crate::specs::Mix::round))]
pub(crate) fn seven_rounds<V: WordLanes, const USE: usize>(
    turns: V::Turns,
    v: &[V; 16],
    m: &[V; 16],
) -> [V; 16]
    requires { V.variant ≡ blake2s }
    ensures { (i : ℕ) → i < V.count → lane i (map V.words result)
        ≡ rounds3 (lane i (map V.words v.now)) (lane i (map V.words m.now)) 7 }
{
    let v = round_by_halves(turns, v, m, &PERMUTED[0]);
    let v = round_by_halves(turns, &v, m, &PERMUTED[1]);
    let v = round_by_halves(turns, &v, m, &PERMUTED[2]);
    let v = round_by_halves(turns, &v, m, &PERMUTED[3]);
    let v = round_by_halves(turns, &v, m, &PERMUTED[4]);
    let v = round_by_halves(turns, &v, m, &PERMUTED[5]);
    round_by_halves(turns, &v, m, &PERMUTED[6])
}

/// The first eight words of output of BLAKE3.
#[inline(always)]
#[tactic(auto, unfolding(crate::specs::inside::Lanes::lane))]
pub(crate) fn folded3<V: WordLanes>(v: &[V; 16]) -> [V; 8]
    ensures { (i : ℕ) → i < V.count
        → lane8 i (map V.words result) ≡ take 8 (folded_halves3 [] (lane i (map V.words v.now))) }
{
    [
        v[0].xor(v[8]),
        v[1].xor(v[9]),
        v[2].xor(v[10]),
        v[3].xor(v[11]),
        v[4].xor(v[12]),
        v[5].xor(v[13]),
        v[6].xor(v[14]),
        v[7].xor(v[15]),
    ]
}

/// The chaining value of BLAKE2, with the halves of the state xored in.
#[inline(always)]
#[tactic(auto, unfolding(crate::specs::inside::Lanes::lane))]
pub fn folded<V: WordLanes>(h: &[V; 8], v: &[V; 16]) -> [V; 8]
    ensures { (i : ℕ) → i < V.count
        → lane8 i (map V.words result) ≡ folded_halves (lane8 i (map V.words h.now)) (lane i (map V.words v.now)) }
{
    [
        h[0].xor(v[0]).xor(v[8]),
        h[1].xor(v[1]).xor(v[9]),
        h[2].xor(v[2]).xor(v[10]),
        h[3].xor(v[3]).xor(v[11]),
        h[4].xor(v[4]).xor(v[12]),
        h[5].xor(v[5]).xor(v[13]),
        h[6].xor(v[6]).xor(v[14]),
        h[7].xor(v[7]).xor(v[15]),
    ]
}
