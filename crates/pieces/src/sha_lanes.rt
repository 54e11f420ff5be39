// SHA-2 of messages side by side: the blocks of each, and then its last bytes with the padding (FIPS 180-4,
// section 5.1). Eight steps of the rounds are written here once, for words of either width.

ghost use Rattle.std.specs.Prelude.{◌≡◌, ◌<◌, ◌≤◌, ◌+◌, ◌-◌, ◌*◌, ◌/◌, ◌%◌, ◌++◌, ◌∷◌, [], ℕ, List, length};
ghost use Rattle.std.specs.Prelude.{drop, replicate, slice_index, slice_index_or, take};
ghost use Rattle.pieces.specs.inside.Blocks.{padding};

use crate::block_lanes::{HashValues, take_each};
use crate::digests::starts_of;
use sha_blocks::HashValue;
use words::write_at;

// Puts the last bytes of a message at the front of zeros, followed by the mark that begins the padding.
#[inline(always)]
fn put_marked<const N: usize>(block: &mut [u8; N], bytes: &[u8])
    requires short { length bytes.now < N }
    requires zeros { block.old ≡ replicate N 0 }
    ensures { block.new ≡ bytes.now ++ (0x80 ∷ replicate (N - 1 - length bytes.now) 0) }
{
    write_at(block, 0, bytes);
    block[bytes.len()] = 0x80;
}

// How many blocks the last bytes of a message and its padding fill: one if the mark and the count of `size` bytes have
// room after these bytes, else two.
#[inline(always)]
fn blocks_left<const N: usize>(len: usize, size: usize) -> usize
    requires { size < N }
    ensures filled { N * result ≡ len % N + (1 + (2 * N - 1 - size - len % N) % N + size) }
    ensures few { result ≤ 2 }
{
    if len % N < N - size { 1 } else { 2 }
}

// Those of each message.
#[inline(always)]
fn counts_left<const N: usize, const LANES: usize>(
    lens: &[usize; LANES],
    size: usize,
) -> [usize; LANES]
    requires { size < N }
    ensures filled { (i : ℕ) → i < LANES → N * slice_index result i
        ≡ slice_index lens.now i % N + (1 + (2 * N - 1 - size - slice_index lens.now i % N) % N + size) }
    ensures few { (i : ℕ) → i < LANES → slice_index result i ≤ 2 }
{
    let mut counts = [0; LANES];
    'lanes: for i in 0..LANES {
        counts[i] = blocks_left::<N>(lens[i], size);
    }
    counts
}

// How many whole blocks of `N` bytes each message has.
#[inline(always)]
fn whole_blocks<const N: usize, const LANES: usize>(lens: &[usize; LANES]) -> [usize; LANES]
    requires { 0 < N }
    ensures { (i : ℕ) → i < LANES → slice_index result i ≡ slice_index lens.now i / N }
{
    let mut counts = [0; LANES];
    'lanes: for i in 0..LANES {
        counts[i] = lens[i] / N;
    }
    counts
}

// Puts the last bytes of a message and its padding, which ends with the count of bits, at the front of two blocks of
// zeros.
#[inline(always)]
fn put_tail<const N: usize, const TWO: usize>(
    tail: &mut [u8; TWO],
    bytes: &[u8],
    start: usize,
    len: usize,
    count: &[u8],
)
    requires two { TWO ≡ 2 * N }
    requires fits { start + len ≤ length bytes.now }
    requires count { length count.now < N }
    requires zeros { tail.old ≡ replicate TWO 0 }
    ensures value { take (len % N + length (padding N count.now len)) tail.new
        ≡ take (len % N) (drop (start + (len - len % N)) bytes.now) ++ padding N count.now len }
    ensures whole { length tail.new ≡ TWO }
{
    let used = len % N;
    let at = start + (len - used);
    put_marked(tail, &bytes[at..at + used]);
    write_at(
        tail,
        N * blocks_left::<N>(len, count.len()) - count.len(),
        count,
    );
}

// Such blocks for each message.
#[inline(always)]
fn tails<const N: usize, const TWO: usize, const C: usize, const LANES: usize>(
    bytes: &[u8],
    starts: &[usize; LANES],
    lens: &[usize; LANES],
    counts: &[[u8; C]; LANES],
) -> [[u8; TWO]; LANES]
    requires two { TWO ≡ 2 * N }
    requires fits { (i : ℕ) → i < LANES → slice_index starts.now i + slice_index lens.now i ≤ length bytes.now }
    requires count { C < N }
    ensures value { (i : ℕ) → i < LANES → let len = slice_index lens.now i in
        let count = slice_index_or counts.now i [] in
        take (len % N + length (padding N count len)) (slice_index_or result i [])
        ≡ take (len % N) (drop (slice_index starts.now i + (len - len % N)) bytes.now) ++ padding N count len }
    ensures whole { (i : ℕ) → i < LANES → length (slice_index_or result i []) ≡ TWO }
{
    let mut rows = [[0; TWO]; LANES];
    'rows: for i in 0..LANES {
        put_tail::<N, TWO>(&mut rows[i], bytes, starts[i], lens[i], &counts[i]);
    }
    rows
}

/// The hash values, from `first` on, after the messages of `lens` bytes that begin at `starts`, and their padding,
/// which ends with the counts of bits.
#[inline(always)]
pub(crate) fn final_values<
    V: HashValue<N>,
    H: HashValues<V, LANES, N>,
    const LANES: usize,
    const N: usize,
    const TWO: usize,
    const C: usize,
>(
    first: H,
    bytes: &[u8],
    starts: &[usize; LANES],
    lens: &[usize; LANES],
    counts: &[[u8; C]; LANES],
) -> H
    requires two { TWO ≡ 2 * N }
    requires made { (k : ℕ) → (h b : List ℕ) → H.made k h b ≡ V.compressed h b }
    requires begun { (i : ℕ) → i < LANES → H.lane i first ≡ V.words_after [] 0 }
    requires fits { (i : ℕ) → i < LANES → slice_index starts.now i + slice_index lens.now i ≤ length bytes.now }
    requires count { C < N }
    requires sized { (i : ℕ) → i < LANES → length (slice_index_or counts.now i []) ≡ C }
    ensures { (i : ℕ) → i < LANES → (p : List ℕ)
        → p ≡ take (slice_index lens.now i) (drop (slice_index starts.now i) bytes.now)
        ++ padding N (slice_index_or counts.now i []) (slice_index lens.now i)
        → H.lane i result ≡ V.words_after p (length p / N) }
{
    let mut values = first;
    let mut room = H::room();
    let whole = whole_blocks::<N, LANES>(lens);
    take_each::<V, H, LANES, N>(&mut values, &mut room, bytes, starts, &whole);
    let tails = tails::<N, TWO, C, LANES>(bytes, starts, lens, counts);
    let rest = tails.as_flattened();
    let left = counts_left::<N, LANES>(lens, C);
    take_each::<V, H, LANES, N>(
        &mut values,
        &mut room,
        rest,
        &starts_of(0, LANES, TWO, rest.len()),
        &left,
    );
    values
}

// Eight steps, from t on.
macro_rules! eight {
    ($step:ident, $v:ident, $words:ident, $t:ident) => {{
        let v = $step($v, $words, $t);
        let v = $step(v, $words, $t + 1);
        let v = $step(v, $words, $t + 2);
        let v = $step(v, $words, $t + 3);
        let v = $step(v, $words, $t + 4);
        let v = $step(v, $words, $t + 5);
        let v = $step(v, $words, $t + 6);
        $step(v, $words, $t + 7)
    }};
}

mod words32;
mod words64;
