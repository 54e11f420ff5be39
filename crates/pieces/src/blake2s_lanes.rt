// The BLAKE2s digests of pieces, eight of them side by side.

ghost use Rattle.std.specs.Prelude.{◌≡◌, ◌<◌, ◌≤◌, ◌+◌, ◌-◌, ◌*◌, ◌/◌, [], ℕ, List, false};
ghost use Rattle.std.specs.Prelude.{length, take, drop, slice_index, slice_index_or};
ghost use Rattle.std.specs.Prelude.{None, Some, MatchResult};
ghost use Rattle.std.proofs.Common.{rules};
ghost use Rattle.words.specs.Blake2.{blake2s, compress};
ghost use Rattle.words.specs.Words.{padded, words};
ghost use Rattle.words.specs.inside.Lanes.{lane, lane8};
ghost use Rattle.blake2.specs.Blake2.{blake2, final_value, start, unsalted};
ghost use Rattle.pieces.specs.Pieces.{digests};
ghost use Rattle.pieces.specs.Faults.{sized_fault};

use crate::block_lanes::{HashValues, choose32, least_of, most_of, take_each};
use crate::digests::write_digests;
use crate::fault::Fault;
use crate::lanes2::words32::next_lanes;
use crate::last_blocks::{block_words, blocks_before, last_blocks, last_lanes};
use crate::piece_hash::PieceHash;
use crate::rows::write_rows;
use blake2::Blake2s;
use std::simd::prelude::*;
use words::lanes::{lane_rows, message_lanes, same_lanes};
use words::{Absorb, IV32, bytes32, write_at};

// The chaining value before the first block: the words of the parameter block, which has the digest length, no key,
// fanout 1 and depth 1, xored into the initial value (RFC 7693, section 2.5).
fn start_value(digest_len: usize) -> [u32; 8]
    requires { digest_len ≤ 32 }
    ensures { result ≡ start blake2s (unsalted blake2s digest_len []) }
{
    let [h0, h1, h2, h3, h4, h5, h6, h7] = IV32;
    [
        h0 ^ (digest_len as u32 + 0x0101_0000),
        h1,
        h2,
        h3,
        h4,
        h5,
        h6,
        h7,
    ]
}

impl HashValues<Blake2s, 8, 64> for [u32x8; 8] {
    type Room = ();

    ghost lane = { λ i s. lane8 i s };

    ghost made = { λ k h b. compress blake2s h (words 4 16 b) (64 * (k + 1)) false };

    #[inline(always)]
    fn room() {}

    #[inline(always)]
    fn take_blocks(
        &mut self,
        _room: &mut (),
        bytes: &[u8],
        starts: &[usize; 8],
        at: usize,
        block: usize,
    ) {
        let message = message_lanes(bytes, starts, at);
        *self = next_lanes(*self, &message, &[64 * (block + 1); 8], false);
    }

    #[inline(always)]
    fn choose(&mut self, next: &[u32x8; 8], done: usize, counts: &[usize; 8]) {
        choose32(self, next, done, counts);
    }

    ghost some_lanes = { Prim.search rules };

    ghost few_lanes = { Prim.search rules };

    ghost positive = { Prim.search rules };
}

// The words of the last blocks of the messages, by lanes. Before them are `counts` blocks.
#[inline(always)]
fn last_words(
    bytes: &[u8],
    starts: &[usize; 8],
    lens: &[usize; 8],
    counts: &[usize; 8],
) -> [u32x8; 16]
    requires fits { (i : ℕ) → i < 8 → slice_index starts.now i + slice_index lens.now i ≤ length bytes.now }
    requires before { (i : ℕ) → i < 8 → slice_index counts.now i ≡ (slice_index lens.now i - 1) / 64 }
    ensures { (i : ℕ) → i < 8 → let done = 64 * slice_index counts.now i in
        let last = take (slice_index lens.now i - done) (drop (slice_index starts.now i + done) bytes.now) in
        lane i result ≡ words 4 16 (padded 64 last) }
{
    let len = most_of(lens);
    if least_of(lens) == len {
        let done = 64 * counts[0];
        return last_lanes(bytes, starts, done, len - done);
    }
    block_words(&last_blocks::<64, 8>(bytes, starts, lens, counts))
}

// The final chaining values of the eight messages of `lens` bytes that begin at `starts`, from the value `first` on.
fn final_values(
    first: &[u32; 8],
    bytes: &[u8],
    starts: &[usize; 8],
    lens: &[usize; 8],
) -> [[u32; 8]; 8]
    requires { (i : ℕ) → i < 8 → slice_index starts.now i + slice_index lens.now i ≤ length bytes.now }
    ensures { (i : ℕ) → i < 8 → slice_index_or result i []
        ≡ final_value blake2s first.now (take (slice_index lens.now i) (drop (slice_index starts.now i) bytes.now)) }
{
    let counts = blocks_before::<64, 8>(lens);
    let mut values = same_lanes(first);
    take_each::<Blake2s, [u32x8; 8], 8, 64>(&mut values, &mut (), bytes, starts, &counts);
    let message = last_words(bytes, starts, lens, &counts);
    lane_rows(next_lanes(values, &message, lens, true))
}

// BLAKE2s with digests of one length, without a key.
#[derive(Drop)]
struct Lanes2s {
    digest_len: usize,
    first: [u32; 8],
    ghost some: { 0 < digest_len },
    ghost fits: { digest_len ≤ 32 },
    ghost begun: { first ≡ start blake2s (unsalted blake2s digest_len []) },
}

impl Lanes2s {
    fn new(digest_len: usize) -> Lanes2s
        requires some { 0 < digest_len }
        requires fits { digest_len ≤ 32 }
        ensures { result.digest_len ≡ digest_len }
    {
        Lanes2s {
            digest_len,
            first: start_value(digest_len),
        }
    }
}

impl PieceHash<8, 32> for Lanes2s {
    ghost size = { λ s. s.digest_len };

    ghost digest = { λ s. blake2 blake2s (unsalted blake2s s.digest_len []) };

    fn digest_len(&self) -> usize {
        self.digest_len
    }

    fn fewest(&self, _piece_len: usize) -> usize {
        7
    }

    fn rows(&self, bytes: &[u8], starts: &[usize; 8], lens: &[usize; 8]) -> [[u8; 32]; 8] {
        let values = final_values(&self.first, bytes, starts, lens);
        [
            bytes32(&values[0]),
            bytes32(&values[1]),
            bytes32(&values[2]),
            bytes32(&values[3]),
            bytes32(&values[4]),
            bytes32(&values[5]),
            bytes32(&values[6]),
            bytes32(&values[7]),
        ]
    }

    fn one(&self, piece: &[u8]) -> [u8; 32] {
        // For the proof: no slice is longer than a hasher takes.
        let _len = piece.len();
        let Ok(mut hasher) = Blake2s::new(self.digest_len) else {
            unreachable!()
        };
        let Ok(()) = hasher.update(piece) else {
            unreachable!()
        };
        let mut row = [0; 32];
        write_at(&mut row, 0, hasher.finish().bytes());
        row
    }

    ghost two_lanes = { Prim.search rules };

    ghost few_lanes = { Prim.search rules };

    ghost small = { Prim.search rules };
}

/// Fills `out` with the BLAKE2s digests of `digest_len` bytes, without a key (RFC 7693, section 3.3), of the
/// pieces of `piece_len` bytes that `bytes` is cut into, one after the other. The last piece may be shorter,
/// and an empty input has no pieces. Refuses with `Fault::DigestLength` if `digest_len` is 0 or above 32,
/// otherwise with `Fault::PieceLength` if `piece_len` is 0, and otherwise with `Fault::OutputLength` if `out`
/// does not have exactly `digest_len` bytes for each piece; nothing is written then.
pub fn blake2s(
    digest_len: usize,
    bytes: &[u8],
    piece_len: usize,
    out: &mut [u8],
) -> Result<(), Fault>
    ensures { MatchResult result
        (λ _. (sized_fault 32 digest_len piece_len (length bytes.now) (length out.old) ≡ None)
        × (out.new ≡ digests (blake2 blake2s (unsalted blake2s digest_len [])) piece_len bytes.now))
        (λ e. (sized_fault 32 digest_len piece_len (length bytes.now) (length out.old) ≡ Some e)
        × (out.new ≡ out.old)) }
{
    if digest_len == 0 || digest_len > 32 {
        return Err(Fault::DigestLength);
    }
    write_digests(&Lanes2s::new(digest_len), bytes, piece_len, out)
}

/// Fills `out` with the BLAKE2s digests of `digest_len` bytes, without a key (RFC 7693, section 3.3), of the
/// messages of `lens` bytes that begin at `starts`, one after the other.
pub fn blake2s_messages(
    digest_len: usize,
    bytes: &[u8],
    starts: &[usize],
    lens: &[usize],
    out: &mut [u8],
)
    requires some { 0 < digest_len }
    requires most { digest_len ≤ 32 }
    requires same { length lens.now ≡ length starts.now }
    requires fits { (i : ℕ) → i < length starts.now
        → slice_index starts.now i + slice_index lens.now i ≤ length bytes.now }
    requires room { length out.old ≡ digest_len * length starts.now }
    ensures value { (i : ℕ) → i < length starts.now → take digest_len (drop (digest_len * i) out.new)
        ≡ blake2 blake2s (unsalted blake2s digest_len [])
        (take (slice_index lens.now i) (drop (slice_index starts.now i) bytes.now)) }
    ensures length { length out.new ≡ length out.old }
{
    write_rows(&Lanes2s::new(digest_len), bytes, starts, lens, out);
}
