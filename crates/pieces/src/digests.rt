// The loop over the pieces of a buffer, for every hash function.

ghost use Rattle.std.specs.Prelude.{◌≡◌, ◌<◌, ◌≤◌, ◌+◌, ◌*◌, ◌++◌, ℕ, length, take, drop, slice_index};
ghost use Rattle.std.specs.Prelude.{None, Some, MatchResult};
ghost use Rattle.pieces.specs.Pieces.{digests, first_digests, piece_count};
ghost use Rattle.pieces.specs.Faults.{piece_fault};

use crate::fault::Fault;
use crate::piece_hash::PieceHash;

// How many pieces of `piece_len` bytes there are, the last of which may be shorter.
fn count_of(len: usize, piece_len: usize) -> usize
    requires { 0 < piece_len }
    ensures { result ≡ piece_count piece_len len }
{
    len.div_ceil(piece_len)
}

// How many pieces there are, if their digests of `size` bytes fill exactly `out_len` bytes.
fn checked_count(size: usize, piece_len: usize, len: usize, out_len: usize) -> Result<usize, Fault>
    ensures { MatchResult result
        (λ count. (piece_fault size piece_len len out_len ≡ None) × (0 < piece_len)
        × (count ≡ piece_count piece_len len) × (out_len ≡ size * count))
        (λ e. piece_fault size piece_len len out_len ≡ Some e) }
{
    if piece_len == 0 {
        return Err(Fault::PieceLength);
    }
    let count = count_of(len, piece_len);
    match size.checked_mul(count) {
        Some(all) if all == out_len => Ok(count),
        _ => Err(Fault::OutputLength),
    }
}

/// The starts of `count` pieces, the first of which is piece `done`. The last of them fills the remaining
/// lanes.
#[inline(always)]
pub(crate) fn starts_of<const LANES: usize>(
    done: usize,
    count: usize,
    piece_len: usize,
    len: usize,
) -> [usize; LANES]
    requires piece { 0 < piece_len }
    requires some { 0 < count }
    requires fits { piece_len * (done + count) ≤ len }
    ensures fits { (i : ℕ) → i < LANES → slice_index result i + piece_len ≤ len }
    ensures place { (i : ℕ) → i < count → i < LANES → slice_index result i ≡ piece_len * (done + i) }
{
    let mut starts = [0; LANES];
    'lanes: for i in 0..LANES {
        starts[i] = piece_len * (done + i.min(count - 1));
    }
    starts
}

/// Writes a digest of `size` bytes at `at`.
pub(crate) fn put_digest<const MOST: usize>(
    row: &[u8; MOST],
    size: usize,
    out: &mut [u8],
    at: usize,
)
    requires most { size ≤ length row.now }
    requires room { at + size ≤ length out.old }
    ensures front { take (at + size) out.new ≡ take at out.old ++ take size row.now }
    ensures rest { drop (at + size) out.new ≡ drop (at + size) out.old }
    ensures length { length out.new ≡ length out.old }
{
    out[at..at + size].copy_from_slice(&row[..size]);
}

// Writes the digests of a group of `count` whole pieces, the first of which is piece `done`.
fn put_group<H: PieceHash<LANES, MOST>, const LANES: usize, const MOST: usize>(
    hash: &H,
    bytes: &[u8],
    piece_len: usize,
    done: usize,
    count: usize,
    out: &mut [u8],
)
    requires piece { 0 < piece_len }
    requires some { 0 < count }
    requires lanes { count ≤ LANES }
    requires whole { piece_len * (done + count) ≤ length bytes.now }
    requires room { H.size hash.now * (done + count) ≤ length out.old }
    requires before { take (H.size hash.now * done) out.old
        ≡ first_digests (H.digest hash.now) piece_len bytes.now done }
    ensures value { take (H.size hash.now * (done + count)) out.new
        ≡ first_digests (H.digest hash.now) piece_len bytes.now (done + count) }
    ensures length { length out.new ≡ length out.old }
{
    let size = hash.digest_len();
    let starts = starts_of(done, count, piece_len, bytes.len());
    let rows = hash.rows(bytes, &starts, &[piece_len; LANES]);
    'rows: for i in 0..count {
        put_digest(&rows[i], size, out, size * (done + i));
    }
}

/// Fills `out` with the digests of the pieces of `bytes`, one after the other.
pub(crate) fn write_digests<H: PieceHash<LANES, MOST>, const LANES: usize, const MOST: usize>(
    hash: &H,
    bytes: &[u8],
    piece_len: usize,
    out: &mut [u8],
) -> Result<(), Fault>
    ensures { MatchResult result
        (λ _. (piece_fault (H.size hash.now) piece_len (length bytes.now) (length out.old) ≡ None)
        × (out.new ≡ digests (H.digest hash.now) piece_len bytes.now))
        (λ e. (piece_fault (H.size hash.now) piece_len (length bytes.now) (length out.old) ≡ Some e)
        × (out.new ≡ out.old)) }
{
    let size = hash.digest_len();
    let total = checked_count(size, piece_len, bytes.len(), out.len())?;
    let whole = bytes.len() / piece_len;
    let fewest = hash.fewest(piece_len);
    let mut done = 0;
    'groups: while whole - done >= fewest {
        let count = LANES.min(whole - done);
        put_group(hash, bytes, piece_len, done, count, out);
        done += count;
    }
    'rest: while done < total {
        let rest = &bytes[piece_len * done..];
        let digest = hash.one(&rest[..piece_len.min(rest.len())]);
        put_digest(&digest, size, out, size * done);
        done += 1;
    }
    Ok(())
}
