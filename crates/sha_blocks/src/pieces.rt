//! How a hash of blocks takes a message in pieces: a hash value of all whole blocks, and a buffer with the bytes after
//! them, which wait.

ghost use Rattle.std.specs.Prelude.{◌≡◌, ◌<◌, ◌+◌, ◌-◌, ◌*◌, ◌/◌, ◌%◌, ◌^◌, ◌++◌, ◌∷◌, [], ℕ, List, length};
ghost use Rattle.std.specs.Prelude.{◌≤◌, replicate, take};
ghost use Rattle.sha_blocks.specs.inside.Taken.{HasTaken, IsAfter};

use crate::value::HashValue;
use words::write_at;

/// The hash value and the buffer of the empty message.
pub fn begin<V: HashValue<N>, const N: usize>() -> (V, [u8; N])
    ensures { HasTaken V.words_after N (V.words result.0) result.1 [] }
{
    (V::start(), [0; N])
}

// Takes bytes that begin a block: the whole blocks are taken into the hash value, and the bytes after these
// wait.
fn take_from_block<V: HashValue<N>, const N: usize>(
    value: &mut V,
    buffer: &mut [u8; N],
    bytes: &[u8],
)
    ensures { (p : List ℕ) (k : ℕ) → IsAfter V.words_after N (V.words value.old) p k
        → HasTaken V.words_after N (V.words value.new) buffer.new (p ++ bytes.now) }
{
    let (blocks, tail) = bytes.as_chunks::<N>();
    value.compress_all(blocks);
    write_at(buffer, 0, tail);
}

/// Takes `piece` after `taken` bytes.
pub fn update<V: HashValue<N>, const N: usize>(
    value: &mut V,
    buffer: &mut [u8; N],
    taken: u128,
    piece: &[u8],
)
    ensures { (m : List ℕ) → taken ≡ length m
        → HasTaken V.words_after N (V.words value.old) buffer.old m
        → HasTaken V.words_after N (V.words value.new) buffer.new (m ++ piece.now) }
{
    let used = (taken % N as u128) as usize;
    if used == 0 {
        take_from_block(value, buffer, piece);
        return;
    }
    let space = N - used;
    if piece.len() < space {
        write_at(buffer, used, piece);
        return;
    }
    let (head, rest) = piece.split_at(space);
    write_at(buffer, used, head);
    value.compress(buffer);
    take_from_block(value, buffer, rest);
}

// Takes the buffer as a block, with `end` as its last bytes.
fn take_ended<V: HashValue<N>, const N: usize>(value: &mut V, buffer: &mut [u8; N], end: &[u8])
    requires { length end.now ≤ N }
    ensures whole { length buffer.new ≡ N }
    ensures block { buffer.new ≡ take (N - length end.now) buffer.old ++ end.now }
    ensures value { V.words value.new ≡ V.compressed (V.words value.old) buffer.new }
{
    write_at(buffer, N - end.len(), end);
    value.compress(buffer);
}

/// Takes the padding, which ends with the count of bits (FIPS 180-4, section 5.1): the hash value is then that of the
/// whole padded message.
pub fn finish<V: HashValue<N>, const N: usize>(
    value: &mut V,
    buffer: &mut [u8; N],
    taken: u128,
    count: &[u8],
)
    requires { length count.now < N }
    ensures { (m : List ℕ) → taken ≡ length m → HasTaken V.words_after N (V.words value.old) buffer.old m
        → (p : List ℕ)
        → p ≡ m ++ (0x80 ∷ replicate ((2 * N - 1 - length count.now - length m % N) % N) 0 ++ count.now)
        → V.words value.new ≡ V.words_after p (length p / N) }
{
    let used = (taken % N as u128) as usize;
    let end = N - count.len();
    let mut padding = [0; N];
    padding[0] = 0x80;
    if used < end {
        write_at(buffer, used, &padding[..end - used]);
        take_ended(value, buffer, count);
        return;
    }
    write_at(buffer, used, &padding[..N - used]);
    value.compress(buffer);
    let mut last = [0; N];
    take_ended(value, &mut last, count);
}
