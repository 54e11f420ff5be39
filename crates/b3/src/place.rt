// Where parts can stand in a message (the BLAKE3 paper, sections 2.1 and 5.3).

ghost use Rattle.std.specs.Prelude.{◌≡◌, ℕ, ◌*◌, ◌^◌, ◌↔◌, IsTrue};
ghost use Rattle.b3.specs.Parts.{IsPlacedAt};

use crate::chunk::CHUNK_LEN;

/// This many bytes cannot be a part from that chunk on: a message that has them there has no subtree of
/// exactly these bytes, or ends after 2^64 - 1 bytes.
#[derive(Clone, Copy, Debug, PartialEq, Eq, Drop)]
pub struct Misplaced;

/// Whether `len` bytes can be a part from a chunk on.
pub(crate) fn is_placed(first_chunk: u64, len: u64) -> bool
    ensures { IsTrue result ↔ IsPlacedAt first_chunk len }
{
    if len == 0 && first_chunk != 0 {
        return false;
    }
    if first_chunk > (u64::MAX - len) / CHUNK_LEN as u64 {
        return false;
    }
    let chunks = len.saturating_sub(1) / CHUNK_LEN as u64 + 1;
    first_chunk % chunks.next_power_of_two() == 0
}

/// Whether this many bytes are a power of two of full chunks.
pub(crate) fn is_whole(len: u64) -> bool
    ensures { IsTrue result ↔ ((e : ℕ) × (len ≡ 1024 * 2 ^ e)) }
{
    len % CHUNK_LEN as u64 == 0 && (len / CHUNK_LEN as u64).is_power_of_two()
}
