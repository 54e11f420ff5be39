// The BLAKE3 digests of pieces.

ghost use Rattle.std.specs.Prelude.{◌≡◌, ◌<◌, ◌≤◌, ◌+◌, [], ℕ, List, length, take, drop, slice_index, slice_index_or};
ghost use Rattle.std.specs.Prelude.{None, Some, MatchResult};
ghost use Rattle.std.proofs.Common.{rules};
ghost use Rattle.b3.specs.Bytes.{slice};
ghost use Rattle.b3.specs.Modes.{hash_root};
ghost use Rattle.pieces.specs.Pieces.{digests};
ghost use Rattle.pieces.specs.Faults.{piece_fault};

use crate::block_lanes::{least_of, most_of};
use crate::chunk_lanes::chunk_digests;
use crate::digests::write_digests;
use crate::fault::Fault;
use crate::piece_hash::PieceHash;
use b3::{Blake3, CHUNK_LEN};
use words::Absorb;

// BLAKE3 in the mode hash. Eight pieces go side by side if each is one chunk; for longer pieces the hasher
// takes the chunks of each side by side.
struct LanesBlake3;

impl PieceHash<8, 32> for LanesBlake3 {
    ghost size = { λ _. 32 };

    ghost digest = { λ _ m. slice (hash_root m) 0 32 };

    fn digest_len(&self) -> usize {
        32
    }

    fn fewest(&self, _piece_len: usize) -> usize {
        8
    }

    fn rows(&self, bytes: &[u8], starts: &[usize; 8], lens: &[usize; 8]) -> [[u8; 32]; 8] {
        let len = least_of(lens);
        if len == most_of(lens) && 0 < len && len <= CHUNK_LEN {
            return chunk_digests(bytes, starts, len);
        }
        let mut digests = [[0; 32]; 8];
        'messages: for i in 0..8 {
            digests[i] = digest_of(&bytes[starts[i]..starts[i] + lens[i]]);
        }
        digests
    }

    fn one(&self, piece: &[u8]) -> [u8; 32] {
        digest_of(piece)
    }

    ghost two_lanes = { Prim.search rules };

    ghost few_lanes = { Prim.search rules };

    ghost small = { Prim.search rules };
}

// The digest of one piece.
fn digest_of(piece: &[u8]) -> [u8; 32]
    ensures { result ≡ slice (hash_root piece.now) 0 32 }
{
    let mut hasher = Blake3::new();
    hasher.update(piece).unwrap();
    let mut digest = [0; 32];
    hasher.output().fill(&mut digest).unwrap();
    digest
}

/// Fills `out` with the BLAKE3 hashes of 32 bytes, in the mode hash (the BLAKE3 paper, sections 2.3 and 2.6),
/// of the pieces of `piece_len` bytes that `bytes` is cut into, one after the other. The last piece may be
/// shorter, and an empty input has no pieces. Refuses with `Fault::PieceLength` if `piece_len` is 0, and
/// otherwise with `Fault::OutputLength` if `out` does not have exactly 32 bytes for each piece; nothing is
/// written then.
pub fn blake3(bytes: &[u8], piece_len: usize, out: &mut [u8]) -> Result<(), Fault>
    ensures { MatchResult result
        (λ _. (piece_fault 32 piece_len (length bytes.now) (length out.old) ≡ None)
        × (out.new ≡ digests (λ m. slice (hash_root m) 0 32) piece_len bytes.now))
        (λ e. (piece_fault 32 piece_len (length bytes.now) (length out.old) ≡ Some e) × (out.new ≡ out.old)) }
{
    write_digests(&LanesBlake3, bytes, piece_len, out)
}
