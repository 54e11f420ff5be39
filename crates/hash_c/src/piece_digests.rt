// The digests of the pieces of a buffer, one after another.

ghost use Rattle.std.specs.Prelude.{◌≡◌, ◌≢◌, [], Some, MatchResult, length};
ghost use Rattle.sha2.specs.Sha256.{sha256};
ghost use Rattle.sha2.specs.Sha512.{sha512};
ghost use Rattle.words.specs.Blake2.{blake2b, blake2s};
ghost use Rattle.blake2.specs.Blake2.{blake2, unsalted};
ghost use Rattle.b3.specs.Bytes.{slice};
ghost use Rattle.b3.specs.Modes.{hash_root};
ghost use Rattle.pieces.specs.Faults.{piece_fault, sized_fault};
ghost use Rattle.pieces.specs.Pieces.{digests};
ghost use Rattle.hash_c.specs.Statuses.{piece_status};

use crate::statuses::{SUMS_DIGEST_LENGTH, SUMS_OK, SUMS_OUTPUT_LENGTH, SUMS_PIECE_LENGTH};
use pieces::Fault;

// The number of an outcome.
#[tactic(auto, unfolding(crate::specs::Statuses::piece_status))]
fn status_of(outcome: Result<(), Fault>) -> u32
    ensures { MatchResult outcome (λ _. result ≡ SUMS_OK) (λ fault. result ≡ piece_status (Some fault)) }
{
    match outcome {
        Ok(()) => SUMS_OK,
        Err(Fault::DigestLength) => SUMS_DIGEST_LENGTH,
        Err(Fault::PieceLength) => SUMS_PIECE_LENGTH,
        Err(Fault::OutputLength) => SUMS_OUTPUT_LENGTH,
    }
}

/// Fills `out` with the SHA-256 digests (FIPS 180-4, section 6.2) of the pieces of `piece_len` bytes that
/// `input` is cut into, one after another; the last piece may be shorter, and an empty `input` has no pieces.
/// `SUMS_PIECE_LENGTH` if `piece_len` is 0, else `SUMS_OUTPUT_LENGTH` if `out` does not have 32 bytes per
/// piece.
#[unsafe(no_mangle)]
#[tactic(auto, unfolding(crate::specs::Statuses::piece_status))]
pub extern "C" fn sums_sha256_pieces(out: &mut [u8], input: &[u8], piece_len: usize) -> u32
    ensures status { result ≡ piece_status (piece_fault 32 piece_len (length input.now) (length out.old)) }
    ensures digests { result ≡ SUMS_OK → out.new ≡ digests sha256 piece_len input.now }
    ensures kept { result ≢ SUMS_OK → out.new ≡ out.old }
{
    status_of(pieces::sha256(input, piece_len, out))
}

/// Fills `out` with the SHA-512 digests (FIPS 180-4, section 6.4) of the pieces of `piece_len` bytes that
/// `input` is cut into, one after another; the last piece may be shorter, and an empty `input` has no pieces.
/// `SUMS_PIECE_LENGTH` if `piece_len` is 0, else `SUMS_OUTPUT_LENGTH` if `out` does not have 64 bytes per
/// piece.
#[unsafe(no_mangle)]
#[tactic(auto, unfolding(crate::specs::Statuses::piece_status))]
pub extern "C" fn sums_sha512_pieces(out: &mut [u8], input: &[u8], piece_len: usize) -> u32
    ensures status { result ≡ piece_status (piece_fault 64 piece_len (length input.now) (length out.old)) }
    ensures digests { result ≡ SUMS_OK → out.new ≡ digests sha512 piece_len input.now }
    ensures kept { result ≢ SUMS_OK → out.new ≡ out.old }
{
    status_of(pieces::sha512(input, piece_len, out))
}

/// Fills `out` with the BLAKE2b digests of `digest_len` bytes, without a key (RFC 7693, section 3.3), of the
/// pieces of `piece_len` bytes that `input` is cut into, one after another; the last piece may be shorter,
/// and an empty `input` has no pieces. `SUMS_DIGEST_LENGTH` if `digest_len` is 0 or above 64, else
/// `SUMS_PIECE_LENGTH` if `piece_len` is 0, else `SUMS_OUTPUT_LENGTH` if `out` does not have `digest_len`
/// bytes per piece.
#[unsafe(no_mangle)]
#[tactic(auto, unfolding(crate::specs::Statuses::piece_status))]
pub extern "C" fn sums_blake2b_pieces(
    out: &mut [u8],
    digest_len: usize,
    input: &[u8],
    piece_len: usize,
) -> u32
    ensures status { result
        ≡ piece_status (sized_fault 64 digest_len piece_len (length input.now) (length out.old)) }
    ensures digests { result ≡ SUMS_OK
        → out.new ≡ digests (blake2 blake2b (unsalted blake2b digest_len [])) piece_len input.now }
    ensures kept { result ≢ SUMS_OK → out.new ≡ out.old }
{
    status_of(pieces::blake2b(digest_len, input, piece_len, out))
}

/// Fills `out` with the BLAKE2s digests of `digest_len` bytes, without a key (RFC 7693, section 3.3), of the
/// pieces of `piece_len` bytes that `input` is cut into, one after another; the last piece may be shorter,
/// and an empty `input` has no pieces. `SUMS_DIGEST_LENGTH` if `digest_len` is 0 or above 32, else
/// `SUMS_PIECE_LENGTH` if `piece_len` is 0, else `SUMS_OUTPUT_LENGTH` if `out` does not have `digest_len`
/// bytes per piece.
#[unsafe(no_mangle)]
#[tactic(auto, unfolding(crate::specs::Statuses::piece_status))]
pub extern "C" fn sums_blake2s_pieces(
    out: &mut [u8],
    digest_len: usize,
    input: &[u8],
    piece_len: usize,
) -> u32
    ensures status { result
        ≡ piece_status (sized_fault 32 digest_len piece_len (length input.now) (length out.old)) }
    ensures digests { result ≡ SUMS_OK
        → out.new ≡ digests (blake2 blake2s (unsalted blake2s digest_len [])) piece_len input.now }
    ensures kept { result ≢ SUMS_OK → out.new ≡ out.old }
{
    status_of(pieces::blake2s(digest_len, input, piece_len, out))
}

/// Fills `out` with BLAKE3's hashes of 32 bytes (the BLAKE3 paper, sections 2.3 and 2.6) of the pieces of
/// `piece_len` bytes that `input` is cut into, one after another; the last piece may be shorter, and an empty
/// `input` has no pieces. `SUMS_PIECE_LENGTH` if `piece_len` is 0, else `SUMS_OUTPUT_LENGTH` if `out` does
/// not have 32 bytes per piece.
#[unsafe(no_mangle)]
#[tactic(auto, unfolding(crate::specs::Statuses::piece_status))]
pub extern "C" fn sums_blake3_pieces(out: &mut [u8], input: &[u8], piece_len: usize) -> u32
    ensures status { result ≡ piece_status (piece_fault 32 piece_len (length input.now) (length out.old)) }
    ensures digests { result ≡ SUMS_OK → out.new ≡ digests (λ m. slice (hash_root m) 0 32) piece_len input.now }
    ensures kept { result ≢ SUMS_OK → out.new ≡ out.old }
{
    status_of(pieces::blake3(input, piece_len, out))
}
