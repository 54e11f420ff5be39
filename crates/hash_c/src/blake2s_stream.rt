// BLAKE2s of a message that comes in pieces. The state lies in the caller's memory.

ghost use Rattle.std.specs.Prelude.{◌≡◌, ◌≢◌, ◌+◌, ◌-◌, ◌^◌, ◌++◌, ◌↔◌, [], ℕ, List, length};
ghost use Rattle.words.specs.Blake2.{blake2s};
ghost use Rattle.blake2.specs.Blake2.{Parameters, blake2, message_limit, salted, unsalted};
ghost use Rattle.blake2.specs.Faults.{parameter_fault};
ghost use Rattle.blake2.specs.Begun.{IsBegun2s};
ghost use Rattle.blake2.specs.inside.States.{StateHolds2s};
ghost use Rattle.hash_c.specs.Statuses.{input_status, length_status, parameter_status};

use crate::statuses::{SUMS_NOT_BEGUN, SUMS_OK};
use crate::tags::{state_status, status_of, tag_into};
use blake2::{Blake2s, Blake2sState};

/// Begins a message, for a BLAKE2s digest of `digest_len` bytes under a key of at most 32 bytes, which may be
/// empty (RFC 7693, section 3.3): `SUMS_DIGEST_LENGTH` if `digest_len` is 0 or above 32, else
/// `SUMS_KEY_LENGTH` if the key is too long.
#[unsafe(no_mangle)]
pub extern "C" fn sums_blake2s_init(state: &mut Blake2sState, digest_len: usize, key: &[u8]) -> u32
    ensures status { result ≡ parameter_status (parameter_fault 32 digest_len (length key.now)) }
    ensures begun { result ≡ SUMS_OK → StateHolds2s state.new (unsalted blake2s digest_len key.now) [] }
    ensures kept { result ≢ SUMS_OK → state.new ≡ state.old }
{
    sums_blake2s_init_salted(state, digest_len, key, &[0; 8], &[0; 8])
}

/// As `sums_blake2s_init`, with a salt and a personalization (RFC 7693, section 2.5).
#[unsafe(no_mangle)]
pub extern "C" fn sums_blake2s_init_salted(
    state: &mut Blake2sState,
    digest_len: usize,
    key: &[u8],
    salt: &[u8; 8],
    personal: &[u8; 8],
) -> u32
    ensures status { result ≡ parameter_status (parameter_fault 32 digest_len (length key.now)) }
    ensures begun { result ≡ SUMS_OK
        → StateHolds2s state.new (salted digest_len key.now salt.now personal.now) [] }
    ensures kept { result ≢ SUMS_OK → state.new ≡ state.old }
{
    match Blake2s::with_parameters(digest_len, key, salt, personal) {
        Ok(hasher) => {
            state.save(&hasher);
            SUMS_OK
        }
        Err(fault) => status_of(fault),
    }
}

/// Adds a piece to the message: `SUMS_NOT_BEGUN` if `state` was never begun, else `SUMS_INPUT_TOO_LONG` if
/// the message would be longer than 2^64 - 1 bytes, less 64 under a key.
#[unsafe(no_mangle)]
pub extern "C" fn sums_blake2s_update(state: &mut Blake2sState, piece: &[u8]) -> u32
    ensures status { (p : Parameters) (m : List ℕ) → StateHolds2s state.old p m
        → result ≡ input_status (message_limit (2 ^ 64 - 1) 64 p.key) (length m + length piece.now) }
    ensures appended { (p : Parameters) (m : List ℕ) → StateHolds2s state.old p m → result ≡ SUMS_OK
        → StateHolds2s state.new p (m ++ piece.now) }
    ensures not_begun { (result ≡ SUMS_NOT_BEGUN) ↔ (IsBegun2s state.old → ⊥) }
    ensures kept { result ≢ SUMS_OK → state.new ≡ state.old }
{
    match state.update(piece) {
        Ok(()) => SUMS_OK,
        Err(fault) => state_status(fault),
    }
}

/// Fills `out` with the digest of the message (RFC 7693, section 3.3): `SUMS_NOT_BEGUN` if `state` was never
/// begun, else `SUMS_DIGEST_LENGTH` if `out` does not have the length given at the beginning. The message can
/// go on.
#[unsafe(no_mangle)]
pub extern "C" fn sums_blake2s_finish(state: &Blake2sState, out: &mut [u8]) -> u32
    ensures status { (p : Parameters) (m : List ℕ) → StateHolds2s state.now p m
        → result ≡ length_status p.digest_length (length out.old) }
    ensures digest { (p : Parameters) (m : List ℕ) → StateHolds2s state.now p m → result ≡ SUMS_OK
        → out.new ≡ blake2 blake2s p m }
    ensures not_begun { (result ≡ SUMS_NOT_BEGUN) ↔ (IsBegun2s state.now → ⊥) }
    ensures kept { result ≢ SUMS_OK → out.new ≡ out.old }
{
    match state.finish() {
        Some(tag) => tag_into(&tag, out),
        None => SUMS_NOT_BEGUN,
    }
}
