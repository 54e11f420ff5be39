// BLAKE2b of a message that comes in pieces. The state lies in the caller's memory.

ghost use Rattle.std.specs.Prelude.{◌≡◌, ◌≢◌, ◌+◌, ◌-◌, ◌^◌, ◌++◌, ◌↔◌, [], ℕ, List, length};
ghost use Rattle.words.specs.Blake2.{blake2b};
ghost use Rattle.blake2.specs.Blake2.{Parameters, blake2, message_limit, salted, unsalted};
ghost use Rattle.blake2.specs.Faults.{parameter_fault};
ghost use Rattle.blake2.specs.Begun.{IsBegun2b};
ghost use Rattle.blake2.specs.inside.States.{StateHolds2b};
ghost use Rattle.hash_c.specs.Statuses.{input_status, length_status, parameter_status};

use crate::statuses::{SUMS_NOT_BEGUN, SUMS_OK};
use crate::tags::{state_status, status_of, tag_into};
use blake2::{Blake2b, Blake2bState};

/// Begins a message, for a BLAKE2b digest of `digest_len` bytes under a key of at most 64 bytes, which may be
/// empty (RFC 7693, section 3.3): `SUMS_DIGEST_LENGTH` if `digest_len` is 0 or above 64, else
/// `SUMS_KEY_LENGTH` if the key is too long.
#[unsafe(no_mangle)]
pub extern "C" fn sums_blake2b_init(state: &mut Blake2bState, digest_len: usize, key: &[u8]) -> u32
    ensures status { result ≡ parameter_status (parameter_fault 64 digest_len (length key.now)) }
    ensures begun { result ≡ SUMS_OK → StateHolds2b state.new (unsalted blake2b digest_len key.now) [] }
    ensures kept { result ≢ SUMS_OK → state.new ≡ state.old }
{
    sums_blake2b_init_salted(state, digest_len, key, &[0; 16], &[0; 16])
}

/// As `sums_blake2b_init`, with a salt and a personalization (RFC 7693, section 2.5).
#[unsafe(no_mangle)]
pub extern "C" fn sums_blake2b_init_salted(
    state: &mut Blake2bState,
    digest_len: usize,
    key: &[u8],
    salt: &[u8; 16],
    personal: &[u8; 16],
) -> u32
    ensures status { result ≡ parameter_status (parameter_fault 64 digest_len (length key.now)) }
    ensures begun { result ≡ SUMS_OK
        → StateHolds2b state.new (salted digest_len key.now salt.now personal.now) [] }
    ensures kept { result ≢ SUMS_OK → state.new ≡ state.old }
{
    match Blake2b::with_parameters(digest_len, key, salt, personal) {
        Ok(hasher) => {
            state.save(&hasher);
            SUMS_OK
        }
        Err(fault) => status_of(fault),
    }
}

/// Adds a piece to the message: `SUMS_NOT_BEGUN` if `state` was never begun, else `SUMS_INPUT_TOO_LONG` if
/// the message would be longer than 2^128 - 1 bytes, less 128 under a key.
#[unsafe(no_mangle)]
pub extern "C" fn sums_blake2b_update(state: &mut Blake2bState, piece: &[u8]) -> u32
    ensures status { (p : Parameters) (m : List ℕ) → StateHolds2b state.old p m
        → result ≡ input_status (message_limit (2 ^ 128 - 1) 128 p.key) (length m + length piece.now) }
    ensures appended { (p : Parameters) (m : List ℕ) → StateHolds2b state.old p m → result ≡ SUMS_OK
        → StateHolds2b state.new p (m ++ piece.now) }
    ensures not_begun { (result ≡ SUMS_NOT_BEGUN) ↔ (IsBegun2b state.old → ⊥) }
    ensures kept { result ≢ SUMS_OK → state.new ≡ state.old }
{
    match state.update(piece) {
        Ok(()) => SUMS_OK,
        Err(fault) => state_status(fault),
    }
}

/// Fills `out` with the digest of the message (RFC 7693, section 3.3): `SUMS_NOT_BEGUN` if `state` was never
/// begun, else `SUMS_DIGEST_LENGTH` if `out` does not have the length given at the beginning. The message can
/// go on.
#[unsafe(no_mangle)]
pub extern "C" fn sums_blake2b_finish(state: &Blake2bState, out: &mut [u8]) -> u32
    ensures status { (p : Parameters) (m : List ℕ) → StateHolds2b state.now p m
        → result ≡ length_status p.digest_length (length out.old) }
    ensures digest { (p : Parameters) (m : List ℕ) → StateHolds2b state.now p m → result ≡ SUMS_OK
        → out.new ≡ blake2 blake2b p m }
    ensures not_begun { (result ≡ SUMS_NOT_BEGUN) ↔ (IsBegun2b state.now → ⊥) }
    ensures kept { result ≢ SUMS_OK → out.new ≡ out.old }
{
    match state.finish() {
        Some(tag) => tag_into(&tag, out),
        None => SUMS_NOT_BEGUN,
    }
}
