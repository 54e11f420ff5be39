// BLAKE3 of a message that comes in pieces. The state lies in the caller's memory.

ghost use Rattle.std.specs.Prelude.{◌≡◌, ◌≢◌, ◌+◌, ◌-◌, ◌^◌, ◌++◌, ◌↔◌, [], ℕ, List, length};
ghost use Rattle.b3.specs.Bytes.{slice};
ghost use Rattle.b3.specs.Modes.{derive_parameters, hash_parameters, keyed_parameters, root_of};
ghost use Rattle.b3.specs.Begun.{IsBegun};
ghost use Rattle.b3.specs.inside.States.{StateHolds};
ghost use Rattle.hash_c.specs.Statuses.{input_status, output_status};

use crate::blake3_once::output_into;
use crate::statuses::{SUMS_INPUT_TOO_LONG, SUMS_NOT_BEGUN, SUMS_OK};
use b3::{Blake3, Blake3State};
use words::Absorb;

/// Begins a message in BLAKE3's mode `hash` (the BLAKE3 paper, section 2.3).
#[unsafe(no_mangle)]
pub extern "C" fn sums_blake3_init(state: &mut Blake3State)
    ensures { StateHolds state.new hash_parameters [] }
{
    state.save(&Blake3::new());
}

/// Begins a message in the mode `keyed_hash`, under a key of 32 bytes.
#[unsafe(no_mangle)]
pub extern "C" fn sums_blake3_init_keyed(state: &mut Blake3State, key: &[u8; 32])
    ensures { StateHolds state.new (keyed_parameters key.now) [] }
{
    state.save(&Blake3::keyed(key));
}

/// Begins key material in the mode `derive_key`, under a context.
#[unsafe(no_mangle)]
pub extern "C" fn sums_blake3_init_derive(state: &mut Blake3State, context: &[u8])
    ensures { StateHolds state.new (derive_parameters context.now) [] }
{
    state.save(&Blake3::derive(context));
}

/// Begins a message anew, in the mode of the one before and under its key or context: `SUMS_NOT_BEGUN` if
/// `state` was never begun.
#[unsafe(no_mangle)]
pub extern "C" fn sums_blake3_reset(state: &mut Blake3State) -> u32
    ensures status { IsBegun state.old → result ≡ SUMS_OK }
    ensures empty { (p m : List ℕ) → StateHolds state.old p m → StateHolds state.new p [] }
    ensures not_begun { (result ≡ SUMS_NOT_BEGUN) ↔ (IsBegun state.old → ⊥) }
    ensures kept { result ≢ SUMS_OK → state.new ≡ state.old }
{
    let Some(mut hasher) = state.resume() else {
        return SUMS_NOT_BEGUN;
    };
    hasher.reset();
    state.save(&hasher);
    SUMS_OK
}

/// Adds a piece to the message: `SUMS_NOT_BEGUN` if `state` was never begun, else `SUMS_INPUT_TOO_LONG` if
/// the message would be longer than 2^64 - 1 bytes.
#[unsafe(no_mangle)]
pub extern "C" fn sums_blake3_update(state: &mut Blake3State, piece: &[u8]) -> u32
    ensures status { (p m : List ℕ) → StateHolds state.old p m
        → result ≡ input_status (2 ^ 64 - 1) (length m + length piece.now) }
    ensures appended { (p m : List ℕ) → StateHolds state.old p m → result ≡ SUMS_OK
        → StateHolds state.new p (m ++ piece.now) }
    ensures not_begun { (result ≡ SUMS_NOT_BEGUN) ↔ (IsBegun state.old → ⊥) }
    ensures kept { result ≢ SUMS_OK → state.new ≡ state.old }
{
    let Some(mut hasher) = state.resume() else {
        return SUMS_NOT_BEGUN;
    };
    match hasher.update(piece) {
        Ok(()) => {
            state.save(&hasher);
            SUMS_OK
        }
        Err(_) => SUMS_INPUT_TOO_LONG,
    }
}

/// Fills `out` with the bytes of the message's output from `position` on: `SUMS_NOT_BEGUN` if `state` was
/// never begun, else `SUMS_END_OF_OUTPUT` if they would end after position 2^64 - 1. The message can go on.
#[unsafe(no_mangle)]
pub extern "C" fn sums_blake3_output(state: &Blake3State, position: u64, out: &mut [u8]) -> u32
    ensures status { (p m : List ℕ) → StateHolds state.now p m
        → result ≡ output_status position (length out.old) }
    ensures bytes { (p m : List ℕ) → StateHolds state.now p m → result ≡ SUMS_OK
        → out.new ≡ slice (root_of p m) position (length out.old) }
    ensures not_begun { (result ≡ SUMS_NOT_BEGUN) ↔ (IsBegun state.now → ⊥) }
    ensures kept { result ≢ SUMS_OK → out.new ≡ out.old }
{
    let Some(hasher) = state.resume() else {
        return SUMS_NOT_BEGUN;
    };
    output_into(&hasher, position, out)
}
