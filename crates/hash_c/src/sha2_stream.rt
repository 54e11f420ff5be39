// SHA-256 and SHA-512 of a message that comes in pieces. The state lies in the caller's memory.

ghost use Rattle.std.specs.Prelude.{◌≡◌, ◌≢◌, ◌+◌, ◌-◌, ◌^◌, ◌++◌, ◌↔◌, [], ℕ, List, length};
ghost use Rattle.sha2.specs.Sha256.{sha256};
ghost use Rattle.sha2.specs.Sha512.{sha512};
ghost use Rattle.states.specs.Begun.{IsBegun256, IsBegun512};
ghost use Rattle.states.specs.inside.States.{StateHolds256, StateHolds512};
ghost use Rattle.hash_c.specs.Statuses.{input_status};
ghost use Rattle.hash_c.specs.declared.statuses.TheConstants.{SUMS_NOT_BEGUN, SUMS_OK};

use crate::streaming::{finish_state, update_state};
use mac::{Sha256Stream, Sha512Stream};
use states::{Sha256State, Sha512State};

/// Begins a message, for a SHA-256 digest (FIPS 180-4, section 6.2).
#[unsafe(no_mangle)]
pub extern "C" fn sums_sha256_init(state: &mut Sha256State)
    ensures { StateHolds256 state.new [] }
{
    Sha256State::begin(state);
}

/// Adds a piece to the message: `SUMS_NOT_BEGUN` if `state` was never begun, else `SUMS_INPUT_TOO_LONG` if
/// the message would be longer than 2^61 - 1 bytes.
#[unsafe(no_mangle)]
pub extern "C" fn sums_sha256_update(state: &mut Sha256State, piece: &[u8]) -> u32
    ensures status { (m : List ℕ) → StateHolds256 state.old m
        → result ≡ input_status (2 ^ 61 - 1) (length m + length piece.now) }
    ensures appended { (m : List ℕ) → StateHolds256 state.old m → result ≡ SUMS_OK
        → StateHolds256 state.new (m ++ piece.now) }
    ensures not_begun { (result ≡ SUMS_NOT_BEGUN) ↔ (IsBegun256 state.old → ⊥) }
    ensures kept { result ≢ SUMS_OK → state.new ≡ state.old }
{
    update_state::<Sha256Stream, Sha256State>(state, piece)
}

/// Fills `out` with the SHA-256 digest of the message (FIPS 180-4, section 6.2): `SUMS_NOT_BEGUN` if `state`
/// was never begun. The message can go on.
#[unsafe(no_mangle)]
pub extern "C" fn sums_sha256_finish(state: &Sha256State, out: &mut [u8; 32]) -> u32
    ensures status { (m : List ℕ) → StateHolds256 state.now m → result ≡ SUMS_OK }
    ensures digest { (m : List ℕ) → StateHolds256 state.now m → out.new ≡ sha256 m }
    ensures not_begun { (result ≡ SUMS_NOT_BEGUN) ↔ (IsBegun256 state.now → ⊥) }
    ensures kept { result ≢ SUMS_OK → out.new ≡ out.old }
{
    finish_state::<Sha256Stream, Sha256State>(state, out)
}

/// Begins a message, for a SHA-512 digest (FIPS 180-4, section 6.4).
#[unsafe(no_mangle)]
pub extern "C" fn sums_sha512_init(state: &mut Sha512State)
    ensures { StateHolds512 state.new [] }
{
    Sha512State::begin(state);
}

/// Adds a piece to the message: `SUMS_NOT_BEGUN` if `state` was never begun, else `SUMS_INPUT_TOO_LONG` if
/// the message would be longer than 2^125 - 1 bytes.
#[unsafe(no_mangle)]
pub extern "C" fn sums_sha512_update(state: &mut Sha512State, piece: &[u8]) -> u32
    ensures status { (m : List ℕ) → StateHolds512 state.old m
        → result ≡ input_status (2 ^ 125 - 1) (length m + length piece.now) }
    ensures appended { (m : List ℕ) → StateHolds512 state.old m → result ≡ SUMS_OK
        → StateHolds512 state.new (m ++ piece.now) }
    ensures not_begun { (result ≡ SUMS_NOT_BEGUN) ↔ (IsBegun512 state.old → ⊥) }
    ensures kept { result ≢ SUMS_OK → state.new ≡ state.old }
{
    update_state::<Sha512Stream, Sha512State>(state, piece)
}

/// Fills `out` with the SHA-512 digest of the message (FIPS 180-4, section 6.4): `SUMS_NOT_BEGUN` if `state`
/// was never begun. The message can go on.
#[unsafe(no_mangle)]
pub extern "C" fn sums_sha512_finish(state: &Sha512State, out: &mut [u8; 64]) -> u32
    ensures status { (m : List ℕ) → StateHolds512 state.now m → result ≡ SUMS_OK }
    ensures digest { (m : List ℕ) → StateHolds512 state.now m → out.new ≡ sha512 m }
    ensures not_begun { (result ≡ SUMS_NOT_BEGUN) ↔ (IsBegun512 state.now → ⊥) }
    ensures kept { result ≢ SUMS_OK → out.new ≡ out.old }
{
    finish_state::<Sha512Stream, Sha512State>(state, out)
}
