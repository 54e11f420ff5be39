// BLAKE2b and BLAKE2s of a message that lies in memory as a whole.

ghost use Rattle.std.specs.Prelude.{◌≡◌, ◌≢◌, length};
ghost use Rattle.words.specs.Blake2.{blake2b, blake2s};
ghost use Rattle.blake2.specs.Blake2.{blake2, salted, unsalted};
ghost use Rattle.blake2.specs.Faults.{parameter_fault};
ghost use Rattle.hash_c.specs.Statuses.{parameter_status};

use crate::statuses::SUMS_OK;
use crate::tags::status_of;
use blake2::{Blake2b, Blake2s};
use words::Absorb;

/// Fills `out` with the BLAKE2b digest of `input` of its length (RFC 7693, section 3.3), under a key of at
/// most 64 bytes, which may be empty: `SUMS_DIGEST_LENGTH` if `out` has none or more than 64 bytes, else
/// `SUMS_KEY_LENGTH` if the key is too long.
#[unsafe(no_mangle)]
pub extern "C" fn sums_blake2b(out: &mut [u8], input: &[u8], key: &[u8]) -> u32
    ensures status { result ≡ parameter_status (parameter_fault 64 (length out.old) (length key.now)) }
    ensures digest { result ≡ SUMS_OK
        → out.new ≡ blake2 blake2b (unsalted blake2b (length out.old) key.now) input.now }
    ensures kept { result ≢ SUMS_OK → out.new ≡ out.old }
{
    sums_blake2b_salted(out, input, key, &[0; 16], &[0; 16])
}

/// As `sums_blake2b`, with a salt and a personalization (RFC 7693, section 2.5).
#[unsafe(no_mangle)]
pub extern "C" fn sums_blake2b_salted(
    out: &mut [u8],
    input: &[u8],
    key: &[u8],
    salt: &[u8; 16],
    personal: &[u8; 16],
) -> u32
    ensures status { result ≡ parameter_status (parameter_fault 64 (length out.old) (length key.now)) }
    ensures digest { result ≡ SUMS_OK
        → out.new ≡ blake2 blake2b (salted (length out.old) key.now salt.now personal.now) input.now }
    ensures kept { result ≢ SUMS_OK → out.new ≡ out.old }
{
    let mut hasher = match Blake2b::with_parameters(out.len(), key, salt, personal) {
        Ok(hasher) => hasher,
        Err(fault) => return status_of(fault),
    };
    hasher.update(input).unwrap();
    out.copy_from_slice(hasher.finish().bytes());
    SUMS_OK
}

/// Fills `out` with the BLAKE2s digest of `input` of its length (RFC 7693, section 3.3), under a key of at
/// most 32 bytes, which may be empty: `SUMS_DIGEST_LENGTH` if `out` has none or more than 32 bytes, else
/// `SUMS_KEY_LENGTH` if the key is too long.
#[unsafe(no_mangle)]
pub extern "C" fn sums_blake2s(out: &mut [u8], input: &[u8], key: &[u8]) -> u32
    ensures status { result ≡ parameter_status (parameter_fault 32 (length out.old) (length key.now)) }
    ensures digest { result ≡ SUMS_OK
        → out.new ≡ blake2 blake2s (unsalted blake2s (length out.old) key.now) input.now }
    ensures kept { result ≢ SUMS_OK → out.new ≡ out.old }
{
    sums_blake2s_salted(out, input, key, &[0; 8], &[0; 8])
}

/// As `sums_blake2s`, with a salt and a personalization (RFC 7693, section 2.5).
#[unsafe(no_mangle)]
pub extern "C" fn sums_blake2s_salted(
    out: &mut [u8],
    input: &[u8],
    key: &[u8],
    salt: &[u8; 8],
    personal: &[u8; 8],
) -> u32
    ensures status { result ≡ parameter_status (parameter_fault 32 (length out.old) (length key.now)) }
    ensures digest { result ≡ SUMS_OK
        → out.new ≡ blake2 blake2s (salted (length out.old) key.now salt.now personal.now) input.now }
    ensures kept { result ≢ SUMS_OK → out.new ≡ out.old }
{
    let mut hasher = match Blake2s::with_parameters(out.len(), key, salt, personal) {
        Ok(hasher) => hasher,
        Err(fault) => return status_of(fault),
    };
    hasher.update(input).unwrap();
    out.copy_from_slice(hasher.finish().bytes());
    SUMS_OK
}
