// HMAC of a text that lies in memory as a whole.

ghost use Rattle.std.specs.Prelude.{◌≡◌, ◌≢◌, ◌-◌, ◌^◌, length, take};
ghost use Rattle.mac.specs.Hmac.{hmac};
ghost use Rattle.sha2.specs.Sha256.{sha256};
ghost use Rattle.sha2.specs.Sha512.{sha512};
ghost use Rattle.hash_c.specs.Statuses.{hmac_status};
ghost use Rattle.hash_c.specs.Unkeyed.{blake2b_512, blake2s_256};

use crate::statuses::{SUMS_DIGEST_LENGTH, SUMS_INPUT_TOO_LONG, SUMS_KEY_LENGTH, SUMS_OK};
use mac::{Blake2b512, Blake2s256, BlockHash, Hmac, Sha256Stream, Sha512Stream};
use words::Absorb;

// The first bytes of an HMAC, as many as `out` has.
fn hmac_into<H: BlockHash>(out: &mut [u8], input: &[u8], key: &[u8]) -> u32
    ensures status { result
        ≡ hmac_status H.BLOCK H.OUT H.LIMIT (length out.old) (length key.now) (length input.now) }
    ensures tag { result ≡ SUMS_OK
        → out.new ≡ take (length out.old) (hmac H.hash_of H.BLOCK key.now input.now) }
    ensures kept { result ≢ SUMS_OK → out.new ≡ out.old }
{
    if out.len() < H::OUT / 2 || out.len() > H::OUT {
        return SUMS_DIGEST_LENGTH;
    }
    let Ok(mut mac) = Hmac::<H>::new(key) else {
        return SUMS_KEY_LENGTH;
    };
    if mac.update(input).is_err() {
        return SUMS_INPUT_TOO_LONG;
    }
    let tag = mac.finish();
    out.copy_from_slice(&tag.bytes()[..out.len()]);
    SUMS_OK
}

/// Fills `out` with the first bytes of the HMAC of `input` under `key` over SHA-256 (RFC 2104, sections 2 and
/// 5): `SUMS_DIGEST_LENGTH` if `out` has fewer than 16 bytes or more than 32, else `SUMS_KEY_LENGTH` if the
/// key is longer than 2^61 - 1 bytes, else `SUMS_INPUT_TOO_LONG` if `input` is longer than that less a block
/// of 64.
#[unsafe(no_mangle)]
pub extern "C" fn sums_hmac_sha256(out: &mut [u8], input: &[u8], key: &[u8]) -> u32
    ensures status { result
        ≡ hmac_status 64 32 (2 ^ 61 - 1) (length out.old) (length key.now) (length input.now) }
    ensures tag { result ≡ SUMS_OK → out.new ≡ take (length out.old) (hmac sha256 64 key.now input.now) }
    ensures kept { result ≢ SUMS_OK → out.new ≡ out.old }
{
    hmac_into::<Sha256Stream>(out, input, key)
}

/// As `sums_hmac_sha256`, over SHA-512: `out` has 32 to 64 bytes, and blocks have 128. No slice is too long.
#[unsafe(no_mangle)]
pub extern "C" fn sums_hmac_sha512(out: &mut [u8], input: &[u8], key: &[u8]) -> u32
    ensures status { result
        ≡ hmac_status 128 64 (2 ^ 125 - 1) (length out.old) (length key.now) (length input.now) }
    ensures tag { result ≡ SUMS_OK → out.new ≡ take (length out.old) (hmac sha512 128 key.now input.now) }
    ensures kept { result ≢ SUMS_OK → out.new ≡ out.old }
{
    hmac_into::<Sha512Stream>(out, input, key)
}

/// As `sums_hmac_sha256`, over BLAKE2b with digests of 64 bytes: `out` has 32 to 64 bytes. No slice is too
/// long.
#[unsafe(no_mangle)]
pub extern "C" fn sums_hmac_blake2b(out: &mut [u8], input: &[u8], key: &[u8]) -> u32
    ensures status { result
        ≡ hmac_status 128 64 (2 ^ 128 - 1) (length out.old) (length key.now) (length input.now) }
    ensures tag { result ≡ SUMS_OK → out.new ≡ take (length out.old) (hmac blake2b_512 128 key.now input.now) }
    ensures kept { result ≢ SUMS_OK → out.new ≡ out.old }
{
    hmac_into::<Blake2b512>(out, input, key)
}

/// As `sums_hmac_sha256`, over BLAKE2s with digests of 32 bytes: `out` has 16 to 32 bytes. No slice is too
/// long.
#[unsafe(no_mangle)]
pub extern "C" fn sums_hmac_blake2s(out: &mut [u8], input: &[u8], key: &[u8]) -> u32
    ensures status { result
        ≡ hmac_status 64 32 (2 ^ 64 - 1) (length out.old) (length key.now) (length input.now) }
    ensures tag { result ≡ SUMS_OK → out.new ≡ take (length out.old) (hmac blake2s_256 64 key.now input.now) }
    ensures kept { result ≢ SUMS_OK → out.new ≡ out.old }
{
    hmac_into::<Blake2s256>(out, input, key)
}
