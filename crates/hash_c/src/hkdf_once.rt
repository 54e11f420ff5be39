// HKDF of keying material that lies in memory as a whole (RFC 5869).

ghost use Rattle.std.specs.Prelude.{◌≡◌, ◌≢◌, ◌-◌, ◌^◌, Some, length, MatchResult};
ghost use Rattle.kdf.specs.Hkdf as spec;
ghost use Rattle.sha2.specs.Sha256.{sha256};
ghost use Rattle.sha2.specs.Sha512.{sha512};
ghost use Rattle.hash_c.specs.Statuses.{expand_status, hkdf_status, keyed_status};
ghost use Rattle.hash_c.specs.Unkeyed.{blake2b_512, blake2s_256};

use crate::statuses::{SUMS_END_OF_OUTPUT, SUMS_INPUT_TOO_LONG, SUMS_KEY_LENGTH, SUMS_OK};
use kdf::{ExpandFault, Extract, expand};
use mac::{Blake2b512, Blake2s256, BlockHash, Sha256Stream, Sha512Stream};
use words::{Absorb, Tag};

// The pseudorandom key of the material under a salt, or the status of the refusal.
fn extracted<H: BlockHash>(material: &[u8], salt: &[u8]) -> Result<Tag, u32>
    ensures { MatchResult result
        (λ prk. (keyed_status H.BLOCK H.LIMIT (length salt.now) (length material.now) ≡ SUMS_OK)
        × (length prk ≡ H.OUT)
        × (prk ≡ spec.extract H.hash_of H.BLOCK H.OUT (Some salt.now) material.now))
        (λ status. (status ≡ keyed_status H.BLOCK H.LIMIT (length salt.now) (length material.now))
        × (status ≢ SUMS_OK)) }
{
    let Ok(mut extract) = Extract::<H>::new(Some(salt)) else {
        return Err(SUMS_KEY_LENGTH);
    };
    if extract.update(material).is_err() {
        return Err(SUMS_INPUT_TOO_LONG);
    }
    Ok(extract.finish())
}

// Fills `prk`, which is as long as a digest, with the pseudorandom key.
fn extract_into<H: BlockHash>(prk: &mut [u8], material: &[u8], salt: &[u8]) -> u32
    requires { length prk.old ≡ H.OUT }
    ensures status { result ≡ keyed_status H.BLOCK H.LIMIT (length salt.now) (length material.now) }
    ensures key { result ≡ SUMS_OK
        → prk.new ≡ spec.extract H.hash_of H.BLOCK H.OUT (Some salt.now) material.now }
    ensures kept { result ≢ SUMS_OK → prk.new ≡ prk.old }
{
    match extracted::<H>(material, salt) {
        Ok(key) => {
            prk.copy_from_slice(key.bytes());
            SUMS_OK
        }
        Err(status) => status,
    }
}

// Fills `out` with keying material from a pseudorandom key.
fn expand_into<H: BlockHash>(out: &mut [u8], prk: &[u8], info: &[u8]) -> u32
    ensures status { result
        ≡ expand_status H.BLOCK H.OUT H.LIMIT (length out.old) (length prk.now) (length info.now) }
    ensures output { result ≡ SUMS_OK
        → out.new ≡ spec.expand H.hash_of H.BLOCK prk.now info.now (length out.old) }
    ensures kept { result ≢ SUMS_OK → out.new ≡ out.old }
{
    match expand::<H>(prk, info, out) {
        Ok(()) => SUMS_OK,
        Err(ExpandFault::PrkTooShort) => SUMS_KEY_LENGTH,
        Err(ExpandFault::KeyTooLong) => SUMS_KEY_LENGTH,
        Err(ExpandFault::OutputTooLong) => SUMS_END_OF_OUTPUT,
        Err(ExpandFault::InfoTooLong) => SUMS_INPUT_TOO_LONG,
    }
}

// Fills `out` with keying material from `material` under a salt.
fn hkdf_into<H: BlockHash>(out: &mut [u8], material: &[u8], salt: &[u8], info: &[u8]) -> u32
    ensures status { result ≡ hkdf_status H.BLOCK H.OUT H.LIMIT (length out.old)
        (length material.now) (length salt.now) (length info.now) }
    ensures output { result ≡ SUMS_OK → out.new ≡ spec.expand H.hash_of H.BLOCK
        (spec.extract H.hash_of H.BLOCK H.OUT (Some salt.now) material.now) info.now (length out.old) }
    ensures kept { result ≢ SUMS_OK → out.new ≡ out.old }
{
    match extracted::<H>(material, salt) {
        Ok(prk) => expand_into::<H>(out, prk.bytes(), info),
        Err(status) => status,
    }
}

/// Fills `out` with keying material derived from `material` under a salt, bound to `info`: HKDF over SHA-256
/// (RFC 5869, section 2); an empty salt stands for none. `SUMS_KEY_LENGTH` if the salt is longer than
/// 2^61 - 1 bytes, else `SUMS_INPUT_TOO_LONG` if the material is longer than that less a block of 64, else
/// `SUMS_END_OF_OUTPUT` if `out` has more than 8160 bytes, else `SUMS_INPUT_TOO_LONG` if `info` is longer
/// than 2^61 - 98 bytes.
#[unsafe(no_mangle)]
pub extern "C" fn sums_hkdf_sha256(out: &mut [u8], material: &[u8], salt: &[u8], info: &[u8]) -> u32
    ensures status { result ≡ hkdf_status 64 32 (2 ^ 61 - 1) (length out.old)
        (length material.now) (length salt.now) (length info.now) }
    ensures output { result ≡ SUMS_OK → out.new ≡ spec.expand sha256 64
        (spec.extract sha256 64 32 (Some salt.now) material.now) info.now (length out.old) }
    ensures kept { result ≢ SUMS_OK → out.new ≡ out.old }
{
    hkdf_into::<Sha256Stream>(out, material, salt, info)
}

/// The pseudorandom key of `material` under a salt: HKDF-Extract over SHA-256 (RFC 5869, section 2.2).
/// `SUMS_KEY_LENGTH` and `SUMS_INPUT_TOO_LONG` as in `sums_hkdf_sha256`.
#[unsafe(no_mangle)]
pub extern "C" fn sums_hkdf_extract_sha256(prk: &mut [u8; 32], material: &[u8], salt: &[u8]) -> u32
    ensures status { result ≡ keyed_status 64 (2 ^ 61 - 1) (length salt.now) (length material.now) }
    ensures key { result ≡ SUMS_OK
        → prk.new ≡ spec.extract sha256 64 32 (Some salt.now) material.now }
    ensures kept { result ≢ SUMS_OK → prk.new ≡ prk.old }
{
    extract_into::<Sha256Stream>(prk, material, salt)
}

/// Fills `out` with keying material from a pseudorandom key: HKDF-Expand over SHA-256 (RFC 5869, section
/// 2.3). `SUMS_KEY_LENGTH` if the key has fewer than 32 bytes or more than 2^61 - 1; `SUMS_END_OF_OUTPUT` and
/// `SUMS_INPUT_TOO_LONG` as in `sums_hkdf_sha256`.
#[unsafe(no_mangle)]
pub extern "C" fn sums_hkdf_expand_sha256(out: &mut [u8], prk: &[u8], info: &[u8]) -> u32
    ensures status { result
        ≡ expand_status 64 32 (2 ^ 61 - 1) (length out.old) (length prk.now) (length info.now) }
    ensures output { result ≡ SUMS_OK
        → out.new ≡ spec.expand sha256 64 prk.now info.now (length out.old) }
    ensures kept { result ≢ SUMS_OK → out.new ≡ out.old }
{
    expand_into::<Sha256Stream>(out, prk, info)
}

/// HKDF over SHA-512, as `sums_hkdf_sha256`: at most 16320 bytes. No slice is too long.
#[unsafe(no_mangle)]
pub extern "C" fn sums_hkdf_sha512(out: &mut [u8], material: &[u8], salt: &[u8], info: &[u8]) -> u32
    ensures status { result ≡ hkdf_status 128 64 (2 ^ 125 - 1) (length out.old)
        (length material.now) (length salt.now) (length info.now) }
    ensures output { result ≡ SUMS_OK → out.new ≡ spec.expand sha512 128
        (spec.extract sha512 128 64 (Some salt.now) material.now) info.now (length out.old) }
    ensures kept { result ≢ SUMS_OK → out.new ≡ out.old }
{
    hkdf_into::<Sha512Stream>(out, material, salt, info)
}

/// HKDF-Extract over SHA-512, as `sums_hkdf_extract_sha256`.
#[unsafe(no_mangle)]
pub extern "C" fn sums_hkdf_extract_sha512(prk: &mut [u8; 64], material: &[u8], salt: &[u8]) -> u32
    ensures status { result ≡ keyed_status 128 (2 ^ 125 - 1) (length salt.now) (length material.now) }
    ensures key { result ≡ SUMS_OK
        → prk.new ≡ spec.extract sha512 128 64 (Some salt.now) material.now }
    ensures kept { result ≢ SUMS_OK → prk.new ≡ prk.old }
{
    extract_into::<Sha512Stream>(prk, material, salt)
}

/// HKDF-Expand over SHA-512, as `sums_hkdf_expand_sha256`: a key of at least 64 bytes.
#[unsafe(no_mangle)]
pub extern "C" fn sums_hkdf_expand_sha512(out: &mut [u8], prk: &[u8], info: &[u8]) -> u32
    ensures status { result
        ≡ expand_status 128 64 (2 ^ 125 - 1) (length out.old) (length prk.now) (length info.now) }
    ensures output { result ≡ SUMS_OK
        → out.new ≡ spec.expand sha512 128 prk.now info.now (length out.old) }
    ensures kept { result ≢ SUMS_OK → out.new ≡ out.old }
{
    expand_into::<Sha512Stream>(out, prk, info)
}

/// HKDF over BLAKE2b with digests of 64 bytes, as `sums_hkdf_sha256`: at most 16320 bytes. No slice is too long.
#[unsafe(no_mangle)]
pub extern "C" fn sums_hkdf_blake2b(
    out: &mut [u8],
    material: &[u8],
    salt: &[u8],
    info: &[u8],
) -> u32
    ensures status { result ≡ hkdf_status 128 64 (2 ^ 128 - 1) (length out.old)
        (length material.now) (length salt.now) (length info.now) }
    ensures output { result ≡ SUMS_OK → out.new ≡ spec.expand blake2b_512 128
        (spec.extract blake2b_512 128 64 (Some salt.now) material.now) info.now (length out.old) }
    ensures kept { result ≢ SUMS_OK → out.new ≡ out.old }
{
    hkdf_into::<Blake2b512>(out, material, salt, info)
}

/// HKDF-Extract over BLAKE2b with digests of 64 bytes, as `sums_hkdf_extract_sha256`.
#[unsafe(no_mangle)]
pub extern "C" fn sums_hkdf_extract_blake2b(prk: &mut [u8; 64], material: &[u8], salt: &[u8]) -> u32
    ensures status { result ≡ keyed_status 128 (2 ^ 128 - 1) (length salt.now) (length material.now) }
    ensures key { result ≡ SUMS_OK → prk.new ≡ spec.extract blake2b_512 128 64 (Some salt.now) material.now }
    ensures kept { result ≢ SUMS_OK → prk.new ≡ prk.old }
{
    extract_into::<Blake2b512>(prk, material, salt)
}

/// HKDF-Expand over BLAKE2b with digests of 64 bytes, as `sums_hkdf_expand_sha256`: a key of at least 64 bytes.
#[unsafe(no_mangle)]
pub extern "C" fn sums_hkdf_expand_blake2b(out: &mut [u8], prk: &[u8], info: &[u8]) -> u32
    ensures status { result
        ≡ expand_status 128 64 (2 ^ 128 - 1) (length out.old) (length prk.now) (length info.now) }
    ensures output { result ≡ SUMS_OK
        → out.new ≡ spec.expand blake2b_512 128 prk.now info.now (length out.old) }
    ensures kept { result ≢ SUMS_OK → out.new ≡ out.old }
{
    expand_into::<Blake2b512>(out, prk, info)
}

/// HKDF over BLAKE2s with digests of 32 bytes, as `sums_hkdf_sha256`: at most 8160 bytes. No slice is too long.
#[unsafe(no_mangle)]
pub extern "C" fn sums_hkdf_blake2s(
    out: &mut [u8],
    material: &[u8],
    salt: &[u8],
    info: &[u8],
) -> u32
    ensures status { result ≡ hkdf_status 64 32 (2 ^ 64 - 1) (length out.old)
        (length material.now) (length salt.now) (length info.now) }
    ensures output { result ≡ SUMS_OK → out.new ≡ spec.expand blake2s_256 64
        (spec.extract blake2s_256 64 32 (Some salt.now) material.now) info.now (length out.old) }
    ensures kept { result ≢ SUMS_OK → out.new ≡ out.old }
{
    hkdf_into::<Blake2s256>(out, material, salt, info)
}

/// HKDF-Extract over BLAKE2s with digests of 32 bytes, as `sums_hkdf_extract_sha256`.
#[unsafe(no_mangle)]
pub extern "C" fn sums_hkdf_extract_blake2s(prk: &mut [u8; 32], material: &[u8], salt: &[u8]) -> u32
    ensures status { result ≡ keyed_status 64 (2 ^ 64 - 1) (length salt.now) (length material.now) }
    ensures key { result ≡ SUMS_OK → prk.new ≡ spec.extract blake2s_256 64 32 (Some salt.now) material.now }
    ensures kept { result ≢ SUMS_OK → prk.new ≡ prk.old }
{
    extract_into::<Blake2s256>(prk, material, salt)
}

/// HKDF-Expand over BLAKE2s with digests of 32 bytes, as `sums_hkdf_expand_sha256`: a key of at least 32 bytes.
#[unsafe(no_mangle)]
pub extern "C" fn sums_hkdf_expand_blake2s(out: &mut [u8], prk: &[u8], info: &[u8]) -> u32
    ensures status { result
        ≡ expand_status 64 32 (2 ^ 64 - 1) (length out.old) (length prk.now) (length info.now) }
    ensures output { result ≡ SUMS_OK
        → out.new ≡ spec.expand blake2s_256 64 prk.now info.now (length out.old) }
    ensures kept { result ≢ SUMS_OK → out.new ≡ out.old }
{
    expand_into::<Blake2s256>(out, prk, info)
}
