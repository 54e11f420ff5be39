// HMAC of a text that comes in pieces (RFC 2104). The state lies in the caller's memory: two hashers, of
// which one has taken the key with the inner pad and then the text, the other the key with the outer pad.

ghost use Rattle.std.specs.Prelude.{◌≡◌, ◌≢◌, ◌+◌, ◌-◌, ◌^◌, ◌++◌, ◌↔◌, [], ℕ, List, length, take};
ghost use Rattle.sha2.specs.Sha256.{sha256};
ghost use Rattle.sha2.specs.Sha512.{sha512};
ghost use Rattle.states.specs.Begun.{IsBegun256, IsBegun512};
ghost use Rattle.blake2.specs.Begun.{IsBegun2b, IsBegun2s};
ghost use Rattle.mac.specs.Hmac.{block_sized_key, hmac_of_block_key};
ghost use Rattle.states.specs.Macs.{IsMac};
ghost use Rattle.hash_c.specs.inside.Macs.{IsMac256, IsMac2b, IsMac2s, IsMac512};
ghost use Rattle.hash_c.specs.Statuses.{input_status, key_status, tag_status};
ghost use Rattle.hash_c.specs.Unkeyed.{blake2b_512, blake2s_256};

use crate::statuses::{SUMS_DIGEST_LENGTH, SUMS_KEY_LENGTH, SUMS_NOT_BEGUN, SUMS_OK};
use crate::streaming::update_state;
use blake2::{Blake2bState, Blake2sState};
use mac::{Blake2b512, Blake2s256, BlockHash, Sha256Stream, Sha512Stream};
use states::{Sha256State, Sha512State, StateOf, begin_hmac, finish_hmac};

// Begins a MAC under a key.
fn begin<H: BlockHash, S: StateOf<H>>(inner: &mut S, outer: &mut S, key: &[u8]) -> u32
    ensures status { result ≡ key_status H.LIMIT (length key.now) }
    ensures begun { result ≡ SUMS_OK
        → IsMac S.holds H.BLOCK (block_sized_key H.hash_of H.BLOCK key.now) inner.new outer.new [] }
    ensures inner_kept { result ≢ SUMS_OK → inner.new ≡ inner.old }
    ensures outer_kept { result ≢ SUMS_OK → outer.new ≡ outer.old }
{
    match begin_hmac::<H, S>(inner, outer, key) {
        Ok(()) => SUMS_OK,
        Err(_) => SUMS_KEY_LENGTH,
    }
}

// Fills `out` with the first bytes of the tag.
fn finish<H: BlockHash, S: StateOf<H>>(inner: &S, outer: &S, out: &mut [u8]) -> u32
    ensures status { (k m : List ℕ) → IsMac S.holds H.BLOCK k inner.now outer.now m
        → result ≡ tag_status H.OUT (length out.old) }
    ensures tag { (k m : List ℕ) → IsMac S.holds H.BLOCK k inner.now outer.now m → result ≡ SUMS_OK
        → out.new ≡ take (length out.old) (hmac_of_block_key H.hash_of k m) }
    ensures inner_not_begun { (S.is_begun inner.now → ⊥) → result ≡ SUMS_NOT_BEGUN }
    ensures outer_not_begun { (S.is_begun outer.now → ⊥) → result ≡ SUMS_NOT_BEGUN }
    ensures kept { result ≢ SUMS_OK → out.new ≡ out.old }
{
    let Some(tag) = finish_hmac::<H, S>(inner, outer) else {
        return SUMS_NOT_BEGUN;
    };
    let bytes = tag.bytes();
    if out.len() < H::OUT / 2 || out.len() > bytes.len() {
        return SUMS_DIGEST_LENGTH;
    }
    out.copy_from_slice(&bytes[..out.len()]);
    SUMS_OK
}

/// An HMAC over SHA-256 between two calls.
#[repr(C)]
#[derive(Drop)]
pub struct HmacSha256State {
    inner: Sha256State,
    outer: Sha256State,
}

/// Begins the HMAC of a text under `key` over SHA-256: `SUMS_KEY_LENGTH` if the key is longer than 2^61 - 1
/// bytes.
#[unsafe(no_mangle)]
pub extern "C" fn sums_hmac_sha256_init(state: &mut HmacSha256State, key: &[u8]) -> u32
    ensures status { result ≡ key_status (2 ^ 61 - 1) (length key.now) }
    ensures begun { result ≡ SUMS_OK → IsMac256 state.new (block_sized_key sha256 64 key.now) [] }
    ensures kept { result ≢ SUMS_OK → state.new ≡ state.old }
{
    begin::<Sha256Stream, Sha256State>(&mut state.inner, &mut state.outer, key)
}

/// Adds a piece to the text: `SUMS_NOT_BEGUN` if `state` was never begun, else `SUMS_INPUT_TOO_LONG` if the
/// text would be longer than 2^61 - 65 bytes.
#[unsafe(no_mangle)]
pub extern "C" fn sums_hmac_sha256_update(state: &mut HmacSha256State, piece: &[u8]) -> u32
    ensures status { (k m : List ℕ) → IsMac256 state.old k m
        → result ≡ input_status (2 ^ 61 - 1 - 64) (length m + length piece.now) }
    ensures appended { (k m : List ℕ) → IsMac256 state.old k m → result ≡ SUMS_OK
        → IsMac256 state.new k (m ++ piece.now) }
    ensures not_begun { (result ≡ SUMS_NOT_BEGUN) ↔ (IsBegun256 state.old.inner → ⊥) }
    ensures kept { result ≢ SUMS_OK → state.new ≡ state.old }
{
    update_state::<Sha256Stream, Sha256State>(&mut state.inner, piece)
}

/// Fills `out` with the first bytes of the tag (RFC 2104, section 5): `SUMS_NOT_BEGUN` if `state` was never
/// begun, else `SUMS_DIGEST_LENGTH` if `out` has fewer than 16 bytes or more than 32. The text can go on.
#[unsafe(no_mangle)]
pub extern "C" fn sums_hmac_sha256_finish(state: &HmacSha256State, out: &mut [u8]) -> u32
    ensures status { (k m : List ℕ) → IsMac256 state.now k m → result ≡ tag_status 32 (length out.old) }
    ensures tag { (k m : List ℕ) → IsMac256 state.now k m → result ≡ SUMS_OK
        → out.new ≡ take (length out.old) (hmac_of_block_key sha256 k m) }
    ensures inner_not_begun { (IsBegun256 state.now.inner → ⊥) → result ≡ SUMS_NOT_BEGUN }
    ensures outer_not_begun { (IsBegun256 state.now.outer → ⊥) → result ≡ SUMS_NOT_BEGUN }
    ensures kept { result ≢ SUMS_OK → out.new ≡ out.old }
{
    finish::<Sha256Stream, Sha256State>(&state.inner, &state.outer, out)
}

/// An HMAC over SHA-512 between two calls.
#[repr(C)]
#[derive(Drop)]
pub struct HmacSha512State {
    inner: Sha512State,
    outer: Sha512State,
}

/// Begins the HMAC of a text under `key` over SHA-512: `SUMS_KEY_LENGTH` if the key is longer than 2^125 - 1
/// bytes.
#[unsafe(no_mangle)]
pub extern "C" fn sums_hmac_sha512_init(state: &mut HmacSha512State, key: &[u8]) -> u32
    ensures status { result ≡ key_status (2 ^ 125 - 1) (length key.now) }
    ensures begun { result ≡ SUMS_OK → IsMac512 state.new (block_sized_key sha512 128 key.now) [] }
    ensures kept { result ≢ SUMS_OK → state.new ≡ state.old }
{
    begin::<Sha512Stream, Sha512State>(&mut state.inner, &mut state.outer, key)
}

/// Adds a piece to the text: `SUMS_NOT_BEGUN` if `state` was never begun, else `SUMS_INPUT_TOO_LONG` if the
/// text would be longer than 2^125 - 129 bytes.
#[unsafe(no_mangle)]
pub extern "C" fn sums_hmac_sha512_update(state: &mut HmacSha512State, piece: &[u8]) -> u32
    ensures status { (k m : List ℕ) → IsMac512 state.old k m
        → result ≡ input_status (2 ^ 125 - 1 - 128) (length m + length piece.now) }
    ensures appended { (k m : List ℕ) → IsMac512 state.old k m → result ≡ SUMS_OK
        → IsMac512 state.new k (m ++ piece.now) }
    ensures not_begun { (result ≡ SUMS_NOT_BEGUN) ↔ (IsBegun512 state.old.inner → ⊥) }
    ensures kept { result ≢ SUMS_OK → state.new ≡ state.old }
{
    update_state::<Sha512Stream, Sha512State>(&mut state.inner, piece)
}

/// Fills `out` with the first bytes of the tag (RFC 2104, section 5): `SUMS_NOT_BEGUN` if `state` was never
/// begun, else `SUMS_DIGEST_LENGTH` if `out` has fewer than 32 bytes or more than 64. The text can go on.
#[unsafe(no_mangle)]
pub extern "C" fn sums_hmac_sha512_finish(state: &HmacSha512State, out: &mut [u8]) -> u32
    ensures status { (k m : List ℕ) → IsMac512 state.now k m → result ≡ tag_status 64 (length out.old) }
    ensures tag { (k m : List ℕ) → IsMac512 state.now k m → result ≡ SUMS_OK
        → out.new ≡ take (length out.old) (hmac_of_block_key sha512 k m) }
    ensures inner_not_begun { (IsBegun512 state.now.inner → ⊥) → result ≡ SUMS_NOT_BEGUN }
    ensures outer_not_begun { (IsBegun512 state.now.outer → ⊥) → result ≡ SUMS_NOT_BEGUN }
    ensures kept { result ≢ SUMS_OK → out.new ≡ out.old }
{
    finish::<Sha512Stream, Sha512State>(&state.inner, &state.outer, out)
}

/// An HMAC over BLAKE2b with digests of 64 bytes between two calls.
#[repr(C)]
#[derive(Drop)]
pub struct HmacBlake2bState {
    inner: Blake2bState,
    outer: Blake2bState,
}

/// Begins the HMAC of a text under `key` over BLAKE2b with digests of 64 bytes: `SUMS_KEY_LENGTH` if the key
/// is longer than 2^128 - 1 bytes.
#[unsafe(no_mangle)]
pub extern "C" fn sums_hmac_blake2b_init(state: &mut HmacBlake2bState, key: &[u8]) -> u32
    ensures status { result ≡ key_status (2 ^ 128 - 1) (length key.now) }
    ensures begun { result ≡ SUMS_OK
        → IsMac2b state.new (block_sized_key blake2b_512 128 key.now) [] }
    ensures kept { result ≢ SUMS_OK → state.new ≡ state.old }
{
    begin::<Blake2b512, Blake2bState>(&mut state.inner, &mut state.outer, key)
}

/// Adds a piece to the text: `SUMS_NOT_BEGUN` if `state` was never begun, else `SUMS_INPUT_TOO_LONG` if the
/// text would be longer than 2^128 - 129 bytes.
#[unsafe(no_mangle)]
pub extern "C" fn sums_hmac_blake2b_update(state: &mut HmacBlake2bState, piece: &[u8]) -> u32
    ensures status { (k m : List ℕ) → IsMac2b state.old k m
        → result ≡ input_status (2 ^ 128 - 1 - 128) (length m + length piece.now) }
    ensures appended { (k m : List ℕ) → IsMac2b state.old k m → result ≡ SUMS_OK
        → IsMac2b state.new k (m ++ piece.now) }
    ensures not_begun { (result ≡ SUMS_NOT_BEGUN) ↔ (IsBegun2b state.old.inner → ⊥) }
    ensures kept { result ≢ SUMS_OK → state.new ≡ state.old }
{
    update_state::<Blake2b512, Blake2bState>(&mut state.inner, piece)
}

/// Fills `out` with the first bytes of the tag (RFC 2104, section 5): `SUMS_NOT_BEGUN` if `state` was never
/// begun, else `SUMS_DIGEST_LENGTH` if `out` has fewer than 32 bytes or more than 64. The text can go on.
#[unsafe(no_mangle)]
pub extern "C" fn sums_hmac_blake2b_finish(state: &HmacBlake2bState, out: &mut [u8]) -> u32
    ensures status { (k m : List ℕ) → IsMac2b state.now k m → result ≡ tag_status 64 (length out.old) }
    ensures tag { (k m : List ℕ) → IsMac2b state.now k m → result ≡ SUMS_OK
        → out.new ≡ take (length out.old) (hmac_of_block_key blake2b_512 k m) }
    ensures inner_not_begun { (IsBegun2b state.now.inner → ⊥) → result ≡ SUMS_NOT_BEGUN }
    ensures outer_not_begun { (IsBegun2b state.now.outer → ⊥) → result ≡ SUMS_NOT_BEGUN }
    ensures kept { result ≢ SUMS_OK → out.new ≡ out.old }
{
    finish::<Blake2b512, Blake2bState>(&state.inner, &state.outer, out)
}

/// An HMAC over BLAKE2s with digests of 32 bytes between two calls.
#[repr(C)]
#[derive(Drop)]
pub struct HmacBlake2sState {
    inner: Blake2sState,
    outer: Blake2sState,
}

/// Begins the HMAC of a text under `key` over BLAKE2s with digests of 32 bytes: `SUMS_KEY_LENGTH` if the key
/// is longer than 2^64 - 1 bytes.
#[unsafe(no_mangle)]
pub extern "C" fn sums_hmac_blake2s_init(state: &mut HmacBlake2sState, key: &[u8]) -> u32
    ensures status { result ≡ key_status (2 ^ 64 - 1) (length key.now) }
    ensures begun { result ≡ SUMS_OK
        → IsMac2s state.new (block_sized_key blake2s_256 64 key.now) [] }
    ensures kept { result ≢ SUMS_OK → state.new ≡ state.old }
{
    begin::<Blake2s256, Blake2sState>(&mut state.inner, &mut state.outer, key)
}

/// Adds a piece to the text: `SUMS_NOT_BEGUN` if `state` was never begun, else `SUMS_INPUT_TOO_LONG` if the
/// text would be longer than 2^64 - 65 bytes.
#[unsafe(no_mangle)]
pub extern "C" fn sums_hmac_blake2s_update(state: &mut HmacBlake2sState, piece: &[u8]) -> u32
    ensures status { (k m : List ℕ) → IsMac2s state.old k m
        → result ≡ input_status (2 ^ 64 - 1 - 64) (length m + length piece.now) }
    ensures appended { (k m : List ℕ) → IsMac2s state.old k m → result ≡ SUMS_OK
        → IsMac2s state.new k (m ++ piece.now) }
    ensures not_begun { (result ≡ SUMS_NOT_BEGUN) ↔ (IsBegun2s state.old.inner → ⊥) }
    ensures kept { result ≢ SUMS_OK → state.new ≡ state.old }
{
    update_state::<Blake2s256, Blake2sState>(&mut state.inner, piece)
}

/// Fills `out` with the first bytes of the tag (RFC 2104, section 5): `SUMS_NOT_BEGUN` if `state` was never
/// begun, else `SUMS_DIGEST_LENGTH` if `out` has fewer than 16 bytes or more than 32. The text can go on.
#[unsafe(no_mangle)]
pub extern "C" fn sums_hmac_blake2s_finish(state: &HmacBlake2sState, out: &mut [u8]) -> u32
    ensures status { (k m : List ℕ) → IsMac2s state.now k m → result ≡ tag_status 32 (length out.old) }
    ensures tag { (k m : List ℕ) → IsMac2s state.now k m → result ≡ SUMS_OK
        → out.new ≡ take (length out.old) (hmac_of_block_key blake2s_256 k m) }
    ensures inner_not_begun { (IsBegun2s state.now.inner → ⊥) → result ≡ SUMS_NOT_BEGUN }
    ensures outer_not_begun { (IsBegun2s state.now.outer → ⊥) → result ≡ SUMS_NOT_BEGUN }
    ensures kept { result ≢ SUMS_OK → out.new ≡ out.old }
{
    finish::<Blake2s256, Blake2sState>(&state.inner, &state.outer, out)
}
