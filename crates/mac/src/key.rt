// Keys of HMAC: the key as one block, and its two pads.

ghost use Rattle.std.specs.Prelude.{◌≡◌, ◌≤◌, ◌↔◌, length, take, IsOk, IfOk};
ghost use Rattle.words.specs.Words.{padded};
ghost use Rattle.mac.specs.Hmac.{xored};
ghost use Rattle.mac.specs.Hmac as spec;

use crate::block_hash::{BlockHash, hash_both};

/// The key is longer than the longest input of the hash function.
#[derive(Clone, Copy, Debug, PartialEq, Eq, Drop)]
pub struct KeyTooLong;

/// The key as one block, padded with zeros; it is hashed first only if it is longer than a block.
pub fn block_sized_key<H: BlockHash>(key: &[u8]) -> Result<[u8; 128], KeyTooLong>
    ensures fits { IsOk result ↔ (length key.now ≤ H.LIMIT) }
    ensures value { IfOk result
        (λ block. take H.BLOCK block ≡ spec.block_sized_key H.hash_of H.BLOCK key.now) }
    ensures length { IfOk result (λ block. length block ≡ 128) }
{
    if key.len() as u128 > H::LIMIT {
        return Err(KeyTooLong);
    }
    if key.len() <= H::BLOCK {
        return Ok(zero_padded(key));
    }
    Ok(zero_padded(hash_both::<H>(key, &[]).bytes()))
}

// The bytes, padded with zeros.
fn zero_padded(bytes: &[u8]) -> [u8; 128]
    requires { length bytes.now ≤ 128 }
    ensures { result ≡ padded 128 bytes.now }
{
    let mut block = [0; 128];
    block[..bytes.len()].copy_from_slice(bytes);
    block
}

/// Each byte xored with `pad`.
pub fn xor_each(block: &[u8; 128], pad: u8) -> [u8; 128]
    ensures { result ≡ xored pad block.now }
{
    let mut out = [0; 128];
    for i in 0..128 {
        out[i] = block[i] ^ pad;
    }
    out
}
