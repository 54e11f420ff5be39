// HKDF-Expand: keying material of any length from a pseudorandom key.

ghost use Rattle.std.specs.Prelude.{◌≡◌, ◌<◌, ◌≤◌, ◌+◌, ◌-◌, ◌*◌, ◌↔◌, [], ◌∷◌, ◌++◌, length, min, take, IsOk, OnOk};
ghost use Rattle.std.specs.Prelude.{OnErr, IsErrOf};
ghost use Rattle.mac.specs.Hmac.{hmac};
ghost use Rattle.kdf.specs.Hkdf as spec;

use mac::{BlockHash, Hmac};
use words::{Absorb, Tag};

/// Why `expand` writes nothing.
#[derive(Clone, Copy, Debug, PartialEq, Eq, Drop)]
pub enum ExpandFault {
    /// The pseudorandom key has fewer bytes than a digest.
    PrkTooShort,
    /// The pseudorandom key is longer than the longest input of the hash function.
    KeyTooLong,
    /// More than 255 digests of output are wanted.
    OutputTooLong,
    /// The info is too long for HMAC to take it between a digest and the counter.
    InfoTooLong,
}

/// HKDF-Expand (RFC 5869, section 2.3): fills `out` with keying material from the pseudorandom key `prk`,
/// bound to `info`. If several refusals apply, the first in the order of `ExpandFault` is returned; each
/// leaves `out` as it was. An empty `out` is not refused.
pub fn expand<H: BlockHash>(prk: &[u8], info: &[u8], out: &mut [u8]) -> Result<(), ExpandFault>
    ensures fits { IsOk result ↔ ((H.OUT ≤ length prk.now) × (length prk.now ≤ H.LIMIT)
        × (length out.old ≤ 255 * H.OUT) × (H.BLOCK + H.OUT + length info.now + 1 ≤ H.LIMIT)) }
    ensures filled { OnOk result
        (out.new ≡ spec.expand H.hash_of H.BLOCK prk.now info.now (length out.old)) }

    ensures prk_too_short { IsErrOf result ExpandFault.PrkTooShort ↔ (length prk.now < H.OUT) }
    ensures key_too_long { IsErrOf result ExpandFault.KeyTooLong ↔ (H.LIMIT < length prk.now) }
    ensures output_too_long { IsErrOf result ExpandFault.OutputTooLong ↔ ((H.OUT ≤ length prk.now)
        × (length prk.now ≤ H.LIMIT) × (255 * H.OUT < length out.old)) }
    ensures info_too_long { IsErrOf result ExpandFault.InfoTooLong ↔ ((H.OUT ≤ length prk.now)
        × (length prk.now ≤ H.LIMIT) × (length out.old ≤ 255 * H.OUT)
        × (H.LIMIT < H.BLOCK + H.OUT + length info.now + 1)) }
    ensures refused { OnErr result (out.new ≡ out.old) }
{
    if prk.len() < H::OUT {
        return Err(ExpandFault::PrkTooShort);
    }
    if prk.len() as u128 > H::LIMIT {
        return Err(ExpandFault::KeyTooLong);
    }
    if out.len() > 255 * H::OUT {
        return Err(ExpandFault::OutputTooLong);
    }
    if info.len() as u128 > H::LIMIT - (H::BLOCK + H::OUT + 1) as u128 {
        return Err(ExpandFault::InfoTooLong);
    }
    fill::<H>(prk, info, out);
    Ok(())
}

// Fills `out` block by block, making each block once.
fn fill<H: BlockHash>(prk: &[u8], info: &[u8], out: &mut [u8])
    requires key { length prk.now ≤ H.LIMIT }
    requires info { H.BLOCK + H.OUT + length info.now + 1 ≤ H.LIMIT }
    requires output { length out.old ≤ 255 * H.OUT }
    ensures { out.new ≡ spec.expand H.hash_of H.BLOCK prk.now info.now (length out.old) }
{
    let mut block = Tag::of(&[]).unwrap();
    let mut counter = 0;
    let mut filled = 0;
    while filled < out.len() {
        counter += 1;
        block = next_block::<H>(prk, info, &block, counter);
        filled += put(out, filled, block.bytes());
    }
}

// T(counter), from the block before it.
fn next_block<H: BlockHash>(prk: &[u8], info: &[u8], previous: &Tag, counter: u8) -> Tag
    requires key { length prk.now ≤ H.LIMIT }
    requires info { H.BLOCK + H.OUT + length info.now + 1 ≤ H.LIMIT }
    requires previous { length previous.now ≤ H.OUT }
    ensures length { length result ≡ H.OUT }
    ensures block { result
        ≡ hmac H.hash_of H.BLOCK prk.now (previous.now ++ info.now ++ counter ∷ []) }
{
    let mut mac = Hmac::<H>::new(prk).unwrap();
    mac.update(previous.bytes()).unwrap();
    mac.update(info).unwrap();
    mac.update(&[counter]).unwrap();
    mac.finish()
}

// Writes the beginning of `block` at a place, as much as there is room for, and returns how much.
fn put(out: &mut [u8], at: usize, block: &[u8]) -> usize
    requires { at ≤ length out.old }
    ensures count { result ≡ min (length block.now) (length out.old - at) }
    ensures written { take (at + result) out.new ≡ take at out.old ++ take result block.now }
{
    let count = block.len().min(out.len() - at);
    out[at..at + count].copy_from_slice(&block[..count]);
    count
}
