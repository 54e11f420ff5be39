// HMAC of a text that comes in pieces, over the plain numbers of two hashers (RFC 2104, section 2).

ghost use Rattle.std.specs.Prelude.{◌≡◌, ◌<◌, ◌≤◌, ◌+◌, ◌-◌, ◌++◌, ◌↔◌, [], ℕ, List, length, IsOk, IsSome, IfSome};
ghost use Rattle.std.specs.Prelude.{None, OnOk, OnErr};
ghost use Rattle.mac.specs.Hmac.{block_sized_key, hmac_of_block_key};
ghost use Rattle.states.specs.Macs.{IsMac};

use crate::hash_state::StateOf;
use blake2::StateFault;
use mac::{BlockHash, IPAD, KeyTooLong, OPAD, block_sized_key, xor_each};
use words::Tag;

/// Begins a MAC under `key`: `inner` takes the key's block with one pad, and `outer` with the other. A key
/// of more than `H::LIMIT` bytes is refused.
pub fn begin_hmac<H: BlockHash, S: StateOf<H>>(
    inner: &mut S,
    outer: &mut S,
    key: &[u8],
) -> Result<(), KeyTooLong>
    ensures fits { IsOk result ↔ (length key.now ≤ H.LIMIT) }
    ensures begun { OnOk result
        (IsMac S.holds H.BLOCK (block_sized_key H.hash_of H.BLOCK key.now) inner.new outer.new []) }
    ensures refused { OnErr result ((inner.new ≡ inner.old) × (outer.new ≡ outer.old)) }
{
    let block = block_sized_key::<H>(key)?;
    begin_with::<H, S>(inner, &xor_each(&block, IPAD)[..H::BLOCK]);
    begin_with::<H, S>(outer, &xor_each(&block, OPAD)[..H::BLOCK]);
    Ok(())
}

// Begins a message with these bytes.
fn begin_with<H: BlockHash, S: StateOf<H>>(state: &mut S, bytes: &[u8])
    requires { length bytes.now ≤ H.LIMIT }
    ensures { S.holds state.new bytes.now }
{
    state.begin();
    state.update(bytes).unwrap();
}

/// The tag of the text, which can be continued. It is `None` if the numbers of either are not a hasher's.
pub fn finish_hmac<H: BlockHash, S: StateOf<H>>(inner: &S, outer: &S) -> Option<Tag>
    ensures held { (k m : List ℕ) → IsMac S.holds H.BLOCK k inner.now outer.now m → IsSome result }
    ensures inner_not_begun { (S.is_begun inner.now → ⊥) → result ≡ None }
    ensures outer_not_begun { (S.is_begun outer.now → ⊥) → result ≡ None }
    ensures tag { IfSome result (λ tag. (k m : List ℕ)
        → IsMac S.holds H.BLOCK k inner.now outer.now m → tag ≡ hmac_of_block_key H.hash_of k m) }
    ensures length { IfSome result (λ tag. (k m : List ℕ)
        → IsMac S.holds H.BLOCK k inner.now outer.now m → length tag ≡ H.OUT) }
{
    let digest = inner.finish()?;
    let mut outer = *outer;
    match outer.update(digest.bytes()) {
        Ok(()) => outer.finish(),
        Err(_) => None,
    }
}
