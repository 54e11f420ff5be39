// HMAC over any hash function that takes its input in blocks.

ghost use Rattle.std.specs.Prelude.{◌≡◌, ◌≤◌, ◌+◌, ◌-◌, ◌/◌, ◌↔◌, ℕ, List, [], length, take, IsOk, IfOk, IfErr, IsTrue};
ghost use Rattle.mac.specs.Hmac.{block_sized_key, hmac_of_block_key};

use crate::block_hash::{BlockHash, hash_both};
use crate::key::{self, KeyTooLong, xor_each};
use words::{Absorb, InputTooLong, Tag, same};

/// The byte of the inner pad (RFC 2104, section 2).
pub const IPAD: u8 = 0x36;

/// The byte of the outer pad.
pub const OPAD: u8 = 0x5c;

/// The length of a shortened tag is below half of the digest's, or above the digest's.
#[derive(Clone, Copy, Debug, PartialEq, Eq, Drop)]
pub struct TagLength;

/// The message authentication code HMAC (RFC 2104) of a text that comes in pieces.
#[derive(Drop)]
pub struct Hmac<H> {
    inner: H,
    key: [u8; 128],
}

impl<H: BlockHash> Absorb for Hmac<H> {
    ghost use Rattle.mac.specs.inside.Macs.{IsMacOf, mac_hasher, mac_key};

    ghost holds = { λ s m. IsMacOf H.holds H.room_left H.BLOCK H.LIMIT s m };

    ghost parameters = { λ s. mac_key H.BLOCK s };

    ghost room_left = { λ s. H.room_left (mac_hasher s) };

    ghost limit = { λ _. H.LIMIT - H.BLOCK };

    ghost room_is = { λ s m h. h.room };

    fn update(&mut self, piece: &[u8]) -> Result<(), InputTooLong> {
        self.inner.update(piece)
    }

    fn room(&self) -> u128 {
        self.inner.room()
    }
}

impl<H: BlockHash> Hmac<H> {
    /// A MAC of the empty text under a key of any length. A key longer than a block is hashed first; one of
    /// more than `H::LIMIT` bytes is refused.
    pub fn new(key: &[u8]) -> Result<Hmac<H>, KeyTooLong>
        ensures fits { IsOk result ↔ (length key.now ≤ H.LIMIT) }
        ensures empty { IfOk result (λ mac. ⟦<Hmac<H> as Absorb>⟧.holds mac []) }
        ensures key { IfOk result (λ mac. ⟦<Hmac<H> as Absorb>⟧.parameters mac
            ≡ block_sized_key H.hash_of H.BLOCK key.now) }
        ensures room { IfOk result (λ mac. ⟦<Hmac<H> as Absorb>⟧.room_left mac + H.BLOCK ≡ H.LIMIT) }
    {
        let key = key::block_sized_key::<H>(key)?;
        let mut inner = H::new();
        inner.update(&xor_each(&key, IPAD)[..H::BLOCK]).unwrap();
        Ok(Hmac { inner, key })
    }

    /// The tag of the text, of `H::OUT` bytes.
    pub fn finish(self) -> Tag
        ensures length { length result ≡ H.OUT }
        ensures tag { (m : List ℕ) → ⟦<Hmac<H> as Absorb>⟧.holds self m
            → result ≡ hmac_of_block_key H.hash_of (⟦<Hmac<H> as Absorb>⟧.parameters self) m }
    {
        let Hmac { inner, key } = self;
        hash_both::<H>(&xor_each(&key, OPAD)[..H::BLOCK], inner.finish().bytes())
    }

    /// The leftmost `n` bytes of the tag (RFC 2104, section 5). An `n` below half of `H::OUT` or
    /// above `H::OUT` is refused, and the MAC is handed back as it was.
    pub fn finish_left(self, n: usize) -> Result<Tag, (Hmac<H>, TagLength)>
        ensures fits { IsOk result ↔ ((H.OUT / 2 ≤ n) × (n ≤ H.OUT)) }
        ensures length { IfOk result (λ tag. length tag ≡ n) }
        ensures tag { IfOk result (λ tag. (m : List ℕ) → ⟦<Hmac<H> as Absorb>⟧.holds self m
            → tag ≡ take n (hmac_of_block_key H.hash_of (⟦<Hmac<H> as Absorb>⟧.parameters self) m)) }
        ensures refused { IfErr result (λ refusal. refusal.0 ≡ self) }
    {
        if n < H::OUT / 2 || n > H::OUT {
            return Err((self, TagLength));
        }
        let tag = self.finish();
        Ok(Tag::of(&tag.bytes()[..n]).unwrap())
    }

    /// Whether `tag` is the whole tag of the text, all its `H::OUT` bytes and no more. Nothing is promised
    /// about the time that this takes: it may reveal where the two differ.
    pub fn verify(self, tag: &[u8]) -> bool
        ensures { (m : List ℕ) → ⟦<Hmac<H> as Absorb>⟧.holds self m → IsTrue result
            ↔ (tag.now ≡ hmac_of_block_key H.hash_of (⟦<Hmac<H> as Absorb>⟧.parameters self) m) }
    {
        same(&self.finish(), tag)
    }
}
