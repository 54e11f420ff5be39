// BLAKE2b and BLAKE2s without a key, with digests of full length, as hash functions for HMAC.

ghost use Rattle.std.specs.Prelude.{◌≡◌, ◌-◌, ◌^◌, []};
ghost use Rattle.words.specs.Blake2.{blake2b, blake2s};
ghost use Rattle.blake2.specs.Blake2.{blake2, listed, unsalted};

use crate::block_hash::BlockHash;
use blake2::{Blake2b, Blake2s};
use words::{Absorb, InputTooLong, Tag};

/// BLAKE2b-512 (RFC 7693) without a key: at most 2^128 - 1 bytes of input, blocks of 128 and
/// digests of 64.
#[derive(Drop)]
pub struct Blake2b512 {
    hasher: Blake2b,
    ghost unkeyed: { ⟦<Blake2b as Absorb>⟧.parameters hasher ≡ listed (unsalted blake2b 64 []) },
}

/// BLAKE2s-256 (RFC 7693) without a key: at most 2^64 - 1 bytes of input, blocks of 64 and digests
/// of 32.
#[derive(Drop)]
pub struct Blake2s256 {
    hasher: Blake2s,
    ghost unkeyed: { ⟦<Blake2s as Absorb>⟧.parameters hasher ≡ listed (unsalted blake2s 32 []) },
}

impl Absorb for Blake2b512 {
    ghost use Rattle.mac.specs.inside.Unkeyed.{hasher_2b};

    ghost holds = { λ s m. ⟦<Blake2b as Absorb>⟧.holds (hasher_2b s) m };

    ghost parameters = { λ s. ⟦<Blake2b as Absorb>⟧.parameters (hasher_2b s) };

    ghost room_left = { λ s. ⟦<Blake2b as Absorb>⟧.room_left (hasher_2b s) };

    ghost limit = { λ p. ⟦<Blake2b as Absorb>⟧.limit p };

    ghost room_is = { λ s m h. ⟦<Blake2b as Absorb>⟧.room_is (hasher_2b s) m h };

    fn update(&mut self, piece: &[u8]) -> Result<(), InputTooLong> {
        self.hasher.update(piece)
    }

    fn room(&self) -> u128 {
        self.hasher.room()
    }
}

impl BlockHash for Blake2b512 {
    ghost BLOCK = { 128 };

    ghost OUT = { 64 };

    ghost LIMIT = { 2 ^ 128 - 1 };

    ghost hash_of = { blake2 blake2b (unsalted blake2b 64 []) };

    const BLOCK: usize = 128;

    const OUT: usize = 64;

    const LIMIT: u128 = u128::MAX;

    fn new() -> Blake2b512 {
        Blake2b512 {
            hasher: Blake2b::new(64).unwrap(),
        }
    }

    fn finish(self) -> Tag {
        self.hasher.finish()
    }

    ghost use Rattle.std.proofs.Common.{rules};
    ghost use Rattle.mac.specs.inside.Unkeyed.{length-blake2b, limit_2b};

    ghost numbers = { Prim.search rules };

    ghost digest_length = { λ m _. length-blake2b m };

    ghost limit_is = { λ s _ _. limit_2b s };
}

impl Absorb for Blake2s256 {
    ghost use Rattle.mac.specs.inside.Unkeyed.{hasher_2s};

    ghost holds = { λ s m. ⟦<Blake2s as Absorb>⟧.holds (hasher_2s s) m };

    ghost parameters = { λ s. ⟦<Blake2s as Absorb>⟧.parameters (hasher_2s s) };

    ghost room_left = { λ s. ⟦<Blake2s as Absorb>⟧.room_left (hasher_2s s) };

    ghost limit = { λ p. ⟦<Blake2s as Absorb>⟧.limit p };

    ghost room_is = { λ s m h. ⟦<Blake2s as Absorb>⟧.room_is (hasher_2s s) m h };

    fn update(&mut self, piece: &[u8]) -> Result<(), InputTooLong> {
        self.hasher.update(piece)
    }

    fn room(&self) -> u128 {
        u128::from(self.hasher.room())
    }
}

impl BlockHash for Blake2s256 {
    ghost BLOCK = { 64 };

    ghost OUT = { 32 };

    ghost LIMIT = { 2 ^ 64 - 1 };

    ghost hash_of = { blake2 blake2s (unsalted blake2s 32 []) };

    const BLOCK: usize = 64;

    const OUT: usize = 32;

    const LIMIT: u128 = u64::MAX as u128;

    fn new() -> Blake2s256 {
        Blake2s256 {
            hasher: Blake2s::new(32).unwrap(),
        }
    }

    fn finish(self) -> Tag {
        self.hasher.finish()
    }

    ghost use Rattle.std.proofs.Common.{rules};
    ghost use Rattle.mac.specs.inside.Unkeyed.{length-blake2s, limit_2s};

    ghost numbers = { Prim.search rules };

    ghost digest_length = { λ m _. length-blake2s m };

    ghost limit_is = { λ s _ _. limit_2s s };
}
