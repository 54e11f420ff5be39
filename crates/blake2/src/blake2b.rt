// BLAKE2b.

ghost use Rattle.std.specs.Prelude.{◌≡◌, ◌+◌, ◌-◌, ◌^◌, [], ℕ, List, length, Some, None, MatchResult};
ghost use Rattle.words.specs.Blake2.{blake2b};
ghost use Rattle.blake2.specs.Blake2.{blake2, from_list, listed, message_limit, salted, unsalted};
ghost use Rattle.blake2.specs.Faults.{parameter_fault};

use crate::ParameterFault;
use crate::chain::Chain2b;
use crate::hasher::Hasher;
use words::{Absorb, InputTooLong, Tag};

/// A hasher for BLAKE2b, with digests and keys of up to 64 bytes (RFC 7693, section 2.1). Messages have up to
/// 2^128 - 1 bytes, or a block of 128 bytes less under a key, so that the count of bytes, which includes the
/// key's block, never wraps.
#[derive(Drop)]
pub struct Blake2b {
    pub(crate) hasher: Hasher<Chain2b, 128, 16>,
}

impl Blake2b {
    /// A hasher of the empty message, without a key, for digests of `digest_length` bytes. It is refused if
    /// that is 0 or above 64 (RFC 7693, section 2.1).
    pub fn new(digest_length: usize) -> Result<Blake2b, ParameterFault>
        ensures { MatchResult result
            (λ h. (parameter_fault 64 digest_length 0 ≡ None)
            × (⟦<Blake2b as Absorb>⟧.parameters h ≡ listed (unsalted blake2b digest_length []))
            × (⟦<Blake2b as Absorb>⟧.room_left h ≡ 2 ^ 128 - 1)
            × ⟦<Blake2b as Absorb>⟧.holds h [])
            (λ e. parameter_fault 64 digest_length 0 ≡ Some e) }
    {
        Blake2b::keyed(digest_length, &[])
    }

    /// A hasher of the empty message under `key`, for digests of `digest_length` bytes. It is refused if that
    /// is 0 or above 64, and otherwise if the key has more than 64 bytes. An empty key means no key; any
    /// other takes up a block of 128 bytes of the room (RFC 7693, section 3.3).
    pub fn keyed(digest_length: usize, key: &[u8]) -> Result<Blake2b, ParameterFault>
        ensures { MatchResult result
            (λ h. (parameter_fault 64 digest_length (length key.now) ≡ None)
            × (⟦<Blake2b as Absorb>⟧.parameters h ≡ listed (unsalted blake2b digest_length key.now))
            × (⟦<Blake2b as Absorb>⟧.room_left h ≡ message_limit (2 ^ 128 - 1) 128 key.now)
            × ⟦<Blake2b as Absorb>⟧.holds h [])
            (λ e. parameter_fault 64 digest_length (length key.now) ≡ Some e) }
    {
        Blake2b::with_parameters(digest_length, key, &[0; 16], &[0; 16])
    }

    /// A hasher of the empty message under `key`, with a salt and a personalization of 16 bytes each, for
    /// digests of `digest_length` bytes. It is refused exactly when `keyed` is, which is the case of zeros
    /// for both (RFC 7693, section 2.5; the BLAKE2 paper, sections 2.5 and 2.8).
    pub fn with_parameters(
        digest_length: usize,
        key: &[u8],
        salt: &[u8; 16],
        personal: &[u8; 16],
    ) -> Result<Blake2b, ParameterFault>
        ensures { MatchResult result
            (λ h. (parameter_fault 64 digest_length (length key.now) ≡ None)
            × (⟦<Blake2b as Absorb>⟧.parameters h
            ≡ listed (salted digest_length key.now salt.now personal.now))
            × (⟦<Blake2b as Absorb>⟧.room_left h ≡ message_limit (2 ^ 128 - 1) 128 key.now)
            × ⟦<Blake2b as Absorb>⟧.holds h [])
            (λ e. parameter_fault 64 digest_length (length key.now) ≡ Some e) }
    {
        Ok(Blake2b {
            hasher: Hasher::with_parameters(digest_length, key, salt, personal)?,
        })
    }

    /// How many more bytes `update` takes: at first 2^128 - 1, or 128 less under a key.
    pub fn room(&self) -> u128
        ensures left { result ≡ ⟦<Blake2b as Absorb>⟧.room_left self.now }
        ensures limit { (m : List ℕ) → ⟦<Blake2b as Absorb>⟧.holds self.now m
            → result + length m ≡ message_limit (2 ^ 128 - 1) 128
            (from_list blake2b (⟦<Blake2b as Absorb>⟧.parameters self.now)).key }
    {
        self.hasher.stream.room()
    }

    /// The digest of the message (RFC 7693, section 3.3).
    pub fn finish(self) -> Tag
        ensures digest { (m : List ℕ) → ⟦<Blake2b as Absorb>⟧.holds self m
            → result ≡ blake2 blake2b (from_list blake2b (⟦<Blake2b as Absorb>⟧.parameters self)) m }
        ensures length { length result
            ≡ (from_list blake2b (⟦<Blake2b as Absorb>⟧.parameters self)).digest_length }
    {
        self.hasher.finish()
    }
}

impl Absorb for Blake2b {
    ghost use Rattle.blake2.specs.inside.Hashers.{Holds2b, parameters_2b, room_left_2b};
    ghost use Rattle.blake2.specs.inside.Rooms.{room_is_2b};

    ghost holds = { λ s m. Holds2b s m };

    ghost parameters = { λ s. parameters_2b s };

    ghost room_left = { λ s. room_left_2b s };

    ghost limit = { λ l. message_limit (2 ^ 128 - 1) 128 (from_list blake2b l).key };

    fn update(&mut self, piece: &[u8]) -> Result<(), InputTooLong> {
        self.hasher.update(piece)
    }

    fn room(&self) -> u128 {
        Blake2b::room(self)
    }

    ghost room_is = { λ s m held. room_is_2b s m held };
}
