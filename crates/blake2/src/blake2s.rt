// BLAKE2s.

ghost use Rattle.std.specs.Prelude.{◌≡◌, ◌+◌, ◌-◌, ◌^◌, [], ℕ, List, length, Some, None, MatchResult};
ghost use Rattle.words.specs.Blake2.{blake2s};
ghost use Rattle.blake2.specs.Blake2.{blake2, from_list, listed, message_limit, salted, unsalted};
ghost use Rattle.blake2.specs.Faults.{parameter_fault};

use crate::ParameterFault;
use crate::chain::Chain2s;
use crate::hasher::Hasher;
use words::{Absorb, InputTooLong, Tag};

/// A hasher for BLAKE2s, with digests and keys of up to 32 bytes (RFC 7693, section 2.1). Messages have up to
/// 2^64 - 1 bytes, or a block of 64 bytes less under a key, so that the count of bytes, which includes the
/// key's block, never wraps.
#[derive(Drop)]
pub struct Blake2s {
    pub(crate) hasher: Hasher<Chain2s, 64, 8>,
}

impl Blake2s {
    /// A hasher of the empty message, without a key, for digests of `digest_length` bytes. It is refused if
    /// that is 0 or above 32 (RFC 7693, section 2.1).
    pub fn new(digest_length: usize) -> Result<Blake2s, ParameterFault>
        ensures { MatchResult result
            (λ h. (parameter_fault 32 digest_length 0 ≡ None)
            × (⟦<Blake2s as Absorb>⟧.parameters h ≡ listed (unsalted blake2s digest_length []))
            × (⟦<Blake2s as Absorb>⟧.room_left h ≡ 2 ^ 64 - 1)
            × ⟦<Blake2s as Absorb>⟧.holds h [])
            (λ e. parameter_fault 32 digest_length 0 ≡ Some e) }
    {
        Blake2s::keyed(digest_length, &[])
    }

    /// A hasher of the empty message under `key`, for digests of `digest_length` bytes. It is refused if that
    /// is 0 or above 32, and otherwise if the key has more than 32 bytes. An empty key means no key; any
    /// other takes up a block of 64 bytes of the room (RFC 7693, section 3.3).
    pub fn keyed(digest_length: usize, key: &[u8]) -> Result<Blake2s, ParameterFault>
        ensures { MatchResult result
            (λ h. (parameter_fault 32 digest_length (length key.now) ≡ None)
            × (⟦<Blake2s as Absorb>⟧.parameters h ≡ listed (unsalted blake2s digest_length key.now))
            × (⟦<Blake2s as Absorb>⟧.room_left h ≡ message_limit (2 ^ 64 - 1) 64 key.now)
            × ⟦<Blake2s as Absorb>⟧.holds h [])
            (λ e. parameter_fault 32 digest_length (length key.now) ≡ Some e) }
    {
        Blake2s::with_parameters(digest_length, key, &[0; 8], &[0; 8])
    }

    /// A hasher of the empty message under `key`, with a salt and a personalization of 8 bytes each, for
    /// digests of `digest_length` bytes. It is refused exactly when `keyed` is, which is the case of zeros
    /// for both (RFC 7693, section 2.5; the BLAKE2 paper, sections 2.5 and 2.8).
    pub fn with_parameters(
        digest_length: usize,
        key: &[u8],
        salt: &[u8; 8],
        personal: &[u8; 8],
    ) -> Result<Blake2s, ParameterFault>
        ensures { MatchResult result
            (λ h. (parameter_fault 32 digest_length (length key.now) ≡ None)
            × (⟦<Blake2s as Absorb>⟧.parameters h
            ≡ listed (salted digest_length key.now salt.now personal.now))
            × (⟦<Blake2s as Absorb>⟧.room_left h ≡ message_limit (2 ^ 64 - 1) 64 key.now)
            × ⟦<Blake2s as Absorb>⟧.holds h [])
            (λ e. parameter_fault 32 digest_length (length key.now) ≡ Some e) }
    {
        Ok(Blake2s {
            hasher: Hasher::with_parameters(digest_length, key, salt, personal)?,
        })
    }

    /// How many more bytes `update` takes: at first 2^64 - 1, or 64 less under a key.
    pub fn room(&self) -> u64
        ensures left { result ≡ ⟦<Blake2s as Absorb>⟧.room_left self.now }
        ensures limit { (m : List ℕ) → ⟦<Blake2s as Absorb>⟧.holds self.now m
            → result + length m ≡ message_limit (2 ^ 64 - 1) 64
            (from_list blake2s (⟦<Blake2s as Absorb>⟧.parameters self.now)).key }
    {
        self.hasher.stream.room() as u64
    }

    /// The digest of the message (RFC 7693, section 3.3).
    pub fn finish(self) -> Tag
        ensures digest { (m : List ℕ) → ⟦<Blake2s as Absorb>⟧.holds self m
            → result ≡ blake2 blake2s (from_list blake2s (⟦<Blake2s as Absorb>⟧.parameters self)) m }
        ensures length { length result
            ≡ (from_list blake2s (⟦<Blake2s as Absorb>⟧.parameters self)).digest_length }
    {
        self.hasher.finish()
    }
}

impl Absorb for Blake2s {
    ghost use Rattle.blake2.specs.inside.Hashers.{Holds2s, parameters_2s, room_left_2s};
    ghost use Rattle.blake2.specs.inside.Rooms.{room_is_2s};

    ghost holds = { λ s m. Holds2s s m };

    ghost parameters = { λ s. parameters_2s s };

    ghost room_left = { λ s. room_left_2s s };

    ghost limit = { λ l. message_limit (2 ^ 64 - 1) 64 (from_list blake2s l).key };

    fn update(&mut self, piece: &[u8]) -> Result<(), InputTooLong> {
        self.hasher.update(piece)
    }

    fn room(&self) -> u128 {
        Blake2s::room(self) as u128
    }

    ghost room_is = { λ s m held. room_is_2s s m held };
}
