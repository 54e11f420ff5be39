// HKDF-Extract: a pseudorandom key from keying material that comes in pieces.

ghost use Rattle.std.specs.Prelude.{◌≡◌, ◌≤◌, ◌+◌, ◌↔◌, ℕ, List, [], length, option_map, IsOk, IfOk};
ghost use Rattle.mac.specs.Hmac.{block_sized_key, hmac_of_block_key};
ghost use Rattle.kdf.specs.Hkdf.{salt_or_zeros};

use mac::{BlockHash, Hmac, KeyTooLong};
use words::{Absorb, InputTooLong, Tag};

/// HKDF-Extract (RFC 5869, section 2.2): takes input keying material piece by piece, and gives a
/// pseudorandom key.
#[derive(Drop)]
pub struct Extract<H> {
    mac: Hmac<H>,
}

impl<H: BlockHash> Absorb for Extract<H> {
    ghost use Rattle.kdf.specs.inside.Extracts.{extract_mac};

    ghost holds = { λ s m. ⟦<Hmac<H> as Absorb>⟧.holds (extract_mac s) m };

    ghost parameters = { λ s. ⟦<Hmac<H> as Absorb>⟧.parameters (extract_mac s) };

    ghost room_left = { λ s. ⟦<Hmac<H> as Absorb>⟧.room_left (extract_mac s) };

    ghost limit = { λ p. ⟦<Hmac<H> as Absorb>⟧.limit p };

    ghost room_is = { λ s m h. ⟦<Hmac<H> as Absorb>⟧.room_is (extract_mac s) m h };

    fn update(&mut self, piece: &[u8]) -> Result<(), InputTooLong> {
        self.mac.update(piece)
    }

    fn room(&self) -> u128 {
        self.mac.room()
    }
}

impl<H: BlockHash> Extract<H> {
    /// Starts on empty keying material. An absent salt stands for `H::OUT` zeros, and is never
    /// refused; a salt of more than `H::LIMIT` bytes is.
    pub fn new(salt: Option<&[u8]>) -> Result<Extract<H>, KeyTooLong>
        ensures fits { IsOk result
            ↔ (length (salt_or_zeros H.OUT (option_map (λ s. s.now) salt.entry)) ≤ H.LIMIT) }
        ensures empty { IfOk result (λ extract. ⟦<Extract<H> as Absorb>⟧.holds extract []) }
        ensures salt { IfOk result (λ extract. ⟦<Extract<H> as Absorb>⟧.parameters extract
            ≡ block_sized_key H.hash_of H.BLOCK
            (salt_or_zeros H.OUT (option_map (λ s. s.now) salt.entry))) }
        ensures room { IfOk result
            (λ extract. ⟦<Extract<H> as Absorb>⟧.room_left extract + H.BLOCK ≡ H.LIMIT) }
    {
        match salt {
            Some(salt) => Ok(Extract {
                mac: Hmac::new(salt)?,
            }),
            None => Ok(Extract {
                mac: Hmac::new(&[0; 64][..H::OUT])?,
            }),
        }
    }

    /// The pseudorandom key, of `H::OUT` bytes.
    pub fn finish(self) -> Tag
        ensures length { length result ≡ H.OUT }
        ensures key { (m : List ℕ) → ⟦<Extract<H> as Absorb>⟧.holds self m
            → result ≡ hmac_of_block_key H.hash_of (⟦<Extract<H> as Absorb>⟧.parameters self) m }
    {
        let Extract { mac } = self;
        mac.finish()
    }
}
