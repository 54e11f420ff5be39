// A hasher for any of the hashes.

ghost use Rattle.std.specs.Prelude.{◌≡◌, ◌+◌, ℕ, List, [], length, MatchResult, IfOk};
ghost use Rattle.b3.specs.Bytes.{slice};
ghost use Rattle.b3.specs.Modes.{root_of};
ghost use Rattle.hashes.specs.Digest.{IsInRange, digest, digest_len, input_limit};
ghost use Rattle.source.specs.inside.AnyHash.{parameters_of};

use crate::{Alg, BLAKE3_LEN};
use b3::Blake3;
use blake2::{Blake2b, Blake2s, ParameterFault};
use mac::{BlockHash, Sha256Stream, Sha512Stream};
use words::{Absorb, InputTooLong, Tag};

#[derive(Drop)]
enum Inner {
    Sha256(Sha256Stream),
    Sha512(Sha512Stream),
    Blake2b(Blake2b),
    Blake2s(Blake2s),
    Blake3(Blake3),
}

/// A hasher for a hash that is chosen at run time. It takes its input by `Absorb`, and allocates nothing.
#[derive(Drop)]
pub struct AnyHash {
    inner: Inner,
}

impl AnyHash {
    /// A hasher of the empty input. It is refused, with `DigestLength` and nothing else, exactly if BLAKE2
    /// has no digest of this length: `Blake2b` has 1 to 64 bytes, and `Blake2s` 1 to 32.
    pub fn new(alg: Alg) -> Result<AnyHash, ParameterFault>
        ensures range { MatchResult result (λ _. IsInRange alg)
            (λ e. (e ≡ ParameterFault.DigestLength) × (IsInRange alg → ⊥)) }
        ensures empty { IfOk result (λ h. ⟦<AnyHash as Absorb>⟧.holds h []) }
        ensures parameters { IfOk result
            (λ h. ⟦<AnyHash as Absorb>⟧.parameters h ≡ parameters_of alg) }
        ensures room { IfOk result (λ h. ⟦<AnyHash as Absorb>⟧.room_left h ≡ input_limit alg) }
    {
        let inner = match alg {
            Alg::Sha256 => Inner::Sha256(Sha256Stream::new()),
            Alg::Sha512 => Inner::Sha512(Sha512Stream::new()),
            Alg::Blake2b(length) => Inner::Blake2b(Blake2b::new(length)?),
            Alg::Blake2s(length) => Inner::Blake2s(Blake2s::new(length)?),
            Alg::Blake3 => Inner::Blake3(Blake3::new()),
        };
        Ok(AnyHash { inner })
    }

    /// The digest of all that was taken.
    pub fn finish(self) -> Tag
        ensures digest { (alg : Alg) (m : List ℕ) → ⟦<AnyHash as Absorb>⟧.parameters self ≡ parameters_of alg
            → ⟦<AnyHash as Absorb>⟧.holds self m → result ≡ digest alg m }
        ensures length { (alg : Alg) → ⟦<AnyHash as Absorb>⟧.parameters self ≡ parameters_of alg
            → length result ≡ digest_len alg }
    {
        match self.inner {
            Inner::Sha256(hasher) => hasher.finish(),
            Inner::Sha512(hasher) => hasher.finish(),
            Inner::Blake2b(hasher) => hasher.finish(),
            Inner::Blake2s(hasher) => hasher.finish(),
            Inner::Blake3(hasher) => first_bytes(&hasher),
        }
    }
}

// The first bytes of the output, which are BLAKE3's digest unless another length is asked for.
fn first_bytes(hasher: &Blake3) -> Tag
    ensures digest { (m : List ℕ) → ⟦<Blake3 as Absorb>⟧.holds hasher.now m
        → result ≡ slice (root_of (⟦<Blake3 as Absorb>⟧.parameters hasher.now) m) 0 BLAKE3_LEN }
    ensures length { length result ≡ BLAKE3_LEN }
{
    let mut bytes = [0; BLAKE3_LEN];
    hasher.output().fill(&mut bytes).unwrap();
    Tag::of(&bytes).unwrap()
}

impl Absorb for AnyHash {
    ghost use Rattle.source.specs.inside.AnyHash.{any_holds, any_limit, any_parameters, any_room};
    ghost use Rattle.source.specs.inside.AnyHash.{any_room_is};

    ghost holds = { λ s m. any_holds s m };

    ghost parameters = { λ s. any_parameters s };

    ghost room_left = { λ s. any_room s };

    ghost limit = { λ l. any_limit l };

    fn update(&mut self, piece: &[u8]) -> Result<(), InputTooLong> {
        match &mut self.inner {
            Inner::Sha256(hasher) => hasher.update(piece),
            Inner::Sha512(hasher) => hasher.update(piece),
            Inner::Blake2b(hasher) => hasher.update(piece),
            Inner::Blake2s(hasher) => hasher.update(piece),
            Inner::Blake3(hasher) => hasher.update(piece),
        }
    }

    fn room(&self) -> u128
        ensures left { result ≡ ⟦<AnyHash as Absorb>⟧.room_left self.now }
        ensures limit { (alg : Alg) (m : List ℕ) → ⟦<AnyHash as Absorb>⟧.parameters self.now ≡ parameters_of alg
            → ⟦<AnyHash as Absorb>⟧.holds self.now m → result + length m ≡ input_limit alg }
    {
        match &self.inner {
            Inner::Sha256(hasher) => hasher.room(),
            Inner::Sha512(hasher) => hasher.room(),
            Inner::Blake2b(hasher) => hasher.room(),
            Inner::Blake2s(hasher) => u128::from(hasher.room()),
            Inner::Blake3(hasher) => hasher.room(),
        }
    }

    ghost room_is = { λ s m held. any_room_is s m held };
}
