// What HMAC requires of a hasher that is kept as plain numbers.

ghost use Rattle.std.specs.Prelude.{◌≡◌, ◌<◌, ◌≤◌, ◌+◌, ◌++◌, ◌↔◌, [], ℕ, List, length, IsOk, IsSome, IfSome, OnOk};
ghost use Rattle.std.specs.Prelude.{OnErr, IsErrOf};
ghost use Rattle.words.specs.Blake2.{blake2b, blake2s};
ghost use Rattle.blake2.specs.Blake2.{unsalted};
ghost use Rattle.blake2.specs.Begun.{IsBegun2b, IsBegun2s};
ghost use Rattle.blake2.specs.inside.States.{StateHolds2b, StateHolds2s};
ghost use Rattle.states.specs.Begun.{IsBegun256, IsBegun512};
ghost use Rattle.states.specs.inside.States.{StateHolds256, StateHolds512};

use crate::{Sha256State, Sha512State};
use blake2::{Blake2b, Blake2bState, Blake2s, Blake2sState, StateFault};
use mac::{Blake2b512, Blake2s256, BlockHash, Sha256Stream, Sha512Stream};
use words::Tag;

/// The plain numbers of a hasher for the function `H`. Any content is a value; one that no hasher left is
/// refused, or stands for an unknown message.
pub trait StateOf<H: BlockHash>: Copy {
    // The hasher has taken these bytes.
    ghost holds: { Self → List ℕ → Type 0 };

    // These can be the numbers of a hasher.
    ghost is_begun: { Self → Type 0 };

    /// Begins a message.
    fn begin(&mut self)
        ensures { holds self.new [] };

    /// Takes `piece` after what was taken before. It is refused if these are not the numbers of a hasher, and
    /// otherwise if the message would exceed `H::LIMIT` bytes.
    fn update(&mut self, piece: &[u8]) -> Result<(), StateFault>
        ensures fits { (m : List ℕ) → holds self.old m
            → IsOk result ↔ (length m + length piece.now ≤ H.LIMIT) }
        ensures appended { OnOk result ((m : List ℕ) → holds self.old m → holds self.new (m ++ piece.now)) }
        ensures too_long { (m : List ℕ) → holds self.old m → IsErrOf result StateFault.TooLong
            ↔ (H.LIMIT < length m + length piece.now) }
        ensures not_begun { IsErrOf result StateFault.NotBegun ↔ (is_begun self.old → ⊥) }
        ensures refused { OnErr result (self.new ≡ self.old) };

    /// The digest of the message, which can be continued. It is `None` exactly if these are not the numbers
    /// of a hasher.
    fn finish(&self) -> Option<Tag>
        ensures begun { IsSome result ↔ is_begun self.now }
        ensures held { (m : List ℕ) → holds self.now m → IsSome result }
        ensures digest { IfSome result (λ tag. (m : List ℕ) → holds self.now m → tag ≡ H.hash_of m) }
        ensures length { IfSome result (λ tag. (m : List ℕ) → holds self.now m → length tag ≡ H.OUT) };
}

impl StateOf<Blake2b512> for Blake2bState {
    ghost holds = { λ s m. StateHolds2b s (unsalted blake2b 64 []) m };

    ghost is_begun = { λ s. IsBegun2b s };

    fn begin(&mut self) {
        self.save(&Blake2b::new(64).unwrap());
    }

    fn update(&mut self, piece: &[u8]) -> Result<(), StateFault> {
        Blake2bState::update(self, piece)
    }

    fn finish(&self) -> Option<Tag> {
        Blake2bState::finish(self)
    }
}

impl StateOf<Blake2s256> for Blake2sState {
    ghost holds = { λ s m. StateHolds2s s (unsalted blake2s 32 []) m };

    ghost is_begun = { λ s. IsBegun2s s };

    fn begin(&mut self) {
        self.save(&Blake2s::new(32).unwrap());
    }

    fn update(&mut self, piece: &[u8]) -> Result<(), StateFault> {
        Blake2sState::update(self, piece)
    }

    fn finish(&self) -> Option<Tag> {
        Blake2sState::finish(self)
    }
}

impl StateOf<Sha256Stream> for Sha256State {
    ghost holds = { λ s m. StateHolds256 s m };

    ghost is_begun = { λ s. IsBegun256 s };

    fn begin(&mut self) {
        Sha256State::begin(self);
    }

    fn update(&mut self, piece: &[u8]) -> Result<(), StateFault> {
        Sha256State::update(self, piece)
    }

    fn finish(&self) -> Option<Tag> {
        Sha256State::finish(self)
    }
}

impl StateOf<Sha512Stream> for Sha512State {
    ghost holds = { λ s m. StateHolds512 s m };

    ghost is_begun = { λ s. IsBegun512 s };

    fn begin(&mut self) {
        Sha512State::begin(self);
    }

    fn update(&mut self, piece: &[u8]) -> Result<(), StateFault> {
        Sha512State::update(self, piece)
    }

    fn finish(&self) -> Option<Tag> {
        Sha512State::finish(self)
    }
}
