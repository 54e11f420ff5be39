// A SHA-256 hasher as plain numbers.

ghost use Rattle.std.specs.Prelude.{◌≡◌, ◌<◌, ◌≤◌, ◌+◌, ◌-◌, ◌^◌, ◌++◌, ◌↔◌, [], ℕ, List, length, IsOk, IsTrue, IsSome};
ghost use Rattle.std.specs.Prelude.{IfSome, IsErrOf, OnOk, OnErr};
ghost use Rattle.sha2.specs.Sha256.{sha256};
ghost use Rattle.states.specs.Begun.{IsBegun256};
ghost use Rattle.states.specs.inside.States.{StateHolds256};

use blake2::StateFault;
use sha_blocks::{Value256, pieces};
use words::Tag;

// The number of bytes of a digest.
const OUT: u64 = 32;

// The number of bytes of the longest message.
const LIMIT: u64 = (1 << 61) - 1;

/// What a SHA-256 hasher keeps between two calls, as plain numbers in a fixed layout. Any content of this
/// memory is a value of the type: one that no hasher left is refused, or stands for an unknown message, and
/// no call reads outside it. It holds no pointer, and may be copied. It is meant for the memory of one
/// process, and is not a format: its fields can change.
#[repr(C)]
#[derive(Clone, Copy)]
pub struct Sha256State {
    h: [u32; 8],
    taken: u64,
    digest_length: u64,
    buffer: [u8; 64],
}

#[tactic(auto, unfolding(crate::specs::Begun::IsBegun256, crate::specs::inside::States::StateHolds256))]
impl Sha256State {
    /// Begins a message.
    pub fn begin(&mut self)
        ensures { StateHolds256 self.new [] }
    {
        self.digest_length = OUT;
        let (value, buffer) = pieces::begin::<Value256, 64>();
        let h = value.h;
        self.h = h;
        self.buffer = buffer;
        self.taken = 0;
    }

    /// Whether these can be the numbers of a hasher.
    pub fn is_begun(&self) -> bool
        ensures value { IsTrue result ↔ IsBegun256 self.now }
        ensures held { (m : List ℕ) → StateHolds256 self.now m → IsTrue result }
    {
        self.digest_length == OUT && self.taken <= LIMIT
    }

    /// Takes `piece` after what was taken before. It is refused if these are not the numbers of a hasher, and
    /// otherwise if the message would exceed 2^61 - 1 bytes.
    pub fn update(&mut self, piece: &[u8]) -> Result<(), StateFault>
        ensures fits { (m : List ℕ) → StateHolds256 self.old m
            → IsOk result ↔ (length m + length piece.now ≤ 2 ^ 61 - 1) }
        ensures appended { OnOk result ((m : List ℕ) → StateHolds256 self.old m
            → StateHolds256 self.new (m ++ piece.now)) }
        ensures too_long { (m : List ℕ) → StateHolds256 self.old m → IsErrOf result StateFault.TooLong
            ↔ (2 ^ 61 - 1 < length m + length piece.now) }
        ensures not_begun { IsErrOf result StateFault.NotBegun ↔ (IsBegun256 self.old → ⊥) }
        ensures refused { OnErr result (self.new ≡ self.old) }
    {
        if !self.is_begun() {
            return Err(StateFault::NotBegun);
        }
        if piece.len() as u64 > LIMIT - self.taken {
            return Err(StateFault::TooLong);
        }
        let mut value = Value256 { h: self.h };
        pieces::update(&mut value, &mut self.buffer, u128::from(self.taken), piece);
        self.h = value.h;
        self.taken += piece.len() as u64;
        Ok(())
    }

    /// The digest of the message (FIPS 180-4, section 6.2), which can be continued. It is `None` exactly if
    /// these are not the numbers of a hasher.
    pub fn finish(&self) -> Option<Tag>
        ensures begun { IsSome result ↔ IsBegun256 self.now }
        ensures held { (m : List ℕ) → StateHolds256 self.now m → IsSome result }
        ensures digest { IfSome result (λ tag. (m : List ℕ) → StateHolds256 self.now m → tag ≡ sha256 m) }
        ensures length { IfSome result (λ tag. length tag ≡ 32) }
    {
        if !self.is_begun() {
            return None;
        }
        let bits = 8 * self.taken;
        let mut value = Value256 { h: self.h };
        let mut buffer = self.buffer;
        let taken = u128::from(self.taken);
        pieces::finish(&mut value, &mut buffer, taken, &bits.to_be_bytes());
        Some(Tag::of(&value.bytes()).unwrap())
    }
}
