// A SHA-512 hasher as plain numbers.

ghost use Rattle.std.specs.Prelude.{◌≡◌, ◌<◌, ◌≤◌, ◌+◌, ◌-◌, ◌^◌, ◌++◌, ◌↔◌, [], ℕ, List, length, IsOk, IsTrue, IsSome};
ghost use Rattle.std.specs.Prelude.{IfSome, IsErrOf, OnOk, OnErr};
ghost use Rattle.sha2.specs.Sha512.{sha512};
ghost use Rattle.states.specs.Begun.{IsBegun512};
ghost use Rattle.states.specs.inside.States.{StateHolds512, taken_512};

use blake2::StateFault;
use sha_blocks::{Value512, pieces};
use words::Tag;

// The number of bytes of a digest.
const OUT: u64 = 64;

// The number of bytes of the longest message.
const LIMIT: u128 = (1 << 125) - 1;

/// What a SHA-512 hasher keeps between two calls, as plain numbers in a fixed layout. Any content of this
/// memory is a value of the type: one that no hasher left is refused, or stands for an unknown message, and
/// no call reads outside it. It holds no pointer, and may be copied. It is meant for the memory of one
/// process, and is not a format: its fields can change.
#[repr(C)]
#[derive(Clone, Copy)]
pub struct Sha512State {
    h: [u64; 8],
    taken_low: u64,
    taken_high: u64,
    digest_length: u64,
    buffer: [u8; 128],
}

#[tactic(auto, unfolding(crate::specs::Begun::IsBegun512, crate::specs::inside::States::StateHolds512))]
impl Sha512State {
    /// Begins a message.
    pub fn begin(&mut self)
        ensures { StateHolds512 self.new [] }
    {
        self.digest_length = OUT;
        let (value, buffer) = pieces::begin::<Value512, 128>();
        let h = value.h;
        self.h = h;
        self.buffer = buffer;
        self.count(0);
    }

    /// Whether these can be the numbers of a hasher.
    pub fn is_begun(&self) -> bool
        ensures value { IsTrue result ↔ IsBegun512 self.now }
        ensures held { (m : List ℕ) → StateHolds512 self.now m → IsTrue result }
    {
        self.digest_length == OUT && self.taken() <= LIMIT
    }

    /// Takes `piece` after what was taken before. It is refused if these are not the numbers of a hasher, and
    /// otherwise if the message would exceed 2^125 - 1 bytes.
    pub fn update(&mut self, piece: &[u8]) -> Result<(), StateFault>
        ensures fits { (m : List ℕ) → StateHolds512 self.old m
            → IsOk result ↔ (length m + length piece.now ≤ 2 ^ 125 - 1) }
        ensures appended { OnOk result ((m : List ℕ) → StateHolds512 self.old m
            → StateHolds512 self.new (m ++ piece.now)) }
        ensures too_long { (m : List ℕ) → StateHolds512 self.old m → IsErrOf result StateFault.TooLong
            ↔ (2 ^ 125 - 1 < length m + length piece.now) }
        ensures not_begun { IsErrOf result StateFault.NotBegun ↔ (IsBegun512 self.old → ⊥) }
        ensures refused { OnErr result (self.new ≡ self.old) }
    {
        if !self.is_begun() {
            return Err(StateFault::NotBegun);
        }
        if piece.len() as u128 > LIMIT - self.taken() {
            return Err(StateFault::TooLong);
        }
        let taken = self.taken();
        let mut value = Value512 { h: self.h };
        pieces::update(&mut value, &mut self.buffer, taken, piece);
        self.h = value.h;
        self.count(taken + piece.len() as u128);
        Ok(())
    }

    /// The digest of the message (FIPS 180-4, section 6.4), which can be continued. It is `None` exactly if
    /// these are not the numbers of a hasher.
    pub fn finish(&self) -> Option<Tag>
        ensures begun { IsSome result ↔ IsBegun512 self.now }
        ensures held { (m : List ℕ) → StateHolds512 self.now m → IsSome result }
        ensures digest { IfSome result (λ tag. (m : List ℕ) → StateHolds512 self.now m → tag ≡ sha512 m) }
        ensures length { IfSome result (λ tag. length tag ≡ 64) }
    {
        if !self.is_begun() {
            return None;
        }
        let taken = self.taken();
        let bits = 8 * taken;
        let mut value = Value512 { h: self.h };
        let mut buffer = self.buffer;
        pieces::finish(&mut value, &mut buffer, taken, &bits.to_be_bytes());
        Some(Tag::of(&value.bytes()).unwrap())
    }

    // How many bytes the message has.
    fn taken(&self) -> u128
        ensures { result ≡ taken_512 self.now }
    {
        u128::from(self.taken_low) + 0x1_0000_0000_0000_0000 * u128::from(self.taken_high)
    }

    // Records how many bytes the message has.
    fn count(&mut self, taken: u128)
        ensures taken { taken_512 self.new ≡ taken }
        ensures h { self.new.h ≡ self.old.h }
        ensures buffer { self.new.buffer ≡ self.old.buffer }
        ensures digest_length { self.new.digest_length ≡ self.old.digest_length }
    {
        self.taken_low = (taken % 0x1_0000_0000_0000_0000) as u64;
        self.taken_high = (taken / 0x1_0000_0000_0000_0000) as u64;
    }
}
