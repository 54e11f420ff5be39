// A BLAKE2b hasher as plain numbers.

ghost use Rattle.std.specs.Prelude.{◌≡◌, ◌<◌, ◌≤◌, ◌+◌, ◌-◌, ◌^◌, ◌++◌, ◌↔◌, ℕ, List, length, IsOk, IsTrue, IsSome};
ghost use Rattle.std.specs.Prelude.{IfSome, IsErrOf};
ghost use Rattle.std.specs.Prelude.{OnOk, OnErr};
ghost use Rattle.words.specs.Blake2.{blake2b};
ghost use Rattle.blake2.specs.Blake2.{Parameters, blake2, from_list, message_limit};
ghost use Rattle.blake2.specs.Begun.{IsBegun2b};
ghost use Rattle.blake2.specs.inside.States.{StateHolds2b, compressed_2b};

use crate::StateFault;
use crate::blake2b::Blake2b;
use crate::chain::{Chain, Chain2b};
use crate::stream::Stream;
use words::{Absorb, Tag};

/// What a BLAKE2b hasher keeps between two calls, as plain numbers in a fixed layout. Any content of this
/// memory is a value of the type: one that no hasher left is refused, or stands for an unknown message, and
/// no call reads outside it. It holds no key and no pointer, and may be copied. It is meant for the memory of
/// one process, and is not a format: its fields can change.
#[repr(C)]
#[derive(Clone, Copy)]
pub struct Blake2bState {
    h: [u64; 8],
    compressed_low: u64,
    compressed_high: u64,
    used: u64,
    digest_length: u64,
    buffer: [u8; 128],
}

#[tactic(auto, unfolding(crate::specs::Begun::IsBegun2b, crate::specs::inside::States::StateHolds2b))]
impl Blake2bState {
    /// Keeps what `hasher` has taken.
    pub fn save(&mut self, hasher: &Blake2b)
        ensures { (m : List ℕ) → ⟦<Blake2b as Absorb>⟧.holds hasher.now m
            → StateHolds2b self.new (from_list blake2b (⟦<Blake2b as Absorb>⟧.parameters hasher.now)) m }
    {
        self.digest_length = hasher.hasher.digest_length as u64;
        self.keep(&hasher.hasher.stream);
    }

    /// Whether these can be the numbers of a hasher.
    pub fn is_begun(&self) -> bool
        ensures value { IsTrue result ↔ IsBegun2b self.now }
        ensures held { (p : Parameters) (m : List ℕ) → StateHolds2b self.now p m → IsTrue result }
    {
        0 < self.digest_length
            && self.digest_length <= 64
            && self.used <= 128
            && u128::from(self.used) <= u128::MAX - self.compressed()
    }

    /// Takes `piece` after what was taken before. It is refused if these are not the numbers of a hasher, and
    /// otherwise if the message would exceed 2^128 - 1 bytes, or a block of 128 bytes less under a key.
    pub fn update(&mut self, piece: &[u8]) -> Result<(), StateFault>
        ensures fits { (p : Parameters) (m : List ℕ) → StateHolds2b self.old p m
            → IsOk result ↔ (length m + length piece.now ≤ message_limit (2 ^ 128 - 1) 128 p.key) }
        ensures appended { OnOk result ((p : Parameters) (m : List ℕ) → StateHolds2b self.old p m
            → StateHolds2b self.new p (m ++ piece.now)) }
        ensures too_long { (p : Parameters) (m : List ℕ) → StateHolds2b self.old p m → IsErrOf result StateFault.TooLong
            ↔ (message_limit (2 ^ 128 - 1) 128 p.key < length m + length piece.now) }
        ensures not_begun { IsErrOf result StateFault.NotBegun ↔ (IsBegun2b self.old → ⊥) }
        ensures refused { OnErr result (self.new ≡ self.old) }
    {
        if !self.is_begun() {
            return Err(StateFault::NotBegun);
        }
        let mut stream = self.stream();
        if piece.len() as u128 > stream.room() {
            return Err(StateFault::TooLong);
        }
        stream.update(piece);
        self.keep(&stream);
        Ok(())
    }

    /// The digest of the message (RFC 7693, section 3.3), which can be continued. It is `None` exactly if
    /// these are not the numbers of a hasher.
    pub fn finish(&self) -> Option<Tag>
        ensures begun { IsSome result ↔ IsBegun2b self.now }
        ensures held { (p : Parameters) (m : List ℕ) → StateHolds2b self.now p m → IsSome result }
        ensures digest { IfSome result (λ tag. (p : Parameters) (m : List ℕ) → StateHolds2b self.now p m
            → tag ≡ blake2 blake2b p m) }
        ensures length { IfSome result (λ tag. (p : Parameters) (m : List ℕ) → StateHolds2b self.now p m
            → length tag ≡ p.digest_length) }
    {
        if !self.is_begun() {
            return None;
        }
        Some(self.stream().finish().tag(self.digest_length as usize))
    }

    // How many bytes have been compressed.
    fn compressed(&self) -> u128
        ensures { result ≡ compressed_2b self.now }
    {
        u128::from(self.compressed_low) + 0x1_0000_0000_0000_0000 * u128::from(self.compressed_high)
    }

    fn stream(&self) -> Stream<Chain2b, 128>
        requires { IsBegun2b self.now }
        ensures h { result.chain.h ≡ self.now.h }
        ensures buffer { result.buffer ≡ self.now.buffer }
        ensures used { result.used ≡ self.now.used }
        ensures compressed { result.compressed ≡ compressed_2b self.now }
    {
        Stream {
            chain: Chain2b { h: self.h },
            buffer: self.buffer,
            used: self.used as usize,
            compressed: self.compressed(),
        }
    }

    fn keep(&mut self, stream: &Stream<Chain2b, 128>)
        ensures h { self.new.h ≡ stream.now.chain.h }
        ensures buffer { self.new.buffer ≡ stream.now.buffer }
        ensures used { self.new.used ≡ stream.now.used }
        ensures compressed { compressed_2b self.new ≡ stream.now.compressed }
        ensures digest_length { self.new.digest_length ≡ self.old.digest_length }
    {
        self.h = stream.chain.h;
        self.buffer = stream.buffer;
        self.used = stream.used as u64;
        self.compressed_low = (stream.compressed % 0x1_0000_0000_0000_0000) as u64;
        self.compressed_high = (stream.compressed / 0x1_0000_0000_0000_0000) as u64;
    }
}
