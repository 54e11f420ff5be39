// A BLAKE2s hasher as plain numbers.

ghost use Rattle.std.specs.Prelude.{◌≡◌, ◌<◌, ◌≤◌, ◌+◌, ◌-◌, ◌^◌, ◌++◌, ◌↔◌, ℕ, List, length, IsOk, IsTrue, IsSome};
ghost use Rattle.std.specs.Prelude.{IfSome, IsErrOf};
ghost use Rattle.std.specs.Prelude.{OnOk, OnErr};
ghost use Rattle.words.specs.Blake2.{blake2s};
ghost use Rattle.blake2.specs.Blake2.{Parameters, blake2, from_list, message_limit};
ghost use Rattle.blake2.specs.Begun.{IsBegun2s};
ghost use Rattle.blake2.specs.inside.States.{StateHolds2s};

use crate::StateFault;
use crate::blake2s::Blake2s;
use crate::chain::{Chain, Chain2s};
use crate::stream::Stream;
use words::{Absorb, Tag};

/// What a BLAKE2s hasher keeps between two calls, as plain numbers in a fixed layout. Any content of this
/// memory is a value of the type: one that no hasher left is refused, or stands for an unknown message, and
/// no call reads outside it. It holds no key and no pointer, and may be copied. It is meant for the memory of
/// one process, and is not a format: its fields can change.
#[repr(C)]
#[derive(Clone, Copy)]
pub struct Blake2sState {
    h: [u32; 8],
    compressed: u64,
    used: u64,
    digest_length: u64,
    buffer: [u8; 64],
}

#[tactic(auto, unfolding(crate::specs::Begun::IsBegun2s, crate::specs::inside::States::StateHolds2s))]
impl Blake2sState {
    /// Keeps what `hasher` has taken.
    pub fn save(&mut self, hasher: &Blake2s)
        ensures { (m : List ℕ) → ⟦<Blake2s as Absorb>⟧.holds hasher.now m
            → StateHolds2s self.new (from_list blake2s (⟦<Blake2s as Absorb>⟧.parameters hasher.now)) m }
    {
        self.digest_length = hasher.hasher.digest_length as u64;
        self.keep(&hasher.hasher.stream);
    }

    /// Whether these can be the numbers of a hasher.
    pub fn is_begun(&self) -> bool
        ensures value { IsTrue result ↔ IsBegun2s self.now }
        ensures held { (p : Parameters) (m : List ℕ) → StateHolds2s self.now p m → IsTrue result }
    {
        0 < self.digest_length
            && self.digest_length <= 32
            && self.used <= 64
            && u128::from(self.used) <= 0xffff_ffff_ffff_ffff - u128::from(self.compressed)
    }

    /// Takes `piece` after what was taken before. It is refused if these are not the numbers of a hasher, and
    /// otherwise if the message would exceed 2^64 - 1 bytes, or a block of 64 bytes less under a key.
    pub fn update(&mut self, piece: &[u8]) -> Result<(), StateFault>
        ensures fits { (p : Parameters) (m : List ℕ) → StateHolds2s self.old p m
            → IsOk result ↔ (length m + length piece.now ≤ message_limit (2 ^ 64 - 1) 64 p.key) }
        ensures appended { OnOk result ((p : Parameters) (m : List ℕ) → StateHolds2s self.old p m
            → StateHolds2s self.new p (m ++ piece.now)) }
        ensures too_long { (p : Parameters) (m : List ℕ) → StateHolds2s self.old p m → IsErrOf result StateFault.TooLong
            ↔ (message_limit (2 ^ 64 - 1) 64 p.key < length m + length piece.now) }
        ensures not_begun { IsErrOf result StateFault.NotBegun ↔ (IsBegun2s self.old → ⊥) }
        ensures refused { OnErr result (self.new ≡ self.old) }
    {
        if !self.is_begun() {
            return Err(StateFault::NotBegun);
        }
        let mut stream = self.stream();
        if piece.len() as u128 > stream.room() {
            return Err(StateFault::TooLong);
        }
        stream.update(piece);
        self.keep(&stream);
        Ok(())
    }

    /// The digest of the message (RFC 7693, section 3.3), which can be continued. It is `None` exactly if
    /// these are not the numbers of a hasher.
    pub fn finish(&self) -> Option<Tag>
        ensures begun { IsSome result ↔ IsBegun2s self.now }
        ensures held { (p : Parameters) (m : List ℕ) → StateHolds2s self.now p m → IsSome result }
        ensures digest { IfSome result (λ tag. (p : Parameters) (m : List ℕ) → StateHolds2s self.now p m
            → tag ≡ blake2 blake2s p m) }
        ensures length { IfSome result (λ tag. (p : Parameters) (m : List ℕ) → StateHolds2s self.now p m
            → length tag ≡ p.digest_length) }
    {
        if !self.is_begun() {
            return None;
        }
        Some(self.stream().finish().tag(self.digest_length as usize))
    }

    fn stream(&self) -> Stream<Chain2s, 64>
        requires { IsBegun2s self.now }
        ensures h { result.chain.h ≡ self.now.h }
        ensures buffer { result.buffer ≡ self.now.buffer }
        ensures used { result.used ≡ self.now.used }
        ensures compressed { result.compressed ≡ self.now.compressed }
    {
        Stream {
            chain: Chain2s { h: self.h },
            buffer: self.buffer,
            used: self.used as usize,
            compressed: u128::from(self.compressed),
        }
    }

    fn keep(&mut self, stream: &Stream<Chain2s, 64>)
        ensures h { self.new.h ≡ stream.now.chain.h }
        ensures buffer { self.new.buffer ≡ stream.now.buffer }
        ensures used { self.new.used ≡ stream.now.used }
        ensures compressed { self.new.compressed ≡ stream.now.compressed }
        ensures digest_length { self.new.digest_length ≡ self.old.digest_length }
    {
        self.h = stream.chain.h;
        self.buffer = stream.buffer;
        self.used = stream.used as u64;
        self.compressed = stream.compressed as u64;
    }
}
