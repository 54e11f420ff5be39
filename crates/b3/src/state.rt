// A hasher as plain numbers.

ghost use Rattle.std.specs.Prelude.{◌≡◌, ◌↔◌, ℕ, List, IsTrue, IsSome, IfSome};
ghost use Rattle.b3.specs.Begun.{IsBegun};
ghost use Rattle.b3.specs.inside.States.{IsKept, StateHolds};

use crate::chunk::{CHUNK_LEN, Chunk, MOST_CHUNKS};
use crate::hasher::Blake3;
use crate::mode::Parameters;
use crate::stack::Stack;
use arrayvec::ArrayVec;
use words::Absorb;

/// What a BLAKE3 hasher keeps between two calls, as plain numbers in a fixed layout. Any content of this
/// memory is a value of the type: one that no hasher left is refused, or stands for an unknown message, and
/// no call reads outside it. It holds no pointer, and may be copied. It is meant for the memory of one
/// process, and is not a format: its fields can change.
#[repr(C)]
#[derive(Drop)]
pub struct Blake3State {
    key: [u32; 8],
    value: [u32; 8],
    closed: u64,
    len: u64,
    // one more than the flag, so that zeros are not a hasher's
    mode: u64,
    block: [u8; 64],
    // as many of them are in use as `closed` has one-bits
    stack: [[u32; 8]; 54],
}

#[tactic(auto, unfolding(crate::specs::Begun::IsBegun, crate::specs::inside::States::StateHolds))]
impl Blake3State {
    /// Keeps what `hasher` has taken.
    pub fn save(&mut self, hasher: &Blake3)
        ensures { (m : List ℕ) → ⟦<Blake3 as Absorb>⟧.holds hasher.now m
            → StateHolds self.new (⟦<Blake3 as Absorb>⟧.parameters hasher.now) m }
    {
        self.keep(hasher);
    }

    /// The hasher with these numbers. It is `None` exactly if they are not those of a hasher.
    pub fn resume(&self) -> Option<Blake3>
        ensures begun { IsSome result ↔ IsBegun self.now }
        ensures held { (p m : List ℕ) → StateHolds self.now p m → IsSome result }
        ensures parameters { IfSome result (λ hasher. (p m : List ℕ) → StateHolds self.now p m
            → ⟦<Blake3 as Absorb>⟧.parameters hasher ≡ p) }
        ensures holds { IfSome result (λ hasher. (p m : List ℕ) → StateHolds self.now p m
            → ⟦<Blake3 as Absorb>⟧.holds hasher m) }
    {
        if !self.is_begun() {
            return None;
        }
        Some(self.hasher())
    }

    fn is_begun(&self) -> bool
        ensures { IsTrue result ↔ IsBegun self.now }
    {
        0 < self.mode
            && self.mode <= 256
            && self.len <= CHUNK_LEN as u64
            && self.closed < MOST_CHUNKS
            && CHUNK_LEN as u64 * self.closed <= u64::MAX - self.len
            && self.closed.count_ones() <= 54
    }

    fn hasher(&self) -> Blake3
        requires { IsBegun self.now }
        ensures { IsKept self.now result }
    {
        let held = self.closed.count_ones() as usize;
        let mut values = ArrayVec::new();
        values.try_extend_from_slice(&self.stack[..held]).unwrap();
        Blake3 {
            stack: Stack {
                parameters: Parameters {
                    key: self.key,
                    flags: (self.mode - 1) as u8,
                },
                values,
                closed: self.closed,
            },
            chunk: Chunk {
                value: self.value,
                block: self.block,
                len: self.len as usize,
            },
            made: None,
        }
    }

    fn keep(&mut self, hasher: &Blake3)
        ensures begun { IsBegun self.new }
        ensures kept { IsKept self.new hasher.now }
    {
        let values = hasher.stack.values.as_slice();
        self.stack[..values.len()].copy_from_slice(values);
        self.key = hasher.stack.parameters.key;
        self.mode = u64::from(hasher.stack.parameters.flags) + 1;
        self.closed = hasher.stack.closed;
        self.value = hasher.chunk.value;
        self.block = hasher.chunk.block;
        self.len = hasher.chunk.len as u64;
    }
}
