// The streaming state that both functions share, for the chaining value of either.

ghost use Rattle.std.specs.Prelude.{◌≡◌, ◌≤◌, ◌+◌, ◌-◌, ◌*◌, ◌++◌, ◌∷◌, [], ℕ, List, length, true, false};
ghost use Rattle.std.specs.List.{concat};
ghost use Rattle.words.specs.Blake2.{compress};
ghost use Rattle.words.specs.Words.{padded, words};
ghost use Rattle.blake2.specs.Blake2.{final_value, word_len};
ghost use Rattle.blake2.specs.inside.Held.{IsChained, IsHeld};

use crate::chain::Chain;
use std::slice::from_ref;
use words::write_at;

/// `bytes`, padded with zeros to a block.
pub(crate) fn padded_block<const N: usize>(bytes: &[u8]) -> [u8; N]
    requires { length bytes.now ≤ N }
    ensures { result ≡ padded N bytes.now }
{
    let mut block = [0; N];
    write_at(&mut block, 0, bytes);
    block
}

// Advances `chain` by blocks, adding `step` to the count of bytes with each, and returns the count.
// Compressions are called only here, so that they are inlined into the loop.
fn compress_blocks<C: Chain<N>, const N: usize>(
    chain: &mut C,
    blocks: &[[u8; N]],
    compressed: u128,
    step: u128,
    last: bool,
) -> u128
    requires { compressed + step * length blocks.now ≤ C.LIMIT }
    ensures count { result ≡ compressed + step * length blocks.now }
    ensures single { (b : List ℕ) → blocks.now ≡ b ∷ [] → (length b ≡ N)
        × (C.value chain.new ≡ compress C.variant (C.value chain.old)
        (words (word_len C.variant) 16 b) (compressed + step) last) }
    ensures chained { (s p : List ℕ) (n : ℕ) → last ≡ false → step ≡ N → compressed ≡ N * n
        → IsChained C.variant s p (C.value chain.old) n
        → IsChained C.variant s (p ++ concat blocks.now) (C.value chain.new) (n + length blocks.now) }
{
    let mut count = compressed;
    'blocks: for block in blocks {
        count += step;
        chain.compress(block, count, last);
    }
    count
}

/// A chaining value, and the bytes of the last block, which waits.
#[derive(Drop)]
pub(crate) struct Stream<C: Chain<N>, const N: usize> {
    pub(crate) chain: C,
    pub(crate) buffer: [u8; N],
    pub(crate) used: usize,
    pub(crate) compressed: u128,
    ghost used_fits: { used ≤ N },
    ghost counted: { compressed + used ≤ C.LIMIT },
}

impl<C: Chain<N>, const N: usize> Stream<C, N> {
    /// The state before any input.
    pub(crate) fn new(chain: C) -> Stream<C, N>
        ensures held { IsHeld C.variant (C.value chain) []
            (C.value result.chain) result.buffer result.used result.compressed }
        ensures count { result.compressed + result.used ≡ 0 }
    {
        Stream {
            chain,
            buffer: [0; N],
            used: 0,
            compressed: 0,
        }
    }

    /// How many more bytes may be counted.
    pub(crate) fn room(&self) -> u128
        ensures { result ≡ C.LIMIT - (self.now.compressed + self.now.used) }
    {
        C::LIMIT - (self.compressed + self.used as u128)
    }

    /// Takes `piece`.
    pub(crate) fn update(&mut self, piece: &[u8])
        requires { self.old.compressed + self.old.used + length piece.now ≤ C.LIMIT }
        ensures count { self.new.compressed + self.new.used
            ≡ self.old.compressed + self.old.used + length piece.now }
        ensures held { (s p : List ℕ)
            → IsHeld C.variant s p (C.value self.old.chain) self.old.buffer self.old.used self.old.compressed
            → IsHeld C.variant s (p ++ piece.now) (C.value self.new.chain)
            self.new.buffer self.new.used self.new.compressed }
    {
        // A full buffer stays open: only more input shows that its block is not the last.
        let space = N - self.used;
        if piece.len() <= space {
            write_at(&mut self.buffer, self.used, piece);
            self.used += piece.len();
            return;
        }
        let (head, rest) = piece.split_at(space);
        let whole = (rest.len() - 1) / N * N;
        let (body, tail) = rest.split_at(whole);
        let (blocks, _) = body.as_chunks::<N>();
        write_at(&mut self.buffer, self.used, head);
        let step = N as u128;
        let filled = from_ref(&self.buffer);
        let count = compress_blocks(&mut self.chain, filled, self.compressed, step, false);
        self.compressed = compress_blocks(&mut self.chain, blocks, count, step, false);
        write_at(&mut self.buffer, 0, tail);
        self.used = tail.len();
    }

    /// The chaining value after the last block.
    pub(crate) fn finish(self) -> C
        ensures { (s p : List ℕ)
            → IsHeld C.variant s p (C.value self.chain) self.buffer self.used self.compressed
            → C.value result ≡ final_value C.variant s p }
    {
        let Stream {
            mut chain,
            mut buffer,
            used,
            compressed,
        } = self;
        let unused = &mut buffer[..];
        unused[used..].fill(0);
        let block = from_ref(&buffer);
        compress_blocks(&mut chain, block, compressed, used as u128, true);
        chain
    }
}
