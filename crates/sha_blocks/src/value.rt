// Hash values that take blocks, and those of SHA-256 and SHA-512 (FIPS 180-4, sections 6.2 and 6.4).

ghost use Rattle.std.specs.Prelude.{◌≡◌, ◌<◌, ◌≤◌, ◌+◌, ◌*◌, ◌++◌, [], ℕ, List, length, take, drop, slice_index_or};
ghost use Rattle.std.specs.Simd.Lanes.{fold_l};
ghost use Rattle.std.proofs.Common.{rules};
ghost use Rattle.sha2.specs.Sha256;
ghost use Rattle.sha2.specs.Sha512;
ghost use Rattle.sha2.proofs.Absorbing256;
ghost use Rattle.sha2.proofs.Absorbing512;

use crate::blocks::compress_blocks256;
use crate::sha512;
use crate::single::compress_block;
use byteorder::{BigEndian, ByteOrder};
use words::{IV32, IV64};

/// A hash value, with the compression function that takes a block of `N` bytes into it.
pub trait HashValue<const N: usize>: Copy {
    // The words of the hash value.
    ghost words: { Self → List ℕ };

    // What a block makes of the words of a hash value.
    ghost compressed: { List ℕ → List ℕ → List ℕ };

    // The words of the hash value after a number of blocks of these bytes.
    ghost words_after: { List ℕ → ℕ → List ℕ };

    /// The hash value before the first block.
    fn start() -> Self
        ensures { words result ≡ words_after [] 0 };

    /// Takes a block.
    fn compress(&mut self, block: &[u8; N])
        ensures whole { length block.now ≡ N }
        ensures value { words self.new ≡ compressed (words self.old) block.now };

    /// Takes blocks, one after the other.
    fn compress_all(&mut self, blocks: &[[u8; N]])
        ensures whole { (i : ℕ) → i < length blocks.now → length (slice_index_or blocks.now i []) ≡ N }
        ensures value { words self.new ≡ fold_l compressed (words self.old) blocks.now };

    ghost positive: { 0 < N };

    ghost small: { N ≤ 128 };

    // A hash value depends on the blocks that were counted, and not on any that follow.
    ghost on_front: { (p q : List ℕ) (n : ℕ) → n * N ≤ length p
        → words_after (p ++ q) n ≡ words_after p n };

    ghost next_block: { (p : List ℕ) (n : ℕ)
        → words_after p (n + 1) ≡ compressed (words_after p n) (take N (drop (n * N) p)) };
}

/// The hash value of SHA-256.
#[derive(Clone, Copy, Drop)]
pub struct Value256 {
    /// Its words.
    pub h: [u32; 8],
}

impl Value256 {
    /// The bytes of the words, the highest first (FIPS 180-4, section 3.1).
    pub fn bytes(&self) -> [u8; 32]
        ensures { result ≡ Sha256.digest_bytes self.now.h 8 }
    {
        let mut bytes = [0; 32];
        BigEndian::write_u32_into(&self.h, &mut bytes);
        bytes
    }
}

impl HashValue<64> for Value256 {
    ghost words = { λ v. v.h };

    ghost compressed = { Sha256.compress };

    ghost words_after = { λ p n. Sha256.hash_after Sha256.initial_hash_256 p n };

    // BLAKE2s took over these words (RFC 7693, section 2.6).
    #[tactic(auto, unfolding(sha2::specs::Sha256::hash_after))]
    fn start() -> Value256 {
        Value256 { h: IV32 }
    }

    fn compress(&mut self, block: &[u8; 64]) {
        compress_block(&mut self.h, block);
    }

    fn compress_all(&mut self, blocks: &[[u8; 64]]) {
        compress_blocks256(&mut self.h, blocks);
    }

    ghost positive = { Prim.search rules };

    ghost small = { Prim.search rules };

    ghost on_front = { λ p q n fits. Absorbing256.hash_after-append Sha256.initial_hash_256 p q n fits };

    ghost next_block = { λ p n. Absorbing256.hash_after_next Sha256.initial_hash_256 p n };
}

/// The hash value of SHA-512.
#[derive(Clone, Copy, Drop)]
pub struct Value512 {
    /// Its words.
    pub h: [u64; 8],
}

impl Value512 {
    /// The bytes of the words, the highest first (FIPS 180-4, section 3.1).
    pub fn bytes(&self) -> [u8; 64]
        ensures { result ≡ Sha512.digest_bytes self.now.h 8 }
    {
        let mut bytes = [0; 64];
        BigEndian::write_u64_into(&self.h, &mut bytes);
        bytes
    }
}

impl HashValue<128> for Value512 {
    ghost words = { λ v. v.h };

    ghost compressed = { Sha512.compress };

    ghost words_after = { λ p n. Sha512.hash_after Sha512.initial_hash_512 p n };

    // BLAKE2b took over these words (RFC 7693, section 2.6).
    #[tactic(auto, unfolding(sha2::specs::Sha512::hash_after))]
    fn start() -> Value512 {
        Value512 { h: IV64 }
    }

    fn compress(&mut self, block: &[u8; 128]) {
        sha512::compress_block(&mut self.h, block);
    }

    fn compress_all(&mut self, blocks: &[[u8; 128]]) {
        sha512::compress_blocks512(&mut self.h, blocks);
    }

    ghost positive = { Prim.search rules };

    ghost small = { Prim.search rules };

    ghost on_front = { λ p q n fits. Absorbing512.hash_after-append Sha512.initial_hash_512 p q n fits };

    ghost next_block = { λ p n. Absorbing512.hash_after_next Sha512.initial_hash_512 p n };
}
