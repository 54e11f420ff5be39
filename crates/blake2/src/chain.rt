// The chaining values of BLAKE2b and BLAKE2s (RFC 7693, section 3).
//
// The definitions are over a `Variant`, and the streaming hasher is generic over the chaining value; only G
// and the compression of words are a macro.

ghost use Rattle.std.specs.Prelude.{◌≡◌, ◌≤◌, ◌<◌, ◌*◌, ◌-◌, ◌^◌, ℕ, List, length, take};
ghost use Rattle.std.proofs.Common.{rules};
ghost use Rattle.words.specs.Blake2.{blake2b, blake2s, compress};
ghost use Rattle.words.specs.Mix.{Variant};
ghost use Rattle.words.specs.Words.{word_bytes, words};
ghost use Rattle.blake2.specs.Blake2.{block_len, word_len, xor_words};
ghost use Rattle.blake2.specs.inside.Lengths.{block_len_2b, block_len_2s};

use byteorder::{ByteOrder, LittleEndian};
use words::{IV32, IV64, Tag, compress_2b, compress_2s, words32, words64};

/// A chaining value, with the compression function that advances it by a block of `N` bytes.
pub(crate) trait Chain<const N: usize>: Drop {
    // The constants of the function.
    ghost variant: { Variant };

    // The words of the chaining value.
    ghost value: { Self → List ℕ };

    // The greatest count of bytes.
    ghost LIMIT: { ℕ };

    const LIMIT: u128;

    // The greatest length of a digest, and of a key.
    ghost OUT: { ℕ };

    const OUT: usize;

    // The chaining value before the first block, for a parameter block.
    fn start(parameter_block: &[u8]) -> Self
        requires { length parameter_block.now ≡ 8 * word_len variant }
        ensures { value result ≡ xor_words variant.iv (words (word_len variant) 8 parameter_block.now) };

    fn compress(&mut self, block: &[u8; N], t: u128, last: bool)
        requires { t ≤ LIMIT }
        ensures whole { length block.now ≡ N }
        ensures value { value self.new
            ≡ compress variant (value self.old) (words (word_len variant) 16 block.now) t last };

    // The first bytes of the chaining value.
    fn tag(&self, digest_length: usize) -> Tag
        requires { digest_length ≤ OUT }
        ensures value { result ≡ take digest_length (word_bytes (word_len variant) (value self.now)) }
        ensures length { length result ≡ digest_length };

    ghost block: { N ≡ block_len variant };

    ghost positive: { 0 < N };

    ghost limit_fits: { LIMIT < 2 ^ 128 };

    ghost key_counts: { N ≤ LIMIT };

    ghost out_fits: { OUT ≤ N };

    ghost tag_fits: { OUT ≤ 64 };
}

// Eight words, xored one by one.
macro_rules! xored {
    ($a:ident, $b:ident) => {
        [
            $a[0] ^ $b[0],
            $a[1] ^ $b[1],
            $a[2] ^ $b[2],
            $a[3] ^ $b[3],
            $a[4] ^ $b[4],
            $a[5] ^ $b[5],
            $a[6] ^ $b[6],
            $a[7] ^ $b[7],
        ]
    };
}

/// The chaining value of BLAKE2b.
#[derive(Drop)]
pub(crate) struct Chain2b {
    pub(crate) h: [u64; 8],
}

impl Chain<128> for Chain2b {
    ghost variant = { blake2b };

    ghost value = { λ c. c.h };

    ghost LIMIT = { 2 ^ 128 - 1 };

    const LIMIT: u128 = u128::MAX;

    ghost OUT = { 64 };

    const OUT: usize = 64;

    fn start(parameter_block: &[u8]) -> Chain2b {
        let mut words = [0; 8];
        LittleEndian::read_u64_into(parameter_block, &mut words);
        Chain2b {
            h: xored!(IV64, words),
        }
    }

    fn compress(&mut self, block: &[u8; 128], t: u128, last: bool) {
        compress_2b(&mut self.h, &words64(block), t, last);
    }

    fn tag(&self, digest_length: usize) -> Tag {
        let mut bytes = [0; 64];
        LittleEndian::write_u64_into(&self.h, &mut bytes);
        Tag::of(&bytes[..digest_length]).unwrap()
    }

    ghost block = { block_len_2b };

    ghost positive = { Prim.search rules };

    ghost limit_fits = { Prim.search rules };

    ghost key_counts = { Prim.search rules };

    ghost out_fits = { Prim.search rules };

    ghost tag_fits = { Prim.search rules };
}

/// The chaining value of BLAKE2s.
#[derive(Drop)]
pub(crate) struct Chain2s {
    pub(crate) h: [u32; 8],
}

impl Chain<64> for Chain2s {
    ghost variant = { blake2s };

    ghost value = { λ c. c.h };

    ghost LIMIT = { 2 ^ 64 - 1 };

    const LIMIT: u128 = 0xffff_ffff_ffff_ffff;

    ghost OUT = { 32 };

    const OUT: usize = 32;

    fn start(parameter_block: &[u8]) -> Chain2s {
        let mut words = [0; 8];
        LittleEndian::read_u32_into(parameter_block, &mut words);
        Chain2s {
            h: xored!(IV32, words),
        }
    }

    fn compress(&mut self, block: &[u8; 64], t: u128, last: bool) {
        compress_2s(&mut self.h, &words32(block), t as u64, last);
    }

    fn tag(&self, digest_length: usize) -> Tag {
        let mut bytes = [0; 32];
        LittleEndian::write_u32_into(&self.h, &mut bytes);
        Tag::of(&bytes[..digest_length]).unwrap()
    }

    ghost block = { block_len_2s };

    ghost positive = { Prim.search rules };

    ghost limit_fits = { Prim.search rules };

    ghost key_counts = { Prim.search rules };

    ghost out_fits = { Prim.search rules };

    ghost tag_fits = { Prim.search rules };
}
