// SHA-256 as a stream: a hash value of whole blocks, a buffer with the bytes after them, and how many bytes the
// standard still allows.

ghost use Rattle.std.specs.Prelude.{◌≡◌, ◌-◌, ◌^◌, []};
ghost use Rattle.sha2.specs.Sha256.{sha256};

use crate::block_hash::BlockHash;
use sha_blocks::{Value256, pieces};
use words::{Absorb, InputTooLong, Tag};

// The number of bytes of the longest message.
const LIMIT: u64 = (1 << 61) - 1;

/// SHA-256 (FIPS 180-4, 6.2): at most 2^61 - 1 bytes of input, blocks of 64 and digests of 32.
#[derive(Drop)]
pub struct Sha256Stream {
    value: Value256,
    buffer: [u8; 64],
    room: u64,
}

impl Sha256Stream {
    // How many bytes it has taken.
    fn taken(&self) -> u64
        ensures { result ≡ 2 ^ 61 - 1 - self.now.room }
    {
        LIMIT.saturating_sub(self.room)
    }
}

impl Absorb for Sha256Stream {
    ghost use Rattle.mac.specs.inside.Streams.{StreamHolds256, room_256};

    ghost holds = { λ s m. StreamHolds256 s m };

    ghost parameters = { λ _. [] };

    ghost room_left = { λ s. room_256 s };

    ghost limit = { λ _. 2 ^ 61 - 1 };

    ghost room_is = { λ s m h. h.room };

    fn update(&mut self, piece: &[u8]) -> Result<(), InputTooLong> {
        let length = piece.len() as u64;
        if length > self.room {
            return Err(InputTooLong);
        }
        let taken = u128::from(self.taken());
        pieces::update(&mut self.value, &mut self.buffer, taken, piece);
        self.room -= length;
        Ok(())
    }

    fn room(&self) -> u128 {
        u128::from(self.room)
    }
}

impl BlockHash for Sha256Stream {
    ghost BLOCK = { 64 };

    ghost OUT = { 32 };

    ghost LIMIT = { 2 ^ 61 - 1 };

    ghost hash_of = { sha256 };

    const BLOCK: usize = 64;

    const OUT: usize = 32;

    const LIMIT: u128 = LIMIT as u128;

    fn new() -> Sha256Stream {
        let (value, buffer) = pieces::begin::<Value256, 64>();
        Sha256Stream {
            value,
            buffer,
            room: LIMIT,
        }
    }

    fn finish(mut self) -> Tag {
        let taken = self.taken();
        let bits = (8 * taken).to_be_bytes();
        pieces::finish(&mut self.value, &mut self.buffer, u128::from(taken), &bits);
        Tag::of(&self.value.bytes()).unwrap()
    }

    ghost use Rattle.std.proofs.Common.{refl, rules};
    ghost use Rattle.sha2.proofs.Facts256.{length-sha256};

    ghost numbers = { Prim.search rules };

    ghost digest_length = { λ m _. length-sha256 m };

    ghost limit_is = { λ _ _ _. refl };
}
