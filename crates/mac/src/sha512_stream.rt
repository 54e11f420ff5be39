// SHA-512 as a stream: a hash value of whole blocks, a buffer with the bytes after them, and how many bytes the
// standard still allows.

ghost use Rattle.std.specs.Prelude.{◌≡◌, ◌-◌, ◌^◌, []};
ghost use Rattle.sha2.specs.Sha512.{sha512};

use crate::block_hash::BlockHash;
use sha_blocks::{Value512, pieces};
use words::{Absorb, InputTooLong, Tag};

// The number of bytes of the longest message.
const LIMIT: u128 = (1 << 125) - 1;

/// SHA-512 (FIPS 180-4, 6.4): at most 2^125 - 1 bytes of input, blocks of 128 and digests of 64.
#[derive(Drop)]
pub struct Sha512Stream {
    value: Value512,
    buffer: [u8; 128],
    room: u128,
}

impl Sha512Stream {
    // How many bytes it has taken.
    fn taken(&self) -> u128
        ensures { result ≡ 2 ^ 125 - 1 - self.now.room }
    {
        LIMIT.saturating_sub(self.room)
    }
}

impl Absorb for Sha512Stream {
    ghost use Rattle.mac.specs.inside.Streams.{StreamHolds512, room_512};

    ghost holds = { λ s m. StreamHolds512 s m };

    ghost parameters = { λ _. [] };

    ghost room_left = { λ s. room_512 s };

    ghost limit = { λ _. 2 ^ 125 - 1 };

    ghost room_is = { λ s m h. h.room };

    fn update(&mut self, piece: &[u8]) -> Result<(), InputTooLong> {
        let length = piece.len() as u128;
        if length > self.room {
            return Err(InputTooLong);
        }
        let taken = self.taken();
        pieces::update(&mut self.value, &mut self.buffer, taken, piece);
        self.room -= length;
        Ok(())
    }

    fn room(&self) -> u128 {
        self.room
    }
}

impl BlockHash for Sha512Stream {
    ghost BLOCK = { 128 };

    ghost OUT = { 64 };

    ghost LIMIT = { 2 ^ 125 - 1 };

    ghost hash_of = { sha512 };

    const BLOCK: usize = 128;

    const OUT: usize = 64;

    const LIMIT: u128 = LIMIT;

    fn new() -> Sha512Stream {
        let (value, buffer) = pieces::begin::<Value512, 128>();
        Sha512Stream {
            value,
            buffer,
            room: LIMIT,
        }
    }

    #[inline(always)]
    fn finish(mut self) -> Tag {
        let taken = self.taken();
        let bits = (8 * taken).to_be_bytes();
        pieces::finish(&mut self.value, &mut self.buffer, taken, &bits);
        Tag::of(&self.value.bytes()).unwrap()
    }

    ghost use Rattle.std.proofs.Common.{refl, rules};
    ghost use Rattle.sha2.proofs.Facts512.{length-sha512};

    ghost numbers = { Prim.search rules };

    ghost digest_length = { λ m _. length-sha512 m };

    ghost limit_is = { λ _ _ _. refl };
}
