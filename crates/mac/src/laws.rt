// What the four hash functions are, apart from what the code of each does.

ghost use Rattle.std.specs.Prelude.{◌≡◌, ◌-◌, ◌^◌, []};
ghost use Rattle.sha2.specs.Sha256.{sha256};
ghost use Rattle.sha2.specs.Sha512.{sha512};
ghost use Rattle.words.specs.Blake2.{blake2b, blake2s};
ghost use Rattle.blake2.specs.Blake2.{blake2, unsalted};

use crate::blake2_hash::{Blake2b512, Blake2s256};
use crate::block_hash::BlockHash;
use crate::sha256_stream::Sha256Stream;
use crate::sha512_stream::Sha512Stream;

/// Does nothing. Its contract says which hash functions the four are (FIPS 180-4, 6.2 and 6.4; RFC
/// 7693, 3.3), and how many bytes the block, the digest and the longest input of each have.
pub fn hash_laws()
    ensures sha256 { (⟦<Sha256Stream as BlockHash>⟧.hash_of ≡ sha256)
        × (⟦<Sha256Stream as BlockHash>⟧.BLOCK ≡ 64)
        × (⟦<Sha256Stream as BlockHash>⟧.OUT ≡ 32)
        × (⟦<Sha256Stream as BlockHash>⟧.LIMIT ≡ 2 ^ 61 - 1) }
    ensures sha512 { (⟦<Sha512Stream as BlockHash>⟧.hash_of ≡ sha512)
        × (⟦<Sha512Stream as BlockHash>⟧.BLOCK ≡ 128)
        × (⟦<Sha512Stream as BlockHash>⟧.OUT ≡ 64)
        × (⟦<Sha512Stream as BlockHash>⟧.LIMIT ≡ 2 ^ 125 - 1) }
    ensures blake2b { (⟦<Blake2b512 as BlockHash>⟧.hash_of ≡ blake2 blake2b (unsalted blake2b 64 []))
        × (⟦<Blake2b512 as BlockHash>⟧.BLOCK ≡ 128)
        × (⟦<Blake2b512 as BlockHash>⟧.OUT ≡ 64)
        × (⟦<Blake2b512 as BlockHash>⟧.LIMIT ≡ 2 ^ 128 - 1) }
    ensures blake2s { (⟦<Blake2s256 as BlockHash>⟧.hash_of ≡ blake2 blake2s (unsalted blake2s 32 []))
        × (⟦<Blake2s256 as BlockHash>⟧.BLOCK ≡ 64)
        × (⟦<Blake2s256 as BlockHash>⟧.OUT ≡ 32)
        × (⟦<Blake2s256 as BlockHash>⟧.LIMIT ≡ 2 ^ 64 - 1) }
{}
