// What the two hash values are, apart from what the code of each does.

ghost use Rattle.std.specs.Prelude.{◌≡◌, ℕ, List};
ghost use Rattle.sha2.specs.Sha256;
ghost use Rattle.sha2.specs.Sha512;

use crate::value::{HashValue, Value256, Value512};

/// Does nothing. Its contract says which hash values the two are: their words, what a block makes of these,
/// and the words after a number of blocks (FIPS 180-4, 5.3.3 and 6.2.2, 5.3.5 and 6.4.2).
pub fn value_laws()
    ensures value256 { ((v : Value256) → ⟦<Value256 as HashValue<64>>⟧.words v ≡ v.h)
        × (⟦<Value256 as HashValue<64>>⟧.compressed ≡ Sha256.compress)
        × ((p : List ℕ) (n : ℕ) → ⟦<Value256 as HashValue<64>>⟧.words_after p n
        ≡ Sha256.hash_after Sha256.initial_hash_256 p n) }
    ensures value512 { ((v : Value512) → ⟦<Value512 as HashValue<128>>⟧.words v ≡ v.h)
        × (⟦<Value512 as HashValue<128>>⟧.compressed ≡ Sha512.compress)
        × ((p : List ℕ) (n : ℕ) → ⟦<Value512 as HashValue<128>>⟧.words_after p n
        ≡ Sha512.hash_after Sha512.initial_hash_512 p n) }
{}
