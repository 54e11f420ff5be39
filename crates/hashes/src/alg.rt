// Which hash, and its numbers.

ghost use Rattle.std.specs.Prelude.{◌≡◌, ◌≤◌, ◌↔◌, IsTrue};
ghost use Rattle.hashes.specs.Digest.{IsInRange, digest_len};

// The length in bytes of the digests of SHA-256 (FIPS 180-4, section 6.2).
const SHA256_LEN: usize = 32;

// The length in bytes of the digests of SHA-512 (FIPS 180-4, section 6.4).
const SHA512_LEN: usize = 64;

/// The length in bytes of the longest digests of BLAKE2b (RFC 7693, section 2.1).
pub const BLAKE2B_LEN: usize = 64;

/// The length in bytes of the longest digests of BLAKE2s (RFC 7693, section 2.1).
pub const BLAKE2S_LEN: usize = 32;

/// The length in bytes of BLAKE3's digests, unless another is asked for (the BLAKE3 paper, section 2.6).
pub const BLAKE3_LEN: usize = 32;

/// A hash with its parameters, without a key.
#[derive(Clone, Copy, Debug, PartialEq, Eq)]
pub enum Alg {
    /// SHA-256 (FIPS 180-4, section 6.2): digests of 32 bytes.
    Sha256,
    /// SHA-512 (FIPS 180-4, section 6.4): digests of 64 bytes.
    Sha512,
    /// BLAKE2b with digests of this many bytes, 1 to 64 (RFC 7693).
    Blake2b(usize),
    /// BLAKE2s with digests of this many bytes, 1 to 32 (RFC 7693).
    Blake2s(usize),
    /// BLAKE3 with digests of 32 bytes.
    Blake3,
}

impl Alg {
    /// The length of its digests in bytes. None is longer than a `Tag`.
    pub fn digest_len(self) -> usize
        ensures value { result ≡ digest_len self }
        ensures bound { IsInRange self → result ≤ 64 }
    {
        match self {
            Alg::Sha256 => SHA256_LEN,
            Alg::Sha512 => SHA512_LEN,
            Alg::Blake2b(length) | Alg::Blake2s(length) => length,
            Alg::Blake3 => BLAKE3_LEN,
        }
    }

    /// Whether digests of its length exist: `Blake2b` has 1 to 64 bytes, and `Blake2s` 1 to 32.
    pub fn is_in_range(self) -> bool
        ensures { IsTrue result ↔ IsInRange self }
    {
        match self {
            Alg::Sha256 | Alg::Sha512 | Alg::Blake3 => true,
            Alg::Blake2b(length) => 1 <= length && length <= BLAKE2B_LEN,
            Alg::Blake2s(length) => 1 <= length && length <= BLAKE2S_LEN,
        }
    }
}
