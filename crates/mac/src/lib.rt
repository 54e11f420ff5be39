//! HMAC (RFC 2104) over any hash function that takes its input in blocks, and four of them: SHA-256,
//! SHA-512, BLAKE2b-512 and BLAKE2s-256.
//!
//! ```rust
//! use mac::{Hmac, Sha256Stream};
//! use words::Absorb;
//!
//! let mut mac = Hmac::<Sha256Stream>::new(b"Jefe")?;
//! mac.update(b"what do ya want ")?;
//! mac.update(b"for nothing?")?;
//! let tag = mac.finish();      // 5bdcc146bf60754e6a042426089575c75a003f089d2739839dec58b964ec3843
//! ```
#![tactic(auto)]

pub use blake2_hash::{Blake2b512, Blake2s256};
pub use block_hash::BlockHash;
pub use hmac::{Hmac, IPAD, OPAD, TagLength};
pub use key::{KeyTooLong, block_sized_key, xor_each};
pub use laws::hash_laws;
pub use sha256_stream::Sha256Stream;
pub use sha512_stream::Sha512Stream;

mod blake2_hash;
mod block_hash;
mod hmac;
mod key;
mod laws;
mod sha256_stream;
mod sha512_stream;
