//! Key derivation: HKDF (RFC 5869) over any hash function that takes its input in blocks, and
//! BLAKE3's derive_key.
//!
//! ```rust
//! use kdf::{Extract, expand};
//! use mac::Sha256Stream;
//! use words::Absorb;
//!
//! let mut extract = Extract::<Sha256Stream>::new(Some(b"salt"))?;
//! extract.update(b"keying material")?;
//! let prk = extract.finish();
//! let mut key = [0; 42];
//! expand::<Sha256Stream>(prk.bytes(), b"info", &mut key)?;
//! ```
#![tactic(auto)]

pub use derive::derive_b3;
pub use expansion::{ExpandFault, expand};
pub use extract::Extract;

mod derive;
mod expansion;
mod extract;
