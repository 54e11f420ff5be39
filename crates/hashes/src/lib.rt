//! The hashes by their names, with the digest of each and its numbers, and a share of what is hashed one after
//! another: what the words of a command line choose, and what lists name.
//!
//! ```rust
//! use hashes::{Alg, Kind};
//!
//! assert_eq!(rt; Kind::named("blake2b"), Some(Kind::Blake2b));
//! assert_eq!(rt; Kind::Blake2b.longest(), Alg::Blake2b(64));
//! ```
#![tactic(auto)]

pub use alg::{Alg, BLAKE2B_LEN, BLAKE2S_LEN, BLAKE3_LEN};
pub use kind::Kind;
pub use share::Share;

mod alg;
mod kind;
mod share;
