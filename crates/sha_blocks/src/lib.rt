//! SHA-256 and SHA-512 by blocks (FIPS 180-4, sections 6.2 and 6.4): any number of blocks into a hash value,
//! a message in one call, and, for any hash of blocks, a message in pieces into a hash value and a buffer.
//!
//! The kit's SHA-2 takes one block after another, and its hashers have no state that can lie in a caller's
//! memory. Here the schedules of eight blocks of SHA-256, or of four of SHA-512, are made at once in vectors,
//! partly between the rounds of the blocks before. Fewer blocks go one by one, so that no length is slower
//! than with the kit. A generic form for both widths is no shorter, and slower.
#![tactic(auto)]

pub use blocks::compress_blocks256;
pub use laws::value_laws;
pub use message::{digest256, digest512};
pub use sha512::compress_blocks512;
pub use value::{HashValue, Value256, Value512};

mod blocks;
mod functions;
mod laws;
mod message;
pub mod pieces;
pub mod schedules;
pub mod sha512;
mod single;
mod table;
mod value;
