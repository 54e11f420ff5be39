//! The digests of the pieces of a buffer, one after the other: the buffer is cut into pieces of one length,
//! the last of which may be shorter, and some pieces are hashed side by side in the lanes of vectors. So are
//! messages of different lengths that lie in one buffer.
#![tactic(auto)]

pub use blake2b_lanes::{blake2b, blake2b_messages};
pub use blake2s_lanes::{blake2s, blake2s_messages};
pub use blake3_lanes::blake3;
pub use fault::Fault;
pub use sha256_lanes::{sha256, sha256_messages, sha256_rows};
pub use sha512_lanes::{sha512, sha512_messages, sha512_rows};

mod blake2b_lanes;
mod blake2s_lanes;
mod blake3_lanes;
mod block_lanes;
mod chunk_lanes;
mod digests;
mod fault;
mod lanes2;
mod last_blocks;
mod messages;
mod piece_hash;
mod rows;
mod sha256_lanes;
mod sha512_lanes;
mod sha_lanes;
