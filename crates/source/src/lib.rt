//! Any hash over any feed: what bytes come from and what they go to, each of which may fail, and the
//! digest of all that comes.
//!
//! ```rust
//! use source::{Alg, AnyHash, Bytes, digest_of};
//!
//! let hasher = AnyHash::new(Alg::Blake2s(32))?;
//! let mut feed = Bytes::new(b"abc", 2);
//! let tag = digest_of(hasher, &mut feed)?;
//! // 508c5e8c327c14e2e1a72ba34eeb452f37458b209ed63a294d999b4c86675982
//! ```
#![tactic(auto)]

pub use any_hash::AnyHash;
pub use bytes::Bytes;
pub use device::{Device, device_feed_laws, device_sink_laws};
pub use digests::{digest_of, pieces};
pub use feed::{Feed, ReadFailed};
pub use fixed_sink::FixedSink;
pub use hashes::{Alg, BLAKE2B_LEN, BLAKE2S_LEN, BLAKE3_LEN};
pub use parts::{output_in_parts, part_of};
pub use pumping::{SourceFault, pump};
pub use sink::{Sink, WriteFailed, write_all, write_pieces};
pub use slice::slice_laws;
pub use vec_sink::VecSink;

mod any_hash;
mod bytes;
mod device;
mod digests;
mod feed;
mod fixed_sink;
mod front;
mod parts;
mod pumping;
mod sink;
mod slice;
mod vec_sink;
