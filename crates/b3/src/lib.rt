//! BLAKE3 (the BLAKE3 paper by O'Connor, Aumasson, Neves and Wilcox-O'Hearn): hash, keyed hash and
//! key derivation of inputs of any length below 2^64 bytes, with output at any position.
//!
//! ```rust
//! use b3::Blake3;
//! use words::Absorb;
//!
//! let mut hasher = Blake3::new();
//! assert!(rt; hasher.update(b"ab").is_ok());
//! assert!(rt; hasher.update(b"c").is_ok());
//! let mut digest = [0; 4];
//! assert!(rt; hasher.output().fill(&mut digest).is_ok());
//! assert_eq!(rt; digest, [0x64, 0x37, 0xb3, 0xac]);
//! ```
#![tactic(auto)]

pub use chunk::{CHUNK_LEN, MOST_CHUNKS};
pub use hasher::Blake3;
pub use laws::{debug_laws, output_laws, state_laws, tree_laws};
pub use message::output_of;
pub use mode::Mode;
pub use node::{BLOCK_LEN, CHUNK_END, CHUNK_START, ROOT};
pub use output::{EndOfOutput, Output};
pub use part::{NotNeighbours, NotWhole, Part};
pub use place::Misplaced;
pub use row::{NotNext, PartValue, Row};
pub use state::Blake3State;

mod absorb;
mod chunk;
mod hasher;
mod lanes;
mod laws;
mod message;
mod mode;
mod node;
mod output;
mod part;
mod place;
mod row;
mod stack;
mod state;
mod tree;
