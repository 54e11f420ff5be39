//! Hashers of SHA-256 and SHA-512 that are kept as plain numbers, and HMAC of a text that comes in
//! pieces over two hashers of these or of `blake2`, for a caller whose memory holds them between calls.
#![tactic(auto)]

pub use hash_state::StateOf;
pub use hmac::{begin_hmac, finish_hmac};
pub use laws::state_laws;
pub use state256::Sha256State;
pub use state512::Sha512State;

mod hash_state;
mod hmac;
mod laws;
mod state256;
mod state512;
