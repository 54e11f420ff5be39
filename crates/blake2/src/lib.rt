//! BLAKE2b and BLAKE2s (RFC 7693), with or without a key, a salt and a personalization.
//!
//! ```rust
//! use blake2::Blake2s;
//! use words::Absorb;
//!
//! let mut hasher = Blake2s::new(32)?;
//! hasher.update(b"ab")?;
//! hasher.update(b"c")?;
//! // 508c5e8c327c14e2e1a72ba34eeb452f37458b209ed63a294d999b4c86675982 (RFC 7693, appendix B)
//! let digest = hasher.finish();
//! ```
#![tactic(auto, unfolding(crate::specs::inside::Hashers::Holds2b, crate::specs::inside::Hashers::Holds2s, crate::specs::inside::Hashers::parameters_2b, crate::specs::inside::Hashers::parameters_2s, crate::specs::inside::Hashers::room_left_2b, crate::specs::inside::Hashers::room_left_2s))]

// What callers see is written twice, in `blake2b` and `blake2s` and in `state2b` and `state2s`, in the same
// order: each contract names the lengths of its function, `room` returns `u128` in one and `u64` in the
// other, and no macro may write an impl. What both do is written once, in `hasher` and `stream`.
pub use blake2b::Blake2b;
pub use blake2s::Blake2s;
pub use fault::{ParameterFault, StateFault};
pub use laws::{parameter_laws, state_laws};
pub use state2b::Blake2bState;
pub use state2s::Blake2sState;

mod blake2b;
mod blake2s;
mod chain;
mod fault;
mod hasher;
mod laws;
mod state2b;
mod state2s;
mod stream;
