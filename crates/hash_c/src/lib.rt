//! The hashers for callers that are not Rattle: each call is one function of a static library.
//!
//! A slice is a pointer and then a length in bytes. The status `SUMS_OK` says that all is done; any other
//! says why nothing was, and then what the caller lent is unchanged.
#![tactic(auto, unfolding(crate::specs::Statuses::parameter_status, crate::specs::inside::Streams::fault_status))]

mod blake2_once;
mod blake2b_stream;
mod blake2s_stream;
mod blake3_once;
mod blake3_stream;
mod hkdf_once;
mod hmac_once;
mod hmac_stream;
mod list_lines;
mod lists;
mod piece_digests;
mod sha2_once;
mod sha2_stream;
mod statuses;
mod streaming;
mod tags;
