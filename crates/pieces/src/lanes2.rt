// F of BLAKE2 (RFC 7693, section 3.2) on several inputs side by side: each word is a vector, with one lane for each
// input.

pub mod words32;
pub mod words64;
