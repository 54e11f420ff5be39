//! SHA-512 by blocks (FIPS 180-4, section 6.4).

pub use blocks::compress_blocks512;
pub(crate) use ring::compress_block;

mod blocks;
mod functions;
mod ring;
pub mod schedules;
mod table;
