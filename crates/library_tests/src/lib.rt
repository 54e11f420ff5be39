//! Tests of what only a caller in Rust can see of the libraries: reads, writes and opens that fail at each place,
//! generic calls through their bounds, and what faults say. What compares digests, lists and parts is a row of
//! `tests/tables` or a test of the C library.
#![tactic(auto)]

#[cfg(test)]
mod faults;
#[cfg(test)]
mod feeds;
#[cfg(test)]
mod hashers;
#[cfg(test)]
mod joining;
#[cfg(test)]
mod lines;
#[cfg(test)]
mod lists;
#[cfg(test)]
mod parts;
